//! The settings of a power converter as a map of cells: each cell a word, and what the outputs
//! command by it.
//!
//! [`Plain`] is the map of a converter with one to eight outputs, [`OrderMachine`] is such a map and its
//! store under nothing but jobs, and [`Formats`] says what the words of each output's voltages stand for.
//! [`Plain::commanded`] is the voltage that an output asks for, cut to its VOUT_MIN and VOUT_MAX.
//!
//! It hears no frame and keeps no page, no reading and no status: `pm_device` does. It takes no
//! memory.
//!
//! ```
//! // An order of 3.3 V to an output whose VOUT_MAX is 2 V: what it commands, and whether that is cut.
//! fn limited() -> Option<(i128, i128, bool)> {
//!     // OPERATION, VOUT_COMMAND, VOUT_MAX, both margins and VOUT_MIN, in ULINEAR16 with N = -12
//!     let start = [0x80, 0x1000, 0x2000, 0x1100, 0x0F00, 0x0000];
//!     let mut plain = Plain::new(1, [start; 8], 0x00);
//!     plain.put(Cell::Out(0, Reg::VoutCommand), 0x34CD);
//!     let formats = Formats {
//!         count: 1,
//!         each: [AnyFormat::Ulinear16(Ulinear16::new(-12)?); 8],
//!     };
//!     let volts = plain.commanded(&formats, 0);
//!     Some((volts.num(), volts.den(), plain.is_cut(&formats, 0))) // 8192 / 4096 V, true
//! }
//! ```
//!
//! Tests: crates/pm_core_tests
#![tactic(auto)]

mod laws;
mod order_machine;
mod plain;

pub use laws::{
    commands_are_limited, orders_stay_in_their_cells, outputs_stand_alone, settings_are_a_map,
};
pub use order_machine::{OrderMachine, PendingJob};
pub use plain::{Formats, Plain};
