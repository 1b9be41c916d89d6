//! The tables of PMBus 1.3 Part II on which both ends of the bus stand. They are the command codes with their
//! lengths, the VOUT_MODE byte and the five bytes of COEFFICIENTS with the format that they name, and the
//! addresses of SMBus. The cells are the settings that a power converter keeps for each output; a further
//! table has the codes that WRITE_PROTECT lets a host write.
//!
//! It holds no setting and reads no frame: `pm_frame` reads frames by these tables, and the
//! converter and the host keep the cells. It takes no memory.
//!
//! A command by its name, and what an output's VOUT_MODE says:
//!
//! ```
//! fn told(name: &str, mode: u8) -> Option<(Code, usize, VoutMode)> {
//!     let code: Code = name.parse().ok()?; // VOUT_COMMAND is 21h
//!     let mode = VoutMode::read(mode).ok()?; // 14h is ULINEAR16 with the exponent -12
//!     Some((code, code.payload_length(), mode)) // a word of two bytes
//! }
//! ```
//!
//! Tests: crates/pm_core_tests
#![tactic(auto)]

mod address;
mod cell;
mod cells;
mod coefficients;
mod commands;
mod fault;
mod laws;
mod names;
mod operation;
mod protection;
mod reg;
mod scope;
mod vout_mode;

pub use address::address_ok;
pub use cell::{Cell, cell_of};
pub use cells::Cells;
pub use coefficients::{Coefficients, format_of, voltage_format_of};
pub use commands::{Attributes, Code, Info, known};
pub use fault::TableFault;
pub use laws::{
    cells_are_told_apart, cells_have_places, payloads_are_short, registers_are_in_the_table,
};
pub use names::UnknownName;
pub use operation::Operation;
pub use protection::{Protection, is_allowed};
pub use reg::Reg;
pub use scope::Scope;
pub use vout_mode::VoutMode;
