//! Limits of each output's voltage, and the band of voltage that is known.
//!
//! A [`Guard`] is a host that refuses orders beyond an output's [`Limits`]: a voltage whose word stands for a
//! value outside them. It refuses a byte of OPERATION that leaves the output on, unless what that would
//! command is known to lie within. An output of which no limits are known is ordered no voltage: say that it
//! has none by [`Guard::no_limits`]. [`band_of`] says between which voltages an output may be by what a host
//! knows, as exact fractions; no narrower band is true if the possible words are exact
//! (`possible_words_are_exact` of `pm_world`).
//!
//! A guard knows what was ordered through it and what was read. What a device or its user store held before
//! it can't know: check the registers first, and ask [`Guard::within`].
//!
//! A part may lack VOUT_MAX, VOUT_MIN or a margin: [`PartRegisters`] says so to [`Guard::of_part`]. A guard refuses a job
//! on a register that isn't there, and a missing VOUT_MIN or VOUT_MAX stands at the end of the format, if it cuts nothing.
//!
//! A 3.3 V rail that takes 3.200 V to 3.465 V:
//!
//! ```
//! fn guarded() -> Result<Guard, LimitFault> {
//!     let limits = [OutputLimits::Unknown; 8];
//!     let mut guard = Guard::new(0x58, 1, 2, limits).map_err(LimitFault::Host)?;
//!     guard.narrow(0, 3_200_000, 3_465_000)?;
//!     Ok(guard)
//! }
//! ```
//!
//! Tests: crates/pm_core_tests
#![tactic(auto)]

mod band;
mod ends;
mod fault;
mod guard;
mod judgement;
mod laws;
mod limits;
mod output_limits;
mod part_registers;

pub use band::{Band, band_in, band_of, selects_avsbus};
pub use ends::Side;
pub use fault::LimitFault;
pub use guard::{Guard, Within};
pub use judgement::{NewLimits, judge, narrower_limits, ordered_output, within_limits};
pub use laws::{
    bands_are_ends, guarded_orders_are_within, missing_limits_cut_nothing, whole_parts_miss_nothing,
};
pub use limits::Limits;
pub use output_limits::OutputLimits;
pub use part_registers::PartRegisters;
