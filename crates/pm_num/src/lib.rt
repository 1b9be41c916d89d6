//! The numeric formats of PMBus 1.3 Part II: LINEAR11, ULINEAR16 and DIRECT.
//!
//! [`NumFormat::value_of`] gives the exact fraction that a word stands for, and
//! [`NumFormat::nearest`] the word whose value is nearest to a fraction. Fractions are pairs of
//! whole numbers, [`Frac`], which are compared by cross products and never rounded. No call takes
//! memory.
//!
//! IEEE half precision, VID and relative VOUT_MODE are not here.
//!
//! The word for a number of microvolts, 3300400 say, and what it stands for:
//!
//! ```
//! fn nearest(microvolts: i64) -> Result<(u16, i128), NumFault> {
//!     let coefficients = Direct::new(1, 0, 3)?; // a word for each millivolt
//!     let volts = micro(microvolts)?; // N5 beyond 10^15
//!     let word = coefficients.nearest(volts)?; // N3 below the least value, N4 above the greatest
//!     Ok((word, coefficients.value_of(word).floor_micro()))
//! }
//! ```
//!
//! Tests: crates/pm_core_tests
#![tactic(auto)]

mod any_format;
mod bounds;
mod direct;
mod fault;
mod format;
mod frac;
mod grid;
mod laws;
mod linear11;
mod num_format;
mod power;
mod ulinear16;
mod voltage_format;
mod whole;

pub use any_format::AnyFormat;
pub use bounds::{BoundFormat, at_least, at_most};
pub use direct::Direct;
pub use fault::NumFault;
pub use format::canonical;
pub use frac::{Frac, micro};
pub use laws::{
    bounds_hold, found_words_are_nearest, nearest_words_hold, parameters_are_the_shape,
    refusals_tell_the_side,
};
pub use linear11::Linear11;
pub use num_format::NumFormat;
pub use ulinear16::Ulinear16;
pub use voltage_format::VoltageFormat;
