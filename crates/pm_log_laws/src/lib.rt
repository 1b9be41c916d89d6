//! What a log that is accepted is worth: its claims are true over lives, and none that isn't forced is accepted.
//!
//! A caller that checks a log of a run has these by a call of the law, which does nothing when it runs:
//!
//! ```
//! accepted_claims_are_held();
//! let found = run_all(c, passes, events)?;
//! match check(c.addr, c.count, passes, acts, claims) {
//!     Ok(()) => Ok(found),
//!     Err(_) => Ok(None),
//! }
//! ```
//!
//! Tests: crates/pm_law_tests
#![tactic(auto)]

mod laws;

pub use laws::{
    accepted_claims_are_held, accepted_claims_hold_beside, accepted_claims_stay,
    accepted_voltages_stay, unknown_claims_are_open, unknown_voltages_are_open,
};
