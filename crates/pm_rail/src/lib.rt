//! A rail: what an output commands by what is known, and the way from the settings that it has to those that are
//! wanted, without a glitch.
//!
//! [`rail_of`] says whether an output is on, which register has its voltage, between which voltages it commands, and whether
//! these lie within its limits. [`next_order`] is the next order of a plan, by what is known and what is wanted: no list is stored, and nothing
//! is resumed. [`begin_next`] begins it. Each order leaves what the output commands or makes it what it is to be, from
//! settings that a limit cuts too (`plans_are_without_glitch`), and after five orders at most each register has its
//! wanted word (`plans_end`). A [`Survey`] says which cells to read until all that this rests on is known. A [`Course`] is
//! the whole way, job after job: it surveys, orders, and surveys once more.
//!
//! OPERATION has to be known and is no part of a plan: turning an output on, off or to a margin is an order of its own.
//! A register is known if one word only is possible, and not if one is called confirmed: after a restart that was
//! seen a confirmed word may be stale. The crate takes no memory and sends nothing.
//!
//! A host that has just started knows nothing, so that a plan is refused and a survey begins with a learn:
//!
//! ```
//! fn asked() -> Result<(Option<PlanFault>, Option<Job>), HostFault> {
//!     let guard = Guard::new(0x58, 1, 2, [OutputLimits::Unknown; 8])?;
//!     let wanted = Wanted {
//!         command: Some(0x34CD), // 3.3 V if VOUT_MODE says ULINEAR16 with the exponent -12
//!         max: Some(0x3770),
//!         margin_high: None,
//!         margin_low: None,
//!         min: None,
//!     };
//!     let fault = next_order(&guard, 0, &wanted).err(); // P1 FormatUnknown
//!     let mut survey = Survey::new(0, Some(wanted), 16);
//!     Ok((fault, survey.next(&guard))) // Job::Learn(0), and then a check of OPERATION
//! }
//! ```
//!
//! Tests: crates/pm_core_tests
#![tactic(auto)]

mod apply_end;
mod course;
mod fault;
mod known;
mod laws;
mod missing;
mod next;
mod orders;
mod plan;
mod power;
mod refusals;
mod registers;
mod survey;
mod wanted;

pub use apply_end::{ApplyEnd, StopCause};
pub use course::{Course, Differing};
pub use fault::PlanFault;
pub use laws::{
    courses_end, plans_are_accepted, plans_are_of_what_is_held, plans_are_without_glitch,
    plans_end, surveys_end_known,
};
pub use next::Next;
pub use orders::{Plan, PlanOrder, begin_next, next_order, next_order_in};
pub use plan::next_register;
pub use power::{Power, Rail, Selected, power_in, rail_of, selected_in};
pub use registers::Registers;
pub use survey::{Reads, Survey};
pub use wanted::Wanted;
