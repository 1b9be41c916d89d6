//! The loop of firmware: a [`Driver`] carries the jobs of a [`Host`](pm_host::Host) out over a [`Bus`], and what it
//! answers is proved to the calls of the bus.
//!
//! A [`Bus`] has two calls, `write` and `read`, and its contract says what a bus may do to the converter at its
//! other end. It may lose, cut, repeat and damage frames, acknowledge falsely and restart the converter, but do no
//! damage that the packet error code doesn't betray. [`carry_out`] sends each frame of the host's open job by one
//! such call, and the host hears what the call answered. Its contract (`Leads`) says just that, and that every life
//! which led to the host and the converter before leads to those after. What holds of lives thus holds of a caller's
//! own loop, with no list of events.
//!
//! An [`Adapter`] is what lies below a bus that knows more than whether a frame was acknowledged: it says which frames the
//! converter heard nothing of, so that a bus over it may send these again.
//!
//! The bus counts the converter's restarts, and each call of a driver hands out how many there were: while there are
//! none, what the host calls confirmed is held ([`restarts_are_counted`], [`Driver::laws`]).
//!
//! [`Driver::run_course`] carries a course of `pm_course` out, by steps of that course only: what the laws of `pm_course_laws` say of
//! courses in lives holds of it, as that the output commands at each moment what it commanded before or what is wanted, while the
//! bus counts no restart.
//!
//! It has no clock and no memory: a bus decides how long it waits, and whether it tries a write again. There is one host
//! and one converter; a second master on the bus is no part of it. It has two buses of its own: a [`SimulatedBus`] has the
//! model converter at its other end and a plan of faults, to try a firmware's own code over, and a [`Patient`] one stands
//! over any [`Adapter`].
//!
//! An order, over a bus of the caller's:
//!
//! ```
//! fn ordered<B: Bus>(driver: &mut Driver<B>) -> Result<JobEnd, LimitFault> {
//!     driver.order(Cell::Out(0, Reg::VoutCommand), 0x34CD) // Done: the converter held 34CDh when it was read
//! }
//! ```
//!
//! A rail, to voltages or words, or to a byte of OPERATION, as a course of `pm_course` says frame after frame:
//!
//! ```
//! fn applied<B: Bus>(driver: &mut Driver<B>) -> Option<CourseEnd> {
//!     if driver.host().outputs() == 0 {
//!         return None;
//!     }
//!     let wishes = Wishes {
//!         command: Wish::Microvolts(3_300_000),
//!         max: Wish::Microvolts(3_465_000),
//!         ..Wishes::nothing()
//!     };
//!     let mut course = FrameCourse::new(0, &wishes, 60);
//!     Some(driver.run_course(&mut course)) // Reached: unless it restarted, the converter holds the words of both
//! }
//! ```
//!
//! Tests: crates/pm_core_tests, crates/pm_law_tests
#![tactic(auto)]

mod adapter;
mod bus;
mod buses;
mod driver;
mod frames;
mod laws;

pub use adapter::{Adapter, ReadEnd, WriteEnd};
pub use bus::Bus;
pub use buses::{
    DeadBus, Fault, Patient, Retrying, SimulatedBus, driver_over, never_restarts_stays,
    parts_compose, patient_never_restarts_stays, read_without_restart, reads_keep_never_restarts,
    requests_may_be_lost, run_patiently_without_restart, run_without_restart,
};
pub use driver::Driver;
pub use frames::carry_out;
pub use laws::{
    ends_are_true, jobs_restart_nothing, leads_compose, lives_lead_on, new_converters_may_begin,
    reads_restart_nothing, requests_are_no_writes, restarts_are_counted,
};
