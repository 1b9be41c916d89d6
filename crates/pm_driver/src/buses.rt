//! Buses for a [`Driver`](crate::Driver), each proved to meet the contract of [`Bus`](crate::Bus).
//!
//! A [`SimulatedBus`] has the model converter at its other end, and a plan of faults: a firmware's own code is tried
//! over it under loss, cuts, repeats, damage and restarts. Each frame goes just as its plan says, but what no bus may do to a
//! frame, as damage that the packet error code doesn't betray, and what is longer than its room, is lost. A [`DeadBus`] is one
//! whose line is cut. [`Retrying`] stands over any bus, and tries a write again that wasn't acknowledged. [`Patient`] stands
//! over any [`Adapter`](crate::Adapter), and sends again what the converter heard nothing of.
//!
//! ```
//! fn tried(config: Config, plan: &[Fault]) -> Option<JobEnd> {
//!     let mut driver = driver_over(config, 2, plan)?;
//!     driver.order(Cell::Out(0, Reg::VoutCommand), 0x34CD).ok()
//! }
//! ```

mod converter_end;
mod dead_bus;
mod fault;
mod laws;
mod patient;
mod plans;
mod retrying;
mod simulated_bus;

pub use dead_bus::DeadBus;
pub use fault::Fault;
pub use laws::{
    never_restarts_stays, parts_compose, patient_never_restarts_stays, reads_keep_never_restarts,
    requests_may_be_lost,
};
pub use patient::Patient;
pub use plans::{read_without_restart, run_patiently_without_restart, run_without_restart};
pub use retrying::Retrying;
pub use simulated_bus::{SimulatedBus, driver_over};
