//! Scenarios, and the names of all texts that the program reads and writes. A scenario is a text that
//! says what both ends of a bus are made from, and what happens between them, event by event. It is
//! read ([`read_scenario`]), its events happen, and a report says what they come to ([`render_report`]);
//! [`replay`] does all three, from a reader to a writer, and keeps no event. By its parts, for a text of four events:
//!
//! ```
//! fn report_by_parts(alloc: Global, text: &str) -> Result<String, TextFault> {
//!     let scenario = read_scenario(alloc, text.as_bytes())?; // X1, X2: its first faulty line
//!     let events = scenario.events.as_slice();
//!     let (world, stop) = World::run(scenario.config, scenario.passes, events)?; // X7: no world is made
//!     let run = Ran {
//!         version: scenario.version,
//!         world,
//!         taken: 4, // if none stopped it
//!         stop,
//!     };
//!     render_report(alloc, &run)
//! }
//! ```
//!
//! Traces and streams have crates of their own; their types and calls are named here too, so
//! that a caller needs only this crate. What a world does is not here.
//!
//! Tests: crates/pm_text_tests
#![tactic(auto)]

mod base;
mod form;
mod laws;
mod replays;
mod report;
mod runs;
mod scenario;

pub use base::base_converter;
pub use form::Form;
pub use laws::lowest_words_cut_nothing;
pub use pm_decode::decode;
pub use pm_lines::{MAX_TEXT, Sink, Source, TextFault};
pub use pm_trace::{
    ByteList, DecodeEnd, Decoder, Fed, Shown, TraceLine, read_trace_line, render_line,
};
pub use replays::{ReplayEnd, replay};
pub use report::outputs::microvolts;
pub use report::render_report;
pub use runs::Ran;
pub use scenario::cells::cell as read_cell;
pub use scenario::event_line::finish as read_finish;
pub use scenario::events::Events;
pub use scenario::fault::ScenarioFault;
pub use scenario::fields::Fields;
pub use scenario::frames::frame_of;
pub use scenario::job_line::job_line as read_job;
pub use scenario::reading::{Measured, reading as read_reading};
pub use scenario::setup::read_setup;
pub use scenario::{Scenario, read_scenario};
