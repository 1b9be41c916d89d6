//! Logs that prove themselves: what a host was asked for and heard, and what is claimed of it. [`check`] replays a list of acts
//! through a new [`Host`](pm_host::Host), and accepts it only if that host knows each claim by nothing but these acts. It takes no
//! memory:
//!
//! ```
//! fn checked(answer: &[u8]) -> Result<(), CheckFault> {
//!     let cell = Cell::Out(0, Reg::VoutCommand);
//!     let request = [0xB0, 0x06, 0x02, 0x00, 0x21];
//!     let acts = [
//!         Act::Begun(Job::Check(cell)),
//!         Act::Sent(&request, Told::Got(answer)),
//!     ];
//!     check(0x58, 2, 2, &acts, &[Claim::Holds { cell, word: 0x34CD }]) // B1 02 CD 34 B9 proves it
//! }
//! ```
//!
//! What it accepts is true of every device that could have given these answers, unless it restarted since:
//! `accepted_claims_are_held` says so over lives. What is trusted is that the answers came, and which registers a claim says that
//! the device lacks.
//!
//! As a text a log is a trace of what one host sent and what came of it, with a line of a head before it and claims in it.
//! [`check_log`] reads a text of any length in constant memory, replays it line by line, and writes one line: that each claim is
//! known by the transfers before it, or which line isn't, and why. A claim may say that the part lacks registers. That is the
//! writer's word: [`Lacks`] says of which parts and registers the receiver takes it.
//!
//! What a line says is [`LogLine`], what is known after lines is [`Checked`]. Jobs aren't written down: the first frame of
//! one names it, and a frame that isn't the open job's next is a restart of the host, which only forgets.
//!
//! ```
//! fn text_checked<R: Read + Drop, W: Write + Drop>(
//!     alloc: Global,
//!     log: R,
//!     paper: W,
//! ) -> Result<W, TextFault> {
//!     let mut sink = Sink::new(paper);
//!     check_log(alloc, &mut Source::new(log), &mut sink, &Lacks::nothing())?;
//!     Ok(sink.into_inner()) // accepted: 1 claim, 1 transfer
//! }
//! ```
//!
//! Tests: crates/pm_text_tests
#![tactic(auto)]

mod act;
mod answers;
mod check_fault;
mod checked;
mod checking;
mod claim;
mod fault;
mod jobs;
mod lacks;
mod laws;
mod log_line;
mod log_text;
mod open_log;
mod replay;
mod transfer;
mod verdict_text;

pub use act::{Act, replay_act};
pub use check_fault::{ActFault, CheckFault};
pub use checked::{Checked, Refusal};
pub use checking::{LogEnd, check_log};
pub use claim::{Claim, is_claimed};
pub use fault::LogFault;
pub use jobs::job_named;
pub use lacks::Lacks;
pub use laws::{logs_are_checked, logs_are_transcripts};
pub use log_line::{LogLine, read_log_line};
pub use log_text::{LogText, MAX_LINE};
pub use open_log::OpenLog;
pub use replay::check;
