//! The library under the program `pmb`: what the program does, over any reader and any two writers.
//!
//! `program` is the whole program, over arguments and any streams, and `run` the same over any words:
//! it answers the exit status. `hear` lets a model converter hear the frames of a text
//! and writes its answers; `number` writes one word of a number format with its value. `replay` and
//! `decode` are those of `pm_text`, and `decode` with options is the telling of `pm_decode`. `chosen` says
//! which of the four a command line names, and `TellTexts` which options of `decode`. The whole program over any streams:
//!
//! ```
//! fn number<W: Write + Drop, E: Write + Drop>(alloc: Global, output: W, errors: E) -> (u8, W) {
//!     let words = ["pmb", "number", "--format=linear11", "--word=87FF"];
//!     let mut input = Source::new(b"".as_slice());
//!     let mut output = Sink::new(output);
//!     let mut errors = Sink::new(errors);
//!     let status = run(alloc, Ok(&words), &mut input, &mut output, &mut errors);
//!     (status, output.into_inner()) // word 87FF value -1/65536 micro -16
//! }
//! ```
//!
//! Tests: crates/pm_text_tests
#![tactic(auto)]

mod arguments;
mod commandline;
mod execution;
mod laws;
mod numbers;
mod refusals;
mod script;
mod text_commands;
mod text_faults;
mod usage;

pub use commandline::{Chosen, TellFault, TellTexts, chosen};
pub use execution::{program, run};
pub use laws::number_has_one_text;
pub use numbers::{NumberFault, number};
pub use pm_decode::TellOptions;
pub use pm_text::{MAX_TEXT, Sink, Source, TextFault};
pub use script::hear;
