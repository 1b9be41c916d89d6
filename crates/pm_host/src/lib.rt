//! The host core of PMBus 1.3 Part II, for one power converter with one to eight outputs: what
//! firmware links that sets supply voltages.
//!
//! A [`Host`] says which frame to send next and hears what came of it. An order writes a word and reads it
//! back, a check reads one, and a learn reads the format of an output's voltages. A clear clears an output's
//! latched faults, a store copies the outputs' settings to the device's user store, and a restore brings them
//! back. It trusts no acknowledgement: a setting is confirmed by a good answer only, and until then the host
//! keeps the list of words that the setting may hold. The list is exact if, since the host started, the
//! device didn't restart, WRITE_PROTECT was neither ordered nor read as other than 00h, and no restore was
//! begun. Once the host begins to send a restore, an output's setting may hold any word, until it is read
//! again.
//!
//! What a host is asked for is a [`Job`], which [`Host::begin`] begins; a call for each kind of job does
//! the same.
//!
//! It has no bus, no clock and no memory of its own: the caller sends the frames, and decides how long
//! to wait for an answer. It reads no telemetry and no status, and selects no output by PAGE.
//!
//! An order, at a device with address 58h, two outputs and at most two passes, and the bytes that go
//! over the wire. The write isn't acknowledged, and the answer shows that the device has the word:
//!
//! ```
//! fn ordered() -> Result<Standing, HostFault> {
//!     let mut host = Host::new(0x58, 2, 2)?;
//!     host.order(Cell::Out(0, Reg::VoutCommand), 0x34CD)?;
//!     if let Turn::Write(_) = host.turn() {
//!         // B0 05 04 00 21 CD 34 5A, and then a stop
//!         host.told(Told::Finished { acked: false });
//!     }
//!     if let Turn::Request { .. } = host.turn() {
//!         // B0 06 02 00 21, then a repeated start, and what came back
//!         host.told(Told::Got(&[0xB1, 0x02, 0xCD, 0x34, 0xB9]));
//!     }
//!     Ok(host.standing(Cell::Out(0, Reg::VoutCommand))) // Standing::Confirmed(0x34CD)
//! }
//! ```
//!
//! A loop of `turn` and `told` carries any job out. It ends by proof: with each call of `told` the job
//! has fewer frames left to send.
//!
//! Tests: crates/pm_core_tests
#![tactic(auto)]

mod answers;
mod command;
mod fault;
mod format_image;
mod host;
mod image;
mod job;
mod knowledge;
mod laws;
mod messages;
mod progress;
mod question;
mod sending;
mod stage;
mod standing_image;
mod state;
mod words_image;

pub use command::Command;
pub use fault::{HostFault, Untold};
pub use format_image::FormatImage;
pub use host::{Host, Step, Told, Turn};
pub use image::{HostImage, NoHost, StageImage};
pub use job::{Job, JobEnd};
pub use knowledge::{Knowledge, Possible, Standing};
pub use laws::{
    ends_are_told, frames_are_named, images_are_meanings, jobs_are_bounded,
    open_orders_are_uncertain, open_restores_are_uncertain, possible_words_are_followed,
    transcripts_are_followed,
};
pub use progress::Progress;
pub use question::Question;
pub use stage::Stage;
pub use standing_image::StandingImage;
pub use state::{State, nearest_word};
pub use words_image::WordsImage;
