//! The model of a power converter with one to eight outputs, as it is heard over SMBus: it takes
//! writes, answers reads, and keeps the status of PMBus 1.3 Part II.
//!
//! A [`Converter`] is made of a [`Config`], which says how each output starts. [`Converter::hear`]
//! lets it hear the bytes of one frame, of any number, with how they ended, and gives a [`Heard`]:
//! silence, that a write is taken, the bytes that answer a read, or the first [`DeviceFault`] that
//! applies. [`Converter::reply`] says what it would answer. STORE_USER_ALL copies the outputs' words to
//! the converter's store, and RESTORE_USER_ALL and a restart bring them back. What it holds is a function
//! of its configuration and of what it heard, measured and was restarted since: `pasts_are_followed` is
//! that law.
//!
//! It reads no text, knows no host and takes no memory. It regulates no output: READ codes answer
//! what [`Converter::set_reading`] set.
//!
//! A converter at address 58h with two outputs in ULINEAR16, N = -12, and two frames of its host:
//!
//! ```
//! fn heard() -> Result<u16, ConfigFault> {
//!     let start = OutputStart {
//!         mode: 0x14,
//!         operation: 0x80,
//!         command: 0x1000,
//!         max: 0x4000,
//!         high: 0x1100,
//!         low: 0x0F00,
//!         ..OutputStart::NONE
//!     };
//!     let mut converter = Converter::new(Config {
//!         addr: 0x58,
//!         count: 2,
//!         starts: [start; 8],
//!         protect: 0x00,
//!         coefficients: Coefficients { m: 1, b: 0, r: 0 },
//!     })?;
//!     let write = [0xB0, 0x05, 0x04, 0x00, 0x21, 0xCD, 0x34, 0x5A];
//!     converter.hear(&write, Ending::Stop); // Heard::Taken
//!     let request = [0xB0, 0x06, 0x02, 0x00, 0x21];
//!     converter.hear(&request, Ending::Restart); // Heard::Answer, B1 02 CD 34 B9
//!     Ok(converter.word(Cell::Out(0, Reg::VoutCommand))) // 34CDh
//! }
//! ```
//!
//! Tests: crates/pm_core_tests
#![tactic(auto)]

mod act;
mod cml_latches;
mod config;
mod config_fault;
mod converter;
mod fault;
mod formats;
mod image;
mod laws;
mod output_start;
mod readings;
mod starts;
mod status_bits;
mod verdict;

pub use config::Config;
pub use config_fault::ConfigFault;
pub use converter::{Converter, Ending, Heard};
pub use fault::DeviceFault;
pub use image::{ConfigImage, LatchesImage, OutputImage, PartImage, ReadingsImage};
pub use laws::{
    frames_for_others_are_silent, pasts_are_followed, reads_are_answered, refusals_set_one_bit,
    registers_say_what_calls_say, replies_follow_endings, requests_latch_at_most,
    sound_configurations_have_no_fault, words_have_an_origin, writes_reach_one_cell,
};
pub use output_start::OutputStart;
pub use readings::{DEVICE_READINGS, OUTPUT_READINGS, is_reading};
pub use status_bits::{StatusByte, StatusCml, StatusVout, StatusWord};
