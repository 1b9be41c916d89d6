//! Traces of captured bytes: what their lines say of the packets that went over the bus, a streaming decoder that is fed the bytes
//! in any pieces, and what a packet's payload means.
//!
//! A line is the write part of a packet in hexadecimal, and optionally `/` and the read part. A [`Decoder`]
//! keeps no line as text, and takes memory only for the counts of codes. A line by itself,
//! `B0 05 04 00 21 CD 34 5A` of number 1, says `1 58 page 0 VOUT_COMMAND write 34CD`:
//!
//! ```
//! fn rendered(alloc: Global, line: &str, number: u64) -> Result<String, TextFault> {
//!     let parts = read_trace_line(alloc, line.as_bytes())?;
//!     render_line(alloc, number, &parts)
//! }
//! ```
//!
//! A payload's [`Value`] is shown with the bits of the status registers by name, and by the formats of words that a capture teaches.
//! Its text is appended to any text. The bits of a byte of STATUS_INPUT, as ` VIN_UV_FAULT` of 10h:
//!
//! ```
//! fn input_faults(alloc: Global, byte: u8) -> Result<String, AllocError> {
//!     let mut text = String::new(alloc);
//!     push_known(&mut text, other_value(0x7C, &[byte]))?;
//!     Ok(text)
//! }
//! ```
//!
//! A packet may have any code, whether the command table has it or not: here are its bytes, its PEC if it has one, the names of all
//! codes, and what an answer of nothing but FFh is taken for. One that lacks its PEC is judged as one that has it. One that the table
//! doesn't have is shown by its code and bytes, as `58 code FD write 01 02, no PEC`:
//!
//! ```
//! fn told_by_bytes(alloc: Global, write: &[u8]) -> Result<String, AllocError> {
//!     let mut text = String::new(alloc);
//!     let otherwise = Otherwise {
//!         values: false,
//!         addr: 0x58,
//!         reached: None,
//!         ones: Ones::Answer,
//!     };
//!     push_otherwise(&mut text, &otherwise, &Packet { write, read: None })?;
//!     Ok(text)
//! }
//! ```
//!
//! Tests: crates/pm_text_tests
#![tactic(auto)]

mod answers;
mod byte_list;
mod code_names;
mod content;
mod counts_text;
mod decimals;
mod decode_end;
mod decoder;
mod fed;
mod formats;
mod laws;
mod lessons;
mod line_fault;
mod meaning;
mod mode_changes;
mod modes;
mod names;
mod others;
mod otherwise;
mod packet;
mod pages;
mod shown;
mod shown_text;
mod status;
mod tally;
mod touch;
mod trace_line;
mod value;
mod value_text;

pub use answers::{Answers, Ones, Refusal};
pub use byte_list::ByteList;
pub use code_names::standard_name;
pub use content::Content;
pub use counts_text::push_count;
pub use decimals::{millionths, push_millionths};
pub use decode_end::DecodeEnd;
pub use decoder::open_line::OpenLine;
pub use decoder::{Decoder, LinePart, PART_BYTES};
pub use fed::Fed;
pub use formats::{GivenFormat, GivenFormats};
pub use laws::{microvolts_are_the_floor, pieces_do_not_matter};
pub use lessons::Lessons;
pub use line_fault::LineFault;
pub use meaning::{GoodPacket, other_value, packet_value};
pub use mode_changes::{ModeChange, mode_change};
pub use modes::key_of;
pub use names::{NameMarks, push_names};
pub use others::Others;
pub use otherwise::{
    Otherwise, address_otherwise, completed_part, ones_words, push_carried, push_otherwise,
    push_spaced, shown_with,
};
pub use packet::Packet;
pub use pages::{PageLine, PageUse, Pages, Place, Standing, page_use, unclear_use};
pub use shown::{Shown, packet_shown};
pub use shown_text::{answered, coefficients_in, push_packet, push_shown};
pub use status::{Row, Status};
pub use tally::{Tally, count_code};
pub use touch::{Touch, is_paging, is_restore, touch_of};
pub use trace_line::{TraceLine, read_trace_line, render_line};
pub use value::{Unit, Value};
pub use value_text::{
    operation_words, protection_words, push_capability, push_known, push_mode, push_on_off,
    push_relative, push_revision,
};
