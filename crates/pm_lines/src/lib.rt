//! What every text of this project stands on, over any reader and any writer. A reader and a writer are used
//! until they fail. A whole text has at most 1 MiB; its lines that are not skipped have words, which write
//! numbers, or bytes in hexadecimal. Numbers are put after a text. The faults of a text have the words in
//! which they are printed. `specs/Engine.antt` has what every engine promises that reads a text and writes
//! one.
//!
//! What a text means is not here. A line or a word borrows the text that it stands in, and nothing
//! takes memory for a word. The word of four hexadecimal digits that a text begins with:
//!
//! ```
//! fn first_word(text: &[u8; 20]) -> Option<u16> {
//!     let line = Lines::new(text).next_line()?; // the first that isn't skipped
//!     read_word(Words::new(line).next_word()?)
//! }
//! ```
//!
//! Tests: crates/pm_text_tests
#![tactic(auto)]

mod bytes;
mod digits;
mod fault;
mod hex_digit;
mod laws;
mod lines;
mod number_text;
mod sink;
mod source;
mod text;
mod words;

pub use bytes::{cut_at, push_bytes};
pub use digits::{read_byte, read_i8, read_i16, read_i64, read_u8, read_word};
pub use fault::TextFault;
pub use hex_digit::{byte_of, four_pairs, is_digit, pair_of, spaced_pair};
pub use laws::ends_follow_the_input;
pub use lines::{Line, Lines, is_blank, without_carriage_return};
pub use number_text::{
    hex_digits, push_decimal, push_hex, push_hex_number, push_hex_word, push_signed,
};
pub use sink::Sink;
pub use source::Source;
pub use text::{MAX_TEXT, read_text, with_line_end};
pub use words::Words;
