//! What a packet carries that is shown by its code and bytes.
ghost use Rattle.std.specs.Prelude.{◌≡◌, Some, true, option_map};
ghost use Rattle.std.specs.List.{list_all};
ghost use Rattle.pm_trace.specs.Contents.{content_in};
ghost use Rattle.pm_trace.specs.Otherwise.{are_some_letters as spec_are_some_letters, content_of, has_pec as spec_has_pec, has_filler as spec_has_filler, is_text_code as spec_is_text_code, is_told_letter as spec_is_told_letter, letters_in as spec_letters_in, read_content as spec_read_content, write_content as spec_write_content};

use crate::packet::{Packet, shown_of, without_last};
use pm_table::Code;

/// The page, the code and the bytes of a packet, without its PEC: those of another code that PAGE_PLUS_WRITE or
/// PAGE_PLUS_READ carries, if its counts are those of the bytes.
#[derive(Clone, Copy, Debug)]
pub struct Content<'a> {
    /// The page of a carried code.
    pub page: Option<u8>,
    /// The code, which is the carried one if there is a page.
    pub code: u8,
    /// What was written after the code.
    pub written: &'a [u8],
    /// What was answered; `None` if nothing was read.
    pub answer: Option<&'a [u8]>,
}

impl<'a> Packet<'a> {
    /// What the packet carries; `has_pec` is whether it ends in its PEC.
    #[tactic(auto, unfolding(crate::specs::Otherwise::content_of))]
    pub fn content(&self, has_pec: bool) -> Content<'a>
        requires { has_pec ≡ spec_has_pec self.now.write.now (option_map (λ bytes. bytes.now) self.now.read) }
        ensures { content_in result ≡ content_of self.now.write.now (option_map (λ bytes. bytes.now) self.now.read) }
    {
        let code = self.code();
        match self.read {
            None => write_content(code, shown_of(2, has_pec, self.write)),
            Some(read) => {
                read_content(
                    code,
                    shown_of(2, false, self.write),
                    shown_of(1, has_pec, read),
                )
            }
        }
    }
}

// What a write carries.
fn write_content<'a>(code: u8, written: &'a [u8]) -> Content<'a>
    ensures { content_in result ≡ spec_write_content code written.entry.now }
{
    match written {
        [count, page, carried, bytes @ ..]
            if Code(code) == Code::PAGE_PLUS_WRITE && usize::from(*count) == bytes.len() + 2 => {
            Content {
                page: Some(*page),
                code: *carried,
                written: bytes,
                answer: None,
            }
        }
        _ => Content {
            page: None,
            code,
            written,
            answer: None,
        },
    }
}

// What a read carries.
fn read_content<'a>(code: u8, written: &'a [u8], answer: &'a [u8]) -> Content<'a>
    ensures { content_in result ≡ spec_read_content code written.entry.now answer.entry.now }
{
    match (written, answer) {
        ([count, page, carried], [size, bytes @ ..])
            if Code(code) == Code::PAGE_PLUS_READ
                && *count == 2
                && usize::from(*size) == bytes.len() => {
            Content {
                page: Some(*page),
                code: *carried,
                written: &[],
                answer: Some(bytes),
            }
        }
        _ => Content {
            page: None,
            code,
            written,
            answer: Some(answer),
        },
    }
}

impl<'a> Content<'a> {
    ghost use Rattle.pm_trace.specs.Otherwise.{content_letters, said_bytes};

    /// The bytes that say something: those of an answer, otherwise what was written.
    pub fn said(&self) -> &'a [u8]
        ensures { result.now ≡ said_bytes (content_in self.now) }
    {
        match self.answer {
            Some(answer) => answer,
            None => self.written,
        }
    }

    /// The letters of a code whose bytes are a text.
    pub fn letters(&self) -> Option<&'a str>
        ensures { option_map (λ letters. letters.now) result ≡ content_letters (content_in self.now) }
    {
        if is_text_code(self.code) {
            letters_in(self.said())
        } else {
            None
        }
    }
}

// Whether the bytes of a code are a text.
fn is_text_code(code: u8) -> bool
    ensures { result ≡ spec_is_text_code code }
{
    (0x99 <= code && code <= 0x9E) || code == 0xAD || code == 0xAE
}

// The letters after their count, without the byte that fills them up.
fn letters_in<'a>(bytes: &'a [u8]) -> Option<&'a str>
    ensures { option_map (λ letters. letters.now) result ≡ spec_letters_in bytes.entry.now }
{
    let [count, block @ ..] = bytes else {
        return None;
    };
    let letters = if has_filler(block) {
        without_last(block)
    } else {
        block
    };
    if usize::from(*count) == block.len() && are_some_letters(letters) {
        text_of(letters)
    } else {
        None
    }
}

// Whether the last byte of a block is 00h or FFh.
fn has_filler(block: &[u8]) -> bool
    ensures { result ≡ spec_has_filler block.now }
{
    match block {
        [.., last] => *last == 0x00 || *last == 0xFF,
        [] => false,
    }
}

// Whether there is a letter, and each byte is one.
fn are_some_letters(letters: &[u8]) -> bool
    ensures some { result ≡ spec_are_some_letters letters.now }
    ensures letters { result ≡ true → list_all spec_is_told_letter letters.now ≡ true }
{
    !letters.is_empty() && are_letters(letters)
}

// Whether each byte can stand in a text in quotation marks.
fn are_letters(letters: &[u8]) -> bool
    ensures { result ≡ list_all spec_is_told_letter letters.now }
{
    letters.iter().all(|letter| is_told_letter(*letter))
}

// Letters as a text.
fn text_of<'a>(letters: &'a [u8]) -> Option<&'a str>
    requires { list_all spec_is_told_letter letters.now ≡ true }
    ensures { option_map (λ text. text.now) result ≡ Some letters.entry.now }
{
    match std::str::from_utf8(letters) {
        Ok(text) => Some(text),
        Err(_) => unreachable!(),
    }
}

// Whether a byte can stand in a text in quotation marks.
fn is_told_letter(byte: u8) -> bool
    ensures { result ≡ spec_is_told_letter byte }
{
    32 <= byte && byte <= 126 && byte != b'"' && byte != b'\\'
}
