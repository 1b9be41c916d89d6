//! The bytes that texts write in hexadecimal.
ghost use Rattle.std.specs.Prelude.{◌≡◌, ◌⊎◌, ◌<◌, ℕ, List, ◌++◌, Some, None, Err, length, OnOk, OnErr, IfOk, IfErr, IsErrOf, option_map, ◌==◌, position};
ghost use Rattle.pm_lines.specs.Bytes.{bytes_of};
ghost use Rattle.pm_lines.specs.Lines.{words_of};
ghost use Rattle.pm_lines.specs.Pairs.{behind_pairs, paired_bytes};
ghost use Rattle.std.specs.List.{before_first, after_first};

use crate::fault::TextFault;
use crate::hex_digit::{pair_of, spaced_pair};
use crate::lines::Line;
use memchr::memchr;
use std::alloc::AllocError;

/// What stands before the first byte that is the mark, and what follows it: all bytes and none, if there is
/// no mark.
pub fn cut_at(bytes: &[u8], mark: u8) -> (&[u8], &[u8])
    ensures before { result.0.now ≡ before_first (λ byte. byte == mark) bytes.now }
    ensures after { result.1.now ≡ after_first (λ byte. byte == mark) bytes.now }
{
    match first_place(bytes, mark) {
        Some(at) => (&bytes[..at], &bytes[at + 1..]),
        None => (bytes, &[]),
    }
}

// The place of the first byte that is the mark.
fn first_place(bytes: &[u8], mark: u8) -> Option<usize>
    ensures { result ≡ position (λ byte. byte == mark) bytes.now }
{
    memchr(mark, bytes)
}

/// Appends the bytes that a line's words write in hexadecimal. Each word is an even number of digits,
/// of either case.
///
/// X2 with the line's number if a word isn't, and X6 if memory was refused. The bytes are then as they were.
/// Takes memory as the bytes grow.
pub fn push_bytes(line: Line<'_>, bytes: &mut Vec<u8>) -> Result<(), TextFault>
    ensures all { OnOk result (option_map (λ more. bytes.old.items ++ more)
        (bytes_of (words_of line.entry.text.now)) ≡ Some bytes.new.items) }
    ensures fault { IfErr result (λ fault. (fault ≡ TextFault.Memory)
        ⊎ ((fault ≡ TextFault.BadHex line.entry.number)
        × (bytes_of (words_of line.entry.text.now) ≡ None))) }
    ensures memory { IsErrOf result TextFault.Memory
        → 0 < length (words_of line.entry.text.now) }
    ensures unchanged { OnErr result (bytes.new.items ≡ bytes.old.items) }
{
    let start = bytes.len();
    match push_pairs(line.text, bytes) {
        Ok([]) => Ok(()),
        Ok(_) => {
            bytes.truncate(start);
            Err(TextFault::BadHex(line.number))
        }
        Err(error) => {
            bytes.truncate(start);
            Err(error.into())
        }
    }
}

// Appends the bytes that the pairs of digits at the beginning write, and gives what follows them. Some of the
// bytes may be there if memory was refused.
#[tactic(auto, using(crate::specs::Lemmas::Joins::joins))]
fn push_pairs<'a>(digits: &'a [u8], bytes: &mut Vec<u8>) -> Result<&'a [u8], AllocError>
    ensures all { OnOk result (bytes.new.items ≡ bytes.old.items ++ paired_bytes digits.entry.now) }
    ensures rest { IfOk result (λ rest. rest.now ≡ behind_pairs digits.entry.now) }
    ensures kept { (more : List ℕ) × (bytes.new.items ≡ bytes.old.items ++ more) }
    ensures some { OnErr result (0 < length (paired_bytes digits.entry.now)) }
{
    let mut rest = digits;
    'pairs: loop {
        // most pairs have a space after them
        if let Some((byte, more)) = spaced_pair(rest) {
            bytes.push(byte)?;
            rest = more;
            continue 'pairs;
        }
        match rest {
            [b' ', more @ ..] => rest = more,
            [high, low, more @ ..] => {
                let Some(byte) = pair_of(*high, *low) else {
                    return Ok(rest);
                };
                bytes.push(byte)?;
                rest = more;
            }
            _ => return Ok(rest),
        }
    }
}
