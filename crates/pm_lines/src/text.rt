//! A whole text as it is read.

ghost use Rattle.std.specs.Prelude.{◌≡◌, ◌↔◌, IsTrue, IsFalse, MatchResult, ◌++◌, [], ◌∷◌, ◌⊎◌, IfOk, string_bytes};
ghost use Rattle.pm_lines.specs.Streams.{BreaksOff, IsWholeText, max_text};
ghost use Rattle.pm_lines.specs.Lines.{EndsLine};

use crate::fault::TextFault;
use crate::source::Source;
use std::alloc::{AllocError, Global};
use std::io::Read;

/// A text with a line feed at its end: unchanged if it has one, otherwise with one more byte.
pub fn with_line_end(text: String) -> Result<String, AllocError>
    ensures ends { IfOk result (λ whole. EndsLine (string_bytes whole)) }
    ensures same { IfOk result (λ whole. (string_bytes whole ≡ string_bytes text)
        ⊎ (string_bytes whole ≡ string_bytes text ++ 10 ∷ [])) }
{
    if text.as_bytes().ends_with(b"\n") {
        return Ok(text);
    }
    let mut whole = text;
    whole.push('\n')?;
    Ok(whole)
}

/// The most bytes that a text may have.
pub const MAX_TEXT: usize = 1_048_576;

/// The bytes that are asked for at a time.
const CHUNK: usize = 4096;

/// The whole text, to the source's end. X3 as soon as it has too many bytes, which ends a source that never
/// ends; X4 if the source failed; X6 only if memory for the bytes was refused. Takes memory for the text, as
/// it grows.
pub fn read_text<R: Read>(alloc: Global, source: &mut Source<R>) -> Result<Vec<u8>, TextFault>
    requires { IsFalse source.old.failed }
    ensures reads { MatchResult result
        (λ text. IsWholeText (R.remaining source.old.inner) (R.remaining source.new.inner) text.items)
        (λ fault. BreaksOff (R.remaining source.old.inner) (R.remaining source.new.inner) fault) }
    ensures failed { MatchResult result (λ _. IsFalse source.new.failed)
        (λ fault. IsTrue source.new.failed ↔ (fault ≡ TextFault.Read)) }
    ensures limit { MAX_TEXT ≡ max_text }
{
    let mut text = Vec::new(alloc);
    let mut chunk = [0u8; CHUNK];
    'reads: loop {
        let count = source.read(&mut chunk)?;
        if count == 0 {
            return Ok(text);
        }
        if count > MAX_TEXT - text.len() {
            return Err(TextFault::TooLong);
        }
        text.extend_from_slice(&chunk[..count])?;
    }
}
