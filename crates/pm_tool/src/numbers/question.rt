//! What `number` is asked, as its three texts give it.
ghost use Rattle.std.specs.Prelude.{◌≡◌, ◌∷◌, [], codes, IfErr, IfOk, IfSome, MatchOption};
ghost use Rattle.std.specs.Prelude.{option_and_then};
ghost use Rattle.std.specs.List.{list_any};
ghost use Rattle.pm_lines.specs.Digits.{signed_of};
ghost use Rattle.pm_tool.specs.NumberText.{IsCommandLineFault};
ghost use Rattle.pm_tool.specs.Question.{HasExponent, direct_format, exponent_format, format_by};
ghost use Rattle.pm_tool.specs.Question.{question_of_options, format_of, items, parts, plain_format_of};
ghost use Rattle.pm_trace.specs.Trace.{is_slash};

use crate::numbers::fault::NumberFault;
use pm_lines::{read_i8, read_i16, read_i64, read_word};

/// A number format, as its text names it: `linear11`, `ulinear16:N` or `direct:M:B:R`. Whether DIRECT
/// can have these parameters is judged when the format is made.
#[derive(Clone, Copy, Debug)]
pub(crate) enum FormatText {
    Linear11,
    /// With the exponent, -16 to 15.
    Ulinear16(i8),
    /// With the slope, the offset and the decimal exponent.
    Direct(i16, i16, i8),
}

/// Which word is asked for.
#[derive(Clone, Copy, Debug)]
pub(crate) enum Asked {
    /// This one.
    Word(u16),
    /// The one whose value is nearest to this many millionths.
    Nearest(i64),
}

/// What is asked: a word of a format.
#[derive(Clone, Copy, Debug)]
pub(crate) struct Question {
    pub(crate) format: FormatText,
    pub(crate) asked: Asked,
}

/// What the three texts ask. Faults come in this order: not exactly one of word and micro, the
/// format, the word or the micro.
pub(crate) fn read_question(
    format: &str,
    word: Option<&str>,
    micro: Option<&str>,
) -> Result<Question, NumberFault>
    ensures asked { result
        ≡ question_of_options format.entry word.entry micro.entry }
    ensures exponent { IfOk result (λ asked. HasExponent asked.format) }
    ensures faults { IfErr result IsCommandLineFault }
{
    let asked = match (word, micro) {
        (Some(word), None) => read_word(word.as_bytes())
            .map(Asked::Word)
            .ok_or(NumberFault::Word),
        (None, Some(micro)) => read_i64(micro.as_bytes())
            .map(Asked::Nearest)
            .ok_or(NumberFault::Micro),
        _ => return Err(NumberFault::OneOf),
    };
    let format = read_plain_format(format).ok_or(NumberFault::Format)?;
    Ok(Question {
        format,
        asked: asked?,
    })
}

// The format that a text names with no mark but colons.
fn read_plain_format(text: &str) -> Option<FormatText>
    ensures named { result ≡ plain_format_of text.now }
    ensures exponent { IfSome result HasExponent }
{
    if has_slash(text.as_bytes()) {
        None
    } else {
        read_format(text)
    }
}

// Whether a text has a slash.
fn has_slash(text: &[u8]) -> bool
    ensures { result ≡ list_any is_slash text.now }
{
    text.iter().any(|byte| *byte == b'/')
}

/// The format that a text names; `/` may stand for each colon.
pub(crate) fn read_format(text: &str) -> Option<FormatText>
    ensures named { result ≡ format_of text.now }
    ensures exponent { IfSome result HasExponent }
{
    let Some((name, numbers)) = first_part(text) else {
        return (text == "linear11").then_some(FormatText::Linear11);
    };
    match name {
        "ulinear16" => read_ulinear16(numbers),
        "direct" => read_direct(numbers),
        _ => None,
    }
}

/// ULINEAR16 with the exponent that a text writes.
fn read_ulinear16(text: &str) -> Option<FormatText>
    ensures named { result ≡ option_and_then exponent_format (signed_of 8 text.now) }
    ensures exponent { IfSome result HasExponent }
{
    let n = read_i8(text.as_bytes())?;
    if n < -16 || 15 < n {
        return None;
    }
    Some(FormatText::Ulinear16(n))
}

/// DIRECT with the three numbers that a text writes, with colons between them.
fn read_direct(text: &str) -> Option<FormatText>
    ensures named { result ≡ format_by (codes "direct" ∷ parts text.now) }
    ensures exponent { IfSome result HasExponent }
{
    let (m, others) = first_part(text)?;
    let (b, r) = first_part(others)?;
    direct_of(m, b, r)
}

/// DIRECT with the numbers that three texts write.
fn direct_of(m: &str, b: &str, r: &str) -> Option<FormatText>
    ensures named { result
        ≡ direct_format (signed_of 16 m.now) (signed_of 16 b.now) (signed_of 8 r.now) }
    ensures exponent { IfSome result HasExponent }
{
    Some(FormatText::Direct(
        read_i16(m.as_bytes())?,
        read_i16(b.as_bytes())?,
        read_i8(r.as_bytes())?,
    ))
}

/// What stands before a text's first colon and after it, or None if it has no colon; `/` counts as one.
pub(crate) fn first_part(text: &str) -> Option<(&str, &str)>
    ensures { MatchOption result (parts text.now ≡ text.now ∷ [])
        (λ found. parts text.now ≡ found.0.now ∷ parts found.1.now) }
{
    text.split_once([':', '/'])
}

/// What stands before a text's first comma and after it, or None if it has no comma.
pub(crate) fn first_item(text: &str) -> Option<(&str, &str)>
    ensures { MatchOption result (items text.now ≡ text.now ∷ [])
        (λ found. items text.now ≡ found.0.now ∷ items found.1.now) }
{
    text.split_once(',')
}
