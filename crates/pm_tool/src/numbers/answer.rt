//! The answer to a question, and its line.
ghost use Rattle.std.specs.Prelude.{◌≡◌, ◌↔◌, Err, IfOk, string_bytes};
ghost use Rattle.pm_num.specs.declared.fault.NumFault.{NumFault};
ghost use Rattle.pm_tool.specs.NumberText.{IsAnswer, IsFloorMicro, IsAskedWord, RefusesValue};
ghost use Rattle.pm_tool.specs.NumberText.{number_line_of};

use crate::numbers::question::Asked;
use pm_lines::{push_hex_word, push_signed};
use pm_num::{Frac, NumFault, NumFormat, micro};
use std::alloc::{AllocError, Global};

/// A word of a format, with its value and the greatest whole number of millionths that isn't above
/// that.
#[derive(Clone, Copy, Debug)]
pub(crate) struct Answer {
    pub(crate) word: u16,
    pub(crate) value: Frac,
    pub(crate) millionths: i128,
}

/// The word that is asked for in a format, with its value. Faults come in this order: N5, N3 or N4.
pub(crate) fn answer_in<F: NumFormat>(format: &F, asked: Asked) -> Result<Answer, NumFault>
    ensures answered { IfOk result (IsAnswer (F.value format.now) (F.rank format.now) asked) }
    ensures refused { (fault : NumFault) → (result ≡ Err fault)
        ↔ RefusesValue (F.lowest format.now) (F.highest format.now) asked fault }
{
    let word = word_in(format, asked)?;
    Ok(with_value(word, format.value_of(word)))
}

/// The word that is asked for.
fn word_in<F: NumFormat>(format: &F, asked: Asked) -> Result<u16, NumFault>
    ensures word { IfOk result (IsAskedWord (F.value format.now) (F.rank format.now) asked) }
    ensures refused { (fault : NumFault) → (result ≡ Err fault)
        ↔ RefusesValue (F.lowest format.now) (F.highest format.now) asked fault }
{
    match asked {
        Asked::Word(word) => Ok(word),
        Asked::Nearest(k) => format.nearest(micro(k)?),
    }
}

/// A word with its value, and the whole millionths of that.
fn with_value(word: u16, value: Frac) -> Answer
    ensures word { result.word ≡ word }
    ensures value { result.value ≡ value }
    ensures floor { IsFloorMicro value result.millionths }
{
    Answer {
        word,
        value,
        millionths: value.floor_micro(),
    }
}

/// The bytes that are reserved for a line: the longest, of a word of DIRECT, has 68.
const ROOM: usize = 96;

/// The line of an answer. Takes memory once.
#[tactic(auto, using(pm_lines::specs::Lemmas::Joins::signed_joins))]
pub(crate) fn line(alloc: Global, answer: &Answer) -> Result<String, AllocError>
    ensures { IfOk result (λ text. string_bytes text ≡ number_line_of answer.now) }
{
    let mut text = String::with_capacity(alloc, ROOM)?;
    text.push_str("word ")?;
    push_hex_word(&mut text, answer.word)?;
    text.push_str(" value ")?;
    push_signed(&mut text, answer.value.num())?;
    text.push_str("/")?;
    push_signed(&mut text, answer.value.den())?;
    text.push_str(" micro ")?;
    push_signed(&mut text, answer.millionths)?;
    text.push_str("\n")?;
    Ok(text)
}
