//! One word of a number format, as a line of text.
ghost use Rattle.std.specs.Prelude.{◌≡◌, ◌≢◌, ◌↔◌, ℕ, List, Err, IfErr, IfOk, IsErrOf, IsFalse};
ghost use Rattle.std.specs.Prelude.{IsTrue, OnOk, string_bytes};
ghost use Rattle.std.specs.Io.KnownBytes.{Appends};
ghost use Rattle.pm_num.specs.declared.fault.NumFault.{NumFault};
ghost use Rattle.pm_tool.specs.declared.numbers.fault.NumberFault.{NumberFault};
ghost use Rattle.pm_tool.specs.NumberText.{IsAnswer, IsCommandLineFault};
ghost use Rattle.pm_tool.specs.NumberText.{IsNumberText, IsOfNumber, Refuses, RefusesNumber};
ghost use Rattle.pm_tool.specs.NumberText.{rank_in, value_in};
ghost use Rattle.pm_tool.specs.Question.{HasExponent, question_of_options};
ghost use Rattle.pm_lines.specs.Streams.{AppendsFront};

mod answer;
mod fault;
mod question;

use answer::{Answer, answer_in, line};
pub use fault::NumberFault;
use pm_num::{Direct, Linear11, NumFault, Ulinear16};
use pm_text::{Sink, TextFault};
pub(crate) use question::{FormatText, first_item, first_part, read_format};
use question::{Question, read_question};
use std::alloc::Global;
use std::io::Write;

/// Writes the line of a word: `word HHHH value NUM/DEN micro K`, with the word's value as it stands
/// and the greatest whole number of millionths that isn't above it. The word is the one given, as
/// four hexadecimal digits, or the one whose value is nearest to `micro` millionths, a decimal
/// number of 64 bits. The format is `linear11`, `ulinear16:N` with N from -16 to 15, or
/// `direct:M:B:R`: the numeric formats of PMBus 1.3 Part II. The
/// texts are this project's own choice. Takes memory once, for the line.
///
/// # Errors
///
/// In this order: not exactly one of word and micro, a bad format, a bad word or micro, N1 or N2
/// for the parameters of DIRECT, N5, N3 or N4 for the millionths, and X6 or X5. Nothing is written
/// but at X5: then it is a prefix of the line and not all of it.
pub fn number<W: Write>(
    alloc: Global,
    writer: &mut Sink<W>,
    format: &str,
    word: Option<&str>,
    micro: Option<&str>,
) -> Result<(), NumberFault>
    requires { IsFalse writer.old.failed }
    ensures ok { OnOk result ((text : List ℕ)
        × IsNumberText (question_of_options format.entry word.entry micro.entry) text
        × Appends (W.contents writer.old.inner) (W.contents writer.new.inner) text) }

    // The faults of the command line, and those of the numbers, come exactly if they are found.
    ensures command_line { (fault : NumberFault) → IsCommandLineFault fault → IsErrOf result fault
        ↔ (question_of_options format.entry word.entry micro.entry ≡ Err fault) }
    ensures numbers { (fault : NumFault) → IsErrOf result (NumberFault.Num fault)
        ↔ RefusesNumber (question_of_options format.entry word.entry micro.entry) fault }

    // X5 comes exactly if the writer failed, and X6 only if there was a line to write.
    ensures write { IsErrOf result (NumberFault.Text TextFault.Write) ↔ IsTrue writer.new.failed }
    ensures cut_short { IsErrOf result (NumberFault.Text TextFault.Write) → (text : List ℕ)
        × IsNumberText (question_of_options format.entry word.entry micro.entry) text
        × AppendsFront (W.contents writer.old.inner) (W.contents writer.new.inner) text }
    ensures memory { IsErrOf result (NumberFault.Text TextFault.Memory) → (text : List ℕ)
        × IsNumberText (question_of_options format.entry word.entry micro.entry) text }
    ensures faults { IfErr result IsOfNumber }
    ensures unwritten { IfErr result (λ fault. fault ≢ NumberFault.Text TextFault.Write
        → writer.new ≡ writer.old) }
{
    let text = line_asked(alloc, format, word, micro)?;
    writer.put(text.as_str().as_bytes())?;
    Ok(())
}

/// The line that `number` writes for its three texts, or why it writes none.
fn line_asked(
    alloc: Global,
    format: &str,
    word: Option<&str>,
    micro: Option<&str>,
) -> Result<String, NumberFault>
    ensures line { IfOk result (λ line. IsNumberText
        (question_of_options format.entry word.entry micro.entry) (string_bytes line)) }
    ensures command_line { (fault : NumberFault) → IsCommandLineFault fault → IsErrOf result fault
        ↔ (question_of_options format.entry word.entry micro.entry ≡ Err fault) }
    ensures numbers { (fault : NumFault) → IsErrOf result (NumberFault.Num fault)
        ↔ RefusesNumber (question_of_options format.entry word.entry micro.entry) fault }
    ensures memory { IsErrOf result (NumberFault.Text TextFault.Memory) → (text : List ℕ)
        × IsNumberText (question_of_options format.entry word.entry micro.entry) text }
    ensures faults { IfErr result (λ fault.
        IsOfNumber fault × (fault ≢ NumberFault.Text TextFault.Write)) }
{
    let question = read_question(format, word, micro)?;
    let answer = answer_to(question)?;
    Ok(line(alloc, &answer)?)
}

/// The answer to a question. Faults come in this order: N1 or N2, then N5, then N3 or N4.
fn answer_to(asked: Question) -> Result<Answer, NumFault>
    requires { HasExponent asked.format }
    ensures answered { IfOk result
        (IsAnswer (value_in asked.format) (rank_in asked.format) asked.asked) }
    ensures refused { (fault : NumFault) → (result ≡ Err fault) ↔ Refuses asked fault }
{
    match asked.format {
        FormatText::Linear11 => answer_in(&Linear11, asked.asked),
        FormatText::Ulinear16(n) => answer_in(&Ulinear16::new(n).unwrap(), asked.asked),
        FormatText::Direct(m, b, r) => answer_in(&Direct::new(m, b, r)?, asked.asked),
    }
}
