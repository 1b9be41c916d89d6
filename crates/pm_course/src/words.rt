//! The words of an output's wishes, formed by the format that is known.

ghost use Rattle.std.specs.Prelude.{◌≡◌, ◌<◌, None, Some, option_map, IfOk};
ghost use Rattle.std.specs.Result.{result_err};
ghost use Rattle.pm_num.specs.AnyFormat.{voltage_shape};
ghost use Rattle.pm_host.specs.Image.{held};
ghost use Rattle.pm_rail.specs.Survey.{wanted_in};
ghost use Rattle.pm_course.specs.FrameCourse.{format_now, missing_of};
ghost use Rattle.pm_course.specs.Wishes.{is_missing as spec_is_missing, meant_fault, missing_at as spec_missing_at, no_word_number, voltage_of, AreFormed, IsMeant, IsWordFor};

use crate::course_end::Refusal;
use crate::frame_course::FrameCourse;
use pm_host::{State, nearest_word};
use pm_limits::{LimitFault, PartRegisters};
use pm_num::{VoltageFormat, at_least, at_most};
use pm_rail::Wanted;
use pm_table::Reg;

impl FrameCourse {
    /// The words that are ordered, by the format that the host knows once the survey has learned it; before that, those that
    /// are wanted as such.
    pub fn words_now(&self, host: &State) -> Result<Wanted, Refusal>
        requires { self.now.course.survey.output < 8 }
        ensures { AreFormed (format_now (held None host.now) self.now.course) (wanted_in self.now.course.survey.plan) self.now.voltages result }
    {
        if !self.course.survey.learned {
            return Ok(self.words_wanted());
        }
        match host.format(self.course.survey.output).voltage_format() {
            Some(format) => self.words_in(&format),
            None => Ok(self.words_wanted()),
        }
    }

    // The words that are wanted as such.
    fn words_wanted(&self) -> Wanted
        ensures { result ≡ wanted_in self.now.course.survey.plan }
    {
        match self.course.survey.plan {
            Some(words) => words,
            None => Wanted::nothing(),
        }
    }

    // The words that are ordered, in a format.
    fn words_in(&self, format: &VoltageFormat) -> Result<Wanted, Refusal>
        ensures { AreFormed (Some (voltage_shape format.now)) (wanted_in self.now.course.survey.plan) self.now.voltages result }
    {
        let words = self.words_wanted();
        let command = self.meant(format, Reg::VoutCommand, words.command)?;
        let max = self.meant(format, Reg::VoutMax, words.max)?;
        let margin_high = self.meant(format, Reg::MarginHigh, words.margin_high)?;
        let margin_low = self.meant(format, Reg::MarginLow, words.margin_low)?;
        let min = self.meant(format, Reg::VoutMin, words.min)?;
        Ok(Wanted {
            command,
            max,
            margin_high,
            margin_low,
            min,
        })
    }

    // What is ordered of a register, in a format: the word of the voltage that is wanted of it, or else this word.
    fn meant(
        &self,
        format: &VoltageFormat,
        register: Reg,
        word: Option<u16>,
    ) -> Result<Option<u16>, Refusal>
        ensures fault { result_err result
            ≡ meant_fault (voltage_shape format.now) register (voltage_of self.now.voltages register) }
        ensures meant { IfOk result
            (IsMeant (voltage_shape format.now) register (voltage_of self.now.voltages register) word) }
    {
        match self.voltages.of(register) {
            None => Ok(word),
            Some(microvolts) => match word_for(format, register, microvolts) {
                Ok(word) => Ok(Some(word)),
                Err(number) => Err(Refusal {
                    number,
                    register: Some(register.code()),
                }),
            },
        }
    }

    /// L7: the first register of which a word or a voltage is wanted, and that the part doesn't have.
    pub(crate) fn missing(&self, part: PartRegisters) -> Option<Refusal>
        ensures { result ≡ missing_of part self.now }
    {
        let words = self.words_wanted();
        if self.is_missing(part, &words, Reg::VoutCommand) {
            Some(missing_at(Reg::VoutCommand))
        } else if self.is_missing(part, &words, Reg::VoutMax) {
            Some(missing_at(Reg::VoutMax))
        } else if self.is_missing(part, &words, Reg::MarginHigh) {
            Some(missing_at(Reg::MarginHigh))
        } else if self.is_missing(part, &words, Reg::MarginLow) {
            Some(missing_at(Reg::MarginLow))
        } else if self.is_missing(part, &words, Reg::VoutMin) {
            Some(missing_at(Reg::VoutMin))
        } else {
            None
        }
    }

    // Whether something is wanted of a register that the part doesn't have.
    fn is_missing(&self, part: PartRegisters, words: &Wanted, register: Reg) -> bool
        ensures { result ≡ spec_is_missing part words.now self.now.voltages register }
    {
        !part.has(register)
            && (words.word(register).is_some() || self.voltages.of(register).is_some())
    }
}

// L7 of a register.
fn missing_at(register: Reg) -> Refusal
    ensures { result ≡ spec_missing_at register }
{
    Refusal {
        number: LimitFault::MissingRegister.number(),
        register: Some(register.code()),
    }
}

/// The word of a voltage in a format, or the number of why it has none.
pub(crate) fn word_for(format: &VoltageFormat, register: Reg, microvolts: i64) -> Result<u16, u8>
    ensures fault { result_err result ≡ no_word_number (voltage_shape format.now) register microvolts }
    ensures word { IfOk result (IsWordFor (voltage_shape format.now) register microvolts) }
{
    match register {
        Reg::VoutMax => match at_most(format, microvolts) {
            Ok(word) => Ok(word),
            Err(fault) => Err(fault.number()),
        },
        Reg::VoutMin => match at_least(format, microvolts) {
            Ok(word) => Ok(word),
            Err(fault) => Err(fault.number()),
        },
        _ => match nearest_word(format, microvolts) {
            Ok(word) => Ok(word),
            Err(fault) => Err(fault.number()),
        },
    }
}
