//! Words at or beyond fault limits.

ghost use Rattle.std.specs.Prelude.{◌≡◌};
ghost use Rattle.pm_num.specs.AnyFormat.{shape_of};
ghost use Rattle.pm_delivery.specs.Beyond.{judgement_of, reached_lower_limit as spec_lower, reaches as spec_reaches, refusal_of, reached_upper_limit as spec_upper};

use crate::delivery::{Delivery, LIMITS_TELL};
use crate::fault::DeliveryFault;
use crate::question::Question;
use pm_num::AnyFormat;

/// A limit that a word is at or beyond: its register, and the word that this holds.
#[derive(Clone, Copy, Debug, PartialEq, Eq)]
pub struct Limit {
    /// VOUT_OV_FAULT_LIMIT, VOUT_OV_WARN_LIMIT, VOUT_UV_WARN_LIMIT or VOUT_UV_FAULT_LIMIT.
    pub register: Question,
    /// The word that it holds, in the format of the output's voltages.
    pub word: u16,
}

/// Which limits a word is at or beyond.
#[derive(Clone, Copy, Debug, PartialEq, Eq)]
pub struct Judgement {
    /// The fault limit.
    pub fault: Option<Limit>,
    /// The limit of a warning.
    pub warning: Option<Limit>,
}

impl Delivery {
    /// Which limits a word of the output's voltage is at or beyond, of those whose answer was good, in the format of the output's
    /// voltages.
    pub fn judge(&self, format: &AnyFormat, word: u16) -> Judgement
        ensures { result ≡ judgement_of self.now (shape_of format.now) word }
    {
        Judgement {
            fault: self
                .upper(Question::OvFaultLimit, format, word)
                .or(self.lower(Question::UvFaultLimit, format, word)),
            warning: self
                .upper(Question::OvWarnLimit, format, word)
                .or(self.lower(Question::UvWarnLimit, format, word)),
        }
    }

    /// P8 if a word is at or beyond a fault limit, and these aren't only shown.
    pub fn refuse(&self, judgement: &Judgement) -> Option<DeliveryFault>
        ensures { result ≡ refusal_of self.now judgement.now.fault }
    {
        match judgement.fault {
            Some(limit) if self.fault_limits != LIMITS_TELL => {
                Some(DeliveryFault::BeyondFaultLimit(limit.register, limit.word))
            }
            _ => None,
        }
    }

    // An upper limit that a word is at or above.
    fn upper(&self, register: Question, format: &AnyFormat, word: u16) -> Option<Limit>
        ensures { result ≡ spec_upper self.now register (shape_of format.now) word }
    {
        self.reached(register, format.is_above(self.heard(register).word, word))
    }

    // A lower limit that a word is at or below.
    fn lower(&self, register: Question, format: &AnyFormat, word: u16) -> Option<Limit>
        ensures { result ≡ spec_lower self.now register (shape_of format.now) word }
    {
        self.reached(register, format.is_above(word, self.heard(register).word))
    }

    // A limit that gave a good answer, if a word isn't inside it.
    fn reached(&self, register: Question, is_inside: bool) -> Option<Limit>
        ensures { result ≡ spec_reaches self.now register is_inside }
    {
        let heard = self.heard(register);
        if heard.is_good() && !is_inside {
            Some(Limit {
                register,
                word: heard.word,
            })
        } else {
            None
        }
    }
}
