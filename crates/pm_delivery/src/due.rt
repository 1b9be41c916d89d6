//! What is asked next.

ghost use Rattle.std.specs.Prelude.{◌≡◌};
ghost use Rattle.pm_delivery.specs.Due.{again_or, due_question as spec_asked, asks, asks_limits, asks_of, asks_status, asks_vout, is_vout_worth_reading as spec_is_sound, can_decide as spec_can_decide, due_after as spec_due_after, question_due_before as spec_due_before};
ghost use Rattle.pm_delivery.specs.Due.{due_after_round as spec_due_by, due_in_round as spec_due_in_round, due_of, due_off as spec_due_off, due_on as spec_due_on, due_or as spec_due_or, due_round_over, fails_at_once as spec_fails_at_once, is_reading_above as spec_is_above, is_left as spec_is_left};

use crate::delivery::{Delivery, LIMITS_SKIP, LOOK_AFTER, LOOK_BEFORE, LOOK_LOWERED, LOOK_OFF};
use crate::question::Question;
use crate::reading::Reading;
use crate::status::{INPUT, IOUT_POUT, TEMPERATURE, VOUT};
use crate::verdict::Verdict;
use pm_rail::Power;

/// What is due.
#[derive(Clone, Copy, Debug, PartialEq, Eq)]
pub enum Due {
    /// To ask this.
    Ask(Question),
    /// To ask all once more, and STATUS_WORD first, after some time.
    Again,
    /// Nothing.
    Nothing,
}

impl Delivery {
    /// What is due, if each question is asked at most so often until a good answer comes, of an output with this power whose
    /// last reading of READ_VOUT stands so.
    pub fn due(&self, passes: u8, power: Power, reading: Reading) -> Due
        ensures { result ≡ due_of self.now passes power reading }
    {
        match self.look {
            LOOK_BEFORE => asked(self.due_before(passes)),
            LOOK_AFTER | LOOK_LOWERED => self.due_on(passes, power, reading),
            LOOK_OFF => self.due_off(passes),
            _ => Due::Nothing,
        }
    }

    // A question that is to be asked, if no good answer came and it was asked fewer times than this.
    fn ask(&self, question: Question, passes: u8) -> Option<Question>
        ensures { result ≡ asks self.now passes question }
    {
        if self.heard(question).is_due(passes) {
            Some(question)
        } else {
            None
        }
    }

    // STATUS_WORD, if the part has it.
    fn ask_status(&self, question: Question, passes: u8) -> Option<Question>
        ensures { result ≡ asks_status self.now passes question }
    {
        if self.has_status() {
            self.ask(question, passes)
        } else {
            None
        }
    }

    // What is asked before an order.
    fn due_before(&self, passes: u8) -> Option<Question>
        ensures { result ≡ spec_due_before self.now passes }
    {
        self.ask_status(Question::Before, passes)
            .or(self.ask_limits(passes))
    }

    // The fault limits and those of warnings, unless they are skipped.
    fn ask_limits(&self, passes: u8) -> Option<Question>
        ensures { result ≡ asks_limits self.now passes }
    {
        if self.fault_limits == LIMITS_SKIP {
            return None;
        }
        self.ask(Question::OvFaultLimit, passes).or(
            self.ask(Question::OvWarnLimit, passes).or(
                self.ask(Question::UvWarnLimit, passes)
                    .or(self.ask(Question::UvFaultLimit, passes)),
            ),
        )
    }

    // What is due after an order that turned the output off.
    fn due_off(&self, passes: u8) -> Due
        ensures { result ≡ spec_due_off self.now passes }
    {
        if !self.has_status() {
            return Due::Nothing;
        }
        due_or(
            self.ask(Question::StatusWord, passes),
            if self.is_off() {
                Due::Nothing
            } else {
                self.again_or(None)
            },
        )
    }

    // What is due of an output with this power.
    fn due_on(&self, passes: u8, power: Power, reading: Reading) -> Due
        ensures { result ≡ spec_due_on self.now passes power reading }
    {
        match power {
            Power::On if self.has_status() || self.has_vout() => self.due_after(passes, reading),
            _ => Due::Nothing,
        }
    }

    // What is due of an output that is commanded on.
    fn due_after(&self, passes: u8, reading: Reading) -> Due
        ensures { result ≡ spec_due_after self.now passes reading }
    {
        due_or(self.due_in_round(passes), self.due_at_end(passes, reading))
    }

    // What is due once a round has ended.
    fn due_at_end(&self, passes: u8, reading: Reading) -> Due
        ensures { result ≡ due_round_over self.now passes reading }
    {
        if self.fails_at_once(reading) {
            Due::Nothing
        } else {
            self.due_by(passes, self.verdict_on(reading))
        }
    }

    // Whether the output is off with a new fault, or above its upper limit after an order that didn't lower it.
    fn fails_at_once(&self, reading: Reading) -> bool
        ensures { result ≡ spec_fails_at_once self.now reading }
    {
        (self.is_off() && self.new_fault().is_some())
            || (self.look == LOOK_AFTER && is_above(reading))
    }

    // What is due once a round has ended with this verdict.
    fn due_by(&self, passes: u8, verdict: Verdict) -> Due
        ensures { result ≡ spec_due_by self.now passes verdict }
    {
        match verdict {
            Verdict::Delivers | Verdict::DeliversByVoltage => Due::Nothing,
            Verdict::PowerGoodAlone => self.again_or(
                self.ask(Question::PowerGoodOn, passes)
                    .or(self.ask(Question::PowerGoodOff, passes)),
            ),
            _ => self.again_or(None),
        }
    }

    // A further round if one is left; otherwise what is asked last.
    fn again_or(&self, last: Option<Question>) -> Due
        ensures { result ≡ again_or self.now last }
    {
        if self.is_left() {
            Due::Again
        } else {
            asked(last)
        }
    }

    // Whether a further round is left.
    fn is_left(&self) -> bool
        ensures { result ≡ spec_is_left self.now }
    {
        self.round < self.rounds && 1 < self.rounds - self.round
    }

    // What is asked in each round: STATUS_WORD, each status register whose summary is new, and READ_VOUT if it can decide.
    fn due_in_round(&self, passes: u8) -> Option<Question>
        ensures { result ≡ spec_due_in_round self.now passes }
    {
        self.ask_status(Question::StatusWord, passes).or(
            self.ask_of(Question::StatusVout, VOUT, passes).or(
                self.ask_of(Question::StatusIout, IOUT_POUT, passes).or(
                    self.ask_of(Question::StatusInput, INPUT, passes).or(
                        self.ask_of(Question::StatusTemperature, TEMPERATURE, passes)
                            .or(self.ask_vout(passes)),
                    ),
                ),
            ),
        )
    }

    // A status register, which is asked if its summary in STATUS_WORD is new.
    fn ask_of(&self, register: Question, summary: u8, passes: u8) -> Option<Question>
        ensures { result ≡ asks_of self.now passes register summary }
    {
        if self.is_new(summary) {
            self.ask(register, passes)
        } else {
            None
        }
    }

    // READ_VOUT, if it can decide.
    fn ask_vout(&self, passes: u8) -> Option<Question>
        ensures { result ≡ asks_vout self.now passes }
    {
        if self.can_decide() {
            self.ask(Question::ReadVout, passes)
        } else {
            None
        }
    }

    // Whether READ_VOUT can decide: the part has it, and has no STATUS_WORD or nothing speaks against the output by that.
    fn can_decide(&self) -> bool
        ensures { result ≡ spec_can_decide self.now }
    {
        self.has_vout() && (!self.has_status() || self.is_sound())
    }

    // Whether STATUS_WORD doesn't call the output off, and no fault is new or a further round is left.
    fn is_sound(&self) -> bool
        ensures { result ≡ spec_is_sound self.now }
    {
        self.status_word.is_good()
            && !self.is_off()
            && (self.new_fault().is_none() || self.is_left())
    }
}

fn is_above(reading: Reading) -> bool
    ensures { result ≡ spec_is_above reading }
{
    match reading {
        Reading::Above => true,
        _ => false,
    }
}

// A question that is asked, if there is one.
fn asked(question: Option<Question>) -> Due
    ensures { result ≡ spec_asked question }
{
    match question {
        Some(question) => Due::Ask(question),
        None => Due::Nothing,
    }
}

// A question that is asked first, if there is one.
fn due_or(question: Option<Question>, due: Due) -> Due
    ensures { result ≡ spec_due_or question due }
{
    match question {
        Some(question) => Due::Ask(question),
        None => due,
    }
}
