//! What a rail does.

ghost use Rattle.std.specs.Prelude.{◌≡◌, true, false, None};
ghost use Rattle.pm_delivery.specs.Deliveries.{has as spec_has, has_status as spec_has_status, has_vout as spec_has_vout, is_off as spec_is_off, lacks_power_good as spec_lacks_power_good};
ghost use Rattle.pm_delivery.specs.Heard.{is_good as spec_is_good};
ghost use Rattle.pm_delivery.specs.StatusBits.{off, power_good_not};
ghost use Rattle.pm_delivery.specs.Ended.{once_over, verdict_at as spec_verdict_at, delivery_verdict_of};
ghost use Rattle.pm_delivery.specs.Verdict.{is_status_unanswered as spec_is_unanswered, not_known as spec_not_known, unanswered as spec_unanswered, verdict_alone as spec_verdict_alone, verdict_by as spec_verdict_by, verdict_status as spec_verdict_status, verdict_off as spec_verdict_off, verdict_on as spec_verdict_on, verdict_sound as spec_verdict_sound, verdict_with as spec_verdict_with};
ghost use Rattle.pm_delivery.specs.Deliveries.{new_fault};
ghost use Rattle.pm_table.specs.Rules.{rule};

use crate::delivery::{Delivery, LOOK_AFTER, LOOK_LOWERED, LOOK_OFF};
use crate::due::Due;
use crate::question::Question;
use crate::reading::Reading;
use crate::status::{INPUT, IOUT_POUT, TEMPERATURE, VOUT};
use pm_rail::Power;

/// What a rail does, by the last answers.
#[derive(Clone, Copy, Debug, PartialEq, Eq)]
pub enum Verdict {
    /// Something is still to be asked, or nothing was looked at.
    NotYet,
    /// It delivers: OFF and POWER_GOOD# are 0, no fault is new, and READ_VOUT, if the part has it, is right.
    Delivers,
    /// READ_VOUT is right, of a part that has no STATUS_WORD: of faults nothing is known.
    DeliversByVoltage,
    /// It isn't asked: the output is commanded off.
    CommandedOff,
    /// It isn't asked: the output isn't known to be on.
    NotKnownOn,
    /// OFF is 1, though the output is commanded on.
    IsOff,
    /// The bit of this number of this register says a fault that wasn't known to be there before the first order.
    NewFault(Question, u8),
    /// READ_VOUT lies outside the output's limits.
    OutsideLimits,
    /// READ_VOUT is farther from what the output commands than it may be.
    Beyond,
    /// READ_VOUT is right, and POWER_GOOD# is 1.
    PowerGoodAlone,
    /// POWER_GOOD# is 1 of a part that has no READ_VOUT.
    NoPowerGood,
    /// This register gave no good answer: the number says what was wrong with the last one. 0 of READ_VOUT if that was good, and
    /// what the output commands isn't known.
    NotKnown(Question, u8),
    /// OFF is 1 after an order that turned the output off.
    WentOff,
    /// OFF is 0 after an order that turned the output off.
    StillOn,
}

impl Delivery {
    /// What the rail does, if each question is asked at most so often until a good answer comes, of an output with this power
    /// whose last reading of READ_VOUT stands so.
    pub fn verdict(&self, passes: u8, power: Power, reading: Reading) -> Verdict
        ensures value { result ≡ delivery_verdict_of self.now passes power reading }
        ensures on { result ≡ Verdict.Delivers → power ≡ Power.On }
        ensures word { result ≡ Verdict.Delivers → spec_is_good self.now.status_word ≡ true }
        ensures is_not_off { result ≡ Verdict.Delivers → spec_has self.now off ≡ false }
        ensures good { result ≡ Verdict.Delivers → spec_has self.now power_good_not ≡ false }
        ensures sound { result ≡ Verdict.Delivers → new_fault self.now ≡ None }
        ensures right { result ≡ Verdict.Delivers → spec_has_vout self.now ≡ true → reading ≡ Reading.Right }
        ensures has { result ≡ Verdict.Delivers → spec_has_status self.now ≡ true }
        ensures voltage { result ≡ Verdict.DeliversByVoltage → reading ≡ Reading.Right }
        ensures alone { result ≡ Verdict.DeliversByVoltage → spec_has_status self.now ≡ false }
        ensures commanded { result ≡ Verdict.DeliversByVoltage → power ≡ Power.On }
        ensures gone { result ≡ Verdict.WentOff → spec_has self.now off ≡ true }
    {
        let due = self.due(passes, power, reading);
        match self.look {
            LOOK_AFTER | LOOK_LOWERED => verdict_at(power, due, self.verdict_on(reading)),
            LOOK_OFF => ended(due, self.verdict_off()),
            _ => Verdict::NotYet,
        }
    }

    // What a rail does that was turned off.
    fn verdict_off(&self) -> Verdict
        ensures value { result ≡ spec_verdict_off self.now }
        ensures on { result ≡ Verdict.Delivers → true ≡ false }
        ensures alone { result ≡ Verdict.DeliversByVoltage → true ≡ false }
        ensures gone { result ≡ Verdict.WentOff → spec_is_off self.now ≡ true }
    {
        if !self.status_word.is_good() {
            self.not_known(Question::StatusWord)
        } else if self.is_off() {
            Verdict::WentOff
        } else {
            Verdict::StillOn
        }
    }

    /// What a rail does that is commanded on, by the answers of this round.
    pub(crate) fn verdict_on(&self, reading: Reading) -> Verdict
        ensures value { result ≡ spec_verdict_on self.now reading }
        ensures word { result ≡ Verdict.Delivers → spec_is_good self.now.status_word ≡ true }
        ensures is_not_off { result ≡ Verdict.Delivers → spec_is_off self.now ≡ false }
        ensures good { result ≡ Verdict.Delivers → spec_lacks_power_good self.now ≡ false }
        ensures sound { result ≡ Verdict.Delivers → new_fault self.now ≡ None }
        ensures right { result ≡ Verdict.Delivers → spec_has_vout self.now ≡ true → reading ≡ Reading.Right }
        ensures has { result ≡ Verdict.Delivers → spec_has_status self.now ≡ true }
        ensures voltage { result ≡ Verdict.DeliversByVoltage → reading ≡ Reading.Right }
        ensures alone { result ≡ Verdict.DeliversByVoltage → spec_has_status self.now ≡ false }
        ensures gone { result ≡ Verdict.WentOff → true ≡ false }
    {
        if self.has_status() {
            self.verdict_status(reading)
        } else {
            self.verdict_alone(reading)
        }
    }

    // What a rail does that is commanded on, of a part without STATUS_WORD.
    fn verdict_alone(&self, reading: Reading) -> Verdict
        ensures value { result ≡ spec_verdict_alone self.now reading }
        ensures on { result ≡ Verdict.Delivers → true ≡ false }
        ensures voltage { result ≡ Verdict.DeliversByVoltage → reading ≡ Reading.Right }
        ensures gone { result ≡ Verdict.WentOff → true ≡ false }
    {
        if !self.has_vout() {
            return self.not_known(Question::StatusWord);
        }
        match reading {
            Reading::NotKnown => self.not_known(Question::ReadVout),
            Reading::Outside | Reading::Above => Verdict::OutsideLimits,
            Reading::Beyond => Verdict::Beyond,
            Reading::Right => Verdict::DeliversByVoltage,
        }
    }

    // What a rail does that is commanded on, by STATUS_WORD and by what that points to.
    fn verdict_status(&self, reading: Reading) -> Verdict
        ensures value { result ≡ spec_verdict_status self.now reading }
        ensures word { result ≡ Verdict.Delivers → spec_is_good self.now.status_word ≡ true }
        ensures is_not_off { result ≡ Verdict.Delivers → spec_is_off self.now ≡ false }
        ensures good { result ≡ Verdict.Delivers → spec_lacks_power_good self.now ≡ false }
        ensures sound { result ≡ Verdict.Delivers → new_fault self.now ≡ None }
        ensures right { result ≡ Verdict.Delivers → spec_has_vout self.now ≡ true → reading ≡ Reading.Right }
        ensures alone { result ≡ Verdict.DeliversByVoltage → true ≡ false }
        ensures gone { result ≡ Verdict.WentOff → true ≡ false }
    {
        if !self.status_word.is_good() {
            self.not_known(Question::StatusWord)
        } else if self.is_off() {
            Verdict::IsOff
        } else {
            self.verdict_sound(reading)
        }
    }

    // What a rail does that is commanded on, and that STATUS_WORD doesn't call off.
    fn verdict_sound(&self, reading: Reading) -> Verdict
        ensures value { result ≡ spec_verdict_sound self.now reading (new_fault self.now) }
        ensures good { result ≡ Verdict.Delivers → spec_lacks_power_good self.now ≡ false }
        ensures sound { result ≡ Verdict.Delivers → new_fault self.now ≡ None }
        ensures right { result ≡ Verdict.Delivers → spec_has_vout self.now ≡ true → reading ≡ Reading.Right }
        ensures alone { result ≡ Verdict.DeliversByVoltage → true ≡ false }
        ensures gone { result ≡ Verdict.WentOff → true ≡ false }
    {
        if let Some(fault) = self.new_fault() {
            return Verdict::NewFault(fault.register, fault.place);
        }
        match self.unanswered() {
            Some(register) => self.not_known(register),
            None => self.verdict_by(reading),
        }
    }

    // What a rail does by its reading and power good, if nothing else speaks against it.
    fn verdict_by(&self, reading: Reading) -> Verdict
        ensures value { result ≡ spec_verdict_by self.now reading }
        ensures good { result ≡ Verdict.Delivers → spec_lacks_power_good self.now ≡ false }
        ensures right { result ≡ Verdict.Delivers → spec_has_vout self.now ≡ true → reading ≡ Reading.Right }
        ensures alone { result ≡ Verdict.DeliversByVoltage → true ≡ false }
        ensures gone { result ≡ Verdict.WentOff → true ≡ false }
    {
        if self.has_vout() {
            self.verdict_with(reading)
        } else if self.lacks_power_good() {
            Verdict::NoPowerGood
        } else {
            Verdict::Delivers
        }
    }

    // What a rail does by READ_VOUT and power good, of a part that has READ_VOUT.
    fn verdict_with(&self, reading: Reading) -> Verdict
        ensures value { result ≡ spec_verdict_with self.now reading }
        ensures good { result ≡ Verdict.Delivers → spec_lacks_power_good self.now ≡ false }
        ensures right { result ≡ Verdict.Delivers → reading ≡ Reading.Right }
        ensures alone { result ≡ Verdict.DeliversByVoltage → true ≡ false }
        ensures gone { result ≡ Verdict.WentOff → true ≡ false }
    {
        match reading {
            Reading::NotKnown => self.not_known(Question::ReadVout),
            Reading::Outside | Reading::Above => Verdict::OutsideLimits,
            Reading::Beyond => Verdict::Beyond,
            Reading::Right => {
                if self.lacks_power_good() {
                    Verdict::PowerGoodAlone
                } else {
                    Verdict::Delivers
                }
            }
        }
    }

    // A register without a good answer.
    fn not_known(&self, register: Question) -> Verdict
        ensures { result ≡ spec_not_known self.now register }
    {
        Verdict::NotKnown(register, self.heard(register).fault)
    }

    // A status register whose summary in STATUS_WORD is new, and that gave no good answer.
    fn unanswered(&self) -> Option<Question>
        ensures { result ≡ spec_unanswered self.now }
    {
        self.unanswered_of(Question::StatusVout, VOUT).or(
            self.unanswered_of(Question::StatusIout, IOUT_POUT).or(
                self.unanswered_of(Question::StatusInput, INPUT).or(self.unanswered_of(
                    Question::StatusTemperature,
                    TEMPERATURE,
                )),
            ),
        )
    }

    // This register, if it is such a one.
    fn unanswered_of(&self, register: Question, summary: u8) -> Option<Question>
        ensures { result ≡ rule (spec_is_unanswered self.now register summary) register }
    {
        if self.is_new(summary) && !self.heard(register).is_good() {
            Some(register)
        } else {
            None
        }
    }
}

// A verdict of an output with this power.
fn verdict_at(power: Power, due: Due, verdict: Verdict) -> Verdict
    ensures value { result ≡ spec_verdict_at power due verdict }
    ensures on { result ≡ Verdict.Delivers → power ≡ Power.On }
    ensures delivers { result ≡ Verdict.Delivers → verdict ≡ Verdict.Delivers }
    ensures voltage { result ≡ Verdict.DeliversByVoltage → verdict ≡ Verdict.DeliversByVoltage }
    ensures commanded { result ≡ Verdict.DeliversByVoltage → power ≡ Power.On }
    ensures gone { result ≡ Verdict.WentOff → verdict ≡ Verdict.WentOff }
{
    match power {
        Power::Off => Verdict::CommandedOff,
        Power::NotKnown => Verdict::NotKnownOn,
        Power::On => ended(due, verdict),
    }
}

// This verdict if nothing is due, otherwise `NotYet`.
fn ended(due: Due, verdict: Verdict) -> Verdict
    ensures value { result ≡ once_over due verdict }
    ensures delivers { result ≡ Verdict.Delivers → verdict ≡ Verdict.Delivers }
    ensures voltage { result ≡ Verdict.DeliversByVoltage → verdict ≡ Verdict.DeliversByVoltage }
    ensures gone { result ≡ Verdict.WentOff → verdict ≡ Verdict.WentOff }
{
    match due {
        Due::Nothing => verdict,
        Due::Ask(_) | Due::Again => Verdict::NotYet,
    }
}
