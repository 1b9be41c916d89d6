//! What is told of a rail beside its verdict: READ_VOUT in microvolts, and the word of the register that says the verdict.

ghost use Rattle.std.specs.Prelude.{◌≡◌, ◌<◌, is_some, Some, None};
ghost use Rattle.pm_host.specs.Image.{held};
ghost use Rattle.pm_host.specs.Summary.{format_at};
ghost use Rattle.pm_num.specs.AnyFormat.{shape_of};
ghost use Rattle.pm_memory.specs.Delivery.{idle_host, is_floor_told, is_voltage_told, said_by as spec_said_by, heard_word_of as spec_word_of, IsFloorOf, IsToldVoltage};

use crate::GuardImage;
use crate::numbers::ACCEPTED;
use crate::voltages::put_floor;
use pm_delivery::{Delivery, Question, Verdict};
use pm_host::State;
use pm_num::{AnyFormat, NumFormat};

/// READ_VOUT in microvolts, if it gave a good answer and its format is known.
pub(crate) fn told(delivery: &Delivery, host: &GuardImage) -> Option<i64>
    requires { delivery.now.output < 8 }
    ensures told { is_some result ≡ is_voltage_told (format_at (idle_host host.now) delivery.now.output) delivery.now }
    ensures floor { IsToldVoltage (format_at (idle_host host.now) delivery.now.output) delivery.now result }
{
    if delivery.read_vout.is_good() {
        floor_at(&host.host.state, delivery.output, delivery.read_vout.word)
    } else {
        None
    }
}

// A word of an output's voltage in microvolts, rounded down, if its format is known.
fn floor_at(state: &State, output: u8, word: u16) -> Option<i64>
    requires { output < 8 }
    ensures told { is_some result ≡ is_floor_told (format_at (held None state.now) output) word }
    ensures floor { IsFloorOf (format_at (held None state.now) output) word result }
{
    match state.format(output).format() {
        Some(format) => floor_of(&format, word),
        None => None,
    }
}

// A word in microvolts, rounded down, by a format.
fn floor_of(format: &AnyFormat, word: u16) -> Option<i64>
    ensures told { is_some result ≡ is_floor_told (Some (shape_of format.now)) word }
    ensures floor { IsFloorOf (Some (shape_of format.now)) word result }
{
    let mut microvolts = 0;
    if put_floor(&format.value_of(word), &mut microvolts) == ACCEPTED {
        Some(microvolts)
    } else {
        None
    }
}

/// The register that a verdict is said by.
pub(crate) fn said_by(verdict: Verdict) -> Option<Question>
    ensures { result ≡ spec_said_by verdict }
{
    match verdict {
        Verdict::IsOff | Verdict::PowerGoodAlone | Verdict::NoPowerGood | Verdict::StillOn => {
            Some(Question::StatusWord)
        }
        Verdict::OutsideLimits | Verdict::Beyond => Some(Question::ReadVout),
        Verdict::NewFault(register, _) | Verdict::NotKnown(register, _) => Some(register),
        Verdict::NotYet
        | Verdict::Delivers
        | Verdict::DeliversByVoltage
        | Verdict::CommandedOff
        | Verdict::NotKnownOn
        | Verdict::WentOff => None,
    }
}

/// What a register held in this round; 0 of none.
pub(crate) fn word_of(delivery: &Delivery, register: Option<Question>) -> u16
    ensures { result ≡ spec_word_of delivery.now register }
{
    match register {
        Some(register) => delivery.heard(register).word,
        None => 0,
    }
}
