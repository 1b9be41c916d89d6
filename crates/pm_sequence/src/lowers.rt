//! Whether a step lowers an output that is on.

ghost use Rattle.std.specs.Prelude.{◌≡◌, ◌<◌, None};
ghost use Rattle.pm_host.specs.Image.{held};
ghost use Rattle.pm_host.specs.Summary.{format_at};
ghost use Rattle.pm_limits.specs.Band.{band_at};
ghost use Rattle.pm_sequence.specs.Lowers.{is_lower as spec_is_lower, lowers as spec_lowers, lowers_at, register_after as spec_register_after, word_after as spec_word_after};

use pm_host::State;
use pm_limits::{PartRegisters, band_in};
use pm_num::NumFormat;
use pm_rail::{Power, Selected, power_in, selected_in};
use pm_stairs::{Sight, Under, WordAct, WordStep, goal};
use pm_table::{Operation, Reg};
use std::cmp::Ordering;

/// Whether the step that begins lowers its output, by what its host knows then.
pub(crate) fn lowers<S: Sight>(guard: &S, under: &Option<Under>) -> bool
    ensures { result ≡ spec_lowers (S.guarded guard.now) under.now }
{
    match under {
        None => false,
        Some(under) => {
            if 8 <= under.step.output {
                return false;
            }
            lowers_known(guard.state(), guard.registers(), &under.step)
        }
    }
}

// Whether a step lowers its output, by what is known.
fn lowers_known(host: &State, registers: PartRegisters, step: &WordStep) -> bool
    requires { step.now.output < 8 }
    ensures { result ≡ lowers_at registers (held None host.now) step.now.output step.now.act }
{
    match (power_in(host, step.output), word_after(host, step)) {
        (Power::On, Some(word)) => is_lower(host, registers, step.output, word),
        _ => false,
    }
}

// Whether a word is below the most that an output may command.
fn is_lower(host: &State, registers: PartRegisters, output: u8, word: u16) -> bool
    requires { output < 8 }
    ensures { result ≡ spec_is_lower (band_at registers (held None host.now) output) (format_at (held None host.now) output) word }
{
    let Some(band) = band_in(host, registers, output) else {
        return false;
    };
    match host.format(output).format() {
        Some(format) => band.greatest.cmp_value(&format.value_of(word)) == Ordering::Greater,
        None => false,
    }
}

// The word that a step gives the register which has its output's voltage then, or that a byte selects which it turns the output to.
fn word_after(host: &State, step: &WordStep) -> Option<u16>
    requires { step.now.output < 8 }
    ensures { result ≡ spec_word_after (held None host.now) step.now.output step.now.act }
{
    match (goal(host, step), register_after(host, step)) {
        (Some(words), Some(register)) => words.word(register),
        _ => None,
    }
}

// The register that has an output's voltage once a step is over.
fn register_after(host: &State, step: &WordStep) -> Option<Reg>
    requires { step.now.output < 8 }
    ensures { result ≡ spec_register_after (held None host.now) step.now.output step.now.act }
{
    match step.act {
        WordAct::Turns(byte) => Some(Operation::selected_register(byte)),
        WordAct::Sets(_) => match selected_in(host, step.output) {
            Selected::Register(register) => Some(register),
            Selected::AvsBus | Selected::NotKnown => None,
        },
        WordAct::Nothing => None,
    }
}
