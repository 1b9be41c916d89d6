//! What an output commands, by what is known.

ghost use Rattle.std.specs.Prelude.{◌≡◌, ◌<◌, None};
ghost use Rattle.pm_host.specs.Image.{held};
ghost use Rattle.pm_memory.specs.Guard.{limits_kept, registers_held};
ghost use Rattle.pm_memory.specs.Rail.{power_word, selected_word, IsRail};

use crate::GuardImage;
use crate::limits::{BandImage, of_within, put_known};
use pm_limits::{band_in, within_limits};
use pm_rail::{Power, Selected, power_in, selected_in};

/// What an output commands, by what is known, as plain numbers. It has no padding.
#[repr(C)]
#[derive(Clone, Copy, Debug)]
pub struct RailImage {
    /// 1 if it is on, 2 if it is off, 0 if that isn't known.
    pub power: u8,
    /// 91h if its band lies within its limits, 92h if it lies below or above them, 93h if neither is known, E6h if it has none.
    pub within: u8,
    /// 0 if its band stands in `ends`; otherwise why it doesn't, H7, EBh or N5.
    pub band: u8,
    /// The command code of the register that has its voltage, FFh of AVSBus, 0 if that isn't known.
    pub selected: u8,
    /// No meaning.
    pub unused: [u8; 4],
    /// The ends of its band, or zeros.
    pub ends: BandImage,
}

/// What an output that is there commands, as `pm_host_rail` puts it. Its number is below 8.
pub fn rail_in(host: &GuardImage, output: u8) -> RailImage
    requires { output < 8 }
    ensures { let s = held None host.now.host.state in
        IsRail (record { host = s; limits = limits_kept host.now; registers = registers_held host.now.registers }) output result }
{
    let known = band_in(&host.host.state, host.registers.registers(), output);
    let mut ends = BandImage {
        least: 0,
        greatest: 0,
    };
    let band = put_known(&host.host.state, output, &known, &mut ends);
    RailImage {
        power: of_power(power_in(&host.host.state, output)),
        within: of_within(within_limits(&host.limits(output), known)),
        band,
        selected: of_selected(selected_in(&host.host.state, output)),
        unused: [0; 4],
        ends,
    }
}

// The number of an answer.
fn of_power(power: Power) -> u8
    ensures { result ≡ power_word power }
{
    match power {
        Power::On => 1,
        Power::Off => 2,
        Power::NotKnown => 0,
    }
}

// The number of a register that has a voltage.
fn of_selected(selected: Selected) -> u8
    ensures { result ≡ selected_word selected }
{
    match selected {
        Selected::Register(register) => register.code().0,
        Selected::AvsBus => 0xFF,
        Selected::NotKnown => 0,
    }
}
