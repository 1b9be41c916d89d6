//! Whether an output is on, and which voltage OPERATION selects.

ghost use Rattle.std.specs.Prelude.{◌≡◌, ◌<◌};
ghost use Rattle.pm_host.specs.Image.{held};
ghost use Rattle.pm_host.specs.Summary.{possible_at};
ghost use Rattle.pm_limits.specs.Band.{band_at, within_of};
ghost use Rattle.pm_limits.specs.Guard.{limits_at};
ghost use Rattle.std.specs.List.{list_all};
ghost use Rattle.pm_limits.specs.Band.{selects_avsbus as spec_selects_avsbus};
ghost use Rattle.pm_rail.specs.Rail.{are_off as spec_are_off, are_on as spec_are_on, is_operation_off as spec_is_off, power_by as spec_power_by, power_of as spec_power_of};
ghost use Rattle.pm_rail.specs.Rail.{selected_by as spec_selected_by, selected_of as spec_selected_of, selects as spec_selects};

use pm_host::State;
use pm_limits::{Band, Guard, Within, selects_avsbus};
use pm_table::{Cell, Operation, Reg};

/// Whether an output is on, by the bytes that its OPERATION may be.
#[derive(Clone, Copy, Debug, PartialEq, Eq)]
pub enum Power {
    /// Each of the bytes has it on.
    On,
    /// Each of them has it off.
    Off,
    /// OPERATION may be any byte, or bytes of both kinds, or one that its cell doesn't take.
    NotKnown,
}

/// Which register has the voltage that an output is to command, by the bytes that its OPERATION may be. An output that is off
/// has VOUT_COMMAND.
#[derive(Clone, Copy, Debug, PartialEq, Eq)]
pub enum Selected {
    /// Each of the bytes selects this register: VOUT_COMMAND, VOUT_MARGIN_HIGH or VOUT_MARGIN_LOW.
    Register(Reg),
    /// Each of them hands the voltage to AVSBus.
    AvsBus,
    /// OPERATION may be any byte, or bytes that select different registers, or another one that its cell doesn't take.
    NotKnown,
}

/// What an output commands, by what is known.
#[derive(Clone, Copy, Debug)]
pub struct Rail {
    /// Whether it is on.
    pub power: Power,
    /// Which register has its voltage.
    pub selected: Selected,
    /// Between which voltages it commands, in volts, as [`Guard::band`] says; an output that is off has its band too,
    /// of the register that OPERATION selects then. `None` exactly if its format isn't learned, or if a byte that
    /// hands the voltage to AVSBus is one of those that OPERATION is known to be able to hold.
    pub band: Option<Band>,
    /// Whether the band lies within its limits, as [`Guard::within`] says.
    pub within: Within,
}

/// What an output commands, by what is known. The output is there.
pub fn rail_of(guard: &Guard, output: u8) -> Rail
    requires { output < guard.now.host.setup.outputs }
    ensures power { result.power ≡ spec_power_of (possible_at guard.now.host (Cell.Out output Reg.Operation)) }
    ensures selected { result.selected ≡ spec_selected_of (possible_at guard.now.host (Cell.Out output Reg.Operation)) }
    ensures band { result.band ≡ band_at guard.now.registers guard.now.host output }
    ensures within { result.within ≡ within_of (limits_at guard.now output) (band_at guard.now.registers guard.now.host output) }
{
    Rail {
        power: power_in(guard.host().state(), output),
        selected: selected_in(guard.host().state(), output),
        band: guard.band(output),
        within: guard.within(output),
    }
}

/// Whether an output is on, by what is held beside the open job. The output's number is below 8.
pub fn power_in(host: &State, output: u8) -> Power
    requires { output < 8 }
    ensures { result ≡ spec_power_of (possible_at (held None host.now) (Cell.Out output Reg.Operation)) }
{
    match host
        .known
        .possible(Cell::Out(output, Reg::Operation))
        .listed()
    {
        Some(bytes) => power_by(bytes),
        None => Power::NotKnown,
    }
}

/// Which register has an output's voltage, by what is held beside the open job. The output's number is below 8.
pub fn selected_in(host: &State, output: u8) -> Selected
    requires { output < 8 }
    ensures { result ≡ spec_selected_of (possible_at (held None host.now) (Cell.Out output Reg.Operation)) }
{
    match host
        .known
        .possible(Cell::Out(output, Reg::Operation))
        .listed()
    {
        Some(bytes) => selected_by(bytes),
        None => Selected::NotKnown,
    }
}

// Whether an output is on, by the bytes that OPERATION may be.
fn power_by(bytes: &[u16]) -> Power
    ensures { result ≡ spec_power_by bytes.now }
{
    if are_on(bytes) {
        Power::On
    } else if are_off(bytes) {
        Power::Off
    } else {
        Power::NotKnown
    }
}

// Whether each byte has the output on.
fn are_on(bytes: &[u16]) -> bool
    ensures { result ≡ spec_are_on bytes.now }
{
    for byte in bytes {
        if !Operation::has_on(*byte) {
            return false;
        }
    }
    true
}

// Whether each byte has the output off.
fn are_off(bytes: &[u16]) -> bool
    ensures { result ≡ spec_are_off bytes.now }
{
    for byte in bytes {
        if !is_off(*byte) {
            return false;
        }
    }
    true
}

// Whether a byte is one that OPERATION takes, and has the output off.
fn is_off(byte: u16) -> bool
    ensures { result ≡ spec_is_off byte }
{
    Cell::Out(0, Reg::Operation).accepts(byte) && !Operation::has_on(byte)
}

// Which register has an output's voltage, by the bytes that OPERATION may be.
fn selected_by(bytes: &[u16]) -> Selected
    ensures { result ≡ spec_selected_by bytes.now }
{
    if all_select(Reg::VoutCommand, bytes) {
        Selected::Register(Reg::VoutCommand)
    } else if all_select(Reg::MarginHigh, bytes) {
        Selected::Register(Reg::MarginHigh)
    } else if all_select(Reg::MarginLow, bytes) {
        Selected::Register(Reg::MarginLow)
    } else if all_select_avsbus(bytes) {
        Selected::AvsBus
    } else {
        Selected::NotKnown
    }
}

// Whether each byte selects a register.
fn all_select(register: Reg, bytes: &[u16]) -> bool
    ensures { result ≡ list_all (spec_selects register) bytes.now }
{
    bytes.iter().all(|byte| selects(register, *byte))
}

// Whether each byte hands the voltage to AVSBus.
fn all_select_avsbus(bytes: &[u16]) -> bool
    ensures { result ≡ list_all spec_selects_avsbus bytes.now }
{
    bytes.iter().all(|byte| selects_avsbus(*byte))
}

// Whether a byte is one that OPERATION takes, and selects a register.
fn selects(register: Reg, byte: u16) -> bool
    ensures { result ≡ spec_selects register byte }
{
    Cell::Out(0, Reg::Operation).accepts(byte)
        && Operation::selected_register(byte).code() == register.code()
}
