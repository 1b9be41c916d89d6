//! The voltages that an output may command, by what is known.

ghost use Rattle.std.specs.Prelude.{◌≡◌, ◌<◌, None, MatchOption};
ghost use Rattle.std.specs.List.{list_any};
ghost use Rattle.pm_host.specs.declared.knowledge.Possible.TheVariants.{Any};
ghost use Rattle.pm_host.specs.Image.{held, listing};
ghost use Rattle.pm_num.specs.AnyFormat.{voltage_shape};
ghost use Rattle.pm_table.specs.declared.cell.Cell.TheVariants.{Out};
ghost use Rattle.pm_table.specs.declared.reg.Reg.TheVariants.{Operation};
ghost use Rattle.pm_host.specs.Summary.{possible_at};
ghost use Rattle.pm_limits.specs.Band.{band_at, band_on as spec_band_on, band_with, is_untaken as spec_is_untaken, known_of_output, may_select_avsbus as spec_may_select_avsbus, operations as spec_operations, selects_avsbus as spec_selects_avsbus};

use crate::ends::{OutputEnds, Side, format_in};
use crate::part_registers::PartRegisters;
use pm_host::{Host, State};
use pm_num::{Frac, VoltageFormat};
use pm_table::{Cell, Reg};

// What stands for the bytes of an OPERATION that may be any: on, on with margin high, and on with margin low.
static EACH_SELECTION: [u16; 3] = [0x80, 0xA8, 0x94];

/// The least and the greatest voltage that an output may command, in volts, by what is known.
#[derive(Clone, Copy, Debug)]
pub struct Band {
    /// The least voltage.
    pub least: Frac,
    /// The greatest one.
    pub greatest: Frac,
}

/// Between which voltages an output may be, by what a host knows: the least and the greatest that it commands with
/// the words that its registers may hold. The ends of its format stand for a register that may hold any. A VOUT_MIN
/// or VOUT_MAX that the part doesn't have doesn't cut. OPERATION may be any if it may be a byte that its cell
/// doesn't take, as A0h. `None` exactly if the format isn't known, or if such a byte hands the voltage to AVSBus:
/// its bits 5 and 4 are 11, as of B0h. The output is there.
///
/// What the device commands lies in it, unless it restarted since the good answers that the band rests on, and if no
/// VOUT_MIN or VOUT_MAX that it is said to lack cuts the output. At most 16 words a register are looked at, and no combination is tried.
pub fn band_of(host: &Host, registers: PartRegisters, output: u8) -> Option<Band>
    requires { output < host.now.setup.outputs }
    ensures { result ≡ band_at registers host.now output }
{
    band_in(host.state(), registers, output)
}

/// The band of an output as [`band_of`] says it, by what the host holds beside its open job. The output's
/// number is below 8.
pub fn band_in(host: &State, registers: PartRegisters, output: u8) -> Option<Band>
    requires { output < 8 }
    ensures { result ≡ band_at registers (held None host.now) output }
{
    if may_select_avsbus(host, output) {
        return None;
    }
    match format_in(host, output) {
        Some(format) => Some(band_by(&format, host, registers, output, operations(host, output))),
        None => None,
    }
}

/// What the band would be with this byte in OPERATION.
pub(crate) fn band_on(host: &State, registers: PartRegisters, output: u8, byte: u16) -> Option<Band>
    requires { output < 8 }
    ensures { result ≡ spec_band_on registers (held None host.now) output byte }
{
    match format_in(host, output) {
        Some(format) => Some(band_by(&format, host, registers, output, &[byte])),
        None => None,
    }
}

// The band with one of these bytes in OPERATION.
fn band_by(
    format: &VoltageFormat,
    host: &State,
    registers: PartRegisters,
    output: u8,
    bytes: &[u16],
) -> Band
    requires { output < 8 }
    ensures { result ≡ band_with (voltage_shape format.now) (known_of_output registers (voltage_shape format.now) (held None host.now) output) bytes.now }
{
    let ends = OutputEnds::of(format, host, registers, output);
    Band {
        least: ends.reached(Side::Lowest, format, bytes),
        greatest: ends.reached(Side::Highest, format, bytes),
    }
}

// The bytes that an output's OPERATION may be, as far as it matters.
fn operations(host: &State, output: u8) -> &[u16]
    requires { output < 8 }
    ensures { result.now ≡ spec_operations (possible_at (held None host.now) (Out output Operation)) }
{
    match listed(host, output) {
        Some(bytes) => {
            if has_untaken(bytes) {
                &EACH_SELECTION
            } else {
                bytes
            }
        }
        None => &EACH_SELECTION,
    }
}

// Whether an output's OPERATION may be a byte that hands the voltage to AVSBus.
fn may_select_avsbus(host: &State, output: u8) -> bool
    requires { output < 8 }
    ensures { result ≡ spec_may_select_avsbus (possible_at (held None host.now) (Out output Operation)) }
{
    match listed(host, output) {
        Some(bytes) => has_avsbus(bytes),
        None => false,
    }
}

// The bytes that an output's OPERATION may be; `None` if it may be any.
fn listed(host: &State, output: u8) -> Option<&[u16]>
    requires { output < 8 }
    ensures { MatchOption result (possible_at (held None host.now) (Out output Operation) ≡ Any)
        (λ bytes. possible_at (held None host.now) (Out output Operation) ≡ listing bytes.now) }
{
    host.known
        .possible(Cell::Out(output, Reg::Operation))
        .listed()
}

// Whether OPERATION doesn't take one of these bytes.
fn has_untaken(bytes: &[u16]) -> bool
    ensures { result ≡ list_any spec_is_untaken bytes.now }
{
    bytes.iter().any(|byte| is_untaken(*byte))
}

// Whether one of these bytes hands the voltage to AVSBus.
fn has_avsbus(bytes: &[u16]) -> bool
    ensures { result ≡ list_any spec_selects_avsbus bytes.now }
{
    bytes.iter().any(|byte| selects_avsbus(*byte))
}

// Whether OPERATION doesn't take a byte.
fn is_untaken(byte: u16) -> bool
    ensures { result ≡ spec_is_untaken byte }
{
    !Cell::Out(0, Reg::Operation).accepts(byte)
}

/// Whether a byte is one that OPERATION doesn't take, and hands the voltage to AVSBus: its bits 5 and 4 are 11.
pub fn selects_avsbus(byte: u16) -> bool
    ensures { result ≡ spec_selects_avsbus byte }
{
    is_untaken(byte) && (byte / 16) % 4 == 0b11
}
