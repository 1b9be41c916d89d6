//! Why no converter is made of a configuration.

ghost use Rattle.std.specs.Prelude.{◌≡◌, ◌≤◌, length, if◌then◌else◌};
ghost use Rattle.pm_table.specs.Cell.{cell_accepts};
ghost use Rattle.pm_device.specs.Start as spec;

use crate::config::Config;
use crate::config_fault::ConfigFault;
use crate::output_start::OutputStart;
use pm_num::NumFault;
use pm_table::{Cell, Reg, VoutMode, address_ok, format_of};

/// The first fault of a configuration, in the order of `ConfigFault`.
#[tactic(auto, unfolding(crate::specs::Start::config_fault))]
pub(crate) fn config_fault(config: &Config) -> Option<ConfigFault>
    ensures { result ≡ spec.config_fault config.now }
{
    if !(1..=8).contains(&config.count) {
        return Some(ConfigFault::OutputCount);
    }
    if let Some(cell) = bad_start(config) {
        return Some(ConfigFault::BadStart(cell));
    }
    if !address_ok(config.addr) {
        return Some(ConfigFault::Address);
    }
    if let Some(fault) = bad_mode(config.outputs()) {
        return Some(fault);
    }
    bad_coefficients(config).map(ConfigFault::BadCoefficients)
}

// The first cell that doesn't accept its start word: outputs in order, WRITE_PROTECT last.
fn bad_start(config: &Config) -> Option<Cell>
    requires { config.now.count ≤ 8 }
    ensures { result ≡ spec.bad_start config.now }
{
    bad_registers(config.outputs()).or(bad_word(Cell::Protect, config.protect))
}

// The first register of an output that doesn't accept its start word.
fn bad_registers(outputs: &[OutputStart]) -> Option<Cell>
    requires { length outputs.now ≤ 8 }
    ensures { result ≡ spec.bad_registers 0 outputs.now }
{
    for (output, start) in outputs.iter().enumerate() {
        let bad = bad_register(output as u8, start);
        if bad.is_some() {
            return bad;
        }
    }
    None
}

// The first register of this output that doesn't accept its start word.
fn bad_register(output: u8, start: &OutputStart) -> Option<Cell>
    ensures { result ≡ spec.bad_register output start.now }
{
    Reg::ALL
        .iter()
        .copied()
        .find(|register| !Cell::Out(output, *register).accepts(start.word(*register)))
        .map(|register| Cell::Out(output, register))
}

// The cell, if it doesn't accept the word.
fn bad_word(cell: Cell, word: u16) -> Option<Cell>
    ensures { result ≡ (if cell_accepts cell word then None else Some cell) }
{
    if cell.accepts(word) { None } else { Some(cell) }
}

// The first output whose VOUT_MODE isn't one that is taken.
fn bad_mode(outputs: &[OutputStart]) -> Option<ConfigFault>
    requires { length outputs.now ≤ 8 }
    ensures { result ≡ spec.bad_mode 0 outputs.now }
{
    for (output, start) in outputs.iter().enumerate() {
        if let Err(fault) = VoutMode::read(start.mode) {
            return Some(ConfigFault::BadMode(output as u8, fault));
        }
    }
    None
}

// Why the coefficients are no format, if some output needs them.
fn bad_coefficients(config: &Config) -> Option<NumFault>
    requires { config.now.count ≤ 8 }
    ensures { result ≡ spec.bad_coefficients config.now }
{
    if config.has_direct() {
        format_of(VoutMode::Direct, config.coefficients).err()
    } else {
        None
    }
}
