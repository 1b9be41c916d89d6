//! The words of an output's registers, as a converter holds them, have 16 bits.

ghost use Rattle.std.specs.Prelude.{◌<◌, ◌^◌};
ghost use Rattle.pm_table.specs.declared.cell.Cell.TheVariants.{Out};
ghost use Rattle.pm_model.specs.Settings.{word_at};
ghost use Rattle.pm_world.specs.Bands.{AreShort};

use pm_device::Converter;
use pm_table::{Cell, Reg};

/// The words of an output's registers have 16 bits. It does nothing when it runs. Its contract gives a caller
/// what [`bands_are_held`](crate::bands_are_held) asks of these words.
pub fn words_are_short(device: &Converter, output: u8)
    requires { output < device.now.config.count }
    ensures { AreShort device.now.words output }
{
    for register in &Reg::ALL {
        word_is_short(device, output, *register);
    }
}

// The word of one register of an output has 16 bits.
fn word_is_short(device: &Converter, output: u8, register: Reg)
    requires { output < device.now.config.count }
    ensures { word_at device.now.words (Out output register) < 2 ^ 16 }
{
    let _word = device.word(Cell::Out(output, register));
}
