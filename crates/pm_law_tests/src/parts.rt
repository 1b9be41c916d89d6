//! What the law of a status register says that is read over the bus.

ghost use Rattle.std.specs.Prelude.{◌≡◌, ◌<◌};
ghost use Rattle.pm_table.specs.Codes as command;
ghost use Rattle.pm_device.specs.Reply.{register_word};

use pm_device::{Converter, registers_say_what_calls_say};

/// STATUS_WORD that is read over the bus is what the call of its name answers.
pub fn a_status_word(device: &Converter, output: u8) -> u16
    requires { output < device.now.config.count }
    ensures { register_word device.now output command.status_word ≡ result }
{
    registers_say_what_calls_say();
    device.status_word(output)
}
