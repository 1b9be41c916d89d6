//! The messages that a host sends.

ghost use Rattle.std.specs.Prelude.{◌≡◌, true};
ghost use Rattle.pm_table.specs.Cell.{cell_accepts};
ghost use Rattle.pm_frame.specs.Layout.{answer_length, fits_layout};
ghost use Rattle.pm_host.specs.Messages as messages;

use crate::command::Command;
use pm_frame::{Message, Payload};
use pm_table::{Cell, Code};

/// The side of the coefficients for values written.
const VALUES_WRITTEN: u8 = 0x00;

/// The write of a word that the cell accepts.
#[tactic(auto, unfolding(pm_table::specs::Commands::line_of))]
pub(crate) fn cell_write(cell: Cell, word: u16) -> Message
    requires { cell_accepts cell word ≡ true }
    ensures message { result ≡ messages.cell_write cell word }
    ensures fits { fits_layout result ≡ true }
{
    let code = cell.code().0;
    let [low, _] = word.to_le_bytes();
    match cell {
        Cell::Out(page, register) => Message::PagePlusWrite {
            page,
            code,
            payload: if register.is_voltage() {
                Payload::Word(word)
            } else {
                Payload::Byte(low)
            },
        },
        Cell::Protect => Message::WriteByte { code, byte: low },
    }
}

/// The read of a cell.
#[tactic(auto, unfolding(pm_table::specs::Commands::line_of))]
pub(crate) fn cell_read(cell: Cell) -> Message
    ensures message { result ≡ messages.cell_read cell }
    ensures fits { fits_layout result ≡ true }
{
    let code = cell.code().0;
    match cell {
        Cell::Out(page, _) => Message::PagePlusRead { page, code },
        Cell::Protect => Message::ReadCommand { code },
    }
}

/// The read of an output's VOUT_MODE, which has one byte.
#[tactic(auto, unfolding(pm_table::specs::Commands::line_of))]
pub(crate) fn mode_read(page: u8) -> Message
    ensures message { result ≡ messages.mode_read page }
    ensures fits { fits_layout result ≡ true }
    ensures single { answer_length result ≡ 1 }
{
    Message::PagePlusRead {
        page,
        code: Code::VOUT_MODE.0,
    }
}

/// The read of the coefficients of VOUT_COMMAND, which all voltages share.
#[tactic(auto, unfolding(pm_table::specs::Commands::line_of))]
pub(crate) fn coefficients_read() -> Message
    ensures message { result ≡ messages.coefficients_read }
    ensures fits { fits_layout result ≡ true }
{
    Message::ReadCoefficients {
        code: Code::VOUT_COMMAND.0,
        side: VALUES_WRITTEN,
    }
}

/// What a command sends.
#[tactic(auto, unfolding(pm_table::specs::Commands::line_of))]
pub(crate) fn command_message(command: Command) -> Message
    ensures message { result ≡ messages.command_message command }
    ensures fits { fits_layout result ≡ true }
{
    let code = command.code().0;
    match command.output() {
        Some(page) => Message::PagePlusWrite {
            page,
            code,
            payload: Payload::Empty,
        },
        None => Message::SendByte { code },
    }
}
