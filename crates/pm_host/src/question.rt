//! What a job asks the device by a request.

ghost use Rattle.std.specs.Prelude.{◌≡◌, true};
ghost use Rattle.pm_frame.specs.Layout.{answer_length, fits_layout, is_read_message};
ghost use Rattle.pm_host.specs.Question.{is_question, question_message, IsQuestion};

use crate::messages::{cell_read, coefficients_read, mode_read};
use pm_frame::Message;
use pm_table::Cell;

/// What a job asks the device by a request that it repeats until a good answer comes.
#[derive(Clone, Copy, Debug, PartialEq, Eq)]
pub enum Question {
    /// The word of a cell.
    Word(Cell),
    /// VOUT_MODE of an output.
    Mode(u8),
    /// COEFFICIENTS, for the voltages of an output.
    Coefficients(u8),
}

impl Question {
    /// The request.
    pub(crate) fn message(self) -> Message
        ensures message { result ≡ question_message self }
        ensures fits { fits_layout result ≡ true }
    {
        match self {
            Question::Word(cell) => cell_read(cell),
            Question::Mode(output) => mode_read(output),
            Question::Coefficients(_) => coefficients_read(),
        }
    }

    /// Whether a device with this many outputs has what is asked for.
    pub(crate) fn is_there(self, outputs: u8) -> bool
        ensures test { result ≡ is_question outputs self }
        ensures there { result ≡ true → IsQuestion outputs self }
    {
        match self {
            Question::Word(cell) => cell.is_there(outputs),
            Question::Mode(output) | Question::Coefficients(output) => output < outputs,
        }
    }
}
