//! The stages of an open job.

ghost use Rattle.std.specs.Prelude.{◌≡◌, true};
ghost use Rattle.pm_frame.specs.Layout.{fits_layout};
ghost use Rattle.pm_host.specs.Summary.{stage_message};

use crate::command::Command;
use crate::host::Told;
use crate::messages::{cell_read, cell_write, command_message};
use crate::question::Question;
use pm_frame::Message;
use pm_table::Cell;

/// A stage of an open job: the frame that it sends, and how many passes or tries came before.
#[derive(Clone, Copy, Debug, PartialEq, Eq)]
pub enum Stage {
    /// An order sends its write, in this pass, counted from 0.
    Writes { cell: Cell, word: u16, pass: u8 },
    /// An order reads its cell back, in this pass.
    Reads { cell: Cell, word: u16, pass: u8 },
    /// A check or a learn asks this, after this many tries.
    Asks { question: Question, tries: u8 },
    /// A command is sent, after this many tries.
    Sends { command: Command, tries: u8 },
}

impl Stage {
    ghost use Rattle.pm_host.specs.Sound.{AcceptsWrittenWord};
    ghost use Rattle.pm_host.specs.Told.{is_awaited};

    /// The message whose frame is sent. A call of it would take 48 instructions of an order of a caller in C.
    #[inline(always)]
    pub fn message(&self) -> Message
        requires { AcceptsWrittenWord self.now }
        ensures message { result ≡ stage_message self.now }
        ensures fits { fits_layout result ≡ true }
    {
        match *self {
            Stage::Writes { cell, word, .. } => cell_write(cell, word),
            Stage::Reads { cell, .. } => cell_read(cell),
            Stage::Asks { question, .. } => question.message(),
            Stage::Sends { command, .. } => command_message(command),
        }
    }

    /// Whether what is heard is of the kind of its frame: `Finished` of a write, `Got` of a request.
    pub fn awaits(&self, told: &Told<'_>) -> bool
        ensures { result ≡ is_awaited self.now told.now }
    {
        match self {
            Stage::Writes { .. } | Stage::Sends { .. } => matches!(told, Told::Finished { .. }),
            Stage::Reads { .. } | Stage::Asks { .. } => matches!(told, Told::Got(_)),
        }
    }
}
