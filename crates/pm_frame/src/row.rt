//! A code with what the command table says of it.

ghost use Rattle.std.specs.Prelude.{◌≡◌, ◌≤◌};
ghost use Rattle.pm_table.specs.Commands.{attributes_of, is_known, payload_length};
ghost use Rattle.pm_frame.specs.Fault.{codes_of};
ghost use Rattle.pm_frame.specs.Layout as layout;

use crate::paged_read::is_carried;
use crate::rules::Direction;
use pm_table::{Attributes, Code};

/// A code with what the command table says of it, which is looked up once for each packet.
#[derive(Clone, Copy)]
pub(crate) struct Row {
    code: Code,
    attributes: Option<Attributes>,
    ghost looked_up: { attributes ≡ attributes_of code.0 },
    ghost short: { payload_length code.0 ≤ 2 },
}

impl Row {
    /// The row of this code.
    pub(crate) fn of(code: Code) -> Row
        ensures { result.code ≡ code }
    {
        Row {
            code,
            attributes: code.attributes(),
        }
    }

    /// Whether the code stands in the command table.
    pub(crate) fn is_known(self) -> bool
        ensures { result ≡ is_known self.code.0 }
    {
        self.attributes.is_some()
    }

    /// Whether the code goes this way: it's written, or read.
    pub(crate) fn goes(self, direction: Direction) -> bool
        ensures { result ≡ codes_of direction self.code.0 }
    {
        match (self.attributes, direction) {
            (Some(attributes), Direction::Write) => attributes.protection.is_ever_written(),
            (Some(attributes), Direction::Read) => attributes.reads,
            (None, _) => false,
        }
    }

    /// The bytes of the code's payload, 0 to 2.
    pub(crate) fn payload_length(self) -> usize
        ensures length { result ≡ payload_length self.code.0 }
        ensures short { result ≤ 2 }
    {
        match self.attributes {
            Some(attributes) => usize::from(attributes.length),
            None => 0,
        }
    }

    /// Whether PAGE_PLUS carries the code.
    pub(crate) fn is_carried(self) -> bool
        ensures { result ≡ layout.is_carried self.code.0 }
    {
        is_carried(self.code.0)
    }

    /// Whether a plain packet writes the code.
    pub(crate) fn is_plain_write(self) -> bool
        ensures { result ≡ layout.is_plain_write self.code.0 }
    {
        self.goes(Direction::Write) && self.code != Code::PAGE_PLUS_WRITE
    }

    /// Whether a plain packet reads the code.
    pub(crate) fn is_plain_read(self) -> bool
        ensures { result ≡ layout.is_plain_read self.code.0 }
    {
        self.goes(Direction::Read)
            && !matches!(self.code, Code::PAGE_PLUS_READ | Code::COEFFICIENTS)
    }
}
