//! What a write that is taken does.

ghost use Rattle.std.specs.Prelude.{◌≡◌, ◌<◌, ◌^◌, IfSome};
ghost use Rattle.pm_table.specs.Commands.{payload_length};
ghost use Rattle.pm_device.specs.Verdict as spec;

use pm_table::{Cell, Code, cell_of};

/// What a write that is taken does.
#[derive(Clone, Copy, Debug, PartialEq, Eq)]
pub(crate) enum Act {
    /// A cell gets a word.
    Put(Cell, u16),
    /// PAGE names another output.
    Select(u8),
    /// CLEAR_FAULTS of an output.
    ClearFaults(u8),
    /// The bits that are 1 in this byte are cleared in the STATUS_VOUT of an output.
    ClearVout(u8, u8),
    /// The bits that are 1 in this byte are cleared in STATUS_CML.
    ClearCml(u8),
    /// The outputs' words are copied to the store.
    Store,
    /// The outputs' words come back from the store.
    Restore,
}

impl Act {
    /// What the write of a code asks for, at an output and with the number that it carries; `None`
    /// for a code that this converter has no act for. The number of a code of one byte is a byte.
    #[tactic(auto, unfolding(pm_table::specs::Commands::line_of))]
    pub(crate) fn of_code(code: Code, output: u8, word: u16) -> Option<Act>
        requires { payload_length code.0 ≡ 1 → word < 2 ^ 8 }
        ensures value { result ≡ spec.act_in code.0 output word }
        ensures output { IfSome result (spec.ActsOn output) }
    {
        match code {
            Code::PAGE => Some(Act::Select(word as u8)),
            Code::CLEAR_FAULTS => Some(Act::ClearFaults(output)),
            Code::STATUS_VOUT => Some(Act::ClearVout(output, word as u8)),
            Code::STATUS_CML => Some(Act::ClearCml(word as u8)),
            Code::STORE_USER_ALL => Some(Act::Store),
            Code::RESTORE_USER_ALL => Some(Act::Restore),
            _ => cell_of(code, output).map(|cell| Act::Put(cell, word)),
        }
    }

    /// Whether the act asks for a page from this count on.
    pub(crate) fn selects_no_output(&self, count: u8) -> bool
        ensures { result ≡ spec.selects_no_output count self.now }
    {
        matches!(self, Act::Select(page) if *page >= count)
    }

    /// Whether the cell accepts the word that it would get; every other act is accepted.
    pub(crate) fn is_accepted(&self) -> bool
        ensures { result ≡ spec.is_act_accepted self.now }
    {
        match self {
            Act::Put(cell, word) => cell.accepts(*word),
            _ => true,
        }
    }
}
