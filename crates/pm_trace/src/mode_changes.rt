//! Which packets may change the VOUT_MODE of outputs.
ghost use Rattle.std.specs.Prelude.{◌≡◌};
ghost use Rattle.pm_trace.specs.Modes.{change_of, page_change as spec_page_change};

use crate::Touch;

/// The modes of an address that a packet may change.
#[derive(Clone, Copy, Debug, PartialEq, Eq)]
pub enum ModeChange {
    /// None of them.
    OfNone,
    /// The one of this output.
    OfOutput(u8),
    /// All of them.
    OfAll,
    /// All of them, if one was written before: the part restarted.
    OfRestart,
}

/// The modes that a packet may change that touches so, if it is clear or not: of one output if a clear packet names it, and
/// otherwise all. `page` is the one that plain packets reach, if that is sure.
pub fn mode_change(is_clear: bool, page: Option<u8>, touch: Touch) -> ModeChange
    ensures { result ≡ change_of is_clear page touch }
{
    match touch {
        Touch::WritesMode(Some(named)) => page_change(is_clear, Some(named)),
        Touch::WritesMode(None) => page_change(is_clear, page),
        Touch::Restores => ModeChange::OfAll,
        Touch::WritesPage | Touch::AsksPage | Touch::Nothing => ModeChange::OfNone,
    }
}

// The modes that a write of VOUT_MODE changes to a page, if that is known.
fn page_change(is_clear: bool, page: Option<u8>) -> ModeChange
    ensures { result ≡ spec_page_change is_clear page }
{
    match page {
        Some(page) if is_clear && page != 0xFF => ModeChange::OfOutput(page),
        _ => ModeChange::OfAll,
    }
}
