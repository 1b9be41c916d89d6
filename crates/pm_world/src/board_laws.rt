//! The laws of a bus with several parts on it, and of answers that nobody gave or that come late: each is the contract of a
//! function that does nothing when it runs. A board has hosts and converters in pairs. The premises are that no two
//! converters have one address, and that no converter answers at a second one. A multiplexer that the kernel drives is part
//! of the adapter.

ghost use Rattle.pm_world.specs.Neighbours.{NeighboursAreApart, PairsOnABoard};
ghost use Rattle.pm_world.specs.Ones.{OnesAreNoAnswer};
ghost use Rattle.pm_world.specs.SharedCodes.{ReadsThatShareTheirCode};

use crate::laws::{
    confirmed_settings_are_held, events_are_lived, lives_are_followed,
    settings_move_by_the_open_job,
};
use pm_device::{frames_for_others_are_silent, requests_latch_at_most};
use pm_frame::betrayal_is_refused;
use pm_table::registers_are_in_the_table;

/// A pair on a board holds what it would hold without neighbours. Its settings, its store and PAGE, what its host
/// knows, and how its last job ended are those of its own events (`kept`, `host`, `end`), which it could have lived
/// through without neighbours (`lived`). Only latched bits of STATUS_CML differ (`alone`). Each converter hears what
/// is on the wire for the others, each in its own way. Another host's frame passes by it however it legally arrives,
/// even if damage turns one address into another (`frames`). What follows another's read address passes by it, too
/// (`answers`). A request whose address was damaged may be answered by another converter. What comes back is then
/// given by its bytes, which are legal if the packet error code betrays them over the host's own request.
pub fn neighbours_are_apart()
    ensures { NeighboursAreApart }
{
    registers_are_in_the_table();
    frames_for_others_are_silent();
    requests_latch_at_most();
    betrayal_is_refused();
    lives_are_followed();
    events_are_lived();
}

/// A pair's settings move only by the open job of its own host, beside its neighbours too. What that host calls
/// confirmed is what its converter holds.
pub fn a_pair_on_a_board()
    ensures { PairsOnABoard }
{
    neighbours_are_apart();
    settings_move_by_the_open_job();
    confirmed_settings_are_held();
}

/// An answer of nothing but ones, as it comes if no part pulls the data line low, is no answer for a cell of an output,
/// for VOUT_MODE or for COEFFICIENTS. It is an answer for WRITE_PROTECT only at the address 4Ah, if two bytes FFh came;
/// the cell doesn't take its word FFh.
pub fn ones_are_no_answer()
    ensures { OnesAreNoAnswer }
{}

/// Which of a host's requests to one converter share their packet error code (PEC) up to the read address, from which on
/// the PEC of an answer depends only on the answer. Two different reads of outputs share it in two cases only. One is
/// VOUT_COMMAND of an output and VOUT_MARGIN_LOW of its neighbour (0 and 1, 2 and 3, 4 and 5, 6 and 7). The other is
/// VOUT_MARGIN_HIGH of an output and VOUT_MIN of the one two further on or back (0 and 2, 1 and 3, 4 and 6, 5 and 7).
/// VOUT_MODE and OPERATION share it with no other read of an output. COEFFICIENTS shares it with no read of an output.
/// WRITE_PROTECT may share it at some addresses, but its answer has fewer bytes than any other. The law holds of any
/// address, and of pages below 8.
pub fn reads_that_share_their_code()
    ensures { ReadsThatShareTheirCode }
{}
