//! What the laws of a board say: of a pair of a host and a converter beside others.

ghost use Rattle.std.specs.Prelude.{◌≡◌, ◌<◌, ℕ, List};
ghost use Rattle.pm_device.specs.Effect.{kept_in};
ghost use Rattle.pm_world.specs.Confirmed.{ConfirmedIsHeld};
ghost use Rattle.pm_world.specs.Life.{now};
ghost use Rattle.pm_world.specs.Moves.{MovesByTheOpenJob};
ghost use Rattle.pm_world.specs.Neighbours.{Board, Happening, IsLivedOn, on_board, own};

use pm_device::Config;
use pm_world::{SetupFault, World, a_pair_on_a_board};

/// A pair on a board that lived through some events holds the settings that its own events leave, which only the open job
/// of its own host moves. What that host calls confirmed is held.
pub fn a_pair_beside_others(c: Config, passes: u8) -> Result<World, SetupFault>
    ensures kept { (board : Board) (events : List Happening) (pair : ℕ) → IsLivedOn board events → pair < board.count →
        kept_in (on_board board pair events).device
        ≡ kept_in (now (board.config pair) (board.passes pair) (own pair events)).device }
    ensures moves { (board : Board) (events : List Happening) (pair : ℕ) → IsLivedOn board events → pair < board.count →
        MovesByTheOpenJob (board.config pair) (board.passes pair) (own pair events) }
    ensures confirmed { (board : Board) (events : List Happening) (pair : ℕ) → IsLivedOn board events → pair < board.count →
        ConfirmedIsHeld (board.config pair) (board.passes pair) (own pair events)
        (now (board.config pair) (board.passes pair) (own pair events)) }
{
    a_pair_on_a_board();
    World::new(c, passes)
}
