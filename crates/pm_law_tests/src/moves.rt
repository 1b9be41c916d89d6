//! What moves a setting or the store.

ghost use Rattle.std.specs.Prelude.{◌∷◌, IfOk, OnSome, reverse};
ghost use Rattle.pm_world.specs.Moves.{MovesByTheOpenJob};

use crate::further::run_and_step;
use pm_device::Config;
use pm_world::{Event, SetupFault, World, settings_move_by_the_open_job};

/// After one more step each setting has moved by the open job or by a restart, and the store by an open store.
pub fn what_a_step_moves(
    c: Config,
    passes: u8,
    events: &[Event],
    more: &Event,
) -> Result<Option<World>, SetupFault>
    ensures { IfOk result (λ found. OnSome found (MovesByTheOpenJob c passes (more.now ∷ reverse events.now))) }
{
    settings_move_by_the_open_job();
    run_and_step(c, passes, events, more)
}
