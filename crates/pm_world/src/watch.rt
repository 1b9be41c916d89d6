//! What is found of events while they happen, besides the world that they make.

ghost use Rattle.std.specs.Prelude.{◌≡◌};
ghost use Rattle.pm_world.specs.State.{State};
ghost use Rattle.pm_world.specs.declared.event.Event.{Event as Happening};

use crate::event::Event;
use crate::world::World;

/// What is found of events while they happen, by the world after each.
pub(crate) trait Watch: Copy {
    /// What is found with one more event, by the world then.
    ghost follows: { Self → Happening → State → Self };

    /// What is found with one more event, by the world then: `follows`.
    fn follow(self, event: &Event, world: &World) -> Self
        ensures { result ≡ follows self event.now world.now };
}

/// Nothing is looked for.
#[derive(Clone, Copy)]
pub(crate) struct Unwatched;

impl Watch for Unwatched {
    ghost follows = { λ watch event world. watch };

    fn follow(self, _event: &Event, _world: &World) -> Unwatched {
        self
    }
}
