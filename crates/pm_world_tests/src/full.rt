//! How many events a world takes, written out.

ghost use Rattle.std.specs.Prelude.{◌≡◌, ◌<◌, ◌≤◌, Some};
ghost use Rattle.pm_world.specs.State.{State, cause_of, event_cause};
ghost use Rattle.pm_world.specs.declared.cause.Cause.TheVariants.{Full};
ghost use Rattle.pm_world.specs.declared.event.Event.{Event as Happening};

/// A world takes 281,474,976,710,656 events: from then on each is refused as that, whatever else is
/// against it, and before it none is. No list of events is so long, so this row is one of the
/// definition, and proved.
#[tactic(auto, unfolding(pm_world::specs::State::cause_of))]
pub fn a_full_world_takes_no_event()
    ensures full { (s : State) (event : Happening) →
        281474976710656 ≤ s.taken → cause_of s event ≡ Some Full }
    ensures room { (s : State) (event : Happening) →
        s.taken < 281474976710656 → cause_of s event ≡ event_cause s event }
{}
