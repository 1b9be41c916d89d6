//! What holds of events that a caller's own loop lets happen, as many as there may be: a world of this configuration lived
//! through them if nothing is against any of them.

ghost use Rattle.std.specs.Prelude.{◌≡◌, ◌<◌, ◌++◌, [], ◌∷◌, List, None, IfOk, OnSome, OnOk, IsOk, reverse};
ghost use Rattle.pm_device.specs.Start.{IsSound};
ghost use Rattle.pm_host.specs.Refusals.{IsSetup};
ghost use Rattle.pm_world.specs.declared.event.Event.{Event as Happening};
ghost use Rattle.pm_world.specs.Honest.{IsSpelled};
ghost use Rattle.pm_world.specs.Life.{now};
ghost use Rattle.pm_world.specs.Lived.{IsLived};
ghost use Rattle.pm_world.specs.Setup.{setup_of};
ghost use Rattle.pm_world.specs.State.{event_cause, event_limit};
ghost use Rattle.pm_world.specs.Uncertainty.{AreLegal};

use pm_device::{Config, Converter};
use pm_host::Host;
use pm_world::{
    Cause, Event, SetupFault, World, causes_decide, events_are_lived, possible_words_are_exact,
    spell,
};

/// A caller's own loop begins with no event, and goes on with one that nothing is against.
pub fn a_loop_that_begins(c: Config, passes: u8) -> Result<World, SetupFault>
    ensures none { OnOk result (IsLived c passes []) }
    ensures more { (events : List Happening) (event : Happening) → IsLived c passes events →
        event_cause (now c passes events) event ≡ None → IsLived c passes (event ∷ events) }
{
    events_are_lived();
    World::new(c, passes)
}

/// A caller whose events each have no cause against them need not say that they are legal one after another.
pub fn a_life_that_nothing_is_against(c: Config, passes: u8) -> Result<World, SetupFault>
    ensures { OnOk result ((events : List Happening) →
        ((later before : List Happening) (event : Happening) → events ≡ later ++ event ∷ before →
        event_cause (now c passes before) event ≡ None) → AreLegal c passes events) }
{
    causes_decide();
    World::new(c, passes)
}

/// The events that a run takes are legal.
pub fn a_run_that_is_legal(
    c: Config,
    passes: u8,
    events: &[Event],
) -> Result<Option<World>, SetupFault>
    ensures { IfOk result (λ found. OnSome found (AreLegal c passes (reverse events.now))) }
{
    possible_words_are_exact();
    let (world, stop) = World::run(c, passes, events)?;
    if stop.is_some() || events.len() >= 1_000_000 {
        return Ok(None);
    }
    Ok(Some(world))
}

/// A world that isn't full takes an event that nothing is against.
pub fn an_event_that_nothing_is_against(world: &mut World, event: &Event) -> Result<(), Cause>
    ensures { world.old.taken < event_limit → event_cause world.old event.now ≡ None → IsOk result }
{
    causes_decide();
    match world.step(event) {
        Ok(()) => Ok(()),
        Err(cause) => Err(cause),
    }
}

/// A caller that makes both ends itself has what the laws ask of the configuration, too.
pub fn both_ends(c: Config, passes: u8) -> Result<(Converter, Host), SetupFault>
    ensures { OnOk result (IsSound c × IsSetup (setup_of c passes) × IsSpelled c) }
{
    // law: a configuration's numbers fit into bytes
    spell(c);
    let device = match Converter::new(c) {
        Ok(device) => device,
        Err(fault) => return Err(SetupFault::Device(fault)),
    };
    match Host::new(c.addr, c.count, passes) {
        Ok(host) => Ok((device, host)),
        Err(fault) => Err(SetupFault::Host(fault)),
    }
}
