//! An order that nothing disturbs goes through: a run and a step say which one it was. Once its write was delivered, what is left
//! of it is taken.

ghost use Rattle.std.specs.Prelude.{◌≡◌, ◌∷◌, ◌+◌, ◌≤◌, ℕ, Bool, List, Some, IfOk, IfSome, OnOk, OnSome, length, reverse};
ghost use Rattle.pm_table.specs.declared.cell.Cell.{Cell as AnyCell};
ghost use Rattle.pm_device.specs.Start.{IsSound};
ghost use Rattle.pm_host.specs.Refusals.{IsSetup};
ghost use Rattle.pm_host.specs.Transcript.{Order};
ghost use Rattle.pm_world.specs.declared.event.Arrival.{Arrival};
ghost use Rattle.pm_world.specs.declared.event.Event.{Event as Happening};
ghost use Rattle.pm_law_tests.specs.ByName.{GoesThrough, IsAhead};
ghost use Rattle.pm_world.specs.Honest.{honest, sent_by};
ghost use Rattle.pm_world.specs.Life.{AreTaken, now};
ghost use Rattle.pm_world.specs.Lived.{IsLived};
ghost use Rattle.pm_world.specs.Setup.{setup_of};
ghost use Rattle.pm_world.specs.State.{asked, event_limit};
ghost use Rattle.pm_world.specs.Way.{HasGone, way_of};

use crate::laws::laws_by_name;
use pm_device::Config;
use pm_table::Cell;
use pm_world::{
    Event, SetupFault, Way, World, events_are_lived, lives_are_followed, run_way, ways_are_followed,
};

/// An order that nothing disturbed, and that the events and one more end with, went through; the result says which
/// order.
pub fn an_order_that_went_through_after_a_step(
    c: Config,
    passes: u8,
    events: &[Event],
    more: &Event,
) -> Result<Option<(Cell, u16)>, SetupFault>
    ensures { IfOk result (λ found. IfSome found (λ order.
        HasGone c passes order.0 order.1 (more.now ∷ reverse events.now))) }
{
    ways_are_followed();
    match way_and_step(c, passes, events, more)? {
        Some(Way::Through(cell, word)) => Ok(Some((cell, word))),
        _ => Ok(None),
    }
}

// How far the last order has come after these events and one more.
fn way_and_step(
    c: Config,
    passes: u8,
    events: &[Event],
    more: &Event,
) -> Result<Option<Way>, SetupFault>
    ensures way { IfOk result (λ found. IfSome found (λ way. way ≡ way_of c passes (more.now ∷ reverse events.now))) }
    ensures lived { IfOk result (λ found. OnSome found (IsLived c passes (more.now ∷ reverse events.now))) }
{
    lives_are_followed();
    events_are_lived();
    ways_are_followed();
    match run_way(c, passes, events)? {
        (mut world, None, way) => {
            if world.step(more).is_err() {
                return Ok(None);
            }
            Ok(Some(way.after(more, &world)))
        }
        _ => Ok(None),
    }
}

/// An order on its way at the end of the events, whose write was heard whole, goes through by the end of that write,
/// acknowledged or not, and an undisturbed read; both are taken.
pub fn an_order_that_is_ahead(
    c: Config,
    passes: u8,
    events: &[Event],
) -> Result<Option<(Cell, u16)>, SetupFault>
    ensures { IfOk result (λ found. IfSome found (λ order. (acked : Bool) →
        GoesThrough c passes order.0 order.1 acked (reverse events.now))) }
{
    // law: an order on its way goes through by an undisturbed read (`through` of the laws by name)
    laws_by_name();
    if events.len() >= 1_000_000 {
        return Ok(None);
    }
    match run_way(c, passes, events)? {
        (_, None, Way::Sent(cell, word, true)) => Ok(Some((cell, word))),
        _ => Ok(None),
    }
}

/// The end of an order's write and an undisturbed read are taken, if the last events are the order and deliveries of
/// its write, whatever was heard of them.
pub fn an_order_that_is_taken(
    c: Config,
    passes: u8,
    events: &[Event],
) -> Result<Option<World>, SetupFault>
    ensures { IfOk result (λ found. OnSome found
        ((before : List Happening) (order : Happening) (cell : AnyCell) (word : ℕ) (arrivals : List Arrival) (acked : Bool) →
        reverse events.now ≡ sent_by order arrivals before → asked (now c passes before) order ≡ Some (Order cell word) →
        IsAhead c passes order cell word arrivals acked before)) }
{
    // law: the end of an order's write and its read are taken (`ahead` of the laws by name)
    laws_by_name();
    match ran(c, passes, events)? {
        Some(world) => Ok(Some(world)),
        None => Ok(None),
    }
}

/// What `IsAhead` says, opened: the end of the order's write and an undisturbed read are taken.
#[tactic(auto, unfolding(crate::specs::ByName::IsAhead))]
pub fn events_that_are_taken(
    c: Config,
    passes: u8,
    events: &[Event],
) -> Result<Option<World>, SetupFault>
    ensures { IfOk result (λ found. OnSome found
        ((before : List Happening) (order : Happening) (cell : AnyCell) (word : ℕ) (arrivals : List Arrival) (acked : Bool) →
        reverse events.now ≡ sent_by order arrivals before → asked (now c passes before) order ≡ Some (Order cell word) →
        AreTaken c passes (honest order arrivals acked before))) }
{
    an_order_that_is_taken(c, passes, events)
}

// The events, however they are written, were taken, and there is room for two more.
fn ran(c: Config, passes: u8, events: &[Event]) -> Result<Option<World>, SetupFault>
    ensures all { IfOk result (λ found. OnSome found ((lived : List Happening) →
        reverse events.now ≡ lived → AreTaken c passes lived)) }
    ensures room { IfOk result (λ found. OnSome found ((lived : List Happening) →
        reverse events.now ≡ lived → length lived + 2 ≤ event_limit)) }
    ensures sound { OnOk result (IsSound c × IsSetup (setup_of c passes)) }
{
    let (world, stop) = World::run(c, passes, events)?;
    if stop.is_some() || events.len() >= 1_000_000 {
        return Ok(None);
    }
    Ok(Some(world))
}
