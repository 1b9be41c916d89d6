//! Whether a list of events leaves WRITE_PROTECT open, decided while they happen.

ghost use Rattle.std.specs.Prelude.{◌≡◌, ◌↔◌, IfOk, IsTrue, OnOk};
ghost use Rattle.std.specs.List.{list_any};
ghost use Rattle.std.specs.Result.{result_err};
ghost use Rattle.pm_table.specs.declared.cell.Cell.TheVariants as cell;
ghost use Rattle.pm_device.specs.Start.{IsSound};
ghost use Rattle.pm_host.specs.Marks.{marks};
ghost use Rattle.pm_host.specs.Refusals.{IsSetup};
ghost use Rattle.pm_host.specs.Summary.{possible_at};
ghost use Rattle.pm_world.specs.Bytes.{CarryBytes, StartsShort};
ghost use Rattle.pm_world.specs.Honest.{IsSpelled};
ghost use Rattle.pm_world.specs.Life.{AreTaken, StopsAt, life, now, taken_events};
ghost use Rattle.pm_world.specs.Lived.{IsLived};
ghost use Rattle.pm_world.specs.OpenLists.{is_other, closes as spec_closes, lists_other as spec_lists_other, follows_open, stays_open as spec_stays_open};
ghost use Rattle.pm_world.specs.Possible.{restarts_host as spec_restarts_host};
ghost use Rattle.pm_world.specs.Setup.{world_fault, setup_of};
ghost use Rattle.pm_world.specs.Uncertainty.{AreOpen, since_restart};

use crate::cause::Stop;
use crate::event::Event;
use crate::laws::{events_are_lived, lives_are_followed, open_lists_are_followed};
use crate::watch::Watch;
use crate::world::World;
use pm_device::Config;
use pm_host::Possible;
use pm_setup::SetupFault;
use pm_table::Cell;

/// Makes a new world and lets the events happen, as [`World::run`] does, and says besides whether what the host heard
/// since it last started left WRITE_PROTECT open. It is open if no other word than 00h was ordered for it or read
/// from it, and no restore was ordered. [`possible_words_are_exact`](crate::possible_words_are_exact) asks that.
pub fn run_open(
    c: Config,
    passes: u8,
    events: &[Event],
) -> Result<(World, Option<Stop>, bool), SetupFault>
    ensures fault { result_err result ≡ world_fault c passes }
    ensures now { IfOk result (λ run. run.0 ≡ now c passes (taken_events events.now run.1)) }
    ensures all { IfOk result (λ run. AreTaken c passes (taken_events events.now run.1)) }
    ensures lived { IfOk result (λ run. IsLived c passes (taken_events events.now run.1)) }
    ensures stop { IfOk result (λ run. StopsAt c passes events.now run.1) }
    ensures sound { OnOk result (IsSound c × IsSetup (setup_of c passes) × IsSpelled c) }
    ensures short { OnOk result (StartsShort c) }
    ensures bytes { IfOk result (λ run. CarryBytes (taken_events events.now run.1)) }
    ensures decides { IfOk result (λ run. IsTrue run.2 ↔ AreOpen (marks (setup_of c passes)
        (since_restart (life c passes (taken_events events.now run.1)).entries))) }
{
    lives_are_followed();
    events_are_lived();
    open_lists_are_followed();
    let mut world = World::new(c, passes)?;
    let (stop, found) = world.run_up(events, Openness { left: true });
    Ok((world, stop, found.left))
}

// Whether WRITE_PROTECT is left open so far.
#[derive(Clone, Copy)]
struct Openness {
    left: bool,
}

impl Watch for Openness {
    ghost follows = { follows_open };

    fn follow(self, event: &Event, world: &World) -> Openness {
        Openness {
            left: stays_open(world, event, self.left),
        }
    }
}

// Whether it is left open after this event, by the world then.
fn stays_open(world: &World, event: &Event, before: bool) -> bool
    ensures { result ≡ spec_stays_open before event.now (possible_at world.now.host cell.Protect) }
{
    let possible = world.host().possible(Cell::Protect);
    restarts_host(event) || before && !(closes(event) || lists_other(&possible))
}

// The event is a restart of the host.
fn restarts_host(event: &Event) -> bool
    ensures { result ≡ spec_restarts_host event.now }
{
    match event {
        Event::RestartHost => true,
        _ => false,
    }
}

// The event asks for another word of WRITE_PROTECT, or for a restore.
fn closes(event: &Event) -> bool
    ensures { result ≡ spec_closes event.now }
{
    match event {
        Event::Order(Cell::Protect, word) => *word != 0,
        Event::Restore => true,
        _ => false,
    }
}

// A word other than 00h is listed.
fn lists_other(possible: &Possible) -> bool
    ensures { result ≡ spec_lists_other possible.now }
{
    match possible {
        Possible::Any => false,
        Possible::Words(words) => has_other(words.as_slice()),
    }
}

// One of the words isn't 00h.
fn has_other(words: &[u16]) -> bool
    ensures { result ≡ list_any is_other words.now }
{
    words.iter().any(|word| *word != 0)
}
