//! How far an order has come with nothing to disturb it, decided while events happen.

ghost use Rattle.std.specs.Prelude.{◌≡◌, ◌≤◌, length, IfOk, OnOk};
ghost use Rattle.std.specs.Result.{result_err};
ghost use Rattle.pm_device.specs.Start.{IsSound};
ghost use Rattle.pm_host.specs.Refusals.{IsSetup};
ghost use Rattle.pm_world.specs.Bytes.{CarryBytes, StartsShort};
ghost use Rattle.pm_world.specs.Honest.{IsSpelled, is_whole as spec_is_whole};
ghost use Rattle.pm_world.specs.Life.{AreTaken, StopsAt, now, taken_events};
ghost use Rattle.pm_world.specs.Lived.{IsLived};
ghost use Rattle.pm_world.specs.Setup.{world_fault, setup_of};
ghost use Rattle.pm_world.specs.Way.{begun as spec_begun, delivered_on, exchanged_on, finished_on, hears_whole as spec_hears_whole, way_after, way_of};

use crate::cause::Stop;
use crate::event::{Arrival, Back, Event};
use crate::laws::{events_are_lived, lives_are_followed, ways_are_followed};
use crate::legal::{heard_bytes, heard_ending};
use crate::watch::Watch;
use crate::world::World;
use pm_device::{Config, Ending};
use pm_host::{Host, Stage, Turn};
use pm_setup::SetupFault;
use pm_table::{Cell, is_allowed};

/// How far the last order of a list of events has come in its first pass, with nothing to disturb it. What a way is
/// worth says [`ways_are_followed`].
#[derive(Clone, Copy, Debug, PartialEq, Eq)]
pub enum Way {
    /// No order is on its way: another job was asked for, WRITE_PROTECT doesn't allow the order's code, or another
    /// event came in between.
    Off,
    /// An order of this word for this cell was accepted, and nothing came since then but deliveries of its write, of
    /// which one was heard whole, or none.
    Sent(Cell, u16, bool),
    /// An order of this word for this cell was heard whole, and its write is over.
    Written(Cell, u16),
    /// An order of this word for this cell was heard whole and read back, by an exchange of `Whole` and `Whole`.
    Through(Cell, u16),
}

impl Way {
    /// The way after `event`, which `world` has just taken.
    pub fn after(self, event: &Event, world: &World) -> Way
        ensures { result ≡ way_after world.now event.now self }
    {
        if event.job().is_some() {
            return begun(world);
        }
        match event {
            Event::Deliver(arrival) => self.delivered(hears_whole(world.host(), arrival)),
            Event::Finish(_) => self.finished(),
            Event::Exchange(arrival, back) => self.exchanged(arrival, back),
            _ => Way::Off,
        }
    }

    // After a delivery, which was heard whole or not.
    fn delivered(self, heard: bool) -> Way
        ensures { result ≡ delivered_on heard self }
    {
        match self {
            Way::Sent(cell, word, whole) => Way::Sent(cell, word, heard || whole),
            Way::Off | Way::Written(..) | Way::Through(..) => Way::Off,
        }
    }

    // After the end of a write.
    fn finished(self) -> Way
        ensures { result ≡ finished_on self }
    {
        match self {
            Way::Sent(cell, word, true) => Way::Written(cell, word),
            _ => Way::Off,
        }
    }

    // After an exchange.
    fn exchanged(self, arrival: &Arrival, back: &Back) -> Way
        ensures { result ≡ exchanged_on arrival.now back.now self }
    {
        match (arrival, back, self) {
            (Arrival::Whole, Back::Whole, Way::Written(cell, word)) => Way::Through(cell, word),
            _ => Way::Off,
        }
    }
}

// After a job was accepted.
fn begun(world: &World) -> Way
    ensures { result ≡ spec_begun world.now world.now.host.stage }
{
    match world.host().stage() {
        Some(Stage::Writes { cell, word, .. }) => {
            if is_allowed(world.device().word(Cell::Protect), cell.code()) {
                Way::Sent(cell, word, false)
            } else {
                Way::Off
            }
        }
        _ => Way::Off,
    }
}

// Whether the write that the host sends is heard whole as it arrives.
fn hears_whole(host: &Host, arrival: &Arrival) -> bool
    ensures { result ≡ spec_hears_whole host.now arrival.now }
{
    match host.turn() {
        Turn::Write(frame) => is_whole(frame.as_slice(), arrival),
        Turn::Idle | Turn::Request { .. } => false,
    }
}

// Whether a write's frame is heard whole: its bytes, ended by a stop.
fn is_whole(frame: &[u8], arrival: &Arrival) -> bool
    ensures { result ≡ spec_is_whole frame.now arrival.now }
{
    heard_bytes(frame, arrival) == frame && heard_ending(Ending::Stop, arrival) == Ending::Stop
}

/// Makes a new world and lets the events happen, as [`World::run`] does, and says besides how far the last order came
/// with nothing to disturb it. The order went through if that is [`Way::Through`], by [`ways_are_followed`].
pub fn run_way(
    c: Config,
    passes: u8,
    events: &[Event],
) -> Result<(World, Option<Stop>, Way), SetupFault>
    ensures fault { result_err result ≡ world_fault c passes }
    ensures now { IfOk result (λ run. run.0 ≡ now c passes (taken_events events.now run.1)) }
    ensures all { IfOk result (λ run. AreTaken c passes (taken_events events.now run.1)) }
    ensures lived { IfOk result (λ run. IsLived c passes (taken_events events.now run.1)) }
    ensures stop { IfOk result (λ run. StopsAt c passes events.now run.1) }
    ensures sound { OnOk result (IsSound c × IsSetup (setup_of c passes) × IsSpelled c) }
    ensures short { OnOk result (StartsShort c) }
    ensures bytes { IfOk result (λ run. CarryBytes (taken_events events.now run.1)) }
    ensures way { IfOk result (λ run. run.2 ≡ way_of c passes (taken_events events.now run.1)) }
    ensures room { IfOk result (λ run.
        (now c passes (taken_events events.now run.1)).taken ≤ length events.now) }
{
    lives_are_followed();
    events_are_lived();
    ways_are_followed();
    let mut world = World::new(c, passes)?;
    let (stop, way) = world.run_up(events, Way::Off);
    Ok((world, stop, way))
}

impl Watch for Way {
    ghost follows = { λ way event world. way_after world event way };

    fn follow(self, event: &Event, world: &World) -> Way {
        self.after(event, world)
    }
}
