//! The band that the host gives for an output is exact if the possible words are.

ghost use Rattle.std.specs.Prelude.{◌≡◌, ◌<◌, ℕ, Some, false, IfOk, OnSome, reverse};
ghost use Rattle.std.specs.List.{list_any};
ghost use Rattle.pm_host.specs.Marks.{marks};
ghost use Rattle.pm_limits.specs.declared.band.Band.{Band};
ghost use Rattle.pm_limits.specs.declared.part_registers.PartRegisters.{PartRegisters};
ghost use Rattle.pm_limits.specs.declared.ends.Side.{Side};
ghost use Rattle.pm_limits.specs.Band.{band_at, side_end};
ghost use Rattle.pm_world.specs.Bands.{MissingUntold, end_choices};
ghost use Rattle.pm_law_tests.specs.ByName.{IsReached};
ghost use Rattle.pm_world.specs.Confirmed.{restarts_converter};
ghost use Rattle.pm_world.specs.Life.{life, now};
ghost use Rattle.pm_world.specs.Limited.{commands};
ghost use Rattle.pm_world.specs.Setup.{setup_of};
ghost use Rattle.pm_world.specs.Uncertainty.{Leaves, due_before, since_restart, witness_events, witness_start};

use crate::laws::laws_by_name;
use pm_device::Config;
use pm_world::{Event, SetupFault, World, lists_say_enough, run_open};

/// Each output commands an end of its band in a named life whose host hears just what this one heard. The events are
/// taken by a run and leave WRITE_PROTECT open, as it says; the call asks that the converter doesn't restart in them.
pub fn a_band_of_an_open_list(
    c: Config,
    passes: u8,
    events: &[Event],
) -> Result<Option<World>, SetupFault>
    ensures { IfOk result (λ found. OnSome found ((part : PartRegisters) (sides : ℕ → Side) →
        list_any restarts_converter (reverse events.now) ≡ false →
        MissingUntold part c (now c passes (reverse events.now)).host →
        IsReached c passes part (reverse events.now) sides)) }
{
    // law: bands are exact (`reached` of the laws by name)
    lists_say_enough();
    laws_by_name();
    match run_open(c, passes, events)? {
        (world, None, true) => Ok(Some(world)),
        _ => Ok(None),
    }
}

/// The host of a named life hears just what this one heard, and each output that has a band commands its end on the
/// chosen side, as that very fraction: what `IsReached` says, opened.
#[tactic(auto, unfolding(crate::specs::ByName::IsReached))]
pub fn a_band_that_is_reached(
    c: Config,
    passes: u8,
    events: &[Event],
) -> Result<Option<World>, SetupFault>
    ensures { IfOk result (λ found. OnSome found ((part : PartRegisters) (sides : ℕ → Side) →
        list_any restarts_converter (reverse events.now) ≡ false →
        let host = (now c passes (reverse events.now)).host in
        MissingUntold part c host →
        let entries = since_restart (life c passes (reverse events.now)).entries in
        let chosen = end_choices part c host sides in
        let first = witness_start c (due_before chosen (marks (setup_of c passes) entries)) in
        let retold = witness_events (setup_of c passes) chosen entries in
        Leaves c passes entries chosen first retold
        × ((output : ℕ) (band : Band) → output < c.count → band_at part host output ≡ Some band →
        commands first passes retold output ≡ side_end (sides output) band))) }
{
    a_band_of_an_open_list(c, passes, events)
}
