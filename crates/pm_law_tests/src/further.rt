//! After `World::run` one goes on with `World::step`, and has each of its promises for the longer list of
//! events too, by the laws of worlds and with no proof by hand.

ghost use Rattle.std.specs.Prelude.{◌≡◌, ◌∷◌, ◌<◌, ℕ, List, Some, IfOk, IfSome, OnSome, OnOk, reverse, true};
ghost use Rattle.std.specs.Result.{result_err};
ghost use Rattle.pm_table.specs.declared.cell.Cell.{Cell};
ghost use Rattle.pm_table.specs.Cell.{cell_accepts, IsCell};
ghost use Rattle.pm_model.specs.Commanded.{commanded};
ghost use Rattle.pm_model.specs.Settings.{word_at};
ghost use Rattle.pm_device.specs.Held.{value_for};
ghost use Rattle.pm_limits.specs.declared.band.Band.{Band};
ghost use Rattle.pm_limits.specs.declared.part_registers.PartRegisters.{PartRegisters};
ghost use Rattle.pm_limits.specs.Band.{InBand, band_at};
ghost use Rattle.pm_world.specs.declared.event.Event.{Event as Happening};
ghost use Rattle.pm_world.specs.Bands.{AreShort, BandStands, HoldsMissing};
ghost use Rattle.pm_world.specs.Bytes.{CarryBytes, StartsShort};
ghost use Rattle.pm_world.specs.Confirmed.{ConfirmedIsHeld};
ghost use Rattle.pm_device.specs.Start.{IsSound};
ghost use Rattle.pm_host.specs.Refusals.{IsSetup};
ghost use Rattle.pm_world.specs.GoodBus.{GoodFrames};
ghost use Rattle.pm_world.specs.Honest.{AreFewFrames, FormatsAgree, IsSpelled, MicrosAreNearest, OrdersGoThrough};
ghost use Rattle.pm_world.specs.Setup.{world_fault, setup_of};
ghost use Rattle.pm_world.specs.Life.{AreTaken, now};
ghost use Rattle.pm_world.specs.Lived.{IsLived};
ghost use Rattle.pm_world.specs.Limited.{StaysLimited, commands};
ghost use Rattle.pm_world.specs.Moves.{MovesByTheOpenJob};
ghost use Rattle.pm_world.specs.Possible.{PossibleIsHeld, SeenIsTrue};
ghost use Rattle.pm_world.specs.Retelling.{CommandsOwn, IsOrderRun, IsOwnWord};

use pm_device::Config;
use pm_host::Standing;
use pm_table::Cell as Place;
use pm_world::{
    Event, SetupFault, World, bands_are_held, causes_decide, confirmed_settings_are_held,
    events_are_lived, frames_are_few, good_frames_end_jobs, honest_orders_go_through,
    learned_formats_are_true, lives_are_followed, lives_are_orders, lives_stay_limited,
    possible_words_are_held, settings_move_by_the_open_job, words_are_short,
};

/// Runs the events; `None` if one of them isn't taken.
pub fn run_all(c: Config, passes: u8, events: &[Event]) -> Result<Option<World>, SetupFault>
    ensures now { IfOk result (λ found. IfSome found (λ world. world ≡ now c passes (reverse events.now))) }
    ensures all { IfOk result (λ found. OnSome found (AreTaken c passes (reverse events.now))) }
    ensures lived { IfOk result (λ found. OnSome found (IsLived c passes (reverse events.now))) }
    ensures config { IfOk result (λ found. IfSome found (λ world. world.device.config ≡ c)) }
    ensures sound { OnOk result (IsSound c × IsSetup (setup_of c passes) × IsSpelled c) }
    ensures short { OnOk result (StartsShort c) }
    ensures bytes { IfOk result (λ found. OnSome found (CarryBytes (reverse events.now))) }
{
    match World::run(c, passes, events)? {
        (world, None) => Ok(Some(world)),
        (_, Some(_)) => Ok(None),
    }
}

/// Runs the events, and lets one more happen; `None` if one of them isn't taken.
pub fn run_and_step(
    c: Config,
    passes: u8,
    events: &[Event],
    more: &Event,
) -> Result<Option<World>, SetupFault>
    ensures now { IfOk result (λ found. IfSome found (λ world. world ≡ now c passes (more.now ∷ reverse events.now))) }
    ensures all { IfOk result (λ found. OnSome found (AreTaken c passes (more.now ∷ reverse events.now))) }
    ensures lived { IfOk result (λ found. OnSome found (IsLived c passes (more.now ∷ reverse events.now))) }
    ensures config { IfOk result (λ found. IfSome found (λ world. world.device.config ≡ c)) }
    ensures sound { OnOk result (IsSound c × IsSetup (setup_of c passes) × IsSpelled c) }
    ensures short { OnOk result (StartsShort c) }
    ensures bytes { IfOk result (λ found. OnSome found (CarryBytes (more.now ∷ reverse events.now))) }
{
    lives_are_followed();
    events_are_lived();
    let (mut world, stop) = World::run(c, passes, events)?;
    if stop.is_some() {
        return Ok(None);
    }
    match world.step(more) {
        Ok(()) => Ok(Some(world)),
        Err(_) => Ok(None),
    }
}

/// Lets one more event happen in a world that is what some events made of it, however these were chosen; whether it was
/// taken.
pub fn go_on(world: &mut World, c: Config, passes: u8, more: &Event) -> bool
    ensures lived { (before : List Happening) → IsLived c passes before → world.old ≡ now c passes before →
        result ≡ true → IsLived c passes (more.now ∷ before) }
    ensures now { (before : List Happening) → IsLived c passes before → world.old ≡ now c passes before →
        result ≡ true → world.new ≡ now c passes (more.now ∷ before) }
    ensures bytes { (before : List Happening) → CarryBytes before → CarryBytes (more.now ∷ before) }
{
    lives_are_followed();
    events_are_lived();
    causes_decide();
    world.step(more).is_ok()
}

/// The settings and the store after a run and a step are those of the order machine, and only the open job moves them.
pub fn orders_after_a_step(
    c: Config,
    passes: u8,
    events: &[Event],
    more: &Event,
) -> Result<Option<World>, SetupFault>
    ensures orders { IfOk result (λ found. IfSome found (λ world.
        IsOrderRun c passes (more.now ∷ reverse events.now) world.device.words world.device.store)) }
    ensures own { IfOk result (λ found. IfSome found (λ world. (cell : Cell) → IsCell c.count cell →
        IsOwnWord c passes (more.now ∷ reverse events.now) cell (word_at world.device.words cell))) }
    ensures stored { IfOk result (λ found. IfSome found (λ world. (cell : Cell) → IsCell c.count cell →
        IsOwnWord c passes (more.now ∷ reverse events.now) cell (word_at world.device.store cell))) }
    ensures commanded { IfOk result (λ found. IfSome found (λ world. (output : ℕ) → output < c.count →
        CommandsOwn c passes (more.now ∷ reverse events.now) output
        (commanded (value_for world.device.config output) world.device.words output))) }
    ensures moves { IfOk result (λ found. OnSome found (MovesByTheOpenJob c passes (more.now ∷ reverse events.now))) }
{
    lives_are_orders();
    settings_move_by_the_open_job();
    run_and_step(c, passes, events, more)
}

/// Jobs send few frames after a run and a step. Undisturbed orders go through, and each job goes through on a bus
/// that is good again.
pub fn orders_go_through_after_a_step(
    c: Config,
    passes: u8,
    events: &[Event],
    more: &Event,
) -> Result<Option<World>, SetupFault>
    ensures few { IfOk result (λ found. OnSome found (AreFewFrames c passes (more.now ∷ reverse events.now))) }
    ensures through { IfOk result (λ found. OnSome found (OrdersGoThrough c passes (more.now ∷ reverse events.now))) }
    ensures good { IfOk result (λ found. OnSome found (GoodFrames c passes (more.now ∷ reverse events.now))) }
{
    frames_are_few();
    honest_orders_go_through();
    good_frames_end_jobs();
    run_and_step(c, passes, events, more)
}

/// The host's formats are the converter's.
pub fn formats_after_a_step(
    c: Config,
    passes: u8,
    events: &[Event],
    more: &Event,
) -> Result<Option<World>, SetupFault>
    ensures formats { IfOk result (λ found. OnSome found (FormatsAgree c passes (more.now ∷ reverse events.now))) }
    ensures nearest { IfOk result (λ found. OnSome found (MicrosAreNearest c passes (more.now ∷ reverse events.now))) }
{
    learned_formats_are_true();
    run_and_step(c, passes, events, more)
}

/// What the host says of the converter's words is true.
pub fn words_after_a_step(
    c: Config,
    passes: u8,
    events: &[Event],
    more: &Event,
) -> Result<Option<World>, SetupFault>
    ensures confirmed { IfOk result (λ found. IfSome found (λ world.
        ConfirmedIsHeld c passes (more.now ∷ reverse events.now) world)) }
    ensures possible { IfOk result (λ found. IfSome found (λ world.
        PossibleIsHeld c passes (more.now ∷ reverse events.now) world)) }
    ensures seen { IfOk result (λ found. IfSome found (λ world.
        SeenIsTrue c passes (more.now ∷ reverse events.now) world)) }
{
    confirmed_settings_are_held();
    possible_words_are_held();
    run_and_step(c, passes, events, more)
}

/// Outputs stay, after a run and a step, within limits that their own words lie within.
pub fn limits_after_a_step(
    c: Config,
    passes: u8,
    events: &[Event],
    more: &Event,
) -> Result<Option<World>, SetupFault>
    ensures { IfOk result (λ found. OnSome found (StaysLimited c passes (more.now ∷ reverse events.now))) }
{
    lives_stay_limited();
    run_and_step(c, passes, events, more)
}

/// What an output commands lies in the band that the host gives.
pub fn a_band_after_a_step(
    c: Config,
    passes: u8,
    events: &[Event],
    more: &Event,
    output: u8,
) -> Result<Option<World>, SetupFault>
    requires { output < c.count }
    ensures { IfOk result (λ found. OnSome found ((part : PartRegisters) (band : Band) →
        BandStands c passes (more.now ∷ reverse events.now) (now c passes (more.now ∷ reverse events.now)).host output →
        HoldsMissing part c (now c passes (more.now ∷ reverse events.now)).device.words output →
        band_at part (now c passes (more.now ∷ reverse events.now)).host output ≡ Some band →
        InBand band (commands c passes (more.now ∷ reverse events.now) output))) }
{
    bands_are_held();
    short_after_a_step(c, passes, events, more, output)
}

// An output's words have 16 bits, after a run and a step.
fn short_after_a_step(
    c: Config,
    passes: u8,
    events: &[Event],
    more: &Event,
    output: u8,
) -> Result<Option<World>, SetupFault>
    requires { output < c.count }
    ensures lived { IfOk result (λ found. OnSome found (IsLived c passes (more.now ∷ reverse events.now))) }
    ensures spelled { OnOk result (IsSpelled c) }
    ensures short { IfOk result (λ found. OnSome found
        (AreShort (now c passes (more.now ∷ reverse events.now)).device.words output)) }
{
    match run_and_step(c, passes, events, more)? {
        Some(world) => {
            words_are_short(world.device(), output);
            Ok(Some(world))
        }
        None => Ok(None),
    }
}

/// A cell of the configuration's outputs is one of both ends after a run, and after each step: what the
/// converter holds there, and what the host says of it.
pub fn cell_after_a_step(
    c: Config,
    passes: u8,
    events: &[Event],
    more: &Event,
    cell: Place,
) -> Result<(u16, Standing), SetupFault>
    requires { IsCell c.count cell }
    ensures fault { result_err result ≡ world_fault c passes }
    ensures accepted { IfOk result (λ found. cell_accepts cell found.0 ≡ true) }
{
    let (mut world, _) = World::run(c, passes, events)?;
    let _ = world.step(more);
    let word = world.device().word(cell);
    let standing = world.host().standing(cell);
    Ok((word, standing))
}
