//! What frames that come whole make of an open job, whatever went before.

ghost use Rattle.std.specs.Prelude.{◌≡◌, ◌≤◌, ◌+◌, Bool, List, None, Some, IfOk, OnSome, length, reverse};
ghost use Rattle.pm_world.specs.declared.event.Event.{Event as Happening};
ghost use Rattle.pm_host.specs.Frames.{frames_left};
ghost use Rattle.pm_host.specs.declared.stage.Stage.{Stage as AnyStage};
ghost use Rattle.pm_world.specs.GoodTurns.{ComeWhole, ComesWhole, Turns, good_end, turn_of};
ghost use Rattle.pm_world.specs.Life.{now};
ghost use Rattle.pm_world.specs.GoodBus.{stage_after};

use crate::further::run_all;
use pm_device::Config;
use pm_world::{Event, SetupFault, World, open_jobs_end};

/// The open job, whichever it is, ends or goes on as its stage says, if the last events of a run are a frame of it
/// that comes whole.
pub fn a_frame_that_comes_whole(
    c: Config,
    passes: u8,
    events: &[Event],
) -> Result<Option<World>, SetupFault>
    ensures { IfOk result (λ found. OnSome found ((before : List Happening) (stage : AnyStage) (acked : Bool) →
        stage_after c passes before ≡ Some stage → ComesWhole c passes acked stage before (reverse events.now) →
        Turns c passes (reverse events.now) (turn_of c passes before acked stage))) }
{
    open_jobs_end();
    run_all(c, passes, events)
}

/// Frames of the open job that all come whole, as the last events of a run, are no more than the job had left
/// (`few`); if it ends by them, it ends as its stage says (`ends`).
pub fn frames_that_all_come_whole(
    c: Config,
    passes: u8,
    events: &[Event],
) -> Result<Option<World>, SetupFault>
    ensures few { IfOk result (λ found. OnSome found ((before : List Happening) (frames : List Bool) →
        ComeWhole c passes frames before (reverse events.now) →
        length frames + frames_left (now c passes (reverse events.now)).host ≤ frames_left (now c passes before).host)) }
    ensures ends { IfOk result (λ found. OnSome found ((before : List Happening) (stage : AnyStage) (frames : List Bool) →
        stage_after c passes before ≡ Some stage → ComeWhole c passes frames before (reverse events.now) →
        stage_after c passes (reverse events.now) ≡ None →
        (now c passes (reverse events.now)).end ≡ Some (good_end c passes before stage))) }
{
    open_jobs_end();
    run_all(c, passes, events)
}
