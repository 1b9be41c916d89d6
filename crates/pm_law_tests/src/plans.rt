//! What plans and surveys of rails are worth after a run and a step that follows it, and what a rail does across a restart.

ghost use Rattle.std.specs.Prelude.{◌∷◌, IfOk, OnSome, reverse};
ghost use Rattle.pm_world.specs.Across.{KeepsBetween};
ghost use Rattle.pm_world.specs.Plans.{KeepsPlans};
ghost use Rattle.pm_world.specs.Surveys.{FollowsSurveys, KeepsSurveys};

use crate::further::run_and_step;
use pm_device::Config;
use pm_world::{
    Event, SetupFault, World, plans_hold_in_lives, restarts_keep_between, surveys_hold_in_lives,
};

/// Each plan that the orders followed has kept its rail after a run and a step.
pub fn plans_after_a_step(
    c: Config,
    passes: u8,
    events: &[Event],
    more: &Event,
) -> Result<Option<World>, SetupFault>
    ensures { IfOk result (λ found. OnSome found (KeepsPlans c passes (more.now ∷ reverse events.now))) }
{
    plans_hold_in_lives();
    run_and_step(c, passes, events, more)
}

/// A survey's reads after a run and a step are those that it heard of, and what it found holds.
pub fn surveys_after_a_step(
    c: Config,
    passes: u8,
    events: &[Event],
    more: &Event,
) -> Result<Option<World>, SetupFault>
    ensures follows { IfOk result (λ found. OnSome found (FollowsSurveys c passes (more.now ∷ reverse events.now))) }
    ensures keeps { IfOk result (λ found. OnSome found (KeepsSurveys c passes (more.now ∷ reverse events.now))) }
{
    surveys_hold_in_lives();
    run_and_step(c, passes, events, more)
}

/// Each output to which nothing but wanted words was written commands a value between what it starts with and what is wanted, after
/// a run and a step, if the converter restarted and neither is cut.
pub fn restarts_after_a_step(
    c: Config,
    passes: u8,
    events: &[Event],
    more: &Event,
) -> Result<Option<World>, SetupFault>
    ensures { IfOk result (λ found. OnSome found (KeepsBetween c passes (more.now ∷ reverse events.now))) }
{
    restarts_keep_between();
    run_and_step(c, passes, events, more)
}
