//! What a course that hands out frames is worth after a run, whatever the events of the run and those of the course.

ghost use Rattle.std.specs.Prelude.{IfOk, OnSome, reverse};
ghost use Rattle.pm_law_tests.specs.FrameCourses.{OffIsKept, OnIsKept, SurveysOrderNothing, UnformedOrderNothing, WishesAreKept};

use crate::further::run_all;
use pm_course_laws::frame_courses_hold_in_lives;
use pm_device::Config;
use pm_world::{Event, SetupFault, World};

/// Each course to wishes kept its rail after a run, and came true if its end says so.
pub fn a_course_to_wishes(
    c: Config,
    passes: u8,
    events: &[Event],
) -> Result<Option<World>, SetupFault>
    ensures { IfOk result (λ found. OnSome found (WishesAreKept c passes (reverse events.now))) }
{
    frame_courses_hold_in_lives();
    run_all(c, passes, events)
}

/// Each course of a run to wishes of which one has no word in the format, and each survey, has ordered nothing.
pub fn a_course_that_orders_nothing(
    c: Config,
    passes: u8,
    events: &[Event],
) -> Result<Option<World>, SetupFault>
    ensures unformed { IfOk result (λ found. OnSome found (UnformedOrderNothing c passes (reverse events.now))) }
    ensures surveys { IfOk result (λ found. OnSome found (SurveysOrderNothing c passes (reverse events.now))) }
{
    frame_courses_hold_in_lives();
    run_all(c, passes, events)
}

/// Each course of a run that turns an output off left each register as it was, or OPERATION with its byte.
pub fn a_course_that_turns_off(
    c: Config,
    passes: u8,
    events: &[Event],
) -> Result<Option<World>, SetupFault>
    ensures { IfOk result (λ found. OnSome found (OffIsKept c passes (reverse events.now))) }
{
    frame_courses_hold_in_lives();
    run_all(c, passes, events)
}

/// Each course of a run that turns an output of a part with every register on, or changes what it is on with, ordered nothing but its
/// byte. It gave that order only if WRITE_PROTECT allowed it, and left each other register as it was.
pub fn a_course_that_turns_on(
    c: Config,
    passes: u8,
    events: &[Event],
) -> Result<Option<World>, SetupFault>
    ensures { IfOk result (λ found. OnSome found (OnIsKept c passes (reverse events.now))) }
{
    frame_courses_hold_in_lives();
    run_all(c, passes, events)
}
