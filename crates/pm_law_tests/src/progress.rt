//! That a course which hands out frames gets there, and what its end is worth by the answers of its last survey.

ghost use Rattle.std.specs.Prelude.{◌≡◌, ◌≤◌, ◌<◌, IfOk, OnSome, reverse, false, ℕ};
ghost use Rattle.pm_host.specs.Refusals.{is_busy};
ghost use Rattle.pm_limits.specs.Guard.{limits_at};
ghost use Rattle.pm_rail.specs.declared.course.Course.{Course};
ghost use Rattle.pm_rail.specs.declared.wanted.Wanted.{Wanted};
ghost use Rattle.pm_rail.specs.Course.{course_of};
ghost use Rattle.pm_rail.specs.Registers.{wants_of};
ghost use Rattle.pm_course_laws.specs.Chains.{Chain, ChainEnds, FitsPart, HasLife, IsUnderWay, Pair, tries_for};
ghost use Rattle.pm_law_tests.specs.Beside.{LedTo, PartLife};
ghost use Rattle.pm_law_tests.specs.Progress.{BytesAreReached, BytesAreReachedBeside, ReachedIsHeld, ReachedIsHeldBeside, SurveysAreReached, SurveysAreReachedBeside, WishesAreReached, WishesAreReachedBeside, WishesAreReachedOnce};

use crate::further::run_all;
use pm_course_laws::{
    chains_end, frame_courses_get_there, frame_courses_get_there_beside, reached_since_it_read,
    reached_since_it_read_beside,
};
use pm_device::{Config, Converter};
use pm_host::Host;
use pm_world::{Event, SetupFault, World};

/// Each course of a run to wishes, of a part with every register, got there if nothing disturbed its frames.
pub fn a_course_gets_there(
    c: Config,
    passes: u8,
    events: &[Event],
) -> Result<Option<World>, SetupFault>
    ensures { IfOk result (λ found. OnSome found (WishesAreReached c passes (reverse events.now))) }
{
    frame_courses_get_there();
    run_all(c, passes, events)
}

/// Each course of a run to wishes got there from any moment on from which nothing disturbed its frames, if the part didn't restart before.
pub fn a_course_in_the_middle_gets_there(
    c: Config,
    passes: u8,
    events: &[Event],
) -> Result<Option<World>, SetupFault>
    ensures { IfOk result (λ found. OnSome found (WishesAreReachedOnce c passes (reverse events.now))) }
{
    frame_courses_get_there();
    reached_since_it_read();
    run_all(c, passes, events)
}

/// Each course of a run to a byte of OPERATION, of a part with every register whose WRITE_PROTECT allows it, got there if nothing disturbed
/// its frames.
pub fn a_byte_gets_there(
    c: Config,
    passes: u8,
    events: &[Event],
) -> Result<Option<World>, SetupFault>
    ensures { IfOk result (λ found. OnSome found (BytesAreReached c passes (reverse events.now))) }
{
    frame_courses_get_there();
    run_all(c, passes, events)
}

/// Each survey of a run, of a part with every register, got there if nothing disturbed its frames.
pub fn a_survey_gets_there(
    c: Config,
    passes: u8,
    events: &[Event],
) -> Result<Option<World>, SetupFault>
    ensures { IfOk result (λ found. OnSome found (SurveysAreReached c passes (reverse events.now))) }
{
    frame_courses_get_there();
    run_all(c, passes, events)
}

/// Courses to wishes and to a byte of OPERATION, and surveys, get there beside a part with every register as it is, whatever anybody read of
/// it meanwhile.
pub fn a_course_gets_there_beside(host: &Host, device: &Converter)
    ghost life: { PartLife }
    requires led { LedTo life host.now device.now }
    ensures wishes { WishesAreReachedBeside life }
    ensures bytes { BytesAreReachedBeside life }
    ensures surveys { SurveysAreReachedBeside life }
{
    frame_courses_get_there(); // law: a part with every register has what is wanted
    frame_courses_get_there_beside();
}

/// Each course of a run to wishes that says `Reached` is right, whatever restarted before the answers of its last survey.
pub fn a_course_that_read_all_again(
    c: Config,
    passes: u8,
    events: &[Event],
) -> Result<Option<World>, SetupFault>
    ensures { IfOk result (λ found. OnSome found (ReachedIsHeld c passes (reverse events.now))) }
{
    reached_since_it_read();
    run_all(c, passes, events)
}

/// Each course to wishes that says `Reached` beside a part as it is, is right, whatever restarted before the answers of its last survey, and
/// whatever anybody read of the part.
pub fn a_course_that_read_all_again_beside(host: &Host, device: &Converter)
    ghost life: { PartLife }
    requires led { LedTo life host.now device.now }
    ensures { ReachedIsHeldBeside life host.now }
{
    reached_since_it_read_beside();
}

/// A course by jobs that nothing disturbs has an end after 28 of them, whether it begins now or is under way.
pub fn a_chain_has_an_end()
    ghost d: { ℕ × Wanted × ℕ × Pair × Pair × Course × Course }
    requires life { HasLife d.3.guard.host d.3.held }
    requires idle { is_busy d.3.guard.host ≡ false }
    requires there { d.0 < d.3.guard.host.setup.outputs }
    requires fits { FitsPart d.3.guard.registers d.3.held d.0 (wants_of d.1) }
    ensures begins { Chain (course_of d.0 d.1 28) d.3 d.6 d.4 d.2 → ChainEnds d.0 d.1
        (tries_for (limits_at d.3.guard d.0) d.3.held d.0 (wants_of d.1)) d.2 d.3 d.4 d.6 }
    ensures goes_on { IsUnderWay d.0 d.1 d.3 d.5 → 28 ≤ d.5.survey.left → Chain d.5 d.3 d.6 d.4 d.2 →
        ChainEnds d.0 d.1 28 d.2 d.3 d.4 d.6 }
{
    chains_end();
}
