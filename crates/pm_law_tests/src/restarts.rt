//! What a course is worth if the part restarts before it has ended: in a run, and beside a part as it is.

ghost use Rattle.std.specs.Prelude.{IfOk, OnSome, reverse};
ghost use Rattle.pm_law_tests.specs.Beside.{LedTo, PartLife};
ghost use Rattle.pm_law_tests.specs.Restarts.{LiesBetween, LiesBetweenBeside, WritesWishes, WritesWishesBeside};

use crate::further::run_all;
use pm_course_laws::{
    courses_keep_between, frame_courses_go_their_way, frame_courses_keep_between_beside,
};
use pm_device::{Config, Converter};
use pm_host::Host;
use pm_world::{Event, SetupFault, World};

/// Runs the events; `None` if one isn't taken. The output of a course to wanted words commands a value between its start value and what
/// is wanted, at each moment after a restart since the course began, if neither is cut and nothing else was ordered of it or stored.
pub fn a_course_through_restarts(
    c: Config,
    passes: u8,
    events: &[Event],
) -> Result<Option<World>, SetupFault>
    ensures { IfOk result (λ found. OnSome found (LiesBetween c passes (reverse events.now))) }
{
    courses_keep_between();
    run_all(c, passes, events)
}

/// Runs the events; `None` if one isn't taken. A course to wishes that hands out frames wrote nothing to its output but wanted
/// words, however often the part restarted.
pub fn a_frame_course_through_restarts(
    c: Config,
    passes: u8,
    events: &[Event],
) -> Result<Option<World>, SetupFault>
    ensures { IfOk result (λ found. OnSome found (WritesWishes c passes (reverse events.now))) }
{
    courses_keep_between();
    frame_courses_go_their_way();
    run_all(c, passes, events)
}

/// A course to wishes that hands out frames, beside a part as it is, wrote nothing to its output but wanted words, however often the part
/// restarted, and whatever anybody read of it (`writes`). At each moment after a restart its output commanded a value between its start
/// value and what is wanted, if neither is cut (`between`).
pub fn a_frame_course_through_restarts_beside(host: &Host, device: &Converter)
    ghost life: { PartLife }
    requires led { LedTo life host.now device.now }
    ensures writes { WritesWishesBeside life }
    ensures between { LiesBetweenBeside life }
{
    frame_courses_keep_between_beside();
}
