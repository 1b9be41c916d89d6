//! Which words an output is to command once a course has ended.

ghost use Rattle.std.specs.Prelude.{◌≡◌, ◌≢◌, Some, IsSomeAnd};
ghost use Rattle.pm_table.specs.Cell.{register_of};
ghost use Rattle.pm_memory.specs.CourseImage.{course_in};
ghost use Rattle.pm_memory.specs.Delivery.{idle_host};
ghost use Rattle.pm_memory.specs.Goal.{goal_number, IsGoalBy};

use pm_memory::goal::{course_goal, register_in};
use pm_memory::numbers::{NO_COURSE, NO_HOST};
use pm_memory::{CourseImage, GuardImage};

/// The word that a course wants of VOUT_COMMAND or of a margin; of a course to a byte that leaves the output on the word that the
/// register is known to hold that the byte selects. EDh if the course has none of it. E0h, E9h, H4, E1h.
#[unsafe(no_mangle)]
pub extern "C" fn pm_course_goal(
    course: &CourseImage,
    host: &GuardImage,
    code: u8,
    word: &mut u16,
) -> u8
    ensures number { result ≡ goal_number host.now (course_in course.now) (register_of code) }
    ensures goal { result ≡ 0 → IsSomeAnd (course_in course.now) (λ c. IsSomeAnd (register_of code)
        (λ register. IsGoalBy (idle_host host.now) c c.course.byte register (Some word.new))) }
    ensures refused { result ≢ 0 → word.new ≡ word.old }
{
    if host.host.read_stage().is_err() {
        return NO_HOST;
    }
    match course.course() {
        Some(asked) => course_goal(&asked, host, register_in(code), word),
        None => NO_COURSE,
    }
}
