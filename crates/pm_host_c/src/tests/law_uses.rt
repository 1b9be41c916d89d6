//! A caller for each law of numbers and memories: a function that has what the law says.

ghost use Rattle.std.specs.Prelude.{◌≡◌, Some, true};
ghost use Rattle.pm_course.specs.FrameCourse.{to_survey};
ghost use Rattle.pm_limits.specs.FaultWords.{limit_fault_words};
ghost use Rattle.pm_memory.specs.CourseImage.{course_in};
ghost use Rattle.pm_memory.specs.Names.{HasText};

use crate::course::pm_course_survey;
use crate::host::pm_host_new;
use crate::names::pm_refusal_name;
use pm_limits::LimitFault;
use pm_memory::names::NameImage;
use pm_memory::{
    CourseImage, GuardImage, courses_are_kept, memories_are_meanings, refusals_are_named,
};

/// Each refusal of limits, and of a host by them, has a name, which is its own words.
pub fn a_refusal_by_name(fault: LimitFault, name: &mut NameImage) -> u8
    ensures number { result ≡ 0 }
    ensures name { HasText (limit_fault_words fault) name.new }
{
    refusals_are_named();
    pm_refusal_name(fault.number(), name)
}

/// Two hosts that are made alike have the same memory, byte for byte, whatever was in it before.
pub fn two_hosts_alike(
    one: &mut GuardImage,
    other: &mut GuardImage,
    address: u8,
    outputs: u8,
) -> bool
    ensures { result ≡ true → one.new ≡ other.new }
{
    memories_are_meanings();
    let first = pm_host_new(one, address, outputs, 5);
    let second = pm_host_new(other, address, outputs, 5);
    first == 0 && second == 0
}

/// A survey that is begun in a caller's memory is read there as that survey.
pub fn a_survey_in_memory(course: &mut CourseImage, output: u8, tries: u16) -> u8
    ensures { result ≡ 0 → course_in course.new ≡ Some (to_survey output tries) }
{
    courses_are_kept();
    pm_course_survey(course, output, tries)
}
