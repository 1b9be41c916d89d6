//! What the calls that C makes of a course are, beside a part as it is: steps of the course of which its laws speak. What a list leaves in
//! memory once it heard.

ghost use Rattle.std.specs.Prelude.{◌≡◌, ◌++◌, Some, false, true};
ghost use Rattle.pm_host.specs.Told.{entry_told};
ghost use Rattle.pm_host.specs.Transcript.{Entry};
ghost use Rattle.pm_course.specs.declared.frame_course.FrameCourse.{FrameCourse};
ghost use Rattle.pm_stairs.specs.OpenCourse.{course_open};
ghost use Rattle.pm_stairs.specs.Sequence.{heard_with};
ghost use Rattle.pm_sequence.specs.declared.sequence.Sequence.{Sequence};
ghost use Rattle.pm_sequence.specs.Frames.{list_heard};
ghost use Rattle.pm_memory.specs.CourseImage.{IsKept};
ghost use Rattle.pm_memory.specs.Heard.{heard_image};
ghost use Rattle.pm_memory.specs.SequenceImage.{sequence_in};
ghost use Rattle.pm_world.specs.declared.event.Event.{Event};
ghost use Rattle.pm_world.specs.Ended.{begins_other};
ghost use Rattle.pm_world.specs.State.{share_of};
ghost use Rattle.pm_part_laws.specs.Happenings.{beside};
ghost use Rattle.pm_sequence_laws.specs.CourseCalls.{StepsOn, StepsTold, StepsToldOn, call_is_answered};
ghost use Rattle.pm_law_tests.specs.Exports.{CourseLife, IsOf};

use pm_host::Told;
use pm_memory::course::{hand_out, tell, tell_and_send};
use pm_memory::host_step::HostStep;
use pm_memory::{CourseImage, GuardImage, SendingImage, SequenceImage, sequences_are_kept};
use pm_sequence_laws::exports_are_steps_beside;

/// A frame that is handed out is one of the course beside the part, or begins the job that the course says.
pub fn a_frame_of_a_course(
    course: &mut CourseImage,
    host: &mut GuardImage,
    sending: &mut SendingImage,
) -> u8
    ghost life: { CourseLife }
    requires of { IsOf life host.old course.old }
    ensures { StepsOn life.held life.passes life.part life.begun life.before life.own life.later life.guard host.new course.new }
{
    exports_are_steps_beside();
    hand_out(course, host, sending)
}

/// What became of a frame of the course's own job, told and not refused, is heard by the course beside the part.
pub fn a_frame_that_ended(
    course: &mut CourseImage,
    host: &mut GuardImage,
    told: Told<'_>,
) -> HostStep
    ghost life: { CourseLife }
    requires of { IsOf life host.old course.old }
    requires own { life.own ≡ true }
    ensures { (event : Event) → begins_other event ≡ false →
        (share_of (beside life.held life.passes (life.later ++ life.before)) event).told ≡ Some (entry_told told.entry) →
        call_is_answered result ≡ true → StepsTold life.held life.passes life.part life.begun life.before event life.later
        (entry_told told.entry) life.guard host.new course.new }
{
    exports_are_steps_beside();
    tell(course, host, told)
}

/// It is so too if the same call hands out what is to be sent next.
pub fn a_frame_that_ended_and_the_next(
    course: &mut CourseImage,
    host: &mut GuardImage,
    told: Told<'_>,
    stops: bool,
    sending: &mut SendingImage,
) -> HostStep
    ghost life: { CourseLife }
    requires of { IsOf life host.old course.old }
    requires own { life.own ≡ true }
    ensures { (event : Event) → begins_other event ≡ false →
        (share_of (beside life.held life.passes (life.later ++ life.before)) event).told ≡ Some (entry_told told.entry) →
        call_is_answered result ≡ true → StepsToldOn life.held life.passes life.part life.begun life.before event life.later
        (entry_told told.entry) life.guard host.new course.new }
{
    exports_are_steps_beside();
    tell_and_send(course, host, told, stops, sending)
}

/// What a list in memory has heard of its own job's frame reads as the list that heard it, where memory keeps the course then.
pub fn a_list_that_heard(was: &SequenceImage)
    ensures { (q : Sequence) (named is : FrameCourse) (entry : Entry) → sequence_in was.now ≡ Some q →
        course_open q.list.stairs ≡ Some named → IsKept is → let after = list_heard q entry (heard_with q.list is false) in
        sequence_in (heard_image was.now after) ≡ Some after }
{
    sequences_are_kept();
}
