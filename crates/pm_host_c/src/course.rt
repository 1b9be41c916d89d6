//! A course of an output: it is made, hands out frames, and hears what became of them.

ghost use Rattle.std.specs.Prelude.{◌≡◌, ◌≢◌, not, ◌==◌};
ghost use Rattle.pm_host.specs.Transcript.{Finished, Got};
ghost use Rattle.pm_course.specs.FrameCourse.{to_byte, to_survey};
ghost use Rattle.pm_memory.specs.Course.{begun_number, job_answer, kept_number, voltage_begun, voltage_number, want_number, wanted_more, words_course, AcceptsIn, HandsOutIn, HearsIn, HearsOnIn, WouldBegin};
ghost use Rattle.pm_memory.specs.CourseEnd.{end_answer};
ghost use Rattle.pm_memory.specs.Guard.{guard_of};
ghost use Rattle.pm_memory.specs.CourseImage.{course_image, course_in, course_version};
ghost use Rattle.pm_memory.specs.Sizes.{course_size};

use pm_course::{FrameCourse, Wishes};
use pm_host::{HostFault, Told};
use pm_memory::course::{
    CourseJobImage, accept, hand_out, tell, tell_and_send, voltage_of, would_begin,
};
use pm_memory::host_step::HostStep;
use pm_memory::numbers::{ACCEPTED, NO_COURSE};
use pm_memory::{CourseEndImage, CourseImage, GuardImage, SendingImage, WantedImage};
use std::mem::size_of;

/// How many bytes a course has.
#[unsafe(no_mangle)]
pub extern "C" fn pm_course_size() -> usize
    ensures { result ≡ course_size }
{
    size_of::<CourseImage>()
}

/// The number of a course's layout.
#[unsafe(no_mangle)]
pub extern "C" fn pm_course_version() -> u16
    ensures { result ≡ course_version }
{
    CourseImage::VERSION
}

/// Makes a course to nothing, which is a survey of what an output commands, by this many jobs at most. H4 for an output above 7.
#[unsafe(no_mangle)]
pub extern "C" fn pm_course_survey(course: &mut CourseImage, output: u8, tries: u16) -> u8
    ensures number { result ≡ begun_number output }
    ensures begun { result ≡ 0 → course.new ≡ course_image (to_survey output tries) }
    ensures refused { result ≢ 0 → course.new ≡ course.old }
{
    if 8 <= output {
        return HostFault::UnknownOutput.number();
    }
    *course = CourseImage::of(&FrameCourse::survey(output, tries));
    ACCEPTED
}

/// Makes a course to wanted words. H4 for an output above 7.
#[unsafe(no_mangle)]
pub extern "C" fn pm_course_words(
    course: &mut CourseImage,
    output: u8,
    wanted: &WantedImage,
    tries: u16,
) -> u8
    ensures number { result ≡ begun_number output }
    ensures begun { result ≡ 0 → course.new ≡ course_image (words_course output wanted.now tries) }
    ensures refused { result ≢ 0 → course.new ≡ course.old }
{
    if 8 <= output {
        return HostFault::UnknownOutput.number();
    }
    let mut words = FrameCourse::new(output, &Wishes::nothing(), tries);
    words.course.survey.plan = Some(wanted.wanted());
    *course = CourseImage::of(&words);
    ACCEPTED
}

/// Makes a course to a voltage of one register: the nearest word of VOUT_COMMAND and of a margin, the highest that isn't above it of
/// VOUT_MAX, the lowest that isn't below it of VOUT_MIN, in the format that the course learns. H4 for an output above 7, H5 for a code
/// that is no voltage.
#[unsafe(no_mangle)]
pub extern "C" fn pm_course_microvolts(
    course: &mut CourseImage,
    output: u8,
    code: u8,
    microvolts: i64,
    tries: u16,
) -> u8
    ensures number { result ≡ voltage_number output code }
    ensures begun { result ≡ 0 → course.new ≡ voltage_begun course.old output code microvolts tries }
    ensures refused { result ≢ 0 → course.new ≡ course.old }
{
    if 8 <= output {
        return HostFault::UnknownOutput.number();
    }
    let Some(register) = voltage_of(code) else {
        return HostFault::BadWord.number();
    };
    let mut to = FrameCourse::new(output, &Wishes::nothing(), tries);
    to.want(register, microvolts);
    *course = CourseImage::of(&to);
    ACCEPTED
}

/// Makes a course to a byte of OPERATION. H4 for an output above 7.
#[unsafe(no_mangle)]
pub extern "C" fn pm_course_power(course: &mut CourseImage, output: u8, byte: u8, tries: u16) -> u8
    ensures number { result ≡ begun_number output }
    ensures begun { result ≡ 0 → course.new ≡ course_image (to_byte output byte tries) }
    ensures refused { result ≢ 0 → course.new ≡ course.old }
{
    if 8 <= output {
        return HostFault::UnknownOutput.number();
    }
    *course = CourseImage::of(&FrameCourse::power(output, u16::from(byte), tries));
    ACCEPTED
}

/// One voltage more is wanted, by a course to words or voltages. E9h for every other memory, H5 for a code that is no voltage.
#[unsafe(no_mangle)]
pub extern "C" fn pm_course_want(course: &mut CourseImage, code: u8, microvolts: i64) -> u8
    ensures number { result ≡ want_number (course_in course.old) code }
    ensures wanted { result ≡ 0 → course.new ≡ wanted_more course.old code microvolts }
    ensures refused { result ≢ 0 → course.new ≡ course.old }
{
    let Some(mut to) = course.course() else {
        return NO_COURSE;
    };
    if to.course.survey.plan.is_none() {
        return NO_COURSE;
    }
    let Some(register) = voltage_of(code) else {
        return HostFault::BadWord.number();
    };
    to.want(register, microvolts);
    *course = CourseImage::of(&to);
    ACCEPTED
}

/// The word that a register is known to hold is wanted in the place of what was: the course begins anew, by the tries that are left. The
/// register is the one of which an order differed, or else the first of which something is wanted. E0h, E9h, H4; H3 while a job is open,
/// P1, P4 if the word isn't known, P9 if nothing is wanted, if the word's value isn't within so many microvolts of what was wanted, or
/// if no whole microvolts mean it, L3 or L4 by the limits. Then nothing changes.
#[unsafe(no_mangle)]
pub extern "C" fn pm_course_accept(
    course: &mut CourseImage,
    host: &GuardImage,
    microvolts: u32,
) -> u8
    ensures { AcceptsIn (guard_of host.now) course.old microvolts result course.new }
{
    accept(course, host, microvolts)
}

/// What a course would begin now: 0 and the job, 95h if it would end. It changes nothing. E0h, E9h, H4 if the host doesn't have the
/// course's output.
#[unsafe(no_mangle)]
pub extern "C" fn pm_course_next(
    course: &CourseImage,
    host: &GuardImage,
    next: &mut CourseJobImage,
) -> u8
    ensures { WouldBegin host.now course.now next.old result next.new }
{
    would_begin(course, host, next)
}

/// The frame of a course's open job; if none is open, what is next is begun. 95h once it has ended, also if the limits or the
/// host refuse what it would begin. E0h, E9h, H4 if the host doesn't have the course's output: then nothing changes. It is nothing then,
/// and once the course has ended.
#[unsafe(no_mangle)]
pub extern "C" fn pm_course_frame(
    course: &mut CourseImage,
    host: &mut GuardImage,
    sending: &mut SendingImage,
) -> u8
    ensures { HandsOutIn host.old course.old result host.new course.new sending.new }
{
    hand_out(course, host, sending)
}

/// The job of a course that is under way, by what it asked for last: none once it heard the end of that. E9h.
#[unsafe(no_mangle)]
pub extern "C" fn pm_course_job_now(course: &CourseImage, now: &mut CourseJobImage) -> u8
    ensures number { result ≡ kept_number (course_in course.now) }
    ensures job { now.new ≡ job_answer (course_in course.now) now.old }
{
    let Some(asked) = course.course() else {
        return NO_COURSE;
    };
    *now = CourseJobImage::of(asked.course.survey.asked);
    ACCEPTED
}

/// A write was sent, and acknowledged or not (0). E0h, E9h, H4, E2h if no write is being sent; then nothing changes.
#[unsafe(no_mangle)]
pub extern "C" fn pm_course_write_ended(
    course: &mut CourseImage,
    host: &mut GuardImage,
    acked: u8,
) -> HostStep
    ensures { HearsIn host.old course.old (Finished (not (acked == 0))) result host.new course.new }
{
    tell(course, host, Told::Finished { acked: acked != 0 })
}

/// A request was sent, and these bytes came back, the read address first; none if there was no answer. E0h, E9h, H4, E2h if
/// no request is being sent; then nothing changes.
#[unsafe(no_mangle)]
pub extern "C" fn pm_course_read_ended(
    course: &mut CourseImage,
    host: &mut GuardImage,
    bytes: &[u8],
) -> HostStep
    ensures { HearsIn host.old course.old (Got bytes.now) result host.new course.new }
{
    tell(course, host, Told::Got(bytes))
}

/// A write was sent, and acknowledged or not (0); and what is to be sent next, as `pm_course_frame` hands it out. It is nothing once the
/// course has ended, and, if `stops` isn't 0, if an order is next, which then doesn't begin. E0h, E9h, H4, E2h if no write is
/// being sent; then nothing changes, and it is nothing.
#[unsafe(no_mangle)]
pub extern "C" fn pm_course_after_write(
    course: &mut CourseImage,
    host: &mut GuardImage,
    acked: u8,
    stops: u8,
    sending: &mut SendingImage,
) -> HostStep
    ensures { HearsOnIn (not (stops == 0)) host.old course.old (Finished (not (acked == 0))) result host.new course.new sending.new }
{
    let told = Told::Finished { acked: acked != 0 };
    tell_and_send(course, host, told, stops != 0, sending)
}

/// A request was sent, and these bytes came back, the read address first; none if there was no answer. And what is to be sent next,
/// as by `pm_course_after_write`. E0h, E9h, H4, E2h if no request is being sent; then nothing changes, and it is nothing.
#[unsafe(no_mangle)]
pub extern "C" fn pm_course_after_read(
    course: &mut CourseImage,
    host: &mut GuardImage,
    bytes: &[u8],
    stops: u8,
    sending: &mut SendingImage,
) -> HostStep
    ensures { HearsOnIn (not (stops == 0)) host.old course.old (Got bytes.now) result host.new course.new sending.new }
{
    tell_and_send(course, host, Told::Got(bytes), stops != 0, sending)
}

/// How a course ended; kind 0 if it goes on. E9h.
#[unsafe(no_mangle)]
pub extern "C" fn pm_course_ended(course: &CourseImage, end: &mut CourseEndImage) -> u8
    ensures number { result ≡ kept_number (course_in course.now) }
    ensures said { end.new ≡ end_answer (course_in course.now) end.old }
{
    let Some(asked) = course.course() else {
        return NO_COURSE;
    };
    *end = CourseEndImage::of(asked.end);
    ACCEPTED
}
