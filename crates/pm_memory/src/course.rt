//! A course of an output: it is made, hands out frames, and hears what became of them.

ghost use Rattle.std.specs.Prelude.{◌≡◌, ◌<◌, nat_lt, Some, IfOk, IfSome, OnOk};
ghost use Rattle.std.specs.Result.{result_err};
ghost use Rattle.pm_host.specs.Told.{entry_told};
ghost use Rattle.pm_memory.specs.Course.{job_image, memory_fault, stage_number, voltage_register, AcceptsIn, AreBoth, HandsOutIn, HearsIn, HearsOnIn, IsPut, WouldBegin};
ghost use Rattle.pm_memory.specs.Guard.{guard_of};
ghost use Rattle.pm_memory.specs.Hosted.{guard_in, IsThere};
ghost use Rattle.pm_memory.specs.CourseImage.{course_held, course_in};

use crate::host_step::{HostStep, no_step, step_after};
use crate::numbers::{ACCEPTED, ENDED, NO_COURSE, NO_HOST, OTHER_FRAME};
use crate::{CourseImage, GuardImage, SendingImage, job_numbers};
use pm_course::CourseNext;
use pm_host::{HostFault, Job, Stage, Told, transcripts_are_followed};
use pm_table::{Cell, Code, Reg, cell_of};

/// A job of a course, as plain numbers. It has no padding.
#[repr(C)]
#[derive(Clone, Copy, Debug)]
pub struct CourseJobImage {
    /// 0 none, 1 a learn, 2 a check, 3 an order.
    pub kind: u8,
    /// The command code of the cell of a check or an order, VOUT_MODE of a learn, otherwise 0.
    pub code: u8,
    /// The word of an order, otherwise 0.
    pub word: u16,
}

impl CourseJobImage {
    /// This job, or none.
    pub fn of(job: Option<Job>) -> CourseJobImage
        ensures { result ≡ job_image job }
    {
        let (kind, code, word) = job_numbers(job);
        CourseJobImage { kind, code, word }
    }
}

/// The register of a code, if it is a voltage.
pub fn voltage_of(code: u8) -> Option<Reg>
    ensures { result ≡ voltage_register code }
{
    match cell_of(Code(code), 0) {
        Some(Cell::Out(_, register)) if register.is_voltage() => Some(register),
        _ => None,
    }
}

// Whether a host has an output.
fn has_output(host: &GuardImage, output: u8) -> bool
    ensures { result ≡ nat_lt output host.now.host.state.outputs }
{
    output < host.host.state.outputs
}

// The stage of the host's open job; or the number of why the memories of a host and a course are refused.
fn read(course: &CourseImage, host: &GuardImage) -> Result<Option<Stage>, u8>
    ensures fault { result_err result ≡ memory_fault (guard_of host.now) (course_in course.now) }
    ensures there { OnOk result (IsThere host.now) }
    ensures stage { IfOk result (λ stage. stage ≡ (guard_in host.now).host.stage) }
    ensures both { OnOk result (AreBoth host.now course.now (guard_in host.now) (course_held course.now)) }
    ensures output { OnOk result (course.now.output < (guard_in host.now).host.setup.outputs) }
{
    let Ok(stage) = host.open_stage() else {
        return Err(NO_HOST);
    };
    if !course.is_course() {
        return Err(NO_COURSE);
    }
    if !has_output(host, course.output) {
        return Err(HostFault::UnknownOutput.number());
    }
    Ok(stage)
}

// The frame of the stage at which the host's open job stands, or nothing.
fn put(host: &GuardImage, at: Option<Stage>, sending: &mut SendingImage)
    requires there { IsThere host.now }
    requires open { IfSome at (λ stage. (guard_in host.now).host.stage ≡ Some stage) }
    ensures { IsPut (guard_in host.now) at sending.new }
{
    match at {
        Some(stage) => sending.put(host.host.state.address, &stage.message()),
        None => sending.clear(),
    }
}

// What is answered of a frame, or of none.
fn number_sent(at: Option<Stage>) -> u8
    ensures { result ≡ stage_number at }
{
    match at {
        Some(_) => ACCEPTED,
        None => ENDED,
    }
}

/// A host hears what became of its frame, and the course does if the frame is of its job.
pub fn tell(course: &mut CourseImage, host: &mut GuardImage, told: Told<'_>) -> HostStep
    ensures { HearsIn host.old course.old (entry_told told.entry) result host.new course.new }
{
    let stage = match read(course, host) {
        Ok(stage) => stage,
        Err(number) => return no_step(number),
    };
    let Some(at) = stage else {
        return no_step(OTHER_FRAME);
    };
    if !at.awaits(&told) {
        return no_step(OTHER_FRAME);
    }
    let mut asked = course.held();
    let address = host.host.state.address;
    let heard = asked.hear_by(host, at, told);
    course.write(&asked);
    step_after(heard.step, address, at, told)
}

/// A host hears what became of its frame, and the course does if the frame is of its job. What is to be sent next is handed out.
pub fn tell_and_send(
    course: &mut CourseImage,
    host: &mut GuardImage,
    told: Told<'_>,
    stops: bool,
    sending: &mut SendingImage,
) -> HostStep
    ensures { HearsOnIn stops host.old course.old (entry_told told.entry) result host.new course.new sending.new }
{
    let stage = match read(course, host) {
        Ok(stage) => stage,
        Err(number) => {
            sending.clear();
            return no_step(number);
        }
    };
    let Some(at) = stage else {
        sending.clear();
        return no_step(OTHER_FRAME);
    };
    if !at.awaits(&told) {
        sending.clear();
        return no_step(OTHER_FRAME);
    }
    let mut asked = course.held();
    let address = host.host.state.address;
    // law: nothing changes what a host was made with
    transcripts_are_followed();
    let heard = asked.hear_by(host, at, told);
    let step = step_after(heard.step, address, at, told);
    let next = asked.go_on(host, heard.stage, stops);
    course.write(&asked);
    put(host, next, sending);
    step
}

/// The work of `pm_course_accept`.
pub fn accept(course: &mut CourseImage, host: &GuardImage, microvolts: u32) -> u8
    ensures { AcceptsIn (guard_of host.now) course.old microvolts result course.new }
{
    let Ok(stage) = host.host.read_stage() else {
        return NO_HOST;
    };
    let Some(mut asked) = course.course() else {
        return NO_COURSE;
    };
    if !has_output(host, asked.course.survey.output) {
        return HostFault::UnknownOutput.number();
    }
    let limits = host.limits(asked.course.survey.output);
    match asked.accept_in(&host.host.state, stage, &limits, microvolts) {
        Ok(()) => {
            *course = CourseImage::of(&asked);
            ACCEPTED
        }
        Err(refusal) => refusal.number,
    }
}

/// The work of `pm_course_next`.
pub fn would_begin(course: &CourseImage, host: &GuardImage, next: &mut CourseJobImage) -> u8
    ensures { WouldBegin host.now course.now next.old result next.new }
{
    let stage = match read(course, host) {
        Ok(stage) => stage,
        Err(number) => return number,
    };
    let mut asked = course.held();
    match asked.next_at(host, stage) {
        CourseNext::Job(job) => {
            *next = CourseJobImage::of(Some(job));
            ACCEPTED
        }
        CourseNext::Ended(_) => {
            *next = CourseJobImage::of(None);
            ENDED
        }
    }
}

/// The work of `pm_course_frame`.
pub fn hand_out(course: &mut CourseImage, host: &mut GuardImage, sending: &mut SendingImage) -> u8
    ensures { HandsOutIn host.old course.old result host.new course.new sending.new }
{
    let stage = match read(course, host) {
        Ok(stage) => stage,
        Err(number) => {
            sending.clear();
            return number;
        }
    };
    let mut asked = course.held();
    let at = asked.hand_out(host, stage);
    course.write(&asked);
    put(host, at, sending);
    number_sent(at)
}
