//! An open job, and a course, frame by frame.

ghost use Rattle.std.specs.Prelude.{◌≡◌, ◌<◌, List, [], is_some, MatchOption, false, true};
ghost use Rattle.pm_host.specs.Frames.{frames_left};
ghost use Rattle.pm_host.specs.Refusals.{is_busy};
ghost use Rattle.pm_host.specs.Told.{OnEnded};
ghost use Rattle.pm_driver.specs.Courses.{Carries, KeepsTo, RunsCourse};
ghost use Rattle.pm_driver.specs.Lives.{Leads};
ghost use Rattle.pm_driver.specs.Steps.{end_in_step, StaysOpen};

use crate::bus::Bus;
use crate::laws::{frames_lead, laws_of_lives, leads_compose};
use pm_course::{CourseEnd, FrameCourse};
use pm_host::{JobEnd, Step, Told, Turn, transcripts_are_followed};
use pm_limits::Guard;
use pm_rail::courses_end;

/// Carries the open job of a host with its limits out. It answers how the job ended; `None` exactly if no job was open
/// (`some`).
///
/// Each frame is sent by one call of the bus, and the host hears what that call answered (`leads`). No frame is
/// left then (`over`), the limits stay, and the host stays that of its converter (`kept`).
pub fn carry_out<B: Bus>(guard: &mut Guard, bus: &mut B) -> Option<JobEnd>
    ensures leads { Leads B.gives B.held B.restarts [] result
        (record { host = guard.old.host; bus = bus.old }) (record { host = guard.new.host; bus = bus.new }) }
    ensures some { is_some result ≡ is_busy guard.old.host }
    ensures over { frames_left guard.new.host ≡ 0 }
    ensures limits { guard.new.limits ≡ guard.old.limits }
    ensures registers { guard.new.registers ≡ guard.old.registers }
    ensures kept { guard.new.host.setup ≡ guard.old.host.setup }
{
    leads_compose::<B>();
    'frames: loop {
        match send(guard, bus) {
            None => return None,
            Some(Step::Next) => {}
            Some(Step::Ended(end)) => return Some(end),
        }
    }
}

// Sends one frame, and lets the host hear what came of it; `None` if no job is open.
fn send<B: Bus>(guard: &mut Guard, bus: &mut B) -> Option<Step>
    ensures leads { Leads B.gives B.held B.restarts [] (end_in_step result)
        (record { host = guard.old.host; bus = bus.old }) (record { host = guard.new.host; bus = bus.new }) }
    ensures some { is_some result ≡ is_busy guard.old.host }
    ensures open { StaysOpen result guard.new.host }
    ensures left { MatchOption result (frames_left guard.new.host ≡ 0)
        (λ step. frames_left guard.new.host < frames_left guard.old.host) }
    ensures over { MatchOption result (frames_left guard.new.host ≡ 0)
        (λ step. OnEnded step (frames_left guard.new.host ≡ 0)) }
    ensures limits { guard.new.limits ≡ guard.old.limits }
    ensures registers { guard.new.registers ≡ guard.old.registers }
    ensures kept { guard.new.host.setup ≡ guard.old.host.setup }
{
    frames_lead::<B>();
    let mut answer = [0; 8];
    let step = match guard.turn() {
        Turn::Idle => return None,
        Turn::Write(packet) => {
            let acked = bus.write(packet.as_slice());
            guard.told(Told::Finished { acked })
        }
        Turn::Request { frame, bytes } => {
            // A buffer that keeps the last answer is how a read that never happened gets believed.
            let room = &mut answer[..bytes];
            let count = bus.read(frame.as_slice(), room);
            guard.told(Told::Got(&room[..count]))
        }
    };
    Some(step)
}

/// Carries a course out, frame after frame, until it has ended. It answers how.
///
/// No job is open (`idle`). Each job that the course says is begun, each of its frames is sent by one call of the bus, and the
/// host and the course hear what that call answered.
pub(crate) fn carry_course<B: Bus>(
    guard: &mut Guard,
    bus: &mut B,
    course: &mut FrameCourse,
) -> CourseEnd
    requires idle { is_busy guard.old.host ≡ false }
    requires there { course.old.course.survey.output < guard.old.host.setup.outputs }
    ensures { RunsCourse B.gives B.held B.restarts (record { guard = guard.old; bus = bus.old }) course.old result
        (record { guard = guard.new; bus = bus.new }) course.new }
{
    laws_of_lives();
    // law: each job takes a try
    courses_end();
    'jobs: loop {
        match course.frame(guard) {
            // The host shows this frame as the first of the job.
            Some(_) => carry_job(guard, bus, course),
            None => match course.end() {
                Some(end) => return end,
                None => unreachable!(),
            },
        }
    }
}

// Carries the open job of a course out.
fn carry_job<B: Bus>(guard: &mut Guard, bus: &mut B, course: &mut FrameCourse)
    requires { is_busy guard.old.host ≡ true }
    ensures carries { Carries B.gives B.held B.restarts guard.old.registers course.old true (record { host = guard.old.host; bus = bus.old })
        course.new false (record { host = guard.new.host; bus = bus.new }) }
    ensures idle { is_busy guard.new.host ≡ false }
    ensures keeps { KeepsTo guard.old course.old guard.new course.new }
{
    'frames: loop {
        match guard.host().stage() {
            None => return,
            Some(_) => send_for(guard, bus, course),
        }
    }
}

// Sends one frame of a course's open job, and lets the host and the course hear what came of it.
fn send_for<B: Bus>(guard: &mut Guard, bus: &mut B, course: &mut FrameCourse)
    requires { is_busy guard.old.host ≡ true }
    ensures carries { Carries B.gives B.held B.restarts guard.old.registers course.old true (record { host = guard.old.host; bus = bus.old })
        course.new (is_busy guard.new.host) (record { host = guard.new.host; bus = bus.new }) }
    ensures left { frames_left guard.new.host < frames_left guard.old.host }
    ensures keeps { KeepsTo guard.old course.old guard.new course.new }
{
    laws_of_lives();
    // law: an entry leaves what a host was made for
    transcripts_are_followed();
    // law: what became of a frame takes no try
    courses_end();
    // law: the host's state is sound, which is its invariant
    let _ = guard.host().state();
    let mut answer = [0; 8];
    match guard.turn() {
        Turn::Idle => unreachable!(),
        Turn::Write(packet) => {
            let acked = bus.write(packet.as_slice());
            let _ = course.write_ended(guard, acked);
        }
        Turn::Request { frame, bytes } => {
            let room = &mut answer[..bytes];
            let count = bus.read(frame.as_slice(), room);
            let _ = course.read_ended(guard, &room[..count]);
        }
    }
}
