//! The machine that carries out steps, one after another.

ghost use Rattle.std.specs.Prelude.{◌≡◌, ◌<◌, true};
ghost use Rattle.std.specs.Option.{option_copied};
ghost use Rattle.pm_limits.specs.Guard.{limits_at};
ghost use Rattle.pm_stairs.specs.Due.{due_now, said_of as spec_said_of};
ghost use Rattle.pm_stairs.specs.Sequence.{GoesApart};
ghost use Rattle.pm_stairs.specs.Steps.{noted as spec_noted};
ghost use Rattle.pm_stairs.specs.Stairs.{ahead_move as spec_ahead_move, are_there as spec_are_there, begins_now as spec_begins_now, step_begun_with, coming_course, course_after, looked as spec_looked, no_output_refusal as spec_no_output, stairs_reading_for, stairs_new, trying as spec_trying, under_move as spec_under_move, AsksAhead, Goes, GoesAhead, GoesUnder, HasWords, SaysStep};

use crate::due::Due;
use crate::said::{Said, StepEnd, said_of};
use crate::sight::Sight;
use crate::step::{Step, WordStep};
use pm_course::{CourseEnd, CourseNext, FrameCourse, Refusal};
use pm_host::{HostFault, Job};
use pm_rail::{Course, Wanted};
use pm_table::Cell;

/// The step that is under way.
#[derive(Clone, Copy, Debug, PartialEq, Eq)]
pub struct Under {
    /// The step, in the words with which it began.
    pub step: WordStep,
    /// Its course.
    pub course: FrameCourse,
}

/// How far a list of steps has come. It is a plain value, and holds neither the guard nor the list.
#[derive(Clone, Copy, Debug, PartialEq, Eq)]
pub struct Stairs {
    /// The newest step that has begun.
    pub under: Option<Under>,
    /// The course of the first step ahead, once it has read something.
    pub coming: Option<FrameCourse>,
    /// Whether what was said last is of the first step ahead.
    pub reading: bool,
    /// Whether an answer showed that the part restarted or was exchanged, which ends all.
    pub restarted: bool,
}

/// What comes next.
#[derive(Clone, Copy, Debug, PartialEq, Eq)]
pub enum Move {
    /// This job, of the step under way or one that reads for the first step ahead.
    Job(Job),
    /// The first step ahead begins with this order, and this step undoes it.
    Begins(Job, WordStep),
    /// The first step ahead begins and is over at once, and this step undoes it. Ask again.
    Passes(WordStep),
    /// Nothing: each step is over.
    Reached,
    /// Nothing: the step under way stopped so, or if `reading` is set the first step ahead, which hasn't begun.
    Stops(StepEnd),
}

impl Stairs {
    /// No step has begun.
    pub fn new() -> Stairs
        ensures { result ≡ stairs_new }
    {
        Stairs {
            under: None,
            coming: None,
            reading: false,
            restarted: false,
        }
    }

    /// What comes next, if this is the first step ahead, which gets so many tries.
    pub fn next<S: Sight>(&mut self, guard: &S, ahead: Option<&Step>, tries: u16) -> Move
        ensures { Goes (S.guarded guard.now) tries (option_copied ahead.entry) self.old result self.new }
    {
        if self.restarted {
            return Move::Stops(StepEnd::Restarted);
        }
        if let Some(said) = self.under(guard) {
            return said;
        }
        match ahead {
            Some(step) => self.ahead(guard, step, tries),
            None => Move::Reached,
        }
    }

    /// What the first step ahead asks for, if the step under way is over by its own host.
    pub(crate) fn next_apart<S: Sight>(&mut self, guard: &S, step: &Step, tries: u16) -> Move
        ensures { GoesApart (S.guarded guard.now) tries step.now self.old result self.new }
    {
        if self.restarted {
            return Move::Stops(StepEnd::Restarted);
        }
        self.ahead(guard, step, tries)
    }

    // What the step under way asks for; nothing if it is over, or none has begun.
    fn under<S: Sight>(&mut self, guard: &S) -> Option<Move>
        ensures { GoesUnder (S.guarded guard.now) self.old result self.new }
    {
        self.reading = false;
        let Some(under) = &mut self.under else {
            return None;
        };
        if !are_there(guard, &under.step, &under.course) {
            return Some(Move::Stops(absent()));
        }
        let was = under.course;
        let said = ask(guard, true, &under.step, &was, &mut under.course);
        under_move(said)
    }

    // What the first step ahead asks for.
    fn ahead<S: Sight>(&mut self, guard: &S, step: &Step, tries: u16) -> Move
        ensures { GoesAhead (S.guarded guard.now) tries step.now self.old result self.new }
    {
        let mut course = self.coming_course(step, tries);
        match words_by(guard, &course) {
            Err(refusal) => {
                self.reads_for(&course);
                Move::Stops(StepEnd::Course(CourseEnd::Refused(refusal)))
            }
            Ok(words) => self.asks(guard, &step.with_words(words), &mut course),
        }
    }

    // What a first step ahead asks for, in words.
    fn asks<S: Sight>(&mut self, guard: &S, step: &WordStep, course: &mut FrameCourse) -> Move
        ensures { AsksAhead (S.guarded guard.now) step.now course.old self.old result self.new }
    {
        if !are_there(guard, step, course) {
            self.reads_for(course);
            return Move::Stops(absent());
        }
        let was = *course;
        let said = ask(guard, false, step, &was, course);
        if begins_now(said) {
            self.begins(step, course);
        } else {
            self.reads_for(course);
        }
        ahead_move(said, noted(guard, step))
    }

    // The course of the first step ahead: as far as it has come, or a new one.
    fn coming_course(&self, step: &Step, tries: u16) -> FrameCourse
        ensures { result ≡ coming_course self.now step.now tries }
    {
        match self.coming {
            Some(course) => course,
            None => step.course(tries),
        }
    }

    // A step begins.
    fn begins(&mut self, step: &WordStep, course: &FrameCourse)
        ensures { self.new ≡ step_begun_with self.old step.now course.now }
    {
        self.under = Some(Under {
            step: *step,
            course: *course,
        });
        self.coming = None;
        self.reading = false;
    }

    // The first step ahead has asked for something, and hasn't begun.
    fn reads_for(&mut self, course: &FrameCourse)
        ensures { self.new ≡ stairs_reading_for self.old course.now }
    {
        self.coming = Some(*course);
        self.reading = true;
    }
}

// What the step under way says of what comes next.
fn under_move(said: Said) -> Option<Move>
    ensures { result ≡ spec_under_move said }
{
    match said {
        Said::Orders(cell, word) => Some(Move::Job(Job::Order(cell, word))),
        Said::Reads(job) => Some(Move::Job(job)),
        Said::Looks(cell) => Some(Move::Job(Job::Check(cell))),
        Said::Over => None,
        Said::Stops(why) => Some(Move::Stops(why)),
    }
}

// What the first step ahead says of it, which this step undoes.
fn ahead_move(said: Said, back: WordStep) -> Move
    ensures { result ≡ spec_ahead_move back said }
{
    match said {
        Said::Orders(cell, word) => Move::Begins(Job::Order(cell, word), back),
        Said::Reads(job) => Move::Job(job),
        Said::Looks(cell) => Move::Job(Job::Check(cell)),
        Said::Over => Move::Passes(back),
        Said::Stops(why) => Move::Stops(why),
    }
}

// Whether it begins.
fn begins_now(said: Said) -> bool
    ensures { result ≡ spec_begins_now said }
{
    matches!(said, Said::Orders(..) | Said::Over)
}

// H4.
fn no_output() -> Refusal
    ensures { result ≡ spec_no_output }
{
    Refusal {
        number: HostFault::UnknownOutput.number(),
        register: None,
    }
}

fn absent() -> StepEnd
    ensures { result ≡ StepEnd.Course (CourseEnd.Refused spec_no_output) }
{
    StepEnd::Course(CourseEnd::Refused(no_output()))
}

// Whether the guard's host has the output of a step and that of its course, which are one.
fn are_there<S: Sight>(guard: &S, step: &WordStep, course: &FrameCourse) -> bool
    ensures is { result ≡ spec_are_there (S.guarded guard.now) step.now course.now }
    ensures step { result ≡ true → step.now.output < (S.guarded guard.now).host.setup.outputs }
    ensures course { result ≡ true → course.now.course.survey.output < (S.guarded guard.now).host.setup.outputs }
{
    let outputs = guard.state().outputs;
    step.output < outputs && course.course.survey.output < outputs
}

// The words of the wishes of a step, by the format that is known.
pub(crate) fn words_by<S: Sight>(guard: &S, course: &FrameCourse) -> Result<Wanted, Refusal>
    ensures { HasWords (S.guarded guard.now) course.now result }
{
    if course.course.survey.output < guard.state().outputs {
        course.words_now(guard.state())
    } else {
        Err(no_output())
    }
}

// What a step asks for, which has begun or begins now, and its course then, which was this before.
fn ask<S: Sight>(
    guard: &S,
    begun: bool,
    step: &WordStep,
    was: &FrameCourse,
    course: &mut FrameCourse,
) -> Said
    requires same { was.now ≡ course.old }
    requires step { step.now.output < (S.guarded guard.now).host.setup.outputs }
    requires course { course.old.course.survey.output < (S.guarded guard.now).host.setup.outputs }
    ensures { SaysStep (S.guarded guard.now) begun step.now course.old result course.new }
{
    let limits = guard.limits(course.course.survey.output);
    let next = course.next_in(guard.state(), guard.stage(), guard.registers(), &limits);
    let said = trying(was, said_by(guard, begun, step, &was.course, next));
    put_said(course, was, said);
    said
}

// What a step makes of what its course says. What is due is asked where that counts: what the course reads is read.
fn said_by<S: Sight>(
    guard: &S,
    begun: bool,
    step: &WordStep,
    course: &Course,
    next: CourseNext,
) -> Said
    requires { step.now.output < (S.guarded guard.now).host.setup.outputs }
    ensures { let g = S.guarded guard.now in
        result ≡ spec_said_of begun step.now.output course.now (due_now g.registers (limits_at g step.now.output) g.host step.now) next }
{
    match next {
        CourseNext::Job(Job::Check(cell)) => Said::Reads(Job::Check(cell)),
        CourseNext::Job(Job::Learn(output)) => Said::Reads(Job::Learn(output)),
        _ => said_of(begun, step.output, course, &due_by(guard, step), next),
    }
}

// What is due in a step by a guard.
fn due_by<S: Sight>(guard: &S, step: &WordStep) -> Due
    requires { step.now.output < (S.guarded guard.now).host.setup.outputs }
    ensures { result ≡ due_now (S.guarded guard.now).registers (limits_at (S.guarded guard.now) step.now.output) (S.guarded guard.now).host step.now }
{
    let limits = guard.limits(step.output);
    step.due(guard.state(), guard.stage(), guard.registers(), &limits)
}

// A look takes a try.
fn trying(course: &FrameCourse, said: Said) -> Said
    ensures { result ≡ spec_trying course.now said }
{
    match said {
        Said::Looks(cell) if course.course.survey.left == 0 => {
            Said::Stops(StepEnd::Course(CourseEnd::Spent {
                code: cell.code(),
                fault: course.fault,
            }))
        }
        _ => said,
    }
}

// The course of a step, which was this before, once it said so.
fn put_said(course: &mut FrameCourse, was: &FrameCourse, said: Said)
    ensures { course.new ≡ course_after was.now course.old said }
{
    match said {
        Said::Looks(cell) => {
            *course = *was;
            looks(course, cell);
        }
        Said::Over => *course = *was,
        Said::Orders(..) | Said::Reads(_) | Said::Stops(_) => {}
    }
}

// In the name of a course a cell is looked at.
fn looks(course: &mut FrameCourse, cell: Cell)
    ensures { course.new ≡ spec_looked course.old cell }
{
    course.course.survey.asked = Some(Job::Check(cell));
    course.course.survey.left = course.course.survey.left.saturating_sub(1);
}

// The step that undoes one that begins now.
fn noted<S: Sight>(guard: &S, step: &WordStep) -> WordStep
    requires { step.now.output < (S.guarded guard.now).host.setup.outputs }
    ensures { result ≡ spec_noted (S.guarded guard.now).host step.now }
{
    step.noted(guard.state())
}
