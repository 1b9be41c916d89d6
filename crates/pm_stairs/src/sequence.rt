//! A list of steps over the outputs of several parts.

ghost use Rattle.std.specs.Prelude.{◌≡◌, is_some};
ghost use Rattle.std.specs.Option.{option_copied};
ghost use Rattle.pm_stairs.specs.OpenCourse.{course_open as spec_course_open, is_job_at as spec_is_job_at};
ghost use Rattle.pm_stairs.specs.Sequence.{ahead_here as spec_ahead_here, asked_apart as spec_asked_apart, at_once, has_begun as spec_has_begun, heard_with, host_due as spec_host_due, is_at_once as spec_is_at_once, is_under as spec_is_under, off_at_once as spec_off_at_once, one_begun, one_step_more as spec_one_more, refused_back as spec_refused_back, refused_for as spec_refused_for, refused_in, sequence_new, skipped, step_stopped, turned, turned_after, with_stairs, Says, Turns};

use crate::said::StepEnd;
use crate::sight::Sight;
use crate::stairs::{Move, Stairs, Under};
use crate::step::{Act, Step, WordStep};
use crate::way_back::way_back_fault;
use pm_course::FrameCourse;
use pm_host::{Job, Stage};
use pm_rail::{PlanFault, Wanted};
use pm_table::Operation;

/// A step of one of several parts.
#[derive(Clone, Copy, Debug, PartialEq, Eq)]
pub struct Placed {
    /// The place of the part's host among the hosts.
    pub host: u8,
    /// The step.
    pub step: Step,
}

/// How far a list of steps over the outputs of several parts has come. It is a plain value, and holds neither a host nor the list.
///
/// Each question is one about the host at the place `host`, which the answer before has named.
#[derive(Clone, Copy, Debug, PartialEq, Eq)]
pub struct Sequence {
    /// How far the steps have come.
    pub stairs: Stairs,
    /// How many jobs each step has at most.
    pub tries: u16,
    /// How many steps have begun, or were left.
    pub begun: u16,
    /// The place of the host that is asked next.
    pub host: u8,
    /// The place of the host of the step under way.
    pub under_host: u8,
    /// Whether the step under way was over as its host was asked just now, and another one is asked for the first step ahead.
    pub is_free: bool,
    /// Whether it was said that the first step ahead has no way back.
    pub is_warned: bool,
    /// Whether a way back is kept: OPERATION is read before a step turns an output off, and a way back that would be refused is said.
    pub keeps_back: bool,
    /// Whether a restart of a part that was seen ends the list. Otherwise what it forgot is learned anew, and the list goes on.
    pub ends_at_restart: bool,
}

/// What comes next in a list of steps.
#[derive(Clone, Copy, Debug, PartialEq, Eq)]
pub enum Turn {
    /// This job, of the step under way or one that reads for the first step ahead.
    Job(Job),
    /// The first step ahead begins with this order, and this step undoes it.
    Begins(Job, WordStep),
    /// The first step ahead begins and is over at once, and this step undoes it. Ask again.
    Passes(WordStep),
    /// Ask again, by the host at the place that is named now.
    Again,
    /// The way back of the first step ahead would be refused so. Asked again, the step begins.
    NoWayBack(PlanFault),
    /// Nothing: each step is over.
    Reached,
    /// Nothing: the step under way stopped so, or if `reading` is set the first step ahead, which hasn't begun.
    Stops(StepEnd),
}

impl Sequence {
    /// No step has begun. Each gets so many tries.
    pub fn new(tries: u16, keeps_back: bool, ends_at_restart: bool) -> Sequence
        ensures { result ≡ sequence_new tries keeps_back ends_at_restart }
    {
        Sequence {
            stairs: Stairs::new(),
            tries,
            begun: 0,
            host: 0,
            under_host: 0,
            is_free: false,
            is_warned: false,
            keeps_back,
            ends_at_restart,
        }
    }

    /// What comes next by the host at the place `host`, if this is the first step ahead.
    pub fn next<S: Sight>(&mut self, guard: &S, ahead: &Option<Placed>) -> Turn
        ensures { Turns (S.guarded guard.now) ahead.now self.old result self.new }
    {
        let was = *self;
        self.next_from(&was, guard, ahead.as_ref())
    }

    /// As `next`, of a list that was this before, so that nothing is copied.
    pub fn next_from<S: Sight>(&mut self, was: &Sequence, guard: &S, ahead: Option<&Placed>) -> Turn
        requires { was.now ≡ self.old }
        ensures { Turns (S.guarded guard.now) (option_copied ahead.entry) self.old result self.new }
    {
        let due = self.host_due(ahead);
        if self.host == due {
            return self.asked(was, guard, ahead);
        }
        self.host = due;
        Turn::Again
    }

    // What comes next by the host that is the one to ask.
    fn asked<S: Sight>(&mut self, was: &Sequence, guard: &S, ahead: Option<&Placed>) -> Turn
        requires same { was.now ≡ self.old }
        requires due { self.old.host ≡ spec_host_due self.old (option_copied ahead) }
        ensures { Turns (S.guarded guard.now) (option_copied ahead.entry) self.old result self.new }
    {
        if let Some(step) = self.off_at_once(ahead) {
            self.begins_at_once(step);
            return Turn::Again;
        }
        let said = was.said(guard, ahead, &mut self.stairs);
        let refused = was.refused_for(guard, &said);
        self.goes(&was.stairs, ahead, &said, refused)
    }

    // What these stairs, which are its own, say, and become.
    fn said<S: Sight>(&self, guard: &S, ahead: Option<&Placed>, asked: &mut Stairs) -> Move
        requires { asked.old ≡ self.now.stairs }
        ensures { Says (S.guarded guard.now) (option_copied ahead.entry) self.now result asked.new }
    {
        match self.asked_apart(ahead) {
            Some(step) => asked.next_apart(guard, step, self.tries),
            None => asked.next(guard, self.ahead_here(ahead), self.tries),
        }
    }

    // The place of the host that is to be asked.
    fn host_due(&self, ahead: Option<&Placed>) -> u8
        ensures { result ≡ spec_host_due self.now (option_copied ahead.entry) }
    {
        if self.is_under(ahead) {
            return self.under_host;
        }
        match ahead {
            Some(placed) => placed.host,
            None => self.host,
        }
    }

    // Whether the step under way is asked first.
    fn is_under(&self, ahead: Option<&Placed>) -> bool
        ensures { result ≡ spec_is_under self.now (option_copied ahead.entry) }
    {
        self.stairs.under.is_some() && (!self.is_free || ahead.is_none())
    }

    // The first step ahead, if it is asked without the one under way, which is over.
    fn asked_apart<'a>(&self, ahead: Option<&'a Placed>) -> Option<&'a Step>
        ensures { option_copied result ≡ spec_asked_apart self.now (option_copied ahead.entry) }
    {
        match ahead {
            Some(placed) if self.is_free => Some(&placed.step),
            _ => None,
        }
    }

    // The first step ahead, if the host that is asked is its own and it doesn't begin at once.
    fn ahead_here<'a>(&self, ahead: Option<&'a Placed>) -> Option<&'a Step>
        ensures { option_copied result ≡ spec_ahead_here self.now (option_copied ahead.entry) }
    {
        match ahead {
            Some(placed) if placed.host == self.host && !self.is_at_once(&placed.step) => {
                Some(&placed.step)
            }
            _ => None,
        }
    }

    // Whether a step begins at once, with nothing read: one that turns an output off, if no way back is kept.
    fn is_at_once(&self, step: &Step) -> bool
        ensures { result ≡ spec_is_at_once self.now.keeps_back step.now.act }
    {
        match step.act {
            Act::Turns(byte) => !self.keeps_back && !Operation::has_on(byte),
            _ => false,
        }
    }

    // The first step ahead, if it begins at once now.
    fn off_at_once<'a>(&self, ahead: Option<&'a Placed>) -> Option<&'a Step>
        ensures { option_copied result ≡ spec_off_at_once self.now (spec_is_under self.now (option_copied ahead.entry)) (option_copied ahead.entry) }
    {
        match ahead {
            Some(placed) if !self.is_under(ahead) && self.is_at_once(&placed.step) => Some(
                &placed.step,
            ),
            _ => None,
        }
    }

    // A step begins before anything is asked.
    fn begins_at_once(&mut self, step: &Step)
        ensures { self.new ≡ one_begun self.old (at_once self.old.stairs step.now self.old.tries) }
    {
        self.stairs.under = Some(Under {
            step: step.with_words(Wanted::nothing()),
            course: step.course(self.tries),
        });
        self.stairs.coming = None;
        self.stairs.reading = false;
        self.begins();
    }

    // One step more has begun, of the host that was asked.
    fn begins(&mut self)
        ensures { self.new ≡ one_begun self.old self.old.stairs }
    {
        self.begun = one_more(self.begun);
        self.under_host = self.host;
        self.is_free = false;
        self.is_warned = false;
    }

    // What comes of what its stairs, which were these before, say, if the way back of the step that begins would be refused so.
    fn goes(
        &mut self,
        was: &Stairs,
        ahead: Option<&Placed>,
        said: &Move,
        refused: Option<PlanFault>,
    ) -> Turn
        ensures turn { result ≡ turned (option_copied ahead.entry) said.now refused }
        ensures after { self.new ≡ turned_after (option_copied ahead.entry) (with_stairs self.old was.now) said.now self.old.stairs refused }
    {
        match *said {
            Move::Job(job) => {
                self.is_free = false;
                Turn::Job(job)
            }
            Move::Begins(job, back) => {
                match refused {
                    Some(fault) => {
                        self.stairs = *was;
                        self.is_free = false;
                        self.is_warned = true;
                        Turn::NoWayBack(fault)
                    }
                    None => {
                        self.begins();
                        Turn::Begins(job, back)
                    }
                }
            }
            Move::Passes(back) => {
                self.begins();
                Turn::Passes(back)
            }
            Move::Reached => {
                match ahead {
                    Some(placed) => {
                        self.is_free = true;
                        self.host = placed.host;
                        Turn::Again
                    }
                    None => Turn::Reached,
                }
            }
            Move::Stops(why) => {
                self.is_free = false;
                Turn::Stops(why)
            }
        }
    }

    // Why the way back of the step that begins would be refused, if one begins.
    fn refused_for<S: Sight>(&self, guard: &S, said: &Move) -> Option<PlanFault>
        ensures { result ≡ spec_refused_for (S.guarded guard.now) self.now said.now }
    {
        match said {
            Move::Begins(_, back) => self.refused_back(guard, back),
            Move::Job(_) | Move::Passes(_) | Move::Reached | Move::Stops(_) => None,
        }
    }

    // Why the way back of the first step ahead would be refused, if one is kept and that wasn't said.
    fn refused_back<S: Sight>(&self, guard: &S, back: &WordStep) -> Option<PlanFault>
        ensures { result ≡ spec_refused_back (S.guarded guard.now) self.now back.now }
    {
        if !self.keeps_back || self.is_warned {
            None
        } else {
            way_back_fault(guard, back)
        }
    }

    /// The guard refuses what these stairs named: it is as it was, but for which step stopped.
    pub fn refuse(&mut self, named: &Sequence, begins: bool)
        ensures { self.new ≡ refused_in self.old named.now begins }
    {
        self.is_free = false;
        self.stairs.reading = begins || named.stairs.reading;
    }

    /// Whether the job that stands at this stage is the one that was named last.
    pub fn is_job_at(&self, stage: Stage) -> bool
        ensures { result ≡ spec_is_job_at self.now.stairs stage }
    {
        self.stairs.is_job_at(stage)
    }

    /// The course whose job was named last.
    pub fn course_open(&self) -> Option<FrameCourse>
        ensures { result ≡ spec_course_open self.now.stairs }
    {
        self.stairs.course_open()
    }

    /// Whether there is a course whose job was named last.
    pub fn has_course(&self) -> bool
        ensures { result ≡ is_some (spec_course_open self.now.stairs) }
    {
        self.stairs.has_course()
    }

    /// That course has become this one, and an answer showed that the part restarted or was exchanged, or didn't.
    pub fn put_course(&mut self, course: &FrameCourse, restarted: bool)
        ensures { self.new ≡ heard_with self.old course.now restarted }
    {
        self.stairs
            .put_course(course, restarted && self.ends_at_restart);
    }

    /// Whether what stopped is the step under way, and not the first one ahead.
    pub fn has_begun(&self) -> bool
        ensures { result ≡ spec_has_begun self.now }
    {
        self.stairs.under.is_some() && !self.stairs.reading
    }

    /// The place in the list of the step that stopped.
    pub fn step(&self) -> u16
        ensures { result ≡ step_stopped self.now }
    {
        if self.has_begun() && 0 < self.begun {
            self.begun - 1
        } else {
            self.begun
        }
    }

    /// The step that stopped is left: the next one goes on. None is under way then, whether it had begun or not.
    pub fn skip(&mut self)
        ensures { self.new ≡ skipped self.old }
    {
        if !self.has_begun() {
            self.begun = one_more(self.begun);
        }
        self.stairs.under = None;
        self.stairs.coming = None;
        self.stairs.reading = false;
        self.is_free = false;
        self.is_warned = false;
    }
}

// One step more; a list has at most 65,535.
fn one_more(begun: u16) -> u16
    ensures { result ≡ spec_one_more begun }
{
    if begun < 65535 { begun + 1 } else { begun }
}
