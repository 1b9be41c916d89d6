//! A course: a survey, the orders of a plan, and the reads after them.

ghost use Rattle.std.specs.Prelude.{◌≡◌, ◌<◌, None, Some};
ghost use Rattle.pm_host.specs.Image.{held};
ghost use Rattle.pm_limits.specs.Guard.{limits_at};
ghost use Rattle.pm_rail.specs.Survey.{due_job};
ghost use Rattle.pm_rail.specs.Course.{BeginsNext, after_next, course_of, going_to, is_carried_out as spec_is_carried_out, is_operation_known as spec_is_operation_known, next_of, once_more as spec_once_more, order_next as spec_order_next, ordering, power_course_of, power_next as spec_power_next, survey_or_order, renewed, says as spec_says, survey_course_of, taking, told_of};

use crate::apply_end::{ApplyEnd, StopCause};
use crate::fault::PlanFault;
use crate::next::Next;
use crate::orders::{Plan, PlanOrder, next_order_in};
use crate::refusals::refuse_missing;
use crate::survey::{Reads, Survey, wanted_of};
use crate::wanted::Wanted;
use pm_host::{Job, JobEnd, Stage, State};
use pm_limits::{Guard, LimitFault, OutputLimits, PartRegisters};
use pm_table::{Cell, Operation, Reg};

/// An order of a register that differed, and the word that was read.
#[derive(Clone, Copy, Debug, PartialEq, Eq)]
pub struct Differing {
    /// The register.
    pub register: Reg,
    /// The word that was read.
    pub word: u16,
}

/// How far an output's way to its settings has come.
#[derive(Clone, Copy, Debug, PartialEq, Eq)]
pub struct Course {
    /// What is read next, how many tries are left, and the job that was named and of whose end it didn't hear.
    pub survey: Survey,
    /// The byte that is wanted of OPERATION, if the course is to one.
    pub byte: Option<u16>,
    /// Whether something was ordered since the survey began.
    pub ordered: bool,
    /// Whether an order was read back as it was given.
    pub done: bool,
    /// The registers of which an order differed once.
    pub differed: Reads,
    /// The order that differed a second time, if one did.
    pub twice: Option<Differing>,
}

impl Course {
    /// The way to wanted words, by this many jobs at most.
    pub fn new(output: u8, wanted: Wanted, tries: u16) -> Course
        ensures { result ≡ course_of output wanted tries }
    {
        Course {
            survey: Survey::new(output, Some(wanted), tries),
            byte: None,
            ordered: false,
            done: false,
            differed: Reads::nothing(),
            twice: None,
        }
    }

    /// The way to nothing, which is a survey of what the output commands: it orders nothing, and has reached its end once all
    /// of that is known, by `courses_end`.
    pub fn survey(output: u8, tries: u16) -> Course
        ensures { result ≡ survey_course_of output tries }
    {
        Course {
            survey: Survey::new(output, None, tries),
            byte: None,
            ordered: false,
            done: false,
            differed: Reads::nothing(),
            twice: None,
        }
    }

    /// The way to a byte of OPERATION, by this many jobs at most. A byte that turns the output off is ordered at once,
    /// whatever is known, and nothing else is read: its way ends `Reached` once that order was read back. A byte that leaves the
    /// output on is ordered after a survey of what the output commands, unless OPERATION is known to be it then.
    pub fn power(output: u8, byte: u16, tries: u16) -> Course
        ensures { result ≡ power_course_of output byte tries }
    {
        Course {
            survey: Survey::new(output, None, tries),
            byte: Some(byte),
            ordered: false,
            done: false,
            differed: Reads::nothing(),
            twice: None,
        }
    }

    /// What to do next, by what the guard's host knows and within the output's limits.
    pub fn next(&mut self, guard: &Guard) -> Next
        requires { self.old.survey.output < guard.now.host.setup.outputs }
        ensures says { result ≡ next_of guard.now.registers (limits_at guard.now self.old.survey.output) guard.now.host self.old }
        ensures after { self.new ≡ after_next guard.now.registers (limits_at guard.now self.old.survey.output) guard.now.host self.old }
    {
        let host = guard.host();
        let limits = guard.limits(self.survey.output);
        self.next_in(host.state(), host.stage(), guard.registers(), &limits)
    }

    /// What to do next, by the state beside the open job, of a part with these registers, by these limits. The output's
    /// number is below 8.
    pub fn next_in(
        &mut self,
        host: &State,
        stage: Option<Stage>,
        part: PartRegisters,
        limits: &OutputLimits,
    ) -> Next
        requires { self.old.survey.output < 8 }
        ensures says { result ≡ next_of part limits.now (held stage host.now) self.old }
        ensures after { self.new ≡ after_next part limits.now (held stage host.now) self.old }
    {
        if self.is_carried_out(host, stage, part, limits) {
            self.once_more();
        }
        let next = self.says(host, stage, part, limits);
        if let Next::Job(job) = next {
            self.survey.asked = Some(job);
            self.survey.left = self.survey.left.saturating_sub(1);
            self.ordered = self.ordered || matches!(job, Job::Order(..));
        }
        next
    }

    /// Asks what is next and begins it, so that nothing comes in between. The guard refuses no job of a way to wanted words, by
    /// `courses_end`; an order of OPERATION it may refuse, with L2, L5, L7, L8 or H5, which changes nothing.
    pub fn begin(&mut self, guard: &mut Guard) -> Result<Next, LimitFault>
        requires { self.old.survey.output < guard.old.host.setup.outputs }
        ensures begins { BeginsNext guard.old self.old guard.new result self.new }
    {
        let mut asked = *self;
        match asked.next(guard) {
            Next::Ended(end) => {
                *self = asked;
                Ok(Next::Ended(end))
            }
            Next::Job(job) => match guard.begin(job) {
                Err(fault) => Err(fault),
                Ok(()) => {
                    *self = asked;
                    Ok(Next::Job(job))
                }
            },
        }
    }

    /// How the job ended that `next` named. Nothing that the job read counts until this call; `next` without it goes
    /// on from what the host knows.
    pub fn told(&mut self, end: JobEnd)
        ensures { self.new ≡ told_of self.old end }
    {
        match (self.survey.asked, end) {
            (Some(Job::Order(Cell::Out(_, register), _)), JobEnd::Differs(word)) => {
                self.twice = if self.differed.has(register) {
                    Some(Differing { register, word })
                } else {
                    None
                };
                self.differed = self.differed.and(Cell::Out(0, register));
            }
            (Some(Job::Order(..)), JobEnd::Done) => self.done = true,
            _ => {}
        }
        self.survey.told(end);
    }

    // Whether all is to be read once more.
    fn is_carried_out(
        &self,
        host: &State,
        stage: Option<Stage>,
        part: PartRegisters,
        limits: &OutputLimits,
    ) -> bool
        requires { self.now.survey.output < 8 }
        ensures { result ≡ spec_is_carried_out part limits.now (held stage host.now) self.now }
    {
        self.ordered
            && self.twice.is_none()
            && self.survey.is_done_in(host, part)
            && matches!(self.order_next(host, stage, part, limits), Ok(None))
    }

    // All is read once more.
    fn once_more(&mut self)
        ensures { self.new ≡ spec_once_more self.old }
    {
        self.survey = Survey::new(self.survey.output, self.survey.plan, self.survey.left);
        self.ordered = false;
    }

    // The next order by what is known.
    fn order_next(
        &self,
        host: &State,
        stage: Option<Stage>,
        part: PartRegisters,
        limits: &OutputLimits,
    ) -> Result<Option<PlanOrder>, PlanFault>
        requires { self.now.survey.output < 8 }
        ensures { result ≡ spec_order_next part limits.now (held stage host.now) self.now }
    {
        let output = self.survey.output;
        match self.byte {
            None if self.survey.plan.is_none() && self.survey.is_done_in(host, part) => Ok(None),
            None => {
                let wanted = wanted_of(self.survey.plan);
                next_order_in(host, stage, part, limits, &Plan { output, wanted })
            }
            Some(_) if stage.is_some() => Err(PlanFault::Busy),
            Some(byte) => self.power_next(host, part, byte),
        }
    }

    // The next order of a course to a byte of OPERATION, if no job is open.
    fn power_next(
        &self,
        host: &State,
        part: PartRegisters,
        byte: u16,
    ) -> Result<Option<PlanOrder>, PlanFault>
        requires { self.now.survey.output < 8 }
        ensures { result ≡ spec_power_next part (held None host.now) self.now.survey byte }
    {
        let output = self.survey.output;
        if !is_operation_known(host, output, byte) {
            let register = Reg::Operation;
            return Ok(Some(PlanOrder {
                register,
                word: byte,
            }));
        }
        if self.survey.is_done_in(host, part) {
            return Ok(None);
        }
        let selected = Operation::selected_register(byte);
        Err(PlanFault::NotKnown(Cell::Out(output, selected)))
    }

    // What it says as it is.
    fn says(
        &self,
        host: &State,
        stage: Option<Stage>,
        part: PartRegisters,
        limits: &OutputLimits,
    ) -> Next
        requires { self.now.survey.output < 8 }
        ensures { result ≡ spec_says part limits.now (held stage host.now) self.now }
    {
        if stage.is_some() {
            return stopped(StopCause::Refused(PlanFault::Busy));
        }
        match self.twice {
            Some(differs) => stopped(StopCause::Differs(differs.register, differs.word)),
            None => self.going(host, part, limits),
        }
    }

    // What the course says while no order differed a second time, and no job is open.
    fn going(&self, host: &State, part: PartRegisters, limits: &OutputLimits) -> Next
        requires { self.now.survey.output < 8 }
        ensures { result ≡ going_to part limits.now (held None host.now) self.now self.now.byte }
    {
        match self.byte {
            None => match refuse_missing(part, &wanted_of(self.survey.plan)) {
                Some(fault) => stopped(StopCause::Refused(fault)),
                None => self.reading(host, part, limits),
            },
            Some(byte) if Operation::has_on(byte) => self.reading(host, part, limits),
            Some(_) if self.done => Next::Ended(ApplyEnd::Reached),
            Some(byte) => {
                let cell = Cell::Out(self.survey.output, Reg::Operation);
                self.taking(Job::Order(cell, byte))
            }
        }
    }

    // What the survey asks for, or the next order.
    fn reading(&self, host: &State, part: PartRegisters, limits: &OutputLimits) -> Next
        requires { self.now.survey.output < 8 }
        ensures { let s = held None host.now in
            result ≡ survey_or_order part limits.now s self.now (due_job part self.now.survey s) }
    {
        match self.survey.due(host, part) {
            Some(job) => self.taking(job),
            None => self.ordering(self.order_next(host, None, part, limits)),
        }
    }

    // What the course says once the survey asks for nothing more, by the next order.
    fn ordering(&self, order: Result<Option<PlanOrder>, PlanFault>) -> Next
        ensures { result ≡ ordering self.now order }
    {
        match order {
            Err(fault) => stopped(StopCause::Refused(fault)),
            Ok(None) => Next::Ended(ApplyEnd::Reached),
            Ok(Some(order)) => {
                let cell = Cell::Out(self.survey.output, order.register);
                self.taking(Job::Order(cell, order.word))
            }
        }
    }

    // This job, if a try is left.
    fn taking(&self, job: Job) -> Next
        ensures { result ≡ taking self.now job }
    {
        if self.survey.left == 0 {
            stopped(StopCause::Spent(job))
        } else {
            Next::Job(job)
        }
    }
}

// It stopped so.
fn stopped(why: StopCause) -> Next
    ensures { result ≡ Next.Ended (ApplyEnd.Stopped why) }
{
    Next::Ended(ApplyEnd::Stopped { why })
}

// Whether OPERATION is known to be this byte.
fn is_operation_known(host: &State, output: u8, byte: u16) -> bool
    requires { output < 8 }
    ensures { result ≡ spec_is_operation_known (held None host.now) output byte }
{
    let cell = Cell::Out(output, Reg::Operation);
    match host.known.possible(cell).listed() {
        Some([word]) => cell.accepts(*word) && *word == byte,
        _ => false,
    }
}
