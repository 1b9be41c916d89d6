//! What comes next in a list of steps.

ghost use Rattle.std.specs.Prelude.{◌≡◌, ◌<◌, None};
ghost use Rattle.std.specs.Option.{option_copied};
ghost use Rattle.pm_host.specs.Image.{held};
ghost use Rattle.pm_stairs.specs.Sequence.{one_step_more as spec_one_more};
ghost use Rattle.pm_sequence.specs.Sequence.{act_of, after_of, afresh_with, ahead_act, ahead_after, survey_begun_anew, asked_of, job_begun_as, begun_with, delivery_due_by, due_in as spec_due_in, list_end_of as spec_end_of, found_at, fresh_after, gate as spec_gate, gated_act, gated_after, had_two as spec_had_two, is_at as spec_is_at, is_begin as spec_is_begin, is_fresh as spec_is_fresh, is_verdict_good as spec_is_good, is_read_for as spec_is_read_for, job_after, judged_after, judged_gate, look_before_step, looked_act, looked_after, may_leave as spec_may_leave, needs_look as spec_needs_look, new_sequence, on_count as spec_on_count, reached_act, reached_after, shown as spec_shown, spent_end as spec_spent_end, stopped_act, stopped_after, delivery_verdict_by, verdict_in as spec_verdict_in, with_list, Acts, Steps};

use crate::gate::{Gate, is_judged_order, is_on_order, is_order, is_untold, judge};
use crate::look::{Look, LookAct};
use crate::lowers::lowers;
use crate::step::Step;
use pm_course::{CourseEnd, FrameCourse};
use pm_delivery::{Delivery, DeliveryFault, Due, Question, Verdict};
use pm_host::{Job, State};
use pm_limits::{OutputLimits, PartRegisters};
use pm_rail::{PlanFault, Survey, power_in};
use pm_stairs::{Placed, Sequence as List, Sight, StepEnd, Turn, WordStep};
use pm_table::Code;

/// What is looked at.
#[derive(Clone, Copy, Debug, PartialEq, Eq)]
pub enum Phase {
    /// Nothing: what comes next is what the list says.
    Steps,
    /// What stands before the first order of an output.
    Before,
    /// What the rail of the step does that is over.
    After,
}

/// Whose survey began anew, with nothing sent since but its reads: an order that turns an output on begins only so.
#[derive(Clone, Copy, Debug, PartialEq, Eq)]
pub enum Fresh {
    /// None.
    Nothing,
    /// That of the step under way.
    Under,
    /// That of the first step ahead.
    Ahead,
}

/// How a sequence ended, or why a step was left.
#[derive(Clone, Copy, Debug, PartialEq, Eq)]
pub enum End {
    /// Each step is over, none was left, and each that has to deliver did after its last order.
    Reached,
    /// The list has come to its end, and left this many steps.
    Left(u16),
    /// The step stopped so.
    Stopped(StepEnd),
    /// The goal of the step is at or beyond a fault limit. It hasn't begun.
    Beyond(DeliveryFault),
    /// The goal can't be judged, since no format is known.
    Unjudged,
    /// The rail of the step does this.
    Does(Verdict),
}

/// What comes next.
#[derive(Clone, Copy, Debug, PartialEq, Eq)]
pub enum Act {
    /// This job, of the host at the place `list.host`.
    Job(Job),
    /// The first step ahead begins with this order, and this step undoes it.
    Begins(Job, WordStep),
    /// The first step ahead is over as it begins, and this step undoes it. Ask again.
    Passes(WordStep),
    /// This order is due, and begins if that is asked for again. Nothing has begun.
    Order(Job),
    /// To ask this of the output that is looked at, beside the host's jobs.
    Ask(Question),
    /// To read its OPERATION, beside the host's jobs.
    Probe,
    /// To wait before all is asked again.
    Pause,
    /// To wait so many milliseconds before the first step ahead.
    Wait(u32),
    /// To ask again, by the host at the place that is named now.
    Again,
    /// The way back of the first step ahead would be refused so. Asked again, the step begins.
    NoWayBack(PlanFault),
    /// The rail of the step that is over does what it is to. Ask again.
    Does(Verdict),
    /// The step was left so. Ask again.
    Leaves(End),
    /// Nothing: it has ended so.
    Ended(End),
}

/// How a list is carried out.
#[derive(Clone, Copy, Debug, PartialEq, Eq)]
pub struct Rules {
    /// Whether a way back is kept: OPERATION is read before a step that turns its output off, and a way back that would be refused is said.
    pub keeps_back: bool,
    /// Whether a restart of a part that was seen ends the list. Otherwise what it holds is learned anew, and the list goes on.
    pub ends_at_restart: bool,
    /// Whether a step that stops is left, and the next one goes on. Otherwise it ends the list, as a restart of a part does whatever this says.
    pub leaves: bool,
    /// Whether each order is told, by [`Act::Order`], before it begins.
    pub asks: bool,
}

/// How far a sequence has come. It is a plain value, and holds neither a host nor the list.
#[derive(Clone, Copy, Debug, PartialEq, Eq)]
pub struct Sequence {
    /// How far the list of steps has come.
    pub list: List,
    /// The look at a rail.
    pub look: Look,
    /// The place of the host whose output is looked at.
    pub look_host: u8,
    /// What is looked at.
    pub phase: Phase,
    /// Whether what stands before the first order was read, of the output that is looked at.
    pub is_read: bool,
    /// Whether the first step ahead may be asked: its wait is over, and so is all of the step before.
    pub is_shown: bool,
    /// Whether the wait of the first step ahead is over.
    pub is_waited: bool,
    /// Whether the rail of the step under way was looked at since its last order.
    pub is_looked: bool,
    /// Whether a step that stops is left.
    pub leaves: bool,
    /// Whether each order is told before it begins.
    pub asks: bool,
    /// The order that was told last, if nothing has begun since.
    pub told: Option<Job>,
    /// Whose survey is fresh.
    pub fresh: Fresh,
    /// How many orders that turn its output on the step under way had, two at most.
    pub turned_on: u8,
    /// Whether the step under way lowers an output that is on.
    pub lowers: bool,
    /// How many steps were left.
    pub left: u16,
    /// How it has ended.
    pub end: Option<End>,
}

impl Sequence {
    /// No step has begun. Each gets so many tries.
    pub fn new(tries: u16, rules: Rules) -> Sequence
        ensures { result ≡ new_sequence tries rules }
    {
        Sequence {
            list: List::new(tries, rules.keeps_back, rules.ends_at_restart),
            look: Look::new(Delivery::new(0, 0, 0, 0, 0)),
            look_host: 0,
            phase: Phase::Steps,
            is_read: false,
            is_shown: false,
            is_waited: false,
            is_looked: false,
            leaves: rules.leaves,
            asks: rules.asks,
            told: None,
            fresh: Fresh::Nothing,
            turned_on: 0,
            lowers: false,
            left: 0,
            end: None,
        }
    }

    /// What comes next by the host at the place `list.host`, if these are the newest step that has begun and the first one ahead.
    pub fn next<S: Sight>(&mut self, guard: &S, under: &Option<Step>, ahead: &Option<Step>) -> Act
        ensures { Acts (S.guarded guard.now) under.now ahead.now self.old result self.new }
    {
        let was = *self;
        self.next_from(&was, guard, under, ahead)
    }

    // As `next`, of a sequence that was this before, so that nothing is copied.
    pub(crate) fn next_from<S: Sight>(
        &mut self,
        was: &Sequence,
        guard: &S,
        under: &Option<Step>,
        ahead: &Option<Step>,
    ) -> Act
        requires { was.now ≡ self.old }
        ensures { Acts (S.guarded guard.now) under.now ahead.now self.old result self.new }
    {
        if let Some(end) = self.end {
            return Act::Ended(end);
        }
        match self.phase {
            Phase::Steps => self.steps(&was.list, guard, under, ahead),
            Phase::Before => self.looks(guard, under),
            Phase::After => self.looks(guard, under),
        }
    }

    // What the list says.
    fn steps<S: Sight>(
        &mut self,
        was: &List,
        guard: &S,
        under: &Option<Step>,
        ahead: &Option<Step>,
    ) -> Act
        requires { was.now ≡ self.old.list }
        ensures { Steps (S.guarded guard.now) under.now ahead.now self.old result self.new }
    {
        let shown = self.shown(ahead);
        let turn = self.list.next_from(was, guard, shown);
        self.goes(guard, under, ahead, turn, was)
    }

    // The first step ahead, if it may be asked.
    fn shown<'a>(&self, ahead: &'a Option<Step>) -> Option<&'a Placed>
        ensures { option_copied result ≡ spec_shown self.now ahead.now }
    {
        match ahead {
            Some(step) if self.is_shown => Some(&step.placed),
            _ => None,
        }
    }

    // What comes of what the list says, which was this before.
    fn goes<S: Sight>(
        &mut self,
        guard: &S,
        under: &Option<Step>,
        ahead: &Option<Step>,
        turn: Turn,
        was: &List,
    ) -> Act
        ensures act { result ≡ act_of (S.guarded guard.now) under.now ahead.now (with_list self.old was.now) turn self.old.list }
        ensures after { self.new ≡ after_of (S.guarded guard.now) under.now ahead.now (with_list self.old was.now) turn self.old.list }
    {
        match turn {
            Turn::Again => {
                if self.list.begun != was.begun {
                    self.begins();
                }
                Act::Again
            }
            Turn::Job(job) => {
                let gate = self.gate(guard, under, job, false);
                self.gated(guard, under, gate, job, Act::Job(job), was)
            }
            Turn::Begins(job, back) => {
                let gate = self.gate(guard, ahead, job, true);
                self.gated(guard, ahead, gate, job, Act::Begins(job, back), was)
            }
            Turn::Passes(back) => {
                self.begins();
                Act::Passes(back)
            }
            Turn::NoWayBack(fault) => Act::NoWayBack(fault),
            Turn::Reached => self.reached(under, ahead),
            Turn::Stops(why) => self.stops(End::Stopped(why)),
        }
    }

    // Whether a job that its list names of a step, which begins with it or not, may begin.
    fn gate<S: Sight>(&self, guard: &S, step: &Option<Step>, job: Job, begins: bool) -> Gate
        ensures { result ≡ spec_gate (S.guarded guard.now) self.now step.now job self.now.list begins }
    {
        match self.judged_gate(guard, step, job) {
            Gate::Goes if is_on_order(job) => {
                if !is_fresh(self.fresh, begins || self.list.stairs.reading) {
                    Gate::Blind
                } else if self.had_two(begins) {
                    Gate::Twice
                } else {
                    Gate::Goes
                }
            }
            gate => gate,
        }
    }

    // Whether the step of an order, which begins with it or not, had two that turn its output on.
    fn had_two(&self, begins: bool) -> bool
        ensures { result ≡ spec_had_two self.now begins }
    {
        !begins && 2 <= self.turned_on
    }

    // Whether a job of a step may begin, by what was read before.
    fn judged_gate<S: Sight>(&self, guard: &S, step: &Option<Step>, job: Job) -> Gate
        ensures { result ≡ judged_gate (S.guarded guard.now) self.now step.now job self.now.list.stairs.under }
    {
        match step {
            Some(step) if step.looks.is_wanted && is_judged_order(job) => {
                if self.is_read_for(step) {
                    judge(guard, &self.look.delivery, &self.list.stairs.under)
                } else {
                    Gate::Looks
                }
            }
            _ => Gate::Goes,
        }
    }

    // Whether it is the output of a step that is looked at, as the step asks for it.
    fn is_at(&self, step: &Step) -> bool
        ensures { result ≡ spec_is_at self.now step.now }
    {
        self.look_host == step.placed.host
            && step.is_of(&self.look.delivery)
            && step.stood_so(self.look.stood)
    }

    // Whether what stands before the first order of its output was read.
    fn is_read_for(&self, step: &Step) -> bool
        ensures { result ≡ spec_is_read_for self.now step.now }
    {
        self.is_read && self.is_at(step)
    }

    // What comes of a job that the list, which was this before, names of a step.
    fn gated<S: Sight>(
        &mut self,
        guard: &S,
        step: &Option<Step>,
        gate: Gate,
        job: Job,
        act: Act,
        was: &List,
    ) -> Act
        ensures act { result ≡ gated_act (asked_of (with_list self.old was.now) self.old.list (spec_is_begin act)) gate job act }
        ensures after { self.new ≡ gated_after (asked_of (with_list self.old was.now) self.old.list (spec_is_begin act)) step.now gate job
            (job_begun_as (S.guarded guard.now) self.old act job) }
    {
        match gate {
            Gate::Goes => {
                if is_untold(self.asks, self.told, job) {
                    self.asked(was, is_begin(&act));
                    self.told = Some(job);
                    return Act::Order(job);
                }
                self.begins_as(guard, &act, job);
                act
            }
            Gate::Looks => {
                self.asked(was, is_begin(&act));
                self.look_before(step);
                Act::Again
            }
            Gate::Beyond(fault) => {
                self.asked(was, is_begin(&act));
                self.stops(End::Beyond(fault))
            }
            Gate::Unjudged => {
                self.asked(was, is_begin(&act));
                self.stops(End::Unjudged)
            }
            Gate::Blind => {
                self.asked(was, is_begin(&act));
                self.surveys_anew();
                Act::Again
            }
            Gate::Twice => {
                self.asked(was, is_begin(&act));
                let end = self.spent_end();
                self.stops(end)
            }
        }
    }

    // The order would be the third that turns its output on.
    fn spent_end(&self) -> End
        ensures { result ≡ spec_spent_end self.now }
    {
        let fault = match &self.list.stairs.under {
            Some(under) => under.course.fault,
            None => None,
        };
        End::Stopped(StepEnd::Course(CourseEnd::Spent {
            code: Code::OPERATION,
            fault,
        }))
    }

    // The survey of the course that was asked begins anew.
    fn surveys_anew(&mut self)
        ensures { self.new ≡ afresh_with self.old }
    {
        if let Some(course) = self.list.course_open() {
            self.list.put_course(&surveyed_anew(course), false);
        }
        self.fresh = if self.list.stairs.reading {
            Fresh::Ahead
        } else {
            Fresh::Under
        };
    }

    // Nothing of what the list named begins: it is as before, but for which step was asked.
    fn asked(&mut self, was: &List, begins: bool)
        ensures { self.new ≡ asked_of (with_list self.old was.now) self.old.list begins }
    {
        let reading = begins || self.list.stairs.reading;
        self.list = *was;
        self.list.stairs.reading = reading;
    }

    // A job begins, as the first order of a step or otherwise.
    fn begins_as<S: Sight>(&mut self, guard: &S, act: &Act, job: Job)
        ensures { self.new ≡ job_begun_as (S.guarded guard.now) self.old act.now job }
    {
        match act {
            Act::Begins(..) => {
                self.begins();
                self.turned_on = on_count(0, job);
                self.lowers = lowers(guard, &self.list.stairs.under);
            }
            _ => self.after_job(job),
        }
    }

    // What stands before the first order of a step's output is looked at.
    fn look_before(&mut self, step: &Option<Step>)
        ensures { self.new ≡ look_before_step self.old step.now }
    {
        let Some(step) = step else {
            return;
        };
        self.look = Look::new(step.delivery_before());
        self.look_host = step.placed.host;
        self.is_read = false;
        self.phase = Phase::Before;
    }

    // A step has begun.
    fn begins(&mut self)
        ensures { self.new ≡ begun_with self.old self.old.list }
    {
        self.is_shown = false;
        self.is_waited = false;
        self.is_looked = false;
        self.told = None;
        self.fresh = Fresh::Nothing;
        self.turned_on = 0;
        self.lowers = false;
    }

    // A job of the step under way, or one that reads for the next one, has begun.
    fn after_job(&mut self, job: Job)
        ensures { self.new ≡ job_after self.old job self.old.list }
    {
        self.told = None;
        if is_order(job) {
            self.is_shown = false;
            self.is_looked = false;
            self.fresh = Fresh::Nothing;
            self.turned_on = on_count(self.turned_on, job);
        } else {
            self.fresh = kept_fresh(self.fresh, self.list.stairs.reading);
        }
    }

    // The step under way is over, and the next one isn't shown, or there is none.
    fn reached(&mut self, under: &Option<Step>, ahead: &Option<Step>) -> Act
        ensures act { result ≡ reached_act self.old under.now ahead.now self.old.list }
        ensures after { self.new ≡ reached_after self.old under.now ahead.now self.old.list }
    {
        match under {
            Some(step) if self.needs_look(step) => {
                if !self.is_at(step) {
                    self.look = Look::new(step.delivery());
                    self.look_host = step.placed.host;
                    self.is_read = false;
                }
                self.look.delivery.look_after(step.turns_off(), self.lowers);
                self.look.probe.asked = 0;
                self.look.probe.is_there = false;
                self.look.probe.is_off = false;
                self.look.probe.is_over = false;
                self.phase = Phase::After;
                Act::Again
            }
            _ => self.ahead(ahead),
        }
    }

    // Whether the rail of the step under way is still to be looked at.
    fn needs_look(&self, step: &Step) -> bool
        ensures { result ≡ spec_needs_look self.now step.now }
    {
        step.looks.is_wanted && !self.is_looked
    }

    // All of the step under way is over.
    fn ahead(&mut self, ahead: &Option<Step>) -> Act
        ensures act { result ≡ ahead_act self.old ahead.now }
        ensures after { self.new ≡ ahead_after self.old ahead.now }
    {
        match ahead {
            None => {
                let end = self.end_of();
                self.end = Some(end);
                Act::Ended(end)
            }
            Some(step) => {
                if step.wait == 0 || self.is_waited {
                    self.is_shown = true;
                    Act::Again
                } else {
                    self.is_waited = true;
                    self.fresh = Fresh::Nothing;
                    Act::Wait(step.wait)
                }
            }
        }
    }

    // How it ends once each step is over or was left.
    fn end_of(&self) -> End
        ensures { result ≡ spec_end_of self.now.left }
    {
        if self.left == 0 {
            End::Reached
        } else {
            End::Left(self.left)
        }
    }

    // A step stops so: it is left, or the list ends.
    pub(crate) fn stops(&mut self, end: End) -> Act
        ensures act { result ≡ stopped_act self.old end }
        ensures after { self.new ≡ stopped_after self.old end }
    {
        if !(self.leaves && may_leave(end)) {
            self.end = Some(end);
            return Act::Ended(end);
        }
        self.list.skip();
        self.left = one_more(self.left);
        self.phase = Phase::Steps;
        self.is_shown = false;
        self.is_waited = false;
        self.is_looked = true;
        self.told = None;
        self.fresh = Fresh::Nothing;
        Act::Leaves(end)
    }

    // What a look says.
    fn looks<S: Sight>(&mut self, guard: &S, under: &Option<Step>) -> Act
        ensures act { result ≡ looked_act (S.guarded guard.now) self.old under.now }
        ensures after { self.new ≡ looked_after (S.guarded guard.now) self.old under.now }
    {
        let due = self.due(guard);
        let act = self.look.next(guard.state().passes, due);
        self.fresh = Fresh::Nothing;
        match act {
            LookAct::Ask(question) => Act::Ask(question),
            LookAct::Probe => Act::Probe,
            LookAct::Pause => Act::Pause,
            LookAct::Again => Act::Again,
            LookAct::Restarted => self.stops(End::Stopped(StepEnd::Restarted)),
            LookAct::Over => {
                let verdict = self.verdict(guard);
                self.looked(under, verdict)
            }
        }
    }

    // What is due in the look.
    pub(crate) fn due<S: Sight>(&self, guard: &S) -> Due
        ensures { result ≡ spec_due_in (S.guarded guard.now) self.now.look.delivery }
    {
        let delivery = &self.look.delivery;
        if 8 <= delivery.output {
            return Due::Nothing;
        }
        due_seen(
            delivery,
            guard.state(),
            guard.registers(),
            &guard.limits(delivery.output),
        )
    }

    // What the rail does.
    fn verdict<S: Sight>(&self, guard: &S) -> Verdict
        ensures { result ≡ spec_verdict_in (S.guarded guard.now) self.now.look.delivery }
    {
        let delivery = &self.look.delivery;
        if 8 <= delivery.output {
            return Verdict::NotYet;
        }
        verdict_seen(
            delivery,
            guard.state(),
            guard.registers(),
            &guard.limits(delivery.output),
        )
    }

    // A look is over.
    fn looked(&mut self, under: &Option<Step>, verdict: Verdict) -> Act
        ensures act { result ≡ found_at self.old under.now verdict }
        ensures after { self.new ≡ judged_after self.old under.now verdict }
    {
        if self.phase == Phase::Before {
            self.phase = Phase::Steps;
            self.is_read = true;
            return Act::Again;
        }
        if is_good(under, verdict) {
            self.phase = Phase::Steps;
            self.is_looked = true;
            return Act::Does(verdict);
        }
        self.stops(End::Does(verdict))
    }
}

// Whether the first step ahead begins so.
pub(crate) fn is_begin(act: &Act) -> bool
    ensures { result ≡ spec_is_begin act.now }
{
    matches!(act, Act::Begins(..))
}

// Whether this survey is that of the first step ahead, or of the one under way.
fn is_fresh(fresh: Fresh, of_ahead: bool) -> bool
    ensures { result ≡ spec_is_fresh fresh of_ahead }
{
    match fresh {
        Fresh::Nothing => false,
        Fresh::Under => !of_ahead,
        Fresh::Ahead => of_ahead,
    }
}

// How many orders that turn its output on a step had, with this one, of two at most.
fn on_count(had: u8, job: Job) -> u8
    ensures { result ≡ spec_on_count had job }
{
    if !is_on_order(job) {
        had
    } else if had < 2 {
        had + 1
    } else {
        2
    }
}

// It, if the job that is sent is a read of its.
fn kept_fresh(fresh: Fresh, of_ahead: bool) -> Fresh
    ensures { result ≡ fresh_after fresh of_ahead }
{
    if is_fresh(fresh, of_ahead) {
        fresh
    } else {
        Fresh::Nothing
    }
}

// A course of which all is to be read once more.
fn surveyed_anew(course: FrameCourse) -> FrameCourse
    ensures { result ≡ survey_begun_anew course }
{
    let mut renewed = course;
    let survey = &course.course.survey;
    renewed.course.survey = Survey::new(survey.output, survey.plan, survey.left);
    renewed.course.ordered = false;
    renewed
}

// Whether a step that stopped so may be left: a restart of its part ends the list.
fn may_leave(end: End) -> bool
    ensures { result ≡ spec_may_leave end }
{
    !matches!(end, End::Stopped(StepEnd::Restarted))
}

// What is due of a delivery, by what is seen of a host.
fn due_seen(delivery: &Delivery, host: &State, part: PartRegisters, limits: &OutputLimits) -> Due
    requires { delivery.now.output < 8 }
    ensures { result ≡ delivery_due_by part limits.now (held None host.now) delivery.now }
{
    let reading = delivery.reading(host, part, limits);
    delivery.due(host.passes, power_in(host, delivery.output), reading)
}

// What the rail does, by what is seen of a host.
fn verdict_seen(
    delivery: &Delivery,
    host: &State,
    part: PartRegisters,
    limits: &OutputLimits,
) -> Verdict
    requires { delivery.now.output < 8 }
    ensures { result ≡ delivery_verdict_by part limits.now (held None host.now) delivery.now }
{
    let reading = delivery.reading(host, part, limits);
    delivery.verdict(host.passes, power_in(host, delivery.output), reading)
}

// Whether a rail does what it is to.
fn is_good(step: &Option<Step>, verdict: Verdict) -> bool
    ensures { result ≡ spec_is_good step.now verdict }
{
    let Some(step) = step else {
        return false;
    };
    let must = step.looks.must_deliver;
    match verdict {
        Verdict::Delivers | Verdict::DeliversByVoltage | Verdict::WentOff => true,
        Verdict::CommandedOff | Verdict::NotKnownOn => !must,
        Verdict::NotKnown(..) => step.is_unreadable() && !must,
        Verdict::PowerGoodAlone => step.looks.tells_power_good,
        _ => false,
    }
}

// One step more; a list has at most 65,535.
fn one_more(count: u16) -> u16
    ensures { result ≡ spec_one_more count }
{
    if count < 65535 { count + 1 } else { count }
}
