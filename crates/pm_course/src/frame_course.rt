//! A course that hands out frames, one after another.

ghost use Rattle.std.specs.Prelude.{◌≡◌, ◌<◌, None, Some, Ok};
ghost use Rattle.pm_host.specs.Image.{held};
ghost use Rattle.pm_limits.specs.Guard.{limits_at};
ghost use Rattle.pm_rail.specs.Known.{sole};
ghost use Rattle.pm_host.specs.Summary.{possible_at};
ghost use Rattle.pm_table.specs.Cell.{IsCell};
ghost use Rattle.pm_course.specs.Ends.{end_of as spec_end_of};
ghost use Rattle.pm_course.specs.FrameCourse.{asked_for as spec_asked_for, asking_for as spec_asking_for, is_turning as spec_is_turning, last_end as spec_last_end, planning, protect_in as spec_protect_in, source_in as spec_source_in, source_of as spec_source_of, to_byte, to_survey, to_wishes, wanting, with_plan, SaysNext};
ghost use Rattle.pm_course.specs.Frames.{SaysBy};
ghost use Rattle.pm_course.specs.FrameCourse as specs;

use crate::answer_fault::AnswerFault;
use crate::course_end::{CourseEnd, CourseNext, Refusal, code_of};
use crate::hosted::Hosted;
use crate::voltages::Voltages;
use crate::wish::Wishes;
use pm_host::{Job, Stage, State};
use pm_limits::{OutputLimits, PartRegisters};
use pm_rail::{ApplyEnd, Course, Next, PlanFault, StopCause, Wanted};
use pm_table::{Cell, Operation, Reg, is_allowed};

/// One way to a voltage, frame after frame. It is a plain value, and holds no guard.
///
/// While [`FrameCourse::frame`] hands out a frame, send it and tell [`FrameCourse::told`] what became of it. Begin no order of the
/// output and no restore meanwhile.
#[derive(Clone, Copy, Debug, PartialEq, Eq)]
pub struct FrameCourse {
    /// The way, and the words that are wanted as such.
    pub course: Course,
    /// The voltages that are wanted.
    pub voltages: Voltages,
    /// What was wrong with the last answer.
    pub fault: Option<AnswerFault>,
    /// How it has ended.
    pub end: Option<CourseEnd>,
}

impl FrameCourse {
    /// The way to what is wanted, by this many jobs at most.
    pub fn new(output: u8, wishes: &Wishes, tries: u16) -> FrameCourse
        ensures { result ≡ to_wishes output wishes.now tries }
    {
        begun(
            Course::new(output, wishes.words(), tries),
            wishes.voltages(),
        )
    }

    /// The way to nothing, which is a survey of what the output commands.
    pub fn survey(output: u8, tries: u16) -> FrameCourse
        ensures { result ≡ to_survey output tries }
    {
        begun(Course::survey(output, tries), Voltages::nothing())
    }

    /// The way to a byte of OPERATION. A byte that turns the output off is ordered at once. WRITE_PROTECT is read before a byte
    /// that leaves it on is ordered, and P7 refuses the byte if that doesn't allow it. The register that the byte selects is
    /// read, too, by which limits judge it.
    pub fn power(output: u8, byte: u16, tries: u16) -> FrameCourse
        ensures { result ≡ to_byte output byte tries }
    {
        begun(Course::power(output, byte, tries), Voltages::nothing())
    }

    /// A voltage is wanted of one more register, by a course to wanted words; of OPERATION nothing is.
    pub fn want(&mut self, register: Reg, microvolts: i64)
        ensures { self.new ≡ wanting self.old register microvolts }
    {
        self.voltages = self.voltages.with(register, microvolts);
    }

    /// How it has ended; `None` while it goes on. H3 is no last end: the course goes on once the open job has ended.
    pub fn end(&self) -> Option<CourseEnd>
        ensures { result ≡ self.now.end }
    {
        self.end
    }

    /// What it would begin now, or how it would end. It changes nothing.
    pub fn next<H: Hosted>(&self, host: &H) -> CourseNext
        requires there { H.is_there host.now }
        requires output { self.now.course.survey.output < (H.guarded host.now).host.setup.outputs }
        ensures { specs.WouldSay (H.guarded host.now).registers (limits_at (H.guarded host.now) self.now.course.survey.output) (H.guarded host.now).host self.now result }
    {
        let mut asked = *self;
        asked.next_at(host, host.stage())
    }

    /// What to do next, by what a host knows whose open job stands at this stage, and within the output's limits.
    pub fn next_at<H: Hosted>(&mut self, host: &H, stage: Option<Stage>) -> CourseNext
        requires there { H.is_there host.now }
        requires stage { stage ≡ (H.guarded host.now).host.stage }
        requires output { self.old.course.survey.output < (H.guarded host.now).host.setup.outputs }
        ensures { SaysBy (H.guarded host.now) self.old result self.new }
    {
        let limits = host.limits(self.course.survey.output);
        let part = host.registers();
        self.next_in(host.state(), stage, part, &limits)
    }

    /// What to do next, by the state beside the open job, of a part with these registers, by these limits. The output's
    /// number is below 8.
    pub fn next_in(
        &mut self,
        host: &State,
        stage: Option<Stage>,
        part: PartRegisters,
        limits: &OutputLimits,
    ) -> CourseNext
        requires { self.old.course.survey.output < 8 }
        ensures { SaysNext part limits.now (held stage host.now) self.old result self.new }
    {
        let words = self.words_now(host);
        if let Some(end) = self.last_end() {
            return self.ends(end);
        }
        if stage.is_some() {
            return self.ends(CourseEnd::busy());
        }
        if let Some(refusal) = self.missing(part) {
            return self.ends(CourseEnd::Refused(refusal));
        }
        if let Some(byte) = self.source(host) {
            return self.ends(CourseEnd::OtherSource(byte));
        }
        match words {
            Ok(words) => self.next_to(host, part, limits, &words),
            Err(refusal) => self.ends(CourseEnd::Refused(refusal)),
        }
    }

    // What to do next to come to these words, if no job is open.
    fn next_to(
        &mut self,
        host: &State,
        part: PartRegisters,
        limits: &OutputLimits,
        words: &Wanted,
    ) -> CourseNext
        requires { self.old.course.survey.output < 8 }
        ensures next { let s = held None host.now in
            result ≡ (specs.saying_planned part limits.now s self.old (Ok words.now)).next }
        ensures after { let s = held None host.now in
            self.new ≡ (specs.saying_planned part limits.now s self.old (Ok words.now)).after }
    {
        let mut course = self.course;
        plan_to(&mut course, words);
        match course.next_in(host, None, part, limits) {
            Next::Ended(end) => self.ends(self.end_of(end)),
            Next::Job(job) => match self.asked_for(host, job) {
                Ok(asked) => {
                    self.ask_for(&course, job, asked);
                    CourseNext::Job(asked)
                }
                Err(refusal) => self.ends(CourseEnd::Refused(refusal)),
            },
        }
    }

    /// The host or its limits refuse the job that it said, by this number: it has ended.
    pub fn refused(&mut self, number: u8, job: Job)
        ensures { self.new ≡ specs.refused_by self.old number job }
    {
        self.end = Some(CourseEnd::Refused(Refusal::of_job(number, job)));
    }

    // It has ended so.
    fn ends(&mut self, end: CourseEnd) -> CourseNext
        ensures next { result ≡ CourseNext.Ended end }
        ensures after { self.new ≡ (specs.course_ends self.old end).after }
    {
        self.end = Some(end);
        CourseNext::Ended(end)
    }

    // The end that it has come to, and that stays.
    fn last_end(&self) -> Option<CourseEnd>
        ensures { result ≡ spec_last_end self.now.end }
    {
        match self.end {
            Some(end) if !end.is_open() => Some(end),
            _ => None,
        }
    }

    // The end of the way, as the course shows it.
    fn end_of(&self, end: ApplyEnd) -> CourseEnd
        ensures { result ≡ spec_end_of self.now.fault end }
    {
        match end {
            ApplyEnd::Reached => CourseEnd::Reached,
            ApplyEnd::Stopped { why } => match why {
                StopCause::Refused(fault) => CourseEnd::Refused(Refusal::of_plan(fault)),
                StopCause::Differs(register, word) => CourseEnd::Differs(register, word),
                StopCause::Spent(job) => CourseEnd::Spent {
                    code: code_of(job),
                    fault: self.fault,
                },
            },
        }
    }

    // The byte that OPERATION holds and that its cell doesn't take, which ends a course to words or to nothing.
    fn source(&self, host: &State) -> Option<u16>
        requires { self.now.course.survey.output < 8 }
        ensures { result ≡ spec_source_of (held None host.now) self.now.course self.now.course.byte }
    {
        match self.course.byte {
            Some(_) => None,
            None => self.source_in(host),
        }
    }

    // Such a byte, if OPERATION was read since the survey began.
    fn source_in(&self, host: &State) -> Option<u16>
        requires { self.now.course.survey.output < 8 }
        ensures { result ≡ spec_source_in (held None host.now) self.now.course }
    {
        if !self.course.survey.read.operation {
            return None;
        }
        let cell = Cell::Out(self.course.survey.output, Reg::Operation);
        match sole_at(host, cell) {
            Some(byte) if !cell.accepts(byte) => Some(byte),
            _ => None,
        }
    }

    // What is asked for in the place of a job that the way names, or why nothing is.
    fn asked_for(&self, host: &State, job: Job) -> Result<Job, Refusal>
        requires { self.now.course.survey.output < 8 }
        ensures { result ≡ spec_asked_for (held None host.now) self.now.course self.now.course.byte job }
    {
        match self.course.byte {
            Some(byte) if Operation::has_on(byte) && self.is_turning(host, job) => {
                self.turning(host, byte)
            }
            _ => Ok(job),
        }
    }

    // Whether a job is an order of OPERATION, or would read OPERATION again, which holds a byte that its cell doesn't take.
    fn is_turning(&self, host: &State, job: Job) -> bool
        requires { self.now.course.survey.output < 8 }
        ensures { result ≡ spec_is_turning (held None host.now) self.now.course job }
    {
        match job {
            Job::Order(..) => true,
            Job::Check(Cell::Out(_, Reg::Operation)) => self.source_in(host).is_some(),
            _ => false,
        }
    }

    // An order of OPERATION that turns the output on, after a look at WRITE_PROTECT and at what it selects.
    fn turning(&self, host: &State, byte: u16) -> Result<Job, Refusal>
        ensures { result ≡ specs.turning self.now.course byte (spec_protect_in (held None host.now) self.now.course) }
    {
        match self.protect(host) {
            None => Ok(Job::Check(Cell::Protect)),
            Some(protect) if is_allowed(protect, Reg::Operation.code()) => Ok(self.turn(byte)),
            Some(_) => Err(Refusal::of_plan(PlanFault::Protected(Reg::Operation))),
        }
    }

    // The order, or a read of the register that its byte selects, which the limits judge by.
    fn turn(&self, byte: u16) -> Job
        ensures { result ≡ specs.turn self.now.course byte }
    {
        let selected = Operation::selected_register(byte);
        if self.course.survey.read.has(selected) {
            Job::Order(Cell::Out(self.course.survey.output, Reg::Operation), byte)
        } else {
            Job::Check(Cell::Out(self.course.survey.output, selected))
        }
    }

    // The word of WRITE_PROTECT, if it was read since the survey began and is known.
    fn protect(&self, host: &State) -> Option<u16>
        ensures { result ≡ spec_protect_in (held None host.now) self.now.course }
    {
        if !self.course.survey.read.protect {
            return None;
        }
        match sole_at(host, Cell::Protect) {
            Some(word) if Cell::Protect.accepts(word) => Some(word),
            _ => None,
        }
    }

    // It goes on by the way once a job was asked for, where that named another or the same.
    fn ask_for(&mut self, after: &Course, named: Job, job: Job)
        ensures { self.new ≡ (specs.course_asks self.old (spec_asking_for self.old.course after.now named job) job).after }
    {
        let plan = self.course.survey.plan;
        let was_ordered = match named {
            Job::Order(..) => self.course.ordered,
            _ => after.ordered,
        };
        self.course = *after;
        self.course.survey.plan = plan;
        self.course.survey.asked = Some(job);
        self.course.ordered = matches!(job, Job::Order(..)) || was_ordered;
        self.end = None;
    }
}

// The way to these words, if it is a way to wanted words.
fn plan_to(course: &mut Course, words: &Wanted)
    ensures { course.new ≡ with_plan course.old (planning course.old words.now) }
{
    if course.survey.plan.is_some() {
        course.survey.plan = Some(*words);
    }
}

/// The only word that a cell may hold.
pub(crate) fn sole_at(host: &State, cell: Cell) -> Option<u16>
    requires { IsCell 8 cell }
    ensures { result ≡ sole (possible_at (held None host.now) cell) }
{
    match host.known.possible(cell).listed() {
        Some([word]) => Some(*word),
        _ => None,
    }
}

// A course begins.
fn begun(course: Course, voltages: Voltages) -> FrameCourse
    ensures { result ≡ specs.going_on course voltages }
{
    FrameCourse {
        course,
        voltages,
        fault: None,
        end: None,
    }
}
