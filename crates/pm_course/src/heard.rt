//! What became of a frame, as a course notes it.

ghost use Rattle.std.specs.Prelude.{◌≡◌, true, Some, option_map};
ghost use Rattle.pm_table.specs.Address.{IsAddress};
ghost use Rattle.pm_table.specs.Cell.{same_cell};
ghost use Rattle.pm_frame.specs.Layout.{is_read_message};
ghost use Rattle.pm_host.specs.Sound.{AcceptsWrittenWord};
ghost use Rattle.pm_host.specs.Summary.{stage_message};
ghost use Rattle.pm_host.specs.Told.{entry_told, is_awaited};
ghost use Rattle.pm_host.specs.Transcript.{Got};
ghost use Rattle.pm_course.specs.Heard.{bytes_fault as spec_bytes_fault, ended_by as spec_ended_by, entry_fault as spec_entry_fault, fault_by as spec_fault_by, heard_by, is_job_of as spec_is_job_of, mode_told as spec_mode_told, named_in as spec_named_in};

use crate::answer_fault::AnswerFault;
use crate::course_end::CourseEnd;
use crate::frame_course::FrameCourse;
use crate::surprise::Noticed;
use pm_frame::read_answer;
use pm_host::{Job, JobEnd, Question, Stage, Step, Told};
use pm_table::Cell;

impl FrameCourse {
    /// What became of the frame of a stage, whether that [`surprises`](crate::surprises), and how the host says that the job
    /// stands: if the job is the course's, it notes what was wrong and how the job ended. What surprises shows that the part
    /// restarted or was exchanged, so the format is learned anew before anything else is asked for.
    pub fn heard(&mut self, address: u8, stage: Stage, told: Told<'_>, surprised: bool, step: Step)
        requires address { IsAddress address }
        requires word { AcceptsWrittenWord stage }
        requires awaited { is_awaited stage told ≡ true }
        ensures { self.new ≡ heard_by self.old address stage (entry_told told.entry) surprised step }
    {
        let fault = entry_fault(address, stage, told);
        self.heard_so(address, stage, told, Noticed { surprised, fault }, step);
    }

    /// Hears it by what [`notices`](crate::notices) found, so that an answer is read once.
    pub fn heard_so(
        &mut self,
        address: u8,
        stage: Stage,
        told: Told<'_>,
        noticed: Noticed,
        step: Step,
    )
        requires address { IsAddress address }
        requires word { AcceptsWrittenWord stage }
        requires awaited { is_awaited stage told ≡ true }
        requires fault { noticed.fault ≡ spec_entry_fault address stage (entry_told told) }
        ensures { self.new ≡ heard_by self.old address stage (entry_told told.entry) noticed.surprised step }
    {
        if !self.is_job_of(stage) {
            return;
        }
        self.fault = self.fault_by(stage, told, noticed.fault);
        if noticed.surprised {
            self.course.survey.learned = false;
        }
        if let Step::Ended(end) = step {
            let mode = mode_told(address, stage, told, end);
            self.course.told(end);
            self.ended_by(mode);
        }
    }

    // The course has ended if VOUT_MODE named no format or an order differed a second time.
    fn ended_by(&mut self, mode: Option<u8>)
        ensures { self.new ≡ spec_ended_by self.old mode self.old.course.twice }
    {
        match (mode, self.course.twice) {
            (Some(mode), _) => self.end = Some(CourseEnd::NoFormat(mode)),
            (None, Some(differs)) => {
                self.end = Some(CourseEnd::Differs(differs.register, differs.word));
            }
            (None, None) => {}
        }
    }

    /// Whether the job that stands at this stage is the one that the course asked for.
    pub fn is_job_of(&self, stage: Stage) -> bool
        ensures { result ≡ spec_is_job_of self.now.course.survey.asked stage }
    {
        match (self.course.survey.asked, stage) {
            (
                Some(Job::Order(cell, word)),
                Stage::Writes {
                    cell: at,
                    word: sent,
                    ..
                },
            ) => { is_same(cell, at) && word == sent }
            (
                Some(Job::Order(cell, word)),
                Stage::Reads {
                    cell: at,
                    word: sent,
                    ..
                },
            ) => { is_same(cell, at) && word == sent }
            (Some(Job::Check(cell)), Stage::Asks { question, .. }) => match question {
                Question::Word(at) => is_same(cell, at),
                _ => false,
            },
            (Some(Job::Learn(output)), Stage::Asks { question, .. }) => match question {
                Question::Mode(at) | Question::Coefficients(at) => output == at,
                Question::Word(_) => false,
            },
            _ => false,
        }
    }

    // What is noted once this was wrong with what became of a frame. A good answer that reads an order back leaves what was wrong with
    // its write.
    fn fault_by(
        &self,
        stage: Stage,
        told: Told<'_>,
        wrong: Option<AnswerFault>,
    ) -> Option<AnswerFault>
        ensures { result ≡ spec_fault_by self.now.fault stage (entry_told told.entry) wrong }
    {
        match (told, wrong, stage) {
            (Told::Got(_), None, Stage::Reads { .. }) => self.fault,
            _ => wrong,
        }
    }
}

// What was wrong with what became of a frame.
fn entry_fault(address: u8, stage: Stage, told: Told<'_>) -> Option<AnswerFault>
    requires address { IsAddress address }
    requires word { AcceptsWrittenWord stage }
    requires awaited { is_awaited stage told ≡ true }
    ensures { result ≡ spec_entry_fault address stage (entry_told told.entry) }
{
    match told {
        Told::Finished { acked: true } => None,
        Told::Finished { acked: false } => Some(AnswerFault::NotAcknowledged),
        Told::Got(bytes) => bytes_fault(address, stage, bytes),
    }
}

/// What is wrong with the bytes that came back for a request.
pub(crate) fn bytes_fault(address: u8, stage: Stage, bytes: &[u8]) -> Option<AnswerFault>
    requires address { IsAddress address }
    requires word { AcceptsWrittenWord stage }
    requires read { is_read_message (stage_message stage) ≡ true }
    ensures { result ≡ spec_bytes_fault address (stage_message stage) bytes.now }
{
    if bytes.is_empty() {
        return Some(AnswerFault::NoAnswer);
    }
    match read_answer(address, &stage.message(), bytes) {
        Ok(_) => None,
        Err(fault) => AnswerFault::of_frame(fault),
    }
}

// VOUT_MODE of a learn that ended without a format though its answer was good.
#[tactic(auto, unfolding(pm_host::specs::Answers::good_payload))]
fn mode_told(address: u8, stage: Stage, told: Told<'_>, end: JobEnd) -> Option<u8>
    requires address { IsAddress address }
    requires word { AcceptsWrittenWord stage }
    requires awaited { is_awaited stage told ≡ true }
    ensures { result ≡ spec_mode_told address stage (entry_told told.entry) end }
{
    match (stage, told, end) {
        (Stage::Asks { question, .. }, Told::Got(bytes), JobEnd::Unknown) => {
            match read_answer(address, &stage.message(), bytes) {
                Ok(payload) => named_in(question, payload),
                Err(_) => None,
            }
        }
        _ => None,
    }
}

// VOUT_MODE by the payload of a good answer: its byte, or 40h if the coefficients were asked for.
fn named_in(question: Question, payload: &[u8]) -> Option<u8>
    ensures { result ≡ spec_named_in question payload.now }
{
    match question {
        Question::Mode(_) => payload.first().copied(),
        Question::Coefficients(_) => Some(0x40),
        Question::Word(_) => None,
    }
}

// Whether two cells are one.
fn is_same(cell: Cell, other: Cell) -> bool
    ensures { result ≡ same_cell cell other }
{
    match (cell, other) {
        (Cell::Out(output, register), Cell::Out(second, at)) => {
            output == second && register.code() == at.code()
        }
        (Cell::Protect, Cell::Protect) => true,
        _ => false,
    }
}
