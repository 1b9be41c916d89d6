//! How a course ends, and what it says next.

ghost use Rattle.std.specs.Prelude.{◌≡◌};
ghost use Rattle.pm_course.specs.Ends.{code_asked, is_open_end, refusal_of_job, refusal_of_plan};

use crate::answer_fault::AnswerFault;
use pm_host::Job;
use pm_rail::PlanFault;
use pm_table::{Code, Reg};

/// A refusal, by its number, which is that of `pmhost.h` and of the fault's own type.
#[derive(Clone, Copy, Debug, PartialEq, Eq)]
pub struct Refusal {
    /// The number.
    pub number: u8,
    /// The command code of the register that it is about, if it is about one.
    pub register: Option<Code>,
}

/// How a course ended.
#[derive(Clone, Copy, Debug, PartialEq, Eq)]
pub enum CourseEnd {
    /// What is wanted is held, by answers that all came after the last order, unless the converter restarted since the course
    /// began. `Reached` says of a survey that all that it asks for is known.
    Reached,
    /// H3 if a job is open that isn't the course's: it goes on once that job has ended. Otherwise nothing more is ordered: L2,
    /// L3, L4, L5 or L7 by the limits and the part, N3, N4 or N5 of a voltage that has no word, P4, P5, P6 or P7 of the plan, H5
    /// or H6 of an order.
    Refused(Refusal),
    /// An order of this register ended a second time with the register read with another word, at last with this one.
    Differs(Reg, u16),
    /// VOUT_MODE was read as this byte, which names no format of which words are known, or coefficients came with it that
    /// make none.
    NoFormat(u8),
    /// OPERATION holds this byte, which its cell doesn't take: another source may decide the voltage.
    OtherSource(u16),
    /// No try is left.
    Spent {
        /// The command code of what the next job is about; VOUT_MODE of a learn.
        code: Code,
        /// What was wrong with the last answer in this course; `None` if nothing was.
        fault: Option<AnswerFault>,
    },
}

/// What a course says to do next.
#[derive(Clone, Copy, Debug, PartialEq, Eq)]
pub enum CourseNext {
    /// To begin this job.
    Job(Job),
    /// Nothing: it has ended so.
    Ended(CourseEnd),
}

impl Refusal {
    // A refusal of a plan.
    pub(crate) fn of_plan(fault: PlanFault) -> Refusal
        ensures { result ≡ refusal_of_plan fault }
    {
        Refusal {
            number: fault.number(),
            register: fault.code(),
        }
    }

    /// A refusal of a job, by its number.
    pub fn of_job(number: u8, job: Job) -> Refusal
        ensures { result ≡ refusal_of_job number job }
    {
        Refusal {
            number,
            register: Some(code_of(job)),
        }
    }
}

impl CourseEnd {
    /// The end if a job is open that isn't the course's.
    pub(crate) fn busy() -> CourseEnd
        ensures { result ≡ CourseEnd.Refused (refusal_of_plan PlanFault.Busy) }
    {
        CourseEnd::Refused(Refusal::of_plan(PlanFault::Busy))
    }

    // Whether it goes on all the same once another job has ended.
    pub(crate) fn is_open(self) -> bool
        ensures { result ≡ is_open_end self }
    {
        match self {
            CourseEnd::Refused(refusal) => refusal.number == PlanFault::Busy.number(),
            _ => false,
        }
    }
}

/// The command code of what a job is about; VOUT_MODE of a learn.
pub(crate) fn code_of(job: Job) -> Code
    ensures { result.0 ≡ code_asked job }
{
    match job {
        Job::Order(cell, _) | Job::OrderMicro(cell, _) | Job::Check(cell) => cell.code(),
        // A course asks for no other.
        Job::Learn(_) | Job::Send(_) => Code::VOUT_MODE,
    }
}
