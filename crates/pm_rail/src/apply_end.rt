//! How a course ended.

use crate::fault::PlanFault;
use pm_host::Job;
use pm_table::Reg;

/// How a course ended.
#[derive(Clone, Copy, Debug, PartialEq, Eq)]
pub enum ApplyEnd {
    /// Each register of which a word is wanted has it, by answers that all came after the last order, unless the converter
    /// restarted since the course began.
    Reached,
    /// The course stopped before its end. The output commands what it did or what is wanted, unless the converter
    /// restarted.
    Stopped {
        /// Why.
        why: StopCause,
    },
}

/// Why a course stopped.
#[derive(Clone, Copy, Debug, PartialEq, Eq)]
pub enum StopCause {
    /// H3 if a job is open, which changes nothing: carry that out first. Otherwise the plan is refused: L7, L3, L4, P5,
    /// P6 or P7, and P4 if OPERATION selects a margin that the part doesn't have.
    Refused(PlanFault),
    /// An order of this register ended twice with the register read with another word, at last with this one.
    Differs(Reg, u16),
    /// No try is left for this job, which is the next one.
    Spent(Job),
}
