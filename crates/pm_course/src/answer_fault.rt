//! What was wrong with what became of a frame.

ghost use Rattle.std.specs.Prelude.{◌≡◌, ◌≢◌};

use pm_frame::FrameFault;

/// What was wrong with what became of a frame.
#[derive(Clone, Copy, Debug, PartialEq, Eq)]
pub enum AnswerFault {
    /// No answer came.
    NoAnswer,
    /// A write wasn't acknowledged.
    NotAcknowledged,
    /// F1: the first byte of the answer isn't the address with the read bit.
    NotOurs,
    /// F2: the answer ends too early.
    Short,
    /// F3: bytes follow the end of the answer.
    Long,
    /// F4: the count of the answer isn't the one that was asked for.
    WrongCount,
    /// F5: the last byte isn't the packet error code (PEC) of those before it.
    WrongPec,
}

impl AnswerFault {
    ghost use Rattle.pm_course.specs.AnswerFault.{answer_fault_number, answer_fault_words, of_frame as spec_of_frame};

    /// The fault as programs print it, with its letter if it has one: `F5 WrongPec`, `no answer`.
    pub fn words(self) -> &'static str
        ensures { result.now ≡ answer_fault_words self }
    {
        match self {
            AnswerFault::NoAnswer => "no answer",
            AnswerFault::NotAcknowledged => "not acknowledged",
            AnswerFault::NotOurs => FrameFault::NotOurs.words(),
            AnswerFault::Short => FrameFault::Short(0).words(),
            AnswerFault::Long => FrameFault::Long(0).words(),
            AnswerFault::WrongCount => FrameFault::WrongCount(0).words(),
            AnswerFault::WrongPec => FrameFault::WrongPec(0).words(),
        }
    }

    /// The number of the fault as `pmhost.h` has it: 1 if no answer came, 2 if a write wasn't acknowledged, 31h to 35h.
    pub fn number(self) -> u8
        ensures number { result ≡ answer_fault_number self }
        ensures some { result ≢ 0 }
    {
        match self {
            AnswerFault::NoAnswer => 1,
            AnswerFault::NotAcknowledged => 2,
            AnswerFault::NotOurs => FrameFault::NotOurs.number(),
            AnswerFault::Short => FrameFault::Short(0).number(),
            AnswerFault::Long => FrameFault::Long(0).number(),
            AnswerFault::WrongCount => FrameFault::WrongCount(0).number(),
            AnswerFault::WrongPec => FrameFault::WrongPec(0).number(),
        }
    }

    /// The fault of an answer; `None` of one that no answer has.
    pub(crate) fn of_frame(fault: FrameFault) -> Option<AnswerFault>
        ensures { result ≡ spec_of_frame fault }
    {
        match fault {
            FrameFault::NotOurs => Some(AnswerFault::NotOurs),
            FrameFault::Short(_) => Some(AnswerFault::Short),
            FrameFault::Long(_) => Some(AnswerFault::Long),
            FrameFault::WrongCount(_) => Some(AnswerFault::WrongCount),
            FrameFault::WrongPec(_) => Some(AnswerFault::WrongPec),
            _ => None,
        }
    }
}
