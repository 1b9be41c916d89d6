//! The end of a course as plain numbers.

ghost use Rattle.std.specs.Prelude.{◌≡◌};
ghost use Rattle.pm_memory.specs.CourseEnd.{end_held as spec_end_held, end_image, kind_alone, end_numbers, fault_held as spec_fault_held, fault_number};

use pm_course::{AnswerFault, CourseEnd, Refusal};
use pm_table::{Cell, Code, cell_of};

/// How a course ended, as plain numbers. It has no padding.
#[repr(C)]
#[derive(Clone, Copy, Debug)]
pub struct CourseEndImage {
    /// 0 if it goes on; 1 reached, 2 refused, 3 an order still differs, 4 no try is left, 5 another format, 6 another source.
    pub kind: u8,
    /// The number of the refusal, otherwise 0.
    pub number: u8,
    /// The command code of the register; VOUT_MODE of a learn; 0 if it is about none.
    pub code: u8,
    /// No meaning.
    pub unused: u8,
    /// What was read: the word that differs, VOUT_MODE of another format, the byte of OPERATION of another source; otherwise 0.
    pub word: u16,
    /// What was wrong with the last answer if no try is left: 0 nothing, 31h to 35h F1 to F5, 1 none came, 2 a write wasn't
    /// acknowledged; otherwise 0.
    pub fault: u16,
}

/// The numbers of an end, as they are kept.
#[derive(Clone, Copy, Debug)]
pub struct EndNumbers {
    /// As in [`CourseEndImage`].
    pub kind: u8,
    /// The number of the refusal, otherwise 0.
    pub number: u8,
    /// The command code, otherwise 0.
    pub code: u8,
    /// 1 if the refusal is about a register, otherwise 0.
    pub has_code: u8,
    /// What was read, otherwise 0.
    pub word: u16,
    /// What was wrong with the last answer, otherwise 0.
    pub fault: u8,
}

// The kinds of ends.
const REACHED: u8 = 1;

const REFUSED: u8 = 2;

const STILL_DIFFERS: u8 = 3;

const SPENT: u8 = 4;

const OTHER_FORMAT: u8 = 5;

const OTHER_SOURCE: u8 = 6;

impl EndNumbers {
    /// Nothing but a kind.
    pub(crate) fn kind(kind: u8) -> EndNumbers
        ensures { result ≡ kind_alone kind }
    {
        EndNumbers {
            kind,
            number: 0,
            code: 0,
            has_code: 0,
            word: 0,
            fault: 0,
        }
    }

    /// The numbers of an end.
    pub(crate) fn of(end: Option<CourseEnd>) -> EndNumbers
        ensures { result ≡ end_numbers end }
    {
        match end {
            None => EndNumbers::kind(0),
            Some(CourseEnd::Reached) => EndNumbers::kind(REACHED),
            Some(CourseEnd::Refused(refusal)) => EndNumbers {
                number: refusal.number,
                code: match refusal.register {
                    Some(code) => code.0,
                    None => 0,
                },
                has_code: u8::from(refusal.register.is_some()),
                ..EndNumbers::kind(REFUSED)
            },
            Some(CourseEnd::Differs(register, word)) => EndNumbers {
                code: register.code().0,
                word,
                ..EndNumbers::kind(STILL_DIFFERS)
            },
            Some(CourseEnd::Spent { code, fault }) => EndNumbers {
                code: code.0,
                fault: number_of(fault),
                ..EndNumbers::kind(SPENT)
            },
            Some(CourseEnd::NoFormat(mode)) => EndNumbers {
                word: u16::from(mode),
                ..EndNumbers::kind(OTHER_FORMAT)
            },
            Some(CourseEnd::OtherSource(byte)) => EndNumbers {
                word: byte,
                ..EndNumbers::kind(OTHER_SOURCE)
            },
        }
    }
}

/// What the numbers of an end mean.
pub(crate) fn end_held(end: &EndNumbers) -> Option<CourseEnd>
    ensures { result ≡ spec_end_held end.now }
{
    match end.kind {
        REACHED => Some(CourseEnd::Reached),
        REFUSED => Some(CourseEnd::Refused(Refusal {
            number: end.number,
            register: if end.has_code == 1 {
                Some(Code(end.code))
            } else {
                None
            },
        })),
        STILL_DIFFERS => match cell_of(Code(end.code), 0) {
            Some(Cell::Out(_, register)) => Some(CourseEnd::Differs(register, end.word)),
            _ => None,
        },
        SPENT => Some(CourseEnd::Spent {
            code: Code(end.code),
            fault: fault_held(end.fault),
        }),
        OTHER_FORMAT => Some(CourseEnd::NoFormat((end.word % 256) as u8)),
        OTHER_SOURCE => Some(CourseEnd::OtherSource(end.word)),
        _ => None,
    }
}

/// The number of what was wrong with the last answer, 0 if nothing was.
pub(crate) fn number_of(fault: Option<AnswerFault>) -> u8
    ensures { result ≡ fault_number fault }
{
    match fault {
        Some(fault) => fault.number(),
        None => 0,
    }
}

/// What such a number means.
pub(crate) fn fault_held(number: u8) -> Option<AnswerFault>
    ensures { result ≡ spec_fault_held number }
{
    match number {
        0x01 => Some(AnswerFault::NoAnswer),
        0x02 => Some(AnswerFault::NotAcknowledged),
        0x31 => Some(AnswerFault::NotOurs),
        0x32 => Some(AnswerFault::Short),
        0x33 => Some(AnswerFault::Long),
        0x34 => Some(AnswerFault::WrongCount),
        0x35 => Some(AnswerFault::WrongPec),
        _ => None,
    }
}

impl CourseEndImage {
    /// How a course ended.
    pub fn of(end: Option<CourseEnd>) -> CourseEndImage
        ensures { result ≡ end_image end }
    {
        let end = EndNumbers::of(end);
        CourseEndImage {
            kind: end.kind,
            number: end.number,
            code: end.code,
            unused: 0,
            word: end.word,
            fault: u16::from(end.fault),
        }
    }
}
