//! How a sequence ends and what a rail does, as plain numbers.

ghost use Rattle.std.specs.Prelude.{◌≡◌};
ghost use Rattle.pm_memory.specs.SequenceEnd.{beyond_read, does_read, end_read, end_written, question_read, stop_numbers, stop_read, stop_written, verdict_numbers, verdict_of_numbers, verdict_said};

use crate::course_end_image::{EndNumbers, end_held};
use pm_delivery::{DeliveryFault, Question, Verdict};
use pm_sequence::End;
use pm_stairs::StepEnd;
use pm_table::Code;

/// What a rail does, as numbers.
#[derive(Clone, Copy, Debug)]
pub struct VerdictNumbers {
    /// 0 not yet; 1 delivers; 2 commanded off; 3 not known to be on; 4 off though commanded on; 5 a new fault; 6 outside its limits;
    /// 7 too far from what it commands; 8 power good alone is missing; 9 power good is missing; 10 not known; 11 off after an order;
    /// 12 still on after one; 14 delivers by READ_VOUT alone.
    pub kind: u8,
    /// The command code of the register that says so, otherwise 0.
    pub code: u8,
    /// The number of the bit of a new fault, otherwise 0.
    pub bit: u8,
    /// What was wrong with the last answer of a register that isn't known, otherwise 0.
    pub fault: u8,
}

/// How a sequence ended, or why a step was left. It has no padding.
#[repr(C)]
#[derive(Clone, Copy, Debug)]
pub struct SequenceEndImage {
    /// 0 if it goes on; 1 reached; 2 to 8 as a step stops; 10 steps were left, 11 the goal is beyond a fault limit, 12 it can't be
    /// judged, 14 the rail doesn't do what it is to.
    pub kind: u8,
    /// The number of the refusal, otherwise 0.
    pub number: u8,
    /// The command code of the register, 0 if it is about none.
    pub code: u8,
    /// 1 if the refusal is about a register, otherwise 0.
    pub has_code: u8,
    /// What the rail does, as in [`VerdictNumbers`], otherwise 0.
    pub verdict: u8,
    /// The number of the bit of a new fault, otherwise 0.
    pub bit: u8,
    /// What was wrong with the last answer, otherwise 0.
    pub fault: u16,
    /// What was read, or how many steps were left; otherwise 0.
    pub word: u16,
}

// The kinds of ends that no stop of a step has.
const REACHED: u8 = 1;

const CHANGED: u8 = 7;

const RESTARTED: u8 = 8;

const LEFT: u8 = 10;

const BEYOND: u8 = 11;

const UNJUDGED: u8 = 12;

const FAILS: u8 = 14;

impl VerdictNumbers {
    /// The numbers of a verdict.
    pub fn of(verdict: Verdict) -> VerdictNumbers
        ensures { result ≡ verdict_numbers verdict }
    {
        match verdict {
            Verdict::NotYet => said(0, 0, 0, 0),
            Verdict::Delivers => said(1, 0, 0, 0),
            Verdict::CommandedOff => said(2, 0, 0, 0),
            Verdict::NotKnownOn => said(3, 0, 0, 0),
            Verdict::IsOff => said(4, Question::StatusWord.code().0, 0, 0),
            Verdict::NewFault(register, place) => said(5, register.code().0, place, 0),
            Verdict::OutsideLimits => said(6, Question::ReadVout.code().0, 0, 0),
            Verdict::Beyond => said(7, Question::ReadVout.code().0, 0, 0),
            Verdict::PowerGoodAlone => said(8, Question::StatusWord.code().0, 0, 0),
            Verdict::NoPowerGood => said(9, Question::StatusWord.code().0, 0, 0),
            Verdict::NotKnown(register, fault) => said(10, register.code().0, 0, fault),
            Verdict::WentOff => said(11, 0, 0, 0),
            Verdict::StillOn => said(12, Question::StatusWord.code().0, 0, 0),
            Verdict::DeliversByVoltage => said(14, 0, 0, 0),
        }
    }

    // The verdict that numbers mean.
    fn verdict(&self) -> Option<Verdict>
        ensures { result ≡ verdict_of_numbers self.now }
    {
        match self.kind {
            0 => Some(Verdict::NotYet),
            1 => Some(Verdict::Delivers),
            2 => Some(Verdict::CommandedOff),
            3 => Some(Verdict::NotKnownOn),
            4 => Some(Verdict::IsOff),
            5 => match question_of(self.code) {
                Some(register) => Some(Verdict::NewFault(register, self.bit)),
                None => None,
            },
            6 => Some(Verdict::OutsideLimits),
            7 => Some(Verdict::Beyond),
            8 => Some(Verdict::PowerGoodAlone),
            9 => Some(Verdict::NoPowerGood),
            10 => match question_of(self.code) {
                Some(register) => Some(Verdict::NotKnown(register, self.fault)),
                None => None,
            },
            11 => Some(Verdict::WentOff),
            12 => Some(Verdict::StillOn),
            14 => Some(Verdict::DeliversByVoltage),
            _ => None,
        }
    }
}

// Numbers of a verdict.
fn said(kind: u8, code: u8, bit: u8, fault: u8) -> VerdictNumbers
    ensures { result ≡ verdict_said kind code bit fault }
{
    VerdictNumbers {
        kind,
        code,
        bit,
        fault,
    }
}

// The command codes of registers that the table has.
const STATUS_WORD: u8 = Code::STATUS_WORD.0;

const STATUS_VOUT: u8 = Code::STATUS_VOUT.0;

const READ_VOUT: u8 = Code::READ_VOUT.0;

// The register of a command code: of 79h STATUS_WORD after an order.
fn question_of(code: u8) -> Option<Question>
    ensures { result ≡ question_read code }
{
    match code {
        0x40 => Some(Question::OvFaultLimit),
        0x42 => Some(Question::OvWarnLimit),
        0x43 => Some(Question::UvWarnLimit),
        0x44 => Some(Question::UvFaultLimit),
        0x5E => Some(Question::PowerGoodOn),
        0x5F => Some(Question::PowerGoodOff),
        STATUS_WORD => Some(Question::StatusWord),
        STATUS_VOUT => Some(Question::StatusVout),
        0x7B => Some(Question::StatusIout),
        0x7C => Some(Question::StatusInput),
        0x7D => Some(Question::StatusTemperature),
        READ_VOUT => Some(Question::ReadVout),
        _ => None,
    }
}

impl SequenceEndImage {
    // Nothing but a kind.
    const NONE: SequenceEndImage = SequenceEndImage {
        kind: 0,
        number: 0,
        code: 0,
        has_code: 0,
        verdict: 0,
        bit: 0,
        fault: 0,
        word: 0,
    };

    /// The numbers of an end.
    pub fn of(end: Option<End>) -> SequenceEndImage
        ensures { result ≡ end_written end }
    {
        match end {
            None => SequenceEndImage::NONE,
            Some(End::Reached) => SequenceEndImage {
                kind: REACHED,
                ..SequenceEndImage::NONE
            },
            Some(End::Left(steps)) => SequenceEndImage {
                kind: LEFT,
                word: steps,
                ..SequenceEndImage::NONE
            },
            Some(End::Stopped(why)) => SequenceEndImage::stopped(why),
            Some(End::Beyond(DeliveryFault::BeyondFaultLimit(limit, word))) => SequenceEndImage {
                kind: BEYOND,
                number: DeliveryFault::BeyondFaultLimit(limit, word).number(),
                code: limit.code().0,
                word,
                ..SequenceEndImage::NONE
            },
            Some(End::Unjudged) => SequenceEndImage {
                kind: UNJUDGED,
                ..SequenceEndImage::NONE
            },
            Some(End::Does(verdict)) => {
                let numbers = VerdictNumbers::of(verdict);
                SequenceEndImage {
                    kind: FAILS,
                    code: numbers.code,
                    verdict: numbers.kind,
                    bit: numbers.bit,
                    fault: u16::from(numbers.fault),
                    ..SequenceEndImage::NONE
                }
            }
        }
    }

    // The numbers of how a step stopped.
    fn stopped(why: StepEnd) -> SequenceEndImage
        ensures { result ≡ stop_written why }
    {
        let numbers = numbers_of(why);
        SequenceEndImage {
            kind: numbers.kind,
            number: numbers.number,
            code: numbers.code,
            has_code: numbers.has_code,
            fault: u16::from(numbers.fault),
            word: numbers.word,
            ..SequenceEndImage::NONE
        }
    }

    /// The end that numbers mean.
    pub fn end(&self) -> Option<End>
        ensures { result ≡ end_read self.now }
    {
        match self.kind {
            REACHED => Some(End::Reached),
            LEFT => Some(End::Left(self.word)),
            BEYOND => self.beyond(),
            UNJUDGED => Some(End::Unjudged),
            FAILS => self.does(),
            _ => match self.stop() {
                Some(why) => Some(End::Stopped(why)),
                None => None,
            },
        }
    }

    // The fault limit that the goal is beyond.
    fn beyond(&self) -> Option<End>
        ensures { result ≡ beyond_read self.now }
    {
        match question_of(self.code) {
            Some(limit) => Some(End::Beyond(DeliveryFault::BeyondFaultLimit(limit, self.word))),
            None => None,
        }
    }

    // What the rail does that doesn't do what it is to.
    fn does(&self) -> Option<End>
        ensures { result ≡ does_read self.now }
    {
        let numbers = said(self.verdict, self.code, self.bit, (self.fault % 256) as u8);
        match numbers.verdict() {
            Some(verdict) => Some(End::Does(verdict)),
            None => None,
        }
    }

    // How a step stopped.
    fn stop(&self) -> Option<StepEnd>
        ensures { result ≡ stop_read self.now }
    {
        match self.kind {
            CHANGED => Some(StepEnd::Changed),
            RESTARTED => Some(StepEnd::Restarted),
            _ => match end_held(&EndNumbers {
                kind: self.kind,
                number: self.number,
                code: self.code,
                has_code: self.has_code,
                word: self.word,
                fault: (self.fault % 256) as u8,
            }) {
                Some(end) => Some(StepEnd::Course(end)),
                None => None,
            },
        }
    }
}

// The numbers of how a step stopped.
fn numbers_of(why: StepEnd) -> EndNumbers
    ensures { result ≡ stop_numbers why }
{
    match why {
        StepEnd::Course(end) => EndNumbers::of(Some(end)),
        StepEnd::Changed => EndNumbers::kind(CHANGED),
        StepEnd::Restarted => EndNumbers::kind(RESTARTED),
    }
}
