//! How far a look at a rail has come.

ghost use Rattle.std.specs.Prelude.{◌≡◌, find, option_map, true, false};
ghost use Rattle.pm_delivery.specs.Deliveries.{again, first_question as spec_first_question, has as spec_has, has_status as spec_has_status, has_vout as spec_has_vout, lacks_any, heard_of, in_round};
ghost use Rattle.pm_delivery.specs.Deliveries.{register_fault_bit, is_new as spec_is_new, is_off as spec_is_off, is_unexplained as spec_is_unexplained, lacks_power_good as spec_lacks_power_good, look_of as spec_look_of, looks_on as spec_looks_on};
ghost use Rattle.pm_delivery.specs.Deliveries.{looking_after, looking_before, new_delivery, new_fault as spec_new_fault, next_round as spec_next_round, status_fault as spec_status_fault, with_heard};
ghost use Rattle.pm_delivery.specs.Heard.{heard_after};
ghost use Rattle.pm_delivery.specs.StatusBits.{status_word_faults};

use crate::heard::Heard;
use crate::question::Question;
use crate::status::{
    INPUT, IOUT_OC_FAULT, IOUT_POUT, OFF, POWER_GOOD_NOT, STATUS_INPUT_FAULTS, STATUS_IOUT_FAULTS,
    STATUS_TEMPERATURE_FAULTS, STATUS_VOUT_FAULTS, TEMPERATURE, VIN_UV_FAULT, VOUT, VOUT_OV_FAULT,
    first_bit, has_bit,
};

/// What is looked at: nothing, what stands before an order, what an output does after an order that leaves it on, after one that turns it off,
/// or after one that leaves it on and lowers it.
pub const LOOK_NOWHERE: u8 = 0;

/// STATUS_WORD once, and the fault limits.
pub const LOOK_BEFORE: u8 = 1;

/// What an output does that is commanded on.
pub const LOOK_AFTER: u8 = 2;

/// What an output does that was turned off.
pub const LOOK_OFF: u8 = 3;

/// What an output does that is commanded on, after an order that lowered it.
pub const LOOK_LOWERED: u8 = 4;

/// What is done about fault limits: a word at or beyond one is refused.
pub const LIMITS_REFUSE: u8 = 0;

/// It is shown and not refused.
pub const LIMITS_TELL: u8 = 1;

/// They aren't read.
pub const LIMITS_SKIP: u8 = 2;

/// Bits of [`Delivery::lacks`]: the caller says that the part has no STATUS_WORD.
pub const LACKS_STATUS_WORD: u8 = 1;

/// The caller says that the part has no READ_VOUT.
pub const LACKS_READ_VOUT: u8 = 2;

/// The part was found to have no STATUS_WORD.
pub const FOUND_NO_STATUS_WORD: u8 = 4;

/// The part was found to have no READ_VOUT.
pub const FOUND_NO_READ_VOUT: u8 = 8;

// The numbers of these bits.
const LACKS_STATUS_WORD_BIT: u8 = 0;

const LACKS_READ_VOUT_BIT: u8 = 1;

const FOUND_NO_STATUS_WORD_BIT: u8 = 2;

const FOUND_NO_READ_VOUT_BIT: u8 = 3;

/// What an output does, by reads beside the host's jobs: what was asked and what came of it. Plain numbers, which hold no host.
#[repr(C)]
#[derive(Clone, Copy, Debug, PartialEq, Eq)]
pub struct Delivery {
    /// The output's number, 0 to 7.
    pub output: u8,
    /// What is looked at: [`LOOK_BEFORE`], [`LOOK_AFTER`], [`LOOK_OFF`], [`LOOK_LOWERED`], any other number for nothing.
    pub look: u8,
    /// What is done about fault limits: [`LIMITS_TELL`], [`LIMITS_SKIP`], any other number to refuse.
    pub fault_limits: u8,
    /// What the part lacks: the sum of [`LACKS_STATUS_WORD`] and [`LACKS_READ_VOUT`], as the caller says, and of
    /// [`FOUND_NO_STATUS_WORD`] and [`FOUND_NO_READ_VOUT`].
    pub lacks: u8,
    /// How far READ_VOUT may be from what the output commands, in thousandths of that.
    pub within: u16,
    /// How often all is asked at most until the output does what it is to.
    pub rounds: u16,
    /// Which of these it is, from 0.
    pub round: u16,
    /// STATUS_WORD before the first order.
    pub before: Heard,
    /// VOUT_OV_FAULT_LIMIT.
    pub ov_fault_limit: Heard,
    /// VOUT_OV_WARN_LIMIT.
    pub ov_warn_limit: Heard,
    /// VOUT_UV_WARN_LIMIT.
    pub uv_warn_limit: Heard,
    /// VOUT_UV_FAULT_LIMIT.
    pub uv_fault_limit: Heard,
    /// STATUS_WORD of this round.
    pub status_word: Heard,
    /// STATUS_VOUT of this round.
    pub status_vout: Heard,
    /// STATUS_IOUT of this round.
    pub status_iout: Heard,
    /// STATUS_INPUT of this round.
    pub status_input: Heard,
    /// STATUS_TEMPERATURE of this round.
    pub status_temperature: Heard,
    /// READ_VOUT of this round.
    pub read_vout: Heard,
    /// POWER_GOOD_ON.
    pub power_good_on: Heard,
    /// POWER_GOOD_OFF.
    pub power_good_off: Heard,
}

/// A bit that says a fault: the register, and the bit's number.
#[derive(Clone, Copy, Debug, PartialEq, Eq)]
pub struct FaultBit {
    /// STATUS_WORD or a status register.
    pub register: Question,
    /// The number, from 0.
    pub place: u8,
}

impl Delivery {
    /// A delivery of an output of which nothing was asked, of a part that lacks this. READ_VOUT may be this many thousandths of what the output
    /// commands away from it (50 are 5 %), and all is asked at most so often.
    pub fn new(output: u8, fault_limits: u8, lacks: u8, within: u16, rounds: u16) -> Delivery
        ensures { result ≡ new_delivery output fault_limits lacks within rounds }
    {
        Delivery {
            output,
            look: LOOK_NOWHERE,
            fault_limits,
            lacks,
            within,
            rounds,
            round: 0,
            before: Heard::NOTHING,
            ov_fault_limit: Heard::NOTHING,
            ov_warn_limit: Heard::NOTHING,
            uv_warn_limit: Heard::NOTHING,
            uv_fault_limit: Heard::NOTHING,
            status_word: Heard::NOTHING,
            status_vout: Heard::NOTHING,
            status_iout: Heard::NOTHING,
            status_input: Heard::NOTHING,
            status_temperature: Heard::NOTHING,
            read_vout: Heard::NOTHING,
            power_good_on: Heard::NOTHING,
            power_good_off: Heard::NOTHING,
        }
    }

    /// Whether STATUS_WORD is one of the part's registers.
    pub fn has_status(&self) -> bool
        ensures { result ≡ spec_has_status self.now }
    {
        !self.lacks_any(LACKS_STATUS_WORD_BIT, FOUND_NO_STATUS_WORD_BIT)
    }

    /// Whether READ_VOUT is one of the part's registers.
    pub fn has_vout(&self) -> bool
        ensures { result ≡ spec_has_vout self.now }
    {
        !self.lacks_any(LACKS_READ_VOUT_BIT, FOUND_NO_READ_VOUT_BIT)
    }

    // Whether one of these two bits says that the part lacks a register.
    fn lacks_any(&self, said: u8, found: u8) -> bool
        ensures { result ≡ lacks_any self.now said found }
    {
        has_bit(u16::from(self.lacks), said) || has_bit(u16::from(self.lacks), found)
    }

    /// What a round asks first.
    pub fn first_question(&self) -> Question
        ensures { result ≡ spec_first_question self.now }
    {
        if self.has_status() {
            Question::StatusWord
        } else {
            Question::ReadVout
        }
    }

    /// Looks at what stands before an order: what was heard before and after an earlier one is forgotten.
    pub fn look_before(&mut self)
        ensures { self.new ≡ looking_before self.old }
    {
        *self = Delivery {
            look: LOOK_BEFORE,
            ..Delivery::new(
                self.output,
                self.fault_limits,
                self.lacks,
                self.within,
                self.rounds,
            )
        };
    }

    /// Looks at what the output does: what was heard of that earlier is forgotten, and what stood before the first order is kept.
    pub fn look_after(&mut self, is_off: bool, lowers: bool)
        ensures { self.new ≡ looking_after self.old is_off lowers }
    {
        self.look = look_of(is_off, lowers);
        self.begin_round(0);
    }

    /// A further round begins.
    pub fn begin_again(&mut self)
        ensures { self.new ≡ again self.old }
    {
        self.begin_round(next_round(self.round));
    }

    // A round begins: what was heard in the one before is forgotten.
    fn begin_round(&mut self, round: u16)
        ensures { self.new ≡ in_round self.old round }
    {
        self.round = round;
        self.status_word = Heard::NOTHING;
        self.status_vout = Heard::NOTHING;
        self.status_iout = Heard::NOTHING;
        self.status_input = Heard::NOTHING;
        self.status_temperature = Heard::NOTHING;
        self.read_vout = Heard::NOTHING;
        self.power_good_on = Heard::NOTHING;
        self.power_good_off = Heard::NOTHING;
    }

    /// What came of a question.
    pub fn heard(&self, question: Question) -> Heard
        ensures { result ≡ heard_of self.now question }
    {
        match question {
            Question::Before => self.before,
            Question::OvFaultLimit => self.ov_fault_limit,
            Question::OvWarnLimit => self.ov_warn_limit,
            Question::UvWarnLimit => self.uv_warn_limit,
            Question::UvFaultLimit => self.uv_fault_limit,
            Question::StatusWord => self.status_word,
            Question::StatusVout => self.status_vout,
            Question::StatusIout => self.status_iout,
            Question::StatusInput => self.status_input,
            Question::StatusTemperature => self.status_temperature,
            Question::ReadVout => self.read_vout,
            Question::PowerGoodOn => self.power_good_on,
            Question::PowerGoodOff => self.power_good_off,
        }
    }

    /// An answer to a question: its payload, or the number of what was wrong.
    pub fn hear(&mut self, question: Question, answer: Result<u16, u8>)
        ensures { self.new ≡ with_heard self.old question (heard_after (heard_of self.old question) answer) }
    {
        let heard = self.heard(question).after(answer);
        match question {
            Question::Before => self.before = heard,
            Question::OvFaultLimit => self.ov_fault_limit = heard,
            Question::OvWarnLimit => self.ov_warn_limit = heard,
            Question::UvWarnLimit => self.uv_warn_limit = heard,
            Question::UvFaultLimit => self.uv_fault_limit = heard,
            Question::StatusWord => self.status_word = heard,
            Question::StatusVout => self.status_vout = heard,
            Question::StatusIout => self.status_iout = heard,
            Question::StatusInput => self.status_input = heard,
            Question::StatusTemperature => self.status_temperature = heard,
            Question::ReadVout => self.read_vout = heard,
            Question::PowerGoodOn => self.power_good_on = heard,
            Question::PowerGoodOff => self.power_good_off = heard,
        }
    }

    /// Whether this bit of STATUS_WORD is 1.
    pub(crate) fn has(&self, place: u8) -> bool
        ensures { result ≡ spec_has self.now place }
    {
        self.status_word.is_good() && has_bit(self.status_word.word, place)
    }

    /// Whether this bit of STATUS_WORD is 1 and wasn't known to be before the first order. No bit is new if nothing was asked
    /// before, since nothing is ordered.
    pub fn is_new(&self, place: u8) -> bool
        ensures { result ≡ spec_is_new self.now place }
    {
        self.has(place)
            && self.before.asked != 0
            && !(self.before.is_good() && has_bit(self.before.word, place))
    }

    /// The fault that is new: of STATUS_WORD itself, or of a status register whose summary in STATUS_WORD is new.
    pub fn new_fault(&self) -> Option<FaultBit>
        ensures { result ≡ spec_new_fault self.now }
    {
        self.status_word_fault().or(
            self.status_fault(Question::StatusVout, VOUT, &STATUS_VOUT_FAULTS)
                .or(
                    self.status_fault(Question::StatusIout, IOUT_POUT, &STATUS_IOUT_FAULTS)
                        .or(
                            self.status_fault(Question::StatusInput, INPUT, &STATUS_INPUT_FAULTS)
                                .or(self.status_fault(
                                    Question::StatusTemperature,
                                    TEMPERATURE,
                                    &STATUS_TEMPERATURE_FAULTS,
                                )),
                        ),
                ),
        )
    }

    // The first fault of STATUS_WORD itself that is new.
    fn status_word_fault(&self) -> Option<FaultBit>
        ensures { result ≡ option_map (register_fault_bit Question.StatusWord) (find (spec_is_new self.now) status_word_faults) }
    {
        fault_in(Question::StatusWord, self.first_new())
    }

    // The first bit of these faults that is new.
    fn first_new(&self) -> Option<u8>
        ensures { result ≡ find (spec_is_new self.now) status_word_faults }
    {
        if self.is_new(VOUT_OV_FAULT) {
            Some(VOUT_OV_FAULT)
        } else if self.is_new(IOUT_OC_FAULT) {
            Some(IOUT_OC_FAULT)
        } else if self.is_new(VIN_UV_FAULT) {
            Some(VIN_UV_FAULT)
        } else {
            None
        }
    }

    // The first fault of a status register whose summary in STATUS_WORD is new.
    fn status_fault(&self, register: Question, summary: u8, places: &[u8]) -> Option<FaultBit>
        ensures { result ≡ spec_status_fault self.now register summary places.now }
    {
        let heard = self.heard(register);
        if !(self.is_new(summary) && heard.is_good()) {
            return None;
        }
        fault_in(register, first_bit(heard.word, places))
    }

    /// Whether OFF is 1 of an output that is commanded on, and no new fault says why.
    pub fn is_unexplained(&self) -> bool
        ensures { result ≡ spec_is_unexplained self.now }
    {
        self.looks_on() && self.is_off() && self.new_fault().is_none()
    }

    /// Whether what an output does is looked at that is commanded on.
    pub fn looks_on(&self) -> bool
        ensures { result ≡ spec_looks_on self.now }
    {
        self.look == LOOK_AFTER || self.look == LOOK_LOWERED
    }

    /// Whether the output is off by STATUS_WORD.
    pub(crate) fn is_off(&self) -> bool
        ensures { result ≡ spec_is_off self.now }
    {
        self.has(OFF)
    }

    /// Whether power good is missing by STATUS_WORD.
    pub(crate) fn lacks_power_good(&self) -> bool
        ensures { result ≡ spec_lacks_power_good self.now }
    {
        self.has(POWER_GOOD_NOT)
    }
}

// What is looked at after an order that turned the output off, or that lowered it, or another one.
fn look_of(is_off: bool, lowers: bool) -> u8
    ensures { result ≡ spec_look_of is_off lowers }
{
    if is_off {
        LOOK_OFF
    } else if lowers {
        LOOK_LOWERED
    } else {
        LOOK_AFTER
    }
}

// A fault of a register, if there is one.
fn fault_in(register: Question, place: Option<u8>) -> Option<FaultBit>
    ensures { result ≡ option_map (register_fault_bit register) place }
{
    match place {
        Some(place) => Some(FaultBit { register, place }),
        None => None,
    }
}

// The round after one; 65535 is the last number.
fn next_round(round: u16) -> u16
    ensures { result ≡ spec_next_round round }
{
    if round < 65535 { round + 1 } else { 65535 }
}
