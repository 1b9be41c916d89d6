//! A step of a sequence.

ghost use Rattle.std.specs.Prelude.{◌≡◌};
ghost use Rattle.pm_sequence.specs.Steps.{before_of, is_of as spec_is_of, is_unreadable as spec_is_unreadable, new_of, said_lacks, same_heard, turns_off as spec_turns_off};

use pm_delivery::{Delivery, Heard, LACKS_READ_VOUT, LACKS_STATUS_WORD};
use pm_stairs::{Act, Placed};
use pm_table::Operation;

/// How the rail of a step is looked at.
#[derive(Clone, Copy, Debug, PartialEq, Eq)]
pub struct Looks {
    /// Whether it is looked at: before the step's first order, and after its end.
    pub is_wanted: bool,
    /// Whether it has to deliver before the next step begins, or the list ends.
    pub must_deliver: bool,
    /// Whether a rail of which only power good is missing counts as one that does what it is to.
    pub tells_power_good: bool,
    /// Whether the caller says that the part has no STATUS_WORD.
    pub lacks_status_word: bool,
    /// Whether the caller says that the part has no READ_VOUT.
    pub lacks_read_vout: bool,
    /// What is done about fault limits, as in [`Delivery`].
    pub fault_limits: u8,
    /// How far READ_VOUT may be away, in thousandths.
    pub within: u16,
    /// How often all is asked at most.
    pub rounds: u16,
}

/// A step: one output of one part, and what becomes of it.
#[derive(Clone, Copy, Debug, PartialEq, Eq)]
pub struct Step {
    /// The output, its host's place, and what is done to it.
    pub placed: Placed,
    /// How many milliseconds pass before anything of it is sent.
    pub wait: u32,
    /// How its rail is looked at.
    pub looks: Looks,
    /// What an earlier list heard of this output's STATUS_WORD before its first order: `look.delivery.before` of its [`Sequence`](crate::Sequence).
    /// [`Heard::NOTHING`] if there was none. A good answer is kept, and faults are new against it.
    pub before: Heard,
}

impl Looks {
    // What the caller says that the part lacks, as a delivery has it.
    fn lacks(&self) -> u8
        ensures { result ≡ said_lacks self.now.lacks_status_word self.now.lacks_read_vout }
    {
        match (self.lacks_status_word, self.lacks_read_vout) {
            (false, false) => 0,
            (true, false) => LACKS_STATUS_WORD,
            (false, true) => LACKS_READ_VOUT,
            (true, true) => LACKS_STATUS_WORD + LACKS_READ_VOUT,
        }
    }
}

impl Step {
    /// Whether it turns its output off.
    pub(crate) fn turns_off(&self) -> bool
        ensures { result ≡ spec_turns_off self.now.placed.step.act }
    {
        match self.placed.step.act {
            Act::Turns(byte) => !Operation::has_on(byte),
            _ => false,
        }
    }

    /// Whether nothing of its rail can be read, as the caller says: of an output that is turned off STATUS_WORD is read alone.
    pub(crate) fn is_unreadable(&self) -> bool
        ensures { result ≡ spec_is_unreadable self.now }
    {
        self.looks.lacks_status_word && (self.turns_off() || self.looks.lacks_read_vout)
    }

    /// Whether a delivery is one of its output, and as the step asks for it.
    pub(crate) fn is_of(&self, delivery: &Delivery) -> bool
        ensures { result ≡ spec_is_of delivery.now self.now }
    {
        delivery.output == self.placed.step.output
            && delivery.fault_limits == self.looks.fault_limits
            && delivery.lacks % 4 == self.looks.lacks()
            && delivery.within == self.looks.within
            && delivery.rounds == self.looks.rounds
    }

    // A delivery of its output of which nothing was asked, but for what an earlier list heard.
    pub(crate) fn delivery(&self) -> Delivery
        ensures { result ≡ new_of self.now }
    {
        let mut delivery = Delivery::new(
            self.placed.step.output,
            self.looks.fault_limits,
            self.looks.lacks(),
            self.looks.within,
            self.looks.rounds,
        );
        delivery.before = self.before;
        delivery
    }

    // A delivery that looks at what stands before its first order.
    pub(crate) fn delivery_before(&self) -> Delivery
        ensures { result ≡ before_of self.now }
    {
        let mut delivery = self.delivery();
        delivery.look_before();
        delivery.before = self.before;
        delivery
    }

    // Whether an earlier list heard this.
    pub(crate) fn stood_so(&self, heard: Heard) -> bool
        ensures { result ≡ same_heard heard self.now.before }
    {
        heard.asked == self.before.asked
            && heard.fault == self.before.fault
            && heard.word == self.before.word
    }
}
