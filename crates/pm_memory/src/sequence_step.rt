//! The steps of a sequence and their records in a caller's memory: plain numbers, and what they mean.

ghost use Rattle.std.specs.Prelude.{◌≡◌, None, Ok};
ghost use Rattle.std.specs.Result.{result_err};
ghost use Rattle.pm_memory.specs.SequenceStep.{are_looks, back_image, looks_asked, step_in};

use crate::DeliveryImage;
use crate::numbers::NO_STEP;
use crate::placed::PlacedImage;
use pm_delivery::Heard;
use pm_sequence::{Looks, Step};
use pm_stairs::WordStep;

/// A step: one output of one of several parts, what is done to it, and how its rail is looked at. It has no padding.
#[repr(C)]
#[derive(Clone, Copy, Debug)]
pub struct SequenceStepImage {
    /// Its host, its output, and what is done to it.
    pub placed: PlacedImage,
    /// 0 if its rail isn't looked at, 1 if it is, 2 if it has to deliver before the next step begins.
    pub looks: u8,
    /// What is done about fault limits, as in a delivery.
    pub fault_limits: u8,
    /// What the caller says that the part lacks: 1 STATUS_WORD, 2 READ_VOUT, or the sum.
    pub lacks: u8,
    /// Not 0 if a rail of which only power good is missing counts as one that does what it is to.
    pub tells_power_good: u8,
    /// How far READ_VOUT may be away, in thousandths.
    pub within: u16,
    /// How often all is asked at most.
    pub rounds: u16,
    /// How many milliseconds pass before anything of it is sent.
    pub wait: u32,
    /// What an earlier list heard of STATUS_WORD before its first order of this output; zeros if there was none.
    pub before: Heard,
}

/// What the calls keep of a step. It has no padding.
#[repr(C)]
#[derive(Clone, Copy, Debug)]
pub struct SequenceRecordImage {
    /// The step that undoes it.
    pub back: SequenceStepImage,
    /// What was heard of its rail.
    pub look: DeliveryImage,
    /// No meaning.
    pub unused: [u8; 2],
}

impl SequenceStepImage {
    /// The number of what is wrong with the numbers.
    pub(crate) fn fault(&self) -> Option<u8>
        ensures { result ≡ result_err (step_in self.now) }
    {
        match self.placed.fault() {
            Some(number) => Some(number),
            None if !self.are_looks() => Some(NO_STEP),
            None => None,
        }
    }

    /// The step that the numbers mean, where nothing is wrong with them.
    pub(crate) fn step(&self) -> Step
        requires { result_err (step_in self.now) ≡ None }
        ensures { step_in self.now ≡ Ok result }
    {
        Step {
            placed: self.placed.placed(),
            wait: self.wait,
            looks: self.looks(),
            before: self.before,
        }
    }

    // Whether its rail can be looked at so.
    fn are_looks(&self) -> bool
        ensures { result ≡ are_looks self.now }
    {
        self.looks < 3 && self.lacks < 4
    }

    // How its rail is looked at.
    fn looks(&self) -> Looks
        ensures { result ≡ looks_asked self.now }
    {
        Looks {
            is_wanted: self.looks != 0,
            must_deliver: self.looks == 2,
            tells_power_good: self.tells_power_good != 0,
            lacks_status_word: self.lacks == 1 || self.lacks == 3,
            lacks_read_vout: self.lacks == 2 || self.lacks == 3,
            fault_limits: self.fault_limits,
            within: self.within,
            rounds: self.rounds,
        }
    }

    /// The step that undoes another one, of which nothing is looked at.
    pub(crate) fn back(host: u8, step: &WordStep) -> SequenceStepImage
        ensures { result ≡ back_image host step.now }
    {
        SequenceStepImage {
            placed: PlacedImage::of(host, step),
            looks: 0,
            fault_limits: 0,
            lacks: 0,
            tells_power_good: 0,
            within: 0,
            rounds: 0,
            wait: 0,
            before: Heard::NOTHING,
        }
    }
}
