//! What a step of a list does, in a caller's memory: plain numbers, and what they mean.

ghost use Rattle.std.specs.Prelude.{◌≡◌, is_some, true, None, Ok, Some};
ghost use Rattle.std.specs.Result.{result_err};
ghost use Rattle.pm_memory.specs.Placed.{act_asked, are_wishes as spec_are_wishes, is_wish as spec_is_wish, placed_in, step_image, step_numbers, wish_asked, wishes_asked, word_image};

use crate::numbers::NO_STEP;
use pm_course::{Wish, Wishes};
use pm_host::HostFault;
use pm_rail::Wanted;
use pm_stairs::{Act, Placed, Step, WordAct, WordStep};

/// What a step asks for of a register.
#[repr(C)]
#[derive(Clone, Copy, Debug)]
pub struct StepWishImage {
    /// 0 if it stays, 1 a word, 2 a voltage.
    pub kind: u16,
    /// The word, otherwise 0.
    pub word: u16,
    /// The voltage, otherwise 0.
    pub microvolts: i32,
}

/// A step of one of several parts. It has no padding.
#[repr(C)]
#[derive(Clone, Copy, Debug)]
pub struct PlacedImage {
    /// The place of its host, 0 to 7.
    pub host: u8,
    /// Its output.
    pub output: u8,
    /// 1 if registers get words or voltages, 2 if OPERATION gets a byte, 3 if nothing is ordered and the output is surveyed, 4 if nothing
    /// is ordered or read.
    pub kind: u8,
    /// The byte, otherwise 0.
    pub byte: u8,
    /// No meaning.
    pub unused: [u8; 4],
    /// What is asked for of VOUT_COMMAND.
    pub command: StepWishImage,
    /// That of VOUT_MAX.
    pub max: StepWishImage,
    /// That of VOUT_MARGIN_HIGH.
    pub margin_high: StepWishImage,
    /// That of VOUT_MARGIN_LOW.
    pub margin_low: StepWishImage,
    /// That of VOUT_MIN.
    pub min: StepWishImage,
}

// The kinds of wishes.
const WORD: u16 = 1;

const MICROVOLTS: u16 = 2;

// The kinds of steps.
const SETS: u8 = 1;

const TURNS: u8 = 2;

const SURVEYS: u8 = 3;

const RESTS: u8 = 4;

impl StepWishImage {
    // Whether there is such a wish.
    fn is_wish(&self) -> bool
        ensures { result ≡ spec_is_wish self.now }
    {
        self.kind < 3
    }

    // What the numbers mean.
    fn wish(&self) -> Wish
        ensures { result ≡ wish_asked self.now }
    {
        if self.kind == WORD {
            Wish::Word(self.word)
        } else if self.kind == MICROVOLTS {
            Wish::Microvolts(i64::from(self.microvolts))
        } else {
            Wish::Stay
        }
    }

    // The image of a word, or of none.
    fn of(word: Option<u16>) -> StepWishImage
        ensures { result ≡ word_image word }
    {
        StepWishImage {
            kind: u16::from(word.is_some()),
            word: word.unwrap_or(0),
            microvolts: 0,
        }
    }
}

impl PlacedImage {
    /// The number of what is wrong with the numbers.
    pub(crate) fn fault(&self) -> Option<u8>
        ensures { result ≡ result_err (placed_in self.now) }
    {
        if 8 <= self.output {
            return Some(HostFault::UnknownOutput.number());
        }
        if 8 <= self.host || !self.is_act() {
            return Some(NO_STEP);
        }
        None
    }

    // Whether it does something.
    fn is_act(&self) -> bool
        ensures { result ≡ is_some (act_asked self.now) }
    {
        match self.kind {
            SETS => self.are_wishes(),
            TURNS | SURVEYS | RESTS => true,
            _ => false,
        }
    }

    /// The step that the numbers mean, where nothing is wrong with them.
    pub(crate) fn placed(&self) -> Placed
        requires { result_err (placed_in self.now) ≡ None }
        ensures { placed_in self.now ≡ Ok result }
    {
        Placed {
            host: self.host,
            step: Step {
                output: self.output,
                act: self.act(),
            },
        }
    }

    // What it does, where it does something.
    fn act(&self) -> Act
        requires { is_some (act_asked self.now) ≡ true }
        ensures { act_asked self.now ≡ Some result }
    {
        match self.kind {
            SETS => Act::Sets(self.wishes()),
            TURNS => Act::Turns(u16::from(self.byte)),
            SURVEYS => Act::Surveys,
            _ => Act::Rests,
        }
    }

    // Whether there are such wishes.
    fn are_wishes(&self) -> bool
        ensures { result ≡ spec_are_wishes self.now }
    {
        self.command.is_wish()
            && self.max.is_wish()
            && self.margin_high.is_wish()
            && self.margin_low.is_wish()
            && self.min.is_wish()
    }

    // What it asks for.
    fn wishes(&self) -> Wishes
        ensures { result ≡ wishes_asked self.now }
    {
        Wishes {
            command: self.command.wish(),
            max: self.max.wish(),
            margin_high: self.margin_high.wish(),
            margin_low: self.margin_low.wish(),
            min: self.min.wish(),
        }
    }

    /// The image of a step in words.
    pub fn of(host: u8, step: &WordStep) -> PlacedImage
        ensures { result ≡ step_image host step.now }
    {
        match step.act {
            WordAct::Sets(wanted) => numbers(host, step.output, SETS, 0, &wanted),
            WordAct::Turns(byte) => numbers(
                host,
                step.output,
                TURNS,
                (byte % 256) as u8,
                &Wanted::nothing(),
            ),
            WordAct::Nothing => numbers(host, step.output, RESTS, 0, &Wanted::nothing()),
        }
    }
}

// The numbers of a step.
fn numbers(host: u8, output: u8, kind: u8, byte: u8, wanted: &Wanted) -> PlacedImage
    ensures { result ≡ step_numbers host output kind byte wanted.now }
{
    PlacedImage {
        host,
        output,
        kind,
        byte,
        unused: [0; 4],
        command: StepWishImage::of(wanted.command),
        max: StepWishImage::of(wanted.max),
        margin_high: StepWishImage::of(wanted.margin_high),
        margin_low: StepWishImage::of(wanted.margin_low),
        min: StepWishImage::of(wanted.min),
    }
}
