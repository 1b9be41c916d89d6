//! Steps, and the steps that undo them.

ghost use Rattle.std.specs.Prelude.{◌≡◌, ◌<◌};
ghost use Rattle.pm_host.specs.Image.{held};
ghost use Rattle.pm_host.specs.Summary.{possible_at};
ghost use Rattle.pm_rail.specs.Known.{known_word, sole};
ghost use Rattle.pm_table.specs.Cell.{IsCell};
ghost use Rattle.pm_stairs.specs.Steps.{back_word, byte_back, noted as spec_noted, step_course, step_of_words, step_with, to_rest, wish_of as spec_wish_of, wishes_of as spec_wishes_of, words_back as spec_words_back};
ghost use Rattle.std.specs.Prelude.{None};

use pm_course::{CourseEnd, FrameCourse, Wish, Wishes};
use pm_host::State;
use pm_rail::Wanted;
use pm_table::{Cell, Reg};

/// What a step does to its output.
#[derive(Clone, Copy, Debug, PartialEq, Eq)]
pub enum Act {
    /// Its registers get these words or voltages, by the plan. A voltage gets its word as the step begins, by the format that is known then.
    Sets(Wishes),
    /// Its registers get these words, by the plan.
    Words(Wanted),
    /// OPERATION gets this byte: on, off, or a margin.
    Turns(u16),
    /// Nothing is ordered: all that decides what the output commands is read.
    Surveys,
    /// Nothing is ordered or read: the step is over once its host is idle.
    Rests,
}

/// A step: an output, and what is done to it.
#[derive(Clone, Copy, Debug, PartialEq, Eq)]
pub struct Step {
    /// The output.
    pub output: u8,
    /// What is done to it.
    pub act: Act,
}

/// What a step does, in words.
#[derive(Clone, Copy, Debug, PartialEq, Eq)]
pub enum WordAct {
    /// Registers get these words, by the plan.
    Sets(Wanted),
    /// OPERATION gets this byte.
    Turns(u16),
    /// Nothing is ordered.
    Nothing,
}

/// A step in words: one that has begun, or one that undoes it.
#[derive(Clone, Copy, Debug, PartialEq, Eq)]
pub struct WordStep {
    /// The output.
    pub output: u8,
    /// What is done to it.
    pub act: WordAct,
}

impl Step {
    // The course of the step.
    pub(crate) fn course(&self, tries: u16) -> FrameCourse
        ensures { result ≡ step_course self.now tries }
    {
        match self.act {
            Act::Sets(wishes) => FrameCourse::new(self.output, &wishes, tries),
            Act::Words(words) => FrameCourse::new(self.output, &wishes_of(&words), tries),
            Act::Turns(byte) => FrameCourse::power(self.output, byte, tries),
            Act::Surveys => FrameCourse::survey(self.output, tries),
            Act::Rests => rest(self.output, tries),
        }
    }

    // The step in words, if its wishes have these.
    pub(crate) fn with_words(&self, words: Wanted) -> WordStep
        ensures { result ≡ step_with self.now words }
    {
        WordStep {
            output: self.output,
            act: match self.act {
                Act::Sets(_) => WordAct::Sets(words),
                Act::Words(wanted) => WordAct::Sets(wanted),
                Act::Turns(byte) => WordAct::Turns(byte),
                Act::Surveys | Act::Rests => WordAct::Nothing,
            },
        }
    }
}

impl WordStep {
    /// This step, to be carried out.
    pub fn step(&self) -> Step
        ensures { result ≡ step_of_words self.now }
    {
        Step {
            output: self.output,
            act: match self.act {
                WordAct::Sets(words) => Act::Words(words),
                WordAct::Turns(byte) => Act::Turns(byte),
                WordAct::Nothing => Act::Rests,
            },
        }
    }

    // The step that undoes it, if it begins now: each word that it changes is to be as it is known to be. The output's number is
    // below 8.
    pub(crate) fn noted(&self, host: &State) -> WordStep
        requires { self.now.output < 8 }
        ensures { result ≡ spec_noted (held None host.now) self.now }
    {
        WordStep {
            output: self.output,
            act: match self.act {
                WordAct::Sets(words) => WordAct::Sets(words_back(host, self.output, &words)),
                WordAct::Turns(_) => WordAct::Turns(byte_known(host, self.output)),
                WordAct::Nothing => WordAct::Nothing,
            },
        }
    }
}

// The course of a survey that has ended before anything is read.
fn rest(output: u8, tries: u16) -> FrameCourse
    ensures { result ≡ to_rest output tries }
{
    let mut course = FrameCourse::survey(output, tries);
    course.end = Some(CourseEnd::Reached);
    course
}

// The words that are wanted, as wishes.
fn wishes_of(words: &Wanted) -> Wishes
    ensures { result ≡ spec_wishes_of words.now }
{
    Wishes {
        command: wish_of(words.command),
        max: wish_of(words.max),
        margin_high: wish_of(words.margin_high),
        margin_low: wish_of(words.margin_low),
        min: wish_of(words.min),
    }
}

fn wish_of(word: Option<u16>) -> Wish
    ensures { result ≡ spec_wish_of word }
{
    match word {
        None => Wish::Stay,
        Some(word) => Wish::Word(word),
    }
}

// The words that are known of the registers of which one is wanted.
fn words_back(host: &State, output: u8, words: &Wanted) -> Wanted
    requires { output < 8 }
    ensures { result ≡ spec_words_back (held None host.now) output words.now }
{
    Wanted {
        command: word_back(host, output, Reg::VoutCommand, words.command),
        max: word_back(host, output, Reg::VoutMax, words.max),
        margin_high: word_back(host, output, Reg::MarginHigh, words.margin_high),
        margin_low: word_back(host, output, Reg::MarginLow, words.margin_low),
        min: word_back(host, output, Reg::VoutMin, words.min),
    }
}

// The word that is known of a register, if one is wanted of it.
fn word_back(host: &State, output: u8, register: Reg, wanted: Option<u16>) -> Option<u16>
    requires { output < 8 }
    ensures { result ≡ back_word (held None host.now) output register wanted }
{
    match wanted {
        None => None,
        Some(_) => known_in(host, Cell::Out(output, register)),
    }
}

// The byte that OPERATION is known to hold, or 0.
fn byte_known(host: &State, output: u8) -> u16
    requires { output < 8 }
    ensures { result ≡ byte_back (held None host.now) output }
{
    match only_in(host, Cell::Out(output, Reg::Operation)) {
        Some(byte) => byte,
        None => 0,
    }
}

// The only word that a cell may hold.
pub(crate) fn only_in(host: &State, cell: Cell) -> Option<u16>
    requires { IsCell 8 cell }
    ensures { result ≡ sole (possible_at (held None host.now) cell) }
{
    match host.known.possible(cell).listed() {
        Some([word]) => Some(*word),
        _ => None,
    }
}

// The only word that a cell may hold, if it is one that the cell takes.
pub(crate) fn known_in(host: &State, cell: Cell) -> Option<u16>
    requires { IsCell 8 cell }
    ensures { result ≡ known_word cell (possible_at (held None host.now) cell) }
{
    match host.known.possible(cell).listed() {
        Some([word]) if cell.accepts(*word) => Some(*word),
        _ => None,
    }
}
