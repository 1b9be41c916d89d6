//! A sequence in a caller's memory: plain numbers, and what they mean.

ghost use Rattle.std.specs.Prelude.{◌≡◌};
ghost use Rattle.pm_memory.specs.SequenceImage.{fresh_number, fresh_read, is_looking, phase_number, phase_read, phase_written as spec_phase_written, sequence_image, sequence_in, sequence_meant, told_read, told_written};
ghost use Rattle.pm_table.specs.Rules.{rule};
ghost use Rattle.pm_table.specs.Cell.{output_of as spec_output_of};

use crate::course_image::flag;
use crate::list_image::ListImage;
use crate::look_image::LookImage;
use crate::sequence_end::SequenceEndImage;
use pm_host::Job;
use pm_sequence::{Fresh, Phase, Sequence};
use pm_table::{Cell, Code, cell_of};

/// What was said last. It has no padding.
#[repr(C)]
#[derive(Clone, Copy, Debug)]
pub struct SaidImage {
    /// 0 of a wait; as in [`SequenceEndImage`]; 9 the way back would be refused, 13 the rail does what it is to.
    pub kind: u8,
    /// The number of the refusal, otherwise 0.
    pub number: u8,
    /// The command code of the register, 0 if it is about none.
    pub code: u8,
    /// What the rail does, otherwise 0.
    pub verdict: u8,
    /// The number of the bit of a new fault, otherwise 0.
    pub bit: u8,
    /// 1 if READ_VOUT stands here, otherwise 0.
    pub has_microvolts: u8,
    /// What was read, or how many steps were left; otherwise 0.
    pub word: u16,
    /// What was wrong with the last answer, otherwise 0.
    pub fault: u16,
    /// The place of the step in the list.
    pub step: u16,
    /// How long is to be waited, otherwise 0.
    pub milliseconds: u32,
    /// READ_VOUT in microvolts, rounded down, otherwise 0.
    pub microvolts: i64,
}

/// The order that was told last, if nothing has begun since, and whose survey is fresh. It has no padding.
#[repr(C)]
#[derive(Clone, Copy, Debug)]
pub struct ToldImage {
    /// 1 if there is one, otherwise 0.
    pub has: u8,
    /// The command code of its register, otherwise 0.
    pub code: u8,
    /// Its output, otherwise 0.
    pub output: u8,
    /// Whose survey began anew, with nothing sent since but its reads: 1 the step's under way, 2 the first step's ahead, otherwise none.
    pub fresh: u8,
    /// Its word, otherwise 0.
    pub word: u16,
}

/// A sequence in memory that a caller keeps. It has no padding, holds no address of memory, and may be copied.
#[repr(C)]
#[derive(Clone, Copy, Debug)]
pub struct SequenceImage {
    /// 5153h, the bytes 'SQ'.
    pub mark: u16,
    /// The number of this layout.
    pub version: u16,
    /// How many steps were left.
    pub left: u16,
    /// 1 if a step that stops is left, otherwise 0.
    pub leaves: u8,
    /// 1 if each order is told before it begins, otherwise 0.
    pub asks: u8,
    /// What was said last.
    pub said: SaidImage,
    /// How far the list of steps has come.
    pub list: ListImage,
    /// The look at a rail.
    pub look: LookImage,
    /// The place of the host whose output is looked at.
    pub look_host: u8,
    /// What is looked at: 1 what stands before the first order, 2 what the rail does, otherwise nothing. 4 more if the step under way lowers its
    /// output.
    pub phase: u8,
    /// 1 if what stands before was read, otherwise 0.
    pub is_read: u8,
    /// 1 if the first step ahead may be asked, otherwise 0.
    pub is_shown: u8,
    /// 1 if its wait is over, otherwise 0.
    pub is_waited: u8,
    /// 1 if the rail of the step under way was looked at, otherwise 0.
    pub is_looked: u8,
    /// How it ended.
    pub end: SequenceEndImage,
    /// The order that was told last.
    pub told: ToldImage,
}

impl SaidImage {
    /// Nothing was said.
    pub const NOTHING: SaidImage = SaidImage {
        kind: 0,
        number: 0,
        code: 0,
        verdict: 0,
        bit: 0,
        has_microvolts: 0,
        word: 0,
        fault: 0,
        step: 0,
        milliseconds: 0,
        microvolts: 0,
    };
}

impl ToldImage {
    // This order, or none.
    fn of(told: Option<Job>, fresh: Fresh) -> ToldImage
        ensures { result ≡ told_written told fresh }
    {
        let fresh = fresh_number(fresh);
        match told {
            Some(Job::Order(cell, word)) => ToldImage {
                has: 1,
                code: cell.code().0,
                output: output_of(cell),
                fresh,
                word,
            },
            _ => ToldImage {
                has: 0,
                code: 0,
                output: 0,
                fresh,
                word: 0,
            },
        }
    }

    // What the numbers mean.
    fn told(&self) -> Option<Job>
        ensures { result ≡ told_read self.now }
    {
        if self.has != 1 {
            return None;
        }
        match cell_of(Code(self.code), self.output) {
            Some(cell) => Some(Job::Order(cell, self.word)),
            None => None,
        }
    }
}

// The output of a cell; 0 of WRITE_PROTECT.
fn output_of(cell: Cell) -> u8
    ensures { result ≡ spec_output_of cell }
{
    match cell {
        Cell::Out(output, _) => output,
        Cell::Protect => 0,
    }
}

impl SequenceImage {
    /// The mark of a sequence.
    pub const MARK: u16 = 0x5153;

    /// The number of the layout.
    pub const VERSION: u16 = 1;

    /// The image of a sequence, with what was said last.
    pub fn of(sequence: &Sequence, said: SaidImage) -> SequenceImage
        ensures { result ≡ sequence_image sequence.now said }
    {
        let mut image = SequenceImage {
            mark: 0,
            version: 0,
            left: 0,
            leaves: 0,
            asks: 0,
            said,
            list: ListImage::BLANK,
            look: LookImage::of(&sequence.look, 0),
            look_host: 0,
            phase: 0,
            is_read: 0,
            is_shown: 0,
            is_waited: 0,
            is_looked: 0,
            end: SequenceEndImage::of(None),
            told: ToldImage::of(None, Fresh::Nothing),
        };
        image.write(sequence, said);
        image
    }

    /// The memory holds this sequence now, with what was said last, whatever stood there.
    pub fn write(&mut self, sequence: &Sequence, said: SaidImage)
        ensures { self.new ≡ sequence_image sequence.now said }
    {
        self.mark = SequenceImage::MARK;
        self.version = SequenceImage::VERSION;
        self.left = sequence.left;
        self.leaves = flag(sequence.leaves);
        self.asks = flag(sequence.asks);
        self.said = said;
        self.list.write(&sequence.list);
        self.look.write(&sequence.look, sequence.turned_on);
        self.look_host = sequence.look_host;
        self.phase = phase_written(sequence.phase, sequence.lowers);
        self.is_read = flag(sequence.is_read);
        self.is_shown = flag(sequence.is_shown);
        self.is_waited = flag(sequence.is_waited);
        self.is_looked = flag(sequence.is_looked);
        self.end = SequenceEndImage::of(sequence.end);
        self.told = ToldImage::of(sequence.told, sequence.fresh);
    }

    /// Whether the memory holds a sequence.
    pub fn is_sequence(&self) -> bool
        ensures { sequence_in self.now ≡ rule result (sequence_meant self.now) }
    {
        if self.mark != SequenceImage::MARK || self.version != SequenceImage::VERSION {
            return false;
        }
        self.list.is_list()
    }

    /// Whether a rail is looked at.
    pub fn looks(&self) -> bool
        ensures { result ≡ is_looking (phase_read self.now.phase) }
    {
        match phase_of(self.phase) {
            Phase::Steps => false,
            Phase::Before | Phase::After => true,
        }
    }

    /// What the numbers mean of memory that holds a sequence.
    pub fn hold(&self, is: &mut Sequence)
        ensures { is.new ≡ sequence_meant self.now }
    {
        self.list.hold(&mut is.list);
        self.look.hold(&mut is.look);
        is.look_host = self.look_host;
        is.phase = phase_of(self.phase);
        is.is_read = self.is_read == 1;
        is.is_shown = self.is_shown == 1;
        is.is_waited = self.is_waited == 1;
        is.is_looked = self.is_looked == 1;
        is.leaves = self.leaves == 1;
        is.asks = self.asks == 1;
        is.told = self.told.told();
        is.fresh = fresh_of(self.told.fresh);
        is.turned_on = self.look.turned_on;
        is.lowers = 3 < self.phase;
        is.left = self.left;
        is.end = self.end.end();
    }
}

// Whose survey is fresh, by its number.
pub(crate) fn fresh_of(number: u8) -> Fresh
    ensures { result ≡ fresh_read number }
{
    match number {
        1 => Fresh::Under,
        2 => Fresh::Ahead,
        _ => Fresh::Nothing,
    }
}

pub(crate) fn fresh_number(fresh: Fresh) -> u8
    ensures { result ≡ fresh_number fresh }
{
    match fresh {
        Fresh::Nothing => 0,
        Fresh::Under => 1,
        Fresh::Ahead => 2,
    }
}

// What is looked at, by its number.
fn phase_of(number: u8) -> Phase
    ensures { result ≡ phase_read number }
{
    match number {
        1 | 5 => Phase::Before,
        2 | 6 => Phase::After,
        _ => Phase::Steps,
    }
}

// With 4 more if the step under way lowers its output.
fn phase_written(phase: Phase, lowers: bool) -> u8
    ensures { result ≡ spec_phase_written phase lowers }
{
    phase_number(phase) + if lowers { 4 } else { 0 }
}

fn phase_number(phase: Phase) -> u8
    ensures { result ≡ phase_number phase }
{
    match phase {
        Phase::Steps => 0,
        Phase::Before => 1,
        Phase::After => 2,
    }
}
