//! How far a list of steps has come, in a caller's memory: plain numbers, and what they mean.

ghost use Rattle.std.specs.Prelude.{◌≡◌, ◌==◌, is_some, option_map};
ghost use Rattle.pm_table.specs.Rules.{rule};
ghost use Rattle.pm_memory.specs.CourseImage.{course_held};
ghost use Rattle.pm_memory.specs.ListImage.{course_written, list_image, list_in, list_meant, under_image, under_numbers, under_words, with_its_course};

use crate::course_image::{CourseImage, flag};
use crate::wanted_image::WantedImage;
use pm_course::FrameCourse;
use pm_rail::Wanted;
use pm_stairs::{Sequence, Under, WordAct, WordStep};

/// The words of a step that has begun, and the marks of a list, as plain numbers.
#[repr(C)]
#[derive(Clone, Copy, Debug)]
pub struct UnderImage {
    /// 0 if none has begun, 1 if registers get words, 2 if OPERATION gets a byte, 3 if nothing is ordered.
    pub kind: u8,
    /// The place of its host.
    pub host: u8,
    /// Its output.
    pub output: u8,
    /// 1 if it was over just now, otherwise 0.
    pub is_free: u8,
    /// 1 if it was said that the next one has no way back, otherwise 0.
    pub is_warned: u8,
    /// 1 if what was said last is of the first step ahead, otherwise 0.
    pub is_reading: u8,
    /// 1 if a restart was seen, otherwise 0.
    pub is_restarted: u8,
    /// 1 if the course of the first step ahead has begun to read, otherwise 0.
    pub has_coming: u8,
    /// The byte.
    pub byte: u16,
    /// No meaning.
    pub unused: u16,
    /// The words.
    pub words: WantedImage,
}

/// How far a list of steps has come. It has no padding.
#[repr(C)]
#[derive(Clone, Copy, Debug)]
pub struct ListImage {
    /// How many jobs each step has at most.
    pub tries: u16,
    /// How many steps have begun.
    pub begun: u16,
    /// The place of the host that the next call takes.
    pub host: u8,
    /// 1 if a way back is kept, otherwise 0.
    pub keeps_back: u8,
    /// 1 if a restart of a part that was seen ends them, otherwise 0.
    pub ends_at_restart: u8,
    /// No meaning.
    pub unused: u8,
    /// The step under way, and marks.
    pub under: UnderImage,
    /// The course of the step under way.
    pub course: CourseImage,
    /// The course of the first step ahead.
    pub coming: CourseImage,
}

// The kinds of steps.
const SETS: u8 = 1;

const TURNS: u8 = 2;

const NOTHING: u8 = 3;

impl ListImage {
    /// Zeros.
    pub(crate) const BLANK: ListImage = ListImage {
        tries: 0,
        begun: 0,
        host: 0,
        keeps_back: 0,
        ends_at_restart: 0,
        unused: 0,
        under: UnderImage {
            kind: 0,
            host: 0,
            output: 0,
            is_free: 0,
            is_warned: 0,
            is_reading: 0,
            is_restarted: 0,
            has_coming: 0,
            byte: 0,
            unused: 0,
            words: WantedImage::NOTHING,
        },
        course: CourseImage::BLANK,
        coming: CourseImage::BLANK,
    };

    /// The memory holds this list now, whatever stood there.
    pub fn write(&mut self, list: &Sequence)
        ensures { self.new ≡ list_image list.now }
    {
        self.tries = list.tries;
        self.begun = list.begun;
        self.host = list.host;
        self.keeps_back = flag(list.keeps_back);
        self.ends_at_restart = flag(list.ends_at_restart);
        self.unused = 0;
        self.under.write(list);
        write_under(&mut self.course, &list.stairs.under);
        write_course(&mut self.coming, &list.stairs.coming);
    }

    /// Whether the memory holds a list.
    pub fn is_list(&self) -> bool
        ensures { list_in self.now ≡ rule result (list_meant self.now) }
    {
        self.course.is_course() && self.coming.is_course()
    }

    /// What the numbers mean of memory that holds a list.
    pub(crate) fn hold(&self, list: &mut Sequence)
        ensures { list.new ≡ list_meant self.now }
    {
        self.hold_under(&mut list.stairs.under);
        self.hold_coming(&mut list.stairs.coming);
        list.stairs.reading = self.under.is_reading == 1;
        list.stairs.restarted = self.under.is_restarted == 1;
        list.tries = self.tries;
        list.begun = self.begun;
        list.host = self.host;
        list.under_host = self.under.host;
        list.is_free = self.under.is_free == 1;
        list.is_warned = self.under.is_warned == 1;
        list.keeps_back = self.keeps_back == 1;
        list.ends_at_restart = self.ends_at_restart == 1;
    }

    // The step under way.
    fn hold_under(&self, under: &mut Option<Under>)
        ensures { under.new ≡ option_map (with_its_course (course_held self.now.course)) (under_words self.now.under) }
    {
        match self.under.step() {
            Some(step) => {
                *under = Some(Under {
                    step,
                    course: self.course.held(),
                });
            }
            None => {
                if under.is_some() {
                    *under = None;
                }
            }
        }
    }

    // The course of the first step ahead, once it has read something.
    fn hold_coming(&self, coming: &mut Option<FrameCourse>)
        ensures { coming.new ≡ rule (self.now.under.has_coming == 1) (course_held self.now.coming) }
    {
        if self.under.has_coming == 1 {
            *coming = Some(self.coming.held());
        } else if coming.is_some() {
            *coming = None;
        }
    }
}

// The memory holds the course of the step under way now; that of a survey of nothing if there is none.
fn write_under(image: &mut CourseImage, under: &Option<Under>)
    ensures { image.new ≡ course_written (option_map (λ under. under.course) under.now) }
{
    match under {
        Some(under) => image.write(&under.course),
        None => *image = CourseImage::NOTHING,
    }
}

// The memory holds this course now; that of a survey of nothing if there is none.
fn write_course(image: &mut CourseImage, course: &Option<FrameCourse>)
    ensures { image.new ≡ course_written course.now }
{
    match course {
        Some(course) => image.write(course),
        None => *image = CourseImage::NOTHING,
    }
}

impl UnderImage {
    // The memory holds the step under way and the marks of a list now.
    fn write(&mut self, list: &Sequence)
        ensures { self.new ≡ under_image list.now list.now.stairs.under }
    {
        match &list.stairs.under {
            None => self.put(list, 0, 0, 0, &Wanted::nothing()),
            Some(under) => match &under.step.act {
                WordAct::Sets(wanted) => self.put(list, SETS, under.step.output, 0, wanted),
                WordAct::Turns(byte) => {
                    self.put(list, TURNS, under.step.output, *byte, &Wanted::nothing())
                }
                WordAct::Nothing => {
                    self.put(list, NOTHING, under.step.output, 0, &Wanted::nothing())
                }
            },
        }
    }

    // The memory holds the numbers of a step and the marks of a list now.
    fn put(&mut self, list: &Sequence, kind: u8, output: u8, byte: u16, wanted: &Wanted)
        ensures { self.new ≡ under_numbers list.now kind output byte wanted.now }
    {
        self.kind = kind;
        self.host = list.under_host;
        self.output = output;
        self.is_free = u8::from(list.is_free);
        self.is_warned = u8::from(list.is_warned);
        self.is_reading = u8::from(list.stairs.reading);
        self.is_restarted = u8::from(list.stairs.restarted);
        self.has_coming = u8::from(list.stairs.coming.is_some());
        self.byte = byte;
        self.unused = 0;
        self.words = WantedImage::of(wanted);
    }

    // Whether a step has begun.
    pub(crate) fn has_step(&self) -> bool
        ensures { result ≡ is_some (under_words self.now) }
    {
        0 < self.kind && self.kind < 4
    }

    // The step under way.
    fn step(&self) -> Option<WordStep>
        ensures { result ≡ under_words self.now }
    {
        let output = self.output;
        match self.kind {
            SETS => Some(WordStep {
                output,
                act: WordAct::Sets(self.words.wanted()),
            }),
            TURNS => Some(WordStep {
                output,
                act: WordAct::Turns(self.byte),
            }),
            NOTHING => Some(WordStep {
                output,
                act: WordAct::Nothing,
            }),
            _ => None,
        }
    }
}
