//! A course in a caller's memory: plain numbers, and what they mean.

ghost use Rattle.std.specs.Prelude.{◌≡◌};
ghost use Rattle.pm_rail.specs.Survey.{wanted_in};
ghost use Rattle.pm_memory.specs.Flag.{flag as spec_flag};
ghost use Rattle.pm_memory.specs.CourseImage.{course_held, course_image, course_in, differed_held, differed_image, end_in_image, has_image, is_course as spec_is_course, job_code, job_held, job_kind, job_word, plan_held, read_held, read_image, twice_held, voltages_held, voltages_image, way_held};

use crate::course_end_image::{EndNumbers, end_held, fault_held, number_of};
use crate::wanted_image::WantedImage;
use pm_course::{CourseEnd, FrameCourse, Voltages};
use pm_host::Job;
use pm_rail::{Course, Differing, Reads, Survey, Wanted};
use pm_table::{Code, cell_of};

/// The voltages that are wanted, in microvolts; 0 if none is.
#[repr(C)]
#[derive(Clone, Copy, Debug)]
pub struct VoltagesImage {
    /// That of VOUT_COMMAND.
    pub command: i64,
    /// That of VOUT_MAX.
    pub max: i64,
    /// That of VOUT_MARGIN_HIGH.
    pub margin_high: i64,
    /// That of VOUT_MARGIN_LOW.
    pub margin_low: i64,
    /// That of VOUT_MIN.
    pub min: i64,
}

/// Which cells had a good answer since the survey began: 1, or else 0.
#[repr(C)]
#[derive(Clone, Copy, Debug)]
pub struct ReadImage {
    /// OPERATION.
    pub operation: u8,
    /// VOUT_COMMAND.
    pub command: u8,
    /// VOUT_MAX.
    pub max: u8,
    /// VOUT_MARGIN_HIGH.
    pub margin_high: u8,
    /// VOUT_MARGIN_LOW.
    pub margin_low: u8,
    /// VOUT_MIN.
    pub min: u8,
    /// WRITE_PROTECT.
    pub protect: u8,
}

/// The registers of which an order differed once: 1, or else 0.
#[repr(C)]
#[derive(Clone, Copy, Debug)]
pub struct DifferedImage {
    /// OPERATION.
    pub operation: u8,
    /// VOUT_COMMAND.
    pub command: u8,
    /// VOUT_MAX.
    pub max: u8,
    /// VOUT_MARGIN_HIGH.
    pub margin_high: u8,
    /// VOUT_MARGIN_LOW.
    pub margin_low: u8,
    /// VOUT_MIN.
    pub min: u8,
}

/// The registers of which a voltage is wanted: 1, or else 0.
#[repr(C)]
#[derive(Clone, Copy, Debug)]
pub struct HasImage {
    /// VOUT_COMMAND.
    pub command: u8,
    /// VOUT_MAX.
    pub max: u8,
    /// VOUT_MARGIN_HIGH.
    pub margin_high: u8,
    /// VOUT_MARGIN_LOW.
    pub margin_low: u8,
    /// VOUT_MIN.
    pub min: u8,
}

/// A course in memory that a caller keeps. It has no padding, holds no address of memory, and may be copied.
#[repr(C)]
#[derive(Clone, Copy, Debug)]
pub struct CourseImage {
    /// 5043h, the bytes 'CP'.
    pub mark: u16,
    /// The number of this layout.
    pub version: u16,
    /// How many jobs it may still ask for.
    pub left: u16,
    /// The word of the order that it asked for, otherwise 0.
    pub word: u16,
    /// The byte that is wanted of OPERATION, if one is.
    pub byte: u16,
    /// The word of its end.
    pub end_word: u16,
    /// The words that are wanted as such.
    pub wanted: WantedImage,
    /// The voltages that are wanted.
    pub voltages: VoltagesImage,
    /// The output's number, 0 to 7.
    pub output: u8,
    /// 1 if it is to wanted words, otherwise 0.
    pub planned: u8,
    /// 1 if the format was learned since its survey began, otherwise 0.
    pub learned: u8,
    /// What it asked for and didn't hear the end of: 1 a learn, 2 a check, 3 an order, 0 nothing.
    pub asked: u8,
    /// The command code of the cell of that check or order, VOUT_MODE of a learn, otherwise 0.
    pub code: u8,
    /// 1 if it is to a byte of OPERATION, otherwise 0.
    pub has_byte: u8,
    /// 1 if something was ordered since its survey began, otherwise 0.
    pub ordered: u8,
    /// 1 if an order was read back as it was given, otherwise 0.
    pub done: u8,
    /// Which cells had a good answer since its survey began.
    pub read: ReadImage,
    /// The registers of which an order differed once.
    pub differed: DifferedImage,
    /// The registers of which a voltage is wanted.
    pub has: HasImage,
    /// What was wrong with the last answer, by its number; 0 if nothing was.
    pub fault: u8,
    /// How it ended, by its number; 0 if it goes on.
    pub end_kind: u8,
    /// The number of its refusal, otherwise 0.
    pub end_number: u8,
    /// The command code of what its end is about, otherwise 0.
    pub end_code: u8,
    /// 1 if its refusal is about a register, otherwise 0.
    pub end_has: u8,
    /// What was wrong with the last answer as it ended for want of tries, otherwise 0.
    pub end_fault: u8,
}

impl CourseImage {
    /// The mark of a course.
    pub const MARK: u16 = 0x5043;

    /// The number of the layout.
    pub const VERSION: u16 = 1;

    /// Zeros, which are no course.
    pub(crate) const BLANK: CourseImage = CourseImage {
        mark: 0,
        version: 0,
        left: 0,
        word: 0,
        byte: 0,
        end_word: 0,
        wanted: WantedImage::NOTHING,
        voltages: VoltagesImage {
            command: 0,
            max: 0,
            margin_high: 0,
            margin_low: 0,
            min: 0,
        },
        output: 0,
        planned: 0,
        learned: 0,
        asked: 0,
        code: 0,
        has_byte: 0,
        ordered: 0,
        done: 0,
        read: ReadImage {
            operation: 0,
            command: 0,
            max: 0,
            margin_high: 0,
            margin_low: 0,
            min: 0,
            protect: 0,
        },
        differed: DifferedImage {
            operation: 0,
            command: 0,
            max: 0,
            margin_high: 0,
            margin_low: 0,
            min: 0,
        },
        has: HasImage {
            command: 0,
            max: 0,
            margin_high: 0,
            margin_low: 0,
            min: 0,
        },
        fault: 0,
        end_kind: 0,
        end_number: 0,
        end_code: 0,
        end_has: 0,
        end_fault: 0,
    };

    /// A survey of nothing, with no tries.
    pub(crate) const NOTHING: CourseImage = CourseImage {
        mark: CourseImage::MARK,
        version: CourseImage::VERSION,
        ..CourseImage::BLANK
    };

    /// This course.
    pub fn of(course: &FrameCourse) -> CourseImage
        ensures { result ≡ course_image course.now }
    {
        let mut image = CourseImage::BLANK;
        image.write(course);
        image
    }

    /// The memory holds this course now, whatever stood there.
    pub fn write(&mut self, course: &FrameCourse)
        ensures { self.new ≡ course_image course.now }
    {
        let way = &course.course;
        let (asked, code, word) = job_numbers(way.survey.asked);
        let end = EndNumbers::of(course.end);
        self.mark = CourseImage::MARK;
        self.version = CourseImage::VERSION;
        self.left = way.survey.left;
        self.word = word;
        self.byte = way.byte.unwrap_or(0);
        self.end_word = end.word;
        self.wanted = WantedImage::of(&words_of(way.survey.plan));
        self.voltages = VoltagesImage::of(&course.voltages);
        self.output = way.survey.output;
        self.planned = flag(way.survey.plan.is_some());
        self.learned = flag(way.survey.learned);
        self.asked = asked;
        self.code = code;
        self.has_byte = flag(way.byte.is_some());
        self.ordered = flag(way.ordered);
        self.done = flag(way.done);
        self.read = ReadImage::of(&way.survey.read);
        self.differed = DifferedImage::of(&way.differed);
        self.has = HasImage::of(&course.voltages);
        self.fault = number_of(course.fault);
        self.end_kind = end.kind;
        self.end_number = end.number;
        self.end_code = end.code;
        self.end_has = end.has_code;
        self.end_fault = end.fault;
    }

    /// The course; `None` if the memory holds none.
    pub fn course(&self) -> Option<FrameCourse>
        ensures { result ≡ course_in self.now }
    {
        if self.is_course() {
            Some(self.held())
        } else {
            None
        }
    }

    /// Whether the memory holds a course.
    pub fn is_course(&self) -> bool
        ensures { result ≡ spec_is_course self.now }
    {
        self.mark == CourseImage::MARK && self.version == CourseImage::VERSION && self.output < 8
    }

    /// What the numbers mean of memory that holds a course.
    pub fn held(&self) -> FrameCourse
        ensures { result ≡ course_held self.now }
    {
        let end = self.end();
        FrameCourse {
            course: self.way(end),
            voltages: self.wanted_voltages(),
            fault: fault_held(self.fault),
            end,
        }
    }

    // The way.
    fn way(&self, end: Option<CourseEnd>) -> Course
        ensures { result ≡ way_held self.now end }
    {
        Course {
            survey: Survey {
                output: self.output,
                plan: self.plan(),
                left: self.left,
                learned: self.learned == 1,
                read: self.read.reads(),
                asked: self.asked(),
            },
            byte: if self.has_byte == 1 {
                Some(self.byte)
            } else {
                None
            },
            ordered: self.ordered == 1,
            done: self.done == 1,
            differed: self.differed.reads(),
            twice: twice_of(end),
        }
    }

    // The words that are wanted as such, of a course to wanted words.
    fn plan(&self) -> Option<Wanted>
        ensures { result ≡ plan_held self.now }
    {
        if self.planned == 1 {
            Some(self.wanted.wanted())
        } else {
            None
        }
    }

    // The voltages that are wanted.
    fn wanted_voltages(&self) -> Voltages
        ensures { result ≡ voltages_held self.now }
    {
        Voltages {
            command: self.voltages.command,
            max: self.voltages.max,
            margin_high: self.voltages.margin_high,
            margin_low: self.voltages.margin_low,
            min: self.voltages.min,
            has_command: self.has.command == 1,
            has_max: self.has.max == 1,
            has_margin_high: self.has.margin_high == 1,
            has_margin_low: self.has.margin_low == 1,
            has_min: self.has.min == 1,
        }
    }

    // The job that it asked for.
    fn asked(&self) -> Option<Job>
        ensures { result ≡ job_held self.now }
    {
        match self.asked {
            1 => Some(Job::Learn(self.output)),
            2 => match cell_of(Code(self.code), self.output) {
                Some(cell) => Some(Job::Check(cell)),
                None => None,
            },
            3 => match cell_of(Code(self.code), self.output) {
                Some(cell) => Some(Job::Order(cell, self.word)),
                None => None,
            },
            _ => None,
        }
    }

    // How it ended.
    fn end(&self) -> Option<CourseEnd>
        ensures { result ≡ end_in_image self.now }
    {
        end_held(&EndNumbers {
            kind: self.end_kind,
            number: self.end_number,
            code: self.end_code,
            has_code: self.end_has,
            word: self.end_word,
            fault: self.end_fault,
        })
    }
}

// The order that differed a second time, which is the end of its course.
fn twice_of(end: Option<CourseEnd>) -> Option<Differing>
    ensures { result ≡ twice_held end }
{
    match end {
        Some(CourseEnd::Differs(register, word)) => Some(Differing { register, word }),
        _ => None,
    }
}

/// 1 if it holds, otherwise 0.
pub(crate) fn flag(holds: bool) -> u8
    ensures { result ≡ spec_flag holds }
{
    if holds { 1 } else { 0 }
}

/// The numbers of the job that a course asked for: its kind, its cell's command code and its word.
pub fn job_numbers(asked: Option<Job>) -> (u8, u8, u16)
    ensures kind { result.0 ≡ job_kind asked }
    ensures code { result.1 ≡ job_code asked }
    ensures word { result.2 ≡ job_word asked }
{
    match asked {
        Some(Job::Learn(_)) => (1, Code::VOUT_MODE.0, 0),
        Some(Job::Check(cell)) => (2, cell.code().0, 0),
        Some(Job::Order(cell, word)) => (3, cell.code().0, word),
        _ => (0, 0, 0),
    }
}

// The words that are wanted as such; none if there is no plan.
fn words_of(plan: Option<Wanted>) -> Wanted
    ensures { result ≡ wanted_in plan }
{
    match plan {
        Some(words) => words,
        None => Wanted::nothing(),
    }
}

impl VoltagesImage {
    // The numbers of these voltages.
    fn of(voltages: &Voltages) -> VoltagesImage
        ensures { result ≡ voltages_image voltages.now }
    {
        VoltagesImage {
            command: voltages.command,
            max: voltages.max,
            margin_high: voltages.margin_high,
            margin_low: voltages.margin_low,
            min: voltages.min,
        }
    }
}

impl HasImage {
    // The registers of which a voltage is wanted.
    fn of(voltages: &Voltages) -> HasImage
        ensures { result ≡ has_image voltages.now }
    {
        HasImage {
            command: u8::from(voltages.has_command),
            max: u8::from(voltages.has_max),
            margin_high: u8::from(voltages.has_margin_high),
            margin_low: u8::from(voltages.has_margin_low),
            min: u8::from(voltages.has_min),
        }
    }
}

impl ReadImage {
    // The numbers of these reads.
    fn of(read: &Reads) -> ReadImage
        ensures { result ≡ read_image read.now }
    {
        ReadImage {
            operation: u8::from(read.operation),
            command: u8::from(read.command),
            max: u8::from(read.max),
            margin_high: u8::from(read.margin_high),
            margin_low: u8::from(read.margin_low),
            min: u8::from(read.min),
            protect: u8::from(read.protect),
        }
    }

    // What the numbers mean.
    fn reads(&self) -> Reads
        ensures { result ≡ read_held self.now }
    {
        Reads {
            operation: self.operation == 1,
            command: self.command == 1,
            max: self.max == 1,
            margin_high: self.margin_high == 1,
            margin_low: self.margin_low == 1,
            min: self.min == 1,
            protect: self.protect == 1,
        }
    }
}

impl DifferedImage {
    // The numbers of these registers; WRITE_PROTECT is ordered by no course.
    fn of(differed: &Reads) -> DifferedImage
        ensures { result ≡ differed_image differed.now }
    {
        DifferedImage {
            operation: u8::from(differed.operation),
            command: u8::from(differed.command),
            max: u8::from(differed.max),
            margin_high: u8::from(differed.margin_high),
            margin_low: u8::from(differed.margin_low),
            min: u8::from(differed.min),
        }
    }

    // What the numbers mean.
    fn reads(&self) -> Reads
        ensures { result ≡ differed_held self.now }
    {
        Reads {
            operation: self.operation == 1,
            command: self.command == 1,
            max: self.max == 1,
            margin_high: self.margin_high == 1,
            margin_low: self.margin_low == 1,
            min: self.min == 1,
            protect: false,
        }
    }
}
