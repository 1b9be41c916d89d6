//! A part that answers as its rows say, and a course that is carried over it.

use pm_course::{CourseEnd, FrameCourse, Sending};
use pm_frame::{pec, pec_after};
use pm_limits::Guard;

/// A part with one output.
#[derive(Clone, Copy, Debug)]
pub(crate) struct Part {
    /// What it answers for VOUT_MODE; nothing if it answers nothing.
    pub(crate) mode: Option<u8>,
    /// The payload of COEFFICIENTS: m, b, R.
    pub(crate) coefficients: [u8; 5],
    /// OPERATION, VOUT_COMMAND, VOUT_MAX, VOUT_MARGIN_HIGH, VOUT_MARGIN_LOW, VOUT_MIN.
    pub(crate) words: [u16; 6],
    /// WRITE_PROTECT.
    pub(crate) protect: u8,
    /// Whether a write takes.
    pub(crate) takes: bool,
    /// Whether its answers have a wrong PEC.
    pub(crate) wrong_pec: bool,
    /// Whether it answers nothing and acknowledges nothing.
    pub(crate) silent: bool,
    /// What VOUT_MODE answers once a word was written.
    pub(crate) next_mode: Option<u8>,
    /// The part that stands in its place later.
    pub(crate) exchange: Option<Exchange>,
}

/// An exchange of the part.
#[derive(Clone, Copy, Debug)]
pub(crate) struct Exchange {
    /// After how many frames of a course.
    pub(crate) frames: usize,
    /// What the other part answers for VOUT_MODE, and what its registers hold.
    pub(crate) mode: u8,
    pub(crate) words: [u16; 6],
}

/// What a course came to.
#[derive(Clone, Copy, Debug)]
pub(crate) struct Run {
    /// How it ended.
    pub(crate) end: Option<CourseEnd>,
    /// The command code of the first frame.
    pub(crate) first: u8,
    /// How many frames were sent, and how many of them were writes.
    pub(crate) frames: usize,
    pub(crate) writes: usize,
    /// The code and the word of the last write.
    pub(crate) code: u8,
    pub(crate) word: u16,
    /// Whether each write of a voltage came while VOUT_MODE was the first one.
    pub(crate) asked_protect: bool,
}

// The byte at a place, 0 after the end.
fn byte_at(bytes: &[u8], place: usize) -> u8 {
    match bytes.get(place) {
        Some(byte) => *byte,
        None => 0,
    }
}

// The place of a register by its code.
fn place_of(code: u8) -> Option<usize> {
    match code {
        0x01 => Some(0),
        0x21 => Some(1),
        0x24 => Some(2),
        0x25 => Some(3),
        0x26 => Some(4),
        0x2B => Some(5),
        _ => None,
    }
}

impl Part {
    // How many frames of the course were sent.
    fn after(&mut self, frames: usize) {
        if let Some(other) = self.exchange {
            if other.frames == frames {
                self.mode = Some(other.mode);
                let words = other.words;
                self.words = words;
            }
        }
    }

    // A write came: of a register by PAGE_PLUS_WRITE.
    fn write(&mut self, code: u8, word: u16) {
        if self.silent {
            return;
        }
        if let Some(mode) = self.next_mode {
            self.mode = Some(mode);
        }
        if let Some(place) = place_of(code) {
            if self.takes && place < self.words.len() {
                self.words[place] = word;
            }
        }
    }

    // What comes back for a request: the bytes and how many there are.
    fn answered(&self, request: &[u8]) -> ([u8; 8], usize) {
        let mut bytes = [0xB1, 0, 0, 0, 0, 0, 0, 0];
        if self.silent {
            return (bytes, 0);
        }
        let code = byte_at(request, 1);
        let count = if code == 0x10 {
            bytes[1] = self.protect;
            2
        } else if code == 0x30 {
            bytes[1] = 5;
            bytes[2] = self.coefficients[0];
            bytes[3] = self.coefficients[1];
            bytes[4] = self.coefficients[2];
            bytes[5] = self.coefficients[3];
            bytes[6] = self.coefficients[4];
            7
        } else {
            match self.carried(byte_at(request, 4)) {
                None => return (bytes, 0),
                Some((word, 1)) => {
                    bytes[1] = 1;
                    bytes[2] = word.to_le_bytes()[0];
                    3
                }
                Some((word, _)) => {
                    bytes[1] = 2;
                    bytes[2] = word.to_le_bytes()[0];
                    bytes[3] = word.to_le_bytes()[1];
                    4
                }
            }
        };
        let code = pec_after(pec(request), &bytes[..count]);
        bytes[count] = if self.wrong_pec { code ^ 0xFF } else { code };
        (bytes, count + 1)
    }

    // The word of a code that PAGE_PLUS_READ carries, and how many bytes it has.
    fn carried(&self, code: u8) -> Option<(u16, u8)> {
        if code == 0x20 {
            return match self.mode {
                Some(mode) => Some((u16::from(mode), 1)),
                None => None,
            };
        }
        match place_of(code) {
            Some(place) if place < self.words.len() => {
                Some((self.words[place], if place == 0 { 1 } else { 2 }))
            }
            _ => None,
        }
    }
}

/// Carries a course over a part, by 400 frames at most.
pub(crate) fn carried(mut course: FrameCourse, guard: &mut Guard, part: &mut Part) -> Run {
    let mut run = Run {
        end: None,
        first: 0,
        frames: 0,
        writes: 0,
        code: 0,
        word: 0,
        asked_protect: false,
    };
    for frames in 0..400usize {
        if guard.host().outputs() <= course.course.survey.output {
            break;
        }
        let Some(sending) = course.frame(guard) else {
            break;
        };
        run.frames = frames + 1;
        part.after(frames);
        let _ = match sending {
            Sending::Write(frame) => {
                let bytes = frame.as_slice();
                let code = byte_at(bytes, 4);
                let low = u16::from(byte_at(bytes, 5));
                let word = if byte_at(bytes, 2) == 4 {
                    low + 256 * u16::from(byte_at(bytes, 6))
                } else {
                    low
                };
                if frames == 0 {
                    run.first = code;
                }
                run.writes = run.writes.saturating_add(1);
                run.code = code;
                run.word = word;
                part.write(code, word);
                course.write_ended(guard, !part.silent)
            }
            Sending::Request { frame, .. } => {
                let bytes = frame.as_slice();
                if byte_at(bytes, 1) == 0x10 {
                    run.asked_protect = true;
                }
                if frames == 0 {
                    run.first = byte_at(bytes, 4);
                }
                let (answer, count) = part.answered(bytes);
                if 8 < count {
                    break;
                }
                course.read_ended(guard, &answer[..count])
            }
        };
    }
    run.end = course.end();
    run
}
