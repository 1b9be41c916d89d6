//! Parts with two outputs, which answer as their fields say, and a sequence that is carried over them.

use pm_course::Sending;
use pm_delivery::Verdict;
use pm_frame::{pec, pec_after};
use pm_limits::Guard;
use pm_sequence::{Act, End, Sequence, Step};

/// A part whose voltages are ULINEAR16 with the exponent -12.
#[derive(Clone, Copy, Debug)]
pub(crate) struct Part {
    /// OPERATION, VOUT_COMMAND, VOUT_MAX, VOUT_MARGIN_HIGH, VOUT_MARGIN_LOW, VOUT_MIN of both outputs.
    pub(crate) words: [[u16; 6]; 2],
    /// STATUS_WORD beside OFF and POWER_GOOD#, which follow OPERATION; none if the part has no such register.
    pub(crate) status: Option<u16>,
    /// Whether the part has READ_VOUT, which follows VOUT_COMMAND.
    pub(crate) has_vout: bool,
    /// VOUT_OV_FAULT_LIMIT; none if the part has no such register.
    pub(crate) limit: Option<u16>,
    /// After how many frames it answers nothing more.
    pub(crate) gone_after: usize,
    /// Whether writes of output 0 do nothing.
    pub(crate) is_deaf: bool,
    /// Whether OFF is 1 whatever OPERATION says.
    pub(crate) is_dead: bool,
    /// How many frames it has seen.
    pub(crate) frames: usize,
    /// How many of these were writes.
    pub(crate) writes: usize,
    /// After how many frames it restarts.
    pub(crate) restarts: Option<usize>,
    /// The words of output 0 that it has then.
    pub(crate) anew: [u16; 6],
    /// How many frames it doesn't answer as it restarts.
    pub(crate) silent: usize,
    /// How many writes it doesn't hear.
    pub(crate) loses: usize,
    /// How many frames it doesn't answer after each write that it doesn't hear.
    pub(crate) mutes: usize,
    /// How many of these are left.
    pub(crate) mute: usize,
    /// How often READ_VOUT still reads 1.5 V.
    pub(crate) ramps: usize,
    /// The bits that OPERATION reads as 1 whatever was written.
    pub(crate) reserved: u16,
    /// The command codes of its frames, the register's of one by PAGE_PLUS.
    pub(crate) codes: [u8; 96],
}

/// What a sequence came to.
#[derive(Clone, Copy, Debug)]
pub(crate) struct Run {
    /// How it ended.
    pub(crate) end: Option<End>,
    /// What was said last of a rail that does what it is to.
    pub(crate) found: Option<Verdict>,
    /// How often that was said.
    pub(crate) founds: usize,
    /// Why the last step was left that was.
    pub(crate) left: Option<End>,
    /// The milliseconds that were waited before steps.
    pub(crate) waits: u32,
    /// How often was waited before all was asked again.
    pub(crate) pauses: usize,
    /// How many orders were told before they began.
    pub(crate) orders: usize,
}

fn byte_at(bytes: &[u8], place: usize) -> u8 {
    match bytes.get(place) {
        Some(byte) => *byte,
        None => 0,
    }
}

fn place_of(code: u8) -> Option<usize> {
    match code {
        0x01 => Some(0),
        0x21 => Some(1),
        0x24 => Some(2),
        0x25 => Some(3),
        0x26 => Some(4),
        0x2B => Some(5),
        _ => None,
    }
}

impl Part {
    // The word of a register of an output.
    fn word(&self, output: u8, place: usize) -> u16 {
        match self.words.get(usize::from(output)) {
            Some(words) => match words.get(place) {
                Some(word) => *word,
                None => 0,
            },
            None => 0,
        }
    }

    // A write by PAGE_PLUS_WRITE: the address, the code, the count, the page, the register's code, its bytes.
    fn write(&mut self, bytes: &[u8]) -> bool {
        let is_gone = self.counts(bytes);
        self.writes = self.writes.saturating_add(1);
        if 0 < self.loses {
            self.loses -= 1;
            self.mute = self.mutes;
            return false;
        }
        let output = byte_at(bytes, 3);
        if is_gone || (self.is_deaf && output == 0) {
            return !is_gone;
        }
        let low = u16::from(byte_at(bytes, 5));
        let word = if byte_at(bytes, 2) == 4 {
            low + 256 * u16::from(byte_at(bytes, 6))
        } else {
            low
        };
        if let Some(place) = place_of(byte_at(bytes, 4)) {
            if let Some(words) = self.words.get_mut(usize::from(output)) {
                if let Some(held) = words.get_mut(place) {
                    *held = word;
                }
            }
        }
        true
    }

    // One frame more; whether it gets no answer.
    fn counts(&mut self, bytes: &[u8]) -> bool {
        let mut is_gone = self.gone_after <= self.frames;
        if 0 < self.mute {
            self.mute -= 1;
            is_gone = true;
        }
        let anew = self.anew;
        if let Some(frames) = self.restarts {
            if frames <= self.frames {
                if 0 < self.silent {
                    self.silent -= 1;
                    is_gone = true;
                } else {
                    for (word, new) in self.words[0].iter_mut().zip(anew.iter()) {
                        *word = *new;
                    }
                    self.restarts = None;
                }
            }
        }
        let is_plain = byte_at(bytes, 1) == 0x10;
        if let Some(code) = self.codes.get_mut(self.frames) {
            *code = byte_at(bytes, if is_plain { 1 } else { 4 });
        }
        self.frames = self.frames.saturating_add(1);
        is_gone
    }

    // The word of a register and how many bytes it has, if the part has it.
    fn carried(&self, output: u8, code: u8) -> Option<(u16, u8)> {
        let off = self.is_dead || self.word(output, 0) & 0x80 == 0;
        match code {
            0x20 => Some((0x14, 1)),
            0x79 => self
                .status
                .map(|status| (if off { status | 0x0840 } else { status }, 2)),
            0x8B if self.has_vout && 0 < self.ramps => Some((0x1800, 2)),
            0x8B if self.has_vout => Some((self.word(output, 1), 2)),
            0x40 => self.limit.map(|limit| (limit, 2)),
            0x01 => Some((self.word(output, 0) | self.reserved, 1)),
            _ => place_of(code).map(|place| (self.word(output, place), 2)),
        }
    }

    // What comes back for a request, and how many bytes: WRITE_PROTECT is 0.
    fn answers(&mut self, bytes: &[u8]) -> ([u8; 8], usize) {
        let mut answer = [0xB1, 0, 0, 0, 0, 0, 0, 0];
        if self.counts(bytes) {
            return (answer, 0);
        }
        let count = if byte_at(bytes, 1) == 0x10 {
            2
        } else {
            match self.carried(byte_at(bytes, 3), byte_at(bytes, 4)) {
                None => return (answer, 0),
                Some((word, size)) => {
                    answer[1] = size;
                    answer[2] = word.to_le_bytes()[0];
                    if size == 1 {
                        3
                    } else {
                        answer[3] = word.to_le_bytes()[1];
                        4
                    }
                }
            }
        };
        if byte_at(bytes, 4) == 0x8B && 0 < self.ramps {
            self.ramps -= 1;
        }
        answer[count] = pec_after(pec(bytes), &answer[..count]);
        (answer, count + 1)
    }
}

// The step at a place of a list, none after its end.
fn step_at(steps: &[Step], place: usize) -> Option<Step> {
    steps.get(place).copied()
}

fn under_at(steps: &[Step], begun: u16) -> Option<Step> {
    if begun == 0 {
        None
    } else {
        step_at(steps, usize::from(begun) - 1)
    }
}

// One frame of a sequence over the part of the host that is named, and what was said.
fn steps_once(sequence: &mut Sequence, guard: &mut Guard, part: &mut Part, steps: &[Step]) -> Act {
    let begun = sequence.list.begun;
    let (sent, act) = sequence.frame(
        guard,
        under_at(steps, begun),
        step_at(steps, usize::from(begun)),
    );
    match sent {
        Some(Sending::Write(frame)) => {
            let acked = part.write(frame.as_slice());
            let _ = sequence.write_ended(guard, acked);
        }
        Some(Sending::Request { frame, .. }) => {
            let (answer, count) = part.answers(frame.as_slice());
            let count = if 8 < count { 0 } else { count };
            let _ = sequence.read_ended(guard, &answer[..count]);
        }
        None => {}
    }
    if let Some(bytes) = sequence.request(guard, act) {
        let (answer, count) = part.answers(&bytes);
        let count = if 8 < count { 0 } else { count };
        sequence.answered(guard, &answer[..count]);
    }
    act
}

/// Carries a sequence over parts: a caller's loop. A guard and a part stand at the place of each host.
pub(crate) fn carried(
    mut sequence: Sequence,
    guards: &mut [Guard],
    parts: &mut [Part],
    steps: &[Step],
) -> Run {
    let mut run = Run {
        end: None,
        found: None,
        founds: 0,
        left: None,
        waits: 0,
        pauses: 0,
        orders: 0,
    };
    for _ in 0..2000usize {
        let place = usize::from(sequence.list.host);
        let (Some(guard), Some(part)) = (guards.get_mut(place), parts.get_mut(place)) else {
            break;
        };
        match steps_once(&mut sequence, guard, part, steps) {
            Act::Wait(milliseconds) => run.waits = run.waits.saturating_add(milliseconds),
            Act::Pause => run.pauses = run.pauses.saturating_add(1),
            Act::Order(_) => run.orders = run.orders.saturating_add(1),
            Act::Does(verdict) => {
                run.found = Some(verdict);
                run.founds = run.founds.saturating_add(1);
            }
            Act::Leaves(end) => run.left = Some(end),
            Act::Ended(end) => {
                run.end = Some(end);
                break;
            }
            _ => {}
        }
    }
    run
}
