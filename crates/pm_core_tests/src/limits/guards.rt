//! Guards as the rows begin from them: two outputs at a device with address 58h, and one pass a job.

use pm_frame::{Frame, Message, answer, fits};
use pm_host::{Job, Told, Turn};
use pm_limits::{Guard, LimitFault, Limits, OutputLimits};
use pm_table::{Cell, Reg};

/// ULINEAR16 with the exponent -12: a word is so many times 1/4096 V.
pub(crate) const LINEAR: &[u8] = &[0x14];

/// DIRECT, whose coefficients follow.
pub(crate) const DIRECT: &[u8] = &[0x40];

/// m = -2, b = 0, R = 3: a word is so many times -1/2000 V.
pub(crate) const FALLING: &[u8] = &[0xFE, 0xFF, 0x00, 0x00, 0x03];

/// A register of the first output.
pub(crate) const fn first(register: Reg) -> Cell {
    Cell::Out(0, register)
}

/// A guard whose first output has these limits, in microvolts; the second is said to have none.
pub(crate) fn guard(least: i64, most: i64) -> Guard {
    let mut limits = [OutputLimits::Unlimited; 8];
    if let Ok(first) = Limits::new(least, most) {
        limits[0] = OutputLimits::Between(first);
    }
    match Guard::new(0x58, 2, 1, limits) {
        Ok(guard) => guard,
        Err(_) => unreachable!(),
    }
}

// The answer of the device to a request with this payload; no bytes if that is none.
fn answer_to(request: &Message, payload: &[u8]) -> Frame {
    if !request.is_read() || !fits(request) || request.answer_length() != payload.len() {
        return Frame::new();
    }
    answer(0x58, request, payload)
}

/// The guard hears the answer to a request, if one is being sent.
pub(crate) fn tell(guard: &mut Guard, request: &Message, payload: &[u8]) {
    let frame = answer_to(request, payload);
    if let Turn::Request { .. } = guard.turn() {
        guard.told(Told::Got(frame.as_slice()));
    }
}

/// Learns the format of an output: its mode, and the coefficients if it is DIRECT.
pub(crate) fn learn(guard: &mut Guard, output: u8, mode: &[u8], coefficients: &[u8]) {
    let _ = guard.learn(output);
    let read = Message::PagePlusRead {
        page: output,
        code: 0x20,
    };
    tell(guard, &read, mode);
    let read = Message::ReadCoefficients {
        code: 0x21,
        side: 0x00,
    };
    tell(guard, &read, coefficients);
}

/// Reads this word from a register of the first output.
pub(crate) fn read(guard: &mut Guard, register: Reg, word: u16) {
    let cell = first(register);
    let _ = guard.check(cell);
    let read = Message::PagePlusRead {
        page: 0,
        code: cell.code().0,
    };
    tell(guard, &read, &word.to_le_bytes()[..cell.bytes().min(2)]);
}

/// Ends the open job with no answer.
pub(crate) fn give_up(guard: &mut Guard) {
    for _ in 0..4 {
        match guard.turn() {
            Turn::Idle => return,
            Turn::Write(_) => {
                guard.told(Told::Finished { acked: true });
            }
            Turn::Request { .. } => {
                guard.told(Told::Got(&[]));
            }
        }
    }
}

/// Why a job is refused; one that begins is given up.
pub(crate) fn refusal(guard: &mut Guard, job: Job) -> Option<LimitFault> {
    let fault = guard.begin(job).err();
    give_up(guard);
    fault
}
