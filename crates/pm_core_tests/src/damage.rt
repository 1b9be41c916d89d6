//! Frames that are cut, changed in one bit, or very long.

use crate::checks::{equal, is_true};
use crate::device_frames::{base, frame, hear, made, page_of, status_cml, word};
use crate::fixtures::{CELLS, OUTPUT};
use pm_device::{Config, ConfigFault, Converter, DeviceFault, Ending, Heard, OutputStart};
use pm_frame::{Frame, FrameFault, Message, fits, read_answer, read_request, read_write};
use pm_table::Coefficients;
use std::process::Abort;
use std::test::Fail;

// A frame of each layout that is written: by PAGE_PLUS_WRITE, of a byte, of a word, and of no data.
#[rattlefmt::skip]
static WRITES: [&str; 4] = ["B0 05 04 00 21 CD 34 5A", "B0 10 80 34", "B0 21 CD 34 38", "B0 03 46"];

const MODE: Message = Message::ReadCommand { code: 0x20 };

const STATUS: Message = Message::ReadCommand { code: 0x7E };

const COMMAND: Message = Message::PagePlusRead {
    page: 0,
    code: 0x21,
};

const COEFFICIENTS: Message = Message::ReadCoefficients {
    code: 0x21,
    side: 0x00,
};

// Frames of each layout that is read, and their answers by a converter that refused a request.
static READS: [(Message, &str, &str); 4] = [
    (COMMAND, "B0 06 02 00 21", "B1 02 CD 34 B9"),
    (MODE, "B0 20", "B1 14 ED"),
    (STATUS, "B0 7E", "B1 80 00"),
    (COEFFICIENTS, "B0 30 02 21 00", "B1 05 01 00 00 00 03 6B"),
];

const DIRECT: OutputStart = with! { OutputStart, OUTPUT; mode: 0x40 };

// The first output holds what the answers say, the second is DIRECT, in millivolts.
const HOLDS: OutputStart = with! { OutputStart, OUTPUT; command: 0x34CD };

const MIXED: Config = Config {
    addr: 0x58,
    count: 2,
    starts: [
        HOLDS, DIRECT, OUTPUT, OUTPUT, OUTPUT, OUTPUT, OUTPUT, OUTPUT,
    ],
    protect: 0x00,
    coefficients: Coefficients { m: 1, b: 0, r: 3 },
};

// The frame with these bits of the byte at this place changed.
fn changed(rt: &impl Abort, whole: &Frame, place: usize, bits: u8) -> Frame {
    let mut other = Frame::new();
    for (at, byte) in whole.as_slice().iter().enumerate() {
        let byte = if at == place { *byte ^ bits } else { *byte };
        is_true(rt, other.try_push(byte).is_ok(), &1);
    }
    other
}

const BITS: [u8; 8] = [0x80, 0x40, 0x20, 0x10, 0x08, 0x04, 0x02, 0x01];

// A converter of that configuration that refused a request of CLEAR_FAULTS, which can only be written: STATUS_CML is 80h.
fn refusing() -> Result<Converter, ConfigFault> {
    let mut converter = made(MIXED)?;
    let _ = hear(&mut converter, &[0xB0, 0x03], Ending::Restart);
    Ok(converter)
}

// Every cell and PAGE are as at the start.
fn is_at_start(converter: &Converter) -> Result<bool, ConfigFault> {
    let started = made(MIXED)?;
    let mut same = page_of(converter) == 0;
    for &cell in &CELLS {
        same = same && word(converter, cell) == word(&started, cell);
    }
    Ok(same)
}

// Whether these bytes are a write, a request, or the answer to a request that was sent.
fn is_write(bytes: &[u8]) -> bool {
    read_write(0x58, bytes).is_ok()
}

fn is_request(bytes: &[u8]) -> bool {
    read_request(0x58, bytes).is_ok()
}

fn is_answer(sent: &Message, bytes: &[u8]) -> bool {
    sent.is_read() && fits(sent) && read_answer(0x58, sent, bytes).is_ok()
}

// A write that is cut or changed in one bit is none, and takes no effect.
fn is_no_write(rt: &impl Abort, bytes: &[u8]) -> Result<(), ConfigFault> {
    is_true(rt, !is_write(bytes), &bytes);
    let mut converter = made(MIXED)?;
    let heard = hear(&mut converter, bytes, Ending::Stop);
    let unheard = matches!(heard, Heard::Refused(_) | Heard::Silent);
    is_true(rt, unheard, &(heard, bytes));
    is_true(rt, is_at_start(&converter)?, &bytes);
    Ok(())
}

// A write is none if it is cut at this place, or the byte there is changed in one bit.
fn is_betrayed_write(rt: &impl Abort, whole: &Frame, place: usize) -> Result<(), ConfigFault> {
    is_true(rt, place < whole.as_slice().len(), &1);
    is_no_write(rt, &whole.as_slice()[..place])?;
    for &bits in &BITS {
        is_no_write(rt, changed(rt, whole, place, bits).as_slice())?;
    }
    Ok(())
}

#[test]
fn a_damaged_write_is_none(rt: HostRuntime) -> Result<(), Fail> {
    for &text in &WRITES {
        let whole = frame(&rt, text);
        is_true(&rt, is_write(whole.as_slice()), &text);
        for place in 0..whole.as_slice().len() {
            is_betrayed_write(&rt, &whole, place)?;
        }
    }
    Ok(())
}

// A request that is cut is none. One that is changed in a bit may be another one, whose answer is
// refused by a host that sent the first.
fn is_another_request(rt: &impl Abort, sent: &Message, bytes: &[u8]) -> Result<(), ConfigFault> {
    for ending in [Ending::Restart, Ending::Stop] {
        let mut converter = refusing()?;
        let heard = hear(&mut converter, bytes, ending);
        if let Heard::Answer(answer) = &heard {
            let is_good = is_answer(sent, answer.as_slice());
            is_true(rt, !is_good, &(answer, bytes));
        }
        is_true(rt, is_at_start(&converter)?, &bytes);
    }
    Ok(())
}

// A request that is cut at this place is none. One whose byte there is changed in a bit may be another one,
// whose answer is refused by a host that sent the first.
fn is_betrayed_request(
    rt: &impl Abort,
    sent: &Message,
    whole: &Frame,
    place: usize,
) -> Result<(), ConfigFault> {
    is_true(rt, place < whole.as_slice().len(), &1);
    let cut = &whole.as_slice()[..place];
    is_true(rt, !is_request(cut), &cut);
    is_another_request(rt, sent, cut)?;
    for &bits in &BITS {
        let other = changed(rt, whole, place, bits);
        is_another_request(rt, sent, other.as_slice())?;
    }
    Ok(())
}

#[test]
fn a_damaged_request_gets_no_good_answer(rt: HostRuntime) -> Result<(), Fail> {
    for &(message, request, answer) in &READS {
        let whole = frame(&rt, request);
        is_true(&rt, is_request(whole.as_slice()), &request);
        is_true(
            &rt,
            is_answer(&message, frame(&rt, answer).as_slice()),
            &answer,
        );
        for place in 0..whole.as_slice().len() {
            is_betrayed_request(&rt, &message, &whole, place)?;
        }
    }
    Ok(())
}

// An answer is none if it is cut at this place, or the byte there is changed in one bit.
fn is_betrayed_answer(rt: &impl Abort, sent: &Message, whole: &Frame, place: usize) {
    is_true(rt, place < whole.as_slice().len(), &1);
    let cut = &whole.as_slice()[..place];
    is_true(rt, !is_answer(sent, cut), &cut);
    for &bits in &BITS {
        let other = changed(rt, whole, place, bits);
        is_true(rt, !is_answer(sent, other.as_slice()), &other);
    }
}

// The converter answers a request so.
fn is_answered(rt: &impl Abort, request: &str, whole: &Frame) -> Result<(), ConfigFault> {
    let mut converter = refusing()?;
    let heard = hear(
        &mut converter,
        frame(rt, request).as_slice(),
        Ending::Restart,
    );
    let same = matches!(&heard, Heard::Answer(got) if got.as_slice() == whole.as_slice());
    is_true(rt, same, &(heard, request));
    Ok(())
}

#[test]
fn a_damaged_answer_is_none(rt: HostRuntime) -> Result<(), Fail> {
    for &(message, request, answer) in &READS {
        let whole = frame(&rt, answer);
        is_answered(&rt, request, &whole)?;
        is_true(&rt, is_answer(&message, whole.as_slice()), &answer);
        for place in 0..whole.as_slice().len() {
            is_betrayed_answer(&rt, &message, &whole, place);
        }
    }
    Ok(())
}

// The frame is refused for this fault of it.
fn is_faulty(rt: &impl Abort, bytes: &[u8], fault: FrameFault) -> Result<(), ConfigFault> {
    let mut converter = base()?;
    let heard = hear(&mut converter, bytes, Ending::Stop);
    let wanted = DeviceFault::Frame(fault);
    let is_refused = matches!(&heard, Heard::Refused(found) if *found == wanted);
    is_true(rt, is_refused, &(heard, fault));
    equal(rt, &status_cml(&converter), &0x02, &1);
    Ok(())
}

// PAGE_PLUS_WRITE with a count of FFh and then zeros, to 258, 259 and 260 bytes; and a million bytes for
// another device.
#[test]
fn very_long_frames_are_refused_or_not_heard(rt: HostRuntime) -> Result<(), Fail> {
    let mut bytes = [0x00; 260];
    bytes[0] = 0xB0;
    bytes[1] = 0x05;
    bytes[2] = 0xFF;
    bytes[4] = 0x21;
    is_faulty(&rt, &bytes[..258], FrameFault::Short(258))?;
    is_faulty(&rt, &bytes[..259], FrameFault::WrongCount(2))?;
    is_faulty(&rt, &bytes, FrameFault::Long(259))?;
    let mut converter = base()?;
    let million = vec![in rt.alloc(); 0x05; 1_000_000]?;
    for ending in [Ending::Stop, Ending::Restart] {
        let heard = hear(&mut converter, &million, ending);
        is_true(&rt, matches!(&heard, Heard::Silent), &heard);
    }
    equal(&rt, &status_cml(&converter), &0x00, &1);
    Ok(())
}
