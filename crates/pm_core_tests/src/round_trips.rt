//! Packets that are put on the wire and read again, and what is left of them if they are cut.

use crate::calls::{
    answer_carries, answered, betrayed, request_carries, request_shown, whole_answer,
    write_carries, write_shown,
};
use crate::checks::agrees;
use crate::frames::{READS, WRITES};
use crate::framing::{answer_fault, request_fault, sent, write_fault};
use pm_frame::{FrameFault, Message, Payload, fits, read_write, write_part};
use pm_table::address_ok;

#[test]
fn a_write_is_put_on_the_wire_and_read_again(rt: HostRuntime) {
    for (row, write) in WRITES.iter().enumerate() {
        assert!(rt; address_ok(write.addr) && fits(&write.message), "row {row}");
        let frame = sent(write.addr, &write.message);
        agrees(&rt, row, &frame.as_slice(), &write.bytes);
        agrees(&rt, row, &betrayed(&[], write.bytes), &false);
        let shown = write_shown(write.addr, write.bytes);
        compare! { &rt, row; shown => Ok((write.message, write.page, write.code)) }
        let carries = write_carries(write.addr, write.bytes, write.payload);
        agrees(&rt, row, &carries, &true);
    }
}

#[test]
fn a_request_is_put_on_the_wire_and_read_again(rt: HostRuntime) {
    for (row, read) in READS.iter().enumerate() {
        assert!(rt; address_ok(read.addr) && fits(&read.message), "row {row}");
        let frame = sent(read.addr, &read.message);
        agrees(&rt, row, &frame.as_slice(), &read.request);
        let shown = request_shown(read.addr, read.request);
        agrees(&rt, row, &shown, &Ok((read.message, read.page, read.code)));
        let carries = request_carries(read.addr, read.request, read.payload);
        agrees(&rt, row, &carries, &true);
    }
}

#[test]
fn an_answer_is_put_on_the_wire_and_read_again(rt: HostRuntime) {
    for (row, read) in READS.iter().enumerate() {
        let request = read.message;
        assert!(rt;
            address_ok(read.addr) && request.is_read() && fits(&request),
            "row {row}"
        );
        assert!(rt; read.answered.len() == request.answer_length(), "row {row}");
        let sent = answered(read.addr, &request, read.answered);
        agrees(&rt, row, &sent.as_slice(), &read.answer);
        agrees(&rt, row, &read.answer.len(), &whole_answer(&request));
        let carries = answer_carries(read.addr, &request, read.answer, read.answered);
        agrees(&rt, row, &carries, &true);
        agrees(&rt, row, &betrayed(read.request, read.answer), &false);
        let later = betrayed(&read.request[1..], read.answer);
        agrees(&rt, row, &later, &true);
    }
}

// The fault of the first `n` bytes of a frame.
fn cut_to(n: usize) -> FrameFault {
    if n == 0 {
        FrameFault::NotOurs
    } else {
        FrameFault::Short(n)
    }
}

#[test]
fn a_strict_front_is_short(rt: HostRuntime) {
    for (row, write) in WRITES.iter().enumerate() {
        assert!(rt; address_ok(write.addr));
        for n in 0..write.bytes.len() {
            let fault = write_fault(write.addr, &write.bytes[..n]);
            agrees(&rt, row, &fault, &Some(cut_to(n)));
        }
    }
    for (row, read) in READS.iter().enumerate() {
        let request = read.message;
        assert!(rt; address_ok(read.addr) && request.is_read() && fits(&request));
        for n in 0..read.request.len() {
            let fault = request_fault(read.addr, &read.request[..n]);
            agrees(&rt, row, &fault, &Some(cut_to(n)));
        }
        for n in 0..read.answer.len() {
            let fault = answer_fault(read.addr, &request, &read.answer[..n]);
            agrees(&rt, row, &fault, &Some(cut_to(n)));
        }
    }
}

// The example of the root of `pm_frame`, word for word.
#[tactic(auto, unfolding(pm_table::specs::Commands::line_of))]
fn taken() -> Result<Message, FrameFault> {
    let written = Message::PagePlusWrite {
        page: 0,
        code: 0x21,
        payload: Payload::Word(0x34CD),
    };
    let bytes = write_part(0x58, &written); // B0 05 04 00 21 CD 34 5A
    let view = read_write(0x58, bytes.as_slice())?; // F5 if one of its bits changed
    Ok(view.message()) // what was written
}

#[test]
fn the_example_of_the_root_runs(rt: HostRuntime) {
    let wanted = Message::PagePlusWrite {
        page: 0,
        code: 0x21,
        payload: Payload::Word(0x34CD),
    };
    assert_eq!(rt; taken(), Ok(wanted));
}
