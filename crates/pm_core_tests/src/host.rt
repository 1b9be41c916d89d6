//! The host by itself, which hears what came of each frame.

mod refusals;

use crate::checks::{equal, is_true};
use crate::{FIRST, SECOND};
use pm_frame::{Frame, Message, answer, fits, pec};
use pm_host::{Host, HostFault, JobEnd, Possible, Standing, Step, Told, Turn};
use pm_table::{Cell, Reg};
use std::process::Abort;

const READ_FIRST: Message = Message::PagePlusRead {
    page: 0,
    code: 0x21,
};

const READ_SECOND: Message = Message::PagePlusRead {
    page: 1,
    code: 0x21,
};

const READ_MODE: Message = Message::PagePlusRead {
    page: 0,
    code: 0x20,
};

const READ_COEFFICIENTS: Message = Message::ReadCoefficients {
    code: 0x21,
    side: 0x00,
};

// A call: a job, how the write that is sent ended, the bytes that came back, or those of the device's answer
// to a request with this payload.
#[derive(Clone, Copy, Debug)]
enum Call<'a> {
    Order(Cell, u16),
    OrderMicro(Cell, i64),
    Check(Cell),
    Learn(u8),
    Finish(bool),
    Got(&'a [u8]),
    Answered(Message, &'a [u8]),
}

use Call::{Answered, Check, Finish, Got, Learn, Order, OrderMicro};

// What a call answers: nothing if it begins a job or no such frame is being sent.
type Answer = Result<Option<Step>, HostFault>;

const BEGUN: Answer = Ok(None);

const NEXT: Answer = Ok(Some(Step::Next));

const DONE: Answer = Ok(Some(Step::Ended(JobEnd::Done)));

const LEARNED: Answer = Ok(Some(Step::Ended(JobEnd::Learned)));

const UNKNOWN: Answer = Ok(Some(Step::Ended(JobEnd::Unknown)));

const NO_FORMAT: Answer = Err(HostFault::FormatUnknown);

// A host at address 58h with two outputs and two passes.
fn new_host() -> Host {
    match Host::new(0x58, 2, 2) {
        Ok(host) => host,
        Err(_) => unreachable!(),
    }
}

fn begins(host: &mut Host, call: &Call<'_>) -> Result<(), HostFault> {
    match *call {
        Order(cell, word) => host.order(cell, word),
        OrderMicro(cell, x) => host.order_micro(cell, x),
        Check(cell) => host.check(cell),
        Learn(output) => host.learn(output),
        Finish(_) | Got(_) | Answered(_, _) => Ok(()),
    }
}

fn finish(host: &mut Host, acked: bool) -> Option<Step> {
    if host.sending().is_none() || host.sending_reads() {
        return None;
    }
    Some(host.told(Told::Finished { acked }))
}

fn got(host: &mut Host, bytes: &[u8]) -> Option<Step> {
    if !host.sending_reads() {
        return None;
    }
    Some(host.told(Told::Got(bytes)))
}

// The answer of the device at 58h to a request with this payload; no bytes if that is none.
fn answer_to(request: &Message, payload: &[u8]) -> Frame {
    if !request.is_read() || !fits(request) || request.answer_length() != payload.len() {
        return Frame::new();
    }
    answer(0x58, request, payload)
}

fn answered(host: &mut Host, call: &Call<'_>) -> Answer {
    match call {
        Finish(acked) => Ok(finish(host, *acked)),
        Got(bytes) => Ok(got(host, bytes)),
        Answered(request, payload) => Ok(got(host, answer_to(request, payload).as_slice())),
        _ => match begins(host, call) {
            Ok(()) => BEGUN,
            Err(fault) => Err(fault),
        },
    }
}

// Calls, each with what it answers.
fn goes(rt: &impl Abort, host: &mut Host, rows: &[(Call<'_>, Answer)]) {
    for (at, (call, wanted)) in rows.iter().enumerate() {
        equal(rt, &answered(host, call), wanted, &(at, call));
    }
}

// The bytes of a request or of a write are being sent: none if no frame is.
fn sends(rt: &impl Abort, host: &Host, bytes: &[u8], is_read: bool) {
    let same = match host.sending() {
        Some(frame) => frame.as_slice() == bytes,
        None => bytes.is_empty(),
    };
    is_true(rt, same, &bytes);
    equal(rt, &host.sending_reads(), &is_read, &bytes);
}

fn standing(host: &Host, cell: Cell) -> Option<Standing> {
    match cell {
        Cell::Out(output, _) if output >= host.outputs() => None,
        _ => Some(host.standing(cell)),
    }
}

fn possible(host: &Host, cell: Cell) -> Possible {
    match cell {
        Cell::Out(output, _) if output >= host.outputs() => Possible::Any,
        _ => host.possible(cell),
    }
}

// A cell may hold exactly these words, in this order, any word if none is given; a restart was seen or not.
fn knows(rt: &impl Abort, host: &Host, cell: Cell, words: &[u16], seen: bool) {
    let same = match possible(host, cell) {
        Possible::Any => words.is_empty(),
        Possible::Words(listed) => !words.is_empty() && listed.as_slice() == words,
    };
    is_true(rt, same, &(cell, words));
    equal(rt, &host.restart_seen(), &seen, &(cell, words));
}

fn stands(rt: &impl Abort, host: &Host, cell: Cell, wanted: Standing) {
    equal(rt, &standing(host, cell), &Some(wanted), &cell);
}

const ORDERED: Standing = Standing::Confirmed(0x34CD);

const STARTED: Standing = Standing::Confirmed(0x1000);

// An order is done by a good answer, whatever was acknowledged.
fn is_done(rt: &impl Abort, acked: bool) {
    let mut host = new_host();
    sends(rt, &host, &[], false);
    goes(rt, &mut host, &[(Order(FIRST, 0x34CD), BEGUN)]);
    sends(
        rt,
        &host,
        &[0xB0, 0x05, 0x04, 0x00, 0x21, 0xCD, 0x34, 0x5A],
        false,
    );
    goes(rt, &mut host, &[(Finish(acked), NEXT)]);
    stands(rt, &host, FIRST, Standing::Unknown);
    sends(rt, &host, &[0xB0, 0x06, 0x02, 0x00, 0x21], true);
    goes(
        rt,
        &mut host,
        &[(Got(&[0xB1, 0x02, 0xCD, 0x34, 0xB9]), DONE)],
    );
    stands(rt, &host, FIRST, ORDERED);
    knows(rt, &host, FIRST, &[0x34CD], false);
    knows(rt, &host, SECOND, &[], false);
    sends(rt, &host, &[], false);
}

#[test]
fn an_order_is_done_by_a_good_answer_whatever_was_acknowledged(rt: HostRuntime) {
    is_done(&rt, false);
    is_done(&rt, true);
}

static CHECKED_AND_WRITTEN: [(Call<'static>, Answer); 4] = [
    (Check(FIRST), BEGUN),
    (Answered(READ_FIRST, &[0x00, 0x10]), DONE),
    (Order(FIRST, 0x34CD), BEGUN),
    (Finish(true), NEXT),
];

// A word that no pass reads back.
#[rattlefmt::skip]
static IN_VAIN: [(Call<'static>, Answer); 5] = [
    (Order(FIRST, 0x2000), BEGUN), (Finish(true), NEXT), (Got(&[]), NEXT), (Finish(true), NEXT),
    (Answered(READ_FIRST, &[0xCD, 0x34]), Ok(Some(Step::Ended(JobEnd::Differs(0x34CD))))),
];

static ANOTHER_PASS: [(Call<'static>, Answer); 2] = [
    (Finish(true), NEXT),
    (Answered(READ_FIRST, &[0xCD, 0x34]), DONE),
];

#[test]
fn a_pass_that_reads_the_old_word_is_followed_by_another(rt: HostRuntime) {
    let mut host = new_host();
    goes(&rt, &mut host, &CHECKED_AND_WRITTEN);
    stands(&rt, &host, FIRST, Standing::Unknown);
    goes(
        &rt,
        &mut host,
        &[(Answered(READ_FIRST, &[0x00, 0x10]), NEXT)],
    );
    stands(&rt, &host, FIRST, Standing::Unknown);
    knows(&rt, &host, FIRST, &[0x1000, 0x34CD], false);
    goes(&rt, &mut host, &ANOTHER_PASS);
    stands(&rt, &host, FIRST, ORDERED);
    knows(&rt, &host, FIRST, &[0x34CD], false);
    goes(&rt, &mut host, &IN_VAIN);
    stands(&rt, &host, FIRST, ORDERED);
}

static SECOND_CHECKED: [(Call<'static>, Answer); 2] = [
    (Check(SECOND), BEGUN),
    (Answered(READ_SECOND, &[0x00, 0x10]), DONE),
];

#[test]
fn a_surprising_answer_shows_a_restart_of_the_device(rt: HostRuntime) {
    let mut host = new_host();
    goes(&rt, &mut host, &SECOND_CHECKED);
    goes(&rt, &mut host, &CHECKED_AND_WRITTEN);
    goes(
        &rt,
        &mut host,
        &[(Answered(READ_FIRST, &[0x77, 0x77]), NEXT)],
    );
    knows(&rt, &host, FIRST, &[0x7777, 0x34CD], true);
    knows(&rt, &host, SECOND, &[], true);
    stands(&rt, &host, SECOND, STARTED);
    goes(&rt, &mut host, &ANOTHER_PASS);
    knows(&rt, &host, FIRST, &[0x34CD], true);
    host.restart();
    knows(&rt, &host, FIRST, &[], false);
    stands(&rt, &host, FIRST, Standing::Unknown);
    stands(&rt, &host, SECOND, Standing::Unknown);
}

static VOLT_ORDERED: [(Call<'static>, Answer); 3] = [
    (Learn(0), BEGUN),
    (Answered(READ_MODE, &[0x14]), LEARNED),
    (OrderMicro(FIRST, 1_000_000), BEGUN),
];

static FORGOTTEN: [(Call<'static>, Answer); 2] = [
    (OrderMicro(FIRST, 1_000_000), NO_FORMAT),
    (Order(FIRST, 0x1000), BEGUN),
];

#[test]
fn a_restart_of_the_host_drops_the_job_and_the_formats(rt: HostRuntime) {
    let mut host = new_host();
    goes(&rt, &mut host, &VOLT_ORDERED);
    host.restart();
    sends(&rt, &host, &[], false);
    knows(&rt, &host, FIRST, &[], false);
    goes(&rt, &mut host, &FORGOTTEN);
}

// Twice these bytes come back for a check of the second output: no good answer.
fn is_no_answer(rt: &impl Abort, row: &[u8]) {
    let mut host = new_host();
    goes(
        rt,
        &mut host,
        &[
            (Check(SECOND), BEGUN),
            (Got(row), NEXT),
            (Got(row), UNKNOWN),
        ],
    );
    stands(rt, &host, SECOND, Standing::Unknown);
    knows(rt, &host, SECOND, &[], false);
}

// The answer of the first output; then another length, no PEC, a wrong PEC, a wrong count and a wrong address.
static NO_ANSWERS: [&[u8]; 6] = [
    &[0xB1, 0x02, 0x00, 0x10, 0x41],
    &[],
    &[0xB1, 0x02, 0x00, 0x10],
    &[0xB1, 0x02, 0x00, 0x10, 0x00],
    &[0xB1, 0x01, 0x00, 0x10, 0x00, 0x00],
    &[0xB0, 0x02, 0x00, 0x10, 0x00],
];

// What came back is judged over the host's own request: the answer that output 0 gives is none for
// output 1, nor is one with another PEC, another length or another address, nor one whose PEC leaves the
// request out.
#[test]
fn an_answer_to_another_request_is_no_good_answer(rt: HostRuntime) {
    for &row in &NO_ANSWERS {
        is_no_answer(&rt, row);
    }
    let payload = [0xB1, 0x02, 0x00, 0x10];
    let alone = [0xB1, 0x02, 0x00, 0x10, pec(&payload)];
    let mut host = new_host();
    goes(
        &rt,
        &mut host,
        &[
            (Check(FIRST), BEGUN),
            (Got(&alone), NEXT),
            (Got(&[0xB1, 0x02, 0x00, 0x10, 0x41]), DONE),
        ],
    );
}

// How many frames the open job sends, none of which is answered or acknowledged.
fn frames_in_vain(host: &mut Host) -> u8 {
    for turn in 0..40 {
        if host.sending().is_none() {
            return turn;
        }
        if host.sending_reads() {
            let _ = host.told(Told::Got(&[]));
        } else {
            let _ = host.told(Told::Finished { acked: false });
        }
    }
    40
}

// At every number of passes an order that nothing answers sends twice as many frames, and each other job
// as many.
#[test]
fn a_job_has_as_many_passes_as_were_asked_for(rt: HostRuntime) {
    let cell = Cell::Out(7, Reg::MarginLow);
    for passes in 1..=15 {
        let Ok(mut host) = Host::new(0x77, 8, passes) else {
            unreachable!()
        };
        equal(&rt, &host.order(cell, 0xFFFF), &Ok(()), &1);
        equal(&rt, &frames_in_vain(&mut host), &(2 * passes), &2);
        equal(&rt, &host.check(cell), &Ok(()), &3);
        equal(&rt, &frames_in_vain(&mut host), &passes, &4);
        equal(&rt, &host.learn(7), &Ok(()), &5);
        equal(&rt, &frames_in_vain(&mut host), &passes, &6);
        equal(&rt, &host.clear(7), &Ok(()), &7);
        equal(&rt, &frames_in_vain(&mut host), &passes, &8);
    }
}

// The example of the root of `pm_host`, word for word.
fn ordered() -> Result<Standing, HostFault> {
    let mut host = Host::new(0x58, 2, 2)?;
    host.order(Cell::Out(0, Reg::VoutCommand), 0x34CD)?;
    if let Turn::Write(_) = host.turn() {
        // B0 05 04 00 21 CD 34 5A, and then a stop
        host.told(Told::Finished { acked: false });
    }
    if let Turn::Request { .. } = host.turn() {
        // B0 06 02 00 21, then a repeated start, and what came back
        host.told(Told::Got(&[0xB1, 0x02, 0xCD, 0x34, 0xB9]));
    }
    Ok(host.standing(Cell::Out(0, Reg::VoutCommand))) // Standing::Confirmed(0x34CD)
}

#[test]
fn the_example_of_the_root_runs(rt: HostRuntime) {
    equal(&rt, &ordered(), &Ok(Standing::Confirmed(0x34CD)), &1);
}
