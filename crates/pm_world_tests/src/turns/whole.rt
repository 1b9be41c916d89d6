//! How an open job ends once its frames come whole, whatever went before: of each stage, with a pass left and in the last.

use crate::checks::equal;
use crate::fixtures::takes;
use crate::look::Look;
use crate::{ACKED, CHECK, LOST, NOT_ACKED, ORDER, READ, READ_LOST, WHOLE};
use pm_host::JobEnd;
use pm_world::{Event, SetupFault, World};
use std::process::Abort;

// Passes, WRITE_PROTECT, the events, and the end: an order of 34CDh for a cell that holds 1000h, which WRITE_PROTECT 40h
// forbids; a check; a learn; and a store. A write is heard whole or lost, and acknowledged or not; a read comes whole, or
// its answer is lost.
#[rattlefmt::skip]
static ENDS: [(u8, u16, &str, JobEnd); 18] = [
    (1, 0x00, "order whole ack read", JobEnd::Done),
    (1, 0x00, "order whole nack read", JobEnd::Done),
    (1, 0x00, "order lost whole ack read", JobEnd::Done),
    (1, 0x00, "order lost ack read", DIFFERS), (1, 0x00, "order lost nack read", DIFFERS),
    (1, 0x40, "order whole ack read", DIFFERS),
    (2, 0x00, "order lost ack read whole ack read", JobEnd::Done),
    (2, 0x00, "order lost ack mute whole nack read", JobEnd::Done),
    (2, 0x00, "order lost ack mute lost ack read", DIFFERS),
    (2, 0x40, "order lost ack read whole ack read", DIFFERS),
    (3, 0x40, "order whole ack mute whole ack mute whole ack read", DIFFERS),
    (1, 0x00, "check read", JobEnd::Done), (2, 0x00, "check mute read", JobEnd::Done),
    (2, 0x00, "learn mute read", JobEnd::Learned), (1, 0x00, "store whole ack", JobEnd::Done),
    (1, 0x00, "store whole nack", JobEnd::Unknown),
    (2, 0x00, "store whole nack whole ack", JobEnd::Done),
    (2, 0x40, "store whole nack whole nack", JobEnd::Unknown),
];

const DIFFERS: JobEnd = JobEnd::Differs(0x1000);

fn event(rt: &impl Abort, word: &str) -> Event {
    match word {
        "order" => ORDER,
        "check" => CHECK,
        "learn" => Event::Learn(0),
        "store" => Event::Store,
        "whole" => WHOLE,
        "lost" => LOST,
        "ack" => ACKED,
        "nack" => NOT_ACKED,
        "mute" => READ_LOST,
        _ => {
            equal(rt, &word, &"read", &1);
            READ
        }
    }
}

#[test]
fn open_jobs_end_once_their_frames_come_whole(rt: HostRuntime) -> Result<(), SetupFault> {
    for (passes, protect, events, end) in &ENDS {
        let mut world = World::begin(World::with_protect(*protect), *passes)?;
        for word in events.split_whitespace() {
            takes(&rt, &mut world, &[event(&rt, word)]);
        }
        equal(&rt, &world.ended(), &Some(*end), &(passes, events));
    }
    Ok(())
}
