//! Each change within eight neighbouring bits of an order's frame.

use crate::checks::{equal, is_true};
use crate::fixtures::{after, takes};
use crate::look::Look;
use crate::{ORDER, WHOLE};
use pm_core_tests::{CELLS, FIRST};
use pm_device::{Ending, Heard};
use pm_frame::Frame;
use pm_world::{Arrival, Event, SetupFault, World};
use std::process::Abort;

// The eight bytes for VOUT_COMMAND of output 0 is 34CDh, the first one at the top.
const ORDER_BYTES: u64 = 0xB005_0400_21CD_345A;

// Whether each cell of both outputs and of the device has its start word.
fn is_at_start(world: &World, started: &World) -> bool {
    let mut same = true;
    for &cell in &CELLS {
        same = same && world.word(cell) == started.word(cell);
    }
    same
}

// A delivery of these bytes.
fn delivery(rt: &impl Abort, bytes: &[u8]) -> Event {
    let mut frame = Frame::new();
    for byte in bytes {
        is_true(rt, frame.try_push(*byte).is_ok(), &bytes);
    }
    Event::Deliver(Arrival::Bytes(frame, Ending::Stop))
}

// A world in which the order's frame is being sent hears these bytes in its place: its converter has no
// answer for them, and no word changes.
fn is_without_effect(rt: &impl Abort, world: &mut World, started: &World, bytes: &[u8]) {
    let heard = world.replies(bytes, Ending::Stop);
    let unheard = matches!(heard, Heard::Refused(_) | Heard::Silent);
    is_true(rt, unheard, &bytes);
    let delivered = world.meets(&delivery(rt, bytes));
    is_true(rt, delivered.is_ok(), &bytes);
    let same = is_at_start(world, started);
    is_true(rt, same, &bytes);
}

// Each change of the eight bits at a place from the top, and how many there are.
fn each_change(rt: &impl Abort, world: &mut World, started: &World, place: u32) -> u32 {
    let mut tried = 0u32;
    for change in 1..=255u64 {
        let changed = ORDER_BYTES ^ change << (56 - place.min(56));
        is_without_effect(rt, world, started, &changed.to_be_bytes());
        tried = tried.saturating_add(1);
    }
    tried
}

#[test]
fn short_bursts_change_no_word(rt: HostRuntime) -> Result<(), SetupFault> {
    let started = World::begin(World::base(), 2)?;
    let mut world = after(&rt, World::base(), 2, &[ORDER])?;
    let mut tried = 0u32;
    for place in 0..57u32 {
        tried = tried.saturating_add(each_change(&rt, &mut world, &started, place));
    }
    equal(&rt, &tried, &14_535, &1);
    takes(&rt, &mut world, &[WHOLE]);
    equal(&rt, &world.word(FIRST), &0x34CD, &2);
    Ok(())
}
