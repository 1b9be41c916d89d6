//! What the tests share: frames and arrivals written as texts, and events that are all taken.

use crate::checks::{equal, is_true};
use crate::look::Look;
use pm_device::{Config, Ending};
use pm_frame::Frame;
use pm_world::{Arrival, Back, Event, SetupFault, World};
use std::process::Abort;

/// The bytes that a text spells, as "B0 21 CD 34 38": at most 16.
pub(crate) fn frame(rt: &impl Abort, text: &str) -> Frame {
    let mut frame = Frame::new();
    for pair in text.split_whitespace() {
        let byte = u8::from_str_radix(pair, 16);
        is_true(rt, byte.is_ok() && pair.len() == 2, &pair);
        is_true(rt, frame.try_push(byte.unwrap_or(0)).is_ok(), &text);
    }
    frame
}

/// How a frame arrives: "whole", "cut 5", or other bytes with how they end, as "stop: B0 21 CD 34 38".
pub(crate) fn arrival(rt: &impl Abort, text: &str) -> Arrival {
    if text == "whole" {
        return Arrival::Whole;
    }
    if let Some(count) = text.strip_prefix("cut ") {
        return Arrival::Cut(number(rt, count));
    }
    if let Some(bytes) = text.strip_prefix("stop: ") {
        return Arrival::Bytes(frame(rt, bytes), Ending::Stop);
    }
    let bytes = text.strip_prefix("restart: ");
    is_true(rt, bytes.is_some(), &text);
    Arrival::Bytes(frame(rt, bytes.unwrap_or("")), Ending::Restart)
}

/// What comes back: "whole", "cut 3", or other bytes.
pub(crate) fn back(rt: &impl Abort, text: &str) -> Back {
    if text == "whole" {
        return Back::Whole;
    }
    match text.strip_prefix("cut ") {
        Some(count) => Back::Cut(number(rt, count)),
        None => Back::Bytes(frame(rt, text)),
    }
}

fn number(rt: &impl Abort, text: &str) -> u8 {
    let number = text.parse::<u8>();
    is_true(rt, number.is_ok(), &text);
    number.unwrap_or(0)
}

/// Lets events happen that are all taken.
pub(crate) fn takes(rt: &impl Abort, world: &mut World, events: &[Event]) {
    for event in events {
        equal(rt, &world.meets(event), &Ok(()), &event);
    }
}

/// A world after events that are all taken.
pub(crate) fn after(
    rt: &impl Abort,
    config: Config,
    passes: u8,
    events: &[Event],
) -> Result<World, SetupFault> {
    let (world, stop) = World::live(config, passes, events)?;
    equal(rt, &stop, &None, &1);
    Ok(world)
}

/// Whether the host sends what a text spells; nothing if it is empty.
pub(crate) fn sends(rt: &impl Abort, world: &World, text: &str) -> bool {
    world.is_sending(frame(rt, text).as_slice())
}
