//! What the host can't know: lists of events that tell it the same, and leave different words.

ghost use Rattle.std.specs.Prelude.{◌≡◌, ◌<◌};

use crate::checks::{equal, is_true};
use crate::watch::takes;
use crate::{CHECK, LOST, Look, NOT_ACKED, ORDER, READ, READ_LOST, WHOLE};
use pm_core_tests::{FIRST, SECOND};
use pm_host::{JobEnd, Standing};
use pm_world::{Event, SetupFault, World};
use std::process::Abort;

// A check, and an order whose first write is heard or not and whose second isn't; no acknowledgement and
// neither answer comes back.
fn ordered(rt: &impl Abort, world: &mut World, check: Event, order: Event, is_heard: bool) {
    let first = if is_heard { WHOLE } else { LOST };
    takes(rt, world, &[check, READ, order]);
    takes(rt, world, &[first, NOT_ACKED, READ_LOST]);
    takes(rt, world, &[LOST, NOT_ACKED, READ_LOST]);
}

// The host says the same of a cell, whichever word it has.
fn is_left(rt: &impl Abort, world: &World, words: (u16, u16)) {
    equal(rt, &world.word(FIRST), &words.0, &1);
    equal(rt, &world.word(SECOND), &words.1, &2);
    equal(rt, &world.ended(), &Some(JobEnd::Unknown), &3);
    equal(rt, &world.says(FIRST), &Some(Standing::Unknown), &4);
    is_true(rt, world.may_hold(FIRST, &[0x1000, 0x34CD]), &5);
    is_true(rt, !world.sees_restart(), &6);
}

// The start word or the ordered one, by whether the write was heard.
fn heard(is_heard: bool) -> u16 {
    if is_heard { 0x34CD } else { 0x1000 }
}

#[test]
fn two_lists_that_tell_the_same_leave_two_words(rt: HostRuntime) -> Result<(), SetupFault> {
    for is_heard in [true, false] {
        let mut world = World::begin(World::base(), 2)?;
        ordered(&rt, &mut world, CHECK, ORDER, is_heard);
        is_left(&rt, &world, (heard(is_heard), 0x1000));
        is_true(&rt, world.may_hold(SECOND, &[]), &1);
    }
    Ok(())
}

#[test]
fn four_lists_that_tell_the_same_leave_four_pairs(rt: HostRuntime) -> Result<(), SetupFault> {
    for (first, second) in [(false, false), (false, true), (true, false), (true, true)] {
        let mut world = World::begin(World::base(), 2)?;
        ordered(&rt, &mut world, CHECK, ORDER, first);
        let (check, order) = (Event::Check(SECOND), Event::Order(SECOND, 0x34CD));
        ordered(&rt, &mut world, check, order, second);
        is_left(&rt, &world, (heard(first), heard(second)));
        is_true(&rt, world.may_hold(SECOND, &[0x1000, 0x34CD]), &1);
    }
    Ok(())
}
