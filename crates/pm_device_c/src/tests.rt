//! Rows over the exported calls of the part.

mod calls;
mod checks;
mod example;

use self::calls::{
    CONFIG, commanded, hear, is_on, page, part, restart, set_reading, status, stored, word,
};
use self::checks::{equal, is_true};
use crate::events::{pm_part_new, pm_part_size};
use pm_device::{ConfigImage, PartImage};

// PAGE 1; VOUT_COMMAND 34CD by PAGE; the same by PAGE_PLUS for output 0; STORE_USER_ALL; a request for VOUT_COMMAND of
// output 0 by PAGE_PLUS.
static PAGE_1: &[u8] = &[0xB0, 0x00, 0x01, 0xED];

static PLAIN: &[u8] = &[0xB0, 0x21, 0xCD, 0x34, 0x38];

static CARRIED: &[u8] = &[0xB0, 0x05, 0x04, 0x00, 0x21, 0xCD, 0x34, 0x5A];

static STORE: &[u8] = &[0xB0, 0x15, 0x24];

static REQUEST: &[u8] = &[0xB0, 0x06, 0x02, 0x00, 0x21];

#[test]
fn a_size_is_that_of_the_header(rt: HostRuntime) {
    equal(&rt, &pm_part_size(), &372, &1);
}

// A plain word goes to the output that PAGE selects, which a restart forgets: the next one reaches output 0.
#[test]
fn a_plain_word_goes_to_the_selected_output(rt: HostRuntime) {
    let mut part = part();
    equal(&rt, &hear(&mut part, PAGE_1, 0).0, &0x82, &1);
    equal(&rt, &page(&part), &(0, 1), &2);
    equal(&rt, &hear(&mut part, PLAIN, 0).0, &0x82, &3);
    equal(&rt, &word(&part, 1, 0x21), &(0, 0x34CD), &4);
    equal(&rt, &word(&part, 0, 0x21), &(0, 0x1000), &5);
    equal(&rt, &restart(&mut part), &0, &6);
    equal(&rt, &page(&part), &(0, 0), &7);
    equal(&rt, &word(&part, 1, 0x21), &(0, 0x1000), &8);
    equal(&rt, &hear(&mut part, PLAIN, 0).0, &0x82, &9);
    equal(&rt, &word(&part, 0, 0x21), &(0, 0x34CD), &10);
    equal(&rt, &commanded(&part, 0), &(0, 3_300_048), &11);
    equal(&rt, &is_on(&part, 0), &(0, 1), &12);
}

#[test]
fn a_request_is_answered(rt: HostRuntime) {
    let mut part = part();
    equal(&rt, &hear(&mut part, CARRIED, 0).0, &0x82, &1);
    let (number, reply) = hear(&mut part, REQUEST, 1);
    equal(&rt, &(number, reply.length), &(0x83, 5), &2);
    equal(
        &rt,
        &reply.bytes,
        &[
            0xB1, 0x02, 0xCD, 0x34, 0xB9, 9, 9, 9, 9, 9, 9, 9, 9, 9, 9, 9,
        ],
        &3,
    );
    equal(&rt, &hear(&mut part, &[0xB2, 0x03], 0).0, &0x81, &4);
    equal(&rt, &hear(&mut part, REQUEST, 2).0, &0x83, &5);
    equal(&rt, &hear(&mut part, REQUEST, 0).0, &0x41, &6);
}

// The reply says after K1 which fault the frame has: it is cut, too long, wrongly counted, or has a wrong PEC. It says none
// of a frame that is taken, answered, for another device, or refused for another reason.
#[test]
fn a_faulty_frame_is_told_with_its_fault(rt: HostRuntime) {
    let mut part = part();
    let short = hear(&mut part, &[0xB0, 0x05, 0x04], 0);
    equal(
        &rt,
        &(short.0, short.1.length, short.1.frame_fault),
        &(0x41, 0, 0x32),
        &1,
    );
    let long = hear(&mut part, &[0xB0, 0x21, 0xCD, 0x34, 0x38, 0x00], 0);
    equal(&rt, &(long.0, long.1.frame_fault), &(0x41, 0x33), &2);
    let counted = hear(&mut part, &[0xB0, 0x05, 0x01, 0x00, 0x21], 0);
    equal(&rt, &(counted.0, counted.1.frame_fault), &(0x41, 0x34), &3);
    let damaged = hear(&mut part, &[0xB0, 0x00, 0x01, 0xEC], 0);
    equal(&rt, &(damaged.0, damaged.1.frame_fault), &(0x41, 0x35), &4);
    equal(&rt, &hear(&mut part, CARRIED, 0).1.frame_fault, &0, &5);
    equal(&rt, &hear(&mut part, REQUEST, 1).1.frame_fault, &0, &6);
    equal(
        &rt,
        &hear(&mut part, &[0xB2, 0x03], 0).1.frame_fault,
        &0,
        &7,
    );
    let unknown = hear(&mut part, &[0xB0, 0xFE, 0xBB], 0);
    equal(&rt, &(unknown.0, unknown.1.frame_fault), &(0x42, 0), &8);
}

#[test]
fn a_store_is_what_a_restart_brings_back(rt: HostRuntime) {
    let mut part = part();
    equal(&rt, &hear(&mut part, CARRIED, 0).0, &0x82, &1);
    equal(&rt, &stored(&part, 0, 0x21), &(0, 0x1000), &2);
    equal(&rt, &hear(&mut part, STORE, 0).0, &0x82, &3);
    equal(&rt, &stored(&part, 0, 0x21), &(0, 0x34CD), &4);
    equal(&rt, &restart(&mut part), &0, &5);
    equal(&rt, &word(&part, 0, 0x21), &(0, 0x34CD), &6);
    equal(&rt, &stored(&part, 0, 0x10), &(0xE1, 7), &7);
    equal(&rt, &stored(&part, 2, 0x21), &(4, 7), &8);
}

// A refused frame latches a bit of STATUS_CML, which a read doesn't clear and a restart does.
#[test]
fn status_is_latched(rt: HostRuntime) {
    let mut part = part();
    equal(&rt, &status(&part, 0), &(0, 0, 0, 0), &1);
    equal(&rt, &hear(&mut part, &[0xB0, 0x05], 0).0, &0x41, &2);
    equal(&rt, &status(&part, 1), &(2, 2, 0, 2), &3);
    let (number, reply) = hear(&mut part, &[0xB0, 0x7E], 1);
    equal(
        &rt,
        &(number, reply.length, reply.bytes[1]),
        &(0x83, 3, 2),
        &4,
    );
    equal(&rt, &status(&part, 1), &(2, 2, 0, 2), &5);
    equal(&rt, &status(&part, 2), &(7, 7, 7, 2), &6);
    equal(&rt, &restart(&mut part), &0, &7);
    equal(&rt, &status(&part, 1), &(0, 0, 0, 0), &8);
}

#[test]
fn readings_are_set(rt: HostRuntime) {
    let mut part = part();
    equal(&rt, &set_reading(&mut part, 1, 0x8B, 0x34CD), &0, &1);
    equal(&rt, &part.readings.outputs[0][1], &0x34CD, &2);
    equal(&rt, &set_reading(&mut part, 9, 0x88, 0xD300), &0, &3);
    equal(&rt, &part.readings.device[0], &0xD300, &4);
    equal(&rt, &set_reading(&mut part, 2, 0x8C, 1), &4, &5);
    equal(&rt, &set_reading(&mut part, 0, 0x21, 1), &0xE8, &6);
    equal(&rt, &restart(&mut part), &0, &7);
    equal(&rt, &part.readings.device[0], &0xD300, &8);
}

// Why no part is made, by the first rule that applies.
static REFUSED: [(u8, u8); 5] = [(0, 0x51), (1, 0x52), (2, 0x53), (3, 0x54), (4, 0x55)];

// A configuration with one or more faults: each has those that come after it too.
fn faulty(change: u8) -> ConfigImage {
    let mut config = CONFIG;
    config.starts[1].mode = 0x40;
    config.m = 0;
    if change < 4 {
        config.starts[0].mode = 0xFF;
    }
    if change < 3 {
        config.address = 0x78;
    }
    if change < 2 {
        config.starts[1].words[0] = 0xB0;
    }
    if change < 1 {
        config.outputs = 9;
    }
    config
}

#[test]
fn a_configuration_is_refused_by_its_first_fault(rt: HostRuntime) {
    for &(change, wanted) in &REFUSED {
        let mut image = part();
        let number = pm_part_new(&mut image, &faulty(change));
        equal(&rt, &number, &wanted, &change);
        equal(&rt, &word(&image, 0, 0x21), &(0, 0x1000), &change);
    }
}

// A part with one number changed.
fn changed(change: u8) -> PartImage {
    let mut image = part();
    match change {
        0 => image.mark = 0,
        1 => image.version = 2,
        2 => image.config.address = 0x78,
        3 => image.config.outputs = 0,
        4 => image.page = 2,
        5 => image.words[0] = 0xB0,
        6 => image.store[6] = 0xB0,
        7 => image.words[48] = 0x10,
        8 => image.store[48] = 0x40,
        9 => image.config.starts[0].mode = 0xFF,
        _ => image.words[12] = 0xB0,
    }
    image
}

// Whether each call says that the memory holds no part.
fn is_refused(image: &mut PartImage) -> bool {
    let numbers = [
        hear(image, REQUEST, 1).0,
        restart(image),
        set_reading(image, 0, 0x88, 1),
        word(image, 0, 0x21).0,
        stored(image, 0, 0x21).0,
        page(image).0,
        commanded(image, 0).0,
        is_on(image, 0).0,
    ];
    numbers == [0xE5; 8] && status(image, 0) == (7, 7, 7, 7)
}

// What stands for an output that isn't there means nothing, so the last change is none.
#[test]
fn memory_that_holds_no_part_is_refused(rt: HostRuntime) {
    is_true(&rt, is_refused(&mut PartImage::blank()), &"zeros");
    for change in 0..10 {
        is_true(&rt, is_refused(&mut changed(change)), &change);
    }
    is_true(&rt, !is_refused(&mut changed(10)), &"no change");
}
