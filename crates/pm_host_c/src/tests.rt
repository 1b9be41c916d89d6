//! Rows over the exported calls of the host.

mod calls;
mod checks;
mod courses;
mod example;
mod law_uses;
mod limits;
mod packets;
mod rails;
mod sequences;

use self::calls::{
    at_least, at_most, band, check, clear, finished, format, got, host, kept, learn, limits,
    microvolts, narrow, nearest, new, no_host, no_limits, order, order_micro, possible, restart,
    restart_seen, restore, shown, standing, store, within,
};
use self::checks::{equal, is_true};
use crate::host::{pm_host_size, pm_host_version, pm_version};
use pm_host::WordsImage;
use pm_memory::{FormatNumbers, GuardImage};

#[test]
fn sizes_are_those_of_the_header(rt: HostRuntime) {
    equal(&rt, &pm_host_size(), &2064, &1);
    equal(&rt, &(pm_version(), pm_host_version()), &(0x0001, 6), &2);
}

#[test]
fn an_order_is_taken_though_its_acknowledgement_was_lost(rt: HostRuntime) {
    let mut image = host(2);
    equal(&rt, &order(&mut image, 0, 0x21, 0x34CD), &0, &1);
    let write = [0xB0, 0x05, 0x04, 0x00, 0x21, 0xCD, 0x34, 0x5A];
    equal(&rt, &shown(&image, &write), &(1, 8, 0, true), &2);
    equal(&rt, &got(&mut image, &[]), &(0xE2, 0), &3);
    equal(&rt, &finished(&mut image, 0), &(0, 0), &4);
    equal(
        &rt,
        &shown(&image, &[0xB0, 0x06, 0x02, 0x00, 0x21]),
        &(2, 5, 5, true),
        &5,
    );
    equal(&rt, &finished(&mut image, 1), &(0xE2, 0), &6);
    equal(
        &rt,
        &got(&mut image, &[0xB1, 0x02, 0xCD, 0x34, 0xB9]),
        &(1, 0),
        &7,
    );
    equal(&rt, &shown(&image, &[]), &(0, 0, 0, true), &8);
    equal(&rt, &standing(&image, 0, 0x21), &(0, 1, 0x34CD), &9);
    equal(&rt, &possible(&image, 0, 0x21), &(0, 1, 0x34CD), &10);
}

#[test]
fn an_end_has_its_number(rt: HostRuntime) {
    let mut image = host(1);
    equal(&rt, &order(&mut image, 0, 0x21, 0x1234), &0, &1);
    equal(&rt, &finished(&mut image, 1), &(0, 0), &2);
    equal(
        &rt,
        &got(&mut image, &[0xB1, 0x02, 0xCD, 0x34, 0xB9]),
        &(2, 0x34CD),
        &3,
    );
    equal(&rt, &check(&mut image, 0, 0x21), &0, &4);
    equal(&rt, &got(&mut image, &[]), &(3, 0), &5);
    equal(&rt, &clear(&mut image, 1), &0, &6);
    equal(&rt, &finished(&mut image, 1), &(1, 0), &7);
    equal(&rt, &learn(&mut image, 0), &0, &8);
    equal(
        &rt,
        &got(&mut image, &[0xB1, 0x01, 0x14, 0x4E]),
        &(4, 0),
        &9,
    );
    equal(&rt, &format(&image, 0), &(0, 1, -12), &10);
    equal(&rt, &order_micro(&mut image, 0, 0x21, 3_300_000), &0, &11);
    let write = [0xB0, 0x05, 0x04, 0x00, 0x21, 0xCD, 0x34, 0x5A];
    equal(&rt, &shown(&image, &write), &(1, 8, 0, true), &12);
    equal(&rt, &restart(&mut image), &0, &13);
    equal(&rt, &shown(&image, &[]), &(0, 0, 0, true), &14);
    equal(&rt, &order_micro(&mut image, 0, 0x21, 3_300_000), &7, &15);
}

// What came back for a check of VOUT_COMMAND with one try, and the word of its end: which fault that had, and 0 if
// nothing came.
static FAULTS: [(&[u8], u16); 6] = [
    (&[], 0),
    (&[0xB3, 0x02, 0xCD, 0x34, 0xB9], 0x31),
    (&[0xB1, 0x02, 0xCD, 0x34], 0x32),
    (&[0xB1, 0x02, 0xCD, 0x34, 0xB9, 0x00], 0x33),
    (&[0xB1, 0x01, 0xCD, 0x34, 0xB9], 0x34),
    (&[0xB1, 0x02, 0xCD, 0x34, 0xB8], 0x35),
];

#[test]
fn an_unknown_end_says_which_fault_the_answer_had(rt: HostRuntime) {
    for &(bytes, word) in &FAULTS {
        let mut image = host(1);
        let _ = check(&mut image, 0, 0x21);
        equal(&rt, &got(&mut image, bytes), &(3, word), &word);
    }
    let mut image = host(2);
    let _ = check(&mut image, 0, 0x21);
    equal(&rt, &got(&mut image, FAULTS[5].0), &(0, 0), &"goes on");
    equal(&rt, &got(&mut image, &[]), &(3, 0), &"none came");
    let _ = learn(&mut image, 0);
    let vid = [0xB1, 0x01, 0x20, 0xC2];
    equal(&rt, &got(&mut image, &vid), &(3, 0), &"no format");
}

#[test]
fn a_restore_leaves_no_word_of_an_output_confirmed(rt: HostRuntime) {
    let mut image = host(2);
    equal(&rt, &check(&mut image, 0, 0x21), &0, &1);
    equal(
        &rt,
        &got(&mut image, &[0xB1, 0x02, 0xCD, 0x34, 0xB9]),
        &(1, 0),
        &2,
    );
    equal(&rt, &check(&mut image, 0, 0x10), &0, &3);
    equal(&rt, &got(&mut image, &[0xB1, 0x40, 0xA7]), &(1, 0), &4);
    equal(&rt, &store(&mut image), &0, &5);
    equal(
        &rt,
        &shown(&image, &[0xB0, 0x15, 0x24]),
        &(1, 3, 0, true),
        &6,
    );
    equal(&rt, &finished(&mut image, 1), &(1, 0), &7);
    equal(&rt, &standing(&image, 0, 0x21), &(0, 1, 0x34CD), &8);
    equal(&rt, &restore(&mut image), &0, &9);
    equal(&rt, &store(&mut image), &3, &10);
    equal(
        &rt,
        &shown(&image, &[0xB0, 0x16, 0x2D]),
        &(1, 3, 0, true),
        &11,
    );
    equal(&rt, &standing(&image, 0, 0x21).1, &0, &12);
    equal(&rt, &possible(&image, 0, 0x21).1, &0, &13);
    equal(&rt, &standing(&image, 0, 0x10), &(0, 1, 0x40), &14);
    equal(&rt, &finished(&mut image, 0), &(0, 0), &15);
    equal(&rt, &finished(&mut image, 0), &(3, 0), &16);
}

#[test]
fn a_refusal_has_its_number(rt: HostRuntime) {
    let mut image = no_host();
    equal(&rt, &new(&mut image, 0x07, 2, 2), &0xE3, &1);
    equal(&rt, &new(&mut image, 0x78, 2, 2), &0xE3, &2);
    equal(&rt, &new(&mut image, 0x58, 0, 2), &1, &3);
    equal(&rt, &new(&mut image, 0x58, 9, 2), &1, &4);
    equal(&rt, &new(&mut image, 0x58, 8, 0), &2, &5);
    equal(&rt, &new(&mut image, 0x58, 8, 16), &2, &6);
    is_true(&rt, is_refused(&mut image), &7);
    let mut image = host(15);
    equal(&rt, &order(&mut image, 0, 0x20, 0), &0xE1, &8);
    equal(&rt, &order(&mut image, 2, 0x21, 0), &4, &9);
    equal(&rt, &order(&mut image, 0, 0x01, 0xB0), &5, &10);
    equal(&rt, &order_micro(&mut image, 0, 0x01, 0), &5, &11);
    equal(&rt, &order_micro(&mut image, 0, 0x21, 0), &7, &12);
    equal(&rt, &standing(&image, 2, 0x21), &(4, 7, 7), &13);
    equal(&rt, &possible(&image, 0, 0x22), &(0xE1, 7, 7), &14);
    equal(&rt, &format(&image, 2), &(4, 7, 7), &15);
    equal(&rt, &restart_seen(&image), &0, &16);
    equal(&rt, &learn(&mut image, 1), &0, &17);
    equal(&rt, &check(&mut image, 0, 0x21), &3, &18);
}

// Whether each call of a host says that the memory holds none.
fn is_refused(image: &mut GuardImage) -> bool {
    let begun = [
        order(image, 0, 0x21, 0x1000),
        order_micro(image, 0, 0x21, 1),
        check(image, 0, 0x21),
        learn(image, 0),
        clear(image, 0),
        store(image),
        restore(image),
        restart(image),
        standing(image, 0, 0x21).0,
        possible(image, 0, 0x21).0,
        format(image, 0).0,
        restart_seen(image),
        narrow(image, 0, 0, 1),
        no_limits(image, 0),
        limits(image, 0).0,
        within(image, 0),
        band(image, 0).0,
    ];
    begun == [0xE0; 17]
        && shown(image, &[]) == (0, 0, 0, true)
        && finished(image, 1) == (0xE0, 0)
        && got(image, &[]) == (0xE0, 0)
}

// An image of a host with an open order, with one number changed.
fn changed(change: u8) -> GuardImage {
    let mut image = host(2);
    let _ = order(&mut image, 0, 0x21, 0x34CD);
    match change {
        0 => image.host.version = 2,
        1 => image.host.mark = 0,
        2 => image.host.state.address = 0x78,
        3 => image.host.state.outputs = 9,
        4 => image.host.state.passes = 0,
        5 => image.host.stage.kind = 8,
        6 => image.host.stage.code = 0x20,
        7 => image.host.stage.count = 2,
        8 => image.host.stage.output = 2,
        9 => image.host.state.known.possible[1] = WordsImage {
            count: 1,
            words: [0; 16],
        },
        10 => image.host.state.known.standing[1].is_confirmed = 1,
        11 => image.host.stage.kind = 6,
        12 => image.host.stage.kind = 7,
        _ => {}
    }
    image
}

#[test]
fn memory_that_holds_no_host_is_refused(rt: HostRuntime) {
    is_true(&rt, is_refused(&mut no_host()), &"zeros");
    for change in 0..13 {
        is_true(&rt, is_refused(&mut changed(change)), &change);
    }
    is_true(&rt, !is_refused(&mut changed(13)), &"no change");
}

// What damaged memory says of output 1, that still reads as a host: a count past the words, a flag that is
// neither, a mode that names no format.
#[test]
fn damaged_memory_says_what_can_be_read(rt: HostRuntime) {
    let mut image = host(2);
    let state = &mut image.host.state;
    state.known.possible[7].count = 0x0400;
    state.known.standing[7].is_confirmed = 2;
    state.formats[1].mode = 0x60;
    equal(&rt, &possible(&image, 1, 0x21), &(0, 0, 0), &1);
    equal(&rt, &standing(&image, 1, 0x21), &(0, 0, 0), &2);
    equal(&rt, &format(&image, 1), &(0, 0, 0), &3);
}

// A host's memory has the byte of VOUT_MODE and the five bytes of COEFFICIENTS as they were answered, FFh if there is
// none; a caller gets numbers, here of ULINEAR16 with -12 and of DIRECT with R 1.
#[test]
fn a_format_is_kept_as_it_was_learned(rt: HostRuntime) {
    let mut image = host(1);
    equal(&rt, &kept(&image, 1), &(0xFF, [0xFF; 5]), &1);
    equal(&rt, &learn(&mut image, 0), &0, &2);
    equal(
        &rt,
        &got(&mut image, &[0xB1, 0x01, 0x14, 0x4E]),
        &(4, 0),
        &3,
    );
    equal(&rt, &kept(&image, 0), &(0x14, [0xFF; 5]), &4);
    equal(&rt, &format(&image, 0), &(0, 1, -12), &5);
    equal(&rt, &learn(&mut image, 1), &0, &6);
    equal(
        &rt,
        &got(&mut image, &[0xB1, 0x01, 0x40, 0x87]),
        &(0, 0),
        &7,
    );
    let answer = [0xB1, 0x05, 0x99, 0x01, 0x02, 0x00, 0x01, 0x19];
    equal(&rt, &got(&mut image, &answer), &(4, 0), &8);
    equal(
        &rt,
        &kept(&image, 1),
        &(0x40, [0x99, 0x01, 0x02, 0x00, 0x01]),
        &9,
    );
    equal(&rt, &format(&image, 1), &(0, 2, 1), &10);
}

#[test]
fn numbers_stand_alone(rt: HostRuntime) {
    let format = FormatNumbers {
        kind: 1,
        exponent: -12,
        m: 0,
        b: 0,
    };
    equal(&rt, &microvolts(&format, 0x34CD), &(0, 3_300_048), &1);
    equal(&rt, &nearest(&format, 3_300_000), &(0, 0x34CD), &2);
    equal(&rt, &nearest(&format, -1), &(0x13, 7), &3);
    equal(&rt, &at_most(&format, 3_300_000), &(0, 0x34CC), &10);
    equal(&rt, &at_least(&format, 3_300_000), &(0, 0x34CD), &11);
    equal(&rt, &at_most(&format, -1), &(0x13, 7), &12);
    equal(&rt, &at_least(&format, -1), &(0, 0), &13);
    equal(&rt, &at_most(&format, 16_000_000), &(0, 0xFFFF), &14);
    equal(&rt, &at_least(&format, 16_000_000), &(0x14, 7), &15);
    let beyond = 1_000_000_000_000_001;
    equal(&rt, &at_most(&format, beyond), &(0x15, 7), &16);
    equal(&rt, &at_least(&format, -beyond), &(0x15, 7), &17);
    equal(&rt, &nearest(&format, 16_000_000), &(0x14, 7), &4);
    equal(
        &rt,
        &nearest(&format, 1_000_000_000_000_001),
        &(0x15, 7),
        &5,
    );
    let none = FormatNumbers {
        kind: 2,
        exponent: 0,
        m: 0,
        b: 0,
    };
    let linear11 = FormatNumbers { kind: 3, ..none };
    equal(&rt, &microvolts(&linear11, 0xD300), &(0, 12_000_000), &8);
    equal(&rt, &nearest(&linear11, -500_000), &(0, 0xFFFF), &9);
    equal(&rt, &nearest(&none, 1), &(7, 7), &6);
    equal(&rt, &at_most(&none, 1), &(7, 7), &18);
    equal(&rt, &at_least(&none, 1), &(7, 7), &19);
    equal(&rt, &microvolts(&none, 1), &(7, 7), &7);
}

// Words of DIRECT with m = 1, an offset b, and R = -9, whose values are 10^9 volts apart, and what is
// answered: 10^15 microvolts are the most.
static LARGE: [(i16, u16, (u8, i64)); 5] = [
    (0, 0x0001, (0, 1_000_000_000_000_000)),
    (0, 0xFFFF, (0, -1_000_000_000_000_000)),
    (-1, 0x0001, (0x15, 7)),
    (1, 0xFFFF, (0x15, 7)),
    (0, 0x0002, (0x15, 7)),
];

#[test]
fn what_is_beyond_the_most_is_refused(rt: HostRuntime) {
    for &(b, word, wanted) in &LARGE {
        let format = FormatNumbers {
            kind: 2,
            exponent: -9,
            m: 1,
            b,
        };
        equal(&rt, &microvolts(&format, word), &wanted, &(b, word));
    }
}
