//! Limits, the band, names, and what is known of every cell.

use super::calls::{
    band, bare, check, end_name, got, host, known, learn, limits, narrow, no_host, no_limits,
    order, order_micro, refusal_name, within,
};
use super::checks::{equal, is_true};
use pm_memory::GuardImage;

// A host of two outputs, which learned that output 0 has ULINEAR16 with the exponent -12.
fn learned() -> GuardImage {
    let mut image = host(2);
    let _ = learn(&mut image, 0);
    let _ = got(&mut image, &[0xB1, 0x01, 0x14, 0x00]);
    let _ = got(&mut image, &[0xB1, 0x01, 0x14, 0x4E]);
    image
}

// An output, limits that it is given after 3.2 V to 3.465 V, and the number.
static NARROWED: [(u8, i64, i64, u8); 6] = [
    (0, 3_200_000, 3_465_001, 0x26),
    (0, 3_199_999, 3_465_000, 0x26),
    (0, 3_400_000, 3_300_000, 0x21),
    (0, 0, 1_000_000_000_000_001, 0x15),
    (2, 0, 1, 0x04),
    (0, 3_300_000, 3_300_048, 0),
];

#[test]
fn limits_are_narrowed(rt: HostRuntime) {
    let mut image = host(2);
    equal(&rt, &limits(&image, 0), &(0xE6, 7, 7), &1);
    equal(&rt, &within(&image, 0), &0xE6, &2);
    equal(&rt, &narrow(&mut image, 0, 3_200_000, 3_465_000), &0, &3);
    equal(&rt, &limits(&image, 0), &(0, 3_200_000, 3_465_000), &4);
    equal(&rt, &limits(&image, 1), &(0xE6, 7, 7), &5);
    equal(&rt, &limits(&image, 2), &(4, 7, 7), &6);
    equal(&rt, &order(&mut image, 0, 0x21, 0x34CD), &0x22, &7);
    for &(output, least, most, number) in &NARROWED {
        equal(
            &rt,
            &narrow(&mut image, output, least, most),
            &number,
            &(least, most),
        );
    }
    equal(&rt, &limits(&image, 0), &(0, 3_300_000, 3_300_048), &8);
    equal(&rt, &within(&image, 0), &0x93, &9);
    equal(&rt, &within(&image, 2), &4, &10);
}

// A code, a word, and the number of its order with limits of 3.2 V to 3.465 V.
static ORDERED: [(u8, u16, u8); 8] = [
    (0x21, 0x3333, 0x23),
    (0x21, 0x3334, 0),
    (0x21, 0x3770, 0),
    (0x21, 0x3771, 0x24),
    (0x25, 0xFFFF, 0x24),
    (0x2B, 0x0000, 0x23),
    (0x01, 0x80, 0x25),
    (0x01, 0x40, 0),
];

#[test]
fn orders_are_judged_by_limits(rt: HostRuntime) {
    for &(code, word, number) in &ORDERED {
        let mut image = learned();
        let _ = narrow(&mut image, 0, 3_200_000, 3_465_000);
        equal(
            &rt,
            &order(&mut image, 0, code, word),
            &number,
            &(code, word),
        );
        equal(
            &rt,
            &order_micro(&mut image, 0, 0x21, 12_000_000),
            &if number == 0 { 3 } else { 0x24 },
            &number,
        );
    }
    let mut image = learned();
    equal(&rt, &order(&mut image, 0, 0x21, 0xFFFF), &0, &"free");
}

#[test]
fn the_band_is_rounded_outward(rt: HostRuntime) {
    equal(&rt, &band(&host(2), 0), &(7, 7, 7), &1);
    let mut image = learned();
    equal(&rt, &band(&image, 0), &(0, 0, 15_999_756), &2);
    equal(&rt, &band(&image, 2), &(4, 7, 7), &3);
    let _ = check(&mut image, 0, 0x24);
    let _ = got(&mut image, &[0xB1, 0x02, 0xCD, 0x34, 0x54]);
    equal(&rt, &band(&image, 0), &(0, 0, 3_300_049), &4);
    let _ = narrow(&mut image, 0, 0, 3_300_049);
    equal(&rt, &within(&image, 0), &0x91, &5);
}

// An output, a code, a word, and the number of its order if no limits are known: VOUT_COMMAND, VOUT_MAX and VOUT_MIN,
// OPERATION on and off, and WRITE_PROTECT.
static UNKNOWN: [(u8, u8, u16, u8); 8] = [
    (0, 0x21, 0x34CD, 0x28),
    (0, 0x24, 0x34CD, 0x28),
    (1, 0x2B, 0x34CD, 0x28),
    (0, 0x01, 0x80, 0x28),
    (0, 0x01, 0xA8, 0x28),
    (0, 0x01, 0x40, 0),
    (0, 0x10, 0x00, 0),
    (2, 0x21, 0x34CD, 0x04),
];

#[test]
fn no_voltage_is_ordered_where_no_limits_are_known(rt: HostRuntime) {
    for &(output, code, word, number) in &UNKNOWN {
        let mut image = bare(2);
        equal(
            &rt,
            &order(&mut image, output, code, word),
            &number,
            &(output, code, word),
        );
    }
    let mut image = bare(2);
    equal(&rt, &limits(&image, 0), &(0xE6, 7, 7), &1);
    equal(&rt, &within(&image, 0), &0xE6, &2);
    equal(&rt, &no_limits(&mut image, 2), &4, &3);
    equal(&rt, &no_limits(&mut image, 0), &0, &4);
    equal(&rt, &limits(&image, 0), &(0xE6, 7, 7), &5);
    equal(&rt, &within(&image, 0), &0xE6, &6);
    equal(&rt, &order(&mut image, 1, 0x21, 0x34CD), &0x28, &7);
    equal(&rt, &narrow(&mut image, 0, 3_200_000, 3_465_000), &0, &8);
    equal(&rt, &no_limits(&mut image, 0), &0x26, &9);
    equal(&rt, &limits(&image, 0), &(0, 3_200_000, 3_465_000), &10);
    equal(&rt, &no_limits(&mut image, 1), &0, &11);
    equal(&rt, &order(&mut image, 1, 0x21, 0x34CD), &0, &12);
}

// What came for a read of VOUT_MIN and of VOUT_MAX, the limits that the output then has, and whether its voltage lies
// within them: its whole band a microvolt below them and above them, and touching them.
static BEYOND: [([u8; 5], [u8; 5], i64, i64, u8); 4] = [
    (LEAST, LOWERED, 3_300_049, 3_465_000, 0x92),
    (LEAST, LOWERED, 3_300_048, 3_465_000, 0x93),
    (RAISED, GREATEST, 3_135_000, 3_300_048, 0x92),
    (RAISED, GREATEST, 3_135_000, 3_300_049, 0x93),
];

// VOUT_MIN of 0000h and 34CDh, VOUT_MAX of 34CDh and FFFFh.
const LEAST: [u8; 5] = [0xB1, 0x02, 0x00, 0x00, 0xEC];

const RAISED: [u8; 5] = [0xB1, 0x02, 0xCD, 0x34, 0x64];

const LOWERED: [u8; 5] = [0xB1, 0x02, 0xCD, 0x34, 0x54];

const GREATEST: [u8; 5] = [0xB1, 0x02, 0xFF, 0xFF, 0xF8];

#[test]
fn a_band_beyond_its_limits_is_outside(rt: HostRuntime) {
    for (min, max, least, most, wanted) in &BEYOND {
        let mut image = learned();
        let _ = check(&mut image, 0, 0x2B);
        let _ = got(&mut image, min);
        let _ = check(&mut image, 0, 0x24);
        let _ = got(&mut image, max);
        let _ = narrow(&mut image, 0, *least, *most);
        equal(&rt, &within(&image, 0), wanted, &(least, most));
    }
}

// Each refusal that only a caller in C gets and one of each other kind, with its name; an empty name for a number
// that has none.
static REFUSALS: [(u8, &[u8]); 32] = [
    (0x00, b""),
    (0x06, b"H6 TooUncertain\0\0"),
    (0x15, b"N5 TooLarge\0"),
    (0x25, b"L5 NotKnownWithin\0"),
    (0x27, b"L7 MissingRegister\0"),
    (0x28, b"L8 NoLimits\0"),
    (0x29, b""),
    (0x35, b"F5 WrongPec\0"),
    (0x47, b"K7 ReadOnly\0"),
    (0x50, b""),
    (0x55, b"V5 BadCoefficients\0"),
    (0x60, b""),
    (0x61, b"P1 FormatUnknown\0"),
    (0x67, b"P7 Protected\0"),
    (0x68, b"P8 BeyondFaultLimit\0"),
    (0x69, b"P9 NotNear\0"),
    (0x6A, b""),
    (0xE0, b"NoHost\0"),
    (0xE1, b"NoCell\0"),
    (0xE2, b"OtherFrame\0"),
    (0xE3, b"NoAddress\0"),
    (0xE4, b"NoPacket\0"),
    (0xE5, b"NoPart\0"),
    (0xE6, b"NoLimits\0"),
    (0xE7, b"NoName\0"),
    (0xE8, b"NoReading\0"),
    (0xE9, b"NoCourse\0"),
    (0xEA, b"NoRoom\0"),
    (0xEB, b"NoBand\0"),
    (0xEC, b"NoDelivery\0"),
    (0xED, b"NoGoal\0"),
    (0xEF, b"NoStep\0"),
];

// The kind of a step, and its name.
static ENDS: [(u16, &[u8]); 6] = [
    (0, b"next\0"),
    (1, b"done\0"),
    (2, b"differs\0"),
    (3, b"unknown\0"),
    (4, b"learned\0"),
    (5, b""),
];

#[test]
fn each_number_has_its_name(rt: HostRuntime) {
    for &(number, name) in &REFUSALS {
        is_true(&rt, refusal_name(number, name) != name.is_empty(), &number);
    }
    for &(kind, name) in &ENDS {
        is_true(&rt, end_name(kind, name) != name.is_empty(), &kind);
    }
}

#[test]
fn every_cell_is_known(rt: HostRuntime) {
    let mut image = host(2);
    let _ = order(&mut image, 1, 0x2B, 0x1234);
    let (number, known) = known(&image);
    equal(&rt, &(number, known.count), &(0, 13), &1);
    let (first, ordered, last) = (known.cells[0], known.cells[11], known.cells[12]);
    equal(
        &rt,
        &(known.cells[13].code, known.cells[48].output),
        &(7, 7),
        &6,
    );
    equal(
        &rt,
        &(first.output, first.code, first.words.count),
        &(0, 0x01, 0),
        &2,
    );
    equal(
        &rt,
        &(ordered.output, ordered.code, ordered.words.count),
        &(1, 0x2B, 0),
        &3,
    );
    equal(&rt, &(last.output, last.code), &(0, 0x10), &4);
    equal(&rt, &super::calls::known(&no_host()).0, &0xE0, &5);
}
