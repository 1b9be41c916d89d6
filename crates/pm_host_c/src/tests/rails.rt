//! What an output commands. Answers are of output 0 at 58h.

use super::calls::{
    band, check, got, host, host_with, learn, narrow, no_host, order, order_micro, rail, restart,
    within,
};
use super::checks::equal;
use pm_memory::GuardImage;

// What is read of an output, by its code, and what comes: VOUT_MODE 14h, OPERATION 80h, VOUT_COMMAND 34CDh, VOUT_MAX 3770h and
// VOUT_MIN 3334h.
static READS: [(u8, &[u8]); 5] = [
    (0x20, &[0xB1, 0x01, 0x14, 0x4E]),
    (0x01, &[0xB1, 0x01, 0x80, 0x73]),
    (0x21, &[0xB1, 0x02, 0xCD, 0x34, 0xB9]),
    (0x24, &[0xB1, 0x02, 0x70, 0x37, 0xFB]),
    (0x2B, &[0xB1, 0x02, 0x34, 0x33, 0xD8]),
];

// Learns the format, or reads a register, and this comes: the number, and the kind of the step.
fn read(image: &mut GuardImage, code: u8, answer: &[u8]) -> (u8, u16) {
    let number = if code == 0x20 {
        learn(image, 0)
    } else {
        check(image, 0, code)
    };
    (number, got(image, answer).0)
}

// A host that read all of these, and for OPERATION this came.
fn surveyed_with(operation: &[u8]) -> GuardImage {
    let mut image = host(2);
    for &(code, answer) in &READS {
        let answer = if code == 0x01 { operation } else { answer };
        let _ = read(&mut image, code, answer);
    }
    image
}

// What came for OPERATION, and whether the output is on then. Both select VOUT_COMMAND.
static POWERS: [(&[u8], u8); 2] = [
    (&[0xB1, 0x01, 0x80, 0x73], 1),
    (&[0xB1, 0x01, 0x00, 0xFA], 2),
];

// What came for OPERATION, and the command code of the register that has the voltage then.
static SELECTIONS: [(&[u8], u8); 6] = [
    (&[0xB1, 0x01, 0x80, 0x73], 0x21),
    (&[0xB1, 0x01, 0x40, 0x3D], 0x21),
    (&[0xB1, 0x01, 0xA4, 0x8F], 0x25),
    (&[0xB1, 0x01, 0x9B, 0x32], 0x26),
    (&[0xB1, 0x01, 0xB0, 0xE3], 0xFF),
    (&[0xB1, 0x01, 0xA0, 0x93], 0x00),
];

#[test]
fn a_rail_says_which_register_has_its_voltage(rt: HostRuntime) {
    for &(answer, code) in &SELECTIONS {
        let mut image = host(1);
        equal(&rt, &check(&mut image, 0, 0x01), &0, &code);
        equal(&rt, &got(&mut image, answer).0, &1, &code);
        equal(&rt, &rail(&image, 0).1.3, &code, &code);
    }
}

#[test]
fn a_rail_says_what_its_output_commands(rt: HostRuntime) {
    let sevens = (7, 7, 7, 7, [7; 4], 7, 7);
    equal(&rt, &rail(&no_host(), 0), &(0xE0, sevens), &1);
    let mut image = host(2);
    equal(&rt, &rail(&image, 2), &(4, sevens), &2);
    equal(
        &rt,
        &rail(&image, 0),
        &(0, (0, 0xE6, 7, 0, [0; 4], 0, 0)),
        &3,
    );
    let _ = narrow(&mut image, 0, 3_200_000, 3_465_000);
    equal(&rt, &rail(&image, 0).1.1, &0x93, &4);
    for &(answer, power) in &POWERS {
        let mut image = surveyed_with(answer);
        equal(
            &rt,
            &rail(&image, 0),
            &(0, (power, 0xE6, 0, 0x21, [0; 4], 3_300_048, 3_300_049)),
            &power,
        );
        equal(&rt, &band(&image, 0), &(0, 3_300_048, 3_300_049), &power);
        let _ = narrow(&mut image, 0, 3_310_000, 3_465_000);
        equal(
            &rt,
            &(rail(&image, 0).1.1, within(&image, 0)),
            &(0x92, 0x92),
            &power,
        );
    }
}

// What came for OPERATION of A0h, which its cell doesn't take, and of B0h, which hands the voltage to AVSBus; and the number of
// the band.
static UNTAKEN: [(&[u8], u8); 2] = [
    (&[0xB1, 0x01, 0xA0, 0x93], 0),
    (&[0xB1, 0x01, 0xB0, 0xE3], 0xEB),
];

#[test]
fn a_byte_that_operation_does_not_take_is_not_known(rt: HostRuntime) {
    for &(answer, number) in &UNTAKEN {
        let mut image = surveyed_with(answer);
        let (_, (power, _, found, ..)) = rail(&image, 0);
        equal(&rt, &(power, found), &(0, number), &number);
        equal(&rt, &band(&image, 0).0, &number, &number);
    }
}

// A host whose part has VOUT_MAX and margin low, and neither margin high nor VOUT_MIN.
fn lacking() -> GuardImage {
    host_with(1, [1, 0, 2, 0])
}

#[test]
fn a_part_may_lack_registers(rt: HostRuntime) {
    let mut image = lacking();
    equal(&rt, &check(&mut image, 0, 0x2B), &0x27, &1);
    equal(&rt, &check(&mut image, 2, 0x2B), &4, &2);
    equal(&rt, &order(&mut image, 0, 0x25, 0x1000), &0x27, &3);
    equal(&rt, &order(&mut image, 0, 0x01, 0xA8), &0x27, &4);
    equal(&rt, &order_micro(&mut image, 0, 0x2B, 1), &0x27, &5);
    equal(&rt, &order(&mut image, 0, 0x01, 0x94), &0, &6);
    equal(&rt, &restart(&mut image), &0, &7);
    equal(&rt, &check(&mut image, 0, 0x2B), &0x27, &8);
    for &(code, answer) in &READS {
        let kind = if code == 0x20 { 4 } else { 1 };
        let wanted = if code == 0x2B {
            (0x27, 0xE2)
        } else {
            (0, kind)
        };
        equal(&rt, &read(&mut image, code, answer), &wanted, &code);
    }
    equal(
        &rt,
        &rail(&image, 0),
        &(0, (1, 0xE6, 0, 0x21, [0; 4], 3_300_048, 3_300_049)),
        &9,
    );
}
