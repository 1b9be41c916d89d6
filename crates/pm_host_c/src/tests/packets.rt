//! Packets that need no host.

use super::calls::{PACKET, answer, other_read, read_request, read_write, written};
use super::checks::{equal, is_true};
use crate::packet::pm_pec;
use pm_memory::packet::PacketImage;

// The numbers of a packet (kind, page or side, code, count, word), and its bytes: a packet of each kind that is
// written and PAGE_PLUS_WRITE with each count, then each kind of request.
static PACKETS: [((u8, u8, u8, u8, u16), &[u8]); 11] = [
    ((1, 0, 0x15, 0, 0), &[0xB0, 0x15, 0x24]),
    ((2, 0, 0x10, 1, 0x40), &[0xB0, 0x10, 0x40, 0x7A]),
    ((3, 0, 0x21, 2, 0x34CD), &[0xB0, 0x21, 0xCD, 0x34, 0x38]),
    ((4, 1, 0x03, 0, 0), &[0xB0, 0x05, 0x02, 0x01, 0x03, 0x45]),
    (
        (4, 0, 0x01, 1, 0x80),
        &[0xB0, 0x05, 0x03, 0x00, 0x01, 0x80, 0x02],
    ),
    (
        (4, 0, 0x21, 2, 0x34CD),
        &[0xB0, 0x05, 0x04, 0x00, 0x21, 0xCD, 0x34, 0x5A],
    ),
    ((5, 0, 0x10, 0, 0), &[0xB0, 0x10]),
    ((5, 0, 0x21, 0, 0), &[0xB0, 0x21]),
    ((6, 1, 0x21, 0, 0), &[0xB0, 0x06, 0x02, 0x01, 0x21]),
    ((7, 0, 0x21, 0, 0), &[0xB0, 0x30, 0x02, 0x21, 0x00]),
    ((7, 1, 0x21, 0, 0), &[0xB0, 0x30, 0x02, 0x21, 0x01]),
];

// How many of them are written.
const WRITES: usize = 6;

fn packet(numbers: (u8, u8, u8, u8, u16)) -> PacketImage {
    let (kind, page, code, count, word) = numbers;
    PacketImage {
        kind,
        page,
        code,
        count,
        word,
    }
}

fn numbers(packet: &PacketImage) -> (u8, u8, u8, u8, u16) {
    (
        packet.kind,
        packet.page,
        packet.code,
        packet.count,
        packet.word,
    )
}

#[test]
fn packets_are_written_and_read(rt: HostRuntime) {
    for (number, (wanted, bytes)) in PACKETS.iter().enumerate() {
        let (refusal, length, begins) = written(0x58, &packet(*wanted), bytes);
        equal(
            &rt,
            &(refusal, usize::from(length), begins),
            &(0, bytes.len(), true),
            &number,
        );
        let (refusal, read) = if number < WRITES {
            read_write(0x58, bytes)
        } else {
            read_request(0x58, bytes)
        };
        equal(&rt, &(refusal, numbers(&read)), &(0, *wanted), &number);
    }
}

#[test]
fn packets_are_refused(rt: HostRuntime) {
    let bytes = [0xB0, 0x05, 0x04, 0x00, 0x21, 0xCD, 0x34, 0x5A];
    let word = packet((4, 0, 0x21, 2, 0x34CD));
    equal(&rt, &pm_pec(&bytes[..7]), &0x5A, &1);
    equal(&rt, &written(0x07, &word, &bytes), &(0xE3, 9, false), &2);
    equal(&rt, &written(0x58, &PACKET, &bytes), &(0xE4, 9, false), &3);
    equal(&rt, &read_write(0x59, &bytes).0, &0x31, &4);
    equal(&rt, &read_write(0x58, &bytes[..7]).0, &0x32, &5);
    equal(&rt, &read_request(0x58, &bytes[..5]).0, &0x37, &6);
    is_true(
        &rt,
        numbers(&read_write(0x59, &bytes).1) == (9, 9, 9, 9, 9),
        &7,
    );
}

// An address, a request (kind, page or side, code), what came back, the number, and of the payload the length, the
// word and the bytes.
static ANSWERS: [(u8, (u8, u8, u8), &[u8], (u8, u8, u16, [u8; 5])); 13] = [
    (
        0x58,
        (6, 0, 0x21),
        &[0xB1, 0x02, 0xCD, 0x34, 0xB9],
        (0, 2, 0x34CD, [0xCD, 0x34, 0, 0, 0]),
    ),
    (
        0x58,
        (6, 1, 0x21),
        &[0xB1, 0x02, 0xCD, 0x34, 0x90],
        (0, 2, 0x34CD, [0xCD, 0x34, 0, 0, 0]),
    ),
    (
        0x58,
        (6, 1, 0x01),
        &[0xB1, 0x01, 0x40, 0x5F],
        (0, 1, 0x40, [0x40, 0, 0, 0, 0]),
    ),
    (
        0x58,
        (5, 0, 0x21),
        &[0xB1, 0xCD, 0x34, 0x10],
        (0, 2, 0x34CD, [0xCD, 0x34, 0, 0, 0]),
    ),
    (
        0x58,
        (7, 0, 0x21),
        &[0xB1, 0x05, 0x02, 0x00, 0xFC, 0xFF, 0xFD, 0x78],
        (0, 5, 2, [0x02, 0x00, 0xFC, 0xFF, 0xFD]),
    ),
    (
        0x58,
        (7, 1, 0x21),
        &[0xB1, 0x05, 0x02, 0x00, 0xFC, 0xFF, 0xFD, 0x6B],
        (0, 5, 2, [0x02, 0x00, 0xFC, 0xFF, 0xFD]),
    ),
    (
        0x58,
        (7, 1, 0x21),
        &[0xB1, 0x05, 0x02, 0x00, 0xFC, 0xFF, 0xFD, 0x78],
        (0x35, 7, 7, [7; 5]),
    ),
    (
        0x58,
        (6, 0, 0x21),
        &[0xB1, 0x02, 0xCD, 0x34, 0xB8],
        (0x35, 7, 7, [7; 5]),
    ),
    (
        0x58,
        (6, 0, 0x21),
        &[0xB1, 0x01, 0xCD, 0x34, 0xB9],
        (0x34, 7, 7, [7; 5]),
    ),
    (
        0x58,
        (6, 0, 0x21),
        &[0xB1, 0x02, 0xCD],
        (0x32, 7, 7, [7; 5]),
    ),
    (0x58, (6, 0, 0x21), &[], (0x31, 7, 7, [7; 5])),
    (
        0x78,
        (6, 0, 0x21),
        &[0xB1, 0x02, 0xCD, 0x34, 0xB9],
        (0xE3, 7, 7, [7; 5]),
    ),
    (
        0x58,
        (4, 0, 0x21),
        &[0xB1, 0x02, 0xCD, 0x34, 0xB9],
        (0xE4, 7, 7, [7; 5]),
    ),
];

#[test]
fn an_answer_is_read(rt: HostRuntime) {
    for (number, (address, request, bytes, wanted)) in ANSWERS.iter().enumerate() {
        equal(&rt, &answer(*address, *request, bytes), wanted, &number);
    }
}

// A block read of MFR_ID, which is `LTC`, and of an empty one; reads of STATUS_WORD and of no byte; and what is wrong with
// such answers. The address, the code, how many bytes are asked for if it is no block, what came, and what is said.
static OTHER_READS: [(u8, u8, Option<u8>, &[u8], (u8, u8, [u8; 4])); 16] = [
    (
        0x58,
        0x99,
        None,
        &[0xB1, 0x03, 0x4C, 0x54, 0x43, 0x9F],
        (0, 3, [0x4C, 0x54, 0x43, 0x00]),
    ),
    (0x58, 0x99, None, &[0xB1, 0x00, 0x51], (0, 0, [0; 4])),
    (
        0x58,
        0x99,
        None,
        &[0xB1, 0x03, 0x4C, 0x54, 0x43, 0x9E],
        (0x35, 7, [7; 4]),
    ),
    (
        0x58,
        0x9A,
        None,
        &[0xB1, 0x03, 0x4C, 0x54, 0x43, 0x9F],
        (0x35, 7, [7; 4]),
    ),
    (0x58, 0x99, None, &[0xB1, 0x21, 0x4C], (0x34, 7, [7; 4])),
    (
        0x58,
        0x99,
        None,
        &[0xB1, 0x03, 0x4C, 0x54, 0x43],
        (0x32, 7, [7; 4]),
    ),
    (
        0x58,
        0x99,
        None,
        &[0xB1, 0x03, 0x4C, 0x54, 0x43, 0x9F, 0xFF],
        (0x33, 7, [7; 4]),
    ),
    (0x58, 0x99, None, &[], (0x31, 7, [7; 4])),
    (0x07, 0x99, None, &[0xB1, 0x00, 0x51], (0xE3, 7, [7; 4])),
    (
        0x58,
        0x79,
        Some(2),
        &[0xB1, 0x40, 0x00, 0x8F],
        (0, 2, [0x40, 0x00, 0x00, 0x00]),
    ),
    (
        0x58,
        0x79,
        Some(2),
        &[0xB1, 0x40, 0x00, 0x8E],
        (0x35, 7, [7; 4]),
    ),
    (
        0x58,
        0x79,
        Some(1),
        &[0xB1, 0x40, 0x00, 0x8F],
        (0x33, 7, [7; 4]),
    ),
    (
        0x58,
        0x79,
        Some(3),
        &[0xB1, 0x40, 0x00, 0x8F],
        (0x32, 7, [7; 4]),
    ),
    (
        0x58,
        0x79,
        Some(2),
        &[0xB3, 0x40, 0x00, 0x8F],
        (0x31, 7, [7; 4]),
    ),
    (
        0x58,
        0x79,
        Some(33),
        &[0xB1, 0x40, 0x00, 0x8F],
        (0xE4, 7, [7; 4]),
    ),
    (
        0x78,
        0x79,
        Some(2),
        &[0xB1, 0x40, 0x00, 0x8F],
        (0xE3, 7, [7; 4]),
    ),
];

#[test]
fn a_read_of_any_code_is_judged(rt: HostRuntime) {
    for (number, (address, code, size, bytes, wanted)) in OTHER_READS.iter().enumerate() {
        equal(
            &rt,
            &other_read(*address, *code, *size, bytes),
            wanted,
            &number,
        );
    }
}
