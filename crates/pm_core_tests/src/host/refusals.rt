//! Which fault a host's call is refused by, row by row.

use super::*;

// Outputs and passes, and which of them is refused.
#[rattlefmt::skip]
static SETUPS: [(u8, u8, Option<HostFault>); 6] = [
    (0, 0, Some(HostFault::OutputCount)), (9, 16, Some(HostFault::OutputCount)),
    (1, 0, Some(HostFault::Passes)), (8, 16, Some(HostFault::Passes)), (1, 1, None), (8, 15, None),
];

#[test]
fn the_outputs_are_judged_before_the_passes(rt: HostRuntime) {
    for &(outputs, passes, wanted) in &SETUPS {
        compare! { &rt, (outputs, passes); Host::new(0x08, outputs, passes).err() => wanted }
    }
}

// A learn over two reads, the first answers of which are no good.
#[rattlefmt::skip]
static LEARNED_LATE: [(Call<'static>, Answer); 5] = [
    (Learn(0), BEGUN), (Got(&[0xB1]), NEXT),
    (Answered(READ_MODE, &[0x40]), NEXT),
    (Got(&[]), NEXT),
    (Answered(READ_COEFFICIENTS, &[0x01, 0x00, 0x00, 0x00, 0x03]), LEARNED),
];

// Modes without a format, coefficients without one, no answer to either read.
#[rattlefmt::skip]
static NOTHING_LEARNED: [(Call<'static>, Answer); 21] = [
    (Learn(0), BEGUN), (Answered(READ_MODE, &[0x20]), UNKNOWN), (Learn(0), BEGUN),
    (Answered(READ_MODE, &[0x41]), UNKNOWN), (Learn(0), BEGUN),
    (Answered(READ_MODE, &[0x60]), UNKNOWN), (Learn(0), BEGUN),
    (Answered(READ_MODE, &[0x94]), UNKNOWN), (Learn(0), BEGUN),
    (Answered(READ_MODE, &[0x40]), NEXT),
    (Answered(READ_COEFFICIENTS, &[0x00, 0x00, 0x00, 0x00, 0x00]), UNKNOWN),
    (Learn(0), BEGUN), (Answered(READ_MODE, &[0x40]), NEXT),
    (Answered(READ_COEFFICIENTS, &[0x01, 0x00, 0x00, 0x00, 0x0D]), UNKNOWN),
    (Learn(0), BEGUN), (Got(&[]), NEXT), (Got(&[]), UNKNOWN), (Learn(0), BEGUN),
    (Answered(READ_MODE, &[0x40]), NEXT), (Got(&[]), NEXT), (Got(&[]), UNKNOWN),
];

// 3300 millivolts.
static ORDERED_IN_MILLIVOLTS: [(Call<'static>, Answer); 3] = [
    (OrderMicro(FIRST, 3_300_000), BEGUN),
    (Finish(true), NEXT),
    (Answered(READ_FIRST, &[0xE4, 0x0C]), DONE),
];

#[test]
fn a_learn_that_finds_nothing_leaves_the_format_from_before(rt: HostRuntime) {
    let mut host = new_host();
    goes(&rt, &mut host, &LEARNED_LATE[..3]);
    sends(&rt, &host, &[0xB0, 0x30, 0x02, 0x21, 0x00], true);
    goes(&rt, &mut host, &LEARNED_LATE[3..]);
    goes(&rt, &mut host, &NOTHING_LEARNED);
    goes(&rt, &mut host, &ORDERED_IN_MILLIVOLTS);
    stands(&rt, &host, FIRST, Standing::Confirmed(3300));
}
