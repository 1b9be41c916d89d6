//! A log of an order whose write isn't acknowledged, and of a check.

use crate::checks::equal;
use pm_host::{HostFault, Job, Told};
use pm_log::{Act, ActFault, CheckFault, Claim, check};
use pm_table::{Cell, Reg};
use std::process::Abort;

const CELL: Cell = Cell::Out(0, Reg::VoutCommand);

const OTHER: Cell = Cell::Out(1, Reg::VoutCommand);

const FRAME: [u8; 8] = [0xB0, 0x05, 0x04, 0x00, 0x21, 0xCD, 0x34, 0x5A];

const FRAME_1000: [u8; 8] = [0xB0, 0x05, 0x04, 0x00, 0x21, 0x00, 0x10, 0xA2];

const REQUEST: [u8; 5] = [0xB0, 0x06, 0x02, 0x00, 0x21];

const ANSWER: [u8; 5] = [0xB1, 0x02, 0xCD, 0x34, 0xB9];

// What a check of an order of this word, with this answer, gives for the claim that the cell holds this.
fn ordered(word: u16, answer: &[u8], cell: Cell, claimed: u16) -> Result<(), CheckFault> {
    let frame = if word == 0x1000 { FRAME_1000 } else { FRAME };
    let acts = [
        Act::Begun(Job::Order(CELL, word)),
        Act::Sent(&frame, Told::Finished { acked: false }),
        Act::Sent(&REQUEST, Told::Got(answer)),
    ];
    let claims = [Claim::Holds {
        cell,
        word: claimed,
    }];
    check(0x58, 2, 2, &acts, &claims)
}

fn is(rt: &impl Abort, found: Result<(), CheckFault>, wanted: Result<(), CheckFault>) {
    equal(rt, &found, &wanted, &1);
}

#[test]
fn a_log_is_accepted_where_its_claims_are_known(rt: HostRuntime) {
    let claim = Err(CheckFault::Claim { at: 0 });
    is(&rt, ordered(0x34CD, &ANSWER, CELL, 0x34CD), Ok(()));
    is(&rt, ordered(0x34CD, &ANSWER, CELL, 0x34CC), claim);
    is(&rt, ordered(0x34CD, &ANSWER, OTHER, 0x34CD), claim);
    is(
        &rt,
        ordered(0x34CD, &ANSWER, Cell::Out(2, Reg::VoutCommand), 0x34CD),
        claim,
    );
    is(&rt, ordered(0x34CD, &[], CELL, 0x34CD), claim);
    // The order isn't over, and its word may be there too.
    is(&rt, ordered(0x1000, &ANSWER, CELL, 0x34CD), claim);
}

#[test]
fn no_answer_with_a_wrong_bit_is_believed(rt: HostRuntime) {
    for at in 0..5usize {
        for bit in 0..8u8 {
            let mut answer = ANSWER;
            answer[at] ^= 1 << bit;
            is(
                &rt,
                ordered(0x34CD, &answer, CELL, 0x34CD),
                Err(CheckFault::Claim { at: 0 }),
            );
        }
    }
}

#[test]
fn acts_have_to_come_where_they_stand(rt: HostRuntime) {
    let got = Act::Sent(&REQUEST, Told::Got(&ANSWER));
    let begun = Act::Begun(Job::Check(CELL));
    is(&rt, check(0x58, 2, 2, &[begun, got], &[]), Ok(()));
    is(
        &rt,
        check(0x58, 2, 2, &[begun, got, got], &[]),
        Err(CheckFault::Act {
            at: 2,
            fault: ActFault::NothingSent,
        }),
    );
    is(
        &rt,
        check(
            0x58,
            2,
            2,
            &[begun, Act::Sent(&REQUEST, Told::Finished { acked: true })],
            &[],
        ),
        Err(CheckFault::Act {
            at: 1,
            fault: ActFault::WrongKind,
        }),
    );
    is(
        &rt,
        check(0x58, 2, 2, &[begun, begun], &[]),
        Err(CheckFault::Act {
            at: 1,
            fault: ActFault::Refused(HostFault::Busy),
        }),
    );
    is(
        &rt,
        check(
            0x58,
            2,
            2,
            &[
                begun,
                Act::Sent(&[0xB0, 0x06, 0x02, 0x01, 0x21], Told::Got(&ANSWER)),
            ],
            &[],
        ),
        Err(CheckFault::Act {
            at: 1,
            fault: ActFault::OtherFrame,
        }),
    );
    is(
        &rt,
        check(0x58, 9, 2, &[], &[]),
        Err(CheckFault::Setup(HostFault::OutputCount)),
    );
}
