//! Claims of what an output commands, by a log of all that its band rests on.

use crate::checks::equal;
use pm_host::{HostFault, Job, Told};
use pm_limits::PartRegisters;
use pm_log::{Act, ActFault, CheckFault, Claim, check};
use pm_table::{Cell, Reg};
use std::process::Abort;

// The reads of VOUT_MODE and of the registers that decide, and their answers: 14h, 80h, 34CDh, 4000h and 0000h.
const MODE: ([u8; 5], [u8; 4]) = ([0xB0, 0x06, 0x02, 0x00, 0x20], [0xB1, 0x01, 0x14, 0x4E]);

const OPERATION: ([u8; 5], [u8; 4]) = ([0xB0, 0x06, 0x02, 0x00, 0x01], [0xB1, 0x01, 0x80, 0x73]);

const COMMAND: ([u8; 5], [u8; 5]) = (
    [0xB0, 0x06, 0x02, 0x00, 0x21],
    [0xB1, 0x02, 0xCD, 0x34, 0xB9],
);

const MAX: ([u8; 5], [u8; 5]) = (
    [0xB0, 0x06, 0x02, 0x00, 0x24],
    [0xB1, 0x02, 0x00, 0x40, 0x1B],
);

const MIN: ([u8; 5], [u8; 5]) = (
    [0xB0, 0x06, 0x02, 0x00, 0x2B],
    [0xB1, 0x02, 0x00, 0x00, 0xEC],
);

// What a check of the first of these acts gives for the claim that output 0 commands a voltage between these microvolts.
fn claimed(acts: usize, least: i64, most: i64) -> Result<(), CheckFault> {
    let all = [
        Act::Begun(Job::Check(Cell::Out(0, Reg::Operation))),
        Act::Sent(&OPERATION.0, Told::Got(&OPERATION.1)),
        Act::Begun(Job::Check(Cell::Out(0, Reg::VoutCommand))),
        Act::Sent(&COMMAND.0, Told::Got(&COMMAND.1)),
        Act::Begun(Job::Check(Cell::Out(0, Reg::VoutMax))),
        Act::Sent(&MAX.0, Told::Got(&MAX.1)),
        Act::Begun(Job::Check(Cell::Out(0, Reg::VoutMin))),
        Act::Sent(&MIN.0, Told::Got(&MIN.1)),
        Act::Begun(Job::Learn(0)),
        Act::Sent(&MODE.0, Told::Got(&MODE.1)),
        Act::Restarted,
    ];
    let claim = Claim::Commands {
        output: 0,
        part: PartRegisters::all(),
        least,
        most,
    };
    check(0x58, 2, 2, &all[..acts.min(11)], &[claim])
}

// 34CDh is 13517/4096 V, between 3300048 and 3300049 microvolts.
#[test]
fn a_voltage_is_claimed_where_the_whole_band_lies_between(rt: HostRuntime) {
    let open = Err(CheckFault::Claim { at: 0 });
    equal(&rt, &claimed(10, 3_300_048, 3_300_049), &Ok(()), &1);
    equal(&rt, &claimed(10, 3_300_049, 3_400_000), &open, &2);
    equal(&rt, &claimed(10, 3_000_000, 3_300_048), &open, &3);
    // The ends are given the wrong way round.
    equal(&rt, &claimed(10, 3_300_049, 3_300_048), &open, &4);
    // Without the format there is no band, and after a restart of the host nothing is known.
    equal(&rt, &claimed(8, 0, 4_000_000), &open, &5);
    equal(&rt, &claimed(11, 0, 4_000_000), &open, &6);
}

// How a log of these acts, with no claim, is judged.
fn judged(acts: &[Act<'_>]) -> Result<(), CheckFault> {
    check(0x58, 2, 2, acts, &[])
}

#[test]
fn an_order_in_microvolts_wants_the_format(rt: HostRuntime) {
    let order = Act::Begun(Job::OrderMicro(Cell::Out(0, Reg::VoutCommand), 3_300_000));
    let fault = CheckFault::Act {
        at: 0,
        fault: ActFault::Refused(HostFault::FormatUnknown),
    };
    equal(&rt, &judged(&[order]), &Err(fault), &1);
    #[rattlefmt::skip]
    let learned = [Act::Begun(Job::Learn(0)), Act::Sent(&MODE.0, Told::Got(&MODE.1)), order];
    equal(&rt, &judged(&learned), &Ok(()), &2);
}
