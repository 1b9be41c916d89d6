//! What a rail is to command, by rows written by hand; and a host that knows words, which plans and surveys begin with.

use super::guards::{DIRECT, FALLING, LINEAR, first, give_up, guard, learn, read, tell};
use crate::checks::{equal, is_true};
use pm_frame::Message;
use pm_host::{HostFault, Job};
use pm_limits::{Guard, OutputLimits, Within};
use pm_rail::{
    PlanFault, PlanOrder, Power, Rail, Selected, Survey, Wanted, begin_next, next_order, rail_of,
};
use pm_table::{Cell, Reg};
use std::process::Abort;

// What the first output's cells are read as, in the order of `Reg`; none if a cell isn't read.
pub(super) type Held = [Option<u16>; 6];

// The words that are wanted: VOUT_COMMAND, VOUT_MAX, the margins, high first, and VOUT_MIN.
pub(super) type Wishes = [Option<u16>; 5];

pub(super) fn wanted(wishes: &Wishes) -> Wanted {
    Wanted {
        command: wishes[0],
        max: wishes[1],
        margin_high: wishes[2],
        margin_low: wishes[3],
        min: wishes[4],
    }
}

// Reads WRITE_PROTECT as this byte.
pub(super) fn read_protect(guard: &mut Guard, byte: u8) {
    let _ = guard.check(Cell::Protect);
    tell(guard, &Message::ReadCommand { code: 0x10 }, &[byte]);
}

// A guard whose limits are these microvolts and 4 V, and that knows these words of its first output.
pub(super) fn knowing(least: i64, falling: bool, held: &Held, protect: Option<u8>) -> Guard {
    let mut guard = guard(least, 4_000_000);
    if falling {
        learn(&mut guard, 0, DIRECT, FALLING);
    } else {
        learn(&mut guard, 0, LINEAR, &[]);
    }
    for (number, word) in held.iter().enumerate() {
        if let Some(word) = word {
            read(&mut guard, Reg::ALL[number % 6], *word);
        }
    }
    if let Some(byte) = protect {
        read_protect(&mut guard, byte);
    }
    guard
}

// Words of registers that are all known.
pub(super) fn each(words: &[u16; 6]) -> Held {
    [
        Some(words[0]),
        Some(words[1]),
        Some(words[2]),
        Some(words[3]),
        Some(words[4]),
        Some(words[5]),
    ]
}

// The next order of an output that there is, and its beginning.
pub(crate) fn next_of(
    rt: &impl Abort,
    guard: &Guard,
    output: u8,
    wanted: &Wanted,
) -> Result<Option<PlanOrder>, PlanFault> {
    is_true(rt, output < guard.host().outputs(), &output);
    next_order(guard, output, wanted)
}

pub(super) fn begun(
    rt: &impl Abort,
    guard: &mut Guard,
    output: u8,
    wanted: &Wanted,
) -> Result<Option<PlanOrder>, PlanFault> {
    is_true(rt, output < guard.host().outputs(), &output);
    begin_next(guard, output, wanted)
}

// What an output that there is commands.
fn rail_at(rt: &impl Abort, guard: &Guard, output: u8) -> Rail {
    is_true(rt, output < guard.host().outputs(), &output);
    rail_of(guard, output)
}

// The next job of a survey of an output that there is.
pub(crate) fn asks(rt: &impl Abort, survey: &mut Survey, guard: &Guard) -> Option<Job> {
    is_true(rt, survey.output < guard.host().outputs(), &survey.output);
    survey.next(guard)
}

// The byte that is read of OPERATION, what it says, which register has the voltage, and whether 1 V is within limits of 0.9 V
// to 1.1 V if VOUT_MARGIN_HIGH is 1.2 V and VOUT_MARGIN_LOW 0.5 V.
static POWERS: [(u16, Power, Selected, Within); 6] = [
    (0x80, Power::On, COMMAND, Within::Yes),
    (0xA8, Power::On, HIGH, Within::No),
    (0x94, Power::On, LOW, Within::No),
    (0x00, Power::Off, COMMAND, Within::Yes),
    (0x40, Power::Off, COMMAND, Within::Yes),
    (0xA0, Power::NotKnown, Selected::NotKnown, Within::NotKnown),
];

const COMMAND: Selected = Selected::Register(Reg::VoutCommand);

const HIGH: Selected = Selected::Register(Reg::MarginHigh);

const LOW: Selected = Selected::Register(Reg::MarginLow);

// The byte that is read of OPERATION, the one that is ordered then, whose answers are all lost, and which register has the
// voltage, whichever of the two is held. A byte that OPERATION doesn't take isn't ordered.
#[rattlefmt::skip]
static SELECTIONS: [(u16, u16, Selected); 12] = [
    (0x00, 0x80, COMMAND), (0x8F, 0x40, COMMAND), (0x80, 0xA8, Selected::NotKnown),
    (0x3F, 0x94, Selected::NotKnown), // 00111111 is off, whatever its other bits are
    (0xA4, 0xAB, HIGH), (0xA8, 0x98, Selected::NotKnown), (0x94, 0x9B, LOW),
    (0xB0, 0xB0, Selected::AvsBus), // bits 5 and 4 are 11
    (0xF8, 0xF8, Selected::AvsBus), (0xB0, 0x80, Selected::NotKnown),
    (0x90, 0x90, Selected::NotKnown), (0xA0, 0x80, Selected::NotKnown),
];

#[test]
fn a_rail_says_which_register_has_its_voltage(rt: HostRuntime) {
    for (held, ordered, selected) in &SELECTIONS {
        let mut guard = knowing(0, false, &each(&[*held, 4096, 8192, 4915, 2048, 0]), None);
        let operation = first(Reg::Operation);
        let begun = guard.order(operation, *ordered).is_ok();
        equal(&rt, &begun, &operation.accepts(*ordered), held);
        give_up(&mut guard);
        compare! { &rt, held;
            rail_at(&rt, &guard, 0).selected => *selected;
            rail_at(&rt, &guard, 1).selected => Selected::NotKnown;
        }
    }
}

#[test]
fn a_rail_is_told_by_what_is_known(rt: HostRuntime) {
    for (byte, power, selected, within) in &POWERS {
        let mut guard = knowing(0, false, &each(&[*byte, 4096, 8192, 4915, 2048, 0]), None);
        equal(&rt, &guard.narrow(0, 900_000, 1_100_000).err(), &None, byte);
        let rail = rail_at(&rt, &guard, 0);
        equal(&rt, &rail.power, power, byte);
        equal(&rt, &rail.selected, selected, byte);
        equal(&rt, &rail.within, within, byte);
        equal(&rt, &rail.band.is_some(), &true, byte);
    }
    let mut guard = knowing(0, false, &each(&[0x80, 4096, 8192, 4915, 2048, 0]), None);
    let _ = guard.order(first(Reg::Operation), 0x00);
    give_up(&mut guard);
    equal(&rt, &rail_at(&rt, &guard, 0).power, &Power::NotKnown, &1);
    equal(&rt, &rail_at(&rt, &guard, 1).power, &Power::NotKnown, &2);
    equal(&rt, &rail_at(&rt, &guard, 1).band.is_none(), &true, &3);
}

// The example of the root, word for word.
fn asked() -> Result<(Option<PlanFault>, Option<Job>), HostFault> {
    let guard = Guard::new(0x58, 1, 2, [OutputLimits::Unknown; 8])?;
    let wanted = Wanted {
        command: Some(0x34CD), // 3.3 V if VOUT_MODE says ULINEAR16 with the exponent -12
        max: Some(0x3770),
        margin_high: None,
        margin_low: None,
        min: None,
    };
    let fault = next_order(&guard, 0, &wanted).err(); // P1 FormatUnknown
    let mut survey = Survey::new(0, Some(wanted), 16);
    Ok((fault, survey.next(&guard))) // Job::Learn(0), and then a check of OPERATION
}

#[test]
fn the_example_of_the_root_runs(rt: HostRuntime) {
    let wanted = (Some(PlanFault::FormatUnknown), Some(Job::Learn(0)));
    equal(&rt, &asked(), &Ok(wanted), &1);
}
