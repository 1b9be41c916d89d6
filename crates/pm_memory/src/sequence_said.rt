//! What a sequence says, as plain numbers.

ghost use Rattle.std.specs.Prelude.{◌≡◌};
ghost use Rattle.pm_memory.specs.SequenceSaid.{end_said, number_said as spec_number_said, numbers_said as spec_numbers_said, order_said as spec_order_said, pause_of as spec_pause_of, rail_of as spec_rail_of, rail_said as spec_rail_said, said_with as spec_said_with, step_said as spec_step_said, newest_begun_step as spec_step_under, wait_said as spec_wait_said, way_back_said as spec_way_back_said, IsReading, IsSaidLast};

use crate::numbers::{ACCEPTED, AGAIN, ASKED, ENDED, NO_WAY_BACK, TOLD, WAIT};
use crate::reading::{said_by, told, word_of};
use crate::{GuardImage, SaidImage, SequenceEndImage, job_numbers};
use pm_delivery::{Delivery, Verdict};
use pm_host::Job;
use pm_rail::PlanFault;
use pm_sequence::{Act, End, Sequence};

// The kinds of what is said that isn't an end.
const WAY_BACK_REFUSED: u8 = 9;

const DOES: u8 = 13;

const ORDERS: u8 = 16;

/// What is answered if no job begins.
pub(crate) fn number_said(act: Act) -> u8
    ensures { result ≡ spec_number_said act }
{
    match act {
        Act::Job(_) | Act::Begins(..) | Act::Ask(_) | Act::Probe => ACCEPTED,
        Act::Passes(_) | Act::Again => AGAIN,
        Act::Pause | Act::Wait(_) => WAIT,
        Act::Order(_) => ASKED,
        Act::NoWayBack(_) => NO_WAY_BACK,
        Act::Does(_) | Act::Leaves(_) => TOLD,
        Act::Ended(_) => ENDED,
    }
}

// The place of the newest step that has begun.
fn step_under(is: &Sequence) -> u16
    ensures { result ≡ spec_step_under is.now }
{
    if 0 < is.list.begun {
        is.list.begun - 1
    } else {
        0
    }
}

/// The place of the step that something is said of; of an end that is none's, how many steps there are.
pub(crate) fn step_said(is: &Sequence, act: Act) -> u16
    ensures { result ≡ spec_step_said is.now act }
{
    match act {
        Act::Pause | Act::Does(_) | Act::Leaves(_) => step_under(is),
        Act::Ended(end) => match end {
            End::Reached | End::Left(_) => is.list.begun,
            _ => is.list.step(),
        },
        Act::Order(_) => is.list.step(),
        _ => is.list.begun,
    }
}

/// What a rail does of which something is said.
pub(crate) fn rail_said(act: Act) -> Option<Verdict>
    ensures { result ≡ spec_rail_said act }
{
    match act {
        Act::Does(verdict) => Some(verdict),
        Act::Leaves(end) | Act::Ended(end) => rail_of(end),
        _ => None,
    }
}

fn rail_of(end: End) -> Option<Verdict>
    ensures { result ≡ spec_rail_of end }
{
    match end {
        End::Does(verdict) => Some(verdict),
        _ => None,
    }
}

// The numbers of an end of a step.
fn end_numbers(end: End, kind: u8, step: u16) -> SaidImage
    ensures { result ≡ end_said end kind step }
{
    let numbers = SequenceEndImage::of(Some(end));
    SaidImage {
        kind: if kind == 0 { numbers.kind } else { kind },
        number: numbers.number,
        code: numbers.code,
        verdict: numbers.verdict,
        bit: numbers.bit,
        word: numbers.word,
        fault: numbers.fault,
        step,
        ..SaidImage::NOTHING
    }
}

// How long is waited before all is asked once more: twice as long each time, 5,120 milliseconds at most.
fn pause_of(round: u16) -> u32
    ensures { result ≡ spec_pause_of round }
{
    match round {
        0 | 1 => 10,
        2 => 20,
        3 => 40,
        4 => 80,
        5 => 160,
        6 => 320,
        7 => 640,
        8 => 1280,
        9 => 2560,
        _ => 5120,
    }
}

// A wait before a step.
fn wait_said(milliseconds: u32, step: u16) -> SaidImage
    ensures { result ≡ spec_wait_said milliseconds step }
{
    SaidImage {
        milliseconds,
        step,
        ..SaidImage::NOTHING
    }
}

// An order that comes next.
fn order_said(job: Job, step: u16) -> SaidImage
    ensures { result ≡ spec_order_said job step }
{
    let (_, code, word) = job_numbers(Some(job));
    SaidImage {
        kind: ORDERS,
        code,
        word,
        step,
        ..SaidImage::NOTHING
    }
}

// The way back of a step would be refused so.
fn way_back_said(fault: PlanFault, step: u16) -> SaidImage
    ensures { result ≡ spec_way_back_said fault step }
{
    SaidImage {
        kind: WAY_BACK_REFUSED,
        number: fault.number(),
        code: match fault.code() {
            Some(code) => code.0,
            None => 0,
        },
        step,
        ..SaidImage::NOTHING
    }
}

// What is said, without what a register held and without a reading; what was said earlier if nothing is.
fn numbers_said(is: &Sequence, act: Act, was: SaidImage) -> SaidImage
    ensures { result ≡ spec_numbers_said is.now act was }
{
    let step = step_said(is, act);
    match act {
        Act::Pause => wait_said(pause_of(is.look.delivery.round), step),
        Act::Wait(milliseconds) => wait_said(milliseconds, step),
        Act::Order(job) => order_said(job, step),
        Act::NoWayBack(fault) => way_back_said(fault, step),
        Act::Does(verdict) => end_numbers(End::Does(verdict), DOES, step),
        Act::Leaves(end) | Act::Ended(end) => end_numbers(end, 0, step),
        _ => was,
    }
}

// READ_VOUT of a look in microvolts, if it gave a good answer, of an output that there can be.
fn reading(delivery: &Delivery, host: &GuardImage) -> Option<i64>
    ensures { IsReading host.now delivery.now result }
{
    if delivery.output < 8 {
        told(delivery, host)
    } else {
        None
    }
}

// With what a register held, and with a reading.
fn said_with(numbers: SaidImage, word: u16, reading: Option<i64>) -> SaidImage
    ensures { result ≡ spec_said_with numbers word reading }
{
    let mut said = numbers;
    said.word = word;
    match reading {
        Some(microvolts) => {
            said.has_microvolts = 1;
            said.microvolts = microvolts;
        }
        None => {}
    }
    said
}

/// What was said last, once a sequence has said this.
pub(crate) fn said_after(host: &GuardImage, is: &Sequence, act: Act, was: SaidImage) -> SaidImage
    ensures { IsSaidLast host.now is.now act was result }
{
    let numbers = numbers_said(is, act, was);
    match rail_said(act) {
        Some(verdict) => said_with(
            numbers,
            word_of(&is.look.delivery, said_by(verdict)),
            reading(&is.look.delivery, host),
        ),
        None => numbers,
    }
}
