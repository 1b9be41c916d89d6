//! A new host beside a part as a tool and an earlier host left it: PAGE is any, and the words that are held aren't those of the
//! store.

use super::whole;
use crate::checks::equal;
use crate::{BASE, FIRST, SECOND};
use pm_device::{Config, Converter, Ending, Heard};
use pm_driver::{Fault, SimulatedBus, carry_out};
use pm_host::{Host, JobEnd, Standing};
use pm_limits::Guard;
use pm_table::{Cell, Reg};
use pm_world::Arrival;

// Writes of PAGE by a tool, with their PEC by hand, whether the converter takes them, and what PAGE holds then. FFh isn't one of
// its pages: the refusal leaves PAGE, and latches a bit of STATUS_CML.
static PAGES: [([u8; 4], bool, u8); 2] = [
    ([0xB0, 0x00, 0x03, 0xE3], true, 0x03),
    ([0xB0, 0x00, 0xFF, 0x19], false, 0x00),
];

// A request that is cut after its first byte, and whose answer is lost with it.
fn cut() -> Fault {
    with! { Fault, whole(); request: Arrival::Cut(1) }
}

// How an order of VOUT_COMMAND, or a check if no word is given, ends for a new host of so many passes, and what that host says of
// the cell.
fn ended(
    bus: &mut SimulatedBus<'_>,
    passes: u8,
    output: u8,
    word: Option<u16>,
) -> Option<(Option<JobEnd>, Standing)> {
    let mut guard = match Host::new(BASE.addr, 4, passes) {
        Ok(host) => Guard::over(host),
        Err(_) => return None,
    };
    let cell = Cell::Out(output, Reg::VoutCommand);
    let begun = match word {
        Some(word) => guard.order(cell, word),
        None => guard.check(cell),
    };
    if begun.is_err() {
        return None;
    }
    let end = carry_out(&mut guard, bus);
    if output >= guard.host().outputs() {
        return None;
    }
    Some((end, guard.host().standing(cell)))
}

// VOUT_COMMAND of the first two outputs, what their store has, and PAGE.
fn words(device: &Converter) -> ([u16; 2], [u16; 2], u8) {
    if device.count() < 2 {
        return ([0, 0], [0, 0], device.page());
    }
    (
        [device.word(FIRST), device.word(SECOND)],
        [device.stored(FIRST), device.stored(SECOND)],
        device.page(),
    )
}

#[test]
fn a_host_begins_at_any_page_beside_words_that_are_not_stored(rt: HostRuntime) {
    let config = Config { count: 4, ..BASE };
    for &(write, taken, page) in &PAGES {
        let Ok(mut device) = Converter::new(config) else {
            panic!(rt; "refused");
        };
        let heard = device.hear(&write, Ending::Stop);
        equal(&rt, &(heard == Heard::Taken), &taken, &1);
        equal(&rt, &(device.status_cml() != 0), &!taken, &1);
        let plan = [whole(), whole(), cut(), cut()];
        let mut bus = SimulatedBus {
            device,
            plan: &plan,
            next: 0,
        };
        // An earlier host of three passes orders 34CDh of output 0, and stores nothing.
        let done = Some((Some(JobEnd::Done), Standing::Confirmed(0x34CD)));
        compare! { &rt;
            2, ended(&mut bus, 3, 0, Some(0x34CD)) => done;
            3, words(&bus.device) => ([0x34CD, 0x1000], [0x1000, 0x1000], page);
            // A new host of five passes, two of whose requests are cut, reads what is held and not what is stored.
            4, ended(&mut bus, 5, 0, None) => done;
        }
        // Its order of output 1 reaches only that output.
        let other = Some((Some(JobEnd::Done), Standing::Confirmed(0x2000)));
        compare! { &rt;
            5, ended(&mut bus, 5, 1, Some(0x2000)) => other;
            6, words(&bus.device) => ([0x34CD, 0x2000], [0x1000, 0x1000], page);
        }
        // A restart of the part brings the stored words out, and PAGE 0.
        bus.device.restart();
        let start = Some((Some(JobEnd::Done), Standing::Confirmed(0x1000)));
        compare! { &rt;
            7, ended(&mut bus, 5, 0, None) => start;
            8, words(&bus.device) => ([0x1000, 0x1000], [0x1000, 0x1000], 0);
        }
    }
}
