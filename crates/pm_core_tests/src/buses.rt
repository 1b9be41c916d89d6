//! What a simulated bus makes of each fault of its plan, what a patient bus sends again, and what a dead one acknowledges,
//! by rows.

use crate::checks::equal;
use crate::{BASE, FIRST};
use pm_device::Converter;
use pm_driver::{Bus, DeadBus, Fault, Patient, SimulatedBus, carry_out, driver_over};
use pm_host::{Command, Host, Job, JobEnd};
use pm_limits::Guard;
use pm_world::{Arrival, Back};
use std::array;

// What goes wrong with a frame.
#[derive(Clone, Copy, Debug, Drop, PartialEq)]
enum Wrong {
    // nothing
    Whole,
    // the converter restarts before it
    Restarted,
    // it is unheard, and the converter restarts before it or doesn't
    Unheard,
    RestartedUnheard,
    // a write is lost, and falsely acknowledged or not acknowledged
    Lost,
    Failed,
    // a write is heard, and not acknowledged
    Unacked,
    // a write is heard only by its repeat
    Repeated,
    // a write, a request and an answer are cut
    WriteCut,
    RequestCut,
    AnswerCut,
}

use Wrong::{
    AnswerCut, Failed, Lost, Repeated, RequestCut, Restarted, RestartedUnheard, Unacked, Unheard,
    Whole, WriteCut,
};

// The fault of a plan.
fn fault(wrong: Wrong) -> Fault {
    Fault {
        restarts: matches!(wrong, Restarted | RestartedUnheard),
        unheard: matches!(wrong, Unheard | RestartedUnheard),
        heard: match wrong {
            Lost | Failed | Repeated => None,
            WriteCut => Some(Arrival::Cut(5)),
            _ => Some(Arrival::Whole),
        },
        repeated: match wrong {
            Repeated => Some(Arrival::Whole),
            _ => None,
        },
        acked: !matches!(wrong, Failed | Unacked),
        request: match wrong {
            RequestCut => Arrival::Cut(3),
            _ => Arrival::Whole,
        },
        back: match wrong {
            AnswerCut => Back::Cut(0),
            _ => Back::Whole,
        },
    }
}

// The faults of these and no more: five at most.
fn faults(plan: &[Wrong]) -> [Fault; 5] {
    array::from_fn(|number| fault(plan.get(number).copied().unwrap_or(Whole)))
}

// An order of 34CDh to a cell that holds 1000h, by a plan, the tries of each frame and the passes: how it ends, the word
// that the converter holds then, and how many faults had their turn.
struct Ordered {
    plan: &'static [Wrong],
    tries: u16,
    passes: u8,
    end: JobEnd,
    held: u16,
    next: usize,
}

// Orders over a simulated bus itself, and over a patient one with one try over it.
#[rattlefmt::skip]
static ONCE: [Ordered; 11] = [
    Ordered { plan: &[], tries: 1, passes: 1, end: JobEnd::Done, held: 0x34CD, next: 0 },
    // A restart before the read-back.
    Ordered { plan: &[Whole, Restarted], tries: 1, passes: 1, end: JobEnd::Differs(0x1000),
        held: 0x1000, next: 2 },
    Ordered { plan: &[Whole, Restarted], tries: 1, passes: 2, end: JobEnd::Done, held: 0x34CD,
        next: 2 },
    Ordered { plan: &[Whole, RequestCut], tries: 1, passes: 1, end: JobEnd::Unknown, held: 0x34CD,
        next: 2 },
    Ordered { plan: &[Whole, AnswerCut], tries: 1, passes: 1, end: JobEnd::Unknown, held: 0x34CD,
        next: 2 },
    Ordered { plan: &[Repeated], tries: 1, passes: 1, end: JobEnd::Done, held: 0x34CD, next: 1 },
    Ordered { plan: &[Lost], tries: 1, passes: 1, end: JobEnd::Differs(0x1000), held: 0x1000,
        next: 1 },
    Ordered { plan: &[WriteCut], tries: 1, passes: 1, end: JobEnd::Differs(0x1000), held: 0x1000,
        next: 1 },
    Ordered { plan: &[Unheard], tries: 1, passes: 1, end: JobEnd::Differs(0x1000), held: 0x1000,
        next: 1 },
    Ordered { plan: &[Whole, Unheard], tries: 1, passes: 1, end: JobEnd::Unknown, held: 0x34CD,
        next: 2 },
    // It restarts with a frame that it doesn't hear, too.
    Ordered { plan: &[Whole, RestartedUnheard, Lost, Whole], tries: 1, passes: 2,
        end: JobEnd::Differs(0x1000), held: 0x1000, next: 4 },
];

// Orders over nothing but a patient bus.
#[rattlefmt::skip]
static PATIENT: [Ordered; 6] = [
    Ordered { plan: &[Unheard, Unheard, Whole, Unheard, Unheard], tries: 3, passes: 1,
        end: JobEnd::Done, held: 0x34CD, next: 5 },
    // Both tries of the write are spent, and the read comes through.
    Ordered { plan: &[Unheard, Unheard, Whole], tries: 2, passes: 1, end: JobEnd::Differs(0x1000),
        held: 0x1000, next: 3 },
    // A read that may have been heard isn't sent again, and neither is such a write.
    Ordered { plan: &[Whole, AnswerCut, Whole], tries: 3, passes: 1, end: JobEnd::Unknown,
        held: 0x34CD, next: 2 },
    Ordered { plan: &[Failed, Whole], tries: 3, passes: 1, end: JobEnd::Differs(0x1000),
        held: 0x1000, next: 2 },
    // The converter restarts between two tries of the read.
    Ordered { plan: &[Whole, RestartedUnheard, Whole], tries: 2, passes: 1,
        end: JobEnd::Differs(0x1000), held: 0x1000, next: 3 },
    // With no try nothing is sent.
    Ordered { plan: &[Whole], tries: 0, passes: 1, end: JobEnd::Unknown, held: 0x1000, next: 0 },
];

// A clear of the second output's faults, with two passes, by a plan.
static CLEARED: [(&'static [Wrong], JobEnd); 5] = [
    (&[Unacked, Unacked], JobEnd::Unknown),
    (&[Unacked], JobEnd::Done),
    (&[Lost], JobEnd::Done),
    (&[Failed, Failed], JobEnd::Unknown),
    (&[Unheard, Unheard], JobEnd::Unknown),
];

// How a job ends over a bus, with this many passes; none if it is refused.
fn carried_out<B: Bus>(bus: &mut B, passes: u8, job: Job) -> Option<JobEnd> {
    let mut guard = match Host::new(BASE.addr, BASE.count, passes) {
        Ok(host) => Guard::over(host),
        Err(_) => return None,
    };
    if guard.begin(job).is_err() {
        return None;
    }
    carry_out(&mut guard, bus)
}

// A simulated bus with a new converter.
fn simulated<'a>(plan: &'a [Fault]) -> Option<SimulatedBus<'a>> {
    match Converter::new(BASE) {
        Ok(device) => Some(SimulatedBus {
            device,
            plan,
            next: 0,
        }),
        Err(_) => None,
    }
}

// What the converter holds, and how many faults had their turn.
fn left(bus: &SimulatedBus) -> (u16, usize) {
    if bus.device.count() == 0 {
        return (0, bus.next);
    }
    (bus.device.word(FIRST), bus.next)
}

// An order over a simulated bus.
fn carry_order(row: &Ordered) -> Option<(Option<JobEnd>, (u16, usize))> {
    let plan = faults(row.plan);
    let mut bus = simulated(&plan[..row.plan.len().min(5)])?;
    let end = carried_out(&mut bus, row.passes, Job::Order(FIRST, 0x34CD));
    Some((end, left(&bus)))
}

// An order over a patient bus.
fn carry_order_patiently(row: &Ordered) -> Option<(Option<JobEnd>, (u16, usize))> {
    let plan = faults(row.plan);
    let mut bus = Patient {
        adapter: simulated(&plan[..row.plan.len().min(5)])?,
        tries: row.tries,
    };
    let end = carried_out(&mut bus, row.passes, Job::Order(FIRST, 0x34CD));
    Some((end, left(&bus.adapter)))
}

#[test]
fn each_fault_of_a_plan_is_done(rt: HostRuntime) {
    for (number, row) in ONCE.iter().enumerate() {
        let wanted = Some((Some(row.end), (row.held, row.next)));
        equal(&rt, &carry_order(row), &wanted, &number);
        equal(&rt, &carry_order_patiently(row), &wanted, &number);
    }
    // What was unheard is sent again.
    for (number, row) in PATIENT.iter().enumerate() {
        let wanted = Some((Some(row.end), (row.held, row.next)));
        equal(&rt, &carry_order_patiently(row), &wanted, &number);
    }
}

#[test]
fn a_clear_is_done_where_it_was_acknowledged(rt: HostRuntime) {
    for (number, row) in CLEARED.iter().enumerate() {
        let plan = faults(row.0);
        match driver_over(BASE, 2, &plan[..row.0.len().min(5)]) {
            Some(mut driver) => equal(&rt, &driver.clear(1), &Ok(row.1), &number),
            None => panic!(rt; "refused"),
        }
    }
    match Converter::new(BASE) {
        Ok(device) => {
            let mut bus = DeadBus { device };
            let job = Job::Send(Command::ClearFaults { output: 1 });
            let end = carried_out(&mut bus, 2, job);
            equal(&rt, &end, &Some(JobEnd::Unknown), &"a dead bus");
        }
        Err(fault) => panic!(rt; "{fault}"),
    }
}
