//! Jobs over buses with faults: how they end, what the host says, and what the converter holds.

mod beginnings;
mod example;
mod rails;
mod tries;

use crate::{BASE, FIRST};
use pm_device::{Config, Converter};
use pm_driver::{Bus, DeadBus, Driver, Fault, Retrying, SimulatedBus, carry_out, driver_over};
use pm_host::{Host, HostFault, JobEnd, Standing};
use pm_limits::{Guard, LimitFault, OutputLimits};
use pm_table::{Cell, Reg};
use pm_world::{Arrival, Back};
use std::process::Abort;

// OPERATION of the first output.
static SWITCH: Cell = Cell::Out(0, Reg::Operation);

// No fault.
fn whole() -> Fault {
    Fault {
        restarts: false,
        unheard: false,
        heard: Some(Arrival::Whole),
        repeated: None,
        acked: true,
        request: Arrival::Whole,
        back: Back::Whole,
    }
}

// A write that is lost, and falsely acknowledged.
fn lost() -> Fault {
    with! { Fault, whole(); heard: None }
}

// A write that is heard twice, and not acknowledged.
fn repeated() -> Fault {
    with! { Fault, whole(); repeated: Some(Arrival::Whole), acked: false }
}

// A request whose answer is cut.
fn cut() -> Fault {
    with! { Fault, whole(); back: Back::Cut(3) }
}

// What the host says of VOUT_COMMAND of the first output.
fn said(host: &Host) -> Standing {
    if host.outputs() == 0 {
        return Standing::Unknown;
    }
    host.standing(FIRST)
}

// The word of it that the converter holds.
fn held(device: &Converter) -> u16 {
    if device.count() == 0 {
        return 0;
    }
    device.word(FIRST)
}

// A driver over a new converter, by a plan of faults.
fn begun<'a>(
    rt: &impl Abort,
    config: Config,
    passes: u8,
    plan: &'a [Fault],
) -> Driver<SimulatedBus<'a>> {
    match driver_over(config, passes, plan) {
        Some(driver) => driver,
        None => panic!(rt; "refused"),
    }
}

// How an order of 34CDh ends, with two passes, what the host says of the cell, and the word that the converter holds.
fn ordered(plan: &[Fault]) -> Option<(Result<JobEnd, LimitFault>, Standing, u16)> {
    let mut driver = driver_over(BASE, 2, plan)?;
    let end = driver.order(FIRST, 0x34CD);
    Some((end, said(driver.host()), held(&driver.bus().device)))
}

// How an order of 34CDh ends over a bus, with this many passes; none if it is refused.
fn carried_out<B: Bus>(bus: &mut B, passes: u8) -> Option<(Option<JobEnd>, Standing)> {
    let mut guard = match Host::new(BASE.addr, BASE.count, passes) {
        Ok(host) => Guard::over(host),
        Err(_) => return None,
    };
    if guard.order(FIRST, 0x34CD).is_err() {
        return None;
    }
    let end = carry_out(&mut guard, bus);
    Some((end, said(guard.host())))
}

#[test]
fn an_order_ends_with_what_the_converter_holds(rt: HostRuntime) {
    let done = Some((Ok(JobEnd::Done), Standing::Confirmed(0x34CD), 0x34CD));
    compare! { &rt;
        1, ordered(&[]) => done;
        2, ordered(&[lost()]) => done;
        3, ordered(&[repeated(), cut()]) => done;
        4, ordered(&[lost(), whole(), lost()]) =>
            Some((Ok(JobEnd::Differs(0x1000)), Standing::Confirmed(0x1000), 0x1000));
        5, ordered(&[whole(), cut(), whole(), cut()]) =>
            Some((Ok(JobEnd::Unknown), Standing::Unknown, 0x34CD));
    }
}

#[test]
fn each_job_has_its_end(rt: HostRuntime) {
    let mut driver = begun(&rt, BASE, 2, &[]);
    compare! { &rt;
        1, driver.check(FIRST) => Ok(JobEnd::Done);
        1, said(driver.host()) => Standing::Confirmed(0x1000);
        2, driver.order_micro(FIRST, 3_300_000) =>
            Err(LimitFault::Host(HostFault::FormatUnknown));
        3, driver.learn(0) => Ok(JobEnd::Learned);
        4, driver.order_micro(FIRST, 3_300_000) => Ok(JobEnd::Done);
        4, held(&driver.bus().device) => 0x34CD;
        5, driver.store() => Ok(JobEnd::Done);
        6, driver.restore() => Ok(JobEnd::Done);
        6, said(driver.host()) => Standing::Unknown;
        7, driver.clear(2) => Err(LimitFault::Host(HostFault::UnknownOutput));
        8, driver.clear(1) => Ok(JobEnd::Done);
    }
    driver.restart();
    compare! { &rt, 9;
        driver.order_micro(FIRST, 3_300_000) =>
            Err(LimitFault::Host(HostFault::FormatUnknown));
    }
}

// Limits refuse before a frame is sent, and narrower ones more; turning off is let through.
#[test]
fn limits_refuse_before_a_frame_is_sent(rt: HostRuntime) {
    let plan = [whole(), whole(), whole(), whole(), whole()];
    let mut driver = begun(&rt, BASE, 2, &plan);
    compare! { &rt;
        1, driver.narrow(0, 900_000, 3_465_000) => Ok(());
        2, driver.order(FIRST, 0x34CD) => Err(LimitFault::FormatUnknown);
        3, driver.learn(0) => Ok(JobEnd::Learned);
        4, driver.order_micro(FIRST, 12_000_000) => Err(LimitFault::AboveLimit);
        5, driver.order(FIRST, 0x0800) => Err(LimitFault::BelowLimit);
        6, driver.order(SWITCH, 0x80) => Err(LimitFault::NotKnownWithin);
        7, driver.bus().next => 1;
        8, driver.order(FIRST, 0x34CD) => Ok(JobEnd::Done);
        8, held(&driver.bus().device) => 0x34CD;
        9, driver.narrow(0, 900_000, 3_500_000) => Err(LimitFault::LimitsWidened);
        10, driver.narrow(0, 900_000, 3_000_000) => Ok(());
        11, driver.order(FIRST, 0x34CD) => Err(LimitFault::AboveLimit);
        12, driver.order(SWITCH, 0x00) => Ok(JobEnd::Done);
        13, driver.guard().limits(1).is_limited() => false;
    }
}

#[test]
fn buses_of_other_kinds_carry_a_job_out(rt: HostRuntime) {
    let (Ok(device), Ok(other)) = (Converter::new(BASE), Converter::new(BASE)) else {
        panic!(rt; "refused");
    };
    let mut dead = DeadBus { device };
    // The first write is lost, and not acknowledged; one pass is enough.
    let plan = [with! { Fault, lost(); acked: false }];
    let mut retrying = Retrying {
        bus: SimulatedBus {
            device: other,
            plan: &plan,
            next: 0,
        },
    };
    compare! { &rt;
        1, carried_out(&mut dead, 2) => Some((Some(JobEnd::Unknown), Standing::Unknown));
        1, held(&dead.device) => 0x1000;
        2, carried_out(&mut retrying, 1) => Some((Some(JobEnd::Done), Standing::Confirmed(0x34CD)));
        2, held(&retrying.bus.device) => 0x34CD;
    }
}

#[test]
fn an_idle_host_sends_nothing(rt: HostRuntime) {
    let guard = Guard::new(BASE.addr, BASE.count, 2, [OutputLimits::Unknown; 8]);
    let (Ok(device), Ok(mut guard)) = (Converter::new(BASE), guard) else {
        panic!(rt; "refused");
    };
    let plan = [whole()];
    let mut bus = SimulatedBus {
        device,
        plan: &plan,
        next: 0,
    };
    compare! { &rt; 1, carry_out(&mut guard, &mut bus) => None; 2, bus.next => 0 }
}
