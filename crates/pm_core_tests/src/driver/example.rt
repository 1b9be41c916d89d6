//! The examples of the root of `pm_driver` and of its buses, word for word.

use crate::BASE;
use crate::checks::equal;
use crate::driver::{said, whole};
use pm_course::{CourseEnd, FrameCourse, Wish, Wishes};
use pm_device::Config;
use pm_driver::{Bus, Driver, Fault, driver_over, requests_are_no_writes};
use pm_frame::{code_request, read_plain};
use pm_host::{JobEnd, Standing};
use pm_limits::LimitFault;
use pm_table::{Cell, Code, Reg};
use pm_world::Arrival;

fn ordered<B: Bus>(driver: &mut Driver<B>) -> Result<JobEnd, LimitFault> {
    driver.order(Cell::Out(0, Reg::VoutCommand), 0x34CD) // Done: the converter held 34CDh when it was read
}

fn applied<B: Bus>(driver: &mut Driver<B>) -> Option<CourseEnd> {
    if driver.host().outputs() == 0 {
        return None;
    }
    let wishes = Wishes {
        command: Wish::Microvolts(3_300_000),
        max: Wish::Microvolts(3_465_000),
        ..Wishes::nothing()
    };
    let mut course = FrameCourse::new(0, &wishes, 60);
    Some(driver.run_course(&mut course)) // Reached: unless it restarted, the converter holds the words of both
}

fn status<B: Bus>(driver: &mut Driver<B>) -> Option<u16> {
    let code = Code::STATUS_WORD.0;
    let mut room = [0; 4]; // the read address, two bytes and the PEC
    // law: no beginning of the request is a write
    requests_are_no_writes();
    let count = driver.read(&code_request(0x58, code), &mut room).ok()?; // H3: a job is open
    let payload = read_plain(0x58, code, 2, &room[..count]).ok()?; // F5 if a bit changed
    Some(u16::from_le_bytes([payload[0], payload[1]]))
}

fn tried(config: Config, plan: &[Fault]) -> Option<JobEnd> {
    let mut driver = driver_over(config, 2, plan)?;
    driver.order(Cell::Out(0, Reg::VoutCommand), 0x34CD).ok()
}

#[test]
fn the_examples_of_the_roots_run(rt: HostRuntime) {
    equal(&rt, &tried(BASE, &[]), &Some(JobEnd::Done), &1);
    match driver_over(BASE, 1, &[]) {
        Some(mut driver) => {
            equal(&rt, &applied(&mut driver), &Some(CourseEnd::Reached), &2);
            equal(&rt, &ordered(&mut driver), &Ok(JobEnd::Done), &3);
            equal(&rt, &status(&mut driver), &Some(0), &4);
        }
        None => panic!(rt; "refused"),
    }
}

// Its second frame, a request, is cut after its second byte: CML is bit 1 of STATUS_WORD, and the host says no less.
#[test]
fn a_status_between_two_orders_shows_what_was_latched(rt: HostRuntime) {
    let plan = [
        whole(),
        Fault {
            request: Arrival::Cut(2),
            ..whole()
        },
    ];
    match driver_over(BASE, 2, &plan) {
        Some(mut driver) => {
            equal(&rt, &ordered(&mut driver), &Ok(JobEnd::Done), &1);
            equal(&rt, &said(driver.host()), &Standing::Confirmed(0x34CD), &2);
            equal(&rt, &status(&mut driver), &Some(0x0002), &3);
            equal(&rt, &said(driver.host()), &Standing::Confirmed(0x34CD), &4);
            equal(&rt, &ordered(&mut driver), &Ok(JobEnd::Done), &5);
        }
        None => panic!(rt; "refused"),
    }
}
