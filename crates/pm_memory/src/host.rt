//! A host's life: it is made, begins jobs, and starts again.

ghost use Rattle.std.specs.Prelude.{◌≡◌, ◌≢◌, Some};
ghost use Rattle.pm_host.specs.Summary.{start};
ghost use Rattle.pm_host.specs.Transcript.{Setup};
ghost use Rattle.pm_memory.specs.Guard.{guard_of, unknown_limits};
ghost use Rattle.pm_memory.specs.Memory.{IsMemory};
ghost use Rattle.pm_memory.specs.Host.{new_number, BeginsJob};

use crate::GuardImage;
use crate::numbers::{ACCEPTED, NO_ADDRESS, NO_CELL, NO_HOST};
use pm_host::Job;
use pm_limits::PartRegisters;
use pm_table::address_ok;

/// Makes a host of a part with these registers.
pub fn start_with(
    host: &mut GuardImage,
    address: u8,
    outputs: u8,
    passes: u8,
    registers: PartRegisters,
) -> u8
    ensures number { result ≡ new_number address outputs passes }
    ensures begun { let setup : Setup = record { addr = address; outputs = outputs; passes = passes } in
        result ≡ 0 → guard_of host.new ≡ Some (record { host = start setup; limits = unknown_limits; registers = registers }) }
    ensures written { result ≡ 0 → IsMemory host.new }
    ensures refused { result ≢ 0 → host.new ≡ host.old }
{
    if !address_ok(address) {
        return NO_ADDRESS;
    }
    match host.host.start(address, outputs, passes) {
        Ok(()) => {
            host.free(registers);
            ACCEPTED
        }
        Err(fault) => fault.number(),
    }
}

/// Begins a job; none is asked for by a code that is no cell's.
#[inline(never)]
pub fn begin(host: &mut GuardImage, job: Option<Job>) -> u8
    ensures { BeginsJob host.old job result host.new }
{
    let Ok(stage) = host.open_stage() else {
        return NO_HOST;
    };
    let Some(job) = job else {
        return NO_CELL;
    };
    match host.begin_job(stage, job) {
        Ok(_) => ACCEPTED,
        Err(fault) => fault.number(),
    }
}
