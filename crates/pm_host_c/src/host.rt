//! A host's life: it is made, begins jobs, and starts again.

ghost use Rattle.std.specs.Prelude.{◌≡◌, ◌≢◌, Some, option_map};
ghost use Rattle.pm_table.specs.Cell.{cell_at};
ghost use Rattle.pm_host.specs.Image.{host_of, image_version};
ghost use Rattle.pm_host.specs.Summary.{start};
ghost use Rattle.pm_host.specs.Transcript.{Setup, Restarted};
ghost use Rattle.pm_limits.specs.Part.{all_registers};
ghost use Rattle.pm_memory.specs.Guard.{guard_of, registers_held, unknown_limits};
ghost use Rattle.pm_memory.specs.Memory.{IsMemory};
ghost use Rattle.pm_memory.specs.Sizes.{host_size, library_version};
ghost use Rattle.pm_memory.specs.Host.{new_number, memory_number, host_after_entry, BeginsJob};

use pm_host::{Command, HostImage, Job};
use pm_limits::PartRegisters;
use pm_memory::host::{begin, start_with};
use pm_memory::numbers::{ACCEPTED, NO_HOST};
use pm_memory::{GuardImage, RegistersImage};
use pm_table::{Code, cell_of};
use std::mem::size_of;

// The version of this library.
const VERSION: u16 = 0x0001;

/// How many bytes a host has.
#[unsafe(no_mangle)]
pub extern "C" fn pm_host_size() -> usize
    ensures { result ≡ host_size }
{
    size_of::<GuardImage>()
}

/// The version of this library: the greater part in the upper byte, the lesser in the lower one.
#[unsafe(no_mangle)]
pub extern "C" fn pm_version() -> u16
    ensures { result ≡ library_version }
{
    VERSION
}

/// The number of a host's layout.
#[unsafe(no_mangle)]
pub extern "C" fn pm_host_version() -> u16
    ensures { result ≡ image_version }
{
    HostImage::VERSION
}

/// Makes a host for the device at this address, which has this many outputs, each with every register; a job has at most
/// this many passes or tries. No limits are known of its outputs. E3h, H1, H2.
#[unsafe(no_mangle)]
pub extern "C" fn pm_host_new(host: &mut GuardImage, address: u8, outputs: u8, passes: u8) -> u8
    ensures number { result ≡ new_number address outputs passes }
    ensures begun { let setup : Setup = record { addr = address; outputs = outputs; passes = passes } in
        result ≡ 0 → guard_of host.new ≡ Some (record { host = start setup; limits = unknown_limits; registers = all_registers }) }
    ensures written { result ≡ 0 → IsMemory host.new }
    ensures refused { result ≢ 0 → host.new ≡ host.old }
{
    start_with(host, address, outputs, passes, PartRegisters::all())
}

/// Makes a host as `pm_host_new` does, of a part whose outputs have these registers. E3h, H1, H2.
#[unsafe(no_mangle)]
pub extern "C" fn pm_host_new_with(
    host: &mut GuardImage,
    address: u8,
    outputs: u8,
    passes: u8,
    registers: &RegistersImage,
) -> u8
    ensures number { result ≡ new_number address outputs passes }
    ensures begun { let setup : Setup = record { addr = address; outputs = outputs; passes = passes } in
        result ≡ 0 → guard_of host.new
        ≡ Some (record { host = start setup; limits = unknown_limits; registers = registers_held registers.now }) }
    ensures written { result ≡ 0 → IsMemory host.new }
    ensures refused { result ≢ 0 → host.new ≡ host.old }
{
    start_with(host, address, outputs, passes, registers.registers())
}

/// Begins an order. E0h, E1h, H3, H4, L7, then by the output's limits L8, L2, L3 or L4, then H5, L8, L2 or L5 and H6.
#[unsafe(no_mangle)]
pub extern "C" fn pm_host_order(host: &mut GuardImage, output: u8, code: u8, word: u16) -> u8
    ensures { let job = option_map (λ cell. Job.Order cell word) (cell_at code output) in
        BeginsJob host.old job result host.new }
{
    let cell = cell_of(Code(code), output);
    begin(host, cell.map(|cell| Job::Order(cell, word)))
}

/// Begins an order of the word nearest to a number of microvolts, in the format that was learned for
/// the output. E0h, E1h, H3, H4, L7, H5, H7, N5, N3 or N4, L8, L3 or L4, H6.
#[unsafe(no_mangle)]
pub extern "C" fn pm_host_order_microvolts(
    host: &mut GuardImage,
    output: u8,
    code: u8,
    microvolts: i64,
) -> u8
    ensures { let job = option_map (λ cell. Job.OrderMicro cell microvolts) (cell_at code output) in
        BeginsJob host.old job result host.new }
{
    let cell = cell_of(Code(code), output);
    begin(host, cell.map(|cell| Job::OrderMicro(cell, microvolts)))
}

/// Begins a check of a cell. E0h, E1h, H3, H4, L7.
#[unsafe(no_mangle)]
pub extern "C" fn pm_host_check(host: &mut GuardImage, output: u8, code: u8) -> u8
    ensures { let job = option_map (λ cell. Job.Check cell) (cell_at code output) in
        BeginsJob host.old job result host.new }
{
    let cell = cell_of(Code(code), output);
    begin(host, cell.map(|cell| Job::Check(cell)))
}

/// Begins a learn of the format of an output's voltages. E0h, H3, H4.
#[unsafe(no_mangle)]
pub extern "C" fn pm_host_learn(host: &mut GuardImage, output: u8) -> u8
    ensures { BeginsJob host.old (Some (Job.Learn output)) result host.new }
{
    begin(host, Some(Job::Learn(output)))
}

/// Begins to clear the latched faults of an output. E0h, H3, H4.
#[unsafe(no_mangle)]
pub extern "C" fn pm_host_clear(host: &mut GuardImage, output: u8) -> u8
    ensures { BeginsJob host.old (Some (Job.Send (Command.ClearFaults output))) result host.new }
{
    begin(host, Some(Job::Send(Command::ClearFaults { output })))
}

/// Begins to store the outputs' settings. E0h, H3.
#[unsafe(no_mangle)]
pub extern "C" fn pm_host_store(host: &mut GuardImage) -> u8
    ensures { BeginsJob host.old (Some (Job.Send Command.StoreUserAll)) result host.new }
{
    begin(host, Some(Job::Send(Command::StoreUserAll)))
}

/// Begins to bring the outputs' stored settings back. E0h, H3.
#[unsafe(no_mangle)]
pub extern "C" fn pm_host_restore(host: &mut GuardImage) -> u8
    ensures { BeginsJob host.old (Some (Job.Send Command.RestoreUserAll)) result host.new }
{
    begin(host, Some(Job::Send(Command::RestoreUserAll)))
}

/// Drops the open job and all that is known of cells and formats. The limits and the registers stay. E0h.
#[tactic(auto, unfolding(pm_host::specs::Summary::host_next))]
#[unsafe(no_mangle)]
pub extern "C" fn pm_host_restart(host: &mut GuardImage) -> u8
    ensures number { result ≡ memory_number (host_of host.old.host) }
    ensures begun { host_of host.new.host ≡ host_after_entry (host_of host.old.host) Restarted }
    ensures limits { host.new.limits ≡ host.old.limits }
    ensures registers { host.new.registers ≡ host.old.registers }
    ensures written { IsMemory host.old → IsMemory host.new }
    ensures refused { result ≢ 0 → host.new ≡ host.old }
{
    if host.host.read_stage().is_err() {
        return NO_HOST;
    }
    host.host.state.restart();
    host.host.write_stage(None);
    ACCEPTED
}
