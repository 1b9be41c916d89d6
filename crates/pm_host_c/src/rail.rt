//! What an output commands, by what is known.

ghost use Rattle.std.specs.Prelude.{◌≡◌, ◌≢◌, IsSomeAnd};
ghost use Rattle.pm_host.specs.Image.{host_of};
ghost use Rattle.pm_memory.specs.Guard.{guard_of};
ghost use Rattle.pm_memory.specs.Rail.{IsRail};
ghost use Rattle.pm_memory.specs.Voltages.{output_number};

use pm_host::HostFault;
use pm_memory::GuardImage;
use pm_memory::numbers::{ACCEPTED, NO_HOST};
use pm_memory::rail::{RailImage, rail_in};

/// What an output commands, by what is known: whether it is on, its band and whether that lies within its limits, and which
/// register has its voltage. E0h, H4.
#[unsafe(no_mangle)]
pub extern "C" fn pm_host_rail(host: &GuardImage, output: u8, rail: &mut RailImage) -> u8
    ensures number { result ≡ output_number (host_of host.now.host) output }
    ensures said { result ≡ 0 → IsSomeAnd (guard_of host.now) (λ g. IsRail g output rail.new) }
    ensures refused { result ≢ 0 → rail.new ≡ rail.old }
{
    if host.host.read_stage().is_err() {
        return NO_HOST;
    }
    if host.host.state.outputs <= output {
        return HostFault::UnknownOutput.number();
    }
    *rail = rail_in(host, output);
    ACCEPTED
}
