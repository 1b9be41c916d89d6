//! What a host knows of every cell, in one answer.

ghost use Rattle.std.specs.Prelude.{◌≡◌, ◌≢◌, drop, IsSomeAnd};
ghost use Rattle.pm_host.specs.Image.{host_of};
ghost use Rattle.pm_memory.specs.Host.{memory_number};
ghost use Rattle.pm_memory.specs.Known.{IsKnownOf};

use pm_memory::GuardImage;
use pm_memory::known_cells::{KnownCells, fill};
use pm_memory::numbers::{ACCEPTED, NO_HOST};

/// What is known of every cell. E0h.
#[unsafe(no_mangle)]
pub extern "C" fn pm_host_known_cells(host: &GuardImage, known: &mut KnownCells) -> u8
    ensures number { result ≡ memory_number (host_of host.now.host) }
    ensures said { result ≡ 0 → IsSomeAnd (host_of host.now.host) (λ s. IsKnownOf s known.new) }
    ensures rest { drop known.new.count known.new.cells ≡ drop known.new.count known.old.cells }
    ensures refused { result ≢ 0 → known.new ≡ known.old }
{
    if host.host.read_stage().is_err() {
        return NO_HOST;
    }
    known.count = fill(&host.host.state, &mut known.cells);
    ACCEPTED
}
