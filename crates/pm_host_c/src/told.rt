//! What became of the frame that a host is sending.

ghost use Rattle.std.specs.Prelude.{◌≡◌, not, ◌==◌};
ghost use Rattle.pm_host.specs.Transcript.{Finished, Got};
ghost use Rattle.pm_memory.specs.Host.{TellsHost, IsHostSending, memory_number};
ghost use Rattle.pm_host.specs.Image.{host_of};

use pm_host::Told;
use pm_memory::host_step::HostStep;
use pm_memory::told::{put_frame, tell};
use pm_memory::{GuardImage, SendingImage};

/// The frame that is to be sent now. E0h if the memory holds no host; then, and if no job is
/// open, it is nothing.
#[unsafe(no_mangle)]
pub extern "C" fn pm_host_frame(host: &GuardImage, sending: &mut SendingImage) -> u8
    ensures number { result ≡ memory_number (host_of host.now.host) }
    ensures frame { IsHostSending (host_of host.now.host) sending.new }
{
    put_frame(host, sending)
}

/// A write was sent, and acknowledged or not (0). E0h, E2h if no write is being sent.
#[unsafe(no_mangle)]
pub extern "C" fn pm_host_write_ended(host: &mut GuardImage, acked: u8) -> HostStep
    ensures { TellsHost host.old (Finished (not (acked == 0))) result host.new }
{
    tell(host, Told::Finished { acked: acked != 0 })
}

/// A request was sent, and these bytes came back, the read address first; none if there was no
/// answer. E0h, E2h if no request is being sent.
#[unsafe(no_mangle)]
pub extern "C" fn pm_host_read_ended(host: &mut GuardImage, bytes: &[u8]) -> HostStep
    ensures { TellsHost host.old (Got bytes.now) result host.new }
{
    tell(host, Told::Got(bytes))
}
