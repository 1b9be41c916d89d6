//! What became of the frame that a host is sending.

ghost use Rattle.std.specs.Prelude.{◌≡◌, Some};
ghost use Rattle.pm_host.specs.Told.{entry_told};
ghost use Rattle.pm_memory.specs.Host.{TellsHost, IsHostSending, memory_number};
ghost use Rattle.pm_host.specs.Image.{held, host_of};
ghost use Rattle.pm_host.specs.Sound.{IsSound};

use crate::host_step::{HostStep, no_step, step_after};
use crate::numbers::{ACCEPTED, NO_HOST, OTHER_FRAME};
use crate::{GuardImage, SendingImage};
use pm_host::{Stage, Told};

/// The frame of a host's open job, or nothing where none is open or the memory holds no host: the work of `pm_host_frame`.
pub fn put_frame(host: &GuardImage, sending: &mut SendingImage) -> u8
    ensures number { result ≡ memory_number (host_of host.now.host) }
    ensures frame { IsHostSending (host_of host.now.host) sending.new }
{
    let Ok(stage) = host.host.read_stage() else {
        sending.clear();
        return NO_HOST;
    };
    match stage {
        Some(stage) => send(host, stage, sending),
        None => sending.clear(),
    }
    ACCEPTED
}

/// The frame of a host's open job, which stands at this stage.
pub(crate) fn send(host: &GuardImage, stage: Stage, sending: &mut SendingImage)
    requires sound { IsSound (held (Some stage) host.now.host.state) }
    ensures { IsHostSending (Some (held (Some stage) host.now.host.state)) sending.new }
{
    sending.put(host.host.state.address, &stage.message());
}

/// Tells a host what became of its frame. Either call has this code for itself, with the part that is its own.
#[inline(always)]
pub fn tell(host: &mut GuardImage, told: Told<'_>) -> HostStep
    ensures { TellsHost host.old (entry_told told.entry) result host.new }
{
    let Ok(stage) = host.host.read_stage() else {
        return no_step(NO_HOST);
    };
    match stage {
        Some(stage) if stage.awaits(&told) => {
            let progress = host.host.state.told(stage, told);
            let address = host.host.state.address;
            host.host.write_stage(progress.stage());
            step_after(progress.step(), address, stage, told)
        }
        _ => no_step(OTHER_FRAME),
    }
}
