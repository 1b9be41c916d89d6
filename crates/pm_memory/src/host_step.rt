//! What a call answers that hears what became of a frame.

ghost use Rattle.std.specs.Prelude.{◌≡◌, true};
ghost use Rattle.pm_table.specs.Address.{IsAddress};
ghost use Rattle.pm_frame.specs.Layout.{is_read_message};
ghost use Rattle.pm_host.specs.Sound.{AcceptsWrittenWord};
ghost use Rattle.pm_host.specs.Summary.{stage_message};
ghost use Rattle.pm_host.specs.Told.{entry_told, is_awaited};
ghost use Rattle.pm_host.specs.Transcript.{Got};
ghost use Rattle.pm_memory.specs.Host.{host_step, refused_step, told_fault};

use pm_frame::read_answer;
use pm_host::{JobEnd, Stage, Step, Told};

/// What a call answers that hears what became of a frame: how the job stands, or a refusal.
#[repr(C)]
#[derive(Clone, Copy, Debug, PartialEq, Eq)]
pub struct HostStep {
    /// 0 if the job goes on, 1 to 4 if it ended as Done, Differs, Unknown or Learned; otherwise
    /// the number of a refusal.
    pub kind: u16,
    /// The word that was read if the end is Differs. If it is Unknown, which fault the last answer had, F1 to F5
    /// as 31h to 35h: 0 if none came, if it was good and gave no format, and if a command was sent. Otherwise 0.
    pub word: u16,
}

/// How the job stands after a call that heard what became of a stage's frame.
#[inline(always)]
pub(crate) fn step_after(step: Step, address: u8, stage: Stage, told: Told<'_>) -> HostStep
    requires address { IsAddress address }
    requires word { AcceptsWrittenWord stage }
    requires awaited { is_awaited stage told ≡ true }
    ensures { result ≡ host_step (told_fault address (stage_message stage) (entry_told told.entry)) step }
{
    let (kind, word) = match step {
        Step::Next => (0, 0),
        Step::Ended(JobEnd::Done) => (1, 0),
        Step::Ended(JobEnd::Differs(word)) => (2, word),
        Step::Ended(JobEnd::Unknown) => (3, fault_told(address, stage, told)),
        Step::Ended(JobEnd::Learned) => (4, 0),
    };
    HostStep { kind, word }
}

// The number of the fault of what came back, 0 for a write.
#[inline(always)]
fn fault_told(address: u8, stage: Stage, told: Told<'_>) -> u16
    requires address { IsAddress address }
    requires word { AcceptsWrittenWord stage }
    requires awaited { is_awaited stage told ≡ true }
    ensures { result ≡ told_fault address (stage_message stage) (entry_told told.entry) }
{
    match told {
        Told::Finished { .. } => 0,
        Told::Got(bytes) => answer_fault(address, stage, bytes),
    }
}

// The number of the fault of the bytes that came back for a request. It is asked only if a job ends Unknown.
#[inline(never)]
fn answer_fault(address: u8, stage: Stage, bytes: &[u8]) -> u16
    requires address { IsAddress address }
    requires word { AcceptsWrittenWord stage }
    requires read { is_read_message (stage_message stage) ≡ true }
    ensures { result ≡ told_fault address (stage_message stage) (Got bytes.now) }
{
    if bytes.is_empty() {
        return 0;
    }
    match read_answer(address, &stage.message(), bytes) {
        Ok(_) => 0,
        Err(fault) => u16::from(fault.number()),
    }
}

/// A refused call.
pub(crate) fn no_step(number: u8) -> HostStep
    ensures { result ≡ refused_step number }
{
    HostStep {
        kind: u16::from(number),
        word: 0,
    }
}
