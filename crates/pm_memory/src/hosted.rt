//! A host in a caller's memory, as a course drives it.

ghost use Rattle.std.specs.Prelude.{◌≡◌, ◌≤◌, ◌*◌, true, None, Some, IfOk, OnOk, OnErr, IsSomeAnd};
ghost use Rattle.std.specs.Result.{result_err};
ghost use Rattle.pm_host.specs.Frames.{frames_left};
ghost use Rattle.pm_host.specs.Image.{held};
ghost use Rattle.pm_host.specs.Jobs.{HasNearestWord, accepted_job};
ghost use Rattle.pm_host.specs.Memory.{IsState};
ghost use Rattle.pm_host.specs.Sound.{IsSound};
ghost use Rattle.pm_host.specs.Summary.{host_next};
ghost use Rattle.pm_host.specs.Transcript.{Accepted};
ghost use Rattle.pm_limits.specs.Guard.{LetsBegin, limited_fault};
ghost use Rattle.pm_course.specs.Hosted.{begun_as};
ghost use Rattle.pm_memory.specs.Guard.{guard_of};
ghost use Rattle.pm_memory.specs.Hosted.{IsThere, guard_in};
ghost use Rattle.pm_memory.specs.Memory.{IsMemory};

use crate::guard_image::GuardImage;
use pm_course::{Heard, Hosted};
use pm_host::{Job, NoHost, Stage, State, Told};
use pm_limits::{LimitFault, OutputLimits, PartRegisters, judge};

impl Hosted for GuardImage {
    ghost guarded = { guard_in };

    ghost is_there = { IsThere };

    ghost is_written = { IsMemory };

    fn state(&self) -> &State {
        &self.host.state
    }

    fn stage(&self) -> Option<Stage> {
        match self.host.read_stage() {
            Ok(stage) => stage,
            Err(_) => None,
        }
    }

    fn registers(&self) -> PartRegisters {
        self.registers.registers()
    }

    fn limits(&self, output: u8) -> OutputLimits {
        self.limits(output)
    }

    fn begin_at(&mut self, stage: Option<Stage>, job: Job) -> Result<Option<Stage>, LimitFault> {
        self.begin_job(stage, job)
    }

    fn hear_at(&mut self, stage: Stage, told: Told<'_>) -> Heard {
        let progress = self.host.state.told(stage, told);
        let stage = progress.stage();
        self.host.write_stage(stage);
        Heard {
            step: progress.step(),
            stage,
        }
    }
}

impl GuardImage {
    /// The stage of its host's open job; `None` if none is open. `NoHost` if the memory holds no host.
    pub fn open_stage(&self) -> Result<Option<Stage>, NoHost>
        ensures there { OnOk result (IsThere self.now) }
        ensures stage { IfOk result (λ stage. stage ≡ (guard_in self.now).host.stage) }
        ensures guard { OnOk result (guard_of self.now ≡ Some (guard_in self.now)) }
        ensures none { OnErr result (guard_of self.now ≡ None) }
    {
        match self.host.read_stage() {
            Ok(stage) => Ok(stage),
            Err(none) => Err(none),
        }
    }

    /// Begins a job while the open one stands at this stage: where it stands then, or why it is refused.
    pub fn begin_job(&mut self, stage: Option<Stage>, job: Job) -> Result<Option<Stage>, LimitFault>
        requires there { IsThere self.old }
        requires stage { stage ≡ (guard_in self.old).host.stage }
        ensures there { IsThere self.new }
        ensures begins { LetsBegin (guard_in self.old) job (begun_as result) (guard_in self.new) }
        ensures stage { IfOk result (λ at. at ≡ (guard_in self.new).host.stage) }
        ensures limits { self.new.limits ≡ self.old.limits }
        ensures registers { self.new.registers ≡ self.old.registers }
        ensures written { IsMemory self.old → IsMemory self.new }
        ensures err { OnErr result (self.new ≡ self.old) }
    {
        let limits = self.limits_for(job);
        let registers = self.registers.registers();
        match begin_within(&mut self.host.state, stage, registers, &limits, job) {
            Ok(at) => {
                self.host.write_stage(Some(at));
                Ok(Some(at))
            }
            Err(fault) => Err(fault),
        }
    }
}

// Begins a job whose output has these limits, and whose part these registers, as a guard does.
#[inline(always)]
fn begin_within(
    state: &mut State,
    stage: Option<Stage>,
    registers: PartRegisters,
    limits: &OutputLimits,
    job: Job,
) -> Result<Stage, LimitFault>
    requires sound { IsSound (held stage state.old) }
    ensures sound { IfOk result (λ at. IsSound (held (Some at) state.new)) }
    ensures fault { result_err result ≡ limited_fault registers limits.now (held stage state.old) job }
    ensures ok { IfOk result (λ at. IsSomeAnd (accepted_job (held stage state.old) job)
        (λ begun. held (Some at) state.new ≡ host_next (held stage state.old) (Accepted begun))) }
    ensures nearest { OnOk result (HasNearestWord (held stage state.old) job) }
    ensures kept { IfOk result (λ at. (held (Some at) state.new).setup ≡ (held stage state.old).setup) }
    ensures left { IfOk result (λ at. frames_left (held (Some at) state.new) ≤ 2 * state.new.passes) }
    ensures err { OnErr result (state.new ≡ state.old) }
    ensures written { IsState state.old → IsState state.new }
{
    let asked = judge(state, stage, registers, limits, job)?;
    match state.begin(stage, asked) {
        Ok(at) => Ok(at),
        Err(fault) => Err(LimitFault::Host(fault)),
    }
}
