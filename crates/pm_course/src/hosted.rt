//! What a course needs of a host with its limits.

ghost use Rattle.std.specs.Prelude.{◌≡◌, true, Some, IfOk};
ghost use Rattle.pm_host.specs.Image.{held};
ghost use Rattle.pm_host.specs.Sound.{IsSound};
ghost use Rattle.pm_host.specs.Summary.{host_next, step_of};
ghost use Rattle.pm_host.specs.Told.{entry_told, is_awaited};
ghost use Rattle.pm_limits.specs.Guard.{Guarded, LetsBegin, limits_at};
ghost use Rattle.pm_course.specs.Hosted.{begun_as};

use pm_host::{Job, Stage, State, Step, Told};
use pm_limits::{Guard, LimitFault, OutputLimits, PartRegisters};

/// How a job stands once a host heard what became of its frame.
#[derive(Clone, Copy, Debug, PartialEq, Eq)]
pub struct Heard {
    /// Whether it goes on, or how it ended.
    pub step: Step,
    /// The stage at which it stands; `None` once it has ended.
    pub stage: Option<Stage>,
}

/// A host with limits that a course drives: a guard of Rattle, or one that stands in a caller's memory.
pub trait Hosted {
    // The guard.
    ghost guarded: { Self → Guarded };

    // It is there: memory may hold none.
    ghost is_there: { Self → Type 0 };

    // It is written as the calls write it.
    ghost is_written: { Self → Type 0 };

    /// What the host holds beside its open job.
    fn state(&self) -> &State
        requires there { is_there self.now }
        ensures state { held (guarded self.now).host.stage result.now ≡ (guarded self.now).host }
        ensures sound { IsSound (guarded self.now).host };

    /// The stage of the open job; `None` if none is open.
    fn stage(&self) -> Option<Stage>
        requires there { is_there self.now }
        ensures { result ≡ (guarded self.now).host.stage };

    /// Which registers the part has.
    fn registers(&self) -> PartRegisters
        ensures { result ≡ (guarded self.now).registers };

    /// What is said of an output's limits.
    fn limits(&self, output: u8) -> OutputLimits
        ensures { result ≡ limits_at (guarded self.now) output };

    /// Begins a job while the open one stands at this stage: where it stands, or why it is refused.
    fn begin_at(&mut self, stage: Option<Stage>, job: Job) -> Result<Option<Stage>, LimitFault>
        requires there { is_there self.old }
        requires stage { stage ≡ (guarded self.old).host.stage }
        ensures there { is_there self.new }
        ensures begins { LetsBegin (guarded self.old) job (begun_as result) (guarded self.new) }
        ensures stage { IfOk result (λ at. at ≡ (guarded self.new).host.stage) }
        ensures written { is_written self.old → is_written self.new };

    /// What became of the frame of the stage at which the open job stands.
    fn hear_at(&mut self, stage: Stage, told: Told<'_>) -> Heard
        requires there { is_there self.old }
        requires stage { (guarded self.old).host.stage ≡ Some stage }
        requires awaited { is_awaited stage told ≡ true }
        ensures there { is_there self.new }
        ensures after { (guarded self.new).host ≡ host_next (guarded self.old).host (entry_told told.entry) }
        ensures limits { (guarded self.new).limits ≡ (guarded self.old).limits }
        ensures registers { (guarded self.new).registers ≡ (guarded self.old).registers }
        ensures step { result.step ≡ step_of (guarded self.old).host (entry_told told.entry) }
        ensures stage { result.stage ≡ (guarded self.new).host.stage }
        ensures written { is_written self.old → is_written self.new };
}

impl Hosted for Guard {
    ghost guarded = { λ guard. guard };

    ghost is_there = { λ guard. Unit {0} };

    ghost is_written = { λ guard. Unit {0} };

    fn state(&self) -> &State {
        self.host().state()
    }

    fn stage(&self) -> Option<Stage> {
        self.host().stage()
    }

    fn registers(&self) -> PartRegisters {
        self.registers()
    }

    fn limits(&self, output: u8) -> OutputLimits {
        self.limits(output)
    }

    fn begin_at(&mut self, _stage: Option<Stage>, job: Job) -> Result<Option<Stage>, LimitFault> {
        match self.begin(job) {
            Ok(()) => Ok(self.host().stage()),
            Err(fault) => Err(fault),
        }
    }

    fn hear_at(&mut self, _stage: Stage, told: Told<'_>) -> Heard {
        let step = self.told(told);
        Heard {
            step,
            stage: self.host().stage(),
        }
    }
}
