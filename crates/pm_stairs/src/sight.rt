//! What the stairs see of a guard.

ghost use Rattle.std.specs.Prelude.{◌≡◌};
ghost use Rattle.pm_host.specs.Image.{held};
ghost use Rattle.pm_host.specs.Sound.{IsSound};
ghost use Rattle.pm_limits.specs.Guard.{Guarded, limits_at};

use pm_host::{Stage, State};
use pm_limits::{Guard, OutputLimits, PartRegisters};

/// A guard that can be looked at: one of Rattle, or one that stands in a caller's memory.
pub trait Sight {
    // The guard.
    ghost guarded: { Self → Guarded };

    /// What its host holds beside the open job.
    fn state(&self) -> &State
        ensures state { held (guarded self.now).host.stage result.now ≡ (guarded self.now).host }
        ensures sound { IsSound (guarded self.now).host };

    /// The stage of the open job; `None` if none is open.
    fn stage(&self) -> Option<Stage>
        ensures { result ≡ (guarded self.now).host.stage };

    /// Which registers the part has.
    fn registers(&self) -> PartRegisters
        ensures { result ≡ (guarded self.now).registers };

    /// What is said of an output's limits.
    fn limits(&self, output: u8) -> OutputLimits
        ensures { result ≡ limits_at (guarded self.now) output };
}

impl Sight for Guard {
    ghost guarded = { λ guard. guard };

    fn state(&self) -> &State {
        self.host().state()
    }

    fn stage(&self) -> Option<Stage> {
        self.host().stage()
    }

    fn registers(&self) -> PartRegisters {
        self.registers()
    }

    fn limits(&self, output: u8) -> OutputLimits {
        self.limits(output)
    }
}
