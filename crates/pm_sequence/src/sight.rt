//! What a sequence sees of a host with its limits.

ghost use Rattle.std.specs.Prelude.{◌≡◌};

use pm_course::Hosted;
use pm_host::{Stage, State};
use pm_limits::{OutputLimits, PartRegisters};
use pm_stairs::Sight;
use std::marker::Model;

/// A host with its limits, whose open job is at this stage.
#[derive(Drop)]
pub(crate) struct Seen<'a, H: Hosted> {
    host: &'a H,
    stage: Option<Stage>,
}

impl<'a, H: Hosted> Model for Seen<'a, H> {
    ghost use Rattle.std.specs.Prelude.{◌≡◌};
    ghost use Rattle.pm_limits.specs.Guard.{Guarded};

    ghost Value = { Guarded };

    ghost view = { λ s. H.guarded s.host.now };

    ghost invariant = { λ s. H.is_there s.host.now × (s.stage ≡ (H.guarded s.host.now).host.stage) };
}

impl<'a, H: Hosted> Seen<'a, H> {
    /// What is seen of a host.
    pub(crate) fn of(host: &'a H, stage: Option<Stage>) -> Seen<'a, H>
        requires there { H.is_there host.now }
        requires stage { stage ≡ (H.guarded host.now).host.stage }
        ensures { result ≡ H.guarded host.now }
    {
        Seen { host, stage }
    }
}

impl<'a, H: Hosted> Sight for Seen<'a, H> {
    ghost guarded = { λ seen. seen };

    fn state(&self) -> &State {
        self.host.state()
    }

    fn stage(&self) -> Option<Stage> {
        self.stage
    }

    fn registers(&self) -> PartRegisters {
        self.host.registers()
    }

    fn limits(&self, output: u8) -> OutputLimits {
        self.host.limits(output)
    }
}
