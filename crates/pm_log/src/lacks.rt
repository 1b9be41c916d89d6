//! Which registers parts lack, by the receiver's own word.

ghost use Rattle.std.specs.Prelude.{◌≡◌};
ghost use Rattle.pm_log.specs.Lacks as spec;

use pm_limits::PartRegisters;

/// Which registers the part at each address lacks.
#[derive(Clone, Copy, Debug, PartialEq, Eq)]
pub struct Lacks {
    /// The registers of the part at each address.
    pub parts: [PartRegisters; 128],
}

impl Lacks {
    ghost use Rattle.std.specs.Prelude.{◌<◌};
    ghost use Rattle.pm_log.specs.Lacks.{lacking_more, lacks_nothing, part_at};

    /// No part lacks any.
    #[tactic(auto, unfolding(crate::specs::Lacks::lacks_nothing))]
    pub fn nothing() -> Lacks
        ensures { result.parts ≡ lacks_nothing }
    {
        Lacks {
            parts: [PartRegisters::all(); 128],
        }
    }

    /// The registers of the part at this address, which is below 80h.
    pub fn part(&self, addr: u8) -> PartRegisters
        requires { addr < 128 }
        ensures { result ≡ part_at self.now.parts addr }
    {
        self.parts[usize::from(addr)]
    }

    /// Has the part at this address, which is below 80h, lack the registers that this one lacks, too.
    pub fn add(&mut self, addr: u8, part: PartRegisters)
        requires { addr < 128 }
        ensures { self.new.parts ≡ lacking_more self.old.parts addr part }
    {
        let more = both(self.part(addr), part);
        self.parts[usize::from(addr)] = more;
    }
}

/// Whether a part lacks none of them.
pub(crate) fn has_all(part: PartRegisters) -> bool
    ensures { result ≡ spec.has_all part }
{
    part.vout_max && part.vout_margin_high && part.vout_margin_low && part.vout_min
}

/// A part that lacks what is said of it and isn't allowed.
pub(crate) fn not_allowed(allowed: PartRegisters, said: PartRegisters) -> PartRegisters
    ensures { result ≡ spec.not_allowed allowed said }
{
    PartRegisters {
        vout_max: said.vout_max || !allowed.vout_max,
        vout_margin_high: said.vout_margin_high || !allowed.vout_margin_high,
        vout_margin_low: said.vout_margin_low || !allowed.vout_margin_low,
        vout_min: said.vout_min || !allowed.vout_min,
    }
}

// The registers that neither lacks.
fn both(one: PartRegisters, other: PartRegisters) -> PartRegisters
    ensures { result ≡ spec.both one other }
{
    PartRegisters {
        vout_max: one.vout_max && other.vout_max,
        vout_margin_high: one.vout_margin_high && other.vout_margin_high,
        vout_margin_low: one.vout_margin_low && other.vout_margin_low,
        vout_min: one.vout_min && other.vout_min,
    }
}
