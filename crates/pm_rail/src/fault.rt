//! Why no order of a plan is given.

ghost use Rattle.std.specs.Prelude.{◌≡◌, ◌≢◌};

use pm_host::HostFault;
use pm_limits::LimitFault;
use pm_table::{Cell, Code, Reg};
use thiserror::Error;

/// Why no order of a plan is given. The first in this order stands for several reasons, and the first in the order
/// of `Reg` for several registers, with WRITE_PROTECT last.
#[derive(Clone, Copy, Debug, PartialEq, Eq, Error)]
#[error("{words}", words = self.words())]
pub enum PlanFault {
    /// H3: a job is open.
    Busy,
    /// L7: a word is wanted of this register, which the part doesn't have.
    MissingRegister(Reg),
    /// P1: the format of the output's voltages wasn't learned since the host started. Learn it.
    FormatUnknown,
    /// L8: a word is wanted of this register, and no limits of the output are known. Give it limits, or say that it has none.
    NoLimits(Reg),
    /// L3: the word that is wanted of this register is below the output's limits.
    BelowLimit(Reg),
    /// L4: the word that is wanted of this register is above the output's limits.
    AboveLimit(Reg),
    /// P4: what this cell holds isn't known: it may hold more than one word, or one that it doesn't take. Check it.
    NotKnown(Cell),
    /// P5: the word that this register is to have is below that of VOUT_MIN.
    BelowMin(Reg),
    /// P6: the word that this register is to have is above that of VOUT_MAX.
    AboveMax(Reg),
    /// P7: WRITE_PROTECT doesn't allow the order that this register is still to get.
    Protected(Reg),
}

impl PlanFault {
    ghost use Rattle.std.specs.Option.{option_map};
    ghost use Rattle.pm_rail.specs.FaultWords.{plan_fault_code, plan_fault_number, plan_fault_words};

    /// The letter and the name of the fault, as programs print them: `P4 NotKnown`.
    pub fn words(self) -> &'static str
        ensures { result.now ≡ plan_fault_words self }
    {
        match self {
            PlanFault::Busy => HostFault::Busy.words(),
            PlanFault::MissingRegister(_) => LimitFault::MissingRegister.words(),
            PlanFault::FormatUnknown => "P1 FormatUnknown",
            PlanFault::NoLimits(_) => LimitFault::NoLimits.words(),
            PlanFault::BelowLimit(_) => LimitFault::BelowLimit.words(),
            PlanFault::AboveLimit(_) => LimitFault::AboveLimit.words(),
            PlanFault::NotKnown(_) => "P4 NotKnown",
            PlanFault::BelowMin(_) => "P5 BelowMin",
            PlanFault::AboveMax(_) => "P6 AboveMax",
            PlanFault::Protected(_) => "P7 Protected",
        }
    }

    /// The number of the fault as `pmhost.h` has it, 61h and 64h to 67h; H3, L3, L4, L7 and L8 have their own.
    pub fn number(self) -> u8
        ensures number { result ≡ plan_fault_number self }
        ensures some { result ≢ 0 }
    {
        match self {
            PlanFault::Busy => HostFault::Busy.number(),
            PlanFault::MissingRegister(_) => LimitFault::MissingRegister.number(),
            PlanFault::FormatUnknown => 0x61,
            PlanFault::NoLimits(_) => LimitFault::NoLimits.number(),
            PlanFault::BelowLimit(_) => LimitFault::BelowLimit.number(),
            PlanFault::AboveLimit(_) => LimitFault::AboveLimit.number(),
            PlanFault::NotKnown(_) => 0x64,
            PlanFault::BelowMin(_) => 0x65,
            PlanFault::AboveMax(_) => 0x66,
            PlanFault::Protected(_) => 0x67,
        }
    }

    /// The command code of the register that the fault is about, or of WRITE_PROTECT; `None` of H3 and P1.
    pub fn code(self) -> Option<Code>
        ensures { option_map (λ code. code.0) result ≡ plan_fault_code self }
    {
        match self {
            PlanFault::Busy | PlanFault::FormatUnknown => None,
            PlanFault::NotKnown(cell) => Some(cell.code()),
            PlanFault::MissingRegister(register)
            | PlanFault::NoLimits(register)
            | PlanFault::BelowLimit(register)
            | PlanFault::AboveLimit(register)
            | PlanFault::BelowMin(register)
            | PlanFault::AboveMax(register)
            | PlanFault::Protected(register) => Some(register.code()),
        }
    }
}
