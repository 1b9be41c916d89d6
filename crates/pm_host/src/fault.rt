//! H1 to H7: why a host refuses a call, and why it can't hear what became of a frame.

ghost use Rattle.std.specs.Prelude.{◌≡◌, ◌≢◌};

use pm_num::NumFault;
use thiserror::Error;

/// Why a host can't hear what became of a frame. Then nothing changes.
#[derive(Clone, Copy, Debug, PartialEq, Eq, Error)]
#[error("{words}", words = self.words())]
pub enum Untold {
    /// S2: no frame is being sent.
    NothingSent,
    /// S3: it hears the end of a write while a read is being sent, or an answer while a write is.
    WrongKind,
}

impl Untold {
    ghost use Rattle.pm_host.specs.FaultWords.{untold_words};

    /// The letter and the name of the fault, as programs print them: `S2 NothingSent`.
    pub fn words(self) -> &'static str
        ensures { result.now ≡ untold_words self }
    {
        match self {
            Untold::NothingSent => "S2 NothingSent",
            Untold::WrongKind => "S3 WrongKind",
        }
    }
}

/// Why a call is refused. A refused call changes nothing.
#[derive(Clone, Copy, Debug, PartialEq, Eq, Error)]
#[error("{words}", words = self.words())]
pub enum HostFault {
    /// H1: the number of outputs isn't 1 to 8.
    OutputCount,
    /// H2: the number of passes isn't 1 to 15.
    Passes,
    /// H3: a job is open.
    Busy,
    /// H4: the output isn't there.
    UnknownOutput,
    /// H5: the cell doesn't accept the word, or isn't a voltage.
    BadWord,
    /// H6: 16 words are already possible for the cell, and this isn't one of them.
    TooUncertain,
    /// H7: the format of the output's voltages wasn't learned since the host started.
    FormatUnknown,
    /// N3 or N4: the voltage lies outside the output's format. N5: it is beyond 10^15 microvolts in size.
    Num(NumFault),
}

impl HostFault {
    ghost use Rattle.pm_host.specs.FaultWords.{host_fault_number, host_fault_words};

    /// The letter and the name of the fault, as programs print them: `H6 TooUncertain`. The fault of a
    /// number is shown as that: `N3 BelowLeast`.
    pub fn words(self) -> &'static str
        ensures { result.now ≡ host_fault_words self }
    {
        match self {
            HostFault::OutputCount => "H1 OutputCount",
            HostFault::Passes => "H2 Passes",
            HostFault::Busy => "H3 Busy",
            HostFault::UnknownOutput => "H4 UnknownOutput",
            HostFault::BadWord => "H5 BadWord",
            HostFault::TooUncertain => "H6 TooUncertain",
            HostFault::FormatUnknown => "H7 FormatUnknown",
            HostFault::Num(fault) => fault.words(),
        }
    }

    /// The number of the fault as `pmhost.h` has it, 1 to 7; the fault of a number has its own.
    pub fn number(self) -> u8
        ensures number { result ≡ host_fault_number self }
        ensures some { result ≢ 0 }
    {
        match self {
            HostFault::OutputCount => 1,
            HostFault::Passes => 2,
            HostFault::Busy => 3,
            HostFault::UnknownOutput => 4,
            HostFault::BadWord => 5,
            HostFault::TooUncertain => 6,
            HostFault::FormatUnknown => 7,
            HostFault::Num(fault) => fault.number(),
        }
    }
}
