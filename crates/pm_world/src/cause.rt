//! Why an event isn't taken.

ghost use Rattle.pm_world.specs.declared.cause.Cause.TheVariants as causes;
ghost use Rattle.std.specs.Prelude.{◌≡◌};

use pm_host::{HostFault, Untold};
use thiserror::Error;

/// The stop of a run: the events before this place were taken, and the one there wasn't.
#[derive(Clone, Copy, Debug, PartialEq, Eq)]
pub struct Stop {
    /// How many events were taken, which is the place of the one that wasn't.
    pub at: usize,
    /// Why it wasn't.
    pub cause: Cause,
}

/// Why an event isn't taken: the first that applies, in the order of these.
#[derive(Clone, Copy, Debug, PartialEq, Eq, Error)]
#[error("{words}", words = self.words())]
pub enum Cause {
    /// S5: 2^48 events were taken.
    Full,
    /// S2: no frame is being sent.
    NothingSent,
    /// S3: a write is delivered or finished while a read is being sent, or a request is exchanged while a
    /// write is being sent.
    WrongKind,
    /// S1: bytes were heard, or came back, that no cut explains and that the PEC doesn't betray.
    NotBetrayed,
    /// S4: the host refuses the job.
    #[error("{words} {0}", words = self.words())]
    Host(HostFault),
}

impl Cause {
    ghost use Rattle.pm_world.specs.FaultWords.{cause_words};

    /// The letter and the name of the cause, as programs print them: `S1 NotBetrayed`. After `S4 Host`
    /// stand the words of the host's refusal.
    pub fn words(self) -> &'static str
        ensures { result.now ≡ cause_words self }
    {
        match self {
            Cause::NotBetrayed => "S1 NotBetrayed",
            Cause::NothingSent => Untold::NothingSent.words(),
            Cause::WrongKind => Untold::WrongKind.words(),
            Cause::Host(_) => "S4 Host",
            Cause::Full => "S5 Full",
        }
    }
}

impl From<HostFault> for Cause {
    ghost from_gives = { λ fault cause. cause ≡ causes.Host fault };

    fn from(fault: HostFault) -> Cause {
        Cause::Host(fault)
    }
}
