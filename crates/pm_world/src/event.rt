//! What may happen between a host and a converter.

ghost use Rattle.std.specs.Prelude.{◌≡◌, Some};
ghost use Rattle.pm_world.specs.Bytes.{CarriesBytes, ArrivesInBytes, ReturnsInBytes};
ghost use Rattle.pm_world.specs.Job.{asked_by, event_of};

use crate::laws::spell_word;
use crate::legal::spelled;
use pm_device::Ending;
use pm_frame::Frame;
use pm_host::{Command, Job};
use pm_table::{Cell, Code};

/// What comes back to the host of the converter's answer to a request.
#[derive(Clone, Debug, PartialEq, Eq, Drop)]
pub enum Back {
    /// The answer; no bytes if the converter gave none.
    Whole,
    /// The answer's first bytes, of this number, or all if there are no more.
    Cut(u8),
    /// Bytes that come in the answer's place.
    Bytes(Frame),
}

impl Back {
    // law: the numbers that come back fit into bytes
    pub(crate) fn spell(&self)
        ensures { ReturnsInBytes self.now }
    {
        if let Back::Bytes(bytes) = self {
            let _ = spelled(bytes.as_slice());
        }
    }
}

/// How a frame that the host sends arrives at the converter. Bytes go over the wire in their order,
/// so a cut frame is a prefix of it.
#[derive(Clone, Debug, PartialEq, Eq, Drop)]
pub enum Arrival {
    /// All bytes of the frame, ended as the host ends them: a write by a stop, a request by a repeated start.
    Whole,
    /// The frame's first bytes, of this number, or all if there are no more, ended by a stop.
    Cut(u8),
    /// Bytes that come in the frame's place, with this ending.
    Bytes(Frame, Ending),
}

impl Arrival {
    // law: the numbers that an arrival brings fit into bytes
    pub(crate) fn spell(&self)
        ensures { ArrivesInBytes self.now }
    {
        if let Arrival::Bytes(bytes, _) = self {
            let _ = spelled(bytes.as_slice());
        }
    }
}

/// What happens in a world.
#[derive(Clone, Debug, PartialEq, Eq, Drop)]
pub enum Event {
    /// The host is asked to write a word to a cell and to read it back.
    Order(Cell, u16),
    /// The host is asked to write the word of a voltage, in microvolts, to a cell and to read it back.
    OrderMicro(Cell, i64),
    /// The host is asked to read a cell.
    Check(Cell),
    /// The host is asked to read the format of an output's voltages.
    Learn(u8),
    /// The host is asked to clear an output's latched status.
    Clear(u8),
    /// The host is asked to have the outputs' settings stored.
    Store,
    /// The host is asked to have the stored settings of the outputs back.
    Restore,
    /// The converter hears the write that is being sent. It may come any number of times in an
    /// attempt, also never.
    Deliver(Arrival),
    /// The write that is being sent is over, acknowledged or not, whatever was heard of it.
    Finish(bool),
    /// The converter hears the request that is being sent, and the host is given what came back.
    Exchange(Arrival, Back),
    /// The converter starts again.
    RestartDevice,
    /// The host starts again.
    RestartHost,
    /// A reading of the converter changes: the output, the READ code, its word.
    Reading(u8, Code, u16),
}

impl Event {
    /// The event that asks the host for a job.
    pub fn of(job: Job) -> Event
        ensures event { result ≡ event_of job }
        ensures asked { asked_by result ≡ Some job }
    {
        match job {
            Job::Order(cell, word) => Event::Order(cell, word),
            Job::OrderMicro(cell, microvolts) => Event::OrderMicro(cell, microvolts),
            Job::Check(cell) => Event::Check(cell),
            Job::Learn(output) => Event::Learn(output),
            Job::Send(Command::ClearFaults { output }) => Event::Clear(output),
            Job::Send(Command::StoreUserAll) => Event::Store,
            Job::Send(Command::RestoreUserAll) => Event::Restore,
        }
    }

    /// The job that it asks the host for; `None` for an event of the bus or a restart of an end.
    pub fn job(&self) -> Option<Job>
        ensures { result ≡ asked_by self.now }
    {
        Some(match self {
            Event::Order(cell, word) => Job::Order(*cell, *word),
            Event::OrderMicro(cell, microvolts) => Job::OrderMicro(*cell, *microvolts),
            Event::Check(cell) => Job::Check(*cell),
            Event::Learn(output) => Job::Learn(*output),
            Event::Clear(output) => Job::Send(Command::ClearFaults { output: *output }),
            Event::Store => Job::Send(Command::StoreUserAll),
            Event::Restore => Job::Send(Command::RestoreUserAll),
            _ => return None,
        })
    }

    // law: the numbers that an event carries fit into bytes, and its words into two
    pub(crate) fn spell(&self)
        ensures { CarriesBytes self.now }
    {
        match self {
            Event::Order(_, word) => spell_word(*word),
            Event::Reading(_, _, word) => spell_word(*word),
            Event::Deliver(arrival) => arrival.spell(),
            Event::Exchange(arrival, back) => {
                arrival.spell();
                back.spell();
            }
            _ => {}
        }
    }
}
