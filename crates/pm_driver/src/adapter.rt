//! A bus that says of each frame whether the converter heard any of it.

ghost use Rattle.std.specs.Prelude.{◌≤◌, ℕ, length};
ghost use Rattle.pm_device.specs.Held.{Held};
ghost use Rattle.pm_driver.specs.Adapter.{Asks, IsAskTried, IsSendTried, Sends, Try, bytes_in, came_in};

/// What came of a write.
#[derive(Clone, Copy, Debug, Drop, PartialEq)]
pub enum WriteEnd {
    /// The converter heard nothing of it.
    Unheard,
    /// A byte wasn't acknowledged. The converter may have heard any part of it.
    Failed,
    /// Every byte was acknowledged, which nobody trusts.
    Acknowledged,
}

/// What came of a read.
#[derive(Clone, Copy, Debug, Drop, PartialEq)]
pub enum ReadEnd {
    /// The converter heard nothing of the request.
    Unheard,
    /// No byte came. The converter may have heard the request.
    Failed,
    /// The number of bytes that came, with the read address, which is put first.
    Came(usize),
}

/// A bus that knows more than whether a frame was acknowledged: it says of which frames the converter heard nothing, and
/// these may be sent again. A [`Bus`](crate::Bus) stands over it, which decides how often.
///
/// `Unheard` is for a write whose address nobody acknowledged, and for a read of which the adapter knows that its first
/// address is the one that nobody acknowledged. An adapter that has one error for either address of a read answers
/// `Failed`, since the converter may have heard the request.
///
/// How long it waits is the adapter's own, and no clause speaks of time. The wait for a converter that is busy after a
/// write stands at the end of [`send`](Adapter::send). There the adapter reads CAPABILITY by a plain read, again and
/// again, until the converter acknowledges and answers something else than FFh. It stops once its count of such reads
/// is spent. A read then finds a ready converter if the count sufficed. Those requests are hearings that a repeated
/// start ends, which the clause of a write allows.
pub trait Adapter {
    /// What the converter holds.
    ghost held: { Self → Held };

    /// How often the converter restarted, as a [`Bus`](crate::Bus) counts it.
    ghost restarts: { Self → ℕ };

    /// From this adapter a try, with what came of it, leads to that one. An implementor says what it likes.
    ghost gives: { Self → Try → Self → Type 0 };

    /// Sends a packet and then a stop. What came of it.
    ///
    /// Of `Unheard` the converter heard nothing; it may have restarted, and its readings may have changed. Otherwise it
    /// heard the packet as [`Bus::write`](crate::Bus::write) says (`sent`).
    fn send(&mut self, packet: &[u8]) -> WriteEnd
        ensures sent { IsSendTried result packet.now (held self.old) (restarts self.old)
            (held self.new) (restarts self.new) }
        ensures gives { gives self.old (Sends packet.now result) self.new };

    /// Sends a request, a repeated start and the read address, and reads. What came of it.
    ///
    /// Of `Unheard` the converter heard nothing, as above. `Failed` is a read of which no byte came. Otherwise the bytes
    /// are as [`Bus::read`](crate::Bus::read) says (`asked`). `answer` is the room for a whole answer, as there.
    fn ask(&mut self, request: &[u8], answer: &mut [u8]) -> ReadEnd
        requires { 1 ≤ length answer.old }
        ensures fits { bytes_in result ≤ length answer.new }
        ensures asked { IsAskTried result request.now (length answer.old) (held self.old) (restarts self.old)
            (came_in result answer.new) (held self.new) (restarts self.new) }
        ensures gives { gives self.old (Asks request.now answer.old result (came_in result answer.new)) self.new };
}
