//! What a driver asks of a bus.

ghost use Rattle.std.specs.Prelude.{◌≤◌, ℕ, Bool, List, length, take};
ghost use Rattle.pm_device.specs.Held.{Held};
ghost use Rattle.pm_driver.specs.Acts.{Call, Wrote, Read as Asked};
ghost use Rattle.pm_driver.specs.Bus.{IsSent, IsAsked};

/// A bus with one converter at its other end, and no second master.
pub trait Bus {
    /// What the converter holds.
    ghost held: { Self → Held };

    /// How often the converter restarted: a count that rises in a call by exactly the restarts that happened in it, and
    /// not at all between calls.
    ghost restarts: { Self → ℕ };

    /// From this bus a call, with what it answers, leads to that one. An implementor says what it likes of its calls, and
    /// remembers none. The loop is proved for each bus, so it can have this of two buses only by a call: it makes each
    /// call that its contract names, once, and no other.
    ghost gives: { Self → Call → Self → Type 0 };

    /// Sends a packet and then a stop. Whether every byte was acknowledged, which nobody trusts.
    ///
    /// The converter heard the packet any number of times, each time whole, cut, so damaged that its packet error code
    /// betrays it, or as other bytes that a repeated start ended (`sent`).
    fn write(&mut self, packet: &[u8]) -> bool
        ensures sent { IsSent packet.now (held self.old) (restarts self.old)
            (held self.new) (restarts self.new) }
        ensures gives { gives self.old (Wrote packet.now result) self.new };

    /// Sends a request, a repeated start and the read address, and reads. How many bytes came, the
    /// read address, which is put first, with them.
    ///
    /// The bytes are this request's own answer, or fewer than there is room for, or so damaged that their packet error code
    /// betrays it (`asked`). The loop hands over a room of just a whole answer's length, all zero, as its own contract
    /// says (`MayDo`); of who else calls this, only that it has a byte is asked.
    fn read(&mut self, request: &[u8], answer: &mut [u8]) -> usize
        requires { 1 ≤ length answer.old }
        ensures fits { result ≤ length answer.new }
        ensures asked { IsAsked request.now (length answer.old) (held self.old) (restarts self.old)
            (take result answer.new) (held self.new) (restarts self.new) }
        ensures gives { gives self.old (Asked request.now answer.old (take result answer.new)) self.new };
}
