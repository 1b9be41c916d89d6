//! A bus that sends again what the converter heard nothing of.

ghost use Rattle.std.specs.Prelude.{◌≡◌};
ghost use Rattle.pm_driver.specs.Patience.{gives_patiently};

use crate::buses::laws::parts_compose;
use crate::{Adapter, Bus, ReadEnd, WriteEnd};

/// A bus over an adapter, which sends again what the converter heard nothing of, up to this many tries for each frame:
/// what a converter needs that is busy for a while. Nothing that may have been heard is sent again by it; above all no
/// read is. One try makes it the adapter as a bus; nothing is ever sent with no try.
///
/// It waits for nothing itself: how long a try takes is the adapter's own.
#[derive(Drop)]
pub struct Patient<A: Adapter> {
    /// The adapter.
    pub adapter: A,
    /// How often it tries each frame at most.
    pub tries: u16,
}

impl<A: Adapter> Bus for Patient<A> {
    ghost held = { λ patient. A.held patient.adapter };

    ghost restarts = { λ patient. A.restarts patient.adapter };

    ghost gives = { λ old call new. (old.tries ≡ new.tries)
        × gives_patiently A.gives old.tries old.adapter call new.adapter };

    fn write(&mut self, packet: &[u8]) -> bool {
        parts_compose();
        'writes: for tried in 0..self.tries {
            match self.adapter.send(packet) {
                WriteEnd::Unheard => {}
                WriteEnd::Failed => return false,
                WriteEnd::Acknowledged => return true,
            }
        }
        false
    }

    fn read(&mut self, request: &[u8], answer: &mut [u8]) -> usize {
        parts_compose();
        'reads: for tried in 0..self.tries {
            answer.fill(0);
            match self.adapter.ask(request, answer) {
                ReadEnd::Unheard => {}
                ReadEnd::Failed => return 0,
                ReadEnd::Came(count) => return count,
            }
        }
        0
    }
}
