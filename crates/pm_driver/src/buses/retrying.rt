//! A bus that sends a write a second time if it wasn't acknowledged.

ghost use Rattle.pm_driver.specs.Tries.{tries_give};

use crate::Bus;
use crate::buses::laws::parts_compose;

/// A bus that sends a write a second time exactly if the first wasn't acknowledged. The converter may have heard both: a host that
/// reads back what it wrote isn't misled by it.
#[derive(Drop)]
pub struct Retrying<B: Bus> {
    /// The bus below.
    pub bus: B,
}

impl<B: Bus> Bus for Retrying<B> {
    ghost held = { λ retrying. B.held retrying.bus };

    ghost restarts = { λ retrying. B.restarts retrying.bus };

    ghost gives = { λ old call new. tries_give B.gives old.bus call new.bus };

    fn write(&mut self, packet: &[u8]) -> bool {
        parts_compose();
        if self.bus.write(packet) {
            return true;
        }
        self.bus.write(packet)
    }

    fn read(&mut self, request: &[u8], answer: &mut [u8]) -> usize {
        self.bus.read(request, answer)
    }
}
