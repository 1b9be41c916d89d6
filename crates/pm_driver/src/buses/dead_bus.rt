//! A bus whose line is cut.

ghost use Rattle.pm_driver.specs.DeadLine.{gives_nothing};

use crate::Bus;
use crate::buses::converter_end::lose_request;
use pm_device::Converter;

/// A bus whose line is cut: nothing of a write arrives, nothing is acknowledged, and nothing comes back.
#[derive(Drop)]
pub struct DeadBus {
    /// The converter at its other end.
    pub device: Converter,
}

impl Bus for DeadBus {
    ghost held = { λ bus. bus.device };

    ghost restarts = { λ bus. 0 };

    ghost gives = { λ old call new. gives_nothing old.device call new.device };

    fn write(&mut self, _packet: &[u8]) -> bool {
        false
    }

    fn read(&mut self, request: &[u8], answer: &mut [u8]) -> usize {
        lose_request(&mut self.device, request, answer)
    }
}
