//! What the status registers of the converter answer.

ghost use Rattle.std.specs.Prelude.{◌≡◌, ◌<◌, ◌==◌, not};
ghost use Rattle.pm_device.specs.Status as spec;

use crate::converter::Converter;
use crate::status_bits::{OutputStatus, StatusByte, StatusVout, StatusWord};
use bitflags::Flags;

impl Converter {
    /// STATUS_BYTE of an output that exists: the bits of [`StatusByte`].
    pub fn status_byte(&self, output: u8) -> u8
        requires { output < self.now.config.count }
        ensures { result ≡ spec.status_byte_of self.now output }
    {
        StatusByte::new(self.output_status(output)).bits()
    }

    /// STATUS_WORD of an output that exists: the bits of [`StatusWord`].
    pub fn status_word(&self, output: u8) -> u16
        requires { output < self.now.config.count }
        ensures { result ≡ spec.status_word_of self.now output }
    {
        StatusWord::new(self.output_status(output)).bits()
    }

    /// STATUS_VOUT of an output that exists: the bits of [`StatusVout`].
    pub fn status_vout(&self, output: u8) -> u8
        requires { output < self.now.config.count }
        ensures { result ≡ spec.status_vout_of self.now output }
    {
        StatusVout::new(self.is_latched(output)).bits()
    }

    /// STATUS_CML, the device's: the bits of `StatusCml`.
    pub fn status_cml(&self) -> u8
        ensures { result ≡ spec.status_cml_of self.now }
    {
        self.faults.status().bits()
    }

    // What STATUS_BYTE and STATUS_WORD of an output are made of.
    fn output_status(&self, output: u8) -> OutputStatus
        requires { output < self.now.config.count }
        ensures off { result.off ≡ not (spec.is_output_on self.now output) }
        ensures cml { result.cml ≡ not (spec.status_cml_of self.now == 0) }
        ensures vout { result.vout ≡ spec.cut_at self.now.cut output }
    {
        OutputStatus {
            off: !self.is_on(output),
            cml: self.status_cml() != 0,
            vout: self.is_latched(output),
        }
    }

    // Whether bit 3 of an output's STATUS_VOUT is latched.
    fn is_latched(&self, output: u8) -> bool
        requires { output < self.now.config.count }
        ensures { result ≡ spec.cut_at self.now.cut output }
    {
        self.cut[usize::from(output)]
    }
}
