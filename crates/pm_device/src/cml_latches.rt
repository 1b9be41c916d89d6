//! The latched bits of STATUS_CML.

ghost use Rattle.std.specs.Prelude.{◌≡◌};
ghost use Rattle.pm_device.specs.Held.{no_faults};
ghost use Rattle.pm_device.specs.Image.{latches_held};
ghost use Rattle.pm_device.specs.Memory.{latches_image};
ghost use Rattle.pm_device.specs.Status.{cml_byte};
ghost use Rattle.pm_device.specs.History.{faults_by};
ghost use Rattle.pm_device.specs.Effect.{Heard};
ghost use Rattle.pm_device.specs.declared.act.Act.TheVariants as act;
ghost use Rattle.pm_device.specs.declared.verdict.Verdict.TheVariants as verdict;

use crate::fault::DeviceFault;
use crate::image::{LatchesImage, flag};
use crate::status_bits::StatusCml;
use bitflags::Flags;
use pm_frame::FrameFault;
use std::marker::Model;

/// The bits of STATUS_CML that are latched.
#[derive(Clone, Debug, Drop)]
pub(crate) struct CmlLatches {
    command: bool,
    data: bool,
    pec: bool,
    other_communication: bool,
}

impl Model for CmlLatches {
    ghost use Rattle.pm_device.specs.Held.{CmlFaults};

    ghost Value = { CmlFaults };

    ghost view = { λ l. record {
      command = l.command;
      «data» = l.«data»;
      pec = l.pec;
      other_communication = l.other_communication;
    } };
}

impl CmlLatches {
    /// No bit.
    pub(crate) fn new() -> CmlLatches
        ensures { result ≡ no_faults }
    {
        CmlLatches {
            command: false,
            data: false,
            pec: false,
            other_communication: false,
        }
    }

    /// The bits that an image has.
    pub(crate) fn read(image: &LatchesImage) -> CmlLatches
        ensures { result ≡ latches_held image.now }
    {
        CmlLatches {
            command: image.command == 1,
            data: image.unsupported == 1,
            pec: image.pec == 1,
            other_communication: image.communication == 1,
        }
    }

    /// Their image.
    pub(crate) fn image(&self) -> LatchesImage
        ensures held { latches_held result ≡ self.now }
        ensures written { result ≡ latches_image self.now }
    {
        LatchesImage {
            command: flag(self.command),
            unsupported: flag(self.data),
            pec: flag(self.pec),
            communication: flag(self.other_communication),
        }
    }

    /// Sets the bit of a refusal: bit 7 of K2, K5, K6 and K7, bit 6 of K3 and K4, bit 5 of K1 if
    /// the PEC is wrong, bit 1 of every other K1.
    pub(crate) fn note(&mut self, fault: DeviceFault)
        ensures { self.new ≡ faults_by self.old (Heard (verdict.Refuses fault)) }
    {
        match fault {
            DeviceFault::Frame(FrameFault::WrongPec(_)) => self.pec = true,
            DeviceFault::Frame(_) => self.other_communication = true,
            DeviceFault::UnsupportedData | DeviceFault::BadPage => self.data = true,
            DeviceFault::UnsupportedCode
            | DeviceFault::Protected
            | DeviceFault::Nested
            | DeviceFault::ReadOnly => self.command = true,
        }
    }

    /// Clears the bits that are 1 in a byte.
    pub(crate) fn clear(&mut self, byte: u8)
        ensures { self.new ≡ faults_by self.old (Heard (verdict.Takes (act.ClearCml byte))) }
    {
        let written = StatusCml::from_bits_retain(byte);
        self.command = self.command && !written.contains(StatusCml::COMMAND);
        self.data = self.data && !written.contains(StatusCml::DATA);
        self.pec = self.pec && !written.contains(StatusCml::PEC);
        self.other_communication = self.other_communication
            && !written.contains(StatusCml::OTHER_COMMUNICATION);
    }

    /// STATUS_CML.
    pub(crate) fn status(&self) -> StatusCml
        ensures { result.0 ≡ cml_byte self.now }
    {
        let mut status = StatusCml::empty();
        status.set(StatusCml::COMMAND, self.command);
        status.set(StatusCml::DATA, self.data);
        status.set(StatusCml::PEC, self.pec);
        status.set(StatusCml::OTHER_COMMUNICATION, self.other_communication);
        status
    }
}
