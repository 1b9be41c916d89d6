//! The status registers of PMBus 1.3 Part II as sets of their bits. A bit that this converter never
//! sets is always 0.

ghost use Rattle.std.specs.Prelude.{⊤, ◌≡◌, ◌+◌, [], ◌∷◌, codes};
ghost use Rattle.pm_device.specs.Status.{bit_if_set};

use bitflags::{Flag, Flags, bitflag_items};

/// STATUS_BYTE: what is wrong with an output, in one byte.
#[derive(Clone, Copy, Debug, PartialEq, Eq)]
pub struct StatusByte(u8);

bitflag_items! {
    impl StatusByte: u8 {
        /// Bit 7, never set here: the device was busy and couldn't answer.
        const BUSY = 0x80;
        /// Bit 6: OPERATION has the output off. It follows OPERATION and isn't latched.
        const OFF = 0x40;
        /// Bit 5, never set here: an output overvoltage fault.
        const VOUT_OV_FAULT = 0x20;
        /// Bit 4, never set here: an output overcurrent fault.
        const IOUT_OC_FAULT = 0x10;
        /// Bit 3, never set here: an input undervoltage fault.
        const VIN_UV_FAULT = 0x08;
        /// Bit 2, never set here: a temperature fault or warning.
        const TEMPERATURE = 0x04;
        /// Bit 1: STATUS_CML isn't 00h.
        const CML = 0x02;
        /// Bit 0: a fault or warning that no bit above names, here bit 3 of STATUS_VOUT.
        const NONE_OF_THE_ABOVE = 0x01;
    }
}

impl Flags for StatusByte {
    type Bits = u8;

    ghost exact = { ⊤ };

    ghost table = { (codes "BUSY", 0x80) ∷ (codes "OFF", 0x40) ∷ (codes "VOUT_OV_FAULT", 0x20)
        ∷ (codes "IOUT_OC_FAULT", 0x10) ∷ (codes "VIN_UV_FAULT", 0x08)
        ∷ (codes "TEMPERATURE", 0x04) ∷ (codes "CML", 0x02) ∷ (codes "NONE_OF_THE_ABOVE", 0x01)
        ∷ [] };

    ghost set_of = { λ s. s.0 };

    fn flags<'a>() -> &'a [Flag<StatusByte>] {
        StatusByte::FLAGS
    }

    fn bits(&self) -> u8 {
        self.0
    }

    fn from_bits_retain(bits: u8) -> StatusByte {
        StatusByte(bits)
    }
}

/// STATUS_VOUT: what is wrong with an output's voltage.
#[derive(Clone, Copy, Debug, PartialEq, Eq)]
pub struct StatusVout(u8);

bitflag_items! {
    impl StatusVout: u8 {
        /// Bit 7, never set here: an overvoltage fault.
        const OV_FAULT = 0x80;
        /// Bit 6, never set here: an overvoltage warning.
        const OV_WARNING = 0x40;
        /// Bit 5, never set here: an undervoltage warning.
        const UV_WARNING = 0x20;
        /// Bit 4, never set here: an undervoltage fault.
        const UV_FAULT = 0x10;
        /// Bit 3, latched, VOUT_MAX_MIN_Warning: the selected value was above VOUT_MAX or below VOUT_MIN.
        const MAX_WARNING = 0x08;
        /// Bit 2, never set here: the output came on too slowly.
        const TON_MAX_FAULT = 0x04;
        /// Bit 1, never set here: the output went off too slowly.
        const TOFF_MAX_WARNING = 0x02;
        /// Bit 0, never set here: the output doesn't follow the voltage that it should.
        const TRACKING_ERROR = 0x01;
    }
}

impl Flags for StatusVout {
    type Bits = u8;

    ghost exact = { ⊤ };

    ghost table = { (codes "OV_FAULT", 0x80) ∷ (codes "OV_WARNING", 0x40)
        ∷ (codes "UV_WARNING", 0x20) ∷ (codes "UV_FAULT", 0x10) ∷ (codes "MAX_WARNING", 0x08)
        ∷ (codes "TON_MAX_FAULT", 0x04) ∷ (codes "TOFF_MAX_WARNING", 0x02)
        ∷ (codes "TRACKING_ERROR", 0x01) ∷ [] };

    ghost set_of = { λ s. s.0 };

    fn flags<'a>() -> &'a [Flag<StatusVout>] {
        StatusVout::FLAGS
    }

    fn bits(&self) -> u8 {
        self.0
    }

    fn from_bits_retain(bits: u8) -> StatusVout {
        StatusVout(bits)
    }
}

/// STATUS_CML: what was wrong with what the device heard.
#[derive(Clone, Copy, Debug, PartialEq, Eq)]
pub struct StatusCml(u8);

bitflag_items! {
    impl StatusCml: u8 {
        /// Bit 7, latched: an unsupported command (K2), a write that is blocked (K5), a code that
        /// isn't carried (K6), or one of the other direction (K7).
        const COMMAND = 0x80;
        /// Bit 6, latched: unsupported data (K3), or a page with no output (K4).
        const DATA = 0x40;
        /// Bit 5, latched: a wrong packet error code (K1 for F5).
        const PEC = 0x20;
        /// Bit 4, never set here: a fault of the memory.
        const MEMORY = 0x10;
        /// Bit 3, never set here: a fault of the processor.
        const PROCESSOR = 0x08;
        /// Bit 1, latched: a frame that is cut short, too long or wrongly counted (K1 for F2 to
        /// F4).
        const OTHER_COMMUNICATION = 0x02;
        /// Bit 0, never set here: another fault of memory or logic.
        const OTHER = 0x01;
    }
}

impl Flags for StatusCml {
    type Bits = u8;

    ghost exact = { ⊤ };

    ghost table = { (codes "COMMAND", 0x80) ∷ (codes "DATA", 0x40) ∷ (codes "PEC", 0x20)
        ∷ (codes "MEMORY", 0x10) ∷ (codes "PROCESSOR", 0x08) ∷ (codes "OTHER_COMMUNICATION", 0x02)
        ∷ (codes "OTHER", 0x01) ∷ [] };

    ghost set_of = { λ s. s.0 };

    fn flags<'a>() -> &'a [Flag<StatusCml>] {
        StatusCml::FLAGS
    }

    fn bits(&self) -> u8 {
        self.0
    }

    fn from_bits_retain(bits: u8) -> StatusCml {
        StatusCml(bits)
    }
}

/// STATUS_WORD: STATUS_BYTE as its low byte, and more of what is wrong with an output.
#[derive(Clone, Copy, Debug, PartialEq, Eq)]
pub struct StatusWord(u16);

bitflag_items! {
    impl StatusWord: u16 {
        /// Bit 15: a bit of STATUS_VOUT is set.
        const VOUT = 0x8000;
        /// Bit 14, never set here: a fault or warning of the output's current or power.
        const IOUT_POUT = 0x4000;
        /// Bit 13, never set here: a fault or warning of the input.
        const INPUT = 0x2000;
        /// Bit 12, never set here: a manufacturer's own fault or warning.
        const MFR_SPECIFIC = 0x1000;
        /// Bit 11, POWER_GOOD#: the output's power isn't good, which is here that it is off.
        const POWER_NOT_GOOD = 0x0800;
        /// Bit 10, never set here: a fault or warning of a fan.
        const FANS = 0x0400;
        /// Bit 9, never set here: a bit of STATUS_OTHER is set.
        const OTHER = 0x0200;
        /// Bit 8, never set here: a fault that no other bit names.
        const UNKNOWN = 0x0100;
        /// Bit 7, never set here: BUSY of STATUS_BYTE.
        const BUSY = 0x0080;
        /// Bit 6: OFF of STATUS_BYTE.
        const OFF = 0x0040;
        /// Bit 5, never set here: VOUT_OV_FAULT of STATUS_BYTE.
        const VOUT_OV_FAULT = 0x0020;
        /// Bit 4, never set here: IOUT_OC_FAULT of STATUS_BYTE.
        const IOUT_OC_FAULT = 0x0010;
        /// Bit 3, never set here: VIN_UV_FAULT of STATUS_BYTE.
        const VIN_UV_FAULT = 0x0008;
        /// Bit 2, never set here: TEMPERATURE of STATUS_BYTE.
        const TEMPERATURE = 0x0004;
        /// Bit 1: CML of STATUS_BYTE.
        const CML = 0x0002;
        /// Bit 0: NONE OF THE ABOVE of STATUS_BYTE.
        const NONE_OF_THE_ABOVE = 0x0001;
    }
}

impl Flags for StatusWord {
    type Bits = u16;

    ghost exact = { ⊤ };

    ghost table = { (codes "VOUT", 0x8000) ∷ (codes "IOUT_POUT", 0x4000) ∷ (codes "INPUT", 0x2000)
        ∷ (codes "MFR_SPECIFIC", 0x1000) ∷ (codes "POWER_NOT_GOOD", 0x0800)
        ∷ (codes "FANS", 0x0400) ∷ (codes "OTHER", 0x0200) ∷ (codes "UNKNOWN", 0x0100)
        ∷ (codes "BUSY", 0x0080) ∷ (codes "OFF", 0x0040) ∷ (codes "VOUT_OV_FAULT", 0x0020)
        ∷ (codes "IOUT_OC_FAULT", 0x0010) ∷ (codes "VIN_UV_FAULT", 0x0008)
        ∷ (codes "TEMPERATURE", 0x0004) ∷ (codes "CML", 0x0002)
        ∷ (codes "NONE_OF_THE_ABOVE", 0x0001) ∷ [] };

    ghost set_of = { λ s. s.0 };

    fn flags<'a>() -> &'a [Flag<StatusWord>] {
        StatusWord::FLAGS
    }

    fn bits(&self) -> u16 {
        self.0
    }

    fn from_bits_retain(bits: u16) -> StatusWord {
        StatusWord(bits)
    }
}

/// What STATUS_BYTE and STATUS_WORD are made of.
#[derive(Clone, Copy)]
pub(crate) struct OutputStatus {
    /// OPERATION has the output off.
    pub(crate) off: bool,
    /// A bit of STATUS_CML is set.
    pub(crate) cml: bool,
    /// A bit of the output's STATUS_VOUT is set.
    pub(crate) vout: bool,
}

impl StatusByte {
    /// STATUS_BYTE of an output with this status.
    pub(crate) fn new(shown: OutputStatus) -> StatusByte
        ensures { result.0 ≡ bit_if_set 0x40 shown.off + bit_if_set 0x02 shown.cml + bit_if_set 0x01 shown.vout }
    {
        let mut status = StatusByte::empty();
        status.set(StatusByte::OFF, shown.off);
        status.set(StatusByte::CML, shown.cml);
        status.set(StatusByte::NONE_OF_THE_ABOVE, shown.vout);
        status
    }
}

impl StatusWord {
    /// STATUS_WORD of an output with this status.
    pub(crate) fn new(shown: OutputStatus) -> StatusWord
        ensures { result.0 ≡ bit_if_set 0x40 shown.off + bit_if_set 0x02 shown.cml + bit_if_set 0x01 shown.vout
            + bit_if_set 0x8000 shown.vout + bit_if_set 0x0800 shown.off }
    {
        let mut status = StatusWord::empty();
        status.set(StatusWord::OFF, shown.off);
        status.set(StatusWord::CML, shown.cml);
        status.set(StatusWord::NONE_OF_THE_ABOVE, shown.vout);
        status.set(StatusWord::VOUT, shown.vout);
        status.set(StatusWord::POWER_NOT_GOOD, shown.off);
        status
    }
}

impl StatusVout {
    /// What an output shows whose selected value was above VOUT_MAX or below VOUT_MIN, or wasn't.
    pub(crate) fn new(cut: bool) -> StatusVout
        ensures { result.0 ≡ bit_if_set 0x08 cut }
    {
        let mut status = StatusVout::empty();
        status.set(StatusVout::MAX_WARNING, cut);
        status
    }
}
