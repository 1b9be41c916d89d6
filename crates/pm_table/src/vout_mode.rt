//! What a byte of VOUT_MODE says of an output's words.

ghost use Rattle.std.specs.Prelude.{◌≡◌, ◌<◌, IfOk};
ghost use Rattle.pm_num.specs.Formats.{IsExponent};
ghost use Rattle.pm_table.specs.VoutMode.{mode_of, exponent_of, IsMode};

use crate::fault::TableFault;

/// What a VOUT_MODE byte says of the words of an output's voltages (PMBus 1.3 Part II, VOUT_MODE).
#[derive(Clone, Copy, Debug, PartialEq, Eq)]
pub enum VoutMode {
    /// ULINEAR16, with its exponent N, -16 to 15: a word V is V * 2^N volts.
    Linear(i8),
    /// DIRECT: a word is read by the device's coefficients.
    Direct,
}

impl VoutMode {
    /// Reads the byte: 00h to 1Fh is ULINEAR16, 40h DIRECT. Refuses every other byte, by the first that
    /// applies: C3 if bit 7 is 1, C1 if bits 6:5 are 01, C2 if they are 11, C4 if they are 10 and bits 4:0
    /// aren't 0.
    pub fn read(byte: u8) -> Result<VoutMode, TableFault>
        ensures mode { result ≡ mode_of byte }
        ensures range { IfOk result IsMode }
    {
        match byte >> 5 {
            0 => Ok(VoutMode::Linear(exponent(byte % 32))),
            1 => Err(TableFault::VidMode),
            2 if byte % 32 == 0 => Ok(VoutMode::Direct),
            2 => Err(TableFault::BadParameter),
            3 => Err(TableFault::HalfMode),
            _ => Err(TableFault::RelativeMode),
        }
    }
}

/// As [`VoutMode::read`].
impl TryFrom<u8> for VoutMode {
    type Error = TableFault;

    ghost try_from_gives = { λ byte r. r ≡ mode_of byte };

    fn try_from(byte: u8) -> Result<VoutMode, TableFault> {
        VoutMode::read(byte)
    }
}

// Five bits as a two's complement number.
fn exponent(bits: u8) -> i8
    requires { bits < 32 }
    ensures value { result ≡ exponent_of bits }
    ensures range { IsExponent result }
{
    if bits < 16 {
        bits as i8
    } else {
        bits as i8 - 32
    }
}
