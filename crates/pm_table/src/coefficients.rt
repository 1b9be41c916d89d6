//! The coefficients of DIRECT, and the format that they give.

ghost use Rattle.std.specs.Prelude.{◌≡◌};
ghost use Rattle.pm_table.specs.VoutMode.{IsMode};
ghost use Rattle.pm_table.specs.Format.{shape_in, shape_seen, voltage_shape_seen};

use crate::vout_mode::VoutMode;
use pm_num::{AnyFormat, Direct, NumFault, Ulinear16, VoltageFormat};

/// The format of the voltages of an output with this VOUT_MODE, at a device with these coefficients (PMBus
/// 1.3 Part II, VOUT_MODE and COEFFICIENTS). A `Linear` exponent is -16 to 15, as `VoutMode::read` gives it;
/// the coefficients mean nothing there. `Err` comes only for DIRECT: N1 if the slope m is 0, otherwise N2 if
/// R isn't from -12 to 12.
pub fn format_of(mode: VoutMode, c: Coefficients) -> Result<AnyFormat, NumFault>
    requires { IsMode mode }
    ensures { shape_seen result ≡ shape_in mode c }
{
    match voltage_format_of(mode, c) {
        Ok(format) => Ok(format.any()),
        Err(fault) => Err(fault),
    }
}

/// The format that [`format_of`] gives, as one of the two that an output may have. It refuses what that refuses.
pub fn voltage_format_of(mode: VoutMode, c: Coefficients) -> Result<VoltageFormat, NumFault>
    requires { IsMode mode }
    ensures { voltage_shape_seen result ≡ shape_in mode c }
{
    match mode {
        VoutMode::Linear(n) => match Ulinear16::new(n) {
            Some(format) => Ok(VoltageFormat::Ulinear16(format)),
            None => unreachable!(),
        },
        VoutMode::Direct => Ok(VoltageFormat::Direct(Direct::new(c.m, c.b, c.r)?)),
    }
}

/// The coefficients of the DIRECT format: a word Y is (m * X + b) * 10^R for a value of X volts
/// (PMBus 1.3 Part II, COEFFICIENTS).
#[derive(Clone, Copy, Debug, PartialEq, Eq)]
pub struct Coefficients {
    /// The slope.
    pub m: i16,
    /// The offset.
    pub b: i16,
    /// The exponent of ten, R.
    pub r: i8,
}

impl Coefficients {
    ghost use Rattle.pm_table.specs.Coefficients.{coefficients_of, coefficient_bytes};

    /// Reads the five bytes that COEFFICIENTS answers: m low, m high, b low, b high, R, in two's
    /// complement.
    pub fn read(bytes: [u8; 5]) -> Coefficients
        ensures { result ≡ coefficients_of bytes }
    {
        let [m_low, m_high, b_low, b_high, r] = bytes;
        Coefficients {
            m: i16::from_le_bytes([m_low, m_high]),
            b: i16::from_le_bytes([b_low, b_high]),
            r: i8::from_le_bytes([r]),
        }
    }

    /// The five bytes that COEFFICIENTS answers; `read` gives the same coefficients again.
    pub fn bytes(&self) -> [u8; 5]
        ensures bytes { result ≡ coefficient_bytes self.now }
        ensures again { coefficients_of result ≡ self.now }
    {
        let [m_low, m_high] = self.m.to_le_bytes();
        let [b_low, b_high] = self.b.to_le_bytes();
        let [r] = self.r.to_le_bytes();
        [m_low, m_high, b_low, b_high, r]
    }
}

/// As [`Coefficients::read`].
impl From<[u8; 5]> for Coefficients {
    ghost use Rattle.pm_table.specs.Coefficients.{coefficients_of};

    ghost from_gives = { λ bytes c. c ≡ coefficients_of bytes };

    fn from(bytes: [u8; 5]) -> Coefficients {
        Coefficients::read(bytes)
    }
}

/// As [`Coefficients::bytes`].
impl From<Coefficients> for [u8; 5] {
    ghost use Rattle.pm_table.specs.Coefficients.{coefficient_bytes};

    ghost from_gives = { λ c bytes. bytes ≡ coefficient_bytes c };

    fn from(coefficients: Coefficients) -> [u8; 5] {
        coefficients.bytes()
    }
}
