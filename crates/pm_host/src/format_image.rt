//! The bytes by which a host learned an output's format.

ghost use Rattle.std.specs.Prelude.{◌≡◌, ◌<◌, length, Some, option_map};
ghost use Rattle.std.specs.Result.{result_ok};
ghost use Rattle.pm_num.specs.AnyFormat.{shape_of, voltage_shape, InUlinear16};
ghost use Rattle.pm_table.specs.Coefficients.{coefficients_of};
ghost use Rattle.pm_table.specs.Format.{shape_in};
ghost use Rattle.pm_table.specs.VoutMode.{exponent_of};
ghost use Rattle.pm_host.specs.Image.{format_held};
ghost use Rattle.pm_host.specs.Memory.{IsFormatImage};

use pm_num::{AnyFormat, Ulinear16, VoltageFormat};
use pm_table::{Coefficients, VoutMode, voltage_format_of};

/// What a host learned of the format of an output's voltages: the bytes that the device answered.
#[repr(C)]
#[derive(Clone, Copy, Debug, PartialEq, Eq)]
pub struct FormatImage {
    /// The byte of VOUT_MODE; FFh, which names no format, if none is known.
    pub mode: u8,
    /// The five bytes of COEFFICIENTS if the mode is DIRECT; otherwise FFh each.
    pub coefficients: [u8; 5],
}

impl FormatImage {
    // The byte of VOUT_MODE that names DIRECT.
    const DIRECT: u8 = 0x40;

    /// None is known.
    pub(crate) const NONE: FormatImage = FormatImage {
        mode: 0xFF,
        coefficients: [0xFF; 5],
    };

    /// ULINEAR16, by the byte of VOUT_MODE that was read.
    pub(crate) fn linear(mode: u8) -> FormatImage
        requires { mode < 32 }
        ensures held { format_held result ≡ Some (InUlinear16 (exponent_of mode)) }
        ensures written { IsFormatImage result }
    {
        FormatImage {
            mode,
            ..FormatImage::NONE
        }
    }

    /// DIRECT, by the bytes of COEFFICIENTS that were read.
    pub(crate) fn direct(payload: &[u8]) -> FormatImage
        requires { length payload.now ≡ 5 }
        ensures held { format_held result ≡ result_ok (shape_in VoutMode.Direct (coefficients_of payload.now)) }
        ensures written { IsFormatImage result }
    {
        FormatImage {
            mode: FormatImage::DIRECT,
            coefficients: [payload[0], payload[1], payload[2], payload[3], payload[4]],
        }
    }

    /// What the bytes mean.
    pub fn format(&self) -> Option<AnyFormat>
        ensures { option_map shape_of result ≡ format_held self.now }
    {
        self.voltage_format().map(VoltageFormat::any)
    }

    /// What the bytes mean, as one of the two formats that an output may have.
    pub fn voltage_format(&self) -> Option<VoltageFormat>
        ensures { option_map voltage_shape result ≡ format_held self.now }
    {
        if self.mode == FormatImage::DIRECT {
            return voltage_format_of(VoutMode::Direct, Coefficients::read(self.coefficients)).ok();
        }
        match VoutMode::read(self.mode) {
            Ok(VoutMode::Linear(exponent)) => {
                Ulinear16::new(exponent).map(VoltageFormat::Ulinear16)
            }
            _ => None,
        }
    }
}
