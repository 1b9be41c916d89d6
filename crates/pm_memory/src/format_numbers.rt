//! A format as callers in C have it.

ghost use Rattle.std.specs.Prelude.{◌≡◌, option_map};
ghost use Rattle.pm_num.specs.AnyFormat.{shape_of};
ghost use Rattle.pm_host.specs.Image.{format_held};
ghost use Rattle.pm_memory.specs.Format.{format_meant, format_numbers, IsFormat};

use pm_host::FormatImage;
use pm_num::{AnyFormat, Direct, Ulinear16};
use pm_table::{Coefficients, VoutMode};

/// A format as callers in C have it, in plain numbers.
#[repr(C)]
#[derive(Clone, Copy, Debug)]
pub struct FormatNumbers {
    /// 1 for ULINEAR16, 2 for DIRECT, 3 for LINEAR11; with any other number no format is known.
    pub kind: u8,
    /// The exponent of ULINEAR16, or R of DIRECT.
    pub exponent: i8,
    /// The slope m of DIRECT.
    pub m: i16,
    /// The offset b of DIRECT.
    pub b: i16,
}

impl FormatNumbers {
    /// None is known.
    const NONE: FormatNumbers = FormatNumbers {
        kind: 0,
        exponent: 0,
        m: 0,
        b: 0,
    };

    /// The numbers of what a host learned.
    pub fn of(learned: &FormatImage) -> FormatNumbers
        ensures { IsFormat (format_held learned.now) result }
    {
        if learned.format().is_none() {
            return FormatNumbers::NONE;
        }
        match VoutMode::read(learned.mode) {
            Ok(VoutMode::Linear(exponent)) => FormatNumbers {
                kind: 1,
                exponent,
                ..FormatNumbers::NONE
            },
            Ok(VoutMode::Direct) => {
                let Coefficients { m, b, r } = Coefficients::read(learned.coefficients);
                FormatNumbers {
                    kind: 2,
                    exponent: r,
                    m,
                    b,
                }
            }
            Err(_) => FormatNumbers::NONE,
        }
    }

    /// What the numbers mean.
    pub fn format(&self) -> Option<AnyFormat>
        ensures { option_map shape_of result ≡ format_meant self.now }
    {
        match self.kind {
            1 => Ulinear16::new(self.exponent).map(AnyFormat::Ulinear16),
            2 => match Direct::new(self.m, self.b, self.exponent) {
                Ok(format) => Some(AnyFormat::Direct(format)),
                Err(_) => None,
            },
            3 => Some(AnyFormat::Linear11),
            _ => None,
        }
    }
}
