//! The formats of the outputs' voltages, by a configuration.

ghost use Rattle.std.specs.Prelude.{◌≡◌, ◌<◌};
ghost use Rattle.pm_num.specs.AnyFormat.{shape_of};
ghost use Rattle.pm_device.specs.Held.{shape_for};
ghost use Rattle.pm_device.specs.Start.{AreFormats};

use crate::config::Config;
use pm_model::Formats;
use pm_num::AnyFormat;
use pm_table::{VoutMode, format_of};

/// The formats of the outputs' voltages.
pub(crate) fn formats_of(config: &Config) -> Formats
    ensures { AreFormats config.now result.each }
{
    let each = std::array::from_fn(|output| format_at(config, output));
    Formats {
        count: config.count,
        each,
    }
}

// The format of an output's voltages; LINEAR11 if VOUT_MODE and the coefficients name none.
#[tactic(auto, unfolding(crate::specs::Held::shape_for))]
fn format_at(config: &Config, output: usize) -> AnyFormat
    requires { output < 8 }
    ensures { shape_of result ≡ shape_for config.now output }
{
    match VoutMode::read(config.starts[output].mode) {
        Ok(mode) => format_of(mode, config.coefficients).unwrap_or(AnyFormat::Linear11),
        Err(_) => AnyFormat::Linear11,
    }
}
