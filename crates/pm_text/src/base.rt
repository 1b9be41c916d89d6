//! The converter at the other end, if no scenario says which.
ghost use Rattle.std.specs.Prelude.{◌≡◌};
ghost use Rattle.pm_device.specs.History.{start_of};
ghost use Rattle.pm_text.specs.Base.{base};

use pm_device::{Config, Converter, OutputStart};
use pm_table::Coefficients;

/// How each output of the base configuration starts: ULINEAR16 with N = -12, on, 1 V asked for, at
/// least 0 V and at most 4 V.
const OUTPUT: OutputStart = OutputStart {
    mode: 0x14,
    operation: 0x80,
    command: 0x1000,
    max: 0x4000,
    high: 0x1100,
    low: 0x0F00,
    ..OutputStart::NONE
};

/// A fresh converter of the base configuration: two outputs at address 58h, and no write blocked.
#[tactic(auto, unfolding(crate::specs::Base::base, pm_device::specs::Start::config_fault))]
pub fn base_converter() -> Converter
    ensures { result ≡ start_of base }
{
    let Ok(converter) = Converter::new(base_config()) else {
        unreachable!()
    };
    converter
}

// The base configuration.
#[tactic(auto, unfolding(crate::specs::Base::base))]
fn base_config() -> Config
    ensures { result ≡ base }
{
    Config {
        addr: 0x58,
        count: 2,
        starts: [OUTPUT; 8],
        protect: 0x00,
        coefficients: Coefficients { m: 1, b: 0, r: 0 },
    }
}
