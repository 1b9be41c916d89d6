//! Limits of an output that allow the start words of a usual part.

ghost use Rattle.std.specs.Prelude.{pos};
ghost use Rattle.pm_world.specs.Limited.{StartsWithin};

use pm_device::{Config, OutputStart};
use pm_table::Coefficients;

// ULINEAR16 with N = -12, on, 1 V asked for, margins at 1.0625 V and 0.9375 V, at least 0 V and at most 4 V.
const OUTPUT: OutputStart = OutputStart {
    mode: 0x14,
    operation: 0x80,
    command: 0x1000,
    max: 0x4000,
    high: 0x1100,
    low: 0x0F00,
    ..OutputStart::NONE
};

/// Limits of 0.9 V and 1.1 V allow the start words of the first output, though its VOUT_MAX and VOUT_MIN lie beyond them:
/// what it may be made to command lies within.
pub fn a_part_within_limits() -> Config
    ensures { StartsWithin result 0 (record { least = pos 900000; most = pos 1100000 }) }
{
    Config {
        addr: 0x58,
        count: 2,
        starts: [OUTPUT; 8],
        protect: 0x00,
        coefficients: Coefficients { m: 1, b: 0, r: 0 },
    }
}
