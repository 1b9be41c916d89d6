//! What tests begin from: a configuration, its words and its cells.

use pm_device::{Config, OutputStart};
use pm_table::{Cell, Coefficients, Reg};

/// An output that is on, asks for 1 V and allows 4 V, margins at 1.0625 V and 0.9375 V, in ULINEAR16
/// with N = -12.
pub const OUTPUT: OutputStart = OutputStart {
    mode: 0x14,
    operation: 0x80,
    command: 0x1000,
    max: 0x4000,
    high: 0x1100,
    low: 0x0F00,
    min: 0x0000,
};

/// The words of such an output, as the settings and the order machine take them.
pub const START: [u16; 6] = [0x80, 0x1000, 0x4000, 0x1100, 0x0F00, 0x0000];

/// Two such outputs at address 58h, and no write blocked.
pub const BASE: Config = Config {
    addr: 0x58,
    count: 2,
    starts: [OUTPUT; 8],
    protect: 0x00,
    coefficients: Coefficients { m: 1, b: 0, r: 0 },
};

/// VOUT_COMMAND of the first output.
pub const FIRST: Cell = Cell::Out(0, Reg::VoutCommand);

/// VOUT_COMMAND of the second output.
pub const SECOND: Cell = Cell::Out(1, Reg::VoutCommand);

/// Every cell of two outputs.
#[rattlefmt::skip]
pub const CELLS: [Cell; 13] = [
    Cell::Out(0, Reg::Operation), FIRST, Cell::Out(0, Reg::VoutMax), Cell::Out(0, Reg::MarginHigh),
    Cell::Out(0, Reg::MarginLow), Cell::Out(0, Reg::VoutMin), Cell::Out(1, Reg::Operation), SECOND,
    Cell::Out(1, Reg::VoutMax), Cell::Out(1, Reg::MarginHigh), Cell::Out(1, Reg::MarginLow),
    Cell::Out(1, Reg::VoutMin), Cell::Protect,
];
