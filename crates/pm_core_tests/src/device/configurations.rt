//! Configurations, and the first fault of each that applies.

use crate::checks::equal;
use crate::device_frames::made;
use crate::fixtures::OUTPUT;
use pm_device::{Config, ConfigFault, OutputStart};
use pm_num::NumFault;
use pm_table::{Cell, Coefficients, Reg, TableFault};
use std::process::Abort;

const V1: Option<ConfigFault> = Some(ConfigFault::OutputCount);

// V2 of OPERATION of both outputs, and of WRITE_PROTECT.
const V2_FIRST: Option<ConfigFault> = Some(ConfigFault::BadStart(Cell::Out(0, Reg::Operation)));

const V2_SECOND: Option<ConfigFault> = Some(ConfigFault::BadStart(Cell::Out(1, Reg::Operation)));

const V2_PROTECT: Option<ConfigFault> = Some(ConfigFault::BadStart(Cell::Protect));

const V3: Option<ConfigFault> = Some(ConfigFault::Address);

// V4 of the first output, which is VID, and of the second.
const V4_FIRST: Option<ConfigFault> = Some(ConfigFault::BadMode(0, TableFault::VidMode));

const V4_VID: Option<ConfigFault> = Some(ConfigFault::BadMode(1, TableFault::VidMode));

const V4_HALF: Option<ConfigFault> = Some(ConfigFault::BadMode(1, TableFault::HalfMode));

const V4_RELATIVE: Option<ConfigFault> = Some(ConfigFault::BadMode(1, TableFault::RelativeMode));

const V4_PARAMETER: Option<ConfigFault> = Some(ConfigFault::BadMode(1, TableFault::BadParameter));

const V5_SLOPE: Option<ConfigFault> = Some(ConfigFault::BadCoefficients(NumFault::ZeroSlope));

const V5_EXPONENT: Option<ConfigFault> = Some(ConfigFault::BadCoefficients(
    NumFault::ExponentRange,
));

// A count, OPERATION of the first output and of the others, WRITE_PROTECT, the address, VOUT_MODE of the
// first output and of the others, m and R; and the fault.
#[rattlefmt::skip]
type Row = (u8, [u16; 2], u16, u8, [u8; 2], (i16, i8), Option<ConfigFault>);

// Each fault by itself, then each with each that comes after it, then what is no fault.
#[rattlefmt::skip]
static ROWS: [Row; 44] = [
    (0, [0x80, 0x80], 0x00, 0x58, [0x14, 0x14], (1, 0), V1),
    (9, [0x80, 0x80], 0x00, 0x58, [0x14, 0x14], (1, 0), V1),
    (255, [0x80, 0x80], 0x00, 0x58, [0x14, 0x14], (1, 0), V1),
    (2, [0xB0, 0x80], 0x00, 0x58, [0x14, 0x14], (1, 0), V2_FIRST),
    (2, [0x80, 0x180], 0x00, 0x58, [0x14, 0x14], (1, 0), V2_SECOND),
    (2, [0x80, 0x80], 0x01, 0x58, [0x14, 0x14], (1, 0), V2_PROTECT),
    (2, [0x80, 0x80], 0x00, 0x00, [0x14, 0x14], (1, 0), V3),
    (2, [0x80, 0x80], 0x00, 0x07, [0x14, 0x14], (1, 0), V3),
    (2, [0x80, 0x80], 0x00, 0x78, [0x14, 0x14], (1, 0), V3),
    (2, [0x80, 0x80], 0x00, 0xD8, [0x14, 0x14], (1, 0), V3),
    (2, [0x80, 0x80], 0x00, 0x58, [0x20, 0x14], (1, 0), V4_FIRST),
    (2, [0x80, 0x80], 0x00, 0x58, [0x14, 0x3F], (1, 0), V4_VID),
    (2, [0x80, 0x80], 0x00, 0x58, [0x14, 0x60], (1, 0), V4_HALF),
    (2, [0x80, 0x80], 0x00, 0x58, [0x14, 0x94], (1, 0), V4_RELATIVE),
    (2, [0x80, 0x80], 0x00, 0x58, [0x14, 0xE1], (1, 0), V4_RELATIVE),
    (2, [0x80, 0x80], 0x00, 0x58, [0x14, 0x41], (1, 0), V4_PARAMETER),
    (2, [0x80, 0x80], 0x00, 0x58, [0x40, 0x14], (0, 0), V5_SLOPE),
    (2, [0x80, 0x80], 0x00, 0x58, [0x14, 0x40], (0, 0), V5_SLOPE),
    (2, [0x80, 0x80], 0x00, 0x58, [0x14, 0x40], (1, 13), V5_EXPONENT),
    (2, [0x80, 0x80], 0x00, 0x58, [0x14, 0x40], (1, -13), V5_EXPONENT),
    (9, [0xB0, 0x80], 0x00, 0x58, [0x14, 0x14], (1, 0), V1),
    (0, [0x80, 0x80], 0x01, 0x58, [0x14, 0x14], (1, 0), V1),
    (0, [0x80, 0x80], 0x00, 0x78, [0x14, 0x14], (1, 0), V1),
    (9, [0x80, 0x80], 0x00, 0x58, [0x20, 0x14], (1, 0), V1),
    (9, [0x80, 0x80], 0x00, 0x58, [0x40, 0x14], (0, 0), V1),
    (2, [0xB0, 0xB0], 0x00, 0x58, [0x14, 0x14], (1, 0), V2_FIRST),
    (2, [0x80, 0xB0], 0x01, 0x58, [0x14, 0x14], (1, 0), V2_SECOND),
    (2, [0x80, 0xB0], 0x00, 0x78, [0x14, 0x14], (1, 0), V2_SECOND),
    (2, [0x80, 0xB0], 0x00, 0x58, [0x20, 0x14], (1, 0), V2_SECOND),
    (2, [0x80, 0xB0], 0x00, 0x58, [0x40, 0x14], (0, 0), V2_SECOND),
    (2, [0x80, 0x80], 0x60, 0x07, [0x14, 0x14], (1, 0), V2_PROTECT),
    (2, [0x80, 0x80], 0x60, 0x58, [0x20, 0x14], (1, 0), V2_PROTECT),
    (2, [0x80, 0x80], 0x60, 0x58, [0x40, 0x14], (0, 0), V2_PROTECT),
    (2, [0x80, 0x80], 0x00, 0x78, [0x20, 0x14], (1, 0), V3),
    (2, [0x80, 0x80], 0x00, 0x78, [0x40, 0x14], (0, 0), V3),
    (2, [0x80, 0x80], 0x00, 0x58, [0x20, 0x60], (1, 0), V4_FIRST),
    (2, [0x80, 0x80], 0x00, 0x58, [0x40, 0x20], (0, 0), V4_VID),
    (2, [0x80, 0x80], 0x00, 0x58, [0x14, 0x40], (0, 13), V5_SLOPE),
    (2, [0x80, 0x80], 0x00, 0x58, [0x14, 0x14], (1, 0), None),
    (1, [0x80, 0xB0], 0x20, 0x08, [0x14, 0x20], (0, 13), None),
    (8, [0x00, 0xAB], 0x40, 0x77, [0x00, 0x1F], (0, 13), None),
    (1, [0x80, 0x80], 0x80, 0x58, [0x1F, 0x40], (0, 13), None),
    (2, [0x80, 0x80], 0x00, 0x58, [0x40, 0x14], (1, 12), None),
    (2, [0x80, 0x80], 0x00, 0x58, [0x14, 0x40], (-1, -12), None),
];

// The configuration of a row.
fn configured(row: Row) -> (Config, Option<ConfigFault>) {
    let (count, operations, protect, addr, modes, (m, r), wanted) = row;
    let others = with! { OutputStart, OUTPUT; mode: modes[1], operation: operations[1] };
    let mut starts = [others; 8];
    starts[0].mode = modes[0];
    starts[0].operation = operations[0];
    let config = Config {
        addr,
        count,
        starts,
        protect,
        coefficients: Coefficients { m, b: 0, r },
    };
    (config, wanted)
}

fn has_fault(rt: &impl Abort, row: &Row) {
    let (config, wanted) = configured(*row);
    equal(rt, &made(config).err(), &wanted, &config);
}

#[test]
fn a_configuration_has_the_first_fault_that_applies(rt: HostRuntime) {
    for row in &ROWS {
        has_fault(&rt, row);
    }
}
