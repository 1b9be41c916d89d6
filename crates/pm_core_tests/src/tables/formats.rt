//! The format of a mode.
ghost use Rattle.pm_table.specs.VoutMode.{IsMode};

use crate::checks::agrees;
use pm_num::{NumFault, NumFormat};
use pm_table::{Coefficients, VoutMode, format_of};

#[rattlefmt::skip]
static ROWS: [((i16, i16, i8), Option<NumFault>); 8] = [
    ((1, 0, 3), None), ((-1, 5, 12), None), ((-32768, 32767, -12), None),
    ((0, 5, 3), Some(NumFault::ZeroSlope)), ((0, 0, 13), Some(NumFault::ZeroSlope)),
    ((1, 0, 13), Some(NumFault::ExponentRange)), ((1, 0, -13), Some(NumFault::ExponentRange)),
    ((-1, 0, 127), Some(NumFault::ExponentRange)),
];

// Why a mode has no format with these coefficients.
fn fault_of(mode: VoutMode, m: i16, b: i16, r: i8) -> Option<NumFault>
    requires { IsMode mode }
{
    format_of(mode, Coefficients { m, b, r }).err()
}

// The value of 34CDh in a mode, with millivolts for the direct one.
fn value_in(mode: VoutMode) -> Result<(i128, i128), NumFault>
    requires { IsMode mode }
{
    match format_of(mode, Coefficients { m: 1, b: 0, r: 3 }) {
        Ok(format) => {
            let value = format.value_of(0x34CD);
            Ok((value.num(), value.den()))
        }
        Err(fault) => Err(fault),
    }
}

#[test]
fn a_mode_has_its_format(rt: HostRuntime) {
    // A mode of DIRECT takes the coefficients, and a linear one ignores them.
    for (row, ((m, b, r), fault)) in ROWS.iter().enumerate() {
        agrees(&rt, row, &fault_of(VoutMode::Direct, *m, *b, *r), fault);
        let linear = fault_of(VoutMode::Linear(-12), *m, *b, *r);
        agrees(&rt, row, &linear, &None);
    }
    // 34CDh is 13517 * 2^-12, and 13517 millivolts.
    let fine = value_in(VoutMode::Linear(-12));
    agrees(&rt, 0, &fine, &Ok((13_517, 4096)));
    let coarse = value_in(VoutMode::Linear(15));
    agrees(&rt, 1, &coarse, &Ok((13_517 << 15, 1)));
    let direct = value_in(VoutMode::Direct);
    agrees(&rt, 2, &direct, &Ok((13_517, 1000)));
}
