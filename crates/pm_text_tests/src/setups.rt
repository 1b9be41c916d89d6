//! Scenarios whose setup is refused, and what is said of each.

use crate::checks::{is_true, joined};
use crate::run::run_on;
use std::process::Abort;
use std::test::Fail;

// A scenario that begins so and has these outputs is refused with these words.
fn is_refused_setup(
    rt: &(impl Abort + AllocGlobal),
    head: String,
    outputs: &[&str],
    words: &str,
) -> Result<(), Fail> {
    let mut text = head;
    for output in outputs {
        text.push_str("output ")?;
        text.push_str(output)?;
        text.push_str("\n")?;
    }
    text.push_str("begin\n")?;
    let errors = joined(rt.alloc(), &["pmb: X7 Setup ", words, "\n"])?;
    let found = run_on(rt.alloc(), &["pmb", "replay"], text.as_str());
    is_true(rt, found.is(1, "", errors.as_str()), &words);
    Ok(())
}

// Lines of an output.
const USUAL: &str = "14 80 1000 4000 1100 0F00";

const VID: &str = "21 80 1000 4000 1100 0F00";

const HALF: &str = "60 80 1000 4000 1100 0F00";

const RELATIVE: &str = "94 80 1000 4000 1100 0F00";

const PARAMETER: &str = "41 80 1000 4000 1100 0F00";

const DIRECT: &str = "40 80 1000 4000 1100 0F00";

const UNDEFINED: &str = "14 B0 1000 4000 1100 0F00";

/// The address, the passes, the protection, the coefficients and the outputs, and what is said.
#[rattlefmt::skip]
static SETUPS: [(&str, &str, &str, &str, &[&str], &str); 15] = [
    ("58", "2", "00", "1 0 0", &[], "V1 OutputCount"),
    ("58", "2", "00", "1 0 0", &[USUAL; 9], "V1 OutputCount"),
    ("58", "2", "00", "1 0 0", &[UNDEFINED], "V2 BadStart 0 OPERATION"),
    ("58", "2", "00", "1 0 0", &[USUAL, USUAL, USUAL, USUAL, USUAL, USUAL, USUAL, UNDEFINED],
        "V2 BadStart 7 OPERATION"),
    ("58", "2", "10", "1 0 0", &[USUAL], "V2 BadStart WRITE_PROTECT"),
    ("07", "2", "00", "1 0 0", &[USUAL], "V3 Address"),
    ("78", "2", "00", "1 0 0", &[USUAL], "V3 Address"),
    ("58", "2", "00", "1 0 0", &[VID], "V4 BadMode 0 C1 VidMode"),
    ("58", "2", "00", "1 0 0", &[USUAL, HALF], "V4 BadMode 1 C2 HalfMode"),
    ("58", "2", "00", "1 0 0", &[RELATIVE], "V4 BadMode 0 C3 RelativeMode"),
    ("58", "2", "00", "1 0 0", &[USUAL, USUAL, PARAMETER], "V4 BadMode 2 C4 BadParameter"),
    ("58", "2", "00", "0 0 0", &[DIRECT], "V5 BadCoefficients N1 ZeroSlope"),
    ("58", "2", "00", "1 0 13", &[DIRECT], "V5 BadCoefficients N2 ExponentRange"),
    ("58", "0", "00", "1 0 0", &[USUAL], "H2 Passes"),
    ("58", "16", "00", "1 0 0", &[USUAL], "H2 Passes"),
];

#[test]
fn a_refused_setup_is_told(rt: HostRuntime) -> Result<(), Fail> {
    for &(address, passes, protect, coefficients, outputs, words) in &SETUPS {
        #[rattlefmt::skip]
        let head = [
            "scenario 1\naddress ", address, "\npasses ", passes, "\nprotect ", protect,
            "\ncoefficients ", coefficients, "\n",
        ];
        let text = joined(rt.alloc(), &head)?;
        is_refused_setup(&rt, text, outputs, words)?;
    }
    Ok(())
}
