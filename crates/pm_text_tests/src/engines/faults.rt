//! The faults of texts: their words, what stands beside them, and how they show.

use crate::checks::{equal, printed};
use pm_device::ConfigFault;
use pm_host::HostFault;
use pm_num::NumFault;
use pm_table::{Cell, Reg, TableFault};
use pm_text::TextFault;
use pm_world::SetupFault;
use std::process::Abort;
use std::test::Fail;

// A fault's words, its line, if it has one, how it shows, and whether it has a setup's fault.
fn is_told(
    rt: &(impl Abort + AllocGlobal),
    fault: TextFault,
    words: &str,
    line: Option<u64>,
    text: &str,
) -> Result<(), Fail> {
    equal(rt, &fault.words(), &words, &1);
    equal(rt, &fault.line(), &line, &text);
    let shown = printed(rt.alloc(), &fault, "")?;
    equal(rt, &shown.as_str(), &text, &2);
    equal(rt, &fault.setup().is_some(), &(words == "X7 Setup"), &text);
    Ok(())
}

#[rattlefmt::skip]
static TEXT_FAULTS: [(TextFault, &str, Option<u64>, &str); 12] = [
    (TextFault::Syntax(2), "X1 Syntax", Some(2), "X1 Syntax line 2"),
    (TextFault::BadHex(3), "X2 BadHex", Some(3), "X2 BadHex line 3"),
    (TextFault::TooLong, "X3 TooLong", None, "X3 TooLong"),
    (TextFault::Read, "X4 Read", None, "X4 Read"),
    (TextFault::Write, "X5 Write", None, "X5 Write"),
    (TextFault::Memory, "X6 Memory", None, "X6 Memory"),
    (TextFault::Setup(SetupFault::Device(ConfigFault::OutputCount)), "X7 Setup", None,
        "X7 Setup V1 OutputCount"),
    (TextFault::Setup(SetupFault::Device(ConfigFault::BadStart(Cell::Out(0, Reg::Operation)))),
        "X7 Setup", None, "X7 Setup V2 BadStart 0 OPERATION"),
    (TextFault::Setup(SetupFault::Device(ConfigFault::Address)), "X7 Setup", None,
        "X7 Setup V3 Address"),
    (TextFault::Setup(SetupFault::Device(ConfigFault::BadMode(7, TableFault::HalfMode))),
        "X7 Setup", None, "X7 Setup V4 BadMode 7 C2 HalfMode"),
    (TextFault::Setup(SetupFault::Device(ConfigFault::BadCoefficients(NumFault::ZeroSlope))),
        "X7 Setup", None, "X7 Setup V5 BadCoefficients N1 ZeroSlope"),
    (TextFault::Setup(SetupFault::Host(HostFault::Passes)), "X7 Setup", None, "X7 Setup H2 Passes"),
];

#[test]
fn each_fault_of_a_text_has_its_words(rt: HostRuntime) -> Result<(), Fail> {
    for &(fault, words, line, text) in &TEXT_FAULTS {
        is_told(&rt, fault, words, line, text)?;
    }
    let passes = SetupFault::Host(HostFault::Passes);
    equal(&rt, &TextFault::Setup(passes).setup(), &Some(passes), &1);
    Ok(())
}
