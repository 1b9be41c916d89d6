//! The texts of errors: each shows as programs print it.

use crate::checks::equal;
use pm_device::{ConfigFault, DeviceFault};
use pm_frame::FrameFault;
use pm_host::HostFault;
use pm_num::NumFault;
use pm_table::{Cell, Reg, TableFault};
use pm_world::{Cause, SetupFault};
use std::fmt::Display;
use std::process::Abort;
use std::test::Fail;

#[rattlefmt::skip]
static DEVICE: [(DeviceFault, &str); 10] = [
    (DeviceFault::Frame(FrameFault::Short(7)), "K1 Frame F2 Short 7"),
    (DeviceFault::Frame(FrameFault::Long(5)), "K1 Frame F3 Long 5"),
    (DeviceFault::Frame(FrameFault::WrongCount(2)), "K1 Frame F4 WrongCount 2"),
    (DeviceFault::Frame(FrameFault::WrongPec(3)), "K1 Frame F5 WrongPec 3"),
    (DeviceFault::UnsupportedCode, "K2 UnsupportedCode"),
    (DeviceFault::UnsupportedData, "K3 UnsupportedData"),
    (DeviceFault::BadPage, "K4 BadPage"),
    (DeviceFault::Protected, "K5 Protected"),
    (DeviceFault::Nested, "K6 Nested"),
    (DeviceFault::ReadOnly, "K7 ReadOnly"),
];

#[rattlefmt::skip]
static CONFIG: [(ConfigFault, &str); 10] = [
    (ConfigFault::OutputCount, "V1 OutputCount"),
    (ConfigFault::BadStart(Cell::Out(0, Reg::Operation)), "V2 BadStart 0 OPERATION"),
    (ConfigFault::BadStart(Cell::Protect), "V2 BadStart WRITE_PROTECT"),
    (ConfigFault::Address, "V3 Address"),
    (ConfigFault::BadMode(3, TableFault::VidMode), "V4 BadMode 3 C1 VidMode"),
    (ConfigFault::BadMode(0, TableFault::HalfMode), "V4 BadMode 0 C2 HalfMode"),
    (ConfigFault::BadMode(7, TableFault::RelativeMode), "V4 BadMode 7 C3 RelativeMode"),
    (ConfigFault::BadMode(1, TableFault::BadParameter), "V4 BadMode 1 C4 BadParameter"),
    (ConfigFault::BadCoefficients(NumFault::ZeroSlope), "V5 BadCoefficients N1 ZeroSlope"),
    (ConfigFault::BadCoefficients(NumFault::ExponentRange), "V5 BadCoefficients N2 ExponentRange"),
];

static HOST: [(HostFault, &str); 10] = [
    (HostFault::OutputCount, "H1 OutputCount"),
    (HostFault::Passes, "H2 Passes"),
    (HostFault::Busy, "H3 Busy"),
    (HostFault::UnknownOutput, "H4 UnknownOutput"),
    (HostFault::BadWord, "H5 BadWord"),
    (HostFault::TooUncertain, "H6 TooUncertain"),
    (HostFault::FormatUnknown, "H7 FormatUnknown"),
    (HostFault::Num(NumFault::BelowLeast), "N3 BelowLeast"),
    (HostFault::Num(NumFault::AboveGreatest), "N4 AboveGreatest"),
    (HostFault::Num(NumFault::TooLarge), "N5 TooLarge"),
];

#[rattlefmt::skip]
static CAUSES: [(Cause, &str); 6] = [
    (Cause::NotBetrayed, "S1 NotBetrayed"), (Cause::NothingSent, "S2 NothingSent"),
    (Cause::WrongKind, "S3 WrongKind"),
    (Cause::Host(HostFault::Busy), "S4 Host H3 Busy"),
    (Cause::Host(HostFault::Num(NumFault::TooLarge)), "S4 Host N5 TooLarge"),
    (Cause::Full, "S5 Full"),
];

static SETUP: [(SetupFault, &str); 3] = [
    (SetupFault::Device(ConfigFault::Address), "V3 Address"),
    (
        SetupFault::Device(ConfigFault::BadCoefficients(NumFault::ZeroSlope)),
        "V5 BadCoefficients N1 ZeroSlope",
    ),
    (SetupFault::Host(HostFault::Passes), "H2 Passes"),
];

// Each fault of a table is printed as its text.
fn are_told<T: Display>(rt: &(impl Abort + AllocGlobal), table: &[(T, &str)]) -> Result<(), Fail> {
    for (fault, text) in table {
        equal(rt, &fault.to_string(rt.alloc())?.as_str(), text, text);
    }
    Ok(())
}

#[test]
fn each_fault_has_its_text(rt: HostRuntime) -> Result<(), Fail> {
    are_told(&rt, &DEVICE)?;
    are_told(&rt, &CONFIG)?;
    are_told(&rt, &HOST)?;
    are_told(&rt, &CAUSES)?;
    are_told(&rt, &SETUP)
}
