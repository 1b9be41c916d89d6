//! How each fault shows: as programs print it.

use crate::checks::prints;
use pm_frame::FrameFault;
use pm_table::TableFault;
use std::alloc::AllocError;

static FRAMES: [(FrameFault, &str); 8] = [
    (FrameFault::NotOurs, "F1 NotOurs"),
    (FrameFault::Short(7), "F2 Short 7"),
    (FrameFault::Long(8), "F3 Long 8"),
    (FrameFault::WrongCount(2), "F4 WrongCount 2"),
    (FrameFault::WrongPec(7), "F5 WrongPec 7"),
    (FrameFault::UnknownCode(1), "F6 UnknownCode 1"),
    (FrameFault::WrongDirection(4), "F7 WrongDirection 4"),
    (FrameFault::Nested(4), "F8 Nested 4"),
];

static TABLES: [(TableFault, &str); 4] = [
    (TableFault::VidMode, "C1 VidMode"),
    (TableFault::HalfMode, "C2 HalfMode"),
    (TableFault::RelativeMode, "C3 RelativeMode"),
    (TableFault::BadParameter, "C4 BadParameter"),
];

#[test]
fn each_fault_shows_its_words_and_its_place(rt: HostRuntime) -> Result<(), AllocError> {
    for (row, (fault, wanted)) in FRAMES.iter().enumerate() {
        prints(&rt, row, fault, wanted)?;
    }
    for (row, (fault, wanted)) in TABLES.iter().enumerate() {
        prints(&rt, row, fault, wanted)?;
    }
    Ok(())
}
