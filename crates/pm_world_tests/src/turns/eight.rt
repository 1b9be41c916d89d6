//! Eight outputs, each with a format of its own.

use super::goes;
use crate::checks::equal;
use crate::fixtures::takes;
use crate::look::Look;
use crate::{NOT_ACKED, READ, READ_LOST};
use pm_core_tests::OUTPUT;
use pm_device::{Config, OutputStart};
use pm_host::{HostFault, JobEnd};
use pm_table::{Cell, Coefficients, Reg};
use pm_world::{Cause, Event, SetupFault, World};

// Eight outputs in ULINEAR16, with N from -12 to -5.
const EIGHT: Config = Config {
    addr: 0x58,
    count: 8,
    starts: [
        OUTPUT,
        with! { OutputStart, OUTPUT; mode: 0x15 },
        with! { OutputStart, OUTPUT; mode: 0x16 },
        with! { OutputStart, OUTPUT; mode: 0x17 },
        with! { OutputStart, OUTPUT; mode: 0x18 },
        with! { OutputStart, OUTPUT; mode: 0x19 },
        with! { OutputStart, OUTPUT; mode: 0x1A },
        with! { OutputStart, OUTPUT; mode: 0x1B },
    ],
    protect: 0x00,
    coefficients: Coefficients { m: 1, b: 0, r: 0 },
};

fn eight() -> Config {
    EIGHT
}

// The request of VOUT_MODE of each, and the write of 1 V in its format.
#[rattlefmt::skip]
static LEARNS: [(&str, &str); 8] = [
    ("B0 06 02 00 20", "B0 05 04 00 21 00 10 A2"), ("B0 06 02 01 20", "B0 05 04 01 21 00 08 FC"),
    ("B0 06 02 02 20", "B0 05 04 02 21 00 04 E2"), ("B0 06 02 03 20", "B0 05 04 03 21 00 02 E6"),
    ("B0 06 02 04 20", "B0 05 04 04 21 00 01 8D"), ("B0 06 02 05 20", "B0 05 04 05 21 80 00 2A"),
    ("B0 06 02 06 20", "B0 05 04 06 21 40 00 FD"), ("B0 06 02 07 20", "B0 05 04 07 21 20 00 1E"),
];

#[test]
fn each_of_eight_outputs_has_a_format_of_its_own(rt: HostRuntime) -> Result<(), SetupFault> {
    let mut world = World::begin(eight(), 1)?;
    for (output, (request, _)) in (0..8).zip(LEARNS.iter().copied()) {
        goes(&rt, &mut world, &Event::Learn(output), request);
        goes(&rt, &mut world, &READ, "");
        equal(&rt, &world.ended(), &Some(JobEnd::Learned), &1);
    }
    for (output, (_, write)) in (0..8).zip(LEARNS.iter().copied()) {
        let volt = Event::OrderMicro(Cell::Out(output, Reg::VoutCommand), 1_000_000);
        goes(&rt, &mut world, &volt, write);
        takes(&rt, &mut world, &[NOT_ACKED, READ_LOST]);
    }
    // The host's restart forgets each of them.
    goes(&rt, &mut world, &Event::RestartHost, "");
    for output in 0..8 {
        let volt = Event::OrderMicro(Cell::Out(output, Reg::VoutCommand), 1_000_000);
        let unknown = Err(Cause::Host(HostFault::FormatUnknown));
        equal(&rt, &world.meets(&volt), &unknown, &output);
    }
    Ok(())
}
