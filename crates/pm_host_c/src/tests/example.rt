//! The example of the root.

use super::calls::{NOTHING, no_host};
use super::checks::equal;
use crate::host::{pm_host_new, pm_host_order};
use crate::limits::pm_host_no_limits;
use crate::told::{pm_host_frame, pm_host_read_ended, pm_host_write_ended};
use pm_memory::host_step::HostStep;
use pm_memory::{GuardImage, SendingImage};

// 3.3 V for VOUT_COMMAND of output 0, by a host of a part at address 58h with two outputs.
fn ordered(host: &mut GuardImage, frame: &mut SendingImage) -> HostStep {
    pm_host_new(host, 0x58, 2, 2); // the last number: two passes
    pm_host_no_limits(host, 0); // of output 0 any voltage is ordered
    pm_host_order(host, 0, 0x21, 0x34CD);
    pm_host_frame(host, frame); // a write: B0 05 04 00 21 CD 34 5A
    pm_host_write_ended(host, 0); // no acknowledgement came; the host reads the cell back
    pm_host_frame(host, frame); // a request: B0 06 02 00 21
    pm_host_read_ended(host, &[0xB1, 0x02, 0xCD, 0x34, 0xB9]) // kind 1 Done
}

#[test]
fn the_example_of_the_root_runs(rt: HostRuntime) {
    let mut host = no_host();
    let mut frame = NOTHING;
    let step = ordered(&mut host, &mut frame);
    equal(&rt, &(step.kind, step.word), &(1, 0), &1);
    equal(
        &rt,
        &(frame.kind, frame.length, frame.bytes[1]),
        &(2, 5, 0x06),
        &2,
    );
}
