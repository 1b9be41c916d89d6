//! The example of the root.

use super::calls::CONFIG;
use super::checks::equal;
use crate::events::{pm_part_hear, pm_part_new};
use crate::reply_image::ReplyImage;
use pm_device::{ConfigImage, PartImage};

// A write of 3.3 V for VOUT_COMMAND of output 0, and the request for it, which a repeated start ends.
fn answered(part: &mut PartImage, config: &ConfigImage, reply: &mut ReplyImage) -> [u8; 3] {
    let made = pm_part_new(part, config); // 0
    let write = &[0xB0, 0x05, 0x04, 0x00, 0x21, 0xCD, 0x34, 0x5A];
    let taken = pm_part_hear(part, write, 0, reply); // 82h
    let request = &[0xB0, 0x06, 0x02, 0x00, 0x21];
    let told = pm_part_hear(part, request, 1, reply); // 83h, and in reply: B1 02 CD 34 B9
    [made, taken, told]
}

#[test]
fn the_example_of_the_root_runs(rt: HostRuntime) {
    let mut part = PartImage::blank();
    let mut reply = ReplyImage {
        length: 9,
        frame_fault: 9,
        bytes: [9; 16],
    };
    equal(
        &rt,
        &answered(&mut part, &CONFIG, &mut reply),
        &[0, 0x82, 0x83],
        &1,
    );
    equal(
        &rt,
        &(reply.length, reply.bytes[2], reply.bytes[3]),
        &(5, 0xCD, 0x34),
        &2,
    );
}
