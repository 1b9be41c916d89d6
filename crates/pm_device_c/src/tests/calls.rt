//! Each call by value: what it answers, and what it wrote.

use crate::asked::{
    pm_part_commanded_microvolts, pm_part_on_state, pm_part_page, pm_part_stored_word, pm_part_word,
};
use crate::events::{pm_part_hear, pm_part_new, pm_part_restart, pm_part_set_reading};
use crate::reply_image::ReplyImage;
use crate::status::{
    pm_part_status_byte, pm_part_status_cml, pm_part_status_vout, pm_part_status_word,
};
use pm_device::{ConfigImage, OutputImage, PartImage};

const OUTPUT: OutputImage = OutputImage {
    mode: 0x14,
    unused: 0,
    words: [0x80, 0x1000, 0x4000, 0x1100, 0x0F00, 0x0000],
};

/// Address 58h, two outputs in ULINEAR16 with exponent -12.
pub(super) const CONFIG: ConfigImage = ConfigImage {
    address: 0x58,
    outputs: 2,
    r: 0,
    unused: 0,
    m: 1,
    b: 0,
    protect: 0x00,
    starts: [OUTPUT; 8],
};

/// A part of this configuration.
pub(super) fn part() -> PartImage {
    let mut image = PartImage::blank();
    let _ = pm_part_new(&mut image, &CONFIG);
    image
}

/// What the part says of a frame, and its answer.
pub(super) fn hear(part: &mut PartImage, bytes: &[u8], is_request: u8) -> (u8, ReplyImage) {
    let mut reply = ReplyImage {
        length: 9,
        frame_fault: 9,
        bytes: [9; 16],
    };
    let number = pm_part_hear(part, bytes, is_request, &mut reply);
    (number, reply)
}

pub(super) fn restart(part: &mut PartImage) -> u8 {
    pm_part_restart(part)
}

pub(super) fn set_reading(part: &mut PartImage, output: u8, code: u8, word: u16) -> u8 {
    pm_part_set_reading(part, output, code, word)
}

pub(super) fn word(part: &PartImage, output: u8, code: u8) -> (u8, u16) {
    let mut word = 7;
    (pm_part_word(part, output, code, &mut word), word)
}

pub(super) fn stored(part: &PartImage, output: u8, code: u8) -> (u8, u16) {
    let mut word = 7;
    (pm_part_stored_word(part, output, code, &mut word), word)
}

pub(super) fn page(part: &PartImage) -> (u8, u8) {
    let mut page = 7;
    (pm_part_page(part, &mut page), page)
}

pub(super) fn commanded(part: &PartImage, output: u8) -> (u8, i64) {
    let mut microvolts = 7;
    (
        pm_part_commanded_microvolts(part, output, &mut microvolts),
        microvolts,
    )
}

pub(super) fn is_on(part: &PartImage, output: u8) -> (u8, u8) {
    let mut on = 7;
    (pm_part_on_state(part, output, &mut on), on)
}

/// STATUS_BYTE, STATUS_WORD, STATUS_VOUT and STATUS_CML; 7 if a call is refused.
pub(super) fn status(part: &PartImage, output: u8) -> (u8, u16, u8, u8) {
    let mut byte = 7;
    let mut word = 7;
    let mut vout = 7;
    let mut cml = 7;
    let _ = pm_part_status_byte(part, output, &mut byte);
    let _ = pm_part_status_word(part, output, &mut word);
    let _ = pm_part_status_vout(part, output, &mut vout);
    let _ = pm_part_status_cml(part, &mut cml);
    (byte, word, vout, cml)
}
