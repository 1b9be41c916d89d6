//! Frames written as texts, converters, and their words.
//!
//! Configurations and the calls of the converter stand in functions with no contract of their own, so that
//! no test's proof carries what a call promises, which no test needs.

ghost use Rattle.std.specs.Prelude.{◌≡◌, ◌<◌};

use crate::checks::is_true;
use crate::fixtures::BASE;
use pm_device::{Config, ConfigFault, Converter, Ending, Heard};
use pm_frame::Frame;
use pm_table::{Cell, Code};
use std::process::Abort;

/// The bytes that a text spells, as "B0 21 CD 34 38": at most 16.
pub(crate) fn frame(rt: &impl Abort, text: &str) -> Frame {
    let mut frame = Frame::new();
    for pair in text.split_whitespace() {
        let byte = u8::from_str_radix(pair, 16);
        is_true(rt, byte.is_ok() && pair.len() == 2, &pair);
        is_true(rt, frame.try_push(byte.unwrap_or(0)).is_ok(), &text);
    }
    frame
}

/// A converter of a configuration.
pub(crate) fn made(config: Config) -> Result<Converter, ConfigFault> {
    Converter::new(config)
}

/// A converter of the base configuration.
pub(crate) fn base() -> Result<Converter, ConfigFault> {
    made(BASE)
}

/// What a converter answers to bytes.
pub(crate) fn hear(converter: &mut Converter, bytes: &[u8], ending: Ending) -> Heard {
    converter.hear(bytes, ending)
}

/// The word of an output's cell in the store; 0 if there is no such cell, and for WRITE_PROTECT, which isn't
/// stored.
pub(crate) fn stored(converter: &Converter, cell: Cell) -> u16 {
    match cell {
        Cell::Out(output, _) if output < converter.count() => converter.stored(cell),
        _ => 0,
    }
}

/// The word of a cell; 0 if there is no such cell.
pub(crate) fn word(converter: &Converter, cell: Cell) -> u16 {
    match cell {
        Cell::Out(output, _) if output >= converter.count() => 0,
        _ => converter.word(cell),
    }
}

/// STATUS_CML.
pub(crate) fn status_cml(converter: &Converter) -> u8 {
    converter.status_cml()
}

/// What PAGE holds.
pub(crate) fn page_of(converter: &Converter) -> u8 {
    converter.page()
}

/// Restarts the converter.
pub(crate) fn restart(converter: &mut Converter) {
    converter.restart();
}

/// Whether a reading was set.
pub(crate) fn set_reading(converter: &mut Converter, output: u8, code: u8, word: u16) -> bool {
    converter.set_reading(output, Code(code), word)
}

/// What the converter would answer to bytes.
pub(crate) fn reply(converter: &Converter, bytes: &[u8], ending: Ending) -> Heard {
    converter.reply(bytes, ending)
}
