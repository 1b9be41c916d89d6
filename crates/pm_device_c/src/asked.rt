//! What a part holds: its words, those in the store, PAGE, and what its outputs command.

ghost use Rattle.std.specs.Prelude.{◌≡◌, ◌≢◌, IsSomeAnd};
ghost use Rattle.pm_num.specs.Ratio.{IsMicroFloor};
ghost use Rattle.pm_table.specs.Cell.{cell_at};
ghost use Rattle.pm_device.specs.Image.{device_of};
ghost use Rattle.pm_device.specs.Status.{is_output_on};
ghost use Rattle.pm_device_c.specs.Numbers.{part_cell_number, commanded_number, part_output_number, stored_number, there_number};
ghost use Rattle.pm_device_c.specs.Part.{commanded_now, flag_of, IsStored, IsWord};

use crate::numbers::{ACCEPTED, NO_CELL, NO_OUTPUT, NO_PART};
use pm_device::{Converter, PartImage};
use pm_table::{Cell, Code, cell_of};

/// The word of a cell: a register of an output, or WRITE_PROTECT (10h), whatever the output. E5h, E1h, 4 if the
/// output isn't there.
#[unsafe(no_mangle)]
pub extern "C" fn pm_part_word(part: &PartImage, output: u8, code: u8, word: &mut u16) -> u8
    ensures number { result ≡ part_cell_number (device_of part.now) (cell_at code output) }
    ensures word { result ≡ 0 → IsWord (device_of part.now) (cell_at code output) word.new }
    ensures refused { result ≢ 0 → word.new ≡ word.old }
{
    let Some(converter) = &Converter::read(part) else {
        return NO_PART;
    };
    let Some(cell) = cell_of(Code(code), output) else {
        return NO_CELL;
    };
    if !cell.is_there(converter.count()) {
        return NO_OUTPUT;
    }
    *word = converter.word(cell);
    ACCEPTED
}

/// The word that a register of an output has in the store. E5h, E1h also for WRITE_PROTECT, which isn't stored, 4 if
/// the output isn't there.
#[unsafe(no_mangle)]
pub extern "C" fn pm_part_stored_word(part: &PartImage, output: u8, code: u8, word: &mut u16) -> u8
    ensures number { result ≡ stored_number (device_of part.now) (cell_at code output) }
    ensures word { result ≡ 0 → IsStored (device_of part.now) (cell_at code output) word.new }
    ensures refused { result ≢ 0 → word.new ≡ word.old }
{
    let Some(converter) = &Converter::read(part) else {
        return NO_PART;
    };
    let cell = match cell_of(Code(code), output) {
        Some(Cell::Out(output, register)) => Cell::Out(output, register),
        _ => return NO_CELL,
    };
    if !cell.is_there(converter.count()) {
        return NO_OUTPUT;
    }
    *word = converter.stored(cell);
    ACCEPTED
}

/// PAGE. E5h.
#[unsafe(no_mangle)]
pub extern "C" fn pm_part_page(part: &PartImage, page: &mut u8) -> u8
    ensures number { result ≡ there_number (device_of part.now) }
    ensures page { result ≡ 0 → IsSomeAnd (device_of part.now) (λ held. page.new ≡ held.page) }
    ensures refused { result ≢ 0 → page.new ≡ page.old }
{
    let Some(converter) = &Converter::read(part) else {
        return NO_PART;
    };
    *page = converter.page();
    ACCEPTED
}

/// The voltage that an output commands, on or off, in microvolts, rounded down. E5h, 4 if the output isn't there, N5
/// as 15h exactly if what it commands is beyond 10^15 microvolts in size.
#[unsafe(no_mangle)]
pub extern "C" fn pm_part_commanded_microvolts(
    part: &PartImage,
    output: u8,
    microvolts: &mut i64,
) -> u8
    ensures number { result ≡ commanded_number (device_of part.now) output }
    ensures floor { result ≡ 0 → IsSomeAnd (device_of part.now)
        (λ held. IsMicroFloor (commanded_now held output) microvolts.new) }
    ensures refused { result ≢ 0 → microvolts.new ≡ microvolts.old }
{
    let Some(converter) = &Converter::read(part) else {
        return NO_PART;
    };
    if converter.count() <= output {
        return NO_OUTPUT;
    }
    match converter.commanded(output).floor_microvolts() {
        Ok(floor) => {
            *microvolts = floor;
            ACCEPTED
        }
        Err(fault) => fault.number(),
    }
}

/// 1 if OPERATION has an output on, otherwise 0. E5h, 4 if the output isn't there.
#[unsafe(no_mangle)]
pub extern "C" fn pm_part_on_state(part: &PartImage, output: u8, on: &mut u8) -> u8
    ensures number { result ≡ part_output_number (device_of part.now) output }
    ensures on { result ≡ 0 → IsSomeAnd (device_of part.now) (λ held. on.new ≡ flag_of (is_output_on held output)) }
    ensures refused { result ≢ 0 → on.new ≡ on.old }
{
    let Some(converter) = &Converter::read(part) else {
        return NO_PART;
    };
    if converter.count() <= output {
        return NO_OUTPUT;
    }
    *on = if converter.is_on(output) { 1 } else { 0 };
    ACCEPTED
}
