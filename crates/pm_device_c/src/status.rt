//! The status registers of a part.

ghost use Rattle.std.specs.Prelude.{◌≡◌, ◌≢◌, IsSomeAnd};
ghost use Rattle.pm_device.specs.Image.{device_of};
ghost use Rattle.pm_device.specs.Status.{status_byte_of, status_cml_of, status_vout_of, status_word_of};
ghost use Rattle.pm_device_c.specs.Numbers.{part_output_number, there_number};

use crate::numbers::{ACCEPTED, NO_OUTPUT, NO_PART};
use pm_device::{Converter, PartImage};

/// STATUS_BYTE of an output. E5h, 4 if the output isn't there.
#[unsafe(no_mangle)]
pub extern "C" fn pm_part_status_byte(part: &PartImage, output: u8, status: &mut u8) -> u8
    ensures number { result ≡ part_output_number (device_of part.now) output }
    ensures status { result ≡ 0 → IsSomeAnd (device_of part.now) (λ held. status.new ≡ status_byte_of held output) }
    ensures refused { result ≢ 0 → status.new ≡ status.old }
{
    let Some(converter) = &Converter::read(part) else {
        return NO_PART;
    };
    if converter.count() <= output {
        return NO_OUTPUT;
    }
    *status = converter.status_byte(output);
    ACCEPTED
}

/// STATUS_WORD of an output. E5h, 4 if the output isn't there.
#[unsafe(no_mangle)]
pub extern "C" fn pm_part_status_word(part: &PartImage, output: u8, status: &mut u16) -> u8
    ensures number { result ≡ part_output_number (device_of part.now) output }
    ensures status { result ≡ 0 → IsSomeAnd (device_of part.now) (λ held. status.new ≡ status_word_of held output) }
    ensures refused { result ≢ 0 → status.new ≡ status.old }
{
    let Some(converter) = &Converter::read(part) else {
        return NO_PART;
    };
    if converter.count() <= output {
        return NO_OUTPUT;
    }
    *status = converter.status_word(output);
    ACCEPTED
}

/// STATUS_VOUT of an output. E5h, 4 if the output isn't there.
#[unsafe(no_mangle)]
pub extern "C" fn pm_part_status_vout(part: &PartImage, output: u8, status: &mut u8) -> u8
    ensures number { result ≡ part_output_number (device_of part.now) output }
    ensures status { result ≡ 0 → IsSomeAnd (device_of part.now) (λ held. status.new ≡ status_vout_of held output) }
    ensures refused { result ≢ 0 → status.new ≡ status.old }
{
    let Some(converter) = &Converter::read(part) else {
        return NO_PART;
    };
    if converter.count() <= output {
        return NO_OUTPUT;
    }
    *status = converter.status_vout(output);
    ACCEPTED
}

/// STATUS_CML, the device's. E5h.
#[unsafe(no_mangle)]
pub extern "C" fn pm_part_status_cml(part: &PartImage, status: &mut u8) -> u8
    ensures number { result ≡ there_number (device_of part.now) }
    ensures status { result ≡ 0 → IsSomeAnd (device_of part.now) (λ held. status.new ≡ status_cml_of held) }
    ensures refused { result ≢ 0 → status.new ≡ status.old }
{
    let Some(converter) = &Converter::read(part) else {
        return NO_PART;
    };
    *status = converter.status_cml();
    ACCEPTED
}
