//! What changes a part: it is made, hears a frame, restarts, and measures.

ghost use Rattle.std.specs.Prelude.{◌≡◌, ◌≢◌, None, Some, option_map, IfSome};
ghost use Rattle.pm_device.specs.Effect.{Hearing, Reading, Restarted};
ghost use Rattle.pm_device.specs.History.{device_next, start_of};
ghost use Rattle.pm_device.specs.Image.{config_held, device_of};
ghost use Rattle.pm_device.specs.Memory.{part_image_of};
ghost use Rattle.pm_device.specs.Reply.{reply_of};
ghost use Rattle.pm_device.specs.Start.{config_fault};
ghost use Rattle.pm_device_c.specs.Numbers.{heard_now_number, made_number, reading_number, there_number};
ghost use Rattle.pm_device_c.specs.Part.{ending_of_number, IsReply};
ghost use Rattle.pm_device_c.specs.Sizes.{part_size};

use crate::numbers::{ACCEPTED, NO_OUTPUT, NO_PART, NO_READING};
use crate::reply_image::ReplyImage;
use pm_device::{ConfigImage, Converter, Ending, PartImage, is_reading};
use pm_table::Code;
use std::mem::size_of;

/// How many bytes a part has.
#[unsafe(no_mangle)]
pub extern "C" fn pm_part_size() -> usize
    ensures { result ≡ part_size }
{
    size_of::<PartImage>()
}

/// Makes a part of a configuration, whatever stood in the memory: as a converter starts. V1 to V5 as 51h to 55h, and
/// then nothing changes.
#[unsafe(no_mangle)]
pub extern "C" fn pm_part_new(part: &mut PartImage, config: &ConfigImage) -> u8
    ensures number { result ≡ made_number (config_fault (config_held config.now)) }
    ensures made { result ≡ 0 → device_of part.new ≡ Some (start_of (config_held config.now)) }
    ensures written { result ≡ 0 → part.new ≡ part_image_of (start_of (config_held config.now)) }
    ensures refused { result ≢ 0 → part.new ≡ part.old }
{
    match Converter::new(config.config()) {
        Ok(converter) => {
            converter.write(part);
            ACCEPTED
        }
        Err(fault) => fault.number(),
    }
}

/// The part hears the bytes of one frame, which a repeated start ends if `is_request` isn't 0, otherwise a stop. 81h if
/// it is silent, 82h if it took a write, 83h if it answers a read, K1 to K7 as 41h to 47h. K1 to K7 change no setting,
/// no word in the store and no PAGE, and set one bit of STATUS_CML. The reply has bytes only after 83h, and a fault of
/// the frame only after 41h. E5h if the memory holds no part; nothing changes then.
#[unsafe(no_mangle)]
pub extern "C" fn pm_part_hear(
    part: &mut PartImage,
    bytes: &[u8],
    is_request: u8,
    reply: &mut ReplyImage,
) -> u8
    ensures number { let heard = option_map (λ held. reply_of held bytes.now (ending_of_number is_request))
        (device_of part.old) in
        result ≡ heard_now_number heard }
    ensures answer { let heard = option_map (λ held. reply_of held bytes.now (ending_of_number is_request))
        (device_of part.old) in
        IsReply heard reply.old reply.new }
    ensures after { device_of part.new
        ≡ option_map (λ held. device_next held (Hearing bytes.now (ending_of_number is_request))) (device_of part.old) }
    ensures written { IfSome (device_of part.old)
        (λ held. part.new ≡ part_image_of (device_next held (Hearing bytes.now (ending_of_number is_request)))) }
    ensures refused { device_of part.old ≡ None → part.new ≡ part.old }
{
    match &mut Converter::read(part) {
        Some(converter) => {
            let heard = converter.hear(bytes, ending(is_request));
            converter.write(part);
            reply.give(heard)
        }
        None => NO_PART,
    }
}

// How a frame ends.
fn ending(is_request: u8) -> Ending
    ensures { result ≡ ending_of_number is_request }
{
    if is_request == 0 {
        Ending::Stop
    } else {
        Ending::Restart
    }
}

/// The part restarts, as after a loss of its supply: each cell of an output has its word in the store, WRITE_PROTECT
/// its start word, PAGE is 0, and what is latched is clear but for what shows at once. E5h.
#[unsafe(no_mangle)]
pub extern "C" fn pm_part_restart(part: &mut PartImage) -> u8
    ensures number { result ≡ there_number (device_of part.old) }
    ensures after { device_of part.new ≡ option_map (λ held. device_next held Restarted) (device_of part.old) }
    ensures written { IfSome (device_of part.old) (λ held. part.new ≡ part_image_of (device_next held Restarted)) }
    ensures refused { result ≢ 0 → part.new ≡ part.old }
{
    match &mut Converter::read(part) {
        Some(converter) => {
            converter.restart();
            converter.write(part);
            ACCEPTED
        }
        None => NO_PART,
    }
}

/// Gives a reading another word: a READ code of an output, or one of the device, for which the output isn't looked at.
/// E5h, E8h, 4 if the output isn't there.
#[unsafe(no_mangle)]
pub extern "C" fn pm_part_set_reading(part: &mut PartImage, output: u8, code: u8, word: u16) -> u8
    ensures number { result ≡ reading_number (device_of part.old) output code }
    ensures after { result ≡ 0 → device_of part.new
        ≡ option_map (λ held. device_next held (Reading output code word)) (device_of part.old) }
    ensures written { result ≡ 0 → IfSome (device_of part.old)
        (λ held. part.new ≡ part_image_of (device_next held (Reading output code word))) }
    ensures refused { result ≢ 0 → part.new ≡ part.old }
{
    match &mut Converter::read(part) {
        Some(converter) => {
            if !is_reading(Code(code)) {
                return NO_READING;
            }
            if !converter.set_reading(output, Code(code), word) {
                return NO_OUTPUT;
            }
            converter.write(part);
            ACCEPTED
        }
        None => NO_PART,
    }
}
