//! Words and microvolts, both ways.

ghost use Rattle.std.specs.Prelude.{◌≡◌, ◌≢◌, Some, IsSomeAnd};
ghost use Rattle.pm_num.specs.AnyFormat.{shape_value, shape_rank};
ghost use Rattle.pm_num.specs.Bounds.{IsAtLeast, IsAtMost};
ghost use Rattle.pm_num.specs.NearestWord.{nearest_word as spec_nearest_word};
ghost use Rattle.pm_num.specs.Ratio.{micros};
ghost use Rattle.pm_host.specs.Image.{host_of};
ghost use Rattle.pm_host.specs.Summary.{format_at};
ghost use Rattle.pm_memory.specs.Format.{format_meant, IsFormat};
ghost use Rattle.pm_memory.specs.Voltages.{at_least_number, at_most_number, output_number, value_number, word_number, IsFloor};

use pm_host::{HostFault, nearest_word};
use pm_memory::numbers::{ACCEPTED, NO_HOST};
use pm_memory::voltages::put_floor;
use pm_memory::{FormatNumbers, GuardImage};
use pm_num::{NumFormat, at_least, at_most};

/// The format of an output's voltages, as far as the host learned it. E0h, H4.
#[unsafe(no_mangle)]
pub extern "C" fn pm_host_format(host: &GuardImage, output: u8, format: &mut FormatNumbers) -> u8
    ensures number { result ≡ output_number (host_of host.now.host) output }
    ensures said { result ≡ 0 → IsSomeAnd (host_of host.now.host)
        (λ s. IsFormat (format_at s output) format.new) }
    ensures refused { result ≢ 0 → format.new ≡ format.old }
{
    if host.host.read_stage().is_err() {
        return NO_HOST;
    }
    if host.host.state.outputs <= output {
        return HostFault::UnknownOutput.number();
    }
    *format = FormatNumbers::of(&host.host.state.format(output));
    ACCEPTED
}

/// The voltage of a word in microvolts, rounded down. H7 if the numbers mean no format, N5 exactly if
/// the word's value is beyond 10^15 microvolts in size.
#[unsafe(no_mangle)]
pub extern "C" fn pm_microvolts(format: &FormatNumbers, word: u16, microvolts: &mut i64) -> u8
    ensures number { result ≡ value_number (format_meant format.now) word }
    ensures floor { result ≡ 0 → IsSomeAnd (format_meant format.now)
        (λ shape. IsFloor (shape_value shape word) microvolts.new) }
    ensures refused { result ≢ 0 → microvolts.new ≡ microvolts.old }
{
    let Some(format) = format.format() else {
        return HostFault::FormatUnknown.number();
    };
    put_floor(&format.value_of(word), microvolts)
}

/// The word nearest to a number of microvolts. H7 if the numbers mean no format, N5, N3, N4.
#[unsafe(no_mangle)]
pub extern "C" fn pm_nearest_word(format: &FormatNumbers, microvolts: i64, word: &mut u16) -> u8
    ensures number { result ≡ word_number (format_meant format.now) microvolts }
    ensures nearest { result ≡ 0 → IsSomeAnd (format_meant format.now)
        (λ shape. spec_nearest_word (shape_value shape) (shape_rank shape) (micros microvolts)
        ≡ Some word.new) }
    ensures refused { result ≢ 0 → word.new ≡ word.old }
{
    let Some(format) = format.format() else {
        return HostFault::FormatUnknown.number();
    };
    match nearest_word(&format, microvolts) {
        Ok(found) => {
            *word = found;
            ACCEPTED
        }
        Err(fault) => fault.number(),
    }
}

/// The word of the greatest value that isn't above a number of microvolts, as of a bound from above. H7 if the numbers mean
/// no format, N5, N3; above the greatest value it is that value's word.
#[unsafe(no_mangle)]
pub extern "C" fn pm_at_most(format: &FormatNumbers, microvolts: i64, word: &mut u16) -> u8
    ensures number { result ≡ at_most_number (format_meant format.now) microvolts }
    ensures word { result ≡ 0 → IsSomeAnd (format_meant format.now)
        (λ shape. IsAtMost (shape_value shape) (shape_rank shape) (micros microvolts) word.new) }
    ensures refused { result ≢ 0 → word.new ≡ word.old }
{
    let Some(format) = format.format() else {
        return HostFault::FormatUnknown.number();
    };
    match at_most(&format, microvolts) {
        Ok(found) => {
            *word = found;
            ACCEPTED
        }
        Err(fault) => fault.number(),
    }
}

/// The word of the least value that isn't below a number of microvolts, as of a bound from below. H7 if the numbers mean no
/// format, N5, N4; below the least value it is that value's word.
#[unsafe(no_mangle)]
pub extern "C" fn pm_at_least(format: &FormatNumbers, microvolts: i64, word: &mut u16) -> u8
    ensures number { result ≡ at_least_number (format_meant format.now) microvolts }
    ensures word { result ≡ 0 → IsSomeAnd (format_meant format.now)
        (λ shape. IsAtLeast (shape_value shape) (shape_rank shape) (micros microvolts) word.new) }
    ensures refused { result ≢ 0 → word.new ≡ word.old }
{
    let Some(format) = format.format() else {
        return HostFault::FormatUnknown.number();
    };
    match at_least(&format, microvolts) {
        Ok(found) => {
            *word = found;
            ACCEPTED
        }
        Err(fault) => fault.number(),
    }
}
