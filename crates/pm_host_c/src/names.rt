//! The names of the numbers that calls answer, each from the type whose number it is.

ghost use Rattle.std.specs.Prelude.{◌≡◌, ◌≢◌, IsSomeAnd};
ghost use Rattle.pm_memory.specs.Names.{end_words, refusal_words as spec_refusal_words, named_number, HasText};

use pm_memory::names::{NameImage, refusal_words, words_of_end};
use pm_memory::numbers::{ACCEPTED, NO_NAME};

/// The letter and the name of a refusal: `H6 TooUncertain`. E7h if the number is no refusal's.
#[unsafe(no_mangle)]
pub extern "C" fn pm_refusal_name(number: u8, name: &mut NameImage) -> u8
    ensures number { result ≡ named_number (spec_refusal_words number) }
    ensures name { result ≡ 0 → IsSomeAnd (spec_refusal_words number) (λ words. HasText words name.new) }
    ensures refused { result ≢ 0 → name.new ≡ name.old }
{
    match refusal_words(number) {
        Some(words) => {
            name.put(words);
            ACCEPTED
        }
        None => NO_NAME,
    }
}

/// The name of how a job stands, by the kind of a step: `next`, `done`, `differs`, `unknown`, `learned`. E7h for
/// another number.
#[unsafe(no_mangle)]
pub extern "C" fn pm_end_name(kind: u16, name: &mut NameImage) -> u8
    ensures number { result ≡ named_number (end_words kind) }
    ensures name { result ≡ 0 → IsSomeAnd (end_words kind) (λ words. HasText words name.new) }
    ensures refused { result ≢ 0 → name.new ≡ name.old }
{
    match words_of_end(kind) {
        Some(words) => {
            name.put(words);
            ACCEPTED
        }
        None => NO_NAME,
    }
}
