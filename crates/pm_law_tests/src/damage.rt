//! Damage that the packet error code betrays is legal.

ghost use Rattle.std.specs.Prelude.{◌≡◌, ℕ, List, true};
ghost use Rattle.pm_frame.specs.declared.message.Message.{Message};
ghost use Rattle.pm_frame.specs.Damage.{DifferWithinEight};
ghost use Rattle.pm_frame.specs.Fault.{whole_answer};
ghost use Rattle.pm_frame.specs.Layout.{IsAnswer, IsRequest, IsWrite};
ghost use Rattle.pm_device.specs.declared.converter.Ending.{Ending};
ghost use Rattle.pm_device.specs.declared.converter.Ending.TheVariants.{Restart};
ghost use Rattle.pm_world.specs.Damage.{AreOthers, IsBetrayedDamage};
ghost use Rattle.pm_world.specs.Life.{now};

use pm_device::{Converter, Ending as End};
use pm_world::{answer_in, betrayed_damage_is_legal, is_legal_hearing, is_legal_return};

/// A write with such damage is a legal hearing, however it ends.
pub fn a_damaged_hearing(frame: &[u8], bytes: &[u8], ending: End) -> bool
    ensures { (addr : ℕ) (message : Message) → IsWrite addr message frame.now →
        IsBetrayedDamage frame.now bytes.now → result ≡ true }
{
    betrayed_damage_is_legal();
    is_legal_hearing(frame, bytes, ending)
}

/// An answer to the host's own request with such damage is a legal return.
pub fn a_damaged_return(
    request: &[u8],
    needed: usize,
    whole: bool,
    answer: &[u8],
    bytes: &[u8],
) -> bool
    ensures { (addr : ℕ) (asked : Message) (payload : List ℕ) → needed ≡ whole_answer asked →
        IsRequest addr asked request.now → IsAnswer addr asked payload answer.now →
        IsBetrayedDamage answer.now bytes.now → result ≡ true }
{
    betrayed_damage_is_legal();
    is_legal_return(request, needed, whole, answer, bytes)
}

/// Whatever a converter answers to a request that is damaged within eight neighbouring bits is a legal return.
pub fn an_answer_to_a_damaged_request(
    device: &Converter,
    request: &[u8],
    needed: usize,
    whole: bool,
    heard: &[u8],
) -> bool
    ensures { (asked : Message) → needed ≡ whole_answer asked → AreOthers request.now heard.now →
        DifferWithinEight request.now heard.now → result ≡ true }
{
    betrayed_damage_is_legal();
    let reply = device.reply(heard, End::Restart);
    let answer = answer_in(&reply);
    is_legal_return(request, needed, whole, answer, answer)
}
