//! What a host's words are worth beside a part that takes each write late, while at most so many frames more end.

ghost use Rattle.std.specs.Prelude.{◌≡◌, false, IfSome};
ghost use Rattle.pm_model.specs.Settings.{word_at};
ghost use Rattle.pm_part_laws.specs.Late.{IsOwn, restarted_since_late};
ghost use Rattle.pm_part_laws.specs.LateWords.{IsQuiet, WasPossible};
ghost use Rattle.pm_law_tests.specs.Late.{LateLife, Lived, both_in_late_life};

use pm_host::{Host, Standing};
use pm_part_laws::{late_confirmations_are_held, late_words_are_own, late_words_were_possible};
use pm_table::Cell as Place;

/// The word that a host calls confirmed, after so many frames without a write of the register before its last good answer and no
/// write since. The part holds it if it didn't restart since that answer.
pub fn a_settled_word(host: &Host, cell: Place) -> Option<u16>
    ghost life: { LateLife }
    requires lived { Lived life host.now cell }
    ensures { IsQuiet life.frames life.setup cell (both_in_late_life life).entries →
        restarted_since_late life.setup life.held life.stored cell life.events ≡ false →
        IfSome result (λ word. word_at (both_in_late_life life).words cell ≡ word) }
{
    late_confirmations_are_held();
    match host.standing(cell) {
        Standing::Confirmed(word) => Some(word),
        Standing::Unknown => None,
    }
}

/// The host called the word that a register holds possible, after its last good answer or at most so many frames before.
pub fn a_word_that_was_possible(host: &Host, cell: Place)
    ghost life: { LateLife }
    requires lived { Lived life host.now cell }
    ensures { restarted_since_late life.setup life.held life.stored cell life.events ≡ false →
        WasPossible life.frames life.setup cell (word_at (both_in_late_life life).words cell) (both_in_late_life life).entries }
{
    late_words_were_possible();
}

/// Neither a register nor its store has a word of another register, whatever was lost, repeated or taken late.
pub fn a_late_word_of_its_own(host: &Host, cell: Place)
    ghost life: { LateLife }
    requires lived { Lived life host.now cell }
    ensures holds { IsOwn life.setup life.held life.stored (both_in_late_life life).entries cell
        (word_at (both_in_late_life life).words cell) }
    ensures stores { IsOwn life.setup life.held life.stored (both_in_late_life life).entries cell
        (word_at (both_in_late_life life).store cell) }
{
    late_words_are_own();
}
