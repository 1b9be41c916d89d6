//! The laws, over nothing but definitions.

ghost use Rattle.pm_log_laws.specs.Checked.{AcceptedClaimsAreHeld, AcceptedClaimsStay, AcceptedVoltagesStay, UnknownClaimsAreOpen, UnknownVoltagesAreOpen};
ghost use Rattle.pm_log_laws.specs.CheckedBeside.{AcceptedClaimsHoldBeside};

use pm_host::{possible_words_are_followed, transcripts_are_followed};
use pm_log::logs_are_transcripts;
use pm_part_laws::same_settings_live_alike;
use pm_table::cells_are_told_apart;
use pm_world::{
    bands_are_exact, bands_are_held, events_are_lived, learned_formats_are_true, lists_say_enough,
    lives_are_followed, possible_words_are_exact, possible_words_are_held,
    settings_move_by_the_open_job,
};

/// Each claim of a log that is accepted is true of each life whose host heard the log: the converter held the word when the host
/// had its last good answer for the cell (`read`), and holds it unless it restarted since (`held`). What an output commands lies
/// between the claimed microvolts, unless the converter restarted since the answers that say so (`commands`).
pub fn accepted_claims_are_held()
    ensures { AcceptedClaimsAreHeld }
{
    transcripts_are_followed();
    possible_words_are_followed();
    logs_are_transcripts();
    events_are_lived();
    lives_are_followed();
    possible_words_are_held();
    learned_formats_are_true();
    bands_are_held();
}

/// Nothing less would do. Let the converter of a life not have restarted since the host did, and the life's log order and
/// read no other word of WRITE_PROTECT than 00h, and no restore. A claim of an output's register that isn't known by the
/// log is then false of some life with the same log.
pub fn unknown_claims_are_open()
    ensures { UnknownClaimsAreOpen }
{
    cells_are_told_apart();
    transcripts_are_followed();
    possible_words_are_followed();
    logs_are_transcripts();
    events_are_lived();
    lives_are_followed();
    possible_words_are_held();
    possible_words_are_exact();
}

/// Microvolts between which an output isn't known to lie by the log are left by some life with the same log, if the host has
/// a band for the output after it.
pub fn unknown_voltages_are_open()
    ensures { UnknownVoltagesAreOpen }
{
    transcripts_are_followed();
    possible_words_are_followed();
    logs_are_transcripts();
    events_are_lived();
    lives_are_followed();
    possible_words_are_held();
    bands_are_exact();
}

/// The word that an accepted log claims stays, while the converter doesn't restart and neither an order of the cell nor a
/// restore is open.
pub fn accepted_claims_stay()
    ensures { AcceptedClaimsStay }
{
    transcripts_are_followed();
    possible_words_are_followed();
    logs_are_transcripts();
    events_are_lived();
    lives_are_followed();
    possible_words_are_held();
    settings_move_by_the_open_job();
}

/// What an output commands stays between the microvolts that an accepted log claims, while the converter doesn't restart and no
/// restore is open, nor an order of a register by which the output commands. Four registers are such: OPERATION, the one that it
/// selects, VOUT_MAX and VOUT_MIN.
pub fn accepted_voltages_stay()
    ensures { AcceptedVoltagesStay }
{
    transcripts_are_followed();
    possible_words_are_followed();
    logs_are_transcripts();
    events_are_lived();
    lives_are_followed();
    possible_words_are_held();
    learned_formats_are_true();
    bands_are_held();
    settings_move_by_the_open_job();
}

/// Each claim of a log that is accepted is true of each host that tells the log beside any part, whoever reads the part meanwhile: of
/// a word (`holds`) and of microvolts (`voltage`), unless the part restarted since the answers that say so. It stays true while the
/// part doesn't restart and no job is open that may write what the claim speaks of (`stays`, `voltage_stays`).
pub fn accepted_claims_hold_beside()
    ensures { AcceptedClaimsHoldBeside }
{
    same_settings_live_alike();
    lists_say_enough();
    accepted_claims_are_held();
    accepted_claims_stay();
    accepted_voltages_stay();
}
