//! The laws, over nothing but definitions. A list of what happened is newest first.

ghost use Rattle.pm_part_laws.specs.Alike.{SameSettingsLiveAlike};
ghost use Rattle.pm_part_laws.specs.Exact.{PossibleIsExact};
ghost use Rattle.pm_part_laws.specs.Formats.{FormatsAreTrue};
ghost use Rattle.pm_part_laws.specs.HonestOrders.{HonestOrdersGoThrough};
ghost use Rattle.pm_part_laws.specs.Knowledge.{ConfirmedIsHeld, PossibleIsHeld, SeenIsTrue};
ghost use Rattle.pm_part_laws.specs.LateBelow.{Below};
ghost use Rattle.pm_part_laws.specs.LateWords.{LateConfirmationsAreHeld, LateWordsAreOwn, LateWordsWerePossible};
ghost use Rattle.pm_part_laws.specs.Limits.{BandsAreHeldBeside, PartsStayLimited};
ghost use Rattle.pm_part_laws.specs.Moves.{DiffersNeverTook, PartsMoveByTheOpenJob};
ghost use Rattle.pm_part_laws.specs.OpenJobs.{OpenJobsEndBeside};
ghost use Rattle.pm_part_laws.specs.OwnWords.{PartsCommandOwn};
ghost use Rattle.pm_part_laws.specs.Parts.{PartsStayParts};
ghost use Rattle.pm_part_laws.specs.Settings.{ReadsKeepSettings};
ghost use Rattle.pm_part_laws.specs.Surveys.{SurveysHoldBeside};

use pm_device::writes_reach_one_cell;
use pm_frame::{betrayal_is_refused, damage_is_refused, requests_are_exact, writes_are_exact};
use pm_host::{
    frames_are_named, open_orders_are_uncertain, open_restores_are_uncertain,
    possible_words_are_followed, transcripts_are_followed,
};
use pm_limits::guarded_orders_are_within;
use pm_model::settings_are_a_map;
use pm_table::cells_are_told_apart;
use pm_world::{
    bands_are_held, confirmed_settings_are_held, differing_orders_never_took,
    honest_orders_go_through, learned_formats_are_true, lists_say_enough, lives_are_followed,
    lives_are_orders, lives_leave_parts, lives_stay_limited, open_jobs_end, parts_are_reached,
    possible_words_are_exact, possible_words_are_held, settings_move_by_the_open_job,
    stored_configs_start_so, surveys_hold_in_lives,
};

/// Whatever happens beside a part as it is, while anybody reads the part, is like a life of a world: the host is the same at each moment
/// and is told the same, and the part holds the same words and has the same stored. So each law over lives is one of lives as they are.
pub fn same_settings_live_alike()
    ensures { SameSettingsLiveAlike }
{
    lives_are_followed();
    requests_are_exact();
    writes_are_exact();
    damage_is_refused();
    betrayal_is_refused();
    writes_reach_one_cell();
    parts_are_reached();
    stored_configs_start_so();
    frames_are_named();
    transcripts_are_followed();
}

/// Which bytes change no word and no store of a converter: a request of any code and page, whatever is no write to it, and a write of
/// PAGE.
pub fn reads_keep_settings()
    ensures { ReadsKeepSettings }
{
    writes_reach_one_cell();
}

/// A word that the host calls confirmed is held, unless the part restarted since the host's last good answer for it.
pub fn confirmed_beside()
    ensures { ConfirmedIsHeld }
{
    same_settings_live_alike();
    confirmed_settings_are_held();
    lists_say_enough();
}

/// The word that a part holds is among those that the host calls possible, unless the part restarted since the host's last good
/// answer for it (`held`). The host names words only once it has read the register (`found`).
pub fn possible_beside()
    ensures { PossibleIsHeld }
{
    same_settings_live_alike();
    possible_words_are_held();
    lists_say_enough();
}

/// A restart that the host says it saw did happen (`between`, `restarted`). A good answer that it didn't think possible comes only
/// after a restart since the answer before it for the same register (`surprises`).
pub fn seen_beside()
    ensures { SeenIsTrue }
{
    same_settings_live_alike();
    possible_words_are_held();
    lists_say_enough();
}

/// Whatever happened, each output commands a value of words that the part held or had stored as the host began, or that were ordered
/// since for that very register (`commanded`). Each register holds such a word (`holds`), and has one stored (`stores`).
pub fn own_words_beside()
    ensures { PartsCommandOwn }
{
    same_settings_live_alike();
    stored_configs_start_so();
    lives_are_orders();
}

/// Nothing moves a word of a part or its store but the open job, and for a word a restart of the part, whatever was lost, cut,
/// damaged, repeated, falsely acknowledged, or read by anybody (`moves`, `stores`). A job whose frame was heard whole, while
/// WRITE_PROTECT allows it, takes (`takes`).
pub fn settings_move_beside()
    ensures { PartsMoveByTheOpenJob }
{
    same_settings_live_alike();
    settings_move_by_the_open_job();
}

/// An order that differs never took, if the part didn't restart since the order was accepted.
pub fn differing_beside()
    ensures { DiffersNeverTook }
{
    same_settings_live_alike();
    differing_orders_never_took();
}

/// A format that the host holds is the part's (`held`), and stays so (`ended`, `kept`). An order in microvolts comes to the nearest
/// word in it (`nearest`).
pub fn formats_beside()
    ensures { FormatsAreTrue }
{
    same_settings_live_alike();
    learned_formats_are_true();
}

/// An output commands a voltage within limits that allow what the part held and had stored as the host began, if each job went
/// through a guard with them (`guarded`, `limited`). It commands no more than the most of its own words of VOUT_MAX, and no less than
/// the least of VOUT_MIN's (`most`, `least`). Own words stay within limits that all later orders are within (`ordered`, `newer`,
/// `kept`).
pub fn limits_beside()
    ensures { PartsStayLimited }
{
    same_settings_live_alike();
    stored_configs_start_so();
    lives_are_orders();
    lives_stay_limited();
    formats_beside();
    guarded_orders_are_within();
}

/// What the part commands lies in the band that the host gives, unless the part restarted since the good answers that the band rests on.
pub fn bands_beside()
    ensures { BandsAreHeldBeside }
{
    same_settings_live_alike();
    lists_say_enough();
    bands_are_held();
}

/// A survey that ended by its own rule, while the part didn't restart, knows each needed register (`known`), and the output commands
/// the one value of its band (`one`). However it ended, what the output commands lies in the band (`band`).
pub fn surveys_beside()
    ensures { SurveysHoldBeside }
{
    same_settings_live_alike();
    lists_say_enough();
    surveys_hold_in_lives();
}

/// What the host calls possible is exact: none of these words can be ruled out, if the part didn't restart since the host did,
/// WRITE_PROTECT was ordered and read as 00h alone, and no restore was sent (`witness`). Words that a life leaves in which its host
/// hears the same are possible (`only`).
pub fn exact_beside()
    ensures { PossibleIsExact }
{
    same_settings_live_alike();
    possible_words_are_exact();
}

/// An order that WRITE_PROTECT allows ends confirmed, and the part holds its word, if its write was heard whole at least once and nothing
/// disturbed its read, whatever is read of the part between its frames.
pub fn honest_orders_beside()
    ensures { HonestOrdersGoThrough }
{
    same_settings_live_alike();
    honest_orders_go_through();
}

/// Each frame of an open job that comes whole makes of the job just what its stage says (`turn`). Once its frames come whole there are no
/// more of them than the job had left (`few`), and it ends as it should (`ends`), whatever went before and whatever is read of the part
/// between its frames.
pub fn open_jobs_end_beside()
    ensures { OpenJobsEndBeside }
{
    same_settings_live_alike();
    open_jobs_end();
}

/// Whatever happened beside a part, it is one beside which another host may begin, with however many passes.
pub fn parts_stay_parts()
    ensures { PartsStayParts }
{
    same_settings_live_alike();
    lives_leave_parts();
}

// What the laws rest on.
fn lower_laws()
    ensures { Below }
{
    cells_are_told_apart();
    settings_are_a_map();
    open_orders_are_uncertain();
    open_restores_are_uncertain();
    possible_words_are_followed();
    transcripts_are_followed();
}

/// A part that takes late still has no word of another register: each cell holds, and has stored, what it held or had stored as the
/// host began, or a word an order of which was sent for this very cell.
pub fn late_words_are_own()
    ensures { LateWordsAreOwn }
{
    lower_laws();
}

/// The word that a cell of such a part holds is one that the host called possible, after its last good answer for the cell or at most
/// so many frames before it, unless the part restarted since that answer.
pub fn late_words_were_possible()
    ensures { LateWordsWerePossible }
{
    lower_laws();
}

/// A confirmed word is held by such a part too, if no write of its cell was being sent in so many frames before the answer, and none
/// since, unless the part restarted since that answer.
pub fn late_confirmations_are_held()
    ensures { LateConfirmationsAreHeld }
{
    lower_laws();
}
