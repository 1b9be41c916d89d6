//! The laws of a driver: each is the contract of a function that does nothing when it runs.

ghost use Rattle.pm_driver.specs.Laws.{EndsAreTrue, LawsOfLives, LeadsCompose, LivesLeadOn, NewConvertersMayBegin, RestartsAreCounted};
ghost use Rattle.pm_driver.specs.Looks.{RequestsAreNoWrites};
ghost use Rattle.pm_driver.specs.Steps.{FramesLead, JobsLead, LooksLead, RenewalsLead};
ghost use Rattle.pm_driver.specs.WithoutRestart.{JobsRestartNothing, ReadsRestartNothing};

use crate::bus::Bus;
use pm_device::{requests_latch_at_most, writes_reach_one_cell};
use pm_frame::{betrayal_is_refused, damage_is_refused, requests_are_exact, writes_are_exact};
use pm_host::transcripts_are_followed;
use pm_table::cells_are_told_apart;
use pm_world::{
    confirmed_settings_are_held, learned_formats_are_true, lists_say_enough, lives_are_followed,
    lives_leave_parts, parts_are_reached, possible_words_are_held, starts_are_parts,
    stored_configs_start_so,
};

/// What `pm_world` says of each life, and the crates below of frames and hearings, which the laws below are had from.
pub(crate) fn laws_of_lives()
    ensures { LawsOfLives }
{
    lives_are_followed();
    learned_formats_are_true();
    confirmed_settings_are_held();
    possible_words_are_held();
    requests_are_exact();
    writes_are_exact();
    damage_is_refused();
    betrayal_is_refused();
    requests_latch_at_most();
    writes_reach_one_cell();
    parts_are_reached();
    lives_leave_parts();
    starts_are_parts();
    stored_configs_start_so();
    lists_say_enough();
}

/// Calls compose: if one way leads to a point and another leads on from there, both together lead from the first one's
/// beginning.
pub fn leads_compose<B: Bus>()
    ensures { LeadsCompose B.gives B.held B.restarts }
{}

/// While the bus counts no restart, a cell since whose reading the converter didn't restart stays one.
pub fn restarts_are_counted<B: Bus>()
    ensures { RestartsAreCounted B.gives B.held B.restarts }
{}

/// The end of the last job says what it is worth, in every life whose newest event is one that the host heard of. An
/// order that is done is confirmed and held; one that differs stands with the word that was read. A check that is
/// done stands with some word, and a learned format is the converter's.
pub fn ends_are_true()
    ensures { EndsAreTrue }
{
    cells_are_told_apart();
    transcripts_are_followed();
    laws_of_lives();
}

/// No beginning of a request is a write: of up to two bytes, as a plain read or a block read of any code sends, of bytes whose
/// code isn't written, and of a message that reads. What
/// [`Driver::read`](crate::Driver::read) asks of its request.
pub fn requests_are_no_writes()
    ensures { RequestsAreNoWrites }
{
    requests_are_exact();
    damage_is_refused();
}

/// A new host may begin beside a converter as it was made.
pub fn new_converters_may_begin()
    ensures { NewConvertersMayBegin }
{
    laws_of_lives();
}

/// What any life left is a part beside which a new host may begin, whatever the passes of the earlier one were.
pub fn lives_lead_on()
    ensures { LivesLeadOn }
{
    laws_of_lives();
}

/// What the host confirms of a cell that was read is held over a bus whose calls restart nothing: no job ends that.
pub fn jobs_restart_nothing<B: Bus>()
    ensures { JobsRestartNothing B.gives B.held B.restarts }
{}

/// A read that is no job ends nothing that the host confirms of a cell that was read, over a bus whose calls restart
/// nothing.
pub fn reads_restart_nothing<B: Bus>()
    ensures { ReadsRestartNothing B.gives B.held B.restarts }
{}

/// A call of the frame that the host was sending leads on, once the host has heard its answer.
pub(crate) fn frames_lead<B: Bus>()
    ensures { FramesLead B.gives B.held B.restarts }
{
    laws_of_lives();
}

/// A job that the host accepts leads on.
pub(crate) fn jobs_lead<B: Bus>()
    ensures { JobsLead B.gives B.held B.restarts }
{
    laws_of_lives();
}

/// A read that is no job leads on.
pub(crate) fn looks_lead<B: Bus>()
    ensures { LooksLead B.gives B.held B.restarts }
{
    laws_of_lives();
}

/// A restart of the host leads on.
pub(crate) fn renewals_lead<B: Bus>()
    ensures { RenewalsLead B.gives B.held B.restarts }
{
    laws_of_lives();
}
