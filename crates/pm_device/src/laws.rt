//! The laws of the converter over its whole past and over one event, over the definitions only:
//! each is the contract of a function that does nothing, or calls laws of the crates below. A past
//! is a list of events, newest first. What each says in full stands in `specs/Laws.antt`.

ghost use Rattle.pm_device.specs.Laws.{FramesForOthersAreSilent, PastsAreFollowed, ReadsAreAnswered, RefusalsSetOneBit, RegistersSayWhatCallsSay, RepliesFollowEndings, RequestsLatchAtMost, SoundConfigurationsHaveNoFault, WordsHaveAnOrigin, WritesReachOneCell};

use pm_frame::{requests_are_exact, writes_are_exact};
use pm_model::{outputs_stand_alone, settings_are_a_map};
use pm_table::{cells_are_told_apart, payloads_are_short, registers_are_in_the_table};

/// What a converter with 1 to 8 outputs holds after any list of hearings, restarts and readings is what one
/// event after another makes of its start. The status bits that are latched are those that are found by
/// looking back. PAGE always names an output that exists, and there is always a word for each cell, in the
/// store too.
pub fn pasts_are_followed()
    ensures { PastsAreFollowed }
{
    // A write reaches one cell, so at most one output's latch.
    settings_are_a_map();
    outputs_stand_alone();
}

/// A configuration is sound exactly if it has no fault, so [`Converter::new`](crate::Converter::new)
/// makes a converter of each sound one.
pub fn sound_configurations_have_no_fault()
    ensures { SoundConfigurationsHaveNoFault }
{}

/// Each cell's word after any list of hearings, restarts and readings is the one that it last got from the
/// store, at a restart or by RESTORE_USER_ALL, or at the start, or one that a frame which was taken since
/// carried for that very cell. Its word in the store is the one that it had at the last STORE_USER_ALL, or
/// its start word. Both are the cell's start word or one that a frame which was taken carried for that very
/// cell, and both are words that the cell accepts.
pub fn words_have_an_origin()
    ensures { WordsHaveAnOrigin }
{
    // A write reaches one cell, and a frame without a fault is the write that it spells.
    settings_are_a_map();
    cells_are_told_apart();
    writes_are_exact();
}

/// A refusal sets the one bit of STATUS_CML of its kind, and changes nothing else. Silence and a
/// read that is answered change nothing. A write that is taken sets no bit of STATUS_CML.
pub fn refusals_set_one_bit()
    ensures { RefusalsSetOneBit }
{}

/// What the words of the cells, the store and PAGE are after one frame. A write of a cell's code, plain or
/// carried, reaches that cell if its page is there, WRITE_PROTECT allows the code and the cell accepts the
/// word. A write of PAGE selects an output. STORE_USER_ALL copies the outputs' words to the store and
/// RESTORE_USER_ALL brings them back, each if its page is there and WRITE_PROTECT allows it. Everything else
/// leaves all of them.
pub fn writes_reach_one_cell()
    ensures { WritesReachOneCell }
{
    // A frame without a fault is the write that it spells.
    writes_are_exact();
}

/// What is answered is an answer to the request that was heard, and each whole request whose page is
/// there, or whose coefficients are, is answered with what its code reads as.
pub fn reads_are_answered()
    ensures { ReadsAreAnswered }
{
    // A frame without a fault is the request that it spells, and a word has the bytes of its code.
    requests_are_exact();
    payloads_are_short();
    registers_are_in_the_table();
}

/// A status register or PAGE that is read over the bus says what the call of its name answers, and a reading is
/// the one that the converter holds.
pub fn registers_say_what_calls_say()
    ensures { RegistersSayWhatCallsSay }
{}

/// Nothing is answered after a stop, and nothing taken after a repeated start.
pub fn replies_follow_endings()
    ensures { RepliesFollowEndings }
{}

/// A hearing that a repeated start ended, as the request of a read of any code is, changes no setting, no store, no PAGE,
/// no reading and no latch of STATUS_VOUT. It latches a bit of STATUS_CML at most. What is held after any past is, but
/// for those bits, what is held after the past without such hearings.
pub fn requests_latch_at_most()
    ensures { RequestsLatchAtMost }
{
    // law: what is held follows one event after another
    pasts_are_followed();
}

/// Whatever is heard for another device is met with silence and changes nothing that is held, and nothing else is met with
/// silence: bytes for this device begin with its address and the write bit. What is held after any past is what is held
/// after the past without the bytes for others.
pub fn frames_for_others_are_silent()
    ensures { FramesForOthersAreSilent }
{
    // law: what is held follows one event after another
    pasts_are_followed();
}
