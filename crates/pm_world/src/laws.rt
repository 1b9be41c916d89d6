//! The laws of a world over its whole life: each is the contract of a function that does nothing when it
//! runs, but calls the laws that its proof rests on. A list of events is newest first.

ghost use Rattle.pm_device.specs.Start.{register_start};
ghost use Rattle.pm_table.specs.declared.reg.Reg.{Reg as AnyReg};
ghost use Rattle.pm_world.specs.Below.{Below};
ghost use Rattle.pm_world.specs.Bytes.{AnswersComeInBytes, StartsShort};
ghost use Rattle.pm_world.specs.Honest.{IsSpelled};
ghost use Rattle.pm_world.specs.Laws.{BetrayedDamageIsLegal, CausesDecide, ConfirmedSettingsAreHeld, DifferingOrdersNeverTook, FramesAreFew, HonestOrdersGoThrough, LearnedFormatsAreTrue, ListsSayEnough, LivesAreFollowed, LivesAreOrders, OpenListsAreFollowed, PossibleWordsAreExact, PossibleWordsAreHeld};
ghost use Rattle.pm_world.specs.LimitLaws.{BandsAreExact, BandsAreHeld, LivesStayLimited};
ghost use Rattle.pm_world.specs.Lived.{EventsAreLived};
ghost use Rattle.pm_world.specs.GoodBus.{GoodFramesEndJobs};
ghost use Rattle.pm_world.specs.GoodTurns.{OpenJobsEnd};
ghost use Rattle.pm_world.specs.Moves.{SettingsMoveByTheOpenJob};
ghost use Rattle.pm_world.specs.Way.{WaysAreFollowed};
ghost use Rattle.pm_world.specs.WholeFrames.{WholeFramesAreUndisturbed};
ghost use Rattle.std.specs.Prelude.{◌<◌, ◌^◌};

use pm_device::{
    Config, OutputStart, pasts_are_followed, reads_are_answered, replies_follow_endings,
    sound_configurations_have_no_fault, words_have_an_origin, writes_reach_one_cell,
};
use pm_frame::{
    answers_are_exact, betrayal_is_refused, bursts_are_betrayed, damage_is_betrayed,
    damage_is_refused, requests_are_exact, writes_are_exact,
};
use pm_host::{
    ends_are_told, frames_are_named, jobs_are_bounded, open_restores_are_uncertain,
    possible_words_are_followed, transcripts_are_followed,
};
use pm_model::{orders_stay_in_their_cells, settings_are_a_map};
use pm_table::{Reg, cells_are_told_apart, cells_have_places, registers_are_in_the_table};

/// Only its cause decides whether an event is taken. An order in microvolts that isn't refused has a word, since a
/// format has a nearest word for each number (`word`). An event is taken exactly if the world isn't full and
/// nothing else is against it (`taken`). Events are legal exactly if nothing else is against any of them
/// (`legal`).
pub fn causes_decide()
    ensures { CausesDecide }
{}

/// What a world holds after its life, which the definitions find in what its ends lived through, is what one
/// event after another makes of its start: of no event (`none`), and of one more (`more`). What the host
/// heard is a transcript that might come (`told`). Events that are taken one after another from the start are
/// the life's (`from_start`).
pub fn lives_are_followed()
    ensures { LivesAreFollowed }
{
    lower_laws();
}

/// What the other laws ask of events: that a world lived through them, however many there are. A world that can be made
/// lived through no event (`none`), through one more that nothing is against (`more`) or that a step takes (`step`), through
/// what came before any of them (`earlier`), and through those that it took (`taken`). [`World::run`](crate::World::run)
/// hands it out (`lived`), and the events of a caller's own loop are had by `none` and `more`.
pub fn events_are_lived()
    ensures { EventsAreLived }
{}

/// The converter's words, and those in its store, are those of a run of the order machine that retells the
/// events (`orders`). This holds however frames are delivered, lost, cut, damaged, repeated or falsely
/// acknowledged, and whenever an end restarts. Each cell has its start word, or the word of an order that was
/// taken for that very cell (`own`), and such a word in the store (`stored`). Each output commands the value
/// of one of its own words, cut to its own VOUT_MIN and VOUT_MAX (`commanded`).
pub fn lives_are_orders()
    ensures { LivesAreOrders }
{
    lower_laws();
}

/// A word that the host calls confirmed is the one that the converter holds, unless the converter restarted
/// since the host read the cell. This holds however frames are delivered, lost, cut, damaged, repeated or
/// falsely acknowledged, and whenever an end restarts.
pub fn confirmed_settings_are_held()
    ensures { ConfirmedSettingsAreHeld }
{
    lower_laws();
}

/// The converter's word is among the words that the host lists as possible for a cell, unless the converter
/// restarted since the host's last good answer for the cell (`held`). A good answer that the host didn't
/// think possible comes only if the converter restarted since the answer before it for the same cell. The
/// host sees no restart that didn't happen (`seen`). Both hold however frames are delivered, lost, cut,
/// damaged, repeated or falsely acknowledged, and whenever an end restarts.
pub fn possible_words_are_held()
    ensures { PossibleWordsAreHeld }
{
    lower_laws();
}

/// What the host lists as possible is exactly what can be so, for all cells of all outputs together.
///
/// Let the converter not have restarted since the host did, and let no word but 00h have been ordered for
/// WRITE_PROTECT or read from it since then, and no restore. Choose a word for each cell of each output: one
/// that the host lists, or any word that the cell accepts if the host says that any is possible. One list of
/// events without a restart leaves all these words together, in a new world with the same address, outputs,
/// formats and passes. The host of that world hears just what this one heard since it started. That list is
/// named: each cell starts with the word that is due there, jobs and answers come as they came, and a write
/// is delivered if its word is due after it (`witness`). Conversely, words that some such list leaves are all
/// possible (`only`). A list is legal if nothing but the limit of events may be against it (`legal`).
pub fn possible_words_are_exact()
    ensures { PossibleWordsAreExact }
{
    lower_laws();
}

/// A format that a host holds of an output's voltages is the converter's, and a host holds the format that
/// its last learn of that output found since its start (`agree`). An order in microvolts that is taken is the
/// order of the nearest word in that format (`nearest`). The configuration's numbers are those that its bytes
/// spell, as they are in a program.
pub fn learned_formats_are_true()
    ensures { LearnedFormatsAreTrue }
{
    lower_laws();
}

/// What came back to the host since its last restart were bytes, if the numbers of the configuration and of the events are
/// bytes, and their words have two. They are so in a program: [`spell`] says it of the configuration, and
/// [`World::run`](crate::World::run) and [`World::step`](crate::World::step) say it of the events.
pub fn answers_come_in_bytes()
    ensures { AnswersComeInBytes }
{
    lower_laws();
    replies_follow_endings();
}

/// The numbers of a configuration are those that its bytes spell (`spelled`), and its start words have two (`short`). It
/// does nothing when it runs. Its contract gives a caller of [`Converter::new`](pm_device::Converter::new) what a life
/// asks of its configuration.
pub fn spell(c: Config)
    ensures spelled { IsSpelled c }
    ensures short { StartsShort c }
{
    // The clauses of these calls are what is wanted.
    let _ = c.coefficients.bytes();
    for start in &c.starts {
        spell_byte(start.mode);
        spell_words(*start);
    }
}

// Start words are below 2^16.
fn spell_words(start: OutputStart)
    ensures { (register : AnyReg) → register_start register start < 2 ^ 16 }
{
    for register in &Reg::ALL {
        spell_word(start.word(*register));
    }
}

// A word is below 2^16.
pub(crate) fn spell_word(word: u16)
    ensures { word < 2 ^ 16 }
{}

// A byte is below 256.
fn spell_byte(byte: u8)
    ensures { byte < 2 ^ 8 }
{}

/// The last job has sent at most twice as many frames as a job has passes, after each of the events.
pub fn frames_are_few()
    ensures { FramesAreFew }
{
    lower_laws();
}

/// An order goes through on three conditions: WRITE_PROTECT allows its code as it is accepted, its write is
/// delivered whole at least once, and an undisturbed read follows the write's end. It is then done after one
/// write, acknowledged or not, and one read, whatever else was delivered of the write. The cell's word is
/// confirmed, and the converter holds it (`through`). That end and that read are taken after the deliveries
/// if the world has room for two more events (`taken`).
pub fn honest_orders_go_through()
    ensures { HonestOrdersGoThrough }
{
    lower_laws();
}

/// Other bytes in place of a write's frame are a legal hearing, however they end, if what changed lies within
/// eight neighbouring bits, or is one, two or three bits of at most 15 bytes, or an odd number of bits
/// (`heard`). Bytes changed so in place of the answer to the host's own request are a legal return
/// (`came_back`). Whatever a converter answers to other bytes in place of a request, changed within eight
/// neighbouring bits and ended by a repeated start, is a legal return (`answered`).
pub fn betrayed_damage_is_legal()
    ensures { BetrayedDamageIsLegal }
{
    lower_laws();
}

/// An output commands a voltage within limits at each moment if its own words are within them (`limited`): its start
/// words and those that were ordered for it. A word of VOUT_COMMAND or of a margin is within if its value lies within the
/// limits. A word of VOUT_MAX is within if it is at least the lower limit, and one of VOUT_MIN if it is at most the upper
/// one. The output commands no more than the most of all words of its VOUT_MAX, whatever else was ordered (`most`). It
/// commands no less than the least of all words of its VOUT_MIN, if none of these is above one of VOUT_MAX (`least`).
/// Each word that a guard lets be ordered lies within its limits (`ordered`), so all own words are within if the start
/// words are (`guarded`). They stay so while no other is ordered (`kept`, `newer`). All this holds however frames are
/// delivered, lost, cut, damaged, repeated or falsely acknowledged, and whenever an end restarts.
pub fn lives_stay_limited()
    ensures { LivesStayLimited }
{
    lower_laws();
}

/// What the converter commands at an output lies in the band that the host gives for it, unless the converter restarted
/// since the good answers that the band rests on. This holds however frames are delivered, lost, cut, damaged, repeated or
/// falsely acknowledged, and whenever an end restarts. The law asks of a part that is said to lack VOUT_MIN or VOUT_MAX
/// that no such register cuts the output.
pub fn bands_are_held()
    ensures { BandsAreHeld }
{
    lower_laws();
}

/// No narrower band is true. Let the converter not have restarted since the host did, let no word but 00h have been
/// ordered for WRITE_PROTECT or read from it since then, and no restore. Choose an end for each output. One life, which is
/// named, then leaves each output that has a band at the chosen end, as that very fraction, all at once; its host hears
/// just what this one heard since it started. The law asks of a part that is said to lack VOUT_MIN or VOUT_MAX that the
/// host heard nothing of one.
pub fn bands_are_exact()
    ensures { BandsAreExact }
{
    lower_laws();
}

/// An order that differs never took, if the converter didn't restart since the order was accepted: its cell
/// had the word that was read at each moment since then, and that isn't the ordered one.
pub fn differing_orders_never_took()
    ensures { DifferingOrdersNeverTook }
{
    lower_laws();
}

/// Nothing moves but by the open job, at each moment of a life, whatever was lost, cut, damaged, repeated or falsely
/// acknowledged. A cell's word changes in an event only by a restart of the converter, to the stored word, or by a
/// delivery that let the open job take. The job's frame was heard whole then, and its code is allowed. That job is an
/// order of this word for this very cell, or a restore, and then the word is the stored one (`moves`). The store changes
/// only by a delivery that let an open store take, which copies all outputs' words at once (`stores`). It has the words
/// of one earlier moment, or of the start, never a mixture, and of WRITE_PROTECT the start word (`moment`). Each delivery
/// that hears the open job's frame whole, while its code is allowed, leaves what that job makes of them (`takes`).
pub fn settings_move_by_the_open_job()
    ensures { SettingsMoveByTheOpenJob }
{
    lower_laws();
}

/// What a list of events says by itself. The converter didn't restart since any good answer (`since`) or since the
/// host's start (`host`) if it doesn't restart in the list. The named list of [`possible_words_are_exact`] has at
/// most twice as many events (`short`), and can be taken if that is no more than a world takes.
pub fn lists_say_enough()
    ensures { ListsSayEnough }
{}

/// A bus that is good again. Let a frame be undisturbed. That means, of a write, that it is heard whole at least once,
/// whatever else is delivered of it. It means, of a request, that all of it is heard and the converter's answer comes
/// back, by the bytes and by how they end. Readings may change in between, and nothing else happens. The following holds
/// at any moment of a life, whatever went before. One read ends an open check Done, its cell confirmed and only its word
/// possible; the host says from then on that it saw a restart if that word wasn't possible before (`check`). The write
/// and the read of one pass end an order that WRITE_PROTECT allows Done, whichever pass it is (`order`). An order that is
/// to be read back first ends by that read, or by that and the next pass (`read_back`, `again`, `three`). It ends Differs
/// in the last pass, with the word that the converter holds (`last`). A write that WRITE_PROTECT forbids is followed by a
/// read like any other, and changes no word (`write`). A clear, a store or a restore ends Done by one write that is
/// acknowledged (`send`). It is sent again if the write isn't acknowledged, and ends Unknown after the last try
/// (`resend`, `unacked`). A learn ends Learned by one read or by two (`mode`, `coefficients`). [`open_jobs_end`] has it
/// of any job at once.
pub fn good_frames_end_jobs()
    ensures { GoodFramesEndJobs }
{
    lower_laws();
}

/// Each frame of an open job that comes whole makes of the job just what its stage says, whatever went
/// before, with what the converter holds and whether the write was acknowledged (`turn`): its end, or its
/// next stage. There are no more frames than the job had left once these come whole, a command's acknowledged
/// (`few`), and the job ends as its stage says (`ends`): a check and a command Done, a learn Learned. An
/// order ends Done if the converter holds its word, or if WRITE_PROTECT allows it and a write of it isn't
/// over. Otherwise it ends Differs with the word that the converter holds.
pub fn open_jobs_end()
    ensures { OpenJobsEnd }
{
    lower_laws();
}

/// Whether what the host heard since its start leaves WRITE_PROTECT open, as [`possible_words_are_exact`] asks, goes by
/// one event after another (`none`, `more`, `test`): [`run_open`](crate::run_open) decides it while they happen.
pub fn open_lists_are_followed()
    ensures { OpenListsAreFollowed }
{
    lower_laws();
}

/// How far the last order has come with nothing to disturb it goes by one event after another (`none`, `more`), so
/// that [`Way::after`](crate::Way::after) and [`run_way`](crate::run_way) decide it while they happen. An order is on
/// its way exactly if the events are it, allowed by WRITE_PROTECT, and nothing but deliveries of its write (`sent`).
/// It is through exactly if they have the form of an undisturbed order (`through`); then it went through, as
/// [`honest_orders_go_through`] says (`went`). Its end and an undisturbed read are taken after its write was heard
/// whole, if the world has room for two more events, and it goes through by them (`ahead`).
pub fn ways_are_followed()
    ensures { WaysAreFollowed }
{
    lower_laws();
}

/// Frames that come whole are what the promises on undisturbed frames ask for: a write that is delivered once, and then
/// over (`written`), an exchange of a request (`read`), and so of a cell's (`cell`), and of both an order that
/// WRITE_PROTECT allows (`sent`, `order`). So [`ways_are_followed`] and [`good_frames_end_jobs`] speak of them.
pub fn whole_frames_are_undisturbed()
    ensures { WholeFramesAreUndisturbed }
{}

/// The laws of the crates below that those of this crate rest on.
pub(crate) fn lower_laws()
    ensures { Below }
{
    cells_are_told_apart();
    cells_have_places();
    registers_are_in_the_table();
    writes_are_exact();
    requests_are_exact();
    answers_are_exact();
    damage_is_refused();
    betrayal_is_refused();
    damage_is_betrayed();
    bursts_are_betrayed();
    settings_are_a_map();
    orders_stay_in_their_cells();
    pasts_are_followed();
    words_have_an_origin();
    writes_reach_one_cell();
    reads_are_answered();
    sound_configurations_have_no_fault();
    transcripts_are_followed();
    ends_are_told();
    jobs_are_bounded();
    frames_are_named();
    open_restores_are_uncertain();
    possible_words_are_followed();
}
