//! The laws of a host over its whole transcript, over the definitions only. A transcript is newest
//! first.

ghost use Rattle.pm_host.specs.Laws.{TranscriptsAreFollowed, EndsAreTold, JobsAreBounded, FramesAreNamed, OpenOrdersAreUncertain, OpenRestoresAreUncertain, PossibleWordsAreFollowed};
ghost use Rattle.pm_host.specs.Memory.{ImagesAreMeanings};

use pm_table::cells_have_places;

/// What a host holds after its transcript, which the definitions find by looking back over the whole of it,
/// is what one entry after another makes of its start. What the host answers is what the definitions find.
pub fn transcripts_are_followed()
    ensures { TranscriptsAreFollowed }
{
    // law: each cell has a place of its own, for what is known of it
    cells_have_places();
}

/// What the end of a job says of what a host then knows, over its whole transcript. The open job is the one that its
/// stage says (`job`). Each entry that says what came of a frame leaves it open, or ends it with what
/// [`Host::told`](crate::Host::told) says then (`says`).
pub fn ends_are_told()
    ensures { EndsAreTold }
{
    // law: each cell has a place of its own, for what is known of it
    cells_have_places();
    transcripts_are_followed();
}

/// No job sends more than twice as many frames as a job has passes.
pub fn jobs_are_bounded()
    ensures { JobsAreBounded }
{
    // law: each cell has a place of its own, for what is known of it
    cells_have_places();
}

/// The frames that a host sends are of a few kinds, each has its layout, and none means PAGE.
pub fn frames_are_named()
    ensures { FramesAreNamed }
{}

/// While an order is open its word is one that its cell may hold, and no word of the cell is confirmed.
pub fn open_orders_are_uncertain()
    ensures { OpenOrdersAreUncertain }
{}

/// While a restore is open any word is possible for each cell of an output, and none is confirmed.
pub fn open_restores_are_uncertain()
    ensures { OpenRestoresAreUncertain }
{}

/// Which words a cell may hold, by one mark after another.
pub fn possible_words_are_followed()
    ensures { PossibleWordsAreFollowed }
{}

/// What the calls of a host leave in its memory is a function of what the host holds: a number without a meaning is 0,
/// and of a format FFh.
pub fn images_are_meanings()
    ensures { ImagesAreMeanings }
{}
