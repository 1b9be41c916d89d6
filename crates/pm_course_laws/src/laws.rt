//! The laws, over nothing but definitions.

ghost use Rattle.pm_course_laws.specs.Between.{FrameCoursesKeepBetween};
ghost use Rattle.pm_course_laws.specs.Chains.{ChainsEnd};
ghost use Rattle.pm_course_laws.specs.FrameLives.{FrameCoursesHoldInLives};
ghost use Rattle.pm_course_laws.specs.FrameWays.{FrameCoursesGoTheirWay};
ghost use Rattle.pm_course_laws.specs.FramesBeside.{FrameCoursesHoldBeside};
ghost use Rattle.pm_course_laws.specs.Progress.{FrameCoursesGetThere};
ghost use Rattle.pm_course_laws.specs.ProgressBeside.{FrameCoursesGetThereBeside};
ghost use Rattle.pm_course_laws.specs.Reached.{ReachedSinceItRead};
ghost use Rattle.pm_course_laws.specs.ReachedBeside.{ReachedSinceItReadBeside};
ghost use Rattle.pm_course_laws.specs.Restarts.{CoursesKeepBetween};

use pm_device::{requests_latch_at_most, words_have_an_origin};
use pm_host::{open_orders_are_uncertain, transcripts_are_followed};
use pm_part_laws::same_settings_live_alike;
use pm_rail::{courses_end, plans_end, surveys_end_known};
use pm_table::{cells_are_told_apart, cells_have_places};
use pm_world::{
    courses_hold_in_lives, events_are_lived, good_frames_end_jobs, learned_formats_are_true,
    lists_say_enough, lives_are_followed, open_jobs_end, possible_words_are_held,
    restarts_keep_between, settings_move_by_the_open_job, surveys_hold_in_lives,
    whole_frames_are_undisturbed,
};

/// A course that hands out frames, over every life whose caller sends its frames and reports their ends to it, and gives no other
/// order of its output and no restore, while the converter doesn't restart.
///
/// A course to wishes goes the way of [`pm_rail::Course`] to the words that the wishes have in the converter's format, so that what
/// [`courses_hold_in_lives`] says of that way is true of the course (`words`). Each job that it says is named by that way and
/// refused by nothing. The output commands at any moment what it did at an earlier one or what is wanted, and other registers keep
/// their words. The wanted words are held if the course comes to the end `Reached`. A course to wishes of which one has no word
/// orders nothing (`unformed`), nor does a survey (`surveys`). A course that turns the output off goes the way to that byte
/// (`off`). A course to a byte that leaves the output on orders nothing but that byte, once it has read WRITE_PROTECT and that
/// allows it (`on`). It may check the register that the byte selects, so this asks that nothing is checked that the part doesn't
/// have, as a guard lets no such check begin (`had`).
///
/// Nothing is said of what the words are after the moment at which a course says `Reached`. A converter of a life has one format, so
/// that an exchange of the part is a restart, after which nothing is said.
pub fn frame_courses_hold_in_lives()
    ensures { FrameCoursesHoldInLives }
{
    courses_end();
    courses_hold_in_lives();
    events_are_lived();
    learned_formats_are_true();
    lives_are_followed();
}

/// A course to wishes that hands out frames goes the way of [`pm_rail::Course`] to the words that the wishes have in the converter's
/// format, however often the converter restarts: what is true of that way is true of it.
pub fn frame_courses_go_their_way()
    ensures { FrameCoursesGoTheirWay }
{
    courses_end();
    courses_hold_in_lives();
    events_are_lived();
    learned_formats_are_true();
    lives_are_followed();
}

/// A course to wishes gets there, over every life, from a moment on from which each of its frames is heard once and whole and each answer
/// comes back.
///
/// A course that begins then, while the host is idle, takes at most 28 jobs, whatever the host knew, and 15 if the words that the part holds
/// refuse it or nothing is to be ordered (`begins`). The part has the registers that are wanted and the one that OPERATION selects, as
/// a part with every register does (`whole`). A course that is under way takes 28 jobs too, from a moment at which no job is open, if it
/// has no end, no order differed twice, and the converter didn't restart since the answers that its survey counts as read (`goes_on`).
/// Nothing refuses a job that it says, and an open job has a frame to send, so whoever sends its frames comes to its end: `Reached`, or the
/// refusal by the words that the part held.
pub fn frame_courses_get_there()
    ensures { FrameCoursesGetThere }
{
    courses_end();
    courses_hold_in_lives();
    events_are_lived();
    learned_formats_are_true();
    lives_are_followed();
    good_frames_end_jobs();
    open_jobs_end();
    whole_frames_are_undisturbed();
    settings_move_by_the_open_job();
    requests_latch_at_most();
    open_orders_are_uncertain();
    transcripts_are_followed();
    cells_are_told_apart();
    chains_end();
    possible_words_are_held();
    words_have_an_origin();
}

/// A course to wanted words that is carried out by jobs which nothing disturbs, with no frame and no bus, ends by what the converter held: as
/// it begins, and under way.
pub fn chains_end()
    ensures { ChainsEnd }
{
    cells_are_told_apart();
    cells_have_places();
    words_have_an_origin();
    learned_formats_are_true();
    surveys_end_known();
    courses_end();
}

/// What the end `Reached` is worth by the answers of the last survey alone: if the converter didn't restart since these, each wanted word
/// is held, and the output commands what is wanted, which its band says too (`reached`). Restarts before that survey's first read take
/// nothing from it (`steady`, `reads`).
pub fn reached_since_it_read()
    ensures { ReachedSinceItRead }
{
    courses_end();
    courses_hold_in_lives();
    events_are_lived();
    learned_formats_are_true();
    lives_are_followed();
    surveys_hold_in_lives();
    surveys_end_known();
    possible_words_are_held();
}

/// A course that hands out frames, beside any part, whatever PAGE it is at and whatever an earlier host left in it, while anybody reads it
/// between the frames: what [`frame_courses_hold_in_lives`] says of a life, while the part doesn't restart.
///
/// The output commands at any moment what it did at an earlier one or what is wanted, and other registers keep their words (`words`). The
/// wanted words are held if the course comes to the end `Reached`. A course to wishes of which one has no word orders nothing
/// (`unformed`), nor does a survey (`surveys`). A course to a byte of OPERATION changes nothing but that byte (`off`, `on`, `says`). The
/// calls of a course are the steps of its way (`hands`, `tells`).
pub fn frame_courses_hold_beside()
    ensures { FrameCoursesHoldBeside }
{
    same_settings_live_alike();
    frame_courses_hold_in_lives();
}

/// What [`frame_courses_get_there`] says of a life, beside any part, whatever PAGE it is at and whatever an earlier host left in it, while
/// anybody reads it between the frames.
pub fn frame_courses_get_there_beside()
    ensures { FrameCoursesGetThereBeside }
{
    same_settings_live_alike();
    lists_say_enough();
    frame_courses_get_there();
}

/// What [`reached_since_it_read`] says of a life, beside any part, whatever PAGE it is at and whatever an earlier host left in it, while
/// anybody reads it between the frames.
pub fn reached_since_it_read_beside()
    ensures { ReachedSinceItReadBeside }
{
    same_settings_live_alike();
    lists_say_enough();
    reached_since_it_read();
}

/// A course to wishes that hands out frames, beside any part, however often that restarts, however its frames are lost, cut, damaged or
/// repeated, and whatever anybody reads of it between them.
///
/// Nothing is written to its output but the words that the wishes have in the part's format, if nothing else is ordered or stored and
/// nothing is restored (`writes`). At each moment before the part first restarts the output commands what it did at an earlier one, or what
/// is wanted (`earlier`). From then on, if neither the stored words nor those that are to be held at the end are cut, and OPERATION selects
/// the same register as it did, the output commands a value between its start value and what is wanted (`between`). A start value that the
/// stored VOUT_MAX or VOUT_MIN cuts may be let go as far as the wanted limits (`let_go`).
pub fn frame_courses_keep_between_beside()
    ensures { FrameCoursesKeepBetween }
{
    same_settings_live_alike();
    frame_courses_go_their_way();
    courses_keep_between();
}

/// A course to wanted words, over every life, however frames are lost, cut, damaged or repeated and however its jobs end.
///
/// Nothing is written to its output but wanted words, if nothing else is ordered or stored and nothing is restored (`writes`). At
/// each moment before the part first restarts the output commands what it did at an earlier one, or what is wanted (`earlier`), also
/// if it restarts later. From then on, if neither the stored words nor those that are to be held at the end are cut, and OPERATION
/// selects the same register as it did, the output commands a value between its start value and what is wanted (`between`). A
/// start value that the stored VOUT_MAX or VOUT_MIN cuts may be let go as far as the wanted limits (`let_go`).
pub fn courses_keep_between()
    ensures { CoursesKeepBetween }
{
    plans_end();
    courses_hold_in_lives();
    events_are_lived();
    restarts_keep_between();
}
