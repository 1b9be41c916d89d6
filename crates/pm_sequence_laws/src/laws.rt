//! The laws.

ghost use Rattle.pm_sequence_laws.specs.Back.{StairsGoBack};
ghost use Rattle.pm_sequence_laws.specs.Climb.{ClimbsAreStairs, ClimbsComeBack};
ghost use Rattle.pm_sequence_laws.specs.CourseCalls.{ExportsAreStepsBeside};
ghost use Rattle.pm_sequence_laws.specs.Delivers.{VerdictsAreOfAnswers};
ghost use Rattle.pm_sequence_laws.specs.Due.{MovesAreDue};
ghost use Rattle.pm_sequence_laws.specs.Finds.{FindsAreVerdicts};
ghost use Rattle.pm_sequence_laws.specs.Followed.{StairsAreFollowed};
ghost use Rattle.pm_sequence_laws.specs.Fresh.{OrdersAreFresh};
ghost use Rattle.pm_sequence_laws.specs.Handed.{CallsAreRuns, OrdersGoOnce};
ghost use Rattle.pm_sequence_laws.specs.Judged.{OrdersAreJudged, OrdersAreTold};
ghost use Rattle.pm_sequence_laws.specs.Ordered.{CellsTakeWhatIsOrdered};
ghost use Rattle.pm_sequence_laws.specs.Read.{EarlierAnswersCount, LimitsAreRead};
ghost use Rattle.pm_sequence_laws.specs.Runs.{ReachedSequencesDeliver};
ghost use Rattle.pm_sequence_laws.specs.SequenceCalls.{SequenceCallsAreRuns};
ghost use Rattle.pm_sequence_laws.specs.Stairs.{StairsHoldInLives};
ghost use Rattle.pm_sequence_laws.specs.Turned.{SequencesTurn};
ghost use Rattle.pm_sequence_laws.specs.Twice.{OrdersStopAtTwo};

use pm_course_laws::frame_courses_hold_beside;
use pm_device::{reads_are_answered, registers_say_what_calls_say};
use pm_frame::{betrayal_is_refused, damage_is_refused};
use pm_host::ends_are_told;
use pm_memory::sequences_are_kept;
use pm_table::cells_are_told_apart;
use pm_world::{
    events_are_lived, lives_are_orders, plans_hold_in_lives, possible_words_are_held,
    settings_move_by_the_open_job,
};

/// Each order that begins and leaves its output on, of a step whose rail is looked at, is one that the list names, and was judged: what stands
/// before the first order of its output was read, and its step's goal is within the fault limits that were, unless these are only told.
pub fn orders_are_judged()
    ensures { OrdersAreJudged }
{}

/// An order that turns an output on, or leaves it on, begins only if the survey of the course that names it is fresh: it began anew, so that the
/// format wasn't learned and nothing was read, and nothing was sent since but its own reads.
pub fn orders_are_fresh()
    ensures { OrdersAreFresh }
{}

/// In a list that asks before orders each order that begins is the one that was told last. What is told is an order that is due and was judged,
/// and nothing begins as it is told.
pub fn orders_are_told()
    ensures { OrdersAreTold }
{
    cells_are_told_apart();
}

/// The write of an order that turns an output on, or leaves it on, is handed out in the first pass of its job and in no later one.
pub fn orders_go_once()
    ensures { OrdersGoOnce }
{}

/// A step has at most two orders that turn its output on, or leave it on. What begins a step begins the count anew, and nothing else does.
pub fn orders_stop_at_two()
    ensures { OrdersStopAtTwo }
{}

/// `Reached` says that no step was left, and that each step that has to deliver was found to, after its last order.
pub fn reached_sequences_deliver()
    ensures { ReachedSequencesDeliver }
{}

/// Each call of a sequence is a step of the runs of which `reached_sequences_deliver` speaks: a frame that is handed out, a job that the guard
/// refuses, and what is heard.
pub fn calls_are_runs()
    ensures { CallsAreRuns }
{}

/// The list of a sequence goes as pm_stairs says, whose laws are of it: no job but one that the list names, and no step begins but as it says.
/// Where nothing begins, the survey of the course that was asked may begin anew.
/// A first step ahead that is kept from it changes nothing that it says of the one under way.
pub fn sequences_turn()
    ensures { SequencesTurn }
{}

/// What stands before the first order counts as read only once nothing of it was left to ask.
pub fn limits_are_read()
    ensures { LimitsAreRead }
{}

/// What an earlier list heard of an output before its first order is where the look before the first order starts: it is asked again only if no
/// good answer came, and fewer times than the host has passes.
pub fn earlier_answers_count()
    ensures { EarlierAnswersCount }
{}

/// What is told of a rail is pm_delivery's verdict of what was heard; of a step that has to deliver it is `Delivers`, or `WentOff`.
pub fn finds_are_verdicts()
    ensures { FindsAreVerdicts }
{}

/// From a moment on at which the host is idle, while the converter doesn't restart and no restore is asked for, a cell keeps its word or
/// gets one that was ordered for it: of any two moments (`took`). A cell for which nothing is ordered keeps its word (`kept`).
pub fn cells_take_what_is_ordered()
    ensures { CellsTakeWhatIsOrdered }
{
    ends_are_told();
    events_are_lived();
    lives_are_orders();
    settings_move_by_the_open_job();
}

/// Steps that are carried out one after another, while the converter doesn't restart: whatever is lost, cut, damaged, repeated or falsely
/// acknowledged, however orders end, and whenever the host restarts.
///
/// At each moment every output holds the words of the stair before the step under way, but that step's own output, which stands as at
/// this stair or as at the next (`between`, `each`). At an earlier moment fewer steps or the same had begun: no stair is skipped, and
/// none comes again (`earlier`). Each register of each output has the word of its stair if the last step is over by what the host
/// knows (`over`).
pub fn stairs_hold_in_lives()
    ensures { StairsHoldInLives }
{
    cells_take_what_is_ordered();
    events_are_lived();
    plans_hold_in_lives();
    possible_words_are_held();
}

/// The way back, from wherever steps were stopped: the steps undone, the newest first, are steps whose stairs are those of the way up.
/// Each register of each output has its word of before if the last is over.
pub fn stairs_go_back()
    ensures { StairsGoBack }
{
    cells_take_what_is_ordered();
    events_are_lived();
    plans_hold_in_lives();
    possible_words_are_held();
    stairs_hold_in_lives();
}

/// Steps are carried out event by event: what a caller's own loop goes by. Each word that a step is to change is known when it begins,
/// unless its plan has no answer.
pub fn stairs_are_followed()
    ensures { StairsAreFollowed }
{
    cells_take_what_is_ordered();
    events_are_lived();
    plans_hold_in_lives();
    possible_words_are_held();
}

/// What the stairs say next, by nothing but what a host knows: a job reads, or is the order that is due in the step under way. The
/// first step ahead begins only if the one before it is over by what is known then.
pub fn moves_are_due()
    ensures { MovesAreDue }
{
    cells_are_told_apart();
}

/// A caller that asks for what the stairs name carries out its steps in their order, one after another, and what it has noted undoes
/// them.
pub fn climbs_are_stairs()
    ensures { ClimbsAreStairs }
{
    events_are_lived();
    moves_are_due();
    stairs_are_followed();
}

/// A caller that stops wherever it will, and then carries out the steps that it has noted, is on the way back. Once the stairs say that all is
/// reached, each register of each output has its word of before.
pub fn climbs_come_back()
    ensures { ClimbsComeBack }
{
    climbs_are_stairs();
    moves_are_due();
    stairs_go_back();
    stairs_hold_in_lives();
}

/// A look that counts a word of STATUS_WORD or READ_VOUT as read heard it from the part: since the look began the part was asked for it, and
/// held it then (`status`, `voltage`). At a verdict `Delivers` the part's own STATUS_WORD had OFF and POWER_GOOD# 0 at such a moment, and
/// OPERATION had the output on (`delivers`). At `WentOff` it had OFF 1, and the output was off (`went_off`). It holds whatever else
/// happens meanwhile, and whatever is lost, cut, damaged or repeated of the look's own frames.
pub fn delivers_beside()
    ensures { VerdictsAreOfAnswers }
{
    betrayal_is_refused();
    damage_is_refused();
    reads_are_answered();
    registers_say_what_calls_say();
}

/// While a host's memory means the host beside a part, and a course's memory a course of it, the work of `pm_course_frame` isn't refused, and
/// leads on as [`frame_courses_hold_beside`] says (`frames`). That of `pm_course_write_ended` and `pm_course_read_ended` is a step of such a
/// course where it answers how the job stands (`told`), and that of `pm_course_after_write` and `pm_course_after_read` both (`told_on`). The
/// part is any, and anybody reads it between the calls. What the memories mean after a call is said too, of a host whole. Of a course it is
/// said what is written; each call reads what that means.
pub fn exports_are_steps_beside()
    ensures { ExportsAreStepsBeside }
{
    frame_courses_hold_beside();
}

/// The calls that C makes of a list of steps are a run of it (`runs`), from `pm_sequence_new` on: those of `pm_sequence_next`, and those that
/// tell what became of a frame. A refused one changes nothing. Where the memory's sequence has come to `PM_REACHED` no step was left, each step
/// of the list has begun, and each that has to deliver was found to after its last order (`reached`). Each call has to find the memory as the
/// call before left it, and that has to read as the sequence that was written, which pm_memory proves of sequences that memory keeps.
pub fn sequence_calls_are_runs()
    ensures { SequenceCallsAreRuns }
{
    sequences_are_kept();
    calls_are_runs();
    reached_sequences_deliver();
}
