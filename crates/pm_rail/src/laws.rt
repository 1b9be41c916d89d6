//! The laws of a plan, over the definitions only: each is the contract of a function that does nothing.

ghost use Rattle.pm_rail.specs.Laws.{CoursesEnd, PlansAreAccepted, PlansAreOfWhatIsHeld, PlansAreWithoutGlitch, PlansEnd, SurveysEndKnown};

/// Each order of the plan leaves what the output commands, or makes it what it commands at the end (`one`). Any number of
/// orders from any moment on do so, too, if the output isn't cut by the words at the end (`any`). The output never commands
/// anything but its first value and its last, and changes once at most.
pub fn plans_are_without_glitch()
    ensures { PlansAreWithoutGlitch }
{}

/// Each order is of a wanted word that its register doesn't have (`due`); if none is left, each register has its
/// wanted word (`done`), and that is so after five orders at most (`five`).
pub fn plans_end()
    ensures { PlansEnd }
{}

/// What a plan answers by what is known is what it answers for the words that are held, whichever of the possible ones
/// these are: the next order is theirs (`next`), and the output isn't cut by the words at the end (`uncut`). Each
/// wanted word is held if no order is left (`done`).
pub fn plans_are_of_what_is_held()
    ensures { PlansAreOfWhatIsHeld }
{}

/// An order that a plan gives by a guard's limits is one that the guard lets through and its host accepts.
pub fn plans_are_accepted()
    ensures { PlansAreAccepted }
{}

/// A survey that has ended by its own rule has its answers: since it began the format was learned and is known (`format`),
/// each register that is needed is known, and was read if the part has it (`known`), and for a plan WRITE_PROTECT too
/// (`protection`). A survey asks until then while it has tries left, and each job takes one (`asks`), unless it is stuck
/// at a needed register that the part doesn't have. It never is stuck with a part that has every register (`whole`). It
/// never asks for a register that the part doesn't have (`unread`). The output has a band if the survey has ended by its
/// own rule (`band`).
pub fn surveys_end_known()
    ensures { SurveysEndKnown }
{}

/// Each job that a course names takes a try, so that it names as many as it has tries at most (`takes`, `told`). What a course
/// to wanted words or to nothing names is refused by nothing (`free`). One to nothing orders nothing (`reads`); and if one to
/// words or to nothing has reached its end, its survey has ended by its own rule (`surveyed`).
pub fn courses_end()
    ensures { CoursesEnd }
{
    plans_are_accepted();
}
