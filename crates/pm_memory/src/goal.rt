//! Which words an output is to command once a course has ended.

ghost use Rattle.std.specs.Prelude.{◌≡◌, ◌≢◌, ◌<◌, is_some, None, Some, IfSome, IsSomeAnd};
ghost use Rattle.pm_host.specs.Image.{held};
ghost use Rattle.pm_host.specs.Summary.{format_at, possible_at};
ghost use Rattle.pm_rail.specs.Known.{sole};
ghost use Rattle.pm_rail.specs.Registers.{wants_of};
ghost use Rattle.pm_rail.specs.Survey.{wanted_in};
ghost use Rattle.pm_course.specs.Wishes.{voltage_of};
ghost use Rattle.pm_table.specs.Cell.{register_of, IsCell};
ghost use Rattle.pm_memory.specs.Delivery.{idle_host};
ghost use Rattle.pm_memory.specs.Goal.{course_number, has_goal, has_goal_by, has_wanted, is_commanding as spec_is_commanding, goal_register_number, selected_goal as spec_selected_goal, IsGoalBy, IsWanted};

use crate::GuardImage;
use crate::numbers::{ACCEPTED, NO_CELL, NO_GOAL};
use pm_course::FrameCourse;
use pm_host::{HostFault, State, nearest_word};
use pm_table::{Cell, Code, Operation, Reg, cell_of};

/// The goal of a course that is in memory.
pub fn course_goal(
    asked: &FrameCourse,
    host: &GuardImage,
    register: Option<Reg>,
    word: &mut u16,
) -> u8
    requires { asked.now.course.survey.output < 8 }
    ensures number { result ≡ course_number host.now (Some asked.now) register }
    ensures goal { result ≡ 0 → IsSomeAnd register
        (λ r. IsGoalBy (idle_host host.now) asked.now asked.now.course.byte r (Some word.new)) }
    ensures refused { result ≢ 0 → word.new ≡ word.old }
{
    if host.host.state.outputs <= asked.course.survey.output {
        return HostFault::UnknownOutput.number();
    }
    match register {
        Some(register) => register_goal(asked, &host.host.state, register, word),
        None => NO_CELL,
    }
}

// The goal of a register, if the course has one.
fn register_goal(asked: &FrameCourse, state: &State, register: Reg, word: &mut u16) -> u8
    requires { asked.now.course.survey.output < 8 }
    ensures number { result ≡ goal_register_number (held None state.now) asked.now (Some register) }
    ensures goal { result ≡ 0 → IsGoalBy (held None state.now) asked.now asked.now.course.byte register (Some word.new) }
    ensures refused { result ≢ 0 → word.new ≡ word.old }
{
    match goal_of(asked, state, register) {
        Some(goal) => {
            *word = goal;
            ACCEPTED
        }
        None => NO_GOAL,
    }
}

/// The register of a code.
pub fn register_in(code: u8) -> Option<Reg>
    ensures { result ≡ register_of code }
{
    match cell_of(Code(code), 0) {
        Some(Cell::Out(_, register)) => Some(register),
        _ => None,
    }
}

// The goal of a register.
fn goal_of(asked: &FrameCourse, state: &State, register: Reg) -> Option<u16>
    requires { asked.now.course.survey.output < 8 }
    ensures has { is_some result ≡ has_goal (held None state.now) asked.now register }
    ensures goal { IfSome result
        (λ goal. IsGoalBy (held None state.now) asked.now asked.now.course.byte register (Some goal)) }
{
    if is_commanding(register) {
        goal_by(asked, state, register)
    } else {
        None
    }
}

// Whether an output can command by a register.
fn is_commanding(register: Reg) -> bool
    ensures { result ≡ spec_is_commanding register }
{
    matches!(
        register,
        Reg::VoutCommand | Reg::MarginHigh | Reg::MarginLow
    )
}

// The goal of such a register.
fn goal_by(asked: &FrameCourse, state: &State, register: Reg) -> Option<u16>
    requires { asked.now.course.survey.output < 8 }
    ensures has { is_some result ≡ has_goal_by (held None state.now) asked.now asked.now.course.byte register }
    ensures goal { IsGoalBy (held None state.now) asked.now asked.now.course.byte register result }
{
    match asked.course.byte {
        Some(byte) => selected_goal(asked, state, byte, register),
        None => wanted_goal(asked, state, register),
    }
}

// The word that a register is known to hold that a byte selects which leaves the output on.
fn selected_goal(asked: &FrameCourse, state: &State, byte: u16, register: Reg) -> Option<u16>
    requires { asked.now.course.survey.output < 8 }
    ensures { result ≡ spec_selected_goal (held None state.now) asked.now byte register }
{
    if Operation::has_on(byte) && Operation::selected_register(byte).code() == register.code() {
        sole_at(state, Cell::Out(asked.course.survey.output, register))
    } else {
        None
    }
}

// The only word that a cell may hold.
fn sole_at(state: &State, cell: Cell) -> Option<u16>
    requires { IsCell 8 cell }
    ensures { result ≡ sole (possible_at (held None state.now) cell) }
{
    match state.known.possible(cell).listed() {
        Some([word]) => Some(*word),
        _ => None,
    }
}

// The word that is wanted of a register, or the one nearest to the voltage that is.
fn wanted_goal(asked: &FrameCourse, state: &State, register: Reg) -> Option<u16>
    requires { asked.now.course.survey.output < 8 }
    ensures has { let s = held None state.now in let c = asked.now in
        is_some result ≡ has_wanted (format_at s c.course.survey.output) (voltage_of c.voltages register)
        (wants_of (wanted_in c.course.survey.plan) register) }
    ensures goal { let s = held None state.now in let c = asked.now in
        IsWanted (format_at s c.course.survey.output) (voltage_of c.voltages register)
        (wants_of (wanted_in c.course.survey.plan) register) result }
{
    let Some(microvolts) = asked.voltages.of(register) else {
        return word_wanted(asked, register);
    };
    let Some(format) = state.format(asked.course.survey.output).voltage_format() else {
        return None;
    };
    match nearest_word(&format, microvolts) {
        Ok(word) => Some(word),
        Err(_) => None,
    }
}

// The word that is wanted of a register as such.
fn word_wanted(asked: &FrameCourse, register: Reg) -> Option<u16>
    ensures { result ≡ wants_of (wanted_in asked.now.course.survey.plan) register }
{
    match asked.course.survey.plan {
        Some(words) => words.word(register),
        None => None,
    }
}
