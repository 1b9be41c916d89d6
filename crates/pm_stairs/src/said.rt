//! What the stairs make of what the course of a step says.

ghost use Rattle.std.specs.Prelude.{◌≡◌};
ghost use Rattle.pm_table.specs.Cell.{same_cell};
ghost use Rattle.pm_stairs.specs.Due.{said_of_asked_job as spec_asked_for, is_due_order as spec_is_due_order, is_settled as spec_is_settled, is_unread_off as spec_is_unread_off, looking_first as spec_looking, ordered as spec_ordered, reached as spec_reached, said_of as spec_said_of};

use crate::due::Due;
use pm_course::{CourseEnd, CourseNext};
use pm_host::Job;
use pm_rail::{Course, PlanOrder};
use pm_table::{Cell, Operation, Reg};

/// What a step asks for, by its course and by what is known.
#[derive(Clone, Copy, Debug, PartialEq, Eq)]
pub enum Said {
    /// An order of this word.
    Orders(Cell, u16),
    /// A job of its course that reads.
    Reads(Job),
    /// A read of this cell before it begins, or before it is known to be over, that its course doesn't ask for.
    Looks(Cell),
    /// Nothing: it is over.
    Over,
    /// Nothing: it stops so.
    Stops(StepEnd),
}

/// Why a step stops.
#[derive(Clone, Copy, Debug, PartialEq, Eq)]
pub enum StepEnd {
    /// Its course has ended so, and not `Reached`.
    Course(CourseEnd),
    /// Its course asks for an order that isn't due by the words with which it began: the format changed, or another orders beside it.
    Changed,
    /// An answer showed that the part restarted or was exchanged.
    Restarted,
}

// What the stairs make of what the course of a step of this output says, which has begun or begins now.
pub(crate) fn said_of(begun: bool, output: u8, course: &Course, due: &Due, next: CourseNext) -> Said
    ensures { result ≡ spec_said_of begun output course.now due.now next }
{
    match next {
        CourseNext::Job(job) => asked_for(begun, output, course, due, job),
        CourseNext::Ended(CourseEnd::Reached) => reached(due),
        CourseNext::Ended(CourseEnd::Differs(Reg::Operation, _)) if due.over => Said::Over,
        CourseNext::Ended(end) => Said::Stops(StepEnd::Course(end)),
    }
}

// The answer to a job that its course says.
fn asked_for(begun: bool, output: u8, course: &Course, due: &Due, job: Job) -> Said
    ensures { result ≡ spec_asked_for begun output course.now due.now job }
{
    match job {
        Job::Order(cell, word) => ordered(begun, output, course, due, cell, word),
        Job::Check(_) | Job::Learn(_) => Said::Reads(job),
        Job::OrderMicro(..) | Job::Send(_) => Said::Stops(StepEnd::Changed),
    }
}

// The answer to an order.
fn ordered(begun: bool, output: u8, course: &Course, due: &Due, cell: Cell, word: u16) -> Said
    ensures { result ≡ spec_ordered begun output course.now due.now cell word }
{
    if !is_due_order(output, due.order, cell, word) {
        return Said::Stops(StepEnd::Changed);
    }
    if is_settled(course, due, word) {
        return Said::Over;
    }
    let orders = Said::Orders(cell, word);
    if begun {
        orders
    } else if is_unread_off(course, cell, word) {
        Said::Looks(cell)
    } else {
        looking(due.lacks, orders)
    }
}

// Whether it turns an output off whose OPERATION wasn't read in this step.
fn is_unread_off(course: &Course, cell: Cell, word: u16) -> bool
    ensures { result ≡ spec_is_unread_off course.now cell word }
{
    match cell {
        Cell::Out(_, Reg::Operation) => {
            !Operation::has_on(word) && !course.survey.read.operation
        }
        _ => false,
    }
}

// Whether the step is over without the order of this byte: one that leaves the output on, if all was read since the last order; or one that
// turns it off, if that was read back with bits that don't count.
fn is_settled(course: &Course, due: &Due, word: u16) -> bool
    ensures { result ≡ spec_is_settled course.now due.now word }
{
    due.over
        && (if Operation::has_on(word) {
            !course.ordered
        } else {
            course.differed.operation
        })
}

// The answer if its course has ended `Reached`.
fn reached(due: &Due) -> Said
    ensures { result ≡ spec_reached due.now }
{
    if due.over {
        Said::Over
    } else {
        looking(due.lacks, Said::Stops(StepEnd::Changed))
    }
}

// A cell is looked at first if it has to be known.
fn looking(lacks: Option<Cell>, said: Said) -> Said
    ensures { result ≡ spec_looking lacks said }
{
    match lacks {
        Some(cell) => Said::Looks(cell),
        None => said,
    }
}

// Whether this is the order that is due.
fn is_due_order(output: u8, due: Option<PlanOrder>, cell: Cell, word: u16) -> bool
    ensures { result ≡ spec_is_due_order output due cell word }
{
    match due {
        Some(order) => is_cell(cell, output, order) && word == order.word,
        None => false,
    }
}

// Whether a cell is the register of an order.
fn is_cell(cell: Cell, output: u8, order: PlanOrder) -> bool
    ensures { result ≡ same_cell cell (Cell.Out output order.register) }
{
    match cell {
        Cell::Out(other, register) => {
            other == output && register.code() == order.register.code()
        }
        Cell::Protect => false,
    }
}
