//! Several outputs of one converter in order, one step after another: a machine without I/O.
//!
//! A [`Step`] gives an output's registers words or voltages, or OPERATION a byte, or orders nothing. [`Stairs::next`] says what comes next: a job of
//! the step under way, or one that reads what the first one ahead needs. A step begins only if the one before it is over by what the host knows at that moment, and what it changes is known.
//!
//! The caller keeps the list. As a step begins it gets the [`WordStep`] that undoes it, and keeps that too: carried out the newest first, by
//! stairs of their own, they are the way back. Each step goes by a [`pm_course::FrameCourse`]; an order that isn't due by the step's
//! words is never given.
//!
//! It sends nothing, waits for nothing and takes no memory. What it is worth over lives: crates/pm_sequence_laws.
#![tactic(auto)]

mod command;
mod due;
mod open_course;
mod said;
mod sequence;
mod sight;
mod stairs;
mod step;
mod way_back;

pub use command::same_command;
pub use due::Due;
pub use said::{Said, StepEnd};
pub use sequence::{Placed, Sequence, Turn};
pub use sight::Sight;
pub use stairs::{Move, Stairs, Under};
pub use step::{Act, Step, WordAct, WordStep};
pub use way_back::{goal, way_back_fault};
