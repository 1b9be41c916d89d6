//! One way to a voltage, frame after frame: the machine that users have of a course.
//!
//! A [`FrameCourse`] brings an output to what is wanted of it, to words or voltages in microvolts, to a byte of OPERATION, or to nothing,
//! which is a survey. [`FrameCourse::frame`] hands out what is to be sent now, [`FrameCourse::write_ended`] and [`FrameCourse::read_ended`]
//! hear what became of it; once it hands out nothing, [`FrameCourse::end`] says how the course ended. It asks a [`pm_rail::Course`] for
//! each job, and orders nothing that this doesn't name but a byte of OPERATION over one that the cell doesn't take. It adds words of
//! voltages by the format that the host knows at that moment, and what was wrong with the last answer. It ends at once if VOUT_MODE names
//! no format or OPERATION holds a byte that its cell doesn't take. It reads WRITE_PROTECT before an output is turned on. It learns the
//! format anew after an answer that shows that the part restarted or was exchanged.
//!
//! It drives any host with its limits that is [`Hosted`]. It sends nothing, waits for nothing and takes no memory.
//!
//! Tests: crates/pm_core_tests
#![tactic(auto)]

mod accept;
mod accept_fault;
mod answer_fault;
mod course_end;
mod frame_course;
mod frames;
mod heard;
mod hosted;
mod surprise;
mod told;
mod voltages;
mod wish;
mod words;

pub use accept_fault::AcceptFault;
pub use answer_fault::AnswerFault;
pub use course_end::{CourseEnd, CourseNext, Refusal};
pub use frame_course::FrameCourse;
pub use frames::{Sending, sent_by};
pub use hosted::{Heard, Hosted};
pub use surprise::{Noticed, notices, surprises};
pub use voltages::Voltages;
pub use wish::{Wish, Wishes};
