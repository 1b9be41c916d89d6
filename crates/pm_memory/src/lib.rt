//! What callers in C keep in their memory, and the work of each call on it. A host with its limits, a course and a sequence are
//! plain numbers there, each with what the numbers mean: a number without a meaning is read as one that has one, so that memory of
//! any bytes is safe to read. The work of each call is what `pm_host_c` exports: what it answers as plain numbers, and the numbers
//! of refusals.
//!
//! Tests: crates/pm_host_c/src/tests.rt, trials/c
#![tactic(auto)]

pub mod answer;
pub mod course;
mod course_end_image;
mod course_image;
mod delivery_image;
mod format_numbers;
pub mod goal;
mod guard_image;
mod heard;
pub mod host;
pub mod host_step;
mod hosted;
pub mod judgement;
pub mod known;
pub mod known_cells;
mod laws;
pub mod limits;
mod list_image;
mod look_image;
pub mod names;
pub mod numbers;
pub mod other_read;
pub mod packet;
pub mod placed;
pub mod rail;
mod reading;
mod sending_image;
pub mod sequence;
mod sequence_end;
mod sequence_image;
mod sequence_said;
pub mod sequence_step;
pub mod told;
pub mod voltages;
mod wanted_image;

pub use course_end_image::{CourseEndImage, EndNumbers};
pub use course_image::{
    CourseImage, DifferedImage, HasImage, ReadImage, VoltagesImage, job_numbers,
};
pub use delivery_image::DeliveryImage;
pub use format_numbers::FormatNumbers;
pub use guard_image::{GuardImage, LimitsImage, OUTPUTS, RegistersImage};
pub use laws::{courses_are_kept, memories_are_meanings, refusals_are_named, sequences_are_kept};
pub use list_image::{ListImage, UnderImage};
pub use look_image::{LookImage, SilenceImage};
pub use sending_image::SendingImage;
pub use sequence_end::{SequenceEndImage, VerdictNumbers};
pub use sequence_image::{SaidImage, SequenceImage, ToldImage};
pub use wanted_image::{WantedImage, WishImage};
