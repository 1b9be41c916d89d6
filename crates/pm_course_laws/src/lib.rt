//! What a course that hands out frames is worth over lives: the laws of [`pm_course::FrameCourse`], which every user runs, and what
//! one is worth if the part restarts before it has ended, seen or unseen and as often as you like.
//!
//! A caller that carries such a course has them by a call of the law, which does nothing when it runs.
//!
//! Tests: crates/pm_law_tests
#![tactic(auto)]

mod laws;

pub use laws::{
    chains_end, courses_keep_between, frame_courses_get_there, frame_courses_get_there_beside,
    frame_courses_go_their_way, frame_courses_hold_beside, frame_courses_hold_in_lives,
    frame_courses_keep_between_beside, reached_since_it_read, reached_since_it_read_beside,
};
