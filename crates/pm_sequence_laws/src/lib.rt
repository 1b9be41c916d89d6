//! What a list of steps is worth: which orders begin, what was read and judged before, what a verdict of a look means beside any
//! part that anybody reads, and what `Reached` says of the rails. Over whole lives the outputs of a converter stand at one stair at
//! each moment, but the output of the step under way, which stands at that stair or at the next one. The calls that C makes of a
//! course, and of a list, are the steps of which these laws and those of courses speak.
//!
//! The laws do nothing when they run: a caller has what one says by calling it.
//!
//! Tests: crates/pm_law_tests
#![tactic(auto)]

mod laws;

pub use laws::{
    calls_are_runs, cells_take_what_is_ordered, climbs_are_stairs, climbs_come_back,
    delivers_beside, earlier_answers_count, exports_are_steps_beside, finds_are_verdicts,
    limits_are_read, moves_are_due, orders_are_fresh, orders_are_judged, orders_are_told,
    orders_go_once, orders_stop_at_two, reached_sequences_deliver, sequence_calls_are_runs,
    sequences_turn, stairs_are_followed, stairs_go_back, stairs_hold_in_lives,
};
