//! A host and a converter at the two ends of a bus, and what happens between them.
//!
//! A [`World`] holds one [`Host`](pm_host::Host) and one [`Converter`](pm_device::Converter). An [`Event`]
//! asks the host for a job, lets a frame arrive whole, cut or damaged, gives an answer back, or restarts an
//! end. [`World::run`] takes a list of them, and its contract is the main theorem: what the converter's
//! settings are, what the host's words about them are worth, and when an order goes through.
//!
//! What a run tests of the bus is that the packet error code (PEC) betrays damage. Bytes that it doesn't betray, that no cut and no
//! repeated start explains, and that aren't too few for an answer, stop a run as [`Cause::NotBetrayed`]. What no run can test are premises:
//! there are one host and one converter, a frame is heard only during its own attempt, and an answer belongs to its own exchange. Time,
//! voltages between frames and more than one converter are no part of a world.
//!
//! An order whose write is cut, repeated and not acknowledged:
//!
//! ```
//! fn ordered(config: Config) -> Result<Option<JobEnd>, SetupFault> {
//!     let events = [
//!         Event::Order(Cell::Out(0, Reg::VoutCommand), 0x34CD),
//!         Event::Deliver(Arrival::Cut(3)), // lost but for three bytes
//!         Event::Deliver(Arrival::Whole), // and repeated, whole
//!         Event::Finish(false), // its acknowledgement is lost
//!         Event::Exchange(Arrival::Whole, Back::Whole), // the cell is read back
//!     ];
//!     let (world, _) = World::run(config, 2, &events)?; // no stop: all are taken
//!     Ok(world.last_end()) // JobEnd::Done: the host calls 34CDh confirmed, and the converter holds it
//! }
//! ```
//!
//! Tests: crates/pm_world_tests, crates/pm_law_tests
#![tactic(auto)]

mod board_laws;
mod cause;
mod event;
mod laws;
mod legal;
mod openness;
mod part_laws;
mod rail_laws;
mod short;
mod watch;
mod way;
mod world;

pub use board_laws::{
    a_pair_on_a_board, neighbours_are_apart, ones_are_no_answer, reads_that_share_their_code,
};
pub use cause::{Cause, Stop};
pub use event::{Arrival, Back, Event};
pub use laws::{
    answers_come_in_bytes, bands_are_exact, bands_are_held, betrayed_damage_is_legal,
    causes_decide, confirmed_settings_are_held, differing_orders_never_took, events_are_lived,
    frames_are_few, good_frames_end_jobs, honest_orders_go_through, learned_formats_are_true,
    lists_say_enough, lives_are_followed, lives_are_orders, lives_stay_limited, open_jobs_end,
    open_lists_are_followed, possible_words_are_exact, possible_words_are_held,
    settings_move_by_the_open_job, spell, ways_are_followed, whole_frames_are_undisturbed,
};
pub use legal::{
    answer_in, back_bytes, heard_bytes, heard_ending, is_heard_whole, is_legal_hearing,
    is_legal_return,
};
pub use openness::run_open;
pub use part_laws::{
    lives_leave_parts, parts_are_reached, starts_are_parts, stored_configs_start_so,
};
pub use pm_setup::SetupFault;
pub use rail_laws::{
    courses_hold_in_lives, mixtures_lie_between, plans_hold_in_lives, restarts_keep_between,
    surveys_hold_in_lives,
};
pub use short::words_are_short;
pub use way::{Way, run_way};
pub use world::World;
