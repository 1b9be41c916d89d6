//! A caller for each law: a short function that has what the law says, mostly without a proof by hand. It calls the
//! law, which does nothing, and the rest follows from what a caller gets from `new`,
//! [`World::run`](pm_world::World::run), `step` and the calls of the other crates; so this crate is also the check that each
//! premise of a law is one that a caller gets. A law that speaks of no world, or of any events, is shown as it is. Six are
//! taken by the names of [`laws_by_name`], which a function opens by `unfolding`. Premises that stay are of the caller's
//! own events: that the converter didn't restart, say, or that a frame was undisturbed or damaged so.
//!
//! - `laws`: some laws of host and converter, each as a named statement that shows all its arguments, so that a caller
//!   gets it without writing a proof.
//! - `numbers`: a voltage that is refused, a format, and a limit that is rounded.
//! - `packets`: bits that changed, and packets that share their error code.
//! - `parts`: what a status register that is read says.
//! - `hearings`: what a converter makes of requests, and of frames for another address.
//! - `knowledge`: an open order, the ends of a band, and registers that a part lacks.
//! - `further`: a world that goes on after a run has each promise of `run` for the longer list of events too.
//! - `ends`: what the host says when a job begins and ends, and what an order that differs says of the converter.
//! - `damage`: damage that the packet error code betrays is legal.
//! - `deliveries`: what a look is worth, at a verdict that a rail delivers or went off.
//! - `exports`: the calls that C makes of a course are its steps, beside a part as it is.
//! - `exact`: what the host calls possible is exact, and the words that show it can be had in a world.
//! - `bands`: a band is exact if the possible words are.
//! - `logs`: what an accepted log is worth, and that nothing less would do.
//! - `limits`: limits that allow the start words of a usual part, by computing with them.
//! - `orders`: an order that nothing disturbs goes through, and a run says which one it was.
//! - `good`: what frames that come whole make of an open job, and how it ends once all of them do.
//! - `moves`: what moves a setting or the store.
//! - `plans`: what plans and surveys of rails are worth.
//! - `boards`: hosts and converters in pairs on one bus, each as if it had no neighbours.
//! - `own_loop`: events that a caller's own loop lets happen.
//! - `frame_courses`: what a course that hands out frames is worth.
//! - `progress`: that a course which hands out frames gets there, and what its end is worth by its last survey.
//! - `beside`: what a host knows, and what it orders comes to, beside a part as it is while anybody reads it.
//! - `restarts`: what a course is worth if the part restarts before it has ended, in a run and beside a part as it is.
//! - `late`: what a host's words are worth beside a part that takes each write late.
//! - `sequences`: what a list of steps is worth whose rails are looked at.
//! - `stairs`: what steps of several outputs are worth, up, back, and wherever they stop.
//! - `drivers`: what a driver makes of orders over a bus that restarts nothing, what a course over a bus is worth, and beside what a
//!   host may begin.
#![tactic(auto)]

pub mod bands;
pub mod beside;
pub mod boards;
pub mod damage;
pub mod deliveries;
pub mod drivers;
pub mod ends;
pub mod exact;
pub mod exports;
pub mod frame_courses;
pub mod further;
pub mod good;
pub mod hearings;
pub mod knowledge;
pub mod late;
mod laws;
pub mod limits;
pub mod logs;
pub mod moves;
pub mod numbers;
pub mod orders;
pub mod own_loop;
pub mod packets;
pub mod parts;
pub mod plans;
pub mod progress;
pub mod restarts;
pub mod sequences;
pub mod stairs;

pub use laws::laws_by_name;
