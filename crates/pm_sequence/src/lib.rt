//! One list of steps over outputs of up to eight parts, from the first read to what the rails do: the machine that users have.
//!
//! Each [`Step`] is an output, what is done to it, how its rail is looked at, how long is waited before it, and whether it has to deliver
//! before the next one begins. [`Sequence::next`] says what comes next: a job of a host, a read beside the hosts' jobs, a wait, or how
//! it ended. One output is a list of one step.
//!
//! It sends nothing, waits for nothing and takes no memory. It holds neither a host nor the list. Its laws: crates/pm_sequence_laws.
#![tactic(auto)]

mod frames;
mod gate;
mod look;
mod lowers;
mod sequence;
mod sight;
mod step;

pub use frames::{hear_course, heard_fresh};
pub use gate::Gate;
pub use look::{Look, LookAct, Probe, Silence};
pub use sequence::{Act, End, Fresh, Phase, Rules, Sequence};
pub use step::{Looks, Step};
