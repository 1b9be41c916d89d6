//! What goes wrong with one frame of a simulated bus.

use pm_world::{Arrival, Back};

/// What goes wrong with one frame, and what happens beside the bus before it.
#[derive(Debug, Drop)]
pub struct Fault {
    /// The converter restarts before the frame is sent.
    pub restarts: bool,
    /// The converter hears nothing of the frame, nothing comes back, and an adapter says so. The members below count for
    /// nothing then.
    pub unheard: bool,
    /// How a write is heard; `None` if it is lost.
    pub heard: Option<Arrival>,
    /// How it is heard once more.
    pub repeated: Option<Arrival>,
    /// What a write's acknowledgement says, whatever was heard.
    pub acked: bool,
    /// How a request is heard.
    pub request: Arrival,
    /// What comes back of the answer.
    pub back: Back,
}
