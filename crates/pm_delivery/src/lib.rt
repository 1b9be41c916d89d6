//! What a rail does, beside what its registers hold: a good end of an order says that a register has a word, and this says whether
//! the output delivers it.
//!
//! A [`Delivery`] is a machine without I/O, of plain numbers. It reads by PAGE_PLUS only, beside the host's jobs: no job hears of
//! its answers. Before the first order it asks for STATUS_WORD and the fault limits, and [`Delivery::judge`] says which of these a
//! word is at or beyond. It asks for STATUS_WORD and READ_VOUT after a good end, and [`Delivery::verdict`] says what the rail does. A part
//! without STATUS_WORD is judged by READ_VOUT.
//!
//! Tests: crates/pm_core_tests
#![tactic(auto)]

mod answers;
mod beyond;
mod delivery;
mod due;
mod fault;
mod heard;
mod question;
mod reading;
mod status;
mod verdict;

pub use answers::{NO_ANSWER, answer_of, answers_off, request};
pub use beyond::{Judgement, Limit};
pub use delivery::{
    Delivery, FOUND_NO_READ_VOUT, FOUND_NO_STATUS_WORD, FaultBit, LACKS_READ_VOUT,
    LACKS_STATUS_WORD, LIMITS_REFUSE, LIMITS_SKIP, LIMITS_TELL, LOOK_AFTER, LOOK_BEFORE,
    LOOK_LOWERED, LOOK_NOWHERE, LOOK_OFF,
};
pub use due::Due;
pub use fault::DeliveryFault;
pub use heard::Heard;
pub use question::Question;
pub use reading::Reading;
pub use verdict::Verdict;
