//! What each engine writes of its worked text.

use crate::{Engine, FRAME, LINES, REPORT, SCENARIO, TAKEN, TRACE};

/// Each engine, its worked text, what it writes of that, and whether it ends well.
pub(crate) fn worked() -> [(Engine, &'static str, &'static str, bool); 3] {
    [
        (Engine::Replay, SCENARIO, REPORT, true),
        (Engine::Decode, TRACE, LINES, false),
        (Engine::Hear, FRAME, TAKEN, true),
    ]
}
