//! The law of captures, over the definitions: the contract of a function that does nothing.

ghost use Rattle.pm_decode.specs.Laws.{PlainCapturesAreTraces};

/// Without options a capture is shown as `pm_trace::decode` shows it, for every text.
pub fn plain_captures_are_traces()
    ensures { PlainCapturesAreTraces }
{}
