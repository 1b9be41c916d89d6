//! Laws over the definitions: functions that do nothing, whose contracts are facts on every value.

ghost use Rattle.pm_lines.specs.Laws.{EndsFollowTheInput};

/// How an engine ends follows from the bytes of its input, however the reader cuts them, unless a stream failed or
/// memory was refused.
pub fn ends_follow_the_input<R, W, T>()
    ensures { EndsFollowTheInput R W T }
{}
