//! A job's next stage or its end.

ghost use Rattle.std.specs.Prelude.{◌≡◌};
ghost use Rattle.pm_host.specs.Progress.{stage_of_progress, step_of_progress};

use crate::host::Step;
use crate::job::JobEnd;
use crate::stage::Stage;

/// A job's next stage or its end, once its frame was sent.
#[derive(Clone, Copy, Debug, PartialEq, Eq)]
pub enum Progress {
    /// It goes on at this stage, whose frame is sent next.
    At(Stage),
    /// It has ended.
    Over(JobEnd),
}

impl Progress {
    /// The stage of the open job; `None` if none is open.
    pub fn stage(self) -> Option<Stage>
        ensures { result ≡ stage_of_progress self }
    {
        match self {
            Progress::At(stage) => Some(stage),
            Progress::Over(_) => None,
        }
    }

    /// What a call answers that says what became of the frame.
    pub fn step(self) -> Step
        ensures { result ≡ step_of_progress self }
    {
        match self {
            Progress::At(_) => Step::Next,
            Progress::Over(end) => Step::Ended(end),
        }
    }
}
