//! The outputs of a scenario's head.

use pm_device::OutputStart;

/// The outputs that were read: how many, of which more than 255 count as 255, and the first eight.
#[derive(Clone, Copy, Debug)]
pub(crate) struct Starts {
    pub(crate) count: u8,
    pub(crate) starts: [OutputStart; 8],
}

impl Starts {
    ghost use Rattle.std.specs.Prelude.{◌≡◌, List, [], ◌∷◌, ◌++◌};
    ghost use Rattle.pm_device.specs.declared.output_start.OutputStart.{OutputStart as Start};
    ghost use Rattle.pm_text.specs.ScenarioText.{starts_of};

    /// No outputs.
    pub(crate) fn new() -> Starts
        ensures { result ≡ starts_of [] }
    {
        Starts {
            count: 0,
            starts: [OutputStart::NONE; 8],
        }
    }

    /// Appends an output.
    pub(crate) fn push(&mut self, start: OutputStart)
        ensures { (given : List Start) → self.old ≡ starts_of given
            → self.new ≡ starts_of (given ++ start ∷ []) }
    {
        let place = usize::from(self.count);
        if place < self.starts.len() {
            self.starts[place] = start;
        }
        self.count = self.count.saturating_add(1);
    }
}
