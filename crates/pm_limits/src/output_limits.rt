//! What is known of the limits of an output.

use crate::limits::Limits;

/// What an output's voltage is limited to, as far as the caller said it.
#[derive(Clone, Copy, Debug)]
pub enum OutputLimits {
    /// Nothing is known: neither were limits given, nor was it said that there are none. No voltage is ordered.
    Unknown,
    /// It has none, as the caller said.
    Unlimited,
    /// It lies between these.
    Between(Limits),
}

impl OutputLimits {
    ghost use Rattle.std.specs.Prelude.{◌≡◌};
    ghost use Rattle.pm_limits.specs.OutputLimits.{are_known, is_limited};

    /// Whether limits were given, or it was said that there are none.
    pub fn are_known(&self) -> bool
        ensures { result ≡ are_known self.now }
    {
        !matches!(self, OutputLimits::Unknown)
    }

    /// Whether limits were given.
    pub fn is_limited(&self) -> bool
        ensures { result ≡ is_limited self.now }
    {
        matches!(self, OutputLimits::Between(_))
    }
}
