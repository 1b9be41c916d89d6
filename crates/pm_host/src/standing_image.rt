//! What a host says of a cell's word, as plain numbers.

ghost use Rattle.std.specs.Prelude.{◌≡◌};
ghost use Rattle.pm_host.specs.Image.{standing_held};

use crate::knowledge::Standing;

/// What the host says of a cell's word, as plain numbers.
#[repr(C)]
#[derive(Clone, Copy, Debug, PartialEq, Eq)]
pub struct StandingImage {
    /// 1 if the word is confirmed; any other number says that none is.
    pub is_confirmed: u16,
    /// The word that is confirmed; 0 if none is, as the host leaves it.
    pub word: u16,
}

impl StandingImage {
    /// No word is confirmed.
    pub(crate) const UNKNOWN: StandingImage = StandingImage {
        is_confirmed: 0,
        word: 0,
    };

    /// What the numbers mean.
    pub fn standing(&self) -> Standing
        ensures { result ≡ standing_held self.now }
    {
        if self.is_confirmed == 1 {
            Standing::Confirmed(self.word)
        } else {
            Standing::Unknown
        }
    }
}
