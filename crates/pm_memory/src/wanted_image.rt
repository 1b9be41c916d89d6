//! The words that a plan wants, as a caller gives them.

ghost use Rattle.std.specs.Prelude.{◌≡◌};
ghost use Rattle.pm_memory.specs.Wanted.{wanted_image, wanted_meant, wish_image, wish_meant};

use pm_rail::Wanted;

/// A word that is wanted of a register, or none.
#[repr(C)]
#[derive(Clone, Copy, Debug)]
pub struct WishImage {
    /// 0 if none is wanted, and the register is to stay as it is.
    pub has: u16,
    /// The word.
    pub word: u16,
}

/// The words that are wanted of an output's voltages. It has no padding.
#[repr(C)]
#[derive(Clone, Copy, Debug)]
pub struct WantedImage {
    /// The word that is wanted of VOUT_COMMAND.
    pub command: WishImage,
    /// The word that is wanted of VOUT_MAX.
    pub max: WishImage,
    /// The word that is wanted of VOUT_MARGIN_HIGH.
    pub margin_high: WishImage,
    /// The word that is wanted of VOUT_MARGIN_LOW.
    pub margin_low: WishImage,
    /// The word that is wanted of VOUT_MIN.
    pub min: WishImage,
}

impl WishImage {
    // This word, or none.
    fn of(word: Option<u16>) -> WishImage
        ensures { result ≡ wish_image word }
    {
        match word {
            Some(word) => WishImage { has: 1, word },
            None => WishImage { has: 0, word: 0 },
        }
    }

    // What the numbers mean.
    fn word(&self) -> Option<u16>
        ensures { result ≡ wish_meant self.now }
    {
        if self.has == 0 { None } else { Some(self.word) }
    }
}

impl WantedImage {
    /// No word is wanted.
    pub(crate) const NOTHING: WantedImage = WantedImage {
        command: WishImage { has: 0, word: 0 },
        max: WishImage { has: 0, word: 0 },
        margin_high: WishImage { has: 0, word: 0 },
        margin_low: WishImage { has: 0, word: 0 },
        min: WishImage { has: 0, word: 0 },
    };

    /// The image of these wanted words.
    pub(crate) fn of(wanted: &Wanted) -> WantedImage
        ensures { result ≡ wanted_image wanted.now }
    {
        WantedImage {
            command: WishImage::of(wanted.command),
            max: WishImage::of(wanted.max),
            margin_high: WishImage::of(wanted.margin_high),
            margin_low: WishImage::of(wanted.margin_low),
            min: WishImage::of(wanted.min),
        }
    }

    /// What the numbers mean.
    pub fn wanted(&self) -> Wanted
        ensures { result ≡ wanted_meant self.now }
    {
        Wanted {
            command: self.command.word(),
            max: self.max.word(),
            margin_high: self.margin_high.word(),
            margin_low: self.margin_low.word(),
            min: self.min.word(),
        }
    }
}
