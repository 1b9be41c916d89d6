//! The options by which a capture is shown.

ghost use Rattle.std.specs.Prelude.{◌≡◌};

use crate::addresses::Addresses;
use pm_trace::GivenFormats;

/// How a capture is shown.
#[derive(Clone, Copy, Debug)]
pub struct TellOptions {
    /// After each packet stands what its payload means, and after one with a fault its bytes.
    pub values: bool,
    /// The formats of words whose own format the capture doesn't teach.
    pub formats: GivenFormats,
    /// Packets without PEC are shown as good ones, and those that the command table doesn't have by their code and bytes.
    pub all: bool,
    /// The capture may have more than 1 MiB.
    pub long: bool,
    /// Each line begins with the time of its packet, in microseconds.
    pub times: bool,
    /// Each line is shown as an object of JSON.
    pub json: bool,
    /// PAGE is followed: a packet that acts on an output and names none is shown with the one that it reaches.
    pub pages: bool,
    /// Failed transfers are shown in their places, and words that changed with nothing that writes them are marked.
    pub explain: bool,
    /// With times and pages: after a pause of an address of more than so many microseconds its page isn't known any more.
    pub gap: u64,
    /// The addresses that are parts, whatever SMBus keeps them for.
    pub parts: Addresses,
    /// The addresses of muxes.
    pub muxes: Addresses,
}

impl TellOptions {
    ghost use Rattle.pm_decode.specs.Options.{no_options};
    ghost use Rattle.pm_decode.specs.Options.{is_plain, notes_comments};

    /// No option: a capture is shown as `decode` of `pm_decode` shows it.
    pub fn none() -> TellOptions
        ensures { result ≡ no_options }
    {
        TellOptions {
            values: false,
            formats: GivenFormats {
                vout: [None; 8],
                readings: [None; 8],
            },
            all: false,
            long: false,
            times: false,
            json: false,
            pages: false,
            explain: false,
            gap: 0,
            parts: Addresses::none(),
            muxes: Addresses::none(),
        }
    }

    /// Whether an option changes what is shown: then comments are noted.
    pub fn notes_comments(&self) -> bool
        ensures { result ≡ notes_comments self.now }
    {
        self.values
            | self.all
            | self.times
            | self.json
            | self.pages
            | self.explain
            | self.parts.any
            | self.muxes.any
    }

    /// Whether no option changes what is shown.
    pub fn is_plain(&self) -> bool
        ensures { result ≡ is_plain self.now }
    {
        !self.notes_comments()
    }
}
