//! Why the options of `decode` ask for no telling.

use thiserror::Error;

/// Why the options of `decode` ask for no telling: the first that applies, in the order of these. All are
/// faults of the command line. This is this project's own choice.
#[derive(Clone, Copy, Debug, PartialEq, Eq, Error)]
#[error("{words}", words = self.words())]
pub enum TellFault {
    /// `--vout` is given, and `--values` isn't.
    VoutAlone,
    /// The text of `--vout` is no format, or one of DIRECT that can't be.
    Vout,
    /// `--readings` is given, and `--values` isn't.
    ReadingsAlone,
    /// The text of `--readings` isn't one to eight entries, or an entry can't be.
    Readings,
    /// `--gap` is given, and `--pages` or `--times` isn't.
    GapAlone,
    /// The text of `--gap` isn't 0 to 1000000 in at most seven digits.
    Gap,
    /// A text of `--part` is no list of addresses of parts.
    Part,
    /// A text of `--mux` is no list of addresses of muxes.
    Mux,
}

impl TellFault {
    ghost use Rattle.std.specs.Prelude.{◌≡◌};
    ghost use Rattle.pm_tool.specs.Telling.{tell_fault_status, tell_fault_words};

    /// What the program says of the fault: `bad vout`.
    pub fn words(self) -> &'static str
        ensures { result.now ≡ tell_fault_words self }
    {
        match self {
            TellFault::VoutAlone => "give --vout with --values",
            TellFault::Vout =>
                "bad vout: give linear11, ulinear16:N or direct:M:B:R, or a list, as 58:ulinear16:-12,linear11",
            TellFault::ReadingsAlone => "give --readings with --values",
            TellFault::Readings =>
                "bad readings: give one to eight, as 8C:linear11,58:8D:direct:1:0:3",
            TellFault::GapAlone => "give --gap with --pages and --times",
            TellFault::Gap => "bad gap: give 0 to 1000000 milliseconds",
            TellFault::Part => "bad part: give addresses from 08 to 77 without 0C, as 61,28",
            TellFault::Mux => "bad mux: give addresses from 08 to 77 without 0C, as 70,71",
        }
    }

    /// The status with which the program then ends.
    pub fn status(self) -> u8
        ensures { result ≡ tell_fault_status self }
    {
        match self {
            TellFault::VoutAlone
            | TellFault::Vout
            | TellFault::ReadingsAlone
            | TellFault::Readings
            | TellFault::GapAlone
            | TellFault::Gap
            | TellFault::Part
            | TellFault::Mux => 2,
        }
    }
}
