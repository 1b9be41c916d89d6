//! What a command line can choose.

use super::telling::TellTexts;
use pm_log::Lacks;

/// The subcommand that was named, with the texts of its options as they were written.
#[derive(Clone, Copy, Debug, PartialEq, Eq)]
pub enum Chosen<'a> {
    /// `hear`: the converter of the base configuration hears the frames of standard input.
    Hear,
    /// `replay`: the events of the scenario on standard input happen, and are reported.
    Replay,
    /// `decode` without options: the trace on standard input is shown line by line.
    Decode,
    /// `decode` with options: it is shown as they ask.
    Tell(TellTexts<'a>),
    /// `check`: the log on standard input is checked.
    Check {
        /// What the texts of `--lacks` let parts lack; None if one of them can't be read.
        lacks: Option<Lacks>,
    },
    /// `number`: one word of a number format, as an exact value.
    Number {
        /// The text of `--format`, empty if the option is absent.
        format: &'a str,
        /// The text of `--word`.
        word: Option<&'a str>,
        /// The text of `--micro`.
        micro: Option<&'a str>,
    },
}
