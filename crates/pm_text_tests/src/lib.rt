//! Tests over the public calls of the crates of texts and of the program: streams, lines and words, the lines of a trace and a decoder
//! that is fed in pieces, scenarios and their faults, replays, stored settings, both versions of a scenario, and the engines as a
//! whole; captures with options, the texts of `hear` and `number`, the command line, and whole runs; logs of real frames that are
//! accepted, each wrong bit of an answer, acts that can't have come, claims of voltages, and the line that is written of each. Its
//! functions hand on laws. What these tests share is public: readers and writers that tell their bytes, count their calls, fail once,
//! never end or take no memory; the three engines from a reader to a writer as one call (`Engines`); and the worked texts.
#![tactic(auto)]

/// What is found and what is wanted, in rows: each at a place of its own, as `1, found => wanted;`, or all at the one of the head.
#[cfg(test)]
macro_rules! compare {
    ($rt:expr; $($at:expr, $found:expr => $wanted:expr);+ $(;)?) => {
        $(crate::checks::equal($rt, &$found, &$wanted, &$at);)+
    };
    ($rt:expr, $at:expr; $($found:expr => $wanted:expr);+ $(;)?) => {
        $(crate::checks::equal($rt, &$found, &$wanted, &$at);)+
    };
}

/// A struct with these fields, whose others are those of another one: `with! { Part, PART; silent: true }`.
#[cfg(test)]
macro_rules! with {
    ($type:ident, $base:expr; $($field:ident $(: $value:expr)?),+) => {
        $type { $($field $(: $value)?,)+ ..$base }
    };
}

#[cfg(test)]
mod captures;
#[cfg(test)]
mod checks;
#[cfg(test)]
mod commandline;
mod engine;
#[cfg(test)]
mod engines;
#[cfg(test)]
mod example;
#[cfg(test)]
mod facts;
mod fakes;
#[cfg(test)]
mod hear;
#[cfg(test)]
mod hints;
#[cfg(test)]
mod lacking;
pub mod law_uses;
#[cfg(test)]
mod log_example;
#[cfg(test)]
mod log_texts;
#[cfg(test)]
mod log_voltages;
#[cfg(test)]
mod logs;
mod long_text;
#[cfg(test)]
mod long_words;
#[cfg(test)]
mod many_events;
#[cfg(test)]
mod memory;
#[cfg(test)]
mod numbers;
#[cfg(test)]
mod program;
#[cfg(test)]
mod replays;
#[cfg(test)]
mod run;
#[cfg(test)]
mod scenarios;
#[cfg(test)]
mod setups;
#[cfg(test)]
mod stores;
#[cfg(test)]
mod streams;
#[cfg(test)]
mod telling;
#[cfg(test)]
mod traces;
#[cfg(test)]
mod usage;
#[cfg(test)]
mod versions;
mod worked;

pub use engine::{Ended, Engine, Engines};
pub use fakes::{Endless, Failure, Halves, KINDS, Paper, Pieces, Sheet, blank_paper, in_pieces};
pub use long_text::{Long, text_of};
pub use worked::{CODES, CODES_SAID, FRAME, LINES, REPORT, SCENARIO, TAKEN, TRACE};
