//! What the parser says in place of a choice.
ghost use Rattle.std.specs.Prelude.{◌≡◌, IfSome, string_bytes};
ghost use Rattle.std.specs.List.{list_any};
ghost use Rattle.clap.specs.Words.{kind_of};
ghost use Rattle.pm_tool.specs.Usage.{IsSaid, IsUsage, is_seen as spec_is_seen};

use clap::error::ErrorKind;
use pm_lines::with_line_end;
use std::alloc::Global;

/// What is done with a refusal of the parser. Its texts end their line, and have a byte that is neither a blank nor a
/// line's end.
#[derive(Debug, Drop)]
pub enum Usage {
    /// Help or the version that was asked for: standard output gets it, and the status is 0.
    Shown(String),
    /// What is wrong with the command line: standard error gets it, and the status is 2.
    Misused(String),
    /// Memory was refused, to the parser or for its text, which may then be a blank one: status 1.
    NoMemory,
}

/// What is done with this refusal. Takes memory for its text.
pub fn usage_of(alloc: Global, error: &clap::Error) -> Usage
    ensures { IsUsage (kind_of error.now) result }
{
    let Some(text) = text_of(alloc, error) else {
        return Usage::NoMemory;
    };
    match error.kind() {
        ErrorKind::OutOfMemory => Usage::NoMemory,
        ErrorKind::DisplayHelp | ErrorKind::DisplayVersion => Usage::Shown(text),
        _ => Usage::Misused(text),
    }
}

// The parser's text, which ends its line; None if memory for it was refused, so that nothing of it is seen.
fn text_of(alloc: Global, error: &clap::Error) -> Option<String>
    ensures { IfSome result (λ text. IsSaid (string_bytes text)) }
{
    let Ok(text) = format!(in alloc; "{error}") else {
        return None;
    };
    match with_line_end(text) {
        Ok(text) if says_something(text.as_str().as_bytes()) => Some(text),
        _ => None,
    }
}

// Whether a byte of a text is seen.
fn says_something(text: &[u8]) -> bool
    ensures { result ≡ list_any spec_is_seen text.now }
{
    text.iter().any(|byte| is_seen(*byte))
}

// Whether a byte is neither a blank nor a line's end.
fn is_seen(byte: u8) -> bool
    ensures { result ≡ spec_is_seen byte }
{
    !matches!(byte, b' ' | b'\t' | b'\n' | b'\r')
}
