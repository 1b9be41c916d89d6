//! What the words of a command line choose, by the rules of `clap`.
//!
//! One level of subcommands, of which one is required: `hear`, `replay`, `decode`, `check` with an option that may be given
//! several times, and `number` with its three options; `decode` has options that a further kind of choice hands on.
//! The options are optional for the parser, since which of them belong together is for `number` to
//! judge.
ghost use Rattle.std.specs.Prelude.{◌≡◌, ◌∷◌, [], ℕ, List, codes, true};
ghost use Rattle.std.specs.Prelude.{IfErr, IfOk, IsErrAnd, IsSomeAnd};
ghost use Rattle.clap.specs.Walk.{texts};
ghost use Rattle.clap.specs.Words.{FailsBy, HasKind, fault_of, found_of, kind_of, rows_of};
ghost use Rattle.clap.specs.Words.{subcommand_of, takes};
ghost use Rattle.pm_tool.specs.Commandline.{Asks, Given, HasValuesOf, IsCommandName};
ghost use Rattle.pm_tool.specs.Lacking.{lacks_asked};
ghost use Rattle.pm_tool.specs.Commandline.{ChoosesDecode, UnlessMemory, is_once, number_words, pmb};

mod addresses;
mod choice;
mod commands;
mod helps;
mod lacks;
mod options;
mod readings;
mod tell_fault;
mod telling;

pub use choice::Chosen;
use clap::error::ErrorKind;
use clap::{ArgMatches, Error};
use commands::pmb_command;
use lacks::read_lacks;
use options::text_of;
use std::alloc::Global;
pub use tell_fault::TellFault;
pub use telling::TellTexts;

/// Which subcommand the words name, with its options' texts. The first word is the program's name.
/// Takes memory for what the parser makes of the words.
///
/// # Errors
///
/// Whatever `clap` refuses, with its text for the user: help that was asked for
/// (`ErrorKind::DisplayHelp`), the version (`ErrorKind::DisplayVersion`), no subcommand, a word that is
/// neither a subcommand nor an option of it, an option with no value or given twice; and want of memory
/// (`ErrorKind::OutOfMemory`).
pub fn chosen<'a>(alloc: Global, words: &'a [&'a str]) -> Result<Chosen<'a>, Error>
    // What is chosen is what the parser's walk over the words found.
    ensures named { IfOk result (λ chosen.
        IsSomeAnd (subcommand_of pmb (texts words.entry.now)) (λ met. Asks met.0 met.1 chosen)) }
    // There is an answer only if the parser finds no fault, and a refusal is one that it names.
    ensures kinds { FailsBy (fault_of pmb (texts words.entry.now)) result }
    ensures passes { IfErr result (λ error. takes pmb (texts words.entry.now) ≡ true
        → kind_of error ≡ ErrorKind.OutOfMemory) }

    // The answer in plain words, for any name of the program.
    ensures hear { (program : List ℕ) → texts words.entry.now ≡ program ∷ codes "hear" ∷ []
        → UnlessMemory result (λ chosen. chosen ≡ Chosen.Hear) }
    ensures replay { (program : List ℕ) → texts words.entry.now ≡ program ∷ codes "replay" ∷ []
        → UnlessMemory result (λ chosen. chosen ≡ Chosen.Replay) }
    ensures decode { (program : List ℕ) → texts words.entry.now ≡ program ∷ codes "decode" ∷ []
        → UnlessMemory result (λ chosen. chosen ≡ Chosen.Decode) }
    ensures check { (program : List ℕ) → texts words.entry.now ≡ program ∷ codes "check" ∷ []
        → UnlessMemory result (λ chosen. chosen ≡ Chosen.Check (lacks_asked [])) }
    ensures number { (program : List ℕ) (given : List Given) → is_once given ≡ true
        → texts words.entry.now ≡ number_words program given
        → UnlessMemory result (HasValuesOf given) }
    ensures help { (program : List ℕ) → texts words.entry.now ≡ program ∷ codes "--help" ∷ []
        → IsErrAnd result (HasKind (ErrorKind.DisplayHelp ∷ [])) }
    ensures version { (program : List ℕ) → texts words.entry.now ≡ program ∷ codes "--version" ∷ []
        → IsErrAnd result (HasKind (ErrorKind.DisplayVersion ∷ [])) }
    ensures missing { (program : List ℕ) → texts words.entry.now ≡ program ∷ []
        → IsErrAnd result (HasKind (ErrorKind.MissingSubcommand ∷ [])) }
{
    parsed(alloc, words)
}

fn parsed<'a>(alloc: Global, words: &'a [&'a str]) -> Result<Chosen<'a>, Error>
    ensures named { IfOk result (λ chosen.
        IsSomeAnd (subcommand_of pmb (texts words.entry.now)) (λ met. Asks met.0 met.1 chosen)) }
    ensures kinds { FailsBy (fault_of pmb (texts words.entry.now)) result }
    ensures passes { IfErr result (λ error. takes pmb (texts words.entry.now) ≡ true
        → kind_of error ≡ ErrorKind.OutOfMemory) }
{
    let matches = pmb_command(alloc)?.try_get_matches_from(words)?;
    let (name, found) = matches.subcommand().unwrap();
    Ok(choice_of(name, found))
}

fn choice_of<'a>(name: &str, found: &ArgMatches<'a>) -> Chosen<'a>
    requires { IsCommandName name.now }
    ensures { Asks name.now (rows_of (found_of found.now)) result }
{
    match name {
        "hear" => Chosen::Hear,
        "replay" => Chosen::Replay,
        "decode" => decoding_of(TellTexts::of(found)),
        "check" => Chosen::Check {
            lacks: read_lacks(found.get_strs("lacks")),
        },
        "number" => Chosen::Number {
            format: text_of(found, "format"),
            word: found.get_str("word"),
            micro: found.get_str("micro"),
        },
        _ => unreachable!(),
    }
}

// What `decode` does, with an option or without.
fn decoding_of(given: TellTexts<'_>) -> Chosen<'_>
    ensures { ChoosesDecode given.entry result }
{
    if given.is_any() {
        Chosen::Tell(given)
    } else {
        Chosen::Decode
    }
}
