//! Options `--NAME=VALUE` of a command line.
ghost use Rattle.std.specs.Prelude.{◌≡◌, [], IfOk, option_map, unwrap_or};
ghost use Rattle.clap.specs.Words.{app_of, first_of, found_of, rows_of, with_rule};
ghost use Rattle.pm_tool.specs.Options.{list_rule, option_rule};

use clap::{Arg, ArgAction, ArgMatches, Command};
use std::alloc::{AllocError, Global};

/// The version that the program prints on `--version`.
pub const VERSION: &str = "0.1.0";

/// The command with one more option `--NAME=VALUE`, which may be left out. `names` are the option's
/// name and what help calls its value. Takes memory for the option.
pub fn with_option<'a>(
    command: Command<'a>,
    alloc: Global,
    names: (&'a str, &'a str),
    help: &'a str,
) -> Result<Command<'a>, AllocError>
    ensures { IfOk result (λ with_it.
        app_of with_it ≡ with_rule (app_of command.entry) (option_rule names.entry.0.now)) }
{
    let option = Arg::new(alloc, names.0)
        .long(names.0)
        .value_name(names.1)
        .action(ArgAction::Set)
        .help(help);
    command.arg(option)
}

/// The text of an option, empty if it isn't used.
pub fn text_of<'a>(matches: &ArgMatches<'a>, name: &str) -> &'a str
    ensures { result.now ≡ unwrap_or (first_of name.now (rows_of (found_of matches.now))) [] }
{
    matches.get_str(name).unwrap_or("")
}

/// The command with one more option `--NAME=VALUE`, which may be given several times. `names` are the option's name and what help
/// calls its value. Takes memory for the option.
pub fn with_list<'a>(
    command: Command<'a>,
    alloc: Global,
    names: (&'a str, &'a str),
    help: &'a str,
) -> Result<Command<'a>, AllocError>
    ensures { IfOk result (λ with_it.
        app_of with_it ≡ with_rule (app_of command.entry) (list_rule names.entry.0.now)) }
{
    let option = Arg::new(alloc, names.0)
        .long(names.0)
        .value_name(names.1)
        .action(ArgAction::Append)
        .help(help);
    command.arg(option)
}

/// The text of an option, if it is used.
pub fn given_text<'a>(matches: &ArgMatches<'a>, name: &str) -> Option<&'a str>
    ensures { option_map (λ text. text.now) result ≡ first_of name.now (rows_of (found_of matches.now)) }
{
    matches.get_str(name)
}
