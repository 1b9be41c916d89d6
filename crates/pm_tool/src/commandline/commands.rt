//! The commands as `clap` knows them.
ghost use Rattle.std.specs.Prelude.{◌≡◌, IfOk, codes};
ghost use Rattle.clap.specs.Words.{app_of, new_app, with_rule};
ghost use Rattle.pm_tool.specs.Commandline.{check_app, number_app, pmb, with_required_subcommand};
ghost use Rattle.pm_tool.specs.Options.{list_rule, option_rule};
ghost use Rattle.pm_tool.specs.Telling.{flag_rule, tell_app};

use super::helps;
use super::options::{VERSION, with_list, with_option};
use clap::{Arg, ArgAction, Command};
use std::alloc::{AllocError, Global};

/// The whole command line. A further subcommand is one more line here.
pub(super) fn pmb_command<'a>(alloc: Global) -> Result<Command<'a>, AllocError>
    ensures { IfOk result (λ command. app_of command ≡ pmb) }
{
    let hearing = text_command(
        alloc,
        (
            "hear",
            "Lets a model converter hear the frames of standard input",
        ),
        "pmb hear < FRAMES",
        helps::HEAR,
    );
    let with_hear = top_command(alloc).subcommand(hearing)?;
    let replaying = text_command(
        alloc,
        (
            "replay",
            "Replays a scenario between a host and a converter, and reports",
        ),
        "pmb replay < SCENARIO",
        helps::REPLAY,
    );
    let with_replay = with_hear.subcommand(replaying)?;
    let decoding = tell_command(alloc)?;
    let with_decode = with_replay.subcommand(decoding)?;
    let checking = check_command(alloc)?;
    let with_check = with_decode.subcommand(checking)?;
    let numbers = number_command(alloc)?;
    with_check.subcommand(numbers)
}

// The program itself, of which a subcommand is required.
fn top_command<'a>(alloc: Global) -> Command<'a>
    ensures { app_of result ≡ with_required_subcommand (new_app (codes "pmb")) }
{
    Command::new(alloc, "pmb")
        .about("PMBus packets, scenarios and numbers, by proved engines")
        .after_help(helps::PMB)
        .version(VERSION)
        .subcommand_required(true)
        .disable_help_subcommand(true)
}

// A command with no options: its name, what it does, its usage, and the end of its help.
fn text_command<'a>(
    alloc: Global,
    names: (&'a str, &'a str),
    usage: &'a str,
    end: &'a str,
) -> Command<'a>
    ensures { app_of result ≡ new_app names.entry.0.now }
{
    Command::new(alloc, names.0)
        .about(names.1)
        .override_usage(usage)
        .after_help(end)
}

// `check` and its option.
fn check_command<'a>(alloc: Global) -> Result<Command<'a>, AllocError>
    ensures { IfOk result (λ command. app_of command ≡ check_app) }
{
    let check = text_command(
        alloc,
        (
            "check",
            "Checks a log: whether its transfers make its claims known",
        ),
        "pmb check [--lacks=ADDRESS:REG,..].. < LOG",
        helps::CHECK,
    );
    with_list(
        check,
        alloc,
        ("lacks", "ADDRESS:REG,.."),
        "A part's registers that its data sheet doesn't have, as 58:VOUT_MAX,VOUT_MIN",
    )
}

// `number` and its three options.
fn number_command<'a>(alloc: Global) -> Result<Command<'a>, AllocError>
    ensures { IfOk result (λ command. app_of command ≡ number_app) }
{
    let number = text_command(
        alloc,
        (
            "number",
            "Prints a word of a number format, its exact value and its whole millionths",
        ),
        "pmb number --format=F (--word=HHHH | --micro=K)",
        helps::NUMBER,
    );
    let formatted = with_option(
        number,
        alloc,
        ("format", "F"),
        "The format: linear11, ulinear16:N (N from -16 to 15) or direct:M:B:R",
    )?;
    let worded = with_option(
        formatted,
        alloc,
        ("word", "HHHH"),
        "The word, as four hexadecimal digits",
    )?;
    with_option(
        worded,
        alloc,
        ("micro", "K"),
        "A value of K millionths, whose nearest word is taken",
    )
}

// `decode` and its options, which the end of its help lists.
fn tell_command<'a>(alloc: Global) -> Result<Command<'a>, AllocError>
    ensures { IfOk result (λ command. app_of command ≡ tell_app) }
{
    let decode = text_command(
        alloc,
        ("decode", "Shows what the packets of a bus trace say"),
        "pmb decode [OPTIONS] < TRACE",
        helps::DECODE,
    );
    let formatted = with_formats(decode, alloc)?;
    let full = with_flag(formatted, alloc, "all")?;
    let paged = with_pages(full, alloc)?;
    let timed = with_lines(paged, alloc)?;
    let parted = with_values(timed, alloc, ("part", "AA"))?;
    with_values(parted, alloc, ("mux", "AA"))
}

// The command with `--values`, `--vout` and `--readings`.
fn with_formats<'a>(command: Command<'a>, alloc: Global) -> Result<Command<'a>, AllocError>
    ensures { IfOk result (λ with_them. app_of with_them
        ≡ with_rule (with_rule (with_rule (app_of command.entry) (flag_rule (codes "values"))) (option_rule (codes "vout")))
        (option_rule (codes "readings"))) }
{
    let valued = with_flag(command, alloc, "values")?;
    let formatted = with_value(valued, alloc, ("vout", "F"))?;
    with_value(formatted, alloc, ("readings", "L"))
}

// The command with `--long`, `--times` and `--json`.
fn with_lines<'a>(command: Command<'a>, alloc: Global) -> Result<Command<'a>, AllocError>
    ensures { IfOk result (λ with_them. app_of with_them
        ≡ with_rule (with_rule (with_rule (app_of command.entry) (flag_rule (codes "long"))) (flag_rule (codes "times")))
        (flag_rule (codes "json"))) }
{
    let long = with_flag(command, alloc, "long")?;
    let timed = with_flag(long, alloc, "times")?;
    with_flag(timed, alloc, "json")
}

// The command with `--pages`, `--gap` and `--explain`.
fn with_pages<'a>(command: Command<'a>, alloc: Global) -> Result<Command<'a>, AllocError>
    ensures { IfOk result (λ with_them.
        app_of with_them ≡ with_rule (with_rule (with_rule (app_of command.entry) (flag_rule (codes "pages"))) (option_rule (codes "gap")))
        (flag_rule (codes "explain"))) }
{
    let paged = with_flag(command, alloc, "pages")?;
    let paused = with_value(paged, alloc, ("gap", "MS"))?;
    with_flag(paused, alloc, "explain")
}

// The command with one more option `--NAME`, which has no value. Takes memory for the option.
fn with_flag<'a>(
    command: Command<'a>,
    alloc: Global,
    name: &'a str,
) -> Result<Command<'a>, AllocError>
    ensures { IfOk result (λ with_it.
        app_of with_it ≡ with_rule (app_of command.entry) (flag_rule name.entry.now)) }
{
    let flag = Arg::new(alloc, name)
        .long(name)
        .action(ArgAction::SetTrue)
        .hide(true);
    command.arg(flag)
}

// The command with one more option `--NAME=VALUE`, of which `names` has the name and what its refusals call the value. Takes memory
// for the option.
fn with_value<'a>(
    command: Command<'a>,
    alloc: Global,
    names: (&'a str, &'a str),
) -> Result<Command<'a>, AllocError>
    ensures { IfOk result (λ with_it.
        app_of with_it ≡ with_rule (app_of command.entry) (option_rule names.entry.0.now)) }
{
    let option = Arg::new(alloc, names.0)
        .long(names.0)
        .value_name(names.1)
        .action(ArgAction::Set)
        .hide(true);
    command.arg(option)
}

// The command with one more option `--NAME=VALUE`, which may be given several times. Takes memory for the option.
fn with_values<'a>(
    command: Command<'a>,
    alloc: Global,
    names: (&'a str, &'a str),
) -> Result<Command<'a>, AllocError>
    ensures { IfOk result (λ with_it.
        app_of with_it ≡ with_rule (app_of command.entry) (list_rule names.entry.0.now)) }
{
    let option = Arg::new(alloc, names.0)
        .long(names.0)
        .value_name(names.1)
        .action(ArgAction::Append)
        .hide(true);
    command.arg(option)
}
