//! The command line as clap reads it.
//!
//! Options come before or after PATH, as `--lanes 2` or `--lanes=2`. Refused are an option before
//! the subcommand, one given twice, an unknown one, `--help`, `help`, `--version`, and words that
//! aren't UTF-8.
ghost use Rattle.std.specs.Prelude.{◌≡◌, IfOk, false, map, string_bytes};
ghost use Rattle.clap.specs.Words.{FailsBy, app_of, fault_of, rule_of, subcommand_of, with_rule};
ghost use Rattle.clap.specs.declared.builder.command.Command.TheViews.{out-Command as fields_of};
ghost use Rattle.clap.specs.Simple.{subcommand_rows_of};
ghost use Rattle.command_line.specs.Grammar.{bare_app, log_rule, number_rule, option_rule};
ghost use Rattle.command_line.specs.Grammar.{path_app, recover_app, rewrite_app, sample_app};
ghost use Rattle.command_line.specs.Grammar.{stats_rule, text_rule, tool_app, with_options};
ghost use Rattle.command_line.specs.Numbers.{range_of};

use crate::numbers::{BACKENDS, BGWRITER, BLOCKS, FRAMES, LANES, NumberArg, SEED, SEGMENT_BLOCKS};
use clap::builder::ValueParser;
use clap::{Arg, ArgAction, ArgMatches, Command, Error};
use std::alloc::{AllocError, Global};

/// A text that has to stand in its place.
fn text_arg<'a>(alloc: Global, name: &'a str) -> Arg<'a>
    ensures rule { rule_of result ≡ text_rule name.now }
    ensures local { result.global ≡ false }
{
    Arg::new(alloc, name).required(true)
}

/// A number that has to stand in its place.
fn number_arg<'a>(alloc: Global, number: NumberArg) -> Arg<'a>
    ensures rule { rule_of result ≡ number_rule (range_of number) }
    ensures local { result.global ≡ false }
{
    text_arg(alloc, number.name).value_parser(ValueParser::Unsigned(
        u64::from(number.least),
        u64::from(number.greatest),
    ))
}

/// An option that is a number, and what it is if it isn't given.
fn number_option<'a>(alloc: Global, number: NumberArg, default: &'a str) -> Arg<'a>
    ensures rule { rule_of result ≡ option_rule (range_of number) default.now }
    ensures local { result.global ≡ false }
{
    Arg::new(alloc, number.name)
        .long(number.name)
        .default_value(default)
        .value_parser(ValueParser::Unsigned(u64::from(number.least), u64::from(number.greatest)))
}

/// `--log FILE`, which has to be given.
fn log_option<'a>(alloc: Global) -> Arg<'a>
    ensures rule { rule_of result ≡ log_rule }
    ensures local { result.global ≡ false }
{
    text_arg(alloc, "log").long("log")
}

/// `--stats`, a flag.
fn stats_flag<'a>(alloc: Global) -> Arg<'a>
    ensures rule { rule_of result ≡ stats_rule }
    ensures local { result.global ≡ false }
{
    Arg::new(alloc, "stats")
        .long("stats")
        .action(ArgAction::SetTrue)
}

/// The command with one option more, a number.
fn with_option<'a>(
    alloc: Global,
    command: Command<'a>,
    number: NumberArg,
    default: &'a str,
) -> Result<Command<'a>, AllocError>
    requires { (fields_of command).has_globals ≡ false }
    ensures app { IfOk result (λ c. app_of c
        ≡ with_rule (app_of command.entry) (option_rule (range_of number) default.now)) }
    ensures local { IfOk result (λ c. (fields_of c).has_globals ≡ false) }
{
    let command = command.arg(number_option(alloc, number, default))?;
    Ok(command)
}

/// The command with the options that a command with a buffer manager takes.
fn with_options<'a>(alloc: Global, command: Command<'a>) -> Result<Command<'a>, AllocError>
    requires { (fields_of command).has_globals ≡ false }
    ensures app { IfOk result (λ c. app_of c ≡ with_options (app_of command.entry)) }
    ensures local { IfOk result (λ c. (fields_of c).has_globals ≡ false) }
{
    let command = with_option(alloc, command, BACKENDS, "1")?;
    let command = with_option(alloc, command, FRAMES, "128")?;
    let command = with_option(alloc, command, LANES, "4")?;
    let command = with_option(alloc, command, SEGMENT_BLOCKS, "131072")?;
    with_option(alloc, command, BGWRITER, "0")
}

/// A command with a path, and with the flag: `scan PATH` and `dump PATH`.
fn path_command<'a>(alloc: Global, name: &'a str) -> Result<Command<'a>, AllocError>
    ensures app { IfOk result (λ c. app_of c ≡ path_app name.now) }
    ensures local { IfOk result (λ c. (fields_of c).has_globals ≡ false) }
{
    let command = Command::new(alloc, name)
        .arg(text_arg(alloc, "path"))?
        .arg(stats_flag(alloc))?;
    with_options(alloc, command)
}

/// `rewrite PATH --log FILE`.
fn rewrite_command<'a>(alloc: Global) -> Result<Command<'a>, AllocError>
    ensures app { IfOk result (λ c. app_of c ≡ rewrite_app) }
    ensures local { IfOk result (λ c. (fields_of c).has_globals ≡ false) }
{
    let command = Command::new(alloc, "rewrite")
        .arg(text_arg(alloc, "path"))?
        .arg(log_option(alloc))?;
    with_options(alloc, command)
}

/// `recover PATH --log FILE`.
fn recover_command<'a>(alloc: Global) -> Result<Command<'a>, AllocError>
    ensures app { IfOk result (λ c. app_of c ≡ recover_app) }
    ensures local { IfOk result (λ c. (fields_of c).has_globals ≡ false) }
{
    let command = Command::new(alloc, "recover")
        .arg(text_arg(alloc, "path"))?
        .arg(log_option(alloc))?;
    let command = with_option(alloc, command, LANES, "4")?;
    with_option(alloc, command, SEGMENT_BLOCKS, "131072")
}

/// `sample SEED BLOCKS`.
fn sample_command<'a>(alloc: Global) -> Result<Command<'a>, AllocError>
    ensures app { IfOk result (λ c. app_of c ≡ sample_app) }
    ensures local { IfOk result (λ c. (fields_of c).has_globals ≡ false) }
{
    let command = Command::new(alloc, "sample")
        .arg(number_arg(alloc, SEED))?
        .arg(number_arg(alloc, BLOCKS))?;
    with_options(alloc, command)
}

/// The command before its subcommands: its words begin with one.
fn bare_command<'a>(alloc: Global) -> Command<'a>
    ensures { app_of result ≡ bare_app }
{
    Command::new(alloc, "page_tool")
        .no_binary_name(true)
        .subcommand_required(true)
}

/// The command line with its five subcommands.
fn tool_command<'a>(alloc: Global) -> Result<Command<'a>, AllocError>
    ensures { IfOk result (λ c. app_of c ≡ tool_app) }
{
    let tool = bare_command(alloc)
        .subcommand(path_command(alloc, "scan")?)?
        .subcommand(path_command(alloc, "dump")?)?
        .subcommand(rewrite_command(alloc)?)?
        .subcommand(recover_command(alloc)?)?
        .subcommand(sample_command(alloc)?)?;
    Ok(tool)
}

/// What clap makes of the words.
pub(crate) fn parse<'a>(alloc: Global, words: &'a [String]) -> Result<ArgMatches<'a>, Error>
    ensures fails { FailsBy (fault_of tool_app (map string_bytes words.now)) result }
    ensures matches { IfOk result (λ m. subcommand_rows_of m
        ≡ subcommand_of tool_app (map string_bytes words.now)) }
{
    let tool = tool_command(alloc)?;
    tool.try_get_matches_from(words)
}
