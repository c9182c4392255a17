//! The command of each mode, and what it finds at words. Nothing else sees `clap`; no text of it is ever printed.
//!
//! An option is made where its command takes it, so that want of memory finds no other one that is still waiting.
ghost use Rattle.std.specs.Prelude.{◌≡◌, [], true, false, IfOk, MatchOption, map, option_map, string_bytes};
ghost use Rattle.clap.specs.Words.{app_of, first_of, found_of, matches_of, rows_of, rule_of};
ghost use Rattle.clap.specs.Faults.{fault_of, is_simple_and_free};
ghost use Rattle.command_line.specs.steps.Commands.{config_rules, selftest_command, serve_command};
ghost use Rattle.command_line.specs.steps.Found.{FindsNumber};
ghost use Rattle.command_line.specs.steps.Options.{command, defaulted, needed, number, option, text};

use clap::builder::ValueParser;
use clap::error::ErrorKind;
use clap::{Arg, ArgAction, ArgMatches, Command};
use srch_base::NoMemory;
use std::alloc::Global;

/// The command of a mode whose one option is the configuration's file.
pub(crate) fn config_command<'a>(alloc: Global, name: &'a str) -> Result<Command<'a>, NoMemory>
    ensures { IfOk result (λ made. app_of made ≡ command name.entry.now config_rules) }
{
    Ok(command(alloc, name).arg(text(alloc, "config"))?)
}

/// The command of `serve`.
pub(crate) fn serve_command<'a>(alloc: Global) -> Result<Command<'a>, NoMemory>
    ensures { IfOk result (λ made. app_of made ≡ serve_command) }
{
    let serve = command(alloc, "serve")
        .arg(text(alloc, "config"))?
        .arg(text(alloc, "listen"))?
        .arg(defaulted(alloc, "workers", "4", 1, 64))?
        .arg(defaulted(alloc, "sessions", "1000000", 1, 1_000_000))?;
    Ok(serve)
}

/// The command of `selftest`.
pub(crate) fn selftest_command<'a>(alloc: Global) -> Result<Command<'a>, NoMemory>
    ensures { IfOk result (λ made. app_of made ≡ selftest_command) }
{
    let selftest = command(alloc, "selftest")
        .arg(needed(alloc, "number", 0, 2_147_483_647))?
        .arg(needed(alloc, "docs", 1, 100_000))?;
    Ok(selftest)
}

/// A command without options. Its words begin with the first option.
fn command<'a>(alloc: Global, name: &'a str) -> Command<'a>
    ensures { app_of result ≡ command name.entry.now [] }
{
    Command::new(alloc, name)
        .no_binary_name(true)
        .disable_help_flag(true)
}

/// An option that has to be given.
fn text<'a>(alloc: Global, id: &'a str) -> Arg<'a>
    ensures rule { rule_of result ≡ text id.entry.now }
    ensures local { result.global ≡ false }
{
    option(alloc, id).required(true)
}

/// An option that is a number from `low` to `high`.
fn number<'a>(alloc: Global, id: &'a str, low: u64, high: u64) -> Arg<'a>
    ensures rule { rule_of result ≡ number id.entry.now low high }
    ensures local { result.global ≡ false }
{
    option(alloc, id).value_parser(ValueParser::unsigned(low, high))
}

/// A number that has to be given.
fn needed<'a>(alloc: Global, id: &'a str, low: u64, high: u64) -> Arg<'a>
    ensures rule { rule_of result ≡ needed id.entry.now low high }
    ensures local { result.global ≡ false }
{
    number(alloc, id, low, high).required(true)
}

/// A number that is this one without the option.
fn defaulted<'a>(alloc: Global, id: &'a str, default: &'a str, low: u64, high: u64) -> Arg<'a>
    ensures rule { rule_of result ≡ defaulted id.entry.now default.entry.now low high }
    ensures local { result.global ≡ false }
{
    number(alloc, id, low, high).default_value(default)
}

/// An option `--id` with one value.
fn option<'a>(alloc: Global, id: &'a str) -> Arg<'a>
    ensures rule { rule_of result ≡ option id.entry.now }
    ensures local { result.global ≡ false }
{
    Arg::new(alloc, id).long(id).action(ArgAction::Set)
}

/// What a command finds at the words, none where it refuses them.
pub(crate) fn found<'a>(
    command: Command<'a>,
    words: &'a [String],
) -> Result<Option<ArgMatches<'a>>, NoMemory>
    requires { is_simple_and_free (app_of command) ≡ true }
    ensures { IfOk result (λ found. MatchOption found (¬ (fault_of (app_of command.entry) (map string_bytes words.entry.now) ≡ []))
        (λ matches. (fault_of (app_of command.entry) (map string_bytes words.entry.now) ≡ [])
        × (rows_of (found_of matches) ≡ matches_of (app_of command.entry) (map string_bytes words.entry.now)))) }
{
    match command.try_get_matches_from(words) {
        Ok(matches) => Ok(Some(matches)),
        Err(error) => match error.kind() {
            ErrorKind::OutOfMemory => Err(NoMemory),
            _ => Ok(None),
        },
    }
}

/// The value of an option.
pub(crate) fn text_of<'a>(matches: &ArgMatches<'a>, id: &str) -> Option<&'a str>
    ensures { option_map (λ text. text.now) result ≡ first_of id.now (rows_of (found_of matches.now)) }
{
    matches.get_str(id)
}

/// The number that is the value of an option.
pub(crate) fn number_of(matches: &ArgMatches<'_>, id: &str) -> Option<u32>
    ensures { (number : _) → FindsNumber (rows_of (found_of matches.now)) id.now number → result ≡ Some number }
{
    matches.get_one(id)
}
