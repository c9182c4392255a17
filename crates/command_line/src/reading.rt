//! The mode that the words ask for.
//!
//! The form of the words is tested first: a mode, and options of that mode with their values, each once. Then the mode's command
//! reads the values, the ranges, the defaults and which options are needed.
ghost use Rattle.std.specs.Prelude.{◌≡◌, true, IfErr, IfOk, codes, is_some, map, option_map, string_bytes};
ghost use Rattle.clap.specs.Words.{found_of, rows_of};
ghost use Rattle.command_line.specs.Modes.{by_options, check_of, check_options, mode, selftest_of, selftest_options, serve_of, serve_options, session_of, session_options};
ghost use Rattle.command_line.specs.steps.Found.{FindsSelftest, FindsServe};
ghost use Rattle.command_line.specs.steps.Words.{are_options_in, config_in, has_selftest_form, has_serve_form, value_in};
ghost use Rattle.command_line.specs.Reading.{said};

use crate::Mode;
use crate::commands::{config_command, found, number_of, selftest_command, serve_command, text_of};
use crate::fitting::{is_selftest, is_serve};
use crate::options::{are_options, is_numeral, value_of};
use clap::ArgMatches;
use srch_base::NoMemory;
use std::alloc::Global;

/// The mode that the words ask for, none where they ask for none. `words` are those after the program's name.
///
/// However many words there are, they are given up at the first option that the mode hasn't or that comes again. Only words that
/// are a mode may want memory.
pub fn read_mode(alloc: Global, words: &[String]) -> Result<Option<Mode<'_>>, NoMemory>
    ensures reads { IfOk result (λ found. option_map said found ≡ mode (map string_bytes words.now)) }
    ensures scarce { IfErr result (λ _. is_some (mode (map string_bytes words.now)) ≡ true) }
{
    let Some((name, options)) = words.split_first() else {
        return Ok(None);
    };
    let name = name.as_str();
    if name == "session" {
        session(alloc, options)
    } else if name == "serve" {
        serve(alloc, options)
    } else if name == "check" {
        check(alloc, options)
    } else if name == "selftest" {
        selftest(alloc, options)
    } else {
        Ok(None)
    }
}

fn session(alloc: Global, words: &[String]) -> Result<Option<Mode<'_>>, NoMemory>
    ensures reads { IfOk result (λ found. option_map said found ≡ by_options session_options session_of (map string_bytes words.now)) }
    ensures scarce { IfErr result (λ _. is_some (by_options session_options session_of (map string_bytes words.now)) ≡ true) }
{
    let file = config_of(alloc, "session", words)?;
    match file {
        Some(config) => Ok(Some(Mode::Session { config })),
        None => Ok(None),
    }
}

fn check(alloc: Global, words: &[String]) -> Result<Option<Mode<'_>>, NoMemory>
    ensures reads { IfOk result (λ found. option_map said found ≡ by_options check_options check_of (map string_bytes words.now)) }
    ensures scarce { IfErr result (λ _. is_some (by_options check_options check_of (map string_bytes words.now)) ≡ true) }
{
    let file = config_of(alloc, "check", words)?;
    match file {
        Some(config) => Ok(Some(Mode::Check { config })),
        None => Ok(None),
    }
}

/// The configuration's file, where it is the one option.
fn config_of<'a>(
    alloc: Global,
    name: &'a str,
    words: &'a [String],
) -> Result<Option<&'a str>, NoMemory>
    ensures reads { IfOk result (λ config. option_map (λ text. text.now) config ≡ config_in (map string_bytes words.now)) }
    ensures scarce { IfErr result (λ _. is_some (config_in (map string_bytes words.now)) ≡ true) }
{
    if !are_options(&["--config"], words) {
        return Ok(None);
    }
    match read_config(alloc, name, words) {
        Ok(config) => Ok(config),
        Err(NoMemory) => {
            if value_of(words, "--config").is_some() {
                Err(NoMemory)
            } else {
                Ok(None)
            }
        }
    }
}

fn read_config<'a>(
    alloc: Global,
    name: &'a str,
    words: &'a [String],
) -> Result<Option<&'a str>, NoMemory>
    requires { are_options_in session_options (map string_bytes words.now) ≡ true }
    ensures { IfOk result (λ config. option_map (λ text. text.now) config ≡ value_in (codes "--config") (map string_bytes words.now)) }
{
    let command = config_command(alloc, name)?;
    let found = found(command, words)?;
    match found {
        Some(matches) => Ok(text_of(&matches, "config")),
        None => Ok(None),
    }
}

fn serve(alloc: Global, words: &[String]) -> Result<Option<Mode<'_>>, NoMemory>
    ensures reads { IfOk result (λ found. option_map said found ≡ by_options serve_options serve_of (map string_bytes words.now)) }
    ensures scarce { IfErr result (λ _. is_some (by_options serve_options serve_of (map string_bytes words.now)) ≡ true) }
{
    if !has_serve_form(words) {
        return Ok(None);
    }
    match read_serve(alloc, words) {
        Ok(mode) => Ok(mode),
        Err(NoMemory) => {
            if is_serve(words) {
                Err(NoMemory)
            } else {
                Ok(None)
            }
        }
    }
}

/// Whether the words have the form of options of `serve`.
fn has_serve_form(words: &[String]) -> bool
    ensures { result ≡ has_serve_form (map string_bytes words.now) }
{
    are_options(&["--config", "--listen", "--workers", "--sessions"], words)
        && is_numeral(words, "--workers")
        && is_numeral(words, "--sessions")
}

fn read_serve(alloc: Global, words: &[String]) -> Result<Option<Mode<'_>>, NoMemory>
    requires { has_serve_form (map string_bytes words.now) ≡ true }
    ensures { IfOk result (λ found. option_map said found ≡ serve_of (λ name. value_in name (map string_bytes words.now))) }
{
    let command = serve_command(alloc)?;
    let found = found(command, words)?;
    match found {
        Some(matches) => Ok(serve_of(&matches)),
        None => Ok(None),
    }
}

fn serve_of<'a>(matches: &ArgMatches<'a>) -> Option<Mode<'a>>
    ensures { (mode : _) → FindsServe (rows_of (found_of matches.now)) mode → option_map said result ≡ mode }
{
    let config = text_of(matches, "config")?;
    let listen = text_of(matches, "listen")?;
    let workers = number_of(matches, "workers")?;
    let sessions = number_of(matches, "sessions")?;
    Some(Mode::Serve {
        config,
        listen,
        workers,
        sessions,
    })
}

fn selftest(alloc: Global, words: &[String]) -> Result<Option<Mode<'_>>, NoMemory>
    ensures reads { IfOk result (λ found. option_map said found ≡ by_options selftest_options selftest_of (map string_bytes words.now)) }
    ensures scarce { IfErr result (λ _. is_some (by_options selftest_options selftest_of (map string_bytes words.now)) ≡ true) }
{
    if !has_selftest_form(words) {
        return Ok(None);
    }
    match read_selftest(alloc, words) {
        Ok(mode) => Ok(mode),
        Err(NoMemory) => {
            if is_selftest(words) {
                Err(NoMemory)
            } else {
                Ok(None)
            }
        }
    }
}

/// Whether the words have the form of options of `selftest`.
fn has_selftest_form(words: &[String]) -> bool
    ensures { result ≡ has_selftest_form (map string_bytes words.now) }
{
    are_options(&["--number", "--docs"], words)
        && is_numeral(words, "--number")
        && is_numeral(words, "--docs")
}

fn read_selftest(alloc: Global, words: &[String]) -> Result<Option<Mode<'_>>, NoMemory>
    requires { has_selftest_form (map string_bytes words.now) ≡ true }
    ensures { IfOk result (λ found. option_map said found ≡ selftest_of (λ name. value_in name (map string_bytes words.now))) }
{
    let command = selftest_command(alloc)?;
    let found = found(command, words)?;
    match found {
        Some(matches) => Ok(selftest_of(&matches)),
        None => Ok(None),
    }
}

fn selftest_of<'a>(matches: &ArgMatches<'a>) -> Option<Mode<'a>>
    ensures { (mode : _) → FindsSelftest (rows_of (found_of matches.now)) mode → option_map said result ≡ mode }
{
    let number = number_of(matches, "number")?;
    let docs = number_of(matches, "docs")?;
    Some(Mode::Selftest { number, docs })
}
