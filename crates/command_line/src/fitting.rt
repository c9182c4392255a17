//! Whether options are those of a mode, by what is needed and by the ranges, without memory.
//!
//! A command that refuses words may also want memory for it. Want of memory is told only where the words are a mode, so it is asked
//! here whether they are.
ghost use Rattle.std.specs.Prelude.{◌≡◌, is_some, map, option_map, string_bytes};
ghost use Rattle.command_line.specs.Modes.{number_of, number_or, selftest_of, serve_of};
ghost use Rattle.command_line.specs.steps.Words.{value_in};

use crate::options::{number_in, value_of};

/// Whether these are the options of `serve`.
pub(crate) fn is_serve(words: &[String]) -> bool
    ensures { result ≡ is_some (serve_of (λ name. value_in name (map string_bytes words.now))) }
{
    value_of(words, "--config").is_some()
        && value_of(words, "--listen").is_some()
        && number_or(4, 1, 64, value_of(words, "--workers")).is_some()
        && number_or(1_000_000, 1, 1_000_000, value_of(words, "--sessions")).is_some()
}

/// Whether these are the options of `selftest`.
pub(crate) fn is_selftest(words: &[String]) -> bool
    ensures { result ≡ is_some (selftest_of (λ name. value_in name (map string_bytes words.now))) }
{
    number_of(0, 2_147_483_647, value_of(words, "--number")).is_some()
        && number_of(1, 100_000, value_of(words, "--docs")).is_some()
}

/// The number that an option has for its value.
fn number_of(low: u32, high: u32, text: Option<&str>) -> Option<u32>
    ensures { result ≡ number_of low high (option_map (λ text. text.now) text.entry) }
{
    number_in(low, high, text?)
}

/// The same, and this one without the option.
fn number_or(default: u32, low: u32, high: u32, text: Option<&str>) -> Option<u32>
    ensures { result ≡ number_or default low high (option_map (λ text. text.now) text.entry) }
{
    match text {
        Some(text) => number_in(low, high, text),
        None => Some(default),
    }
}
