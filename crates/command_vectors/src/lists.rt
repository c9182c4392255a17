//! The values that lists of words stand for, as docs/cases/words.md tells them.
use command_line::{Mode, read_mode};
use std::alloc::Global;

/// The words of a line.
fn words_of(alloc: Global, line: &str) -> Option<Vec<String>> {
    let mut words = Vec::new(alloc);
    for word in line.split('|') {
        words.push(String::from_str(alloc, word).ok()?).ok()?;
    }
    Some(words)
}

/// Appends two numbers.
fn put_numbers(first: u32, second: u32, told: &mut String) -> Option<()> {
    write!(told, " {first} {second}").ok()
}

/// Appends the values of a mode.
fn put_values(mode: &Mode<'_>, told: &mut String) -> Option<()> {
    match mode {
        Mode::Serve {
            listen,
            workers,
            sessions,
            ..
        } => {
            told.push(' ').ok()?;
            told.push_str(listen).ok()?;
            put_numbers(*workers, *sessions, told)
        }
        Mode::Selftest { number, docs } => put_numbers(*number, *docs, told),
        _ => None,
    }
}

/// Appends the values of the mode that the words of a line ask for.
pub(crate) fn put_mode(alloc: Global, line: &str, told: &mut String) -> Option<()> {
    let words = words_of(alloc, line)?;
    match read_mode(alloc, words.as_slice()) {
        Ok(Some(mode)) => put_values(&mode, told),
        _ => None,
    }
}
