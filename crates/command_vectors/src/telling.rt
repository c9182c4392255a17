//! How the tables are tried: a line is a text, ` ⇒ ` and what is told of it. `⟨0a⟩` is the byte of these two digits.
use crate::canonical::CANONICAL;
use crate::lists::put_mode;
use crate::packets::PACKETS;
use crate::signs::{SIGNS, put_sign};
use crate::statements::{PARTS, PLACES, put_part, put_statements};
use crate::tokens::{LONG, TOKENS, put_count, put_tokens};
use crate::words::WORDS;
use std::alloc::Global;
use std::test::Fail;

/// What is told of a table's texts.
enum Telling {
    /// The values of the mode that the words of a command line ask for.
    Mode,
    /// Tokens.
    Tokens,
    /// How many tokens there are where a text comes ten thousand times.
    Count,
    /// The sign that is spelled.
    Sign,
    /// Statements by their canonical texts, or the place at which there are too many.
    Statements,
    /// A part of a statement.
    Part,
}

const TABLES: [(&str, Telling); 8] = [
    (WORDS, Telling::Mode),
    (TOKENS, Telling::Tokens),
    (LONG, Telling::Count),
    (SIGNS, Telling::Sign),
    (CANONICAL, Telling::Statements),
    (PACKETS, Telling::Statements),
    (PLACES, Telling::Statements),
    (PARTS, Telling::Part),
];

/// The bytes of which a line has only the digits.
const SPELLED: [(&str, &str); 4] = [
    ("⟨00⟩", "\0"),
    ("⟨09⟩", "\t"),
    ("⟨0a⟩", "\n"),
    ("⟨0d⟩", "\r"),
];

/// A line, written out.
fn written_out(alloc: Global, line: &str) -> Option<String> {
    let mut written = String::from_str(alloc, line).ok()?;
    for (digits, byte) in &SPELLED {
        written = written.as_str().replace(alloc, *digits, byte).ok()?;
    }
    Some(written)
}

/// Appends what is told of a text, behind a space.
fn tell(alloc: Global, telling: &Telling, text: &str, told: &mut String) -> Option<()> {
    match telling {
        Telling::Mode => put_mode(alloc, text, told),
        Telling::Tokens => put_tokens(alloc, text, told),
        Telling::Count => put_count(alloc, text, told),
        Telling::Sign => put_sign(text, told),
        Telling::Statements => put_statements(alloc, text, told),
        Telling::Part => put_part(alloc, text, told),
    }
}

/// Whether that is told of the text of a line, written out, which stands behind it.
fn says(alloc: Global, telling: &Telling, line: &str, told: &mut String) -> bool {
    told.clear();
    match line.split_once(" ⇒") {
        Some((text, wanted)) => {
            tell(alloc, telling, text, told).is_some() && told.as_str() == wanted
        }
        None => false,
    }
}

/// The same of a line as it stands.
fn is_told(alloc: Global, telling: &Telling, line: &str, told: &mut String) -> bool {
    match written_out(alloc, line) {
        Some(line) => says(alloc, telling, line.as_str(), told),
        None => false,
    }
}

/// The first line of the tables of which something else is told.
fn first_wrong(alloc: Global, told: &mut String) -> Option<&'static str> {
    for (table, telling) in &TABLES {
        for line in table.lines().skip(1) {
            if !is_told(alloc, telling, line, told) {
                return Some(line);
            }
        }
    }
    None
}

#[test]
fn texts_are_told(rt: HostRuntime) -> Result<(), Fail> {
    let mut told = String::new(rt.alloc());
    match first_wrong(rt.alloc(), &mut told) {
        Some(line) => Err(Fail::new(format_args!("{line} ⇐{told}"))),
        None => Ok(()),
    }
}
