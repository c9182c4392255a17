//! How the tables are tried: a line is a text that is spelled, ` ⇒ ` and what is told of it.
use crate::character_tables::{FAULTS, put_fault};
use crate::marks::{MARKS, put_marked};
use crate::name_tables::{PLACES, VALUES, put_place, put_value};
use crate::positions::POSITIONS;
use crate::queries::PIECES;
use crate::spelling::spell;
use std::alloc::Global;
use std::test::Fail;

/// What is told of a table's texts.
pub(crate) enum Telling {
    /// The place and the kind of a character table's fault.
    Fault,
    /// The place of a word.
    Place,
    /// The value at a place.
    Value,
    /// Marks.
    Marks,
    /// The position that is too great.
    Position,
    /// How many pieces there are.
    Pieces,
}

const SHORT: [(&str, Telling); 5] = [
    (FAULTS, Telling::Fault),
    (PLACES, Telling::Place),
    (VALUES, Telling::Value),
    (MARKS, Telling::Marks),
    (PIECES, Telling::Pieces),
];

/// Texts that take long.
const LONG: [(&str, Telling); 1] = [(POSITIONS, Telling::Position)];

/// Appends what is told of a text.
fn tell(alloc: Global, text: &str, telling: &Telling, into: &mut String) -> Option<()> {
    match telling {
        Telling::Fault => put_fault(alloc, text, into),
        Telling::Place => put_place(text, into),
        Telling::Value => put_value(text, into),
        _ => put_marked(alloc, text, telling, into),
    }
}

/// Whether what a line says is told of its text. `spelled` is the text written out, and `told` what is told of it.
fn is_told(
    alloc: Global,
    line: &str,
    telling: &Telling,
    spelled: &mut String,
    told: &mut String,
) -> Option<bool> {
    spelled.clear();
    told.clear();
    let (text, wanted) = line.split_once(" ⇒ ")?;
    spell(text, spelled)?;
    tell(alloc, spelled.as_str(), telling, told)?;
    Some(told.as_str() == wanted)
}

/// The first line of tables of which something else is told.
fn first_wrong<'t>(
    alloc: Global,
    tables: &[(&'t str, Telling)],
    spelled: &mut String,
    told: &mut String,
) -> Option<&'t str> {
    for (table, telling) in tables {
        for line in table.lines() {
            if is_told(alloc, line, telling, spelled, told) != Some(true) {
                return Some(line);
            }
        }
    }
    None
}

/// Fails with a line that is wrong, where one is, and with what is told of it.
pub(crate) fn none_wrong(line: Option<&str>, told: &str) -> Result<(), Fail> {
    let Some(line) = line else {
        return Ok(());
    };
    Err(Fail::new(format_args!("{told} ⇐ {line}")))
}

/// Fails with the first line of tables of which something else is told.
fn try_tables(alloc: Global, tables: &[(&str, Telling)]) -> Result<(), Fail> {
    let mut spelled = String::new(alloc);
    let mut told = String::new(alloc);
    let wrong = first_wrong(alloc, tables, &mut spelled, &mut told);
    none_wrong(wrong, told.as_str())
}

#[test]
fn texts_are_told(rt: HostRuntime) -> Result<(), Fail> {
    try_tables(rt.alloc(), &SHORT)
}

#[test]
fn long_texts_are_told(rt: HostRuntime) -> Result<(), Fail> {
    try_tables(rt.alloc(), &LONG)
}
