//! The columns and rows of a result set, as a server writes them. A column is its name, twice, and what kind of values it
//! holds; a row is the text of each value with its length before it. "Text Resultset" of the protocol.
ghost use Rattle.std.specs.Prelude.{◌≡◌, ◌+◌, ◌<◌, ◌≤◌, ◌++◌, length, take, OnOk, OnErr, vec_len, vec_capacity};
ghost use Rattle.mysql_wire.specs.LengthEncoded.{lenenc_text};
ghost use Rattle.mysql_wire.specs.Rows.{type_of, type_bytes, column_payload, cell_text, row_payload};

use crate::lengths::put_lenenc;
use itoa::Buffer;
use srch_base::{Name, NoMemory, Text};

/// What a column holds, as a client is told.
#[derive(Clone, Copy, PartialEq, Eq)]
pub enum ColumnKind {
    /// An unsigned number of 32 bits.
    Uint,
    /// A signed number of 64 bits.
    Whole,
    /// An unsigned number of 64 bits.
    Unsigned,
    /// A text in UTF-8.
    Text,
}

/// A column of a result set.
#[derive(Drop)]
pub struct Column {
    pub name: Name,
    pub kind: ColumnKind,
}

/// A value in a row. The text protocol sends a number as its decimal digits.
#[derive(Drop)]
pub enum Cell {
    Whole(i128),
    Text(Text),
}

/// Appends the payload that defines a column ("Protocol::ColumnDefinition41").
pub fn put_column(column: &Column, out: &mut Vec<u8>) -> Result<(), NoMemory>
    ensures ok { OnOk result (out.new.items ≡ out.old.items ++ column_payload column.now) }
    ensures err { OnErr result (out.new.items ≡ out.old.items) }
    ensures capacity { vec_capacity out.old ≤ vec_capacity out.new }
{
    let before = out.len();
    let written = put_definition(column, out);
    if written.is_err() {
        out.truncate(before);
    }
    written
}

/// Appends a row's payload ("Text Resultset Row"): each value's text after its length.
pub fn put_row(cells: &[Cell], out: &mut Vec<u8>) -> Result<(), NoMemory>
    ensures ok { OnOk result (out.new.items ≡ out.old.items ++ row_payload cells.now) }
    ensures err { OnErr result (out.new.items ≡ out.old.items) }
    ensures capacity { vec_capacity out.old ≤ vec_capacity out.new }
{
    let before = out.len();
    let written = put_cells(cells, out);
    if written.is_err() {
        out.truncate(before);
    }
    written
}

#[tactic(auto, unfolding(crate::specs::Rows::column_payload))]
fn put_definition(column: &Column, out: &mut Vec<u8>) -> Result<(), NoMemory>
    ensures ok { OnOk result (out.new.items ≡ out.old.items ++ column_payload column.now) }
    ensures front { take (vec_len out.old) out.new.items ≡ out.old.items }
    ensures capacity { vec_capacity out.old ≤ vec_capacity out.new }
{
    out.extend_from_slice(b"\x03def\0\0\0")?;
    put_text(column.name.as_bytes(), out)?;
    put_text(column.name.as_bytes(), out)?;
    out.push(0x0c)?;
    out.extend_from_slice(fields_of(column.kind))?;
    out.extend_from_slice(&[0, 0, 0])?;
    Ok(())
}

fn fields_of(kind: ColumnKind) -> &'static [u8]
    ensures { result.now ≡ type_bytes (type_of kind) }
{
    match kind {
        ColumnKind::Uint => &[0x3f, 0, 11, 0, 0, 0, 0x03, 0x20, 0],
        ColumnKind::Whole => &[0x3f, 0, 20, 0, 0, 0, 0x08, 0, 0],
        ColumnKind::Unsigned => &[0x3f, 0, 20, 0, 0, 0, 0x08, 0x20, 0],
        ColumnKind::Text => &[0x21, 0, 255, 0, 0, 0, 0xfd, 0, 0],
    }
}

#[tactic(auto, unfolding(crate::specs::Rows::row_payload))]
fn put_cells(cells: &[Cell], out: &mut Vec<u8>) -> Result<(), NoMemory>
    ensures ok { OnOk result (out.new.items ≡ out.old.items ++ row_payload cells.now) }
    ensures front { take (vec_len out.old) out.new.items ≡ out.old.items }
    ensures capacity { vec_capacity out.old ≤ vec_capacity out.new }
{
    let mut digits = Buffer::new();
    for cell in cells {
        put_cell(cell, &mut digits, out)?;
    }
    Ok(())
}

fn put_cell(cell: &Cell, digits: &mut Buffer, out: &mut Vec<u8>) -> Result<(), NoMemory>
    ensures ok { OnOk result (out.new.items ≡ out.old.items ++ lenenc_text (cell_text cell.now)) }
    ensures front { take (vec_len out.old) out.new.items ≡ out.old.items }
    ensures capacity { vec_capacity out.old ≤ vec_capacity out.new }
{
    match cell {
        Cell::Whole(number) => put_text(digits.format(*number).as_bytes(), out),
        Cell::Text(text) => put_text(text.as_bytes(), out),
    }
}

/// Appends a text after its length ("Protocol::LengthEncodedString").
fn put_text(text: &[u8], out: &mut Vec<u8>) -> Result<(), NoMemory>
    ensures ok { OnOk result (out.new.items ≡ out.old.items ++ lenenc_text text.now) }
    ensures front { take (vec_len out.old) out.new.items ≡ out.old.items }
    ensures capacity { vec_capacity out.old ≤ vec_capacity out.new }
{
    put_lenenc(text.len() as u64, out)?;
    out.extend_from_slice(text)?;
    Ok(())
}
