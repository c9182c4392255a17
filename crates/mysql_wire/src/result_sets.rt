//! The client's readers of a result set: a column's definition and a row. NULL in a row is None; this server writes none.
ghost use Rattle.std.specs.Prelude.{◌≡◌, ◌^◌, ◌<◌, length, IfOk};
ghost use Rattle.std.specs.Option.{option_copied};
ghost use Rattle.mysql_wire.specs.Fields.{Reads};
ghost use Rattle.mysql_wire.specs.Payloads.{column_fields, row_fields};
ghost use Rattle.mysql_wire.specs.steps.Scanning.{Gives, scan};
ghost use Rattle.mysql_wire.specs.steps.Layouts.{column_layout, type_layout, binary_layout, long_layout, after_type};

use crate::fields::{Stop, WireFault, answer, cell, end, exactly, text, text_that_is};
use crate::{Column, ColumnKind};
use srch_base::{Name, NoMemory, Or, Text};
use std::alloc::Global;

/// Reads the payload of a column definition: one whose type is that of a kind.
pub fn read_column(alloc: Global, payload: &[u8]) -> Result<Column, Or<WireFault>>
    requires { length payload.now < 2 ^ 32 }
    ensures { Reads (λ column. column) column_fields payload.now result }
{
    let (name, kind) = answer(payload, column_in(payload))?;
    let name = Name::from_slice(alloc, name)?;
    Ok(Column { name, kind })
}

/// Reads a row's payload: as many values as it has, None being NULL.
pub fn read_row(alloc: Global, payload: &[u8]) -> Result<Vec<Option<Text>>, Or<WireFault>>
    requires { length payload.now < 2 ^ 32 }
    ensures { Reads (λ row. row.items) row_fields payload.now result }
{
    let mut row = Vec::new(alloc);
    let mut rest = payload;
    while !rest.is_empty() {
        let (value, after) = answer(payload, cell(rest))?;
        row.push(owned(alloc, value)?)?;
        rest = after;
    }
    Ok(row)
}

fn owned(alloc: Global, value: Option<&[u8]>) -> Result<Option<Text>, NoMemory>
    ensures { IfOk result (λ copy. copy ≡ option_copied value.entry) }
{
    match value {
        None => Ok(None),
        Some(text) => Ok(Some(Text::from_slice(alloc, text)?)),
    }
}

#[tactic(auto, unfolding(crate::specs::steps::Layouts::column_layout))]
fn column_in(payload: &[u8]) -> Result<(&[u8], ColumnKind), Stop>
    ensures { Gives (λ column. record { name = column.0.now; kind = column.1 }) result
        (scan column_layout payload.now) }
{
    let rest = exactly(b"\x03def", payload)?;
    let rest = text_that_is(b"", rest)?;
    let rest = text_that_is(b"", rest)?;
    let rest = text_that_is(b"", rest)?;
    let (name, rest) = text(rest)?;
    let rest = text_that_is(name, rest)?;
    let rest = exactly(&[0x0c], rest)?;
    type_in(name, rest)
}

#[tactic(auto, unfolding(crate::specs::steps::Layouts::type_layout))]
fn type_in<'a>(name: &'a [u8], bytes: &[u8]) -> Result<(&'a [u8], ColumnKind), Stop>
    ensures { Gives (λ column. record { name = column.0.now; kind = column.1 }) result
        (scan (type_layout name.now) bytes.now) }
{
    match exactly(&[0x3f, 0], bytes) {
        Ok(rest) => binary_in(name, rest),
        Err(_) => {
            let rest = exactly(&[0x21, 0], bytes)?;
            let rest = exactly(&[255, 0, 0, 0], rest)?;
            let rest = exactly(&[0xfd], rest)?;
            let rest = exactly(&[0, 0], rest)?;
            after(name, ColumnKind::Text, rest)
        }
    }
}

#[tactic(auto, unfolding(crate::specs::steps::Layouts::binary_layout))]
fn binary_in<'a>(name: &'a [u8], bytes: &[u8]) -> Result<(&'a [u8], ColumnKind), Stop>
    ensures { Gives (λ column. record { name = column.0.now; kind = column.1 }) result
        (scan (binary_layout name.now) bytes.now) }
{
    match exactly(&[11, 0, 0, 0], bytes) {
        Ok(rest) => {
            let rest = exactly(&[0x03], rest)?;
            let rest = exactly(&[0x20, 0], rest)?;
            after(name, ColumnKind::Uint, rest)
        }
        Err(_) => {
            let rest = exactly(&[20, 0, 0, 0], bytes)?;
            long_in(name, rest)
        }
    }
}

#[tactic(auto, unfolding(crate::specs::steps::Layouts::long_layout))]
fn long_in<'a>(name: &'a [u8], bytes: &[u8]) -> Result<(&'a [u8], ColumnKind), Stop>
    ensures { Gives (λ column. record { name = column.0.now; kind = column.1 }) result
        (scan (long_layout name.now) bytes.now) }
{
    let rest = exactly(&[0x08], bytes)?;
    match exactly(&[0, 0], rest) {
        Ok(rest) => after(name, ColumnKind::Whole, rest),
        Err(_) => {
            let rest = exactly(&[0x20, 0], rest)?;
            after(name, ColumnKind::Unsigned, rest)
        }
    }
}

/// What follows the type: no decimals, two bytes left free, and the payload's end.
fn after<'a>(name: &'a [u8], kind: ColumnKind, bytes: &[u8]) -> Result<(&'a [u8], ColumnKind), Stop>
    ensures { Gives (λ column. record { name = column.0.now; kind = column.1 }) result
        (scan (after_type (record { name = name.now; kind = kind })) bytes.now) }
{
    let rest = exactly(&[0], bytes)?;
    let rest = exactly(&[0, 0], rest)?;
    end(rest)?;
    Ok((name, kind))
}
