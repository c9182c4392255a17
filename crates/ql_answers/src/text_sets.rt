//! The parts of result sets of texts.
ghost use Rattle.std.specs.Prelude.{◌≡◌, ◌++◌, [], ◌∷◌, map, IfOk, OnOk};
ghost use Rattle.mysql_wire.specs.declared.rows.Cell.TheVariants as cells;
ghost use Rattle.ql_answers.specs.Replies.{pair, single, text_column};

use mysql_wire::{Cell, Column, ColumnKind};
use reply_rows::ResultSet;
use srch_base::{Items, Name, NoMemory, Text};
use std::alloc::Global;

/// A column of texts.
fn text_column(alloc: Global, name: &[u8]) -> Result<Column, NoMemory>
    ensures { IfOk result (λ column. column ≡ text_column name.now) }
{
    let kind = ColumnKind::Text;
    let name = Name::from_slice(alloc, name)?;
    Ok(Column { name, kind })
}

/// Columns of texts.
fn text_columns(alloc: Global, names: &[&[u8]]) -> Result<Items<Column>, NoMemory>
    ensures { IfOk result (λ columns. columns ≡ map (λ name. text_column name.now) names.now) }
{
    let mut columns = Vec::with_capacity(alloc, names.len())?;
    'names: for name in names {
        columns.push(text_column(alloc, name)?)?;
    }
    Ok(Items::new(columns))
}

/// A result set whose columns are texts.
pub(crate) fn text_set(
    alloc: Global,
    names: &[&[u8]],
    rows: Items<Items<Cell>>,
) -> Result<ResultSet, NoMemory>
    ensures { IfOk result (λ set. set ≡ record { columns = map (λ name. text_column name.now) names.now; rows = rows }) }
{
    let columns = text_columns(alloc, names)?;
    Ok(ResultSet { columns, rows })
}

/// Appends a text as a value.
fn put_text(alloc: Global, text: &[u8], row: &mut Vec<Cell>) -> Result<(), NoMemory>
    ensures { OnOk result (row.new.items ≡ row.old.items ++ cells.Text text.now ∷ []) }
{
    row.push(Cell::Text(Text::from_slice(alloc, text)?))?;
    Ok(())
}

/// A row of one text.
fn single(alloc: Global, text: &[u8]) -> Result<Items<Cell>, NoMemory>
    ensures { IfOk result (λ row. row ≡ single text.now) }
{
    let mut row = Vec::with_capacity(alloc, 1)?;
    put_text(alloc, text, &mut row)?;
    Ok(Items::new(row))
}

/// A row of two texts.
fn pair(alloc: Global, first: &[u8], second: &[u8]) -> Result<Items<Cell>, NoMemory>
    ensures { IfOk result (λ row. row ≡ pair first.now second.now) }
{
    let mut row = Vec::with_capacity(alloc, 2)?;
    put_text(alloc, first, &mut row)?;
    put_text(alloc, second, &mut row)?;
    Ok(Items::new(row))
}

/// One row, of one text.
pub(crate) fn single_row(alloc: Global, text: &[u8]) -> Result<Items<Items<Cell>>, NoMemory>
    ensures { IfOk result (λ rows. rows ≡ single text.now ∷ []) }
{
    let mut rows = Vec::new(alloc);
    rows.push(single(alloc, text)?)?;
    Ok(Items::new(rows))
}

/// Appends a row of two texts.
pub(crate) fn put_pair(
    alloc: Global,
    first: &[u8],
    second: &[u8],
    rows: &mut Vec<Items<Cell>>,
) -> Result<(), NoMemory>
    ensures { OnOk result (rows.new.items ≡ rows.old.items ++ pair first.now second.now ∷ []) }
{
    rows.push(pair(alloc, first, second)?)?;
    Ok(())
}
