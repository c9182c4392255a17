//! What a SELECT found, as result sets: each row is written from the document, the group or the value that it is about.
ghost use Rattle.std.specs.Prelude.{◌≡◌, ◌<◌, ◌++◌, [], ◌∷◌, IfOk, OnErr, OnOk, Some, false, length, map, slice_get, slice_index_or};
ghost use Rattle.mysql_wire.specs.Rows.{row_payload};
ghost use Rattle.mysql_wire.specs.declared.rows.Cell.TheVariants as cells;
ghost use Rattle.group_facet.specs.ShownGroups.{group_value};
ghost use Rattle.reply_rows.specs.ResultSets.{sets_payloads};
ghost use Rattle.reply_rows.specs.Written.{IsOpen, then_reply};
ghost use Rattle.ql_answers.specs.Reading.{count_column, facet_sets, found_sets, groups_set, row_value, rows_set, table_set, value_row};
ghost use Rattle.ql_answers.specs.steps.Tables.{set_of, sets_of};

use group_facet::{GroupColumn, GroupRow};
use mysql_wire::{Cell, Column, ColumnKind, put_row};
use ql_select::{Selection, Shown};
use reply_rows::{Replies, Table};
use row_select::Row;
use srch_base::{Items, Name, NoMemory};
use std::alloc::Global;
use table_search::{Found, FoundTable};

/// What is shown as one result set.
#[derive(Drop)]
pub(crate) enum ShownTable<'a> {
    /// Documents, and what is shown of each.
    Rows(&'a [Shown], &'a [Row]),
    /// Groups, and what is shown of each.
    Groups(&'a [Shown], &'a [GroupRow]),
    /// The values of a facet with their counts, and the columns of both.
    Facet(&'a Column, &'a Column, &'a [(i128, u64)]),
}

impl<'a> Table for ShownTable<'a> {
    ghost use Rattle.ql_answers.specs.steps.Tables.{set_of};

    ghost set = { λ table. set_of table };

    fn columns(&self) -> usize {
        match self {
            ShownTable::Rows(shown, _) | ShownTable::Groups(shown, _) => shown.len(),
            ShownTable::Facet(_, _, _) => 2,
        }
    }

    fn column(&self, at: usize) -> &Column {
        match self {
            ShownTable::Rows(shown, _) | ShownTable::Groups(shown, _) => column_at(shown, at),
            ShownTable::Facet(value, count, _) => { if at == 0 { value } else { count } }
        }
    }

    fn rows(&self) -> usize {
        match self {
            ShownTable::Rows(_, rows) => rows.len(),
            ShownTable::Groups(_, groups) => groups.len(),
            ShownTable::Facet(_, _, values) => values.len(),
        }
    }

    fn put_row(&self, at: usize, payload: &mut Vec<u8>) -> Result<(), NoMemory> {
        match self {
            ShownTable::Rows(shown, rows) => put_row_at(shown, rows, at, payload),
            ShownTable::Groups(shown, groups) => put_group_at(shown, groups, at, payload),
            ShownTable::Facet(_, _, values) => put_value_at(values, at, payload),
        }
    }
}

/// The column at a place.
fn column_at(shown: &[Shown], at: usize) -> &Column
    requires { at < length shown.now }
    ensures { slice_get (map (λ one. one.column) shown.now) at ≡ Some result.now }
{
    &shown[at].column
}

/// Appends the document at a place.
fn put_row_at(
    shown: &[Shown],
    rows: &[Row],
    at: usize,
    payload: &mut Vec<u8>,
) -> Result<(), NoMemory>
    requires { at < length rows.now }
    ensures { OnOk result (payload.new.items ≡ payload.old.items ++ row_payload (slice_index_or (rows_set shown.now rows.now).rows at [])) }
{
    put_row_cells(shown, &rows[at], payload)
}

/// Appends the group at a place.
fn put_group_at(
    shown: &[Shown],
    groups: &[GroupRow],
    at: usize,
    payload: &mut Vec<u8>,
) -> Result<(), NoMemory>
    requires { at < length groups.now }
    ensures { OnOk result (payload.new.items ≡ payload.old.items ++ row_payload (slice_index_or (groups_set shown.now groups.now).rows at [])) }
{
    put_group_cells(shown, &groups[at], payload)
}

/// Appends the value of a facet at a place, with its count.
fn put_value_at(values: &[(i128, u64)], at: usize, payload: &mut Vec<u8>) -> Result<(), NoMemory>
    requires { at < length values.now }
    ensures { OnOk result (payload.new.items ≡ payload.old.items ++ row_payload (slice_index_or (map value_row values.now) at [])) }
{
    put_value(&values[at], payload)
}

fn put_value(value: &(i128, u64), payload: &mut Vec<u8>) -> Result<(), NoMemory>
    ensures { OnOk result (payload.new.items ≡ payload.old.items ++ row_payload (value_row value.now)) }
{
    put_row(
        &[Cell::Whole(value.0), Cell::Whole(i128::from(value.1))],
        payload,
    )
}

/// Appends what the columns show of a document.
fn put_row_cells(shown: &[Shown], row: &Row, payload: &mut Vec<u8>) -> Result<(), NoMemory>
    ensures { OnOk result (payload.new.items ≡ payload.old.items ++ row_payload (map (λ one. cells.Whole (row_value one.from row.now)) shown.now)) }
{
    'columns: for one in shown {
        put_row(&[Cell::Whole(row_value(one.from, row))], payload)?;
    }
    Ok(())
}

/// What a column shows of a document that is of no group.
fn row_value(from: GroupColumn, row: &Row) -> i128
    ensures { result ≡ row_value from row.now }
{
    match from {
        GroupColumn::Best(column) => column.value(row),
        GroupColumn::Key | GroupColumn::Folded(_) => 0,
    }
}

/// Appends what the columns show of a group.
fn put_group_cells(shown: &[Shown], group: &GroupRow, payload: &mut Vec<u8>) -> Result<(), NoMemory>
    ensures { OnOk result (payload.new.items ≡ payload.old.items ++ row_payload (map (λ one. cells.Whole (group_value one.from group.now)) shown.now)) }
{
    'columns: for one in shown {
        put_row(&[Cell::Whole(one.from.value(group))], payload)?;
    }
    Ok(())
}

/// Writes what a SELECT found: its table, then each facet. After an `Err` the replies are as they were.
pub(crate) fn put_found(
    alloc: Global,
    selection: &Selection,
    found: &Found,
    status: u16,
    replies: &mut Replies,
) -> Result<(), NoMemory>
    requires { IsOpen replies.old }
    ensures ok { OnOk result (replies.new ≡ then_reply replies.old (sets_payloads status (found_sets selection.now found.now)) false) }
    ensures err { OnErr result (replies.new ≡ replies.old) }
{
    let count = count_column(alloc)?;
    let mut tables = Vec::new(alloc);
    push_tables(selection, found, &count, &mut tables)?;
    replies.put_tables(alloc, tables.as_slice(), status)
}

/// Appends the table of what was found, then the facets.
fn push_tables<'a>(
    selection: &'a Selection,
    found: &'a Found,
    count: &'a Column,
    tables: &mut Vec<ShownTable<'a>>,
) -> Result<(), NoMemory>
    requires { count.now ≡ count_column }
    ensures { OnOk result (sets_of tables.new.items ≡ sets_of tables.old.items ++ found_sets selection.now found.now) }
{
    tables.push(first_table(selection.shown.as_slice(), &found.table))?;
    push_facets(
        selection.facets.as_slice(),
        found.facets.as_slice(),
        count,
        tables,
    )
}

/// The documents or groups that are shown.
fn first_table<'a>(shown: &'a [Shown], table: &'a FoundTable) -> ShownTable<'a>
    ensures { set_of result ≡ table_set shown.now table.now }
{
    match table {
        FoundTable::Rows(rows) => ShownTable::Rows(shown, rows.as_slice()),
        FoundTable::Groups(groups) => ShownTable::Groups(shown, groups.as_slice()),
    }
}

/// The column of the numbers of documents.
fn count_column(alloc: Global) -> Result<Column, NoMemory>
    ensures { IfOk result (λ column. column ≡ count_column) }
{
    let name = Name::from_slice(alloc, b"count(*)")?;
    Ok(Column {
        name,
        kind: ColumnKind::Unsigned,
    })
}

/// Appends the facets, each under the column of its values. It calls itself once for each, of which a SELECT has at most 16.
fn push_facets<'a>(
    columns: &'a [Column],
    facets: &'a [Items<(i128, u64)>],
    count: &'a Column,
    tables: &mut Vec<ShownTable<'a>>,
) -> Result<(), NoMemory>
    requires { count.now ≡ count_column }
    ensures { OnOk result (sets_of tables.new.items ≡ sets_of tables.old.items ++ facet_sets columns.now facets.now) }
{
    match (columns.split_first(), facets.split_first()) {
        (Some((column, more)), Some((values, rest))) => {
            tables.push(ShownTable::Facet(column, count, values.as_slice()))?;
            push_facets(more, rest, count, tables)
        }
        _ => Ok(()),
    }
}
