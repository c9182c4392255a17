//! The columns that a SELECT shows.
ghost use Rattle.std.specs.Prelude.{◌≡◌, ◌++◌, ◌∷◌, [], IfOk, OnOk, ◌<◌, ◌^◌, length, unwrap_or};
ghost use Rattle.ql_select.specs.Columns.{all_shown, call_name, columns_shown, fold_kind, item_shown, key_kind, own_name, row_shown, source_kind, wide_kind};
ghost use Rattle.ql_select.specs.Groups.{folds_in};
ghost use Rattle.ql_select.specs.Names.{sources_of};

use crate::grouping::{is_fold, source_column};
use crate::names::Source;
use crate::selection::Shown;
use crate::targets::column_kind;
use doc_types::Schema;
use group_facet::{Fold, GroupColumn};
use mysql_wire::{Column, ColumnKind};
use ql_columns::ID;
use ql_tree::{SelectExpr, SelectItem};
use row_select::ColumnRef;
use srch_base::{Items, Name, NoMemory};
use std::alloc::Global;

/// What the list of a SELECT shows, column by column, where rows are grouped by this column.
pub(crate) fn columns_shown(
    alloc: Global,
    schema: &Schema,
    by: Option<ColumnRef>,
    items: &[SelectItem],
    sources: &[Source],
) -> Result<Items<Shown>, NoMemory>
    requires few { length schema.now.attrs < 2 ^ 16 }
    requires short { length items.now < 2 ^ 16 }
    requires sources { sources.now ≡ sources_of schema.now items.now }
    ensures { IfOk result (λ shown. shown ≡ columns_shown schema.now by items.now) }
{
    let mut shown = Vec::new(alloc);
    let mut before = 0;
    'items: for (place, item) in items.iter().enumerate() {
        let source = sources[place];
        show_item(alloc, schema, by, before, source, item, &mut shown)?;
        before += folds_of(source);
    }
    Ok(Items::new(shown))
}

/// How many aggregates an item is: one or none.
fn folds_of(source: Source) -> usize
    ensures { result ≡ folds_in (source ∷ []) }
{
    if is_fold(source) { 1 } else { 0 }
}

/// Appends what an item shows that is the value of this, after so many aggregates.
fn show_item(
    alloc: Global,
    schema: &Schema,
    by: Option<ColumnRef>,
    before: usize,
    source: Source,
    item: &SelectItem,
    shown: &mut Vec<Shown>,
) -> Result<(), NoMemory>
    requires few { length schema.now.attrs < 2 ^ 16 }
    requires short { before < 2 ^ 16 }
    ensures { OnOk result (shown.new.items ≡ shown.old.items ++ item_shown schema.now by before source item.now) }
{
    match item {
        SelectItem::All => show_all(alloc, schema, shown),
        SelectItem::One { expr, alias } => {
            let name = name_shown(alloc, expr, alias)?;
            let kind = source_kind(schema, by, source);
            shown.push(Shown {
                column: Column { name, kind },
                from: source_column(before, source),
            })?;
            Ok(())
        }
    }
}

/// Appends what `*` shows: the id, and the attributes in schema order.
fn show_all(alloc: Global, schema: &Schema, shown: &mut Vec<Shown>) -> Result<(), NoMemory>
    requires few { length schema.now.attrs < 2 ^ 16 }
    ensures { OnOk result (shown.new.items ≡ shown.old.items ++ all_shown schema.now) }
{
    put_row_shown(alloc, schema, ID, ColumnRef::Id, shown)?;
    'attrs: for (place, attr) in schema.attrs.as_slice().iter().enumerate() {
        let column = ColumnRef::Attr(place as u16);
        put_row_shown(alloc, schema, attr.0.as_bytes(), column, shown)?;
    }
    Ok(())
}

/// Appends a column of rows under a name.
fn put_row_shown(
    alloc: Global,
    schema: &Schema,
    name: &[u8],
    column: ColumnRef,
    shown: &mut Vec<Shown>,
) -> Result<(), NoMemory>
    ensures { OnOk result (shown.new.items ≡ shown.old.items ++ row_shown schema.now name.now column ∷ []) }
{
    let kind = column_kind(schema, column);
    let name = Name::from_slice(alloc, name)?;
    shown.push(Shown {
        column: Column { name, kind },
        from: GroupColumn::Best(column),
    })?;
    Ok(())
}

/// The name of an item's column: its alias, else its own.
fn name_shown(alloc: Global, expr: &SelectExpr, alias: &Option<Name>) -> Result<Name, NoMemory>
    ensures { IfOk result (λ name. name ≡ unwrap_or alias.now (own_name expr.now)) }
{
    match alias {
        Some(alias) => Name::from_slice(alloc, alias.as_bytes()),
        None => own_name(alloc, expr),
    }
}

/// The name of an item without an alias: the item in small letters.
fn own_name(alloc: Global, expr: &SelectExpr) -> Result<Name, NoMemory>
    ensures { IfOk result (λ name. name ≡ own_name expr.now) }
{
    match expr {
        SelectExpr::Column(name) => Name::from_slice(alloc, name.as_bytes()),
        SelectExpr::CountAll => Name::from_slice(alloc, b"count(*)"),
        SelectExpr::CountDistinct(name) => call_name(alloc, b"count(distinct ", name.as_bytes()),
        SelectExpr::Least(name) => call_name(alloc, b"min(", name.as_bytes()),
        SelectExpr::Greatest(name) => call_name(alloc, b"max(", name.as_bytes()),
        SelectExpr::Sum(name) => call_name(alloc, b"sum(", name.as_bytes()),
        SelectExpr::Weight => Name::from_slice(alloc, b"weight()"),
        SelectExpr::GroupBy => Name::from_slice(alloc, b"groupby()"),
    }
}

/// A function of a column.
fn call_name(alloc: Global, function: &[u8], name: &[u8]) -> Result<Name, NoMemory>
    ensures { IfOk result (λ call. call ≡ call_name function.now name.now) }
{
    let mut call = Vec::new(alloc);
    call.extend_from_slice(function)?;
    call.extend_from_slice(name)?;
    call.push(b')')?;
    Ok(Name::new(call))
}

/// How an item is sent.
fn source_kind(schema: &Schema, by: Option<ColumnRef>, source: Source) -> ColumnKind
    ensures { result ≡ source_kind schema.now by source }
{
    match source {
        Source::All => ColumnKind::Unsigned,
        Source::Row(column) => column_kind(schema, column),
        Source::Key => key_kind(by),
        Source::Folded(fold) => fold_kind(fold),
    }
}

/// How what is grouped by is sent.
fn key_kind(by: Option<ColumnRef>) -> ColumnKind
    ensures { result ≡ key_kind by }
{
    match by {
        Some(column) => wide_kind(column),
        None => ColumnKind::Whole,
    }
}

/// How an aggregate is sent: a sum may have more than 64 bits, and is sent as a text.
fn fold_kind(fold: Fold) -> ColumnKind
    ensures { result ≡ fold_kind fold }
{
    match fold {
        Fold::Count | Fold::Distinct(_) => ColumnKind::Unsigned,
        Fold::Least(column) | Fold::Greatest(column) => wide_kind(column),
        Fold::Sum(_) => ColumnKind::Text,
    }
}

/// How a value of a column is sent that was taken from several rows.
fn wide_kind(column: ColumnRef) -> ColumnKind
    ensures { result ≡ wide_kind column }
{
    match column {
        ColumnRef::Id | ColumnRef::Weight => ColumnKind::Unsigned,
        ColumnRef::Attr(_) => ColumnKind::Whole,
    }
}
