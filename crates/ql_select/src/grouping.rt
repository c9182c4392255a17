//! What a SELECT shows of rows or of groups, and in which order. "SELECT syntax" of the manual: GROUP BY, WITHIN GROUP ORDER BY,
//! HAVING, ORDER BY.
ghost use Rattle.std.specs.Prelude.{◌≡◌, ◌<◌, ◌^◌, ◌∷◌, [], IfOk, map, length, true};
ghost use Rattle.std.specs.List.{filter_map, list_any};
ghost use Rattle.std.specs.Option.{option_map};
ghost use Rattle.row_select.specs.declared.row.ColumnRef.TheVariants.{Weight};
ghost use Rattle.ql_select.specs.Groups.{best_column, column_or_id, counts_hidden, fold_of, folds_in, group_of, group_page, having_counts, having_of, hidden_count, is_count, is_fold, is_grouped, item_column, key_column, keys_of, row_order, source_column, table_of, within_keys};

use crate::names::{HavingSource, KeySource, Names, Source};
use group_facet::{Fold, Group, GroupColumn, GroupPage, Having};
use row_select::{ColumnRef, Order, Page};
use srch_base::{Items, NoMemory};
use std::alloc::Global;
use table_search::{GroupTable, Table};

/// What is shown: rows, or groups.
pub(crate) fn table_of(alloc: Global, names: &Names, page: Page) -> Result<Table, NoMemory>
    requires few { length names.now.sources < 2 ^ 16 }
    ensures { IfOk result (λ table. table ≡ table_of names.now page) }
{
    if !is_grouped(names) {
        return Ok(Table::Rows);
    }
    Ok(Table::Groups(GroupTable {
        group: group_of(alloc, names)?,
        page: group_page(alloc, names, page)?,
    }))
}

/// Whether groups are shown: an aggregate without GROUP BY makes one group of all rows.
fn is_grouped(names: &Names) -> bool
    ensures { result ≡ is_grouped names.now }
{
    names.group.is_some() || has_fold(names.sources.as_slice())
}

fn has_fold(sources: &[Source]) -> bool
    ensures { result ≡ list_any is_fold sources.now }
{
    'sources: for source in sources {
        if is_fold(*source) {
            return true;
        }
    }
    false
}

/// The aggregate that an item is.
fn fold_of(source: Source) -> Option<Fold>
    ensures { result ≡ fold_of source }
{
    match source {
        Source::Folded(fold) => Some(fold),
        _ => None,
    }
}

/// Whether an item is an aggregate.
pub(crate) fn is_fold(source: Source) -> bool
    ensures { result ≡ is_fold source }
{
    matches!(source, Source::Folded(_))
}

/// How many aggregates there are.
fn folds_in(sources: &[Source]) -> usize
    ensures count { result ≡ folds_in sources.now }
{
    let mut count = 0;
    'sources: for source in sources {
        if is_fold(*source) {
            count += 1;
        }
    }
    count
}

/// What an item is of a group, after so many aggregates.
pub(crate) fn source_column(before: usize, source: Source) -> GroupColumn
    requires few { before < 2 ^ 16 }
    ensures { result ≡ source_column before source }
{
    match source {
        Source::All => GroupColumn::Best(ColumnRef::Id),
        Source::Row(column) => GroupColumn::Best(column),
        Source::Key => GroupColumn::Key,
        Source::Folded(_) => GroupColumn::Folded(before as u16),
    }
}

/// What the item at a place of the list is.
fn item_column(sources: &[Source], place: usize) -> GroupColumn
    requires few { length sources.now < 2 ^ 16 }
    ensures { result ≡ item_column sources.now place }
{
    match sources.get(place) {
        Some(source) => source_column(folds_in(&sources[..place]), *source),
        None => GroupColumn::Best(ColumnRef::Id),
    }
}

/// What a key of ORDER BY, or HAVING, looks at.
fn key_column(sources: &[Source], key: KeySource) -> GroupColumn
    requires few { length sources.now < 2 ^ 16 }
    ensures { result ≡ key_column sources.now key }
{
    match key {
        KeySource::Item(place) => item_column(sources, place),
        KeySource::Column(column) => GroupColumn::Best(column),
        KeySource::Count => GroupColumn::Folded(folds_in(sources) as u16),
    }
}

/// The keys of the order, of rows or of groups: the weight, descending, if nothing is said.
fn keys_of(
    alloc: Global,
    sources: &[Source],
    order: &[(KeySource, bool)],
) -> Result<Items<(GroupColumn, bool)>, NoMemory>
    requires few { length sources.now < 2 ^ 16 }
    ensures { IfOk result (λ keys. keys ≡ keys_of sources.now order.now) }
{
    if order.is_empty() {
        return one_key(alloc, GroupColumn::Best(ColumnRef::Weight));
    }
    let mut keys = Vec::with_capacity(alloc, order.len())?;
    'order: for (key, descends) in order {
        keys.push((key_column(sources, *key), *descends))?;
    }
    Ok(Items::new(keys))
}

/// The order of rows; groups have one of their own.
pub(crate) fn row_order(alloc: Global, names: &Names) -> Result<Order, NoMemory>
    requires few { length names.now.sources < 2 ^ 16 }
    ensures { IfOk result (λ order. order ≡ row_order names.now) }
{
    let shown = keys_of(alloc, names.sources.as_slice(), names.order.as_slice())?;
    Ok(Order {
        keys: best_keys(alloc, shown.as_slice())?,
    })
}

/// The keys of rows that are shown.
fn best_keys(
    alloc: Global,
    shown: &[(GroupColumn, bool)],
) -> Result<Items<(ColumnRef, bool)>, NoMemory>
    ensures { IfOk result (λ keys. keys ≡ map (λ key. (best_column key.0, key.1)) shown.now) }
{
    let mut keys = Vec::with_capacity(alloc, shown.len())?;
    'shown: for (column, descends) in shown {
        keys.push((best_column(*column), *descends))?;
    }
    Ok(Items::new(keys))
}

/// The column of rows that is shown.
fn best_column(column: GroupColumn) -> ColumnRef
    ensures { result ≡ best_column column }
{
    match column {
        GroupColumn::Best(column) => column,
        GroupColumn::Key | GroupColumn::Folded(_) => ColumnRef::Id,
    }
}

/// How rows are grouped.
fn group_of(alloc: Global, names: &Names) -> Result<Group, NoMemory>
    ensures { IfOk result (λ group. group ≡ group_of names.now) }
{
    let mut folds = folds_of(alloc, names.sources.as_slice())?;
    if counts_hidden(names) {
        folds.push(Fold::Count)?;
    }
    Ok(Group {
        by: names.group,
        within: Order {
            keys: within_keys(alloc, names.within.as_slice())?,
        },
        folds: Items::new(folds),
    })
}

/// The aggregates of a list.
fn folds_of(alloc: Global, sources: &[Source]) -> Result<Vec<Fold>, NoMemory>
    ensures { IfOk result (λ folds. folds.items ≡ filter_map fold_of sources.now) }
{
    let mut folds = Vec::new(alloc);
    'sources: for source in sources {
        if let Some(fold) = fold_of(*source) {
            folds.push(fold)?;
        }
    }
    Ok(folds)
}

/// Whether ORDER BY or HAVING counts the rows of groups: that count isn't shown.
fn counts_hidden(names: &Names) -> bool
    ensures { result ≡ counts_hidden names.now }
{
    orders_count(names.order.as_slice()) || having_counts(&names.having)
}

fn orders_count(order: &[(KeySource, bool)]) -> bool
    ensures { result ≡ list_any (λ key. is_count key.0) order.now }
{
    'order: for key in order {
        if is_count(key.0) {
            return true;
        }
    }
    false
}

fn having_counts(having: &Option<HavingSource>) -> bool
    ensures { result ≡ having_counts having.now }
{
    match having {
        Some(having) => is_count(having.left),
        None => false,
    }
}

fn is_count(key: KeySource) -> bool
    ensures { result ≡ is_count key }
{
    matches!(key, KeySource::Count)
}

/// The order of a group's rows: the weight, descending, if nothing is said.
fn within_keys(
    alloc: Global,
    within: &[(ColumnRef, bool)],
) -> Result<Items<(ColumnRef, bool)>, NoMemory>
    ensures { IfOk result (λ keys. keys ≡ within_keys within.now) }
{
    if within.is_empty() {
        return one_key(alloc, ColumnRef::Weight);
    }
    let mut keys = Vec::with_capacity(alloc, within.len())?;
    'within: for key in within {
        keys.push(*key)?;
    }
    Ok(Items::new(keys))
}

/// One key, descending.
fn one_key<C: Drop>(alloc: Global, column: C) -> Result<Items<(C, bool)>, NoMemory>
    ensures { IfOk result (λ keys. keys ≡ (column, true) ∷ []) }
{
    let mut keys = Vec::new(alloc);
    keys.push((column, true))?;
    Ok(Items::new(keys))
}

/// Which groups are shown.
fn group_page(alloc: Global, names: &Names, page: Page) -> Result<GroupPage, NoMemory>
    requires few { length names.now.sources < 2 ^ 16 }
    ensures { IfOk result (λ shown. shown ≡ group_page names.now page) }
{
    let sources = names.sources.as_slice();
    Ok(GroupPage {
        having: having_of(sources, names.having),
        keys: keys_of(alloc, sources, names.order.as_slice())?,
        page,
    })
}

/// HAVING
fn having_of(sources: &[Source], having: Option<HavingSource>) -> Option<Having>
    requires few { length sources.now < 2 ^ 16 }
    ensures { result ≡ option_map (having_of sources.now) having }
{
    match having {
        Some(having) => Some(Having {
            column: key_column(sources, having.left),
            op: having.op,
            value: having.value,
        }),
        None => None,
    }
}
