//! The limits of a SELECT, and its page. "SELECT syntax" of the manual: LIMIT and the option `max_matches`.
ghost use Rattle.std.specs.Prelude.{◌≡◌, ◌≤◌, ◌<◌, ◌^◌, ◌-◌, min};
ghost use Rattle.std.specs.List.{count_by, list_any, sum_by};
ghost use Rattle.ql_select.specs.Facets.{is_count};
ghost use Rattle.ql_select.specs.Faults.{has_groups, is_aggregate, is_match, limits_fault, lists_aggregate, lists_key, page_fault, sizes_fault, wants_column, wants_groups, width};
ghost use Rattle.ql_select.specs.Options.{max_matches_of};
ghost use Rattle.ql_select.specs.Parts.{limits, page_of};

use crate::options::max_matches_of;
use doc_types::Schema;
use ql_refusals::{
    Refusal, group_by_missing, max_matches_out_of_range, offset_not_below, second_match,
    too_many_columns, too_many_facets, too_many_sort_keys,
};
use ql_tree::{Cond, LimitPart, Select, SelectExpr, SelectItem, SortKey, SortName};
use row_select::Page;

/// The most columns of a result set.
pub const MAX_COLUMNS: usize = 128;

/// The most keys of an order.
pub const MAX_SORT_KEYS: usize = 5;

/// The most facets of a SELECT.
pub const MAX_FACETS: usize = 16;

/// The most rows or groups that `max_matches` lets exist for the page.
pub const MAX_MATCHES: u64 = 100_000;

/// The rows that are shown where no LIMIT says how many.
pub const DEFAULT_COUNT: u64 = 20;

/// What passes a limit, in the order in which limits are looked at.
pub(crate) fn limits_fault(schema: &Schema, select: &Select) -> Option<Refusal>
    ensures { result ≡ limits_fault schema.now select.now }
{
    if count_matches(select.conds.as_slice()) > 1 {
        return Some(second_match());
    }
    if !has_groups(select) {
        return Some(group_by_missing());
    }
    if let Some(refusal) = sizes_fault(schema, select) {
        return Some(refusal);
    }
    page_fault(
        limits(select.limit).0,
        max_matches_of(select.options.as_slice()),
    )
}

/// Which part of a SELECT is longer than it may be.
fn sizes_fault(schema: &Schema, select: &Select) -> Option<Refusal>
    ensures { result ≡ sizes_fault schema.now select.now }
{
    if count_columns(schema, select.items.as_slice()) > MAX_COLUMNS {
        Some(too_many_columns())
    } else if select.order.len() > MAX_SORT_KEYS || select.within.len() > MAX_SORT_KEYS {
        Some(too_many_sort_keys())
    } else if select.facets.len() > MAX_FACETS {
        Some(too_many_facets())
    } else {
        None
    }
}

/// Whether GROUP BY is there where it is wanted.
fn has_groups(select: &Select) -> bool
    ensures { result ≡ has_groups select.now }
{
    if select.group.is_some() {
        return true;
    }
    !wants_column(select) && (!wants_groups(select) || has_aggregate(select.items.as_slice()))
}

/// Whether the SELECT speaks of the groups of a column.
fn wants_column(select: &Select) -> bool
    ensures { result ≡ wants_column select.now }
{
    select.within.len() != 0 || has_key(select.items.as_slice())
}

/// Whether the SELECT speaks of groups, be it of one of all rows.
fn wants_groups(select: &Select) -> bool
    ensures { result ≡ wants_groups select.now }
{
    select.having.is_some() || orders_count(select.order.as_slice())
}

fn has_key(items: &[SelectItem]) -> bool
    ensures { result ≡ list_any lists_key items.now }
{
    'items: for item in items {
        if lists_key(item) {
            return true;
        }
    }
    false
}

fn has_aggregate(items: &[SelectItem]) -> bool
    ensures { result ≡ list_any lists_aggregate items.now }
{
    'items: for item in items {
        if lists_aggregate(item) {
            return true;
        }
    }
    false
}

fn orders_count(keys: &[SortKey]) -> bool
    ensures { result ≡ list_any (λ key. is_count key.by) keys.now }
{
    'keys: for key in keys {
        if is_count(key) {
            return true;
        }
    }
    false
}

fn lists_key(item: &SelectItem) -> bool
    ensures { result ≡ lists_key item.now }
{
    matches!(
        item,
        SelectItem::One {
            expr: SelectExpr::GroupBy,
            ..
        }
    )
}

fn lists_aggregate(item: &SelectItem) -> bool
    ensures { result ≡ lists_aggregate item.now }
{
    match item {
        SelectItem::All => false,
        SelectItem::One { expr, .. } => is_aggregate(expr),
    }
}

fn is_aggregate(expr: &SelectExpr) -> bool
    ensures { result ≡ is_aggregate expr.now }
{
    !matches!(
        expr,
        SelectExpr::Column(_) | SelectExpr::Weight | SelectExpr::GroupBy
    )
}

fn is_count(key: &SortKey) -> bool
    ensures { result ≡ is_count key.now.by }
{
    matches!(key.by, SortName::CountAll)
}

/// How many conditions are a MATCH.
fn count_matches(conds: &[Cond]) -> usize
    ensures { result ≡ count_by is_match conds.now }
{
    let mut count = 0;
    'conds: for cond in conds {
        if is_match(cond) {
            count += 1;
        }
    }
    count
}

fn is_match(cond: &Cond) -> bool
    ensures { result ≡ is_match cond.now }
{
    matches!(cond, Cond::Match(_))
}

/// How many columns the list shows, as far as they can be counted.
fn count_columns(schema: &Schema, items: &[SelectItem]) -> usize
    ensures { result ≡ min (sum_by (width schema.now) items.now) (2 ^ 64 - 1) }
{
    let mut count: usize = 0;
    'items: for item in items {
        count = count.saturating_add(width(schema, item));
    }
    count
}

/// How many columns an item shows.
fn width(schema: &Schema, item: &SelectItem) -> usize
    ensures { result ≡ width schema.now item.now }
{
    match item {
        SelectItem::All => 1 + schema.attrs.as_slice().len(),
        SelectItem::One { .. } => 1,
    }
}

/// What is wrong with the page.
fn page_fault(offset: u64, max_matches: u64) -> Option<Refusal>
    ensures { result ≡ page_fault offset max_matches }
{
    if max_matches < 1 || max_matches > MAX_MATCHES {
        Some(max_matches_out_of_range())
    } else if offset >= max_matches {
        Some(offset_not_below(offset, max_matches))
    } else {
        None
    }
}

/// How many rows are passed over, and how many follow at most.
pub(crate) fn limits(part: Option<LimitPart>) -> (u64, u64)
    ensures { result ≡ limits part }
{
    match part {
        None => (0, DEFAULT_COUNT),
        Some(
            LimitPart {
                first,
                second: None,
            },
        ) => (0, first),
        Some(
            LimitPart {
                first,
                second: Some(second),
            },
        ) => (first, second),
    }
}

/// The page that a SELECT asks for.
pub(crate) fn page_of(select: &Select) -> Page
    requires begins { (limits select.now.limit).0 < max_matches_of select.now.options }
    requires most { max_matches_of select.now.options ≤ MAX_MATCHES }
    ensures { result ≡ page_of select.now }
{
    let (offset, count) = limits(select.limit);
    let max_matches = max_matches_of(select.options.as_slice());
    Page {
        offset: offset as u32,
        count: count.min(max_matches) as u32,
        max_matches: max_matches as u32,
    }
}
