//! The order of rows: by keys, and by id where all keys tie.
ghost use Rattle.std.specs.Prelude.{◌≡◌};
ghost use Rattle.row_select.specs.Orders.{by_key, by_keys};
ghost use Rattle.row_select.specs.steps.Collecting.{all_fall_behind, ascends_by_weight, brings_lighter, falls_behind};

use crate::found::FoundRow;
use crate::row::ColumnRef;
use srch_base::Items;
use std::cmp::Ordering;

/// The keys of an order, the first one first; with each, whether it descends.
#[derive(Drop)]
pub struct Order {
    pub keys: Items<(ColumnRef, bool)>,
}

impl Order {
    /// How a row stands to another one: `Less` where it comes first.
    pub fn compare<R: FoundRow, O: FoundRow>(&self, row: &R, other: &O) -> Ordering
        ensures { result ≡ by_keys self.now.keys (R.as_row row.now) (O.as_row other.now) }
    {
        for (column, descending) in self.keys.as_slice() {
            let ordering = compare_by(*column, *descending, row, other);
            if ordering != Ordering::Equal {
                return ordering;
            }
        }
        row.id().cmp(&other.id())
    }

    /// Whether a lighter row may come earlier than one that has all else alike.
    pub(crate) fn brings_lighter(&self) -> bool
        ensures { result ≡ brings_lighter self.now.keys }
    {
        self.keys
            .as_slice()
            .iter()
            .any(|key| ascends_by_weight(key))
    }

    /// Whether it is by nothing but the weight, descending, and the id, ascending.
    pub(crate) fn falls_behind(&self) -> bool
        ensures { result ≡ all_fall_behind self.now.keys }
    {
        self.keys.as_slice().iter().all(|key| falls_behind(key))
    }
}

/// Whether the weight ascends by a key.
fn ascends_by_weight(key: &(ColumnRef, bool)) -> bool
    ensures { result ≡ ascends_by_weight key.now }
{
    let (column, descending) = *key;
    column.is_weight() && !descending
}

/// Whether neither a lighter row nor one of a greater id comes earlier by a key.
fn falls_behind(key: &(ColumnRef, bool)) -> bool
    ensures { result ≡ falls_behind key.now }
{
    let (column, descending) = *key;
    if column.is_weight() {
        descending
    } else {
        column.is_id() && !descending
    }
}

/// How two rows stand by one key.
fn compare_by<R: FoundRow, O: FoundRow>(
    column: ColumnRef,
    descending: bool,
    row: &R,
    other: &O,
) -> Ordering
    ensures { result ≡ by_key (column, descending) (R.as_row row.now) (O.as_row other.now) }
{
    let value = row.value(column);
    let next = other.value(column);
    if descending {
        next.cmp(&value)
    } else {
        value.cmp(&next)
    }
}
