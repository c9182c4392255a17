//! What a select with GROUP BY or with aggregates asks for, and a group as it is shown.
ghost use Rattle.std.specs.Prelude.{◌≡◌};
ghost use Rattle.group_facet.specs.Groups.{group_key};

use crate::fold::Fold;
use row_select::{ColumnRef, FoundRow, Order, Row};
use srch_base::Items;

/// How rows are grouped, and what is known of a group.
#[derive(Drop)]
pub struct Group {
    /// The column that is grouped by. Without one, all rows are one group.
    pub by: Option<ColumnRef>,
    /// WITHIN GROUP ORDER BY: a group's row is the first of its rows in this order.
    pub within: Order,
    /// The aggregates, each over the rows of a group.
    pub folds: Items<Fold>,
}

/// A group.
#[derive(Drop)]
pub struct GroupRow {
    /// What the group's rows have in the column that is grouped by; 0 without one.
    pub key: i128,
    /// The first of the group's rows.
    pub best: Row,
    /// The values of the aggregates, in their order.
    pub folded: Items<i128>,
}

impl Group {
    /// The group of a row, by its key.
    pub(crate) fn key<R: FoundRow>(&self, row: &R) -> i128
        ensures { result ≡ group_key self.now.by (R.as_row row.now) }
    {
        match self.by {
            Some(column) => row.value(column),
            None => 0,
        }
    }
}
