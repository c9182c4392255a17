//! Facets: how many of the found rows have each value of a column (the manual of Sphinx, "SELECT syntax": FACET).
ghost use Rattle.std.specs.Prelude.{◌≡◌};
ghost use Rattle.group_facet.specs.Facets.{by_facet};

use row_select::ColumnRef;
use std::cmp::Ordering;

/// The values of a column, each with the number of rows that have it: their order, and which of them are shown.
#[derive(Clone, Copy)]
pub struct Facet {
    pub column: ColumnRef,
    /// Whether the order is by the numbers of rows; else it is by the values. Ties go by the value, ascending.
    pub by_count: bool,
    pub descending: bool,
    /// How many values are passed over.
    pub offset: u32,
    /// The most values that are shown.
    pub count: u32,
}

impl Facet {
    /// How a value with its count stands to another one.
    pub(crate) fn compare(&self, value: &(i128, u64), other: &(i128, u64)) -> Ordering
        ensures { result ≡ by_facet self.now value.now other.now }
    {
        let ordering = if self.by_count {
            value.1.cmp(&other.1)
        } else {
            value.0.cmp(&other.0)
        };
        let ordering = if self.descending {
            ordering.reverse()
        } else {
            ordering
        };
        ordering.then(value.0.cmp(&other.0))
    }
}
