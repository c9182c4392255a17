//! The conditions of WHERE on columns (the manual of Sphinx, "SELECT syntax").
ghost use Rattle.std.specs.Prelude.{◌≡◌, false, IfNone, IfSome};
ghost use Rattle.row_select.specs.Filters.{bounds_above, bounds_below, compares, holds, is_equal, is_from, is_up_to, is_weighed, lists_ids};
ghost use Rattle.row_select.specs.steps.Listing.{IsHigh, IsLow, column_of};

use crate::found::FoundRow;
use crate::row::ColumnRef;
use srch_base::Items;

/// A condition on a column. The numbers that it names may lie outside of what the column can hold.
#[derive(Drop)]
pub enum Filter {
    Compare {
        column: ColumnRef,
        op: CompareOp,
        value: i128,
    },
    /// `[NOT] IN`
    Among {
        column: ColumnRef,
        values: Items<i128>,
        negated: bool,
    },
    /// Both ends are among the numbers that pass.
    Between {
        column: ColumnRef,
        low: i128,
        high: i128,
    },
}

/// How a value and a number compare.
#[derive(Clone, Copy)]
pub enum CompareOp {
    Equal,
    NotEqual,
    Less,
    Greater,
    AtMost,
    AtLeast,
}

impl Filter {
    /// Whether the condition holds of a row.
    pub fn holds<R: FoundRow>(&self, row: &R) -> bool
        ensures { result ≡ holds self.now (R.as_row row.now) }
    {
        match self {
            Filter::Compare { column, op, value } => op.holds(row.value(*column), *value),
            Filter::Among {
                column,
                values,
                negated,
            } => values.as_slice().contains(&row.value(*column)) != *negated,
            Filter::Between { column, low, high } => {
                let value = row.value(*column);
                *low <= value && value <= *high
            }
        }
    }

    /// The column that it looks at.
    pub(crate) fn column(&self) -> ColumnRef
        ensures { result ≡ column_of self.now }
    {
        match self {
            Filter::Compare { column, .. }
            | Filter::Among { column, .. }
            | Filter::Between { column, .. } => *column,
        }
    }

    /// Whether it asks for one of some ids.
    pub(crate) fn lists_ids(&self) -> bool
        ensures { result ≡ lists_ids self.now }
    {
        match self {
            Filter::Compare { column, op, .. } => column.is_id() && op.is_equal(),
            Filter::Among {
                column,
                negated,
                ..
            } => column.is_id() && !*negated,
            Filter::Between { .. } => false,
        }
    }

    /// A number that no id is below of which it holds. None where it says none.
    pub(crate) fn low(&self) -> Option<&i128>
        ensures low { IfSome result (λ low. IsLow self.now low.now) }
        ensures none { IfNone result (bounds_below self.now ≡ false) }
    {
        if !self.bounds_below() {
            return None;
        }
        match self {
            Filter::Compare { value, .. } => Some(value),
            Filter::Between { low, .. } => Some(low),
            Filter::Among { .. } => None,
        }
    }

    /// A number that no id is above of which it holds.
    pub(crate) fn high(&self) -> Option<&i128>
        ensures high { IfSome result (λ high. IsHigh self.now high.now) }
        ensures none { IfNone result (bounds_above self.now ≡ false) }
    {
        if !self.bounds_above() {
            return None;
        }
        match self {
            Filter::Compare { value, .. } => Some(value),
            Filter::Between { high, .. } => Some(high),
            Filter::Among { .. } => None,
        }
    }

    fn bounds_below(&self) -> bool
        ensures { result ≡ bounds_below self.now }
    {
        match self {
            Filter::Compare { column, op, .. } => column.is_id() && op.is_from(),
            Filter::Between { column, .. } => column.is_id(),
            Filter::Among { .. } => false,
        }
    }

    fn bounds_above(&self) -> bool
        ensures { result ≡ bounds_above self.now }
    {
        match self {
            Filter::Compare { column, op, .. } => column.is_id() && op.is_up_to(),
            Filter::Between { column, .. } => column.is_id(),
            Filter::Among { .. } => false,
        }
    }

    /// Whether the condition is one on the weight.
    pub(crate) fn is_weighed(&self) -> bool
        ensures { result ≡ is_weighed self.now }
    {
        match self {
            Filter::Compare { column, .. }
            | Filter::Among { column, .. }
            | Filter::Between { column, .. } => column.is_weight(),
        }
    }
}

impl CompareOp {
    fn is_equal(self) -> bool
        ensures { result ≡ is_equal self }
    {
        matches!(self, CompareOp::Equal)
    }

    fn is_from(self) -> bool
        ensures { result ≡ is_from self }
    {
        matches!(
            self,
            CompareOp::Equal | CompareOp::Greater | CompareOp::AtLeast
        )
    }

    fn is_up_to(self) -> bool
        ensures { result ≡ is_up_to self }
    {
        matches!(self, CompareOp::Equal | CompareOp::Less | CompareOp::AtMost)
    }

    /// Whether a value compares so with a number.
    pub fn holds(self, value: i128, number: i128) -> bool
        ensures { result ≡ compares self value number }
    {
        match self {
            CompareOp::Equal => value == number,
            CompareOp::NotEqual => value != number,
            CompareOp::Less => value < number,
            CompareOp::Greater => value > number,
            CompareOp::AtMost => value <= number,
            CompareOp::AtLeast => value >= number,
        }
    }
}
