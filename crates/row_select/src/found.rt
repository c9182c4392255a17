//! A document that a search found, as those see it that take it: what it holds is asked column by column, so that who needs none of
//! it reads nothing, and only who keeps it copies it.
use crate::row::{ColumnRef, Row};
use srch_base::NoMemory;

/// A document that was found.
pub trait FoundRow {
    ghost use Rattle.std.specs.Prelude.{◌≡◌, IfOk};
    ghost use Rattle.row_select.specs.Columns.{column_value};
    ghost use Rattle.row_select.specs.declared.row.Row.{Row};

    /// The document as a row.
    ghost as_row: { Self → Row };

    /// Its id.
    fn id(&self) -> u64
        ensures { result ≡ (as_row self.now).id };

    /// What it holds in a column.
    fn value(&self, column: ColumnRef) -> i128
        ensures { result ≡ column_value column (as_row self.now) };

    /// A row of its own that holds the same.
    fn copy(&self) -> Result<Row, NoMemory>
        ensures { IfOk result (λ copy. copy ≡ as_row self.now) };
}

impl FoundRow for Row {
    ghost as_row = { λ row. row };

    #[inline]
    fn id(&self) -> u64 {
        self.id
    }

    #[inline]
    fn value(&self, column: ColumnRef) -> i128 {
        column.value(self)
    }

    fn copy(&self) -> Result<Row, NoMemory> {
        Row::copy(self)
    }
}
