//! A document that a select found, as its conditions and its order see it.
ghost use Rattle.std.specs.Prelude.{◌≡◌, IfOk};
ghost use Rattle.row_select.specs.Columns.{column_value};
ghost use Rattle.row_select.specs.Filters.{is_id, is_weight};

use doc_types::Value;
use srch_base::{Items, NoMemory};
use std::alloc::Global;

/// A document that a select found.
#[derive(Drop)]
pub struct Row {
    pub id: u64,
    pub weight: u64,
    /// What the attributes hold, in the order of the schema.
    pub values: Items<Value>,
}

impl Row {
    /// A row without values, which takes no memory.
    pub(crate) fn empty(alloc: Global) -> Row {
        Row {
            id: 0,
            weight: 0,
            values: Items::new(Vec::new(alloc)),
        }
    }

    /// A row that holds the same.
    pub fn copy(&self) -> Result<Row, NoMemory>
        ensures { IfOk result (λ copy. copy ≡ self.now) }
    {
        Ok(Row {
            id: self.id,
            weight: self.weight,
            values: self.values.clone()?,
        })
    }
}

/// A column of the rows.
#[derive(Clone, Copy)]
pub enum ColumnRef {
    Id,
    /// The attribute of this number, from 0.
    Attr(u16),
    Weight,
}

impl ColumnRef {
    /// What a row holds in this column. Numbers of any column fit `i128`.
    pub fn value(self, row: &Row) -> i128
        ensures { result ≡ column_value self row.now }
    {
        match self {
            ColumnRef::Id => i128::from(row.id),
            ColumnRef::Attr(place) => match row.values.as_slice().get(place as usize) {
                Some(Value::Whole(number)) => i128::from(*number),
                None => 0,
            },
            ColumnRef::Weight => i128::from(row.weight),
        }
    }

    pub(crate) fn is_id(self) -> bool
        ensures { result ≡ is_id self }
    {
        matches!(self, ColumnRef::Id)
    }

    pub(crate) fn is_weight(self) -> bool
        ensures { result ≡ is_weight self }
    {
        matches!(self, ColumnRef::Weight)
    }
}
