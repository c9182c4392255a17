//! Result sets, as values.
use mysql_wire::{Cell, Column};
use srch_base::Items;

/// Columns, and rows that have a value for each column.
#[derive(Drop)]
pub struct ResultSet {
    pub columns: Items<Column>,
    pub rows: Items<Items<Cell>>,
}
