//! Result sets that are written part by part, whatever keeps them: so no row takes memory of its own.
ghost use Rattle.std.specs.Prelude.{◌≡◌, ◌<◌, ◌++◌, [], OnOk, Some, length, slice_get, slice_index_or};
ghost use Rattle.mysql_wire.specs.Rows.{row_payload};
ghost use Rattle.reply_rows.specs.declared.result_set.ResultSet.{ResultSet};

use crate::result_set::ResultSet;
use mysql_wire::{Cell, Column, put_row};
use srch_base::{Items, NoMemory};

/// What is shown as a result set.
pub trait Table {
    /// The result set.
    ghost set: { Self → ResultSet };

    /// How many columns there are.
    fn columns(&self) -> usize
        ensures { result ≡ length (set self.now).columns };

    /// The column at a place below `columns`.
    fn column(&self, at: usize) -> &Column
        requires { at < length (set self.now).columns }
        ensures { slice_get (set self.now).columns at ≡ Some result.now };

    /// How many rows there are.
    fn rows(&self) -> usize
        ensures { result ≡ length (set self.now).rows };

    /// Appends the payload of the row at a place below `rows`; after an `Err` a prefix of it may be there.
    fn put_row(&self, at: usize, payload: &mut Vec<u8>) -> Result<(), NoMemory>
        requires { at < length (set self.now).rows }
        ensures { OnOk result (payload.new.items ≡ payload.old.items ++ row_payload (slice_index_or (set self.now).rows at [])) };
}

impl Table for ResultSet {
    ghost set = { λ set. set };

    fn columns(&self) -> usize {
        self.columns.len()
    }

    fn column(&self, at: usize) -> &Column {
        &self.columns.as_slice()[at]
    }

    fn rows(&self) -> usize {
        self.rows.len()
    }

    fn put_row(&self, at: usize, payload: &mut Vec<u8>) -> Result<(), NoMemory> {
        put_row(self.rows.as_slice()[at].as_slice(), payload)
    }
}
