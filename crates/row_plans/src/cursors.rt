//! One keyword's cursor, on its way to a row.
ghost use Rattle.std.specs.Prelude.{IfSome};
ghost use Rattle.row_plans.specs.Cursors.{Keeps, is_ahead};
ghost use Rattle.row_plans.specs.Plans.{IsBound};

use doc_types::{Chunk, Cursor, NO_ROW};

/// The first row from this one on that has the word of the cursor; `NO_ROW` where there is none.
pub(crate) fn sought<C: Chunk>(chunk: &C, cursor: &mut Option<Cursor>, from: u32) -> u32
    requires { IfSome cursor.old (C.belongs chunk.now) }
    ensures keeps { Keeps (C.belongs chunk.now) (C.place chunk.now) from cursor.old cursor.new }
    ensures bound { IsBound (λ row. is_ahead (C.place chunk.now) row cursor.old) from result }
{
    match cursor {
        None => NO_ROW,
        Some(cursor) => chunk.seek(cursor, from),
    }
}
