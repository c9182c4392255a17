//! The flags of one keyword: that of a row is set where it has a place in it.
ghost use Rattle.std.specs.Prelude.{◌≡◌, ◌+◌, ◌<◌, ◌≤◌, ℕ, Bool, true, false, Some, length, slice_get, slice_index_or};
ghost use Rattle.doc_types.specs.Chunks.{first_place, has_word, next_row};
ghost use Rattle.doc_types.specs.declared.documents.DocRow.{DocRow};
ghost use Rattle.word_rows.specs.Fields.{LooksAtFields};
ghost use Rattle.word_rows.specs.Keywords.{has_field};
ghost use Rattle.row_flags.specs.steps.Flags.{AreFlags, IsFree, has_place};

use crate::words::flag_word;
use doc_types::{Chunk, CountedLists, Cursor};
use query_tree::Key;
use srch_base::Steps;
use word_rows::looks_at_fields;

/// Sets the flags of the rows from one on by whether the keyword has a place in them; or tells that more than fields decides that.
pub(crate) fn flag_key<C: CountedLists>(
    key: &Key,
    chunk: &C,
    from: u32,
    into: &mut [bool],
    steps: &mut Steps<C::Book>,
) -> bool
    requires { from + length into.old ≤ length (C.content chunk.now) }
    ensures long { length into.new ≡ length into.old }
    ensures flags { result ≡ true → AreFlags (has_place key.now) (C.content chunk.now) from into.new }
{
    if !looks_at_fields(key) {
        return false;
    }
    unset(into);
    if is_free(key, chunk.fields()) {
        flag_word(key.word.as_bytes(), chunk, from, into);
    } else if let Some(cursor) = chunk.start(key.word.as_bytes()) {
        flag_rows(key, chunk, cursor, from, into, steps);
    }
    true
}

/// Leaves no flag set.
fn unset(flags: &mut [bool])
    ensures long { length flags.new ≡ length flags.old }
    ensures none { (i : ℕ) (d : Bool) → i < length flags.old → slice_index_or flags.new i d ≡ false }
{
    flags.fill(false);
}

/// Whether the keyword may stand in each of so many fields.
fn is_free(key: &Key, fields: u16) -> bool
    ensures { result ≡ true → IsFree key.now fields }
{
    (0..fields).all(|field| has_field(key.limit.fields, field))
}

/// Whether the field's bit is set.
fn has_field(fields: u32, field: u16) -> bool
    ensures { result ≡ has_field fields field }
{
    field < 32 && fields >> field & 1 == 1
}

/// Sets the flags of those rows from one on in which the keyword has a place, by a cursor before all rows that have its word.
fn flag_rows<C: CountedLists>(
    key: &Key,
    chunk: &C,
    cursor: Cursor,
    from: u32,
    into: &mut [bool],
    steps: &mut Steps<C::Book>,
)
    requires within { from + length into.old ≤ length (C.content chunk.now) }
    requires looks { LooksAtFields key.now }
    requires belongs { C.belongs chunk.now cursor }
    requires first { C.place chunk.now cursor ≡ first_place key.now.word (C.content chunk.now) }
    requires none { (i : ℕ) (d : Bool) → i < length into.old → slice_index_or into.old i d ≡ false }
    ensures long { length into.new ≡ length into.old }
    ensures flags { AreFlags (has_place key.now) (C.content chunk.now) from into.new }
{
    let mut here = cursor;
    chunk.seek(&mut here, from);
    while let Some(row) = chunk.row(&here) {
        let at = (row - from) as usize;
        if at >= into.len() {
            return;
        }
        into[at] = stands_next(key, chunk, &here, row, steps);
        chunk.advance(&mut here);
    }
}

/// Whether the keyword has a place in the next row of the cursor, which has its word.
#[inline(always)]
fn stands_next<C: CountedLists>(
    key: &Key,
    chunk: &C,
    cursor: &Cursor,
    row: u32,
    steps: &mut Steps<C::Book>,
) -> bool
    requires looks { LooksAtFields key.now }
    requires belongs { C.belongs chunk.now cursor.now }
    requires word { (C.place chunk.now cursor.now).word ≡ key.now.word }
    requires next { next_row (C.place chunk.now cursor.now) ≡ Some row }
    ensures { (found : DocRow) → slice_get (C.content chunk.now) row ≡ Some found → has_word key.now.word found ≡ true → result ≡ has_place key.now found }
{
    chunk.fields_at(cursor, steps) & key.limit.fields != 0
}
