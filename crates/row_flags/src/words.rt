//! The flags of the rows that have a word. Its rows are taken many at a time, so that few of them are asked for by themselves.
ghost use Rattle.std.specs.Prelude.{◌≡◌, ◌+◌, ◌<◌, ◌==◌, ◌||◌, ℕ, Bool, false, length, slice_index_or};
ghost use Rattle.doc_types.specs.Chunks.{has_word};
ghost use Rattle.row_flags.specs.steps.Flags.{AreFlags, is_one_of};

use doc_types::{CountedLists, Cursor};

/// How many rows of a word are taken at a time.
pub(crate) const BLOCK: usize = 128;

/// Sets the flags of those rows from one on that have the word.
pub(crate) fn flag_word<C: CountedLists>(word: &[u8], chunk: &C, from: u32, into: &mut [bool])
    requires { (i : ℕ) (d : Bool) → i < length into.old → slice_index_or into.old i d ≡ false }
    ensures long { length into.new ≡ length into.old }
    ensures flags { AreFlags (has_word word.now) (C.content chunk.now) from into.new }
{
    if let Some(cursor) = chunk.start(word) {
        flag_ahead(chunk, cursor, from, into);
    }
}

/// Sets the flags of those rows from one on that are ahead of the cursor.
fn flag_ahead<C: CountedLists>(chunk: &C, cursor: Cursor, from: u32, into: &mut [bool])
    requires { C.belongs chunk.now cursor }
    ensures long { length into.new ≡ length into.old }
    ensures each { (i : ℕ) (d : Bool) → i < length into.old → slice_index_or into.new i d ≡ (slice_index_or into.old i d || is_one_of (C.place chunk.now cursor).ahead (from + i)) }
{
    let mut here = cursor;
    chunk.seek(&mut here, from);
    let mut block = [0; BLOCK];
    while let Some(row) = chunk.row(&here) {
        if row as usize >= from as usize + into.len() {
            return;
        }
        let taken = chunk.take_rows(&mut here, &mut block);
        flag_taken(&block[..taken], from, into);
    }
}

/// Sets the flags of these rows, of those of the rows from one on.
fn flag_taken(rows: &[u32], from: u32, into: &mut [bool])
    ensures long { length into.new ≡ length into.old }
    ensures each { (i : ℕ) (d : Bool) → i < length into.old → slice_index_or into.new i d ≡ (slice_index_or into.old i d || is_one_of rows.now (from + i)) }
{
    for row in rows {
        flag_one(*row, from, into);
    }
}

/// Sets the flag of one row.
#[inline(always)]
fn flag_one(row: u32, from: u32, into: &mut [bool])
    ensures long { length into.new ≡ length into.old }
    ensures each { (i : ℕ) (d : Bool) → i < length into.old → slice_index_or into.new i d ≡ (slice_index_or into.old i d || (row == from + i)) }
{
    if row >= from {
        let at = (row - from) as usize;
        if at < into.len() {
            into[at] = true;
        }
    }
}
