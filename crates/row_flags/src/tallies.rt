//! What the keywords of a tree tell of rows besides whether they match: how many of their words each row has, and in which fields.
ghost use Rattle.std.specs.Prelude.{◌≡◌, ◌+◌, ◌<◌, ◌==◌, ℕ, true, Some, if◌then◌else◌, length, map, slice_get, slice_index_or, OnOk};
ghost use Rattle.doc_types.specs.Chunks.{first_place};
ghost use Rattle.doc_types.specs.declared.documents.DocRow.{DocRow};
ghost use Rattle.query_tree.specs.TreeKeys.{node_keys};
ghost use Rattle.row_flags.specs.declared.windows.Told.{Told};
ghost use Rattle.row_flags.specs.steps.Flags.{is_one_of};
ghost use Rattle.row_flags.specs.steps.Tallies.{AreTallied, changed, tally, with_word};

use crate::windows::Told;
use crate::words::BLOCK;
use doc_types::{CountedLists, Cursor};
use query_tree::{Key, Node, put_keys};
use srch_base::{NoMemory, Steps};
use std::alloc::Global;

/// Looks for the keywords of the tree in the rows from one on, as many as something is told of, and tells it of each.
pub(crate) fn tally_tree<C: CountedLists>(
    alloc: Global,
    root: &Node,
    chunk: &C,
    from: u32,
    by_fields: bool,
    into: &mut [Told],
    steps: &mut Steps<C::Book>,
) -> Result<(), NoMemory>
    ensures long { length into.new ≡ length into.old }
    ensures tallied { OnOk result (AreTallied by_fields (node_keys root.now) (C.content chunk.now) from into.old into.new) }
{
    let mut keys = Vec::new(alloc);
    put_keys(root, &mut keys)?;
    tally_keys(&keys, chunk, from, by_fields, into, steps);
    Ok(())
}

/// The same for these keywords.
fn tally_keys<C: CountedLists>(
    keys: &[&Key],
    chunk: &C,
    from: u32,
    by_fields: bool,
    into: &mut [Told],
    steps: &mut Steps<C::Book>,
)
    ensures long { length into.new ≡ length into.old }
    ensures tallied { AreTallied by_fields (map (λ key. key.now) keys.now) (C.content chunk.now) from into.old into.new }
{
    for key in keys {
        tally_key(key, chunk, from, by_fields, into, steps);
    }
}

/// The same for one keyword.
fn tally_key<C: CountedLists>(
    key: &Key,
    chunk: &C,
    from: u32,
    by_fields: bool,
    into: &mut [Told],
    steps: &mut Steps<C::Book>,
)
    ensures long { length into.new ≡ length into.old }
    ensures each { (i : ℕ) (row : DocRow) (d : Told) → i < length into.old → slice_get (C.content chunk.now) (from + i) ≡ Some row → slice_index_or into.new i d ≡ tally by_fields row (slice_index_or into.old i d) key.now }
{
    if let Some(cursor) = chunk.start(key.word.as_bytes()) {
        if by_fields {
            tally_fields(key, chunk, cursor, from, into, steps);
        } else {
            tally_ahead(chunk, cursor, from, into);
        }
    }
}

/// Tells of those rows from one on that are ahead of the cursor that they have a word more, and no fields.
fn tally_ahead<C: CountedLists>(chunk: &C, cursor: Cursor, from: u32, into: &mut [Told])
    requires { C.belongs chunk.now cursor }
    ensures long { length into.new ≡ length into.old }
    ensures each { (i : ℕ) (d : Told) → i < length into.old → slice_index_or into.new i d ≡ (if is_one_of (C.place chunk.now cursor).ahead (from + i) then with_word 0 (slice_index_or into.old i d) else slice_index_or into.old i d) }
{
    let mut here = cursor;
    chunk.seek(&mut here, from);
    let mut block = [0; BLOCK];
    while let Some(row) = chunk.row(&here) {
        if row as usize >= from as usize + into.len() {
            return;
        }
        let taken = chunk.take_rows(&mut here, &mut block);
        tally_taken(&block[..taken], from, into);
    }
}

/// The same for these rows.
fn tally_taken(rows: &[u32], from: u32, into: &mut [Told])
    ensures long { length into.new ≡ length into.old }
    ensures each { (i : ℕ) (d : Told) → i < length into.old → slice_index_or into.new i d ≡ changed (with_word 0) (from + i) (slice_index_or into.old i d) rows.now }
{
    for row in rows {
        tally_one(*row, 0, from, into);
    }
}

/// Tells of one row that it has a word more, in these fields.
#[inline(always)]
fn tally_one(row: u32, fields: u32, from: u32, into: &mut [Told])
    ensures long { length into.new ≡ length into.old }
    ensures each { (i : ℕ) (d : Told) → i < length into.old → slice_index_or into.new i d ≡ (if row == from + i then with_word fields (slice_index_or into.old i d) else slice_index_or into.old i d) }
{
    if row >= from {
        let at = (row - from) as usize;
        if at < into.len() {
            into[at] = with_word(into[at], fields);
        }
    }
}

/// Tells of those rows from one on that have the keyword's word that they have it, and in which of its fields, by a cursor before all
/// of them.
fn tally_fields<C: CountedLists>(
    key: &Key,
    chunk: &C,
    cursor: Cursor,
    from: u32,
    into: &mut [Told],
    steps: &mut Steps<C::Book>,
)
    requires belongs { C.belongs chunk.now cursor }
    requires first { C.place chunk.now cursor ≡ first_place key.now.word (C.content chunk.now) }
    ensures long { length into.new ≡ length into.old }
    ensures each { (i : ℕ) (row : DocRow) (d : Told) → i < length into.old → slice_get (C.content chunk.now) (from + i) ≡ Some row → slice_index_or into.new i d ≡ tally true row (slice_index_or into.old i d) key.now }
{
    let mut here = cursor;
    chunk.seek(&mut here, from);
    while let Some(row) = chunk.row(&here) {
        if row as usize >= from as usize + into.len() {
            return;
        }
        let fields = chunk.fields_at(&here, steps) & key.limit.fields;
        tally_one(row, fields, from, into);
        chunk.advance(&mut here);
    }
}

/// The row has one word more, in these fields.
#[inline(always)]
fn with_word(told: Told, fields: u32) -> Told
    ensures { result ≡ with_word fields told }
{
    Told {
        found: told.found,
        words: told.words.saturating_add(1),
        fields: told.fields | fields,
    }
}
