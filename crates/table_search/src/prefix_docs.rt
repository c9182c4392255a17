//! How many documents have a word that begins so. The rows of a layer that have one of these words are marked, and then those marks are
//! counted whose rows aren't dead: so a document counts once, however many of the words it has.
ghost use Rattle.std.specs.Prelude.{◌≡◌, ◌+◌, ◌<◌, ◌||◌, ℕ, ◌^◌, ◌==◌, ◌&&◌, AllPairs, false, length, map, replicate, IfOk, if◌then◌else◌};
ghost use Rattle.std.specs.List.{count_by, list_any};
ghost use Rattle.doc_types.specs.Chunks.{rows_with};
ghost use Rattle.doc_types.specs.Snapshots.{all_living, living};
ghost use Rattle.prefix_finds.specs.Taken.{words_in};
ghost use Rattle.query_tree.specs.Taking.{begins_so};
ghost use Rattle.table_search.specs.steps.Counting.{has_some, is_marked, is_row_of, lives_among, living_marks};

use crate::keywords::add_row;
use doc_types::{Chunk, Cursor, Layer, Snapshot};
use prefix_terms::words_of_prefix;
use srch_base::{NoMemory, Word};
use std::alloc::Global;

/// How many documents have a word that begins so.
pub(crate) fn docs_beginning<C: Chunk>(
    alloc: Global,
    beginning: &[u8],
    snapshot: &Snapshot<C>,
) -> Result<u64, NoMemory>
    ensures { IfOk result (λ docs. docs ≡ count_by (λ doc. list_any (λ word. begins_so word beginning.now) (words_in doc)) (all_living snapshot.now.layers)) }
{
    let words = words_of_prefix(alloc, snapshot, beginning)?;
    count_docs(alloc, words.as_slice(), snapshot.layers.as_slice())
}

/// How many documents of the layers have one of the words.
fn count_docs<C: Chunk>(alloc: Global, words: &[Word], layers: &[Layer<C>]) -> Result<u64, NoMemory>
    ensures { IfOk result (λ docs. docs ≡ count_by (has_some words.now) (all_living layers.now)) }
{
    let mut docs = 0;
    for layer in layers {
        docs = add_layer(alloc, words, layer, docs)?;
    }
    Ok(docs)
}

/// As many documents, and those of a layer that have one of the words.
fn add_layer<C: Chunk>(
    alloc: Global,
    words: &[Word],
    layer: &Layer<C>,
    docs: u64,
) -> Result<u64, NoMemory>
    ensures { IfOk result (λ more. more ≡ docs + count_by (has_some words.now) (living layer.now)) }
{
    let chunk: &C = &layer.chunk;
    let marks = marks_of(alloc, chunk, words)?;
    add_marks(&marks, layer.dead.as_slice(), docs)
}

/// A mark for each row of the chunk that has one of the words.
fn marks_of<C: Chunk>(alloc: Global, chunk: &C, words: &[Word]) -> Result<Vec<bool>, NoMemory>
    ensures { IfOk result (λ marks. marks.items ≡ map (has_some words.now) (C.content chunk.now)) }
{
    let mut marks = no_marks(alloc, chunk.rows())?;
    'words: for word in words {
        mark(chunk, word.as_bytes(), &mut marks);
    }
    Ok(marks)
}

/// So many rows without a mark.
fn no_marks(alloc: Global, rows: u32) -> Result<Vec<bool>, NoMemory>
    ensures { IfOk result (λ marks. marks.items ≡ replicate rows false) }
{
    Ok(vec![in alloc; false; rows as usize]?)
}

/// Marks the rows that have the word.
fn mark<C: Chunk>(chunk: &C, word: &[u8], marks: &mut [bool])
    ensures long { length marks.new ≡ length marks.old }
    ensures marked { (row : ℕ) → row < length marks.old → is_marked marks.new row ≡ (is_marked marks.old row || is_row_of (rows_with word.now (C.content chunk.now)) row) }
{
    match chunk.start(word) {
        Some(cursor) => mark_ahead(chunk, cursor, marks),
        None => {}
    }
}

/// Marks the rows ahead of a cursor.
fn mark_ahead<C: Chunk>(chunk: &C, cursor: Cursor, marks: &mut [bool])
    requires { C.belongs chunk.now cursor }
    ensures long { length marks.new ≡ length marks.old }
    ensures marked { (row : ℕ) → row < length marks.old → is_marked marks.new row ≡ (is_marked marks.old row || is_row_of (C.place chunk.now cursor).ahead row) }
{
    let mut here = cursor;
    while let Some(row) = chunk.row(&here) {
        mark_row(row, marks);
        chunk.advance(&mut here);
    }
}

/// Marks a row, if there is a mark for it.
fn mark_row(row: u32, marks: &mut [bool])
    ensures long { length marks.new ≡ length marks.old }
    ensures marked { (other : ℕ) → other < length marks.old → is_marked marks.new other ≡ (is_marked marks.old other || (row == other)) }
{
    let at = row as usize;
    if at < marks.len() {
        marks[at] = true;
    }
}

/// As many documents, and one for each row that is marked and isn't dead.
fn add_marks(marks: &[bool], dead: &[u32], docs: u64) -> Result<u64, NoMemory>
    requires dead { AllPairs (λ row later. row < later) dead.now }
    requires few { length marks.now < 2 ^ 32 }
    ensures { IfOk result (λ more. more ≡ docs + living_marks dead.now marks.now) }
{
    let mut count = docs;
    for (row, marked) in marks.iter().enumerate() {
        count = add_mark(*marked, dead, row as u32, count)?;
    }
    Ok(count)
}

/// As many documents, and one more where the row is marked and isn't dead.
fn add_mark(marked: bool, dead: &[u32], row: u32, docs: u64) -> Result<u64, NoMemory>
    requires { AllPairs (λ row later. row < later) dead.now }
    ensures { IfOk result (λ more. more ≡ docs + (if marked && lives_among dead.now row then 1 else 0)) }
{
    if marked {
        add_row(dead, row, docs)
    } else {
        Ok(docs)
    }
}
