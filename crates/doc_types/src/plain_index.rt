//! The words of a plain chunk: a sorted list of words, each with the numbers of the rows that have it, ascending. It is made
//! once, by one pass over the rows into a map; a word or an id is then found by binary search.
ghost use Rattle.std.specs.Prelude.{◌≡◌, ◌<◌, ◌≤◌, ◌==◌, AllPairs, IfOk, length, slice_get};
ghost use Rattle.std.specs.List.{position};
ghost use Rattle.std.specs.Str.{bytes_eq};
ghost use Rattle.std.specs.Ordering.{nat_cmp};
ghost use Rattle.std.specs.Cmp.Lexicographic.{slice_cmp};
ghost use Rattle.std.specs.declared.cmp.Ordering.TheVariants.{Less};
ghost use Rattle.doc_types.specs.Chunks.{IsContent};
ghost use Rattle.doc_types.specs.steps.PlainIndex.{StandsIn, IsIndex, row_at};

use crate::collecting::{collect, listed};
use crate::cursor::{Cursor, NO_ROW};
use crate::documents::DocRow;
use srch_base::{Items, NoMemory, Word};
use std::alloc::Global;

/// A word with the numbers of the rows that have it, ascending.
#[derive(Drop)]
pub(crate) struct WordRows {
    pub(crate) word: Word,
    pub(crate) rows: Items<u32>,
}

/// The index of these rows.
pub(crate) fn index_of(alloc: Global, rows: &Items<DocRow>) -> Result<Items<WordRows>, NoMemory>
    requires { IsContent rows.now }
    ensures { IfOk result (IsIndex rows.now) }
{
    let collected = collect(alloc, rows)?;
    let index = listed(alloc, collected)?;
    Ok(index)
}

/// The row of an id, where the ids ascend.
pub(crate) fn row_of(rows: &[DocRow], id: u64) -> Option<usize>
    requires { AllPairs (λ row later. row.doc.id < later.doc.id) rows.now }
    ensures { result ≡ position (λ row. row.doc.id == id) rows.now }
{
    rows.binary_search_by(|row| row.doc.id.cmp(&id)).ok()
}

/// The entry of a word, where the words ascend.
pub(crate) fn entry_of(index: &[WordRows], word: &[u8]) -> Option<usize>
    requires { AllPairs (λ entry later. slice_cmp nat_cmp entry.word later.word ≡ Less) index.now }
    ensures { result ≡ position (λ entry. bytes_eq entry.word word.now) index.now }
{
    index
        .binary_search_by(|entry| entry.word.as_bytes().cmp(word))
        .ok()
}

/// The entry of the word that a cursor stands for.
pub(crate) fn entry_at<'a>(index: &'a [WordRows], cursor: &Cursor) -> &'a WordRows
    requires { StandsIn index.now cursor.now }
    ensures entry { slice_get index.now cursor.now.word ≡ Some result.now }
    ensures within { cursor.now.at ≤ length result.now.rows }
    ensures here { cursor.now.index ≡ row_at result.now.rows cursor.now.at }
{
    &index[cursor.word as usize]
}

/// The row at this place of a word's rows, or `NO_ROW`.
pub(crate) fn row_at(rows: &[u32], at: usize) -> u32
    ensures { result ≡ row_at rows.now at }
{
    match rows.get(at) {
        Some(row) => *row,
        None => NO_ROW,
    }
}
