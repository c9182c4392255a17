//! A chunk over a plain list of rows. It costs what its rows and their words take: making it is n log n in the words, a
//! word or an id is found by binary search, and what a row has is read off its document. It stands for chunks that pack their
//! rows, and its contract, that of `Chunk`, is theirs as well.
ghost use Rattle.std.specs.Prelude.{◌≡◌, ◌+◌, ◌<◌, ◌==◌, ◌++◌, ◌↔◌, List, [], length, map, IsSome, IfSome, IfNone, IfOk, OnOk, OnErr, slice_get};
ghost use Rattle.std.specs.Option.{option_map, option_map_or};
ghost use Rattle.std.specs.List.{position};
ghost use Rattle.doc_types.specs.Chunks.{IsContent};
ghost use Rattle.doc_types.specs.steps.PlainIndex.{IsIndex, StandsIn, place_in, place_in-IsCursorPlace, place_in-row_of, words-AreWordsOf};

use crate::chunk::Chunk;
use crate::cursor::{Cursor, NO_ROW};
use crate::documents::DocRow;
use crate::hit_lists::HitLists;
use crate::plain_index::{WordRows, entry_at, entry_of, index_of, row_at, row_of};
use crate::row_parts::{fields_with, put_gaps, put_hits, put_lasts, put_spans};
use crate::schema::Value;
use crate::tokens::{Gap, ZoneSpan};
use srch_base::{Items, NoMemory, Steps};
use std::alloc::Global;
use std::sync::ledger::Ledger;

/// A chunk over a plain list: its rows, and its words with the rows of each.
///
/// `start` and `find` are binary searches; what a row has is looked up in its document.
#[derive(Drop)]
pub struct PlainChunk {
    rows: Items<DocRow>,
    index: Items<WordRows>,
    ghost whole: { ∥ IsContent rows ∥₁ },
    ghost indexed: { IsIndex rows index },
}

impl PlainChunk {
    /// A chunk of these rows.
    pub fn build(alloc: Global, rows: Vec<DocRow>) -> Result<PlainChunk, NoMemory>
        requires { IsContent rows.items }
        ensures { IfOk result (λ chunk. chunk.rows ≡ rows.items) }
    {
        let rows = Items::new(rows);
        let index = index_of(alloc, &rows)?;
        Ok(PlainChunk { rows, index })
    }

    /// Its rows, by ascending id.
    pub fn as_rows(&self) -> &[DocRow]
        ensures { result.now ≡ self.now.rows }
    {
        self.rows.as_slice()
    }
}

impl Chunk for PlainChunk {
    ghost content = { λ chunk. chunk.rows };

    ghost words_of = { λ chunk. map (λ entry. entry.word) chunk.index };

    ghost belongs = { λ chunk cursor. StandsIn chunk.index cursor };

    ghost place = { λ chunk cursor. place_in chunk.index cursor };

    fn rows(&self) -> u32 {
        self.rows.len() as u32
    }

    fn fields(&self) -> u16 {
        match self.rows.as_slice().first() {
            Some(first) => first.doc.fields.len() as u16,
            None => 0,
        }
    }

    fn id(&self, row: u32) -> u64 {
        self.rows.as_slice()[row as usize].doc.id
    }

    fn born(&self, row: u32) -> u64 {
        self.rows.as_slice()[row as usize].born
    }

    fn value(&self, row: u32, attr: u16) -> Value {
        self.rows.as_slice()[row as usize].doc.values.as_slice()[attr as usize]
    }

    fn find(&self, id: u64) -> Option<u32> {
        Some(row_of(self.rows.as_slice(), id)? as u32)
    }

    fn words(&self) -> u32 {
        self.index.len() as u32
    }

    fn word_at(&self, n: u32) -> &[u8] {
        self.index.as_slice()[n as usize].word.as_bytes()
    }

    fn count(&self, word: &[u8]) -> u32 {
        let index = self.index.as_slice();
        match entry_of(index, word) {
            Some(found) => index[found].rows.len() as u32,
            None => 0,
        }
    }

    fn start(&self, word: &[u8]) -> Option<Cursor> {
        let index = self.index.as_slice();
        let found = entry_of(index, word)?;
        let rows = index[found].rows.as_slice();
        Some(Cursor {
            word: found as u32,
            at: 0,
            index: row_at(rows, 0),
        })
    }

    fn row(&self, cursor: &Cursor) -> Option<u32> {
        cursor.next_row()
    }

    fn advance(&self, cursor: &mut Cursor) {
        if cursor.index == NO_ROW {
            return;
        }
        let entry = entry_at(self.index.as_slice(), cursor);
        cursor.at += 1;
        cursor.index = row_at(entry.rows.as_slice(), cursor.at as usize);
    }

    fn lasts(&self, row: u32, into: &mut Vec<u32>) -> Result<(), NoMemory> {
        put_lasts(&self.rows.as_slice()[row as usize], into)
    }

    fn gaps(&self, row: u32, into: &mut Vec<(u16, (u32, Gap))>) -> Result<(), NoMemory> {
        put_gaps(&self.rows.as_slice()[row as usize], into)
    }

    fn spans(&self, row: u32, into: &mut Vec<(u16, ZoneSpan)>) -> Result<(), NoMemory> {
        put_spans(&self.rows.as_slice()[row as usize], into)
    }

    ghost whole = { λ chunk. chunk.whole };

    ghost all_words = { λ chunk. words-AreWordsOf chunk.rows chunk.index chunk.indexed };

    ghost places = { λ chunk cursor stands. place_in-IsCursorPlace chunk.rows chunk.index cursor chunk.indexed stands };

    ghost nexts = { λ chunk cursor stands. place_in-row_of chunk.rows chunk.index cursor chunk.indexed stands };
}

impl HitLists for PlainChunk {
    fn open<L: Ledger>(
        &self,
        cursor: &Cursor,
        into: &mut Vec<(u16, u32)>,
        steps: &mut Steps<L>,
    ) -> Result<(), NoMemory> {
        steps.tick();
        let entry = entry_at(self.index.as_slice(), cursor);
        put_hits(
            &self.rows.as_slice()[cursor.index as usize],
            entry.word.as_bytes(),
            into,
        )
    }

    fn fields_at<L: Ledger>(&self, cursor: &Cursor, _steps: &mut Steps<L>) -> u32 {
        let entry = entry_at(self.index.as_slice(), cursor);
        fields_with(
            &self.rows.as_slice()[cursor.index as usize],
            entry.word.as_bytes(),
        )
    }
}
