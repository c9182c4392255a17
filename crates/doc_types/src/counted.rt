//! A chunk whose opened lists are counted in one ledger: how a search hands a chunk to what evaluates its query.
ghost use Rattle.std.specs.Prelude.{◌≡◌};

use crate::chunk::Chunk;
use crate::cursor::Cursor;
use crate::hit_lists::{CountedLists, HitLists};
use crate::schema::Value;
use crate::tokens::{Gap, ZoneSpan};
use srch_base::{NoMemory, Steps};
use std::marker::PhantomData;
use std::sync::ledger::Ledger;

/// A chunk that is lent, with the ledger in which its lists are counted. It answers as the chunk does, at no cost.
#[derive(Drop)]
pub struct Counted<'a, C: HitLists, L: Ledger> {
    chunk: &'a C,
    book: PhantomData<L>,
}

impl<'a, C: HitLists, L: Ledger> Counted<'a, C, L> {
    /// The chunk, counted in this ledger.
    pub fn over(chunk: &'a C) -> Counted<'a, C, L>
        ensures { result.chunk.now ≡ chunk.now }
    {
        Counted {
            chunk,
            book: PhantomData,
        }
    }
}

impl<'a, C: HitLists, L: Ledger> Chunk for Counted<'a, C, L> {
    ghost content = { λ counted. C.content counted.chunk.now };

    ghost words_of = { λ counted. C.words_of counted.chunk.now };

    ghost belongs = { λ counted cursor. C.belongs counted.chunk.now cursor };

    ghost place = { λ counted cursor. C.place counted.chunk.now cursor };

    fn rows(&self) -> u32 {
        self.chunk.rows()
    }

    fn fields(&self) -> u16 {
        self.chunk.fields()
    }

    fn id(&self, row: u32) -> u64 {
        self.chunk.id(row)
    }

    fn born(&self, row: u32) -> u64 {
        self.chunk.born(row)
    }

    fn value(&self, row: u32, attr: u16) -> Value {
        self.chunk.value(row, attr)
    }

    fn find(&self, id: u64) -> Option<u32> {
        self.chunk.find(id)
    }

    fn words(&self) -> u32 {
        self.chunk.words()
    }

    fn word_at(&self, n: u32) -> &[u8] {
        self.chunk.word_at(n)
    }

    fn count(&self, word: &[u8]) -> u32 {
        self.chunk.count(word)
    }

    fn start(&self, word: &[u8]) -> Option<Cursor> {
        self.chunk.start(word)
    }

    fn row(&self, cursor: &Cursor) -> Option<u32> {
        self.chunk.row(cursor)
    }

    fn advance(&self, cursor: &mut Cursor) {
        self.chunk.advance(cursor);
    }

    fn seek(&self, cursor: &mut Cursor, row: u32) -> u32 {
        self.chunk.seek(cursor, row)
    }

    #[inline]
    fn take_rows(&self, cursor: &mut Cursor, into: &mut [u32]) -> usize {
        self.chunk.take_rows(cursor, into)
    }

    fn lasts(&self, row: u32, into: &mut Vec<u32>) -> Result<(), NoMemory> {
        self.chunk.lasts(row, into)
    }

    fn gaps(&self, row: u32, into: &mut Vec<(u16, (u32, Gap))>) -> Result<(), NoMemory> {
        self.chunk.gaps(row, into)
    }

    fn spans(&self, row: u32, into: &mut Vec<(u16, ZoneSpan)>) -> Result<(), NoMemory> {
        self.chunk.spans(row, into)
    }

    ghost whole = { λ counted. C.whole counted.chunk.now };

    ghost all_words = { λ counted. C.all_words counted.chunk.now };

    ghost places = { λ counted cursor belongs. C.places counted.chunk.now cursor belongs };

    ghost nexts = { λ counted cursor belongs. C.nexts counted.chunk.now cursor belongs };
}

impl<'a, C: HitLists, L: Ledger> CountedLists for Counted<'a, C, L> {
    type Book = L;

    fn open(
        &self,
        cursor: &Cursor,
        into: &mut Vec<(u16, u32)>,
        steps: &mut Steps<L>,
    ) -> Result<(), NoMemory> {
        self.chunk.open(cursor, into, steps)
    }

    fn fields_at(&self, cursor: &Cursor, steps: &mut Steps<L>) -> u32 {
        self.chunk.fields_at(cursor, steps)
    }
}
