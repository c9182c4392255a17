//! A chunk that counts the calls made on it, the lists of places that are opened and how often a row is sought, and that can be shut.
ghost use Rattle.std.specs.Prelude.{◌≡◌, IfOk};

use doc_types::{Chunk, Cursor, Gap, HitLists, Value, ZoneSpan};
use srch_base::{NoMemory, Steps};
use std::alloc::Global;
use std::sync::Arc;
use std::sync::atomic::{AtomicBool, AtomicU64, Ordering};
use std::sync::ledger::Ledger;

/// What is counted, and whether lists can't be opened.
#[derive(Drop)]
struct Counting {
    calls: AtomicU64,
    lists: AtomicU64,
    seeks: AtomicU64,
    shut: AtomicBool,
}

/// A chunk with three counts, which has no memory for lists of places while it is shut.
#[derive(Drop)]
pub(crate) struct Watched<C> {
    chunk: C,
    counting: Arc<Counting, Global>,
}

impl<C: Drop> Watched<C> {
    /// A chunk whose calls are counted.
    pub(crate) fn over(alloc: Global, chunk: C) -> Result<Watched<C>, NoMemory>
        ensures { IfOk result (λ watched. watched.chunk ≡ chunk) }
    {
        let counting = Counting {
            calls: AtomicU64::new(0),
            lists: AtomicU64::new(0),
            seeks: AtomicU64::new(0),
            shut: AtomicBool::new(false),
        };
        Ok(Watched {
            chunk,
            counting: Arc::new(alloc, counting)?,
        })
    }

    /// From now on lists can't be opened, or they can.
    pub(crate) fn shut(&self, is_shut: bool) {
        self.counting.shut.store(is_shut, Ordering::SeqCst);
    }

    /// How many calls were made, how many lists were opened, and how often a row was sought, since this was asked before.
    pub(crate) fn counts(&self) -> (u64, u64, u64) {
        let counting: &Counting = &self.counting;
        (
            counting.calls.swap(0, Ordering::SeqCst),
            counting.lists.swap(0, Ordering::SeqCst),
            counting.seeks.swap(0, Ordering::SeqCst),
        )
    }
}

/// Counts one more. Nobody else counts meanwhile.
fn count_one(at: &AtomicU64) {
    at.store(
        at.load(Ordering::SeqCst).saturating_add(1),
        Ordering::SeqCst,
    );
}

impl<C: Chunk> Chunk for Watched<C> {
    ghost content = { λ watched. C.content watched.chunk };

    ghost words_of = { λ watched. C.words_of watched.chunk };

    ghost belongs = { λ watched cursor. C.belongs watched.chunk cursor };

    ghost place = { λ watched cursor. C.place watched.chunk cursor };

    fn rows(&self) -> u32 {
        count_one(&self.counting.calls);
        self.chunk.rows()
    }

    fn fields(&self) -> u16 {
        count_one(&self.counting.calls);
        self.chunk.fields()
    }

    fn id(&self, row: u32) -> u64 {
        count_one(&self.counting.calls);
        self.chunk.id(row)
    }

    fn born(&self, row: u32) -> u64 {
        count_one(&self.counting.calls);
        self.chunk.born(row)
    }

    fn value(&self, row: u32, attr: u16) -> Value {
        count_one(&self.counting.calls);
        self.chunk.value(row, attr)
    }

    fn find(&self, id: u64) -> Option<u32> {
        count_one(&self.counting.calls);
        self.chunk.find(id)
    }

    fn words(&self) -> u32 {
        count_one(&self.counting.calls);
        self.chunk.words()
    }

    fn word_at(&self, n: u32) -> &[u8] {
        count_one(&self.counting.calls);
        self.chunk.word_at(n)
    }

    fn count(&self, word: &[u8]) -> u32 {
        count_one(&self.counting.calls);
        self.chunk.count(word)
    }

    fn start(&self, word: &[u8]) -> Option<Cursor> {
        count_one(&self.counting.calls);
        self.chunk.start(word)
    }

    fn row(&self, cursor: &Cursor) -> Option<u32> {
        count_one(&self.counting.calls);
        self.chunk.row(cursor)
    }

    fn advance(&self, cursor: &mut Cursor) {
        count_one(&self.counting.calls);
        self.chunk.advance(cursor);
    }

    fn seek(&self, cursor: &mut Cursor, row: u32) -> u32 {
        count_one(&self.counting.calls);
        count_one(&self.counting.seeks);
        self.chunk.seek(cursor, row)
    }

    fn take_rows(&self, cursor: &mut Cursor, into: &mut [u32]) -> usize {
        count_one(&self.counting.calls);
        self.chunk.take_rows(cursor, into)
    }

    fn lasts(&self, row: u32, into: &mut Vec<u32>) -> Result<(), NoMemory> {
        count_one(&self.counting.calls);
        self.chunk.lasts(row, into)
    }

    fn gaps(&self, row: u32, into: &mut Vec<(u16, (u32, Gap))>) -> Result<(), NoMemory> {
        count_one(&self.counting.calls);
        self.chunk.gaps(row, into)
    }

    fn spans(&self, row: u32, into: &mut Vec<(u16, ZoneSpan)>) -> Result<(), NoMemory> {
        count_one(&self.counting.calls);
        self.chunk.spans(row, into)
    }

    ghost whole = { λ watched. C.whole watched.chunk };

    ghost all_words = { λ watched. C.all_words watched.chunk };

    ghost places = { λ watched cursor belongs. C.places watched.chunk cursor belongs };

    ghost nexts = { λ watched cursor belongs. C.nexts watched.chunk cursor belongs };
}

impl<C: HitLists> HitLists for Watched<C> {
    fn open<L: Ledger>(
        &self,
        cursor: &Cursor,
        into: &mut Vec<(u16, u32)>,
        steps: &mut Steps<L>,
    ) -> Result<(), NoMemory> {
        count_one(&self.counting.calls);
        if self.counting.shut.load(Ordering::SeqCst) {
            steps.tick();
            return Err(NoMemory);
        }
        count_one(&self.counting.lists);
        self.chunk.open(cursor, into, steps)
    }

    fn fields_at<L: Ledger>(&self, cursor: &Cursor, steps: &mut Steps<L>) -> u32 {
        count_one(&self.counting.calls);
        self.chunk.fields_at(cursor, steps)
    }
}
