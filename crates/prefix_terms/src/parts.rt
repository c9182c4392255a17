//! The words of a layer's chunk that begin so. In a dictionary they stand one behind the other, so two binary searches tell them.
//! Contracts see them as a list of their own.
ghost use Rattle.std.specs.Prelude.{◌≡◌, ◌≢◌, ◌<◌, ◌≤◌, ◌+◌, ◌^◌, ◌==◌, ℕ, List, Some, AllPairs, length, nat_lt, slice_get, IfOk};
ghost use Rattle.std.specs.List.{AllZip, list_any};
ghost use Rattle.std.specs.Option.{option_map};
ghost use Rattle.doc_types.specs.Chunks.{has_word, rows_with};
ghost use Rattle.prefix_terms.specs.steps.Parts.{IsPartOf, IsRunWith, is_alive, living_of, stands_before};

use doc_types::{Chunk, Cursor, Layer};
use srch_base::{Items, NoMemory};
use std::alloc::Global;
use std::marker::Model;
use std::sync::Arc;

/// A layer's chunk with its dead rows, and its words that begin so: so many of its dictionary, from one number on.
#[derive(Drop)]
pub(crate) struct Part<C: Chunk> {
    chunk: Arc<C, Global>,
    dead: Arc<Items<u32>, Global>,
    first: u32,
    count: u32,
}

impl<C: Chunk> Model for Part<C> {
    ghost use Rattle.std.specs.Arc.{arc_value};
    ghost use Rattle.std.specs.Prelude.{take, drop};
    ghost use Rattle.prefix_terms.specs.steps.Parts.{IsRunOf, PartValue};

    ghost Value = { PartValue };

    ghost view = { λ a. record { rows = C.content (arc_value a.chunk); words = take a.count (drop a.first (C.words_of (arc_value a.chunk))); dead = arc_value a.dead } };

    ghost invariant = { λ a. IsRunOf (C.content (arc_value a.chunk)) (C.words_of (arc_value a.chunk)) (arc_value a.dead) a.first a.count };
}

impl<C: Chunk> Part<C> {
    /// The word of this number, if it has so many.
    pub(crate) fn word(&self, number: u32) -> Option<&[u8]>
        ensures word { option_map (λ word. word.now) result ≡ slice_get self.now.words number }
        ensures few { length self.now.words < 2 ^ 32 }
    {
        if number < self.count {
            Some(self.chunk.word_at(self.first + number))
        } else {
            None
        }
    }

    /// The number of the next word where this word was gone over: one more if it is the word of this number, and else the same.
    pub(crate) fn behind(&self, number: u32, word: &[u8]) -> u32
        ensures over { slice_get self.now.words number ≡ Some word.now → result ≡ number + 1 }
        ensures stays { slice_get self.now.words number ≢ Some word.now → result ≡ number }
    {
        match self.word(number) {
            Some(own) => { if own == word { number + 1 } else { number } }
            None => number,
        }
    }

    /// Whether a row that lives has the word.
    pub(crate) fn is_living(&self, word: &[u8]) -> bool
        ensures { result ≡ list_any (has_word word.now) (living_of self.now) }
    {
        let chunk: &C = &self.chunk;
        let dead: &Items<u32> = &self.dead;
        is_living(chunk, dead.as_slice(), word)
    }
}

/// Whether a row that isn't dead has the word, as the first one of those that have it tells.
fn is_living<C: Chunk>(chunk: &C, dead: &[u32], word: &[u8]) -> bool
    requires { AllPairs (λ row later. row < later) dead.now }
    ensures { result ≡ list_any (is_alive dead.now) (rows_with word.now (C.content chunk.now)) }
{
    match chunk.start(word) {
        Some(cursor) => is_ahead(chunk, dead, cursor),
        None => false,
    }
}

/// Whether a row that isn't dead is ahead of the cursor.
fn is_ahead<C: Chunk>(chunk: &C, dead: &[u32], cursor: Cursor) -> bool
    requires belongs { C.belongs chunk.now cursor }
    requires dead { AllPairs (λ row later. row < later) dead.now }
    ensures { result ≡ list_any (is_alive dead.now) (C.place chunk.now cursor).ahead }
{
    let mut cursor = cursor;
    'rows: while let Some(row) = chunk.row(&cursor) {
        if !is_dead(dead, row) {
            return true;
        }
        chunk.advance(&mut cursor);
    }
    false
}

/// Whether the row is one of the dead ones.
fn is_dead(dead: &[u32], row: u32) -> bool
    requires { AllPairs (λ row later. row < later) dead.now }
    ensures { result ≡ list_any (λ d. d == row) dead.now }
{
    dead.binary_search(&row).is_ok()
}

/// The words of the layers that begin so.
pub(crate) fn parts_of<C: Chunk>(
    alloc: Global,
    layers: &[Layer<C>],
    beginning: &[u8],
) -> Result<Vec<Part<C>>, NoMemory>
    ensures { IfOk result (λ parts. AllZip (IsPartOf beginning.now) layers.now parts.items) }
{
    let mut parts = Vec::with_capacity(alloc, layers.len())?;
    for layer in layers {
        let part = part_of(layer, beginning)?;
        parts.push(part)?;
    }
    Ok(parts)
}

/// The words of a layer that begin so.
fn part_of<C: Chunk>(layer: &Layer<C>, beginning: &[u8]) -> Result<Part<C>, NoMemory>
    ensures { IfOk result (IsPartOf beginning.now layer.now) }
{
    let chunk: &C = &layer.chunk;
    let (first, count) = run_of(chunk, beginning);
    Ok(Part {
        chunk: Arc::try_clone(&layer.chunk)?,
        dead: Arc::try_clone(&layer.dead)?,
        first,
        count,
    })
}

/// The number of the chunk's first word that begins so, and how many these are.
fn run_of<C: Chunk>(chunk: &C, beginning: &[u8]) -> (u32, u32)
    ensures { IsRunWith beginning.now (C.content chunk.now) (C.words_of chunk.now) result.0 result.1 }
{
    let first = front(chunk, beginning, false);
    let end = front(chunk, beginning, true);
    (first, end - first)
}

/// How many of the chunk's words stand before those that begin so, or with these too.
fn front<C: Chunk>(chunk: &C, beginning: &[u8], with: bool) -> u32
    ensures within { result ≤ length (C.words_of chunk.now) }
    ensures few { length (C.words_of chunk.now) < 2 ^ 32 }
    ensures split { (n : ℕ) (word : List ℕ) → slice_get (C.words_of chunk.now) n ≡ Some word → stands_before beginning.now with word ≡ nat_lt n result }
{
    let mut low = 0;
    let mut high = chunk.words();
    'halves: while low < high {
        let middle = low + (high - low) / 2;
        if stands_before(chunk.word_at(middle), beginning, with) {
            low = middle + 1;
        } else {
            high = middle;
        }
    }
    low
}

/// Whether the word stands before those that begin so, or is one of these where they count too.
fn stands_before(word: &[u8], beginning: &[u8], with: bool) -> bool
    ensures { result ≡ stands_before beginning.now with word.now }
{
    word.cmp(beginning).is_lt() || with && word.starts_with(beginning)
}
