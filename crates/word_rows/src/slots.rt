//! The keywords of a query over a chunk: each with a cursor over the rows that have its word, and with its places in the row at
//! hand. Rows are visited ascending, so each cursor goes over its rows once.
ghost use Rattle.std.specs.Prelude.{◌≡◌, ℕ, ◌<◌, ◌==◌, true, false, map, length, All, IfOk, OnOk, IfSome, slice_get, slice_index_or, unwrap_or};
ghost use Rattle.std.specs.List.{AllZip, list_any, position};
ghost use Rattle.std.specs.Str.{bytes_eq};
ghost use Rattle.doc_types.specs.declared.documents.DocRow.{DocRow};
ghost use Rattle.query_tree.specs.TreeKeys.{node_keys};
ghost use Rattle.word_rows.specs.Keywords.{has_field, first_uses};
ghost use Rattle.word_rows.specs.Terms.{AreSeenIn};
ghost use Rattle.word_rows.specs.steps.Cursors.{with_word, HasPassed, IsMadeFor, IsUnlimited, Passes, is_next};
ghost use Rattle.word_rows.specs.Slots.{AreAt, AreSlots, Stands, keys_of, number_among, words_of, next_of};

use doc_types::{Chunk, Cursor, MAX_POSITION};
use occ_lists::Term;
use query_tree::{Key, Node, put_keys};
use srch_base::NoMemory;
use std::alloc::Global;

/// The keywords of a query, in the order of its text.
#[derive(Drop)]
pub struct Slots<'q> {
    pub keys: Vec<&'q Key>,
    /// For each keyword a cursor over the rows that have its word, where some have.
    pub cursors: Vec<Option<Cursor>>,
    /// For each keyword what is known of it in the row at hand.
    pub terms: Vec<Term>,
    /// The positions of the last words of the fields of the row at hand, where a keyword asks for them.
    pub lasts: Vec<u32>,
}

impl<'q> Slots<'q> {
    /// The keywords of the node, each before all rows that have its word.
    pub fn over<C: Chunk>(alloc: Global, node: &'q Node, chunk: &C) -> Result<Slots<'q>, NoMemory>
        ensures keys { IfOk result (λ slots. keys_of slots ≡ node_keys node.now) }
        ensures slots { IfOk result (λ slots. AreSlots (C.belongs chunk.now) (C.place chunk.now) (C.content chunk.now) 0 slots) }
        ensures absent { IfOk result (λ slots. All (λ term. term.present ≡ false) slots.terms.items) }
    {
        let mut keys = Vec::new(alloc);
        put_keys(node, &mut keys)?;
        let cursors = cursors_of(alloc, &keys, chunk)?;
        let terms = terms_of(alloc, &keys, chunk.fields())?;
        Ok(Slots {
            keys,
            cursors,
            terms,
            lasts: Vec::new(alloc),
        })
    }

    /// Goes to the row: each term knows afterwards whether the row has its word.
    pub fn seek<C: Chunk>(&mut self, chunk: &C, row: u32)
        requires { AreSlots (C.belongs chunk.now) (C.place chunk.now) (C.content chunk.now) row self.old }
        ensures keys { self.new.keys ≡ self.old.keys }
        ensures slots { AreSlots (C.belongs chunk.now) (C.place chunk.now) (C.content chunk.now) row self.new }
        ensures at { AreAt (C.place chunk.now) (C.content chunk.now) row self.new }
        ensures seen { (found : DocRow) → slice_get (C.content chunk.now) row ≡ Some found → AreSeenIn found (keys_of self.new) self.new.terms.items }
    {
        self.pass(chunk, row);
        mark_all(chunk, &self.cursors, row, &mut self.terms);
    }

    /// Takes each cursor over the rows before this one.
    fn pass<C: Chunk>(&mut self, chunk: &C, row: u32)
        requires { AreSlots (C.belongs chunk.now) (C.place chunk.now) (C.content chunk.now) row self.old }
        ensures keys { self.new.keys ≡ self.old.keys }
        ensures terms { self.new.terms ≡ self.old.terms }
        ensures slots { AreSlots (C.belongs chunk.now) (C.place chunk.now) (C.content chunk.now) row self.new }
        ensures at { AreAt (C.place chunk.now) (C.content chunk.now) row self.new }
    {
        pass_all(chunk, &mut self.cursors, row);
    }
}

/// A cursor for each keyword, before all rows that have its word.
fn cursors_of<C: Chunk>(
    alloc: Global,
    keys: &[&Key],
    chunk: &C,
) -> Result<Vec<Option<Cursor>>, NoMemory>
    ensures { IfOk result (λ cursors. AllZip (Stands (C.belongs chunk.now) (C.place chunk.now) (C.content chunk.now) 0) (map (λ key. key.now.word) keys.now) cursors.items) }
{
    let mut cursors = Vec::new(alloc);
    for key in keys {
        cursors.push(chunk.start(key.word.as_bytes()))?;
    }
    Ok(cursors)
}

/// Takes each cursor over the rows before this one.
fn pass_all<C: Chunk>(chunk: &C, cursors: &mut [Option<Cursor>], row: u32)
    requires { All (λ cursor. IfSome cursor (C.belongs chunk.now)) cursors.old }
    ensures { AllZip (Passes (C.belongs chunk.now) (C.place chunk.now) row) cursors.old cursors.new }
{
    for at in 0..cursors.len() {
        cursors[at] = passed(chunk, cursors[at], row);
    }
}

/// The cursor after the rows before this one, where there is one.
fn passed<C: Chunk>(chunk: &C, cursor: Option<Cursor>, row: u32) -> Option<Cursor>
    requires { IfSome cursor (C.belongs chunk.now) }
    ensures { Passes (C.belongs chunk.now) (C.place chunk.now) row cursor result }
{
    Some(gone_over(chunk, cursor?, row))
}

/// The cursor after the rows before this one.
fn gone_over<C: Chunk>(chunk: &C, cursor: Cursor, row: u32) -> Cursor
    requires { C.belongs chunk.now cursor }
    ensures { HasPassed (C.belongs chunk.now) (C.place chunk.now) row cursor result }
{
    let mut here = cursor;
    chunk.seek(&mut here, row);
    here
}

/// The row that comes next, if one is left.
fn next_of<C: Chunk>(chunk: &C, cursor: Option<Cursor>) -> Option<u32>
    requires { IfSome cursor (C.belongs chunk.now) }
    ensures { result ≡ next_of (C.place chunk.now) cursor }
{
    chunk.row(&cursor?)
}

/// Tells each term whether this row is the next of its cursor.
fn mark_all<C: Chunk>(chunk: &C, cursors: &[Option<Cursor>], row: u32, terms: &mut [Term])
    requires cursors { All (λ cursor. IfSome cursor (C.belongs chunk.now)) cursors.now }
    requires long { length cursors.now ≡ length terms.old }
    ensures long { length terms.new ≡ length terms.old }
    ensures each { (k : ℕ) → k < length terms.old → (d : _) → slice_index_or terms.new k d ≡ record (slice_index_or terms.old k d) { present = is_next (C.place chunk.now) row (slice_index_or cursors.now k None) } }
{
    for at in 0..terms.len() {
        terms[at].present = is_next(chunk, cursors[at], row);
    }
}

/// Whether this row is the next of the cursor.
fn is_next<C: Chunk>(chunk: &C, cursor: Option<Cursor>, row: u32) -> bool
    requires { IfSome cursor (C.belongs chunk.now) }
    ensures { result ≡ is_next (C.place chunk.now) row cursor }
{
    match next_of(chunk, cursor) {
        Some(next) => next == row,
        None => false,
    }
}

/// A term for each keyword, before it is known what a row has.
fn terms_of(alloc: Global, keys: &[&Key], fields: u16) -> Result<Vec<Term>, NoMemory>
    ensures made { IfOk result (λ terms. AllZip (IsMadeFor (number_among (map (λ key. key.now) keys.now)) fields) (map (λ key. key.now) keys.now) terms.items) }
    ensures absent { IfOk result (λ terms. All (λ term. term.present ≡ false) terms.items) }
{
    let words = distinct(alloc, keys)?;
    let mut terms = Vec::new(alloc);
    for key in keys {
        terms.push(term_of(alloc, key, &words, fields))?;
    }
    Ok(terms)
}

/// The keyword's term, before it is known what a row has.
fn term_of(alloc: Global, key: &Key, words: &[&[u8]], fields: u16) -> Term
    ensures query { result.query ≡ key.now.query }
    ensures word { result.word ≡ unwrap_or (position (λ seen. bytes_eq key.now.word seen.now) words.now) 0 }
    ensures free { result.free ≡ true → IsUnlimited key.now fields }
    ensures absent { result.present ≡ false }
{
    Term {
        query: key.query,
        word: number(words, key.word.as_bytes()),
        free: is_free(key, fields),
        present: false,
        places: Vec::new(alloc),
    }
}

/// The words of the keywords, each once, in the order of first use.
fn distinct<'q>(alloc: Global, keys: &[&'q Key]) -> Result<Vec<&'q [u8]>, NoMemory>
    ensures { IfOk result (λ words. map (λ word. word.now) words.items ≡ first_uses (map (λ key. key.word) (map (λ key. key.now) keys.now))) }
{
    let mut words = Vec::new(alloc);
    for key in keys {
        add(&mut words, key.word.as_bytes())?;
    }
    Ok(words)
}

/// Adds the word, if it isn't there.
fn add<'q>(words: &mut Vec<&'q [u8]>, word: &'q [u8]) -> Result<(), NoMemory>
    ensures { OnOk result (map (λ seen. seen.now) words.new.items ≡ with_word (map (λ seen. seen.now) words.old.items) word.now) }
{
    if !is_among(words, word) {
        words.push(word)?;
    }
    Ok(())
}

/// Whether the word is one of these.
fn is_among(words: &[&[u8]], word: &[u8]) -> bool
    ensures { result ≡ list_any (λ seen. bytes_eq seen.now word.now) words.now }
{
    words.iter().any(|seen| *seen == word)
}

/// The number of the word among these, from 0.
fn number(words: &[&[u8]], word: &[u8]) -> usize
    ensures { result ≡ unwrap_or (position (λ seen. bytes_eq word.now seen.now) words.now) 0 }
{
    words.iter().position(|seen| word == *seen).unwrap_or(0)
}

/// Whether its limits and marks allow the keyword each place of a row with so many fields.
fn is_free(key: &Key, fields: u16) -> bool
    ensures { result ≡ true → IsUnlimited key.now fields }
{
    let zoned = !key.limit.zones.is_empty();
    if key.start || key.end || zoned || key.limit.positions < MAX_POSITION {
        return false;
    }
    (0..fields).all(|field| has_field(key.limit.fields, field))
}

/// Whether the field's bit is set.
pub(crate) fn has_field(fields: u32, field: u16) -> bool
    ensures { result ≡ has_field fields field }
{
    field < 32 && fields >> field & 1 == 1
}
