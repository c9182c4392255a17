//! The keywords of a query, and how many documents have each: what SHOW META tells ("SHOW META syntax" of the manual).
//!
//! A chunk tells how many rows have a word. Where rows of it are dead, one walk of a cursor counts those that live. No list of
//! places is opened.
ghost use Rattle.std.specs.Prelude.{◌≡◌, ◌+◌, ◌<◌, ◌==◌, AllPairs, map, IfOk, OnOk, if◌then◌else◌};
ghost use Rattle.std.specs.List.{count_by, list_any};
ghost use Rattle.doc_types.specs.Snapshots.{all_living, living};
ghost use Rattle.query_tree.specs.TreeKeys.{query_keys};
ghost use Rattle.table_search.specs.Keywords.{are_one, counted, docs_taking, first_keys, shown_key, word_docs};
ghost use Rattle.table_search.specs.steps.Counting.{docs_with, lent, lives_among, with_key};

use crate::prefix_docs::docs_beginning;
use doc_types::{Chunk, Cursor, Layer, Snapshot};
use query_tree::{Key, Query, put_keys};
use srch_base::{Items, NoMemory, Word};
use std::alloc::Global;

/// A keyword of a query, and how many documents have it.
#[derive(Drop)]
pub struct WordDocs {
    /// The word; of a prefix, as `wor*`.
    pub word: Word,
    pub docs: u64,
}

/// The keywords of a query, those under NOT too, each once and in the order of first use, with the number of documents that have
/// each. A prefix is had where a word begins so.
pub fn word_docs<C: Chunk>(
    alloc: Global,
    query: &Query,
    snapshot: &Snapshot<C>,
) -> Result<Items<WordDocs>, NoMemory>
    ensures { IfOk result (λ counts. counts ≡ word_docs query.now (all_living snapshot.now.layers)) }
{
    let all = keys_of(alloc, query)?;
    let keys = first_keys(alloc, &all)?;
    count_keys(alloc, &keys, snapshot)
}

/// The keywords of the query.
fn keys_of(alloc: Global, query: &Query) -> Result<Vec<&Key>, NoMemory>
    ensures { IfOk result (λ keys. lent keys.items ≡ query_keys query.now) }
{
    let mut keys = Vec::new(alloc);
    match &query.root {
        Some(root) => put_keys(root, &mut keys)?,
        None => {}
    }
    Ok(keys)
}

/// Each of these once.
fn first_keys<'q>(alloc: Global, all: &[&'q Key]) -> Result<Vec<&'q Key>, NoMemory>
    ensures { IfOk result (λ keys. lent keys.items ≡ first_keys (lent all.now)) }
{
    let mut keys = Vec::new(alloc);
    for key in all {
        put_first(key, &mut keys)?;
    }
    Ok(keys)
}

/// Adds a keyword, if it isn't there.
fn put_first<'q>(key: &'q Key, keys: &mut Vec<&'q Key>) -> Result<(), NoMemory>
    ensures { OnOk result (lent keys.new.items ≡ with_key (lent keys.old.items) key.now) }
{
    if !is_among(keys, key) {
        keys.push(key)?;
    }
    Ok(())
}

/// Whether the keyword is one of these.
fn is_among(keys: &[&Key], key: &Key) -> bool
    ensures { result ≡ list_any (λ seen. are_one seen.now key.now) keys.now }
{
    keys.iter().any(|seen| are_one(seen, key))
}

/// Whether both are the same word, or the same prefix.
fn are_one(key: &Key, other: &Key) -> bool
    ensures { result ≡ are_one key.now other.now }
{
    let same = key.word.as_bytes() == other.word.as_bytes();
    if key.prefix {
        same && other.prefix
    } else {
        same && !other.prefix
    }
}

/// The number of documents of each keyword.
fn count_keys<C: Chunk>(
    alloc: Global,
    keys: &[&Key],
    snapshot: &Snapshot<C>,
) -> Result<Items<WordDocs>, NoMemory>
    ensures { IfOk result (λ counts. counts ≡ map (counted (all_living snapshot.now.layers)) (lent keys.now)) }
{
    let mut counts = Vec::with_capacity(alloc, keys.len())?;
    'keys: for key in keys {
        let count = count_key(alloc, key, snapshot)?;
        counts.push(count)?;
    }
    Ok(Items::new(counts))
}

/// The number of documents of a keyword.
fn count_key<C: Chunk>(
    alloc: Global,
    key: &Key,
    snapshot: &Snapshot<C>,
) -> Result<WordDocs, NoMemory>
    ensures { IfOk result (λ count. count ≡ counted (all_living snapshot.now.layers) key.now) }
{
    let word = shown_key(alloc, key)?;
    let docs = docs_taking(alloc, key, snapshot)?;
    Ok(WordDocs { word, docs })
}

/// The keyword as it is shown.
fn shown_key(alloc: Global, key: &Key) -> Result<Word, NoMemory>
    ensures { IfOk result (λ word. word ≡ shown_key key.now) }
{
    if !key.prefix {
        let word = Word::from_slice(alloc, key.word.as_bytes())?;
        return Ok(word);
    }
    let mut name = Vec::new(alloc);
    name.extend_from_slice(key.word.as_bytes())?;
    name.push(b'*')?;
    Ok(Word::new(name))
}

/// How many documents have a word that the keyword takes.
fn docs_taking<C: Chunk>(alloc: Global, key: &Key, snapshot: &Snapshot<C>) -> Result<u64, NoMemory>
    ensures { IfOk result (λ docs. docs ≡ docs_taking key.now (all_living snapshot.now.layers)) }
{
    if key.prefix {
        docs_beginning(alloc, key.word.as_bytes(), snapshot)
    } else {
        docs_with(key.word.as_bytes(), snapshot.layers.as_slice())
    }
}

/// How many documents of the layers have the word.
fn docs_with<C: Chunk>(word: &[u8], layers: &[Layer<C>]) -> Result<u64, NoMemory>
    ensures { IfOk result (λ docs. docs ≡ docs_with word.now (all_living layers.now)) }
{
    let mut docs = 0;
    for layer in layers {
        docs = add_layer(word, layer, docs)?;
    }
    Ok(docs)
}

/// As many documents, and those of a layer that have the word.
fn add_layer<C: Chunk>(word: &[u8], layer: &Layer<C>, docs: u64) -> Result<u64, NoMemory>
    ensures { IfOk result (λ more. more ≡ docs + docs_with word.now (living layer.now)) }
{
    let chunk: &C = &layer.chunk;
    let dead = layer.dead.as_slice();
    if dead.is_empty() {
        return more(docs, chunk.count(word));
    }
    match chunk.start(word) {
        Some(cursor) => add_rows(chunk, cursor, dead, docs),
        None => Ok(docs),
    }
}

/// As many documents, and the rows ahead of a cursor that aren't dead.
fn add_rows<C: Chunk>(chunk: &C, cursor: Cursor, dead: &[u32], docs: u64) -> Result<u64, NoMemory>
    requires belongs { C.belongs chunk.now cursor }
    requires dead { AllPairs (λ row later. row < later) dead.now }
    ensures { IfOk result (λ more. more ≡ docs + count_by (lives_among dead.now) (C.place chunk.now cursor).ahead) }
{
    let mut here = cursor;
    let mut count = docs;
    while let Some(row) = chunk.row(&here) {
        count = add_row(dead, row, count)?;
        chunk.advance(&mut here);
    }
    Ok(count)
}

/// So many documents more.
fn more(docs: u64, rows: u32) -> Result<u64, NoMemory>
    ensures { IfOk result (λ more. more ≡ docs + rows) }
{
    docs.checked_add(rows as u64).ok_or(NoMemory)
}

/// As many documents, and one more where the row isn't dead.
pub(crate) fn add_row(dead: &[u32], row: u32, docs: u64) -> Result<u64, NoMemory>
    requires { AllPairs (λ row later. row < later) dead.now }
    ensures { IfOk result (λ more. more ≡ docs + (if lives_among dead.now row then 1 else 0)) }
{
    if is_dead(dead, row) {
        return Ok(docs);
    }
    docs.checked_add(1).ok_or(NoMemory)
}

/// Whether the row is one of these.
fn is_dead(dead: &[u32], row: u32) -> bool
    requires { AllPairs (λ row later. row < later) dead.now }
    ensures { result ≡ list_any (λ d. d == row) dead.now }
{
    dead.binary_search(&row).is_ok()
}
