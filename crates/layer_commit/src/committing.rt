//! A commit: the snapshot after a transaction.
ghost use Rattle.std.specs.Prelude.{◌≡◌, ◌<◌, ◌≤◌, ◌==◌, ◌||◌, ◌+◌, ◌^◌, ◌++◌, [], ◌∷◌, false, All, AllPairs, IfOk, IfSome, OnOk, length, map};
ghost use Rattle.std.specs.List.{filter, list_any, sum_by};
ghost use Rattle.doc_types.specs.Chunks.{IsContent};
ghost use Rattle.doc_types.specs.Documents.{word_count};
ghost use Rattle.doc_types.specs.Schemas.{IsSchema};
ghost use Rattle.doc_types.specs.Snapshots.{IsLayer, all_living};
ghost use Rattle.doc_types.specs.Transactions.{IsTxnOf};
ghost use Rattle.doc_types.specs.declared.schema.Schema.{Schema};
ghost use Rattle.layer_commit.specs.Commits.{Commits, is_kept, layers_after, layers_of, removals, row_at};
ghost use Rattle.layer_commit.specs.steps.Finding.{AreOfOne, layer_with};

use crate::dead_rows::dead_rows;
use crate::making::MakeChunk;
use crate::refusal::Refusal;
use crate::trial::{Outcome, try_all};
use commit_outcomes::{Full, FullKind};
use doc_types::{Chunk, Doc, Layer, Snapshot, Txn};
use srch_base::{Items, NoMemory, Or};
use std::alloc::Global;
use std::sync::Arc;

/// The most layers of a snapshot.
const MAX_LAYERS: usize = 65_535;

/// Whether the layer is kept: it is an image of a file, or a row of it lives.
fn is_kept<C: Chunk>(layer: &Layer<C>) -> bool
    ensures { result ≡ is_kept layer.now }
{
    layer.disk || layer.live_count() > 0
}

/// The layer after all of it, or its rows of these ids, die.
fn layer_with<C: Chunk>(
    alloc: Global,
    layer: &Layer<C>,
    cleared: bool,
    ids: &[u64],
) -> Result<Layer<C>, NoMemory>
    requires { AllPairs (λ id later. id < later) ids.now }
    ensures { IfOk result (λ after. after ≡ layer_with (λ id. cleared || list_any (λ n. n == id) ids.now) layer.now) }
{
    let dead = dead_rows(alloc, layer, cleared, ids)?;
    Ok(Layer {
        chunk: Arc::try_clone(&layer.chunk)?,
        disk: layer.disk,
        dead,
    })
}

/// Appends the layer where it is kept.
fn push_kept<C: Chunk>(layers: &mut Vec<Layer<C>>, layer: Layer<C>) -> Result<(), NoMemory>
    ensures { OnOk result (layers.new.items ≡ layers.old.items ++ filter is_kept (layer ∷ [])) }
{
    if is_kept(&layer) {
        layers.push(layer)?;
    }
    Ok(())
}

/// The layers of which some are kept after they, or their rows of these ids, die.
fn layers_with<C: Chunk>(
    alloc: Global,
    layers: &[Layer<C>],
    cleared: bool,
    ids: &[u64],
) -> Result<Vec<Layer<C>>, NoMemory>
    requires { AllPairs (λ id later. id < later) ids.now }
    ensures { IfOk result (λ after. after.items ≡ filter is_kept (map (layer_with (λ id. cleared || list_any (λ n. n == id) ids.now)) layers.now)) }
{
    let mut after = Vec::with_capacity(alloc, layers.len())?;
    for layer in layers {
        let next = layer_with(alloc, layer, cleared, ids)?;
        push_kept(&mut after, next)?;
    }
    Ok(after)
}

/// The layers after all of their rows, or those of these ids, die. Those of which no row lives any more are let go, but for images
/// of files.
pub fn kill_rows<C: Chunk>(
    alloc: Global,
    layers: &[Layer<C>],
    cleared: bool,
    ids: &[u64],
) -> Result<Vec<Layer<C>>, NoMemory>
    requires { AllPairs (λ id later. id < later) ids.now }
    ensures { IfOk result (λ after. after.items ≡ layers_after (removals cleared ids.now) [] layers.now) }
{
    let after = layers_with(alloc, layers, cleared, ids)?;
    Ok(after)
}

/// How many rows of the layers live.
pub fn live_count<C: Chunk>(layers: &[Layer<C>]) -> u64
    requires { length layers.now < 2 ^ 16 }
    ensures count { result ≡ length (all_living layers.now) }
    ensures small { result < 2 ^ 48 }
{
    let mut count = 0;
    for layer in layers {
        count += u64::from(layer.live_count());
    }
    count
}

/// So many words with those of the document, if that is below 2^32.
fn with_words(words: u32, doc: &Doc) -> Option<u32>
    ensures { IfSome result (λ sum. sum ≡ words + word_count (row_at 0 doc.now)) }
{
    let mut sum = words;
    for field in doc.fields.as_slice() {
        let more = u32::try_from(field.words.len()).ok()?;
        sum = sum.checked_add(more)?;
    }
    Some(sum)
}

/// How many words the documents have, each occurrence counted, if that is below 2^32.
fn words_in(docs: &[&Doc]) -> Option<u32>
    ensures { IfSome result (λ words. words ≡ sum_by (λ doc. word_count (row_at 0 doc.now)) docs.now) }
{
    let mut words = 0;
    for doc in docs {
        words = with_words(words, doc)?;
    }
    Some(words)
}

/// A layer in memory of documents that the commit of this number puts, unless they have too many words.
fn layer_of<C: MakeChunk>(alloc: Global, docs: &[&Doc], number: u64) -> Result<Layer<C>, NoMemory>
    requires few { length docs.now < 2 ^ 32 }
    requires of { AreOfOne (map (λ doc. row_at number doc.now) docs.now) }
    ensures layer { IfOk result (λ layer. layer ≡ record { rows = map (λ doc. row_at number doc.now) docs.now; disk = false; dead = [] }) }
    ensures is { IfOk result (λ layer. IsLayer layer) }
{
    if words_in(docs).is_none() {
        return Err(NoMemory);
    }
    let chunk = C::of_docs(alloc, docs, number)?;
    Ok(Layer {
        chunk: Arc::new(alloc, chunk)?,
        disk: false,
        dead: Arc::new(alloc, Items::new(Vec::new(alloc)))?,
    })
}

/// Adds the layer of documents that the commit of this number puts, where there are some.
fn add_docs<C: MakeChunk>(
    alloc: Global,
    layers: &mut Vec<Layer<C>>,
    docs: &[&Doc],
    number: u64,
) -> Result<(), NoMemory>
    requires few { length docs.now < 2 ^ 32 }
    requires of { AreOfOne (map (λ doc. row_at number doc.now) docs.now) }
    ensures layers { OnOk result (layers.new.items ≡ layers.old.items ++ layers_of (map (λ doc. row_at number doc.now) docs.now)) }
    ensures sound { OnOk result (All IsLayer (layers_of (map (λ doc. row_at number doc.now) docs.now))) }
{
    if docs.is_empty() {
        return Ok(());
    }
    layers.push(layer_of(alloc, docs, number)?)?;
    Ok(())
}

/// Commits a transaction: gives the snapshot after it, and says how many ids it removed. The snapshot that it is lent stays.
///
/// `limit` is the most documents that may be there after it. Want of memory is also the answer where a bound is reached: 2^32
/// words in one transaction, 2^16 layers, or the last number of a commit.
pub fn commit<C: MakeChunk>(
    alloc: Global,
    snapshot: &Snapshot<C>,
    txn: &Txn,
    limit: u64,
) -> Result<(Snapshot<C>, u32), Or<Refusal>>
    requires of { (schema : Schema) × IsSchema schema × IsTxnOf schema txn.now }
    requires few { limit < 2 ^ 32 }
    ensures { Commits limit txn.now.ops snapshot.now result }
{
    let number = snapshot.number.checked_add(1).ok_or(NoMemory)?;
    let layers = snapshot.layers.as_slice();
    let outcome = try_all(alloc, layers, txn.ops.as_slice())?;
    let mut layers = layers_with(alloc, layers, outcome.cleared, outcome.ids.as_slice())?;
    let at = u64::from(snapshot.live_count());
    let after = live_count(layers.as_slice()) + outcome.docs.len() as u64;
    if after > limit {
        let need = after.saturating_sub(at);
        let what = FullKind::Documents;
        return Err(Or::Fault(Refusal::Full(Full { what, at, need })));
    }
    add_docs(alloc, &mut layers, outcome.docs.as_slice(), number)?;
    if layers.len() > MAX_LAYERS {
        return Err(NoMemory.into());
    }
    let layers = Items::new(layers);
    let next = Snapshot {
        number,
        shape: snapshot.shape,
        layers,
    };
    Ok((next, outcome.removed))
}
