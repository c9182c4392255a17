//! The rows of layers of plain chunks, copied and put in order.
ghost use Rattle.std.specs.Prelude.{◌≡◌, ◌+◌, ◌<◌, ◌^◌, ◌++◌, ◌∷◌, [], if◌then◌else◌, IfOk, IfSome, IsTrue, OnOk, length, slice_index_or};
ghost use Rattle.std.specs.List.{sum_by};
ghost use Rattle.doc_types.specs.Documents.{word_count};
ghost use Rattle.doc_types.specs.Snapshots.{all_living, is_dead, living};
ghost use Rattle.doc_types.specs.declared.documents.DocRow.{DocRow};
ghost use Rattle.layer_joins.specs.Joins.{AreApart, AreOfOne, AreSorted};

use doc_types::{Chunk, DocRow, Layer, PlainChunk};
use layer_commit::is_dead;
use srch_base::NoMemory;
use std::alloc::Global;

/// Copies of the rows of the layers that live, by ascending id, unless there are too many of them or of their words.
pub(crate) fn sorted_copies(
    alloc: Global,
    layers: &[Layer<PlainChunk>],
) -> Result<Vec<DocRow>, NoMemory>
    requires of { AreOfOne (all_living layers.now) }
    requires apart { AreApart (all_living layers.now) }
    ensures { IfOk result (λ rows. AreSorted (all_living layers.now) rows.items) }
{
    let rows = copies_of(alloc, layers)?;
    sorted(rows)
}

/// Appends a copy of the row of this number, unless it is dead.
fn push_living(
    layer: &Layer<PlainChunk>,
    number: u32,
    rows: &mut Vec<DocRow>,
) -> Result<(), NoMemory>
    requires { number < length layer.now.rows }
    ensures { OnOk result ((row : DocRow) → row ≡ slice_index_or layer.now.rows number row → rows.new.items ≡ rows.old.items ++ (if is_dead layer.now number then [] else row ∷ [])) }
{
    if is_dead(layer.dead.as_slice(), number) {
        return Ok(());
    }
    rows.push(copy_of(layer.chunk.as_rows(), number as usize)?)?;
    Ok(())
}

/// How many rows the layer has.
fn row_count(layer: &Layer<PlainChunk>) -> u32
    ensures { result ≡ length layer.now.rows }
{
    layer.chunk.rows()
}

/// Appends copies of the rows of the layer that live.
fn push_rows(layer: &Layer<PlainChunk>, rows: &mut Vec<DocRow>) -> Result<(), NoMemory>
    ensures { OnOk result (rows.new.items ≡ rows.old.items ++ living layer.now) }
{
    let count = row_count(layer);
    for number in 0..count {
        push_living(layer, number, rows)?;
    }
    Ok(())
}

/// Copies of the rows of the layers that live.
fn copies_of(alloc: Global, layers: &[Layer<PlainChunk>]) -> Result<Vec<DocRow>, NoMemory>
    ensures { IfOk result (λ rows. rows.items ≡ all_living layers.now) }
{
    let mut rows = Vec::new(alloc);
    for layer in layers {
        push_rows(layer, &mut rows)?;
    }
    Ok(rows)
}

/// A copy of the row at this place.
fn copy_of(rows: &[DocRow], place: usize) -> Result<DocRow, NoMemory>
    requires { place < length rows.now }
    ensures { IfOk result (λ copy. copy ≡ slice_index_or rows.now place copy) }
{
    Ok(rows[place].clone()?)
}

/// So many words with those of the row, if that is below 2^32.
fn with_words(words: u32, row: &DocRow) -> Option<u32>
    ensures { IfSome result (λ sum. sum ≡ words + word_count row.now) }
{
    let mut sum = words;
    for field in row.doc.fields.as_slice() {
        let more = u32::try_from(field.words.len()).ok()?;
        sum = sum.checked_add(more)?;
    }
    Some(sum)
}

/// How many words the rows have, each occurrence counted, if that is below 2^32.
fn words_in(rows: &[DocRow]) -> Option<u32>
    ensures { IfSome result (λ words. words ≡ sum_by word_count rows.now) }
{
    let mut words = 0;
    for row in rows {
        words = with_words(words, row)?;
    }
    Some(words)
}

/// The words of the rows can be counted in 32 bits.
fn has_few_words(rows: &[DocRow]) -> bool
    ensures { IsTrue result → sum_by word_count rows.now < 2 ^ 32 }
{
    words_in(rows).is_some()
}

/// The rows by ascending id, unless there are too many of them or of their words.
fn sorted(mut rows: Vec<DocRow>) -> Result<Vec<DocRow>, NoMemory>
    requires of { AreOfOne rows.items }
    requires apart { AreApart rows.items }
    ensures { IfOk result (λ sorted. AreSorted rows.items sorted.items) }
{
    if rows.len() > u32::MAX as usize {
        return Err(NoMemory);
    }
    rows.sort_unstable_by_key(|row| row.doc.id);
    if !has_few_words(rows.as_slice()) {
        return Err(NoMemory);
    }
    Ok(rows)
}
