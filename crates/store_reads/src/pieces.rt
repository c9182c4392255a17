//! Pieces of a log: records that become one layer. What a piece comes to doesn't depend on the records before it, so two of them are
//! read and indexed at once, one of them in a thread of its own.
ghost use Rattle.std.specs.Prelude.{◌≡◌, ◌<◌, ◌≤◌, ◌+◌, ℕ, IfOk, IfSome, length, take};
ghost use Rattle.std.specs.BTreeMap.{IsOrdered};
ghost use Rattle.std.specs.List.{sum_by};
ghost use Rattle.std.specs.List.Sorted.{IsStrictlySortedBy};
ghost use Rattle.std.specs.Map.{values_of};
ghost use Rattle.std.specs.Ordering.{nat_cmp};
ghost use Rattle.doc_types.specs.Chunks.{IsContent};
ghost use Rattle.doc_types.specs.Documents.{word_count};
ghost use Rattle.doc_types.specs.Schemas.{IsSchema};
ghost use Rattle.doc_types.specs.declared.schema.Schema.{Schema as AnySchema};
ghost use Rattle.store_reads.specs.steps.Pieces.{AreShort, IsMade, MakesPiece};
ghost use Rattle.store_reads.specs.steps.Recents.{AreRowsAt};

use crate::fault::StoreFault;
use crate::reading::{Source, read_piece};
use crate::recent::Recent;
use doc_types::DocRow;
use gate_log::RecordAt;
use image_chunk::AnyChunk;
use srch_base::NoMemory;
use std::alloc::Global;
use std::collections::{BTreeMap, BTreeSet};
use std::thread::{Threads, join};

/// The most documents that come from logs.
pub(crate) const MOST_ROWS: usize = 1 << 31;

/// The most words in those of one layer, each occurrence counted.
const MOST_WORDS: u32 = 1 << 31;

/// What the records of a piece come to.
#[derive(Drop)]
pub(crate) struct Piece {
    /// All rows of the layers before are gone.
    pub(crate) cleared: bool,
    /// The ids whose rows there are gone, ascending.
    pub(crate) named: Vec<u64>,
    /// The rows that were put and not killed.
    pub(crate) chunk: AnyChunk,
}

/// How many of the records make a piece: those up to the first one with which they have more bytes than these, or all.
pub(crate) fn piece_size(records: &[RecordAt<'_>], bytes: usize) -> usize
    ensures some { 0 < length records.now → 0 < result }
    ensures within { result ≤ length records.now }
    ensures over { result < length records.now → bytes < sum_by (λ entry. length entry.payload.now) (take result records.now) }
{
    let mut sum: usize = 0;
    for (number, record) in records.iter().enumerate() {
        sum = sum.saturating_add(record.payload.len());
        if sum > bytes {
            return number + 1;
        }
    }
    records.len()
}

/// Reads and indexes the records of two pieces at once.
pub(crate) fn read_both<R: Threads>(
    rt: &R,
    alloc: Global,
    source: Source<'_>,
    first: &[RecordAt<'_>],
    second: &[RecordAt<'_>],
) -> (Result<Piece, StoreFault>, Result<Piece, StoreFault>)
    requires limits { IsSchema source.schema.now }
    requires first { AreShort first.now }
    requires second { AreShort second.now }
    ensures first { MakesPiece source.entry.schema.now source.entry.through source.entry.file first.now result.0 }
    ensures second { MakesPiece source.entry.schema.now source.entry.through source.entry.file second.now result.1 }
{
    if second.is_empty() {
        return (
            piece_of(alloc, source, first),
            piece_of(alloc, source, second),
        );
    }
    let beside = move || -> Result<Piece, StoreFault>
        requires { IsSchema source.schema.now × AreShort second.now }
        ensures { MakesPiece source.entry.schema.now source.entry.through source.entry.file second.entry.now result }
    { piece_of(alloc, source, second) };
    let here = move || -> Result<Piece, StoreFault>
        requires { IsSchema source.schema.now × AreShort first.now }
        ensures { MakesPiece source.entry.schema.now source.entry.through source.entry.file first.entry.now result }
    { piece_of(alloc, source, first) };
    let (second, first) = join(rt, beside, here);
    (first, second)
}

/// Reads and indexes the records of a piece.
fn piece_of(
    alloc: Global,
    source: Source<'_>,
    records: &[RecordAt<'_>],
) -> Result<Piece, StoreFault>
    requires limits { IsSchema source.schema.now }
    requires short { AreShort records.now }
    ensures { MakesPiece source.entry.schema.now source.entry.through source.entry.file records.now result }
{
    match read_piece(alloc, source, records) {
        Ok(recent) => match index(alloc, recent) {
            Ok(piece) => Ok(piece),
            Err(NoMemory) => Err(StoreFault::NoMemory),
        },
        Err(fault) => Err(fault),
    }
}

/// Indexes what was read of a piece.
fn index(alloc: Global, recent: Recent) -> Result<Piece, NoMemory>
    requires { (schema : AnySchema) × IsSchema schema × ((through : ℕ) × AreRowsAt schema through recent.rows) }
    ensures { IfOk result (λ piece. IsMade recent piece) }
{
    let Recent {
        cleared,
        named,
        rows,
    } = recent;
    let named = ids_in(alloc, named)?;
    let rows = content_of(alloc, rows)?;
    let chunk = AnyChunk::build(alloc, rows)?;
    Ok(Piece {
        cleared,
        named,
        chunk,
    })
}

/// The ids of a set, ascending.
fn ids_in(alloc: Global, ids: BTreeSet<u64>) -> Result<Vec<u64>, NoMemory>
    ensures ids { IfOk result (λ list. list.items ≡ ids.keys) }
    ensures ordered { IsStrictlySortedBy nat_cmp ids.keys }
{
    Ok(ids.into_iter().collect(alloc)?)
}

/// The rows of a map, by ascending id, unless they have too many words for a chunk.
fn content_of(alloc: Global, rows: BTreeMap<u64, DocRow>) -> Result<Vec<DocRow>, NoMemory>
    requires { (schema : AnySchema) × IsSchema schema × ((through : ℕ) × AreRowsAt schema through rows) }
    ensures rows { IfOk result (λ list. list.items ≡ values_of rows.entries) }
    ensures content { IfOk result (λ list. IsContent list.items) }
    ensures ordered { IsOrdered nat_cmp rows }
{
    let list = rows_in(alloc, rows)?;
    if list.len() >= MOST_ROWS {
        return Err(NoMemory);
    }
    let Some(words) = words_in(list.as_slice()) else {
        return Err(NoMemory);
    };
    if words >= MOST_WORDS {
        return Err(NoMemory);
    }
    Ok(list)
}

/// The rows of a map, by ascending id.
fn rows_in(alloc: Global, rows: BTreeMap<u64, DocRow>) -> Result<Vec<DocRow>, NoMemory>
    ensures rows { IfOk result (λ list. list.items ≡ values_of rows.entries) }
    ensures ordered { IsOrdered nat_cmp rows }
{
    // What is known of a map's order is known where its length is.
    let _count = rows.len();
    Ok(rows.into_values().collect(alloc)?)
}

/// How many words the rows have, each occurrence counted, if that is below 2^32.
fn words_in(rows: &[DocRow]) -> Option<u32>
    ensures { IfSome result (λ words. words ≡ sum_by word_count rows.now) }
{
    let mut words = 0;
    for row in rows {
        words = with_words(words, row)?;
    }
    Some(words)
}

/// So many words with those of the row, if that is below 2^32.
fn with_words(words: u32, row: &DocRow) -> Option<u32>
    ensures { IfSome result (λ sum. sum ≡ words + word_count row.now) }
{
    let mut sum = words;
    for field in row.doc.fields.as_slice() {
        let more = u32::try_from(field.words.len()).ok()?;
        sum = sum.checked_add(more)?;
    }
    Some(sum)
}
