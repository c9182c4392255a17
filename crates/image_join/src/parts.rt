//! The chunks that are put together. Contracts see one as its rows and words, without its kind.
ghost use Rattle.std.specs.Prelude.{◌≡◌, ◌<◌, ◌^◌, ℕ, List, Some, length, map, All, slice_get, slice_index_or, IfOk};
ghost use Rattle.std.specs.List.{flat_map};
ghost use Rattle.std.specs.Option.{option_map};
ghost use Rattle.doc_types.specs.Chunks.{AreWordsOf, rows_with};
ghost use Rattle.doc_types.specs.Snapshots.{all_living, living};
ghost use Rattle.chunk_image.specs.ChunkImage.{word_postings};
ghost use Rattle.chunk_image.specs.Marks.{row_marks};
ghost use Rattle.image_write.specs.Heads.{IsRead, head};
ghost use Rattle.image_join.specs.steps.Parts.{AreLaid, all_rows, living_of, row_at};

use crate::copying::CopyBytes;
use doc_types::{Chunk, Layer, Value};
use srch_base::{Items, NoMemory};
use std::alloc::Global;
use std::marker::Model;
use std::sync::Arc;

/// A chunk that takes part, with its dead rows, and how many rows stand before its first one.
#[derive(Drop)]
pub(crate) struct Part<C: CopyBytes> {
    pub(crate) chunk: Arc<C, Global>,
    pub(crate) dead: Arc<Items<u32>, Global>,
    pub(crate) first: u32,
}

impl<C: CopyBytes> Model for Part<C> {
    ghost use Rattle.std.specs.Arc.{arc_value};
    ghost use Rattle.image_join.specs.steps.Parts.{PartValue, IsPart};

    ghost Value = { PartValue };

    ghost view = { λ a. record { rows = C.content (arc_value a.chunk); words = C.words_of (arc_value a.chunk); dead = arc_value a.dead; first = a.first } };

    ghost invariant = { λ a. IsPart (record { rows = C.content (arc_value a.chunk); words = C.words_of (arc_value a.chunk); dead = arc_value a.dead; first = a.first }) };
}

impl<C: CopyBytes> Part<C> {
    /// How many rows it has.
    pub(crate) fn rows(&self) -> u32
        ensures { result ≡ length self.now.rows }
    {
        self.chunk.rows()
    }

    /// How many rows stand before its first one.
    #[inline]
    pub(crate) fn first(&self) -> u32
        ensures { result ≡ self.now.first }
    {
        self.first
    }

    /// The row's id.
    pub(crate) fn id(&self, row: u32) -> u64
        requires { row < length self.now.rows }
        ensures { result ≡ (row_at self.now row).doc.id }
    {
        self.chunk.id(row)
    }

    /// The number of the commit that put the row.
    pub(crate) fn born(&self, row: u32) -> u64
        requires { row < length self.now.rows }
        ensures { result ≡ (row_at self.now row).born }
    {
        self.chunk.born(row)
    }

    /// The row's value of an attribute.
    pub(crate) fn value(&self, row: u32, attr: u16) -> Value
        requires row { row < length self.now.rows }
        requires attr { attr < length (row_at self.now row).doc.values }
        ensures { result ≡ slice_index_or (row_at self.now row).doc.values attr result }
    {
        self.chunk.value(row, attr)
    }

    /// The bytes of the row's marks.
    pub(crate) fn marks(&self, row: u32) -> &[u8]
        requires { row < length self.now.rows }
        ensures { result.now ≡ row_marks (row_at self.now row) }
    {
        self.chunk.marks_of(row)
    }

    /// How many fields each row has.
    pub(crate) fn fields(&self) -> u16
        ensures { All (λ row. length row.doc.fields ≡ result) self.now.rows }
    {
        self.chunk.fields()
    }

    /// How many attributes each row has.
    pub(crate) fn attrs(&self) -> u16
        ensures { All (λ row. length row.doc.values ≡ result) self.now.rows }
    {
        self.chunk.attrs()
    }

    /// How many bytes its image takes.
    pub(crate) fn size(&self) -> usize {
        self.chunk.size()
    }

    /// How many words it has.
    #[inline]
    pub(crate) fn words(&self) -> u32
        ensures count { result ≡ length self.now.words }
        ensures are { AreWordsOf self.now.rows self.now.words }
    {
        self.chunk.words()
    }

    /// The word of this number, if it has so many.
    #[inline]
    pub(crate) fn word(&self, n: u32) -> Option<&[u8]>
        ensures word { option_map (λ word. word.now) result ≡ slice_get self.now.words n }
        ensures are { AreWordsOf self.now.rows self.now.words }
        ensures few { length self.now.words < 2 ^ 32 }
    {
        if n < self.chunk.words() {
            Some(self.chunk.word_at(n))
        } else {
            None
        }
    }

    /// The word of this number.
    #[inline]
    pub(crate) fn word_at(&self, n: u32) -> &[u8]
        requires { n < length self.now.words }
        ensures { slice_get self.now.words n ≡ Some result.now }
    {
        self.chunk.word_at(n)
    }

    /// The head of the word of this number, by which it is put in order before it is looked at itself.
    #[inline]
    pub(crate) fn head(&self, n: u32) -> u64
        requires { n < length self.now.words }
        ensures is { (word : List ℕ) → slice_get self.now.words n ≡ Some word → result ≡ head word }
        ensures bytes { (word : List ℕ) → slice_get self.now.words n ≡ Some word → IsRead word }
    {
        self.chunk.head_at(n)
    }

    /// The bytes of the posting list of the word of this number.
    #[inline]
    pub(crate) fn list(&self, n: u32) -> &[u8]
        requires { n < length self.now.words }
        ensures { (word : List ℕ) → slice_get self.now.words n ≡ Some word → result.now ≡ word_postings self.now.rows word }
    {
        self.chunk.list_bytes(n)
    }

    /// How many rows have the word of this number.
    #[inline]
    pub(crate) fn count(&self, n: u32) -> u32
        requires { n < length self.now.words }
        ensures { (word : List ℕ) → slice_get self.now.words n ≡ Some word → result ≡ length (rows_with word self.now.rows) }
    {
        self.chunk.count_at(n)
    }
}

/// The chunks of layers, and how many rows they have.
pub(crate) fn parts_of<C: CopyBytes>(
    alloc: Global,
    layers: &[Layer<C>],
) -> Result<(Vec<Part<C>>, u32), NoMemory>
    ensures living { IfOk result (λ made. flat_map living_of made.0.items ≡ all_living layers.now) }
    ensures laid { IfOk result (λ made. AreLaid 0 made.0.items) }
    ensures count { IfOk result (λ made. made.1 ≡ length (all_rows made.0.items)) }
{
    let mut parts = Vec::with_capacity(alloc, layers.len())?;
    let mut first: u32 = 0;
    for layer in layers {
        let part = part_of(layer, first)?;
        let next = first.checked_add(part.rows()).ok_or(NoMemory)?;
        parts.push(part)?;
        first = next;
    }
    Ok((parts, first))
}

/// The chunk of a layer, with so many rows before it.
fn part_of<C: CopyBytes>(layer: &Layer<C>, first: u32) -> Result<Part<C>, NoMemory>
    ensures living { IfOk result (λ part. living_of part ≡ living layer.now) }
    ensures first { IfOk result (λ part. part.first ≡ first) }
{
    Ok(Part {
        chunk: Arc::try_clone(&layer.chunk)?,
        dead: Arc::try_clone(&layer.dead)?,
        first,
    })
}
