//! The image of layers that are put together.
ghost use Rattle.std.specs.Prelude.{◌≡◌, ◌<◌, ◌≤◌, ◌+◌, length, map, ℕ, All, IfOk};
ghost use Rattle.doc_types.specs.Documents.{AreRowsOf};
ghost use Rattle.doc_types.specs.Schemas.{IsSchema};
ghost use Rattle.doc_types.specs.declared.schema.Schema.{Schema as AnySchema};
ghost use Rattle.doc_types.specs.Snapshots.{all_living};
ghost use Rattle.image_write.specs.declared.image.TheConstants.{MAX_IMAGE};
ghost use Rattle.layer_joins.specs.Joins.{AreOfOne};
ghost use Rattle.layer_joins.specs.Joins.{AreApart};
ghost use Rattle.image_join.specs.JoinedImages.{IsJoined, IsJoinedImage};
ghost use Rattle.image_join.specs.declared.joining.TheConstants.{HEADER};
ghost use Rattle.image_join.specs.steps.OrderedRows.{IsOrdered};
ghost use Rattle.image_join.specs.steps.Numbering.{IsThere, row_in};
ghost use Rattle.image_join.specs.steps.Parts.{AreLaid, all_rows};

use crate::columns::put_rows;
use crate::copying::CopyBytes;
use crate::ordering::{Living, numbers_of, order_of};
use crate::parts::{Part, parts_of};
use crate::words::tables_of;
use doc_types::Layer;
use image_write::{Counts, MAX_IMAGE, Tables, assembled, count_in, place_in, row_size};
use srch_base::NoMemory;
use std::alloc::Global;

/// The bytes of a header.
const HEADER: u64 = 32;

/// What becomes of layers that are put together.
#[derive(Drop)]
pub enum JoinedImage {
    /// Their image.
    Whole(Vec<u8>),
    /// It would be so many bytes long, which are more than an image may have.
    TooLong { bytes: u64 },
}

/// The image of the rows of the layers that live, of which there are some. One that would be too long counts as out of memory.
pub fn join<C: CopyBytes>(alloc: Global, layers: &[Layer<C>]) -> Result<Vec<u8>, NoMemory>
    requires of { AreOfOne (all_living layers.now) }
    requires apart { AreApart (all_living layers.now) }
    requires some { 0 < length (all_living layers.now) }
    ensures is { IfOk result (λ image. IsJoinedImage (all_living layers.now) image.items) }
    ensures short { IfOk result (λ image. length image.items ≤ MAX_IMAGE) }
{
    match join_or_tell(alloc, layers)? {
        JoinedImage::Whole(image) => Ok(image),
        JoinedImage::TooLong { .. } => Err(NoMemory),
    }
}

/// The image of the rows of the layers that live, of which there are some, or how long it would be. That is told before memory for
/// the image is taken, from its parts.
///
/// It takes a time linear in the rows, their words and the bytes of their lists, but for one sort of the rows by their ids, and of
/// the entries of a word where the layers' ids overlap. Beside the image it takes memory for its parts once more, and 20 bytes a row.
pub fn join_or_tell<C: CopyBytes>(
    alloc: Global,
    layers: &[Layer<C>],
) -> Result<JoinedImage, NoMemory>
    requires of { AreOfOne (all_living layers.now) }
    requires apart { AreApart (all_living layers.now) }
    requires some { 0 < length (all_living layers.now) }
    ensures { IfOk result (IsJoined (all_living layers.now)) }
{
    let (parts, count) = parts_of(alloc, layers)?;
    let order = order_of(alloc, &parts)?;
    image_of(alloc, &parts, count, &order)
}

/// The image of rows of the parts in this order, or its length.
fn image_of<C: CopyBytes>(
    alloc: Global,
    parts: &[Part<C>],
    count: u32,
    order: &[Living],
) -> Result<JoinedImage, NoMemory>
    requires laid { AreLaid 0 parts.now }
    requires count { count ≡ length (all_rows parts.now) }
    requires there { All (IsThere parts.now) order.now }
    requires some { 0 < length order.now }
    requires of { (schema : AnySchema) × IsSchema schema × AreRowsOf schema (map (row_in parts.now) order.now) }
    ensures { IfOk result (IsOrdered (map (row_in parts.now) order.now)) }
{
    let (fields, attrs) = shape_of(parts, order);
    let mut columns = Vec::with_capacity(alloc, order.len().saturating_mul(row_size(attrs)))?;
    let mut marks = Vec::new(alloc);
    put_rows(parts, order, attrs, &mut columns, &mut marks)?;
    let numbers = numbers_of(alloc, parts, count, order)?;
    let tables = tables_of(alloc, parts, &numbers)?;
    let bytes = length_of(&columns, &marks, &tables)?;
    if bytes > MAX_IMAGE as u64 {
        return Ok(JoinedImage::TooLong { bytes });
    }
    let counts = Counts {
        rows: count_in(order.len())?,
        fields,
        attrs,
        words: count_in(tables.words as usize)?,
        marks: place_in(&marks)?,
        dictionary: place_in(&tables.dictionary)?,
        postings: place_in(&tables.postings)?,
    };
    let image = assembled(alloc, &counts, &columns, &marks, &tables)?;
    Ok(JoinedImage::Whole(image))
}

/// How long an image of these parts is. More than 64 bits count can't be held.
fn length_of(columns: &Vec<u8>, marks: &Vec<u8>, tables: &Tables) -> Result<u64, NoMemory>
    ensures { IfOk result (λ bytes. bytes ≡ HEADER + length columns.now.items + length marks.now.items + length tables.now.table.items + length tables.now.dictionary.items + length tables.now.postings.items) }
{
    let rows = with_length(HEADER, columns)?;
    let marked = with_length(rows, marks)?;
    let listed = with_length(marked, &tables.table)?;
    let worded = with_length(listed, &tables.dictionary)?;
    let posted = with_length(worded, &tables.postings)?;
    Ok(posted)
}

/// So many bytes and these.
fn with_length(bytes: u64, more: &Vec<u8>) -> Result<u64, NoMemory>
    ensures { IfOk result (λ sum. sum ≡ bytes + length more.now.items) }
{
    bytes.checked_add(more.len() as u64).ok_or(NoMemory)
}

/// How many fields and attributes the rows have.
fn shape_of<C: CopyBytes>(parts: &[Part<C>], order: &[Living]) -> (u16, u16)
    requires { All (IsThere parts.now) order.now }
    ensures { (fields attrs : ℕ) → All (λ living. length (row_in parts.now living).doc.fields ≡ fields) order.now → All (λ living. length (row_in parts.now living).doc.values ≡ attrs) order.now → 0 < length order.now → (result.0 ≡ fields) × (result.1 ≡ attrs) }
{
    match order.first() {
        Some(living) => {
            let part = &parts[living.part as usize];
            (part.fields(), part.attrs())
        }
        None => (0, 0),
    }
}
