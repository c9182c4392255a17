//! The image of a chunk, part by part, as docs/FILES.md draws it.
ghost use Rattle.std.specs.Prelude.{◌≡◌, ◌≤◌, ◌++◌, length, map, IfOk, OnOk};
ghost use Rattle.doc_types.specs.Documents.{AreRowsOf};
ghost use Rattle.doc_types.specs.Schemas.{IsSchema};
ghost use Rattle.doc_types.specs.declared.schema.Schema.{Schema as AnySchema};
ghost use Rattle.chunk_image.specs.ChunkImage.{IsImageOf};
ghost use Rattle.image_write.specs.declared.image.TheConstants.{MAX_IMAGE};
ghost use Rattle.image_write.specs.Written.{IsWritten, row_of};
ghost use Rattle.image_write.specs.Headers.{counted};

use crate::columns::{put_rows, row_size};
use crate::gathering::gather;
use crate::lending::LendsDoc;
use crate::words::{Tables, tables_of};
use doc_types::{Doc, DocRow, Schema};
use srch_base::{NoMemory, put_u16, put_u32};
use std::alloc::Global;

/// The most bytes of an image; a longer one counts as want of memory.
pub const MAX_IMAGE: usize = 536_870_912;

/// The bytes of a header.
const HEADER: usize = 32;

/// How many bytes the marks of a row with a few fields and some twenty boundaries take.
const FEW_MARKS: usize = 32;

/// The lengths and counts that stand in a header.
#[derive(Clone, Copy)]
pub struct Counts {
    pub rows: u32,
    pub fields: u16,
    pub attrs: u16,
    pub words: u32,
    /// Bytes of all rows' marks.
    pub marks: u32,
    /// Bytes of the dictionary.
    pub dictionary: u32,
    /// Bytes of all posting lists.
    pub postings: u32,
}

/// The image of some rows of a schema.
///
/// It sorts the occurrences of words by the words; beside the image it takes memory for each of them, twice 16 bytes while they are
/// sorted, and then 26 bytes of room for the image's parts, or what these need where it is more.
pub fn write_image(alloc: Global, rows: &[DocRow], schema: &Schema) -> Result<Vec<u8>, NoMemory>
    requires schema { IsSchema schema.now }
    requires rows { AreRowsOf schema.now rows.now }
    ensures is { IfOk result (λ image. IsImageOf schema.now rows.now image.items) }
    ensures short { IfOk result (λ image. length image.items ≤ MAX_IMAGE) }
{
    let fields = schema.fields.len() as u16;
    let attrs = schema.attrs.len() as u16;
    write_counted(alloc, rows, fields, attrs)
}

/// The same, where so many fields and attributes are known of the schema.
pub fn write_counted(
    alloc: Global,
    rows: &[DocRow],
    fields: u16,
    attrs: u16,
) -> Result<Vec<u8>, NoMemory>
    requires { (schema : AnySchema) × IsWritten schema rows.now fields attrs }
    ensures is { IfOk result (λ image. (schema : AnySchema) → IsWritten schema rows.now fields attrs → IsImageOf schema rows.now image.items) }
    ensures short { IfOk result (λ image. length image.items ≤ MAX_IMAGE) }
{
    write_lent(alloc, rows, 0, fields, attrs)
}

/// The image of the rows that documents are once the commit of this number has put them. No document is copied.
pub fn write_docs(
    alloc: Global,
    docs: &[&Doc],
    number: u64,
    fields: u16,
    attrs: u16,
) -> Result<Vec<u8>, NoMemory>
    requires { (schema : AnySchema) × IsWritten schema (map (λ doc. row_of doc.now number) docs.now) fields attrs }
    ensures is { IfOk result (λ image. (schema : AnySchema) → IsWritten schema (map (λ doc. row_of doc.now number) docs.now) fields attrs → IsImageOf schema (map (λ doc. row_of doc.now number) docs.now) image.items) }
    ensures short { IfOk result (λ image. length image.items ≤ MAX_IMAGE) }
{
    write_lent(alloc, docs, number, fields, attrs)
}

/// The image of what these lend, where documents without a number of their own have this one.
fn write_lent<R: LendsDoc>(
    alloc: Global,
    rows: &[R],
    number: u64,
    fields: u16,
    attrs: u16,
) -> Result<Vec<u8>, NoMemory>
    requires { (schema : AnySchema) × IsWritten schema (map (λ row. row_of (R.lent row) (R.born_at number row)) rows.now) fields attrs }
    ensures is { IfOk result (λ image. (schema : AnySchema) → IsWritten schema (map (λ row. row_of (R.lent row) (R.born_at number row)) rows.now) fields attrs → IsImageOf schema (map (λ row. row_of (R.lent row) (R.born_at number row)) rows.now) image.items) }
    ensures short { IfOk result (λ image. length image.items ≤ MAX_IMAGE) }
{
    let count = count_in(rows.len())?;
    let places = gather(alloc, rows)?;
    let mut columns = Vec::with_capacity(alloc, rows.len().saturating_mul(row_size(attrs)))?;
    let mut marks = Vec::with_capacity(alloc, rows.len().saturating_mul(FEW_MARKS))?;
    put_rows(rows, number, &mut columns, &mut marks)?;
    let tables = tables_of(alloc, rows, &places)?;
    let counts = Counts {
        rows: count,
        fields,
        attrs,
        words: tables.words,
        marks: place_in(&marks)?,
        dictionary: place_in(&tables.dictionary)?,
        postings: place_in(&tables.postings)?,
    };
    assembled(alloc, &counts, &columns, &marks, &tables)
}

/// The parts of an image, one behind the other.
pub fn assembled(
    alloc: Global,
    counts: &Counts,
    columns: &[u8],
    marks: &[u8],
    tables: &Tables,
) -> Result<Vec<u8>, NoMemory>
    ensures is { IfOk result (λ image. image.items ≡ counted counts.now ++ columns.now ++ marks.now ++ tables.now.table.items ++ tables.now.dictionary.items ++ tables.now.postings.items) }
    ensures short { IfOk result (λ image. length image.items ≤ MAX_IMAGE) }
{
    let room = room_of(
        columns,
        marks,
        &tables.table,
        &tables.dictionary,
        &tables.postings,
    );
    let mut image = header_of(alloc, room, counts)?;
    image.extend_from_slice(columns)?;
    image.extend_from_slice(marks)?;
    image.extend_from_slice(&tables.table)?;
    image.extend_from_slice(&tables.dictionary)?;
    image.extend_from_slice(&tables.postings)?;
    place_in(&image)?;
    Ok(image)
}

/// How many bytes an image of these parts takes, so that it is made in one piece of memory and keeps no more.
pub fn room_of(
    columns: &[u8],
    marks: &[u8],
    table: &[u8],
    dictionary: &[u8],
    postings: &[u8],
) -> usize {
    HEADER
        .saturating_add(columns.len())
        .saturating_add(marks.len())
        .saturating_add(table.len())
        .saturating_add(dictionary.len())
        .saturating_add(postings.len())
}

/// The header with these counts, with room for so many bytes in all.
pub fn header_of(alloc: Global, room: usize, counts: &Counts) -> Result<Vec<u8>, NoMemory>
    ensures { IfOk result (λ header. header.items ≡ counted counts.now) }
{
    let mut out = Vec::with_capacity(alloc, room)?;
    out.extend_from_slice(b"SRCHUNK1")?;
    put_u32(counts.rows, &mut out)?;
    put_u16(counts.fields, &mut out)?;
    put_u16(counts.attrs, &mut out)?;
    put_u32(counts.words, &mut out)?;
    put_u32(counts.marks, &mut out)?;
    put_u32(counts.dictionary, &mut out)?;
    put_u32(counts.postings, &mut out)?;
    Ok(out)
}

/// A count of things that an image has, unless they can't have room in one.
pub fn count_in(count: usize) -> Result<u32, NoMemory>
    ensures is { IfOk result (λ number. number ≡ count) }
    ensures small { OnOk result (count ≤ MAX_IMAGE) }
{
    if count > MAX_IMAGE {
        return Err(NoMemory);
    }
    Ok(count as u32)
}

/// The place at the end of some bytes of an image, unless they are too many.
pub fn place_in(bytes: &Vec<u8>) -> Result<u32, NoMemory>
    ensures is { IfOk result (λ place. place ≡ length bytes.now.items) }
    ensures small { OnOk result (length bytes.now.items ≤ MAX_IMAGE) }
{
    count_in(bytes.len())
}
