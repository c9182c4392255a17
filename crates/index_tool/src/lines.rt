//! The texts of lines, appended to a buffer.
ghost use Rattle.std.specs.Prelude.{◌≡◌, ◌++◌, OnOk, decimal};
ghost use Rattle.doc_types.specs.declared.documents.DocRow.{DocRow};
ghost use Rattle.index_tool.specs.ToolLines.{chunk_line, field_name, hit_line, word_line};
ghost use Rattle.index_tool.specs.steps.Pieces.{chunk_counts, counts_of};

use doc_types::{Chunk, Schema};
use itoa::Buffer;
use root_slots::ChunkEntry;
use srch_base::NoMemory;

/// How much an index holds.
#[derive(Clone, Copy)]
pub(crate) struct Counts {
    pub(crate) documents: u32,
    pub(crate) chunks: u64,
    pub(crate) records: u64,
}

/// Appends the line of an index.
pub(crate) fn put_index(name: &[u8], counts: Counts, line: &mut Vec<u8>) -> Result<(), NoMemory>
    ensures { OnOk result (line.new.items ≡ line.old.items ++ counts_of name.now counts) }
{
    line.extend_from_slice(name)?;
    line.extend_from_slice(b": ok, ")?;
    put_number(u64::from(counts.documents), line)?;
    line.extend_from_slice(b" documents, ")?;
    put_number(counts.chunks, line)?;
    line.extend_from_slice(b" disk chunks, ")?;
    put_number(counts.records, line)?;
    line.extend_from_slice(b" log records")?;
    line.extend_from_slice(b"\n")?;
    Ok(())
}

/// Appends the line of a chunk.
pub(crate) fn put_chunk<C: Chunk>(
    entry: &ChunkEntry,
    chunk: &C,
    line: &mut Vec<u8>,
) -> Result<(), NoMemory>
    ensures { OnOk result (line.new.items ≡ line.old.items ++ chunk_line entry.now (C.content chunk.now) (C.words_of chunk.now)) }
{
    line.extend_from_slice(b"chunk ")?;
    put_counts(entry, chunk, line)?;
    Ok(())
}

/// Appends what the line of a chunk has behind its first word.
fn put_counts<C: Chunk>(entry: &ChunkEntry, chunk: &C, line: &mut Vec<u8>) -> Result<(), NoMemory>
    ensures { OnOk result (line.new.items ≡ line.old.items ++ chunk_counts entry.now (C.content chunk.now) (C.words_of chunk.now)) }
{
    put_number(u64::from(entry.file), line)?;
    line.extend_from_slice(b": ")?;
    put_number(u64::from(chunk.rows()), line)?;
    line.extend_from_slice(b" rows, ")?;
    put_number(entry.dead.as_slice().len() as u64, line)?;
    line.extend_from_slice(b" dead, ")?;
    put_number(u64::from(chunk.words()), line)?;
    line.extend_from_slice(b" words, ")?;
    put_number(u64::from(entry.length), line)?;
    line.extend_from_slice(b" bytes")?;
    line.extend_from_slice(b"\n")?;
    Ok(())
}

/// Appends the line of a word of a chunk.
pub(crate) fn put_word<C: Chunk>(
    entry: &ChunkEntry,
    chunk: &C,
    word: &[u8],
    line: &mut Vec<u8>,
) -> Result<(), NoMemory>
    ensures { OnOk result (line.new.items ≡ line.old.items ++ word_line entry.now (C.content chunk.now) word.now) }
{
    put_number(u64::from(entry.file), line)?;
    line.extend_from_slice(b" ")?;
    put_number(u64::from(chunk.count(word)), line)?;
    line.extend_from_slice(b" ")?;
    line.extend_from_slice(word)?;
    line.extend_from_slice(b"\n")?;
    Ok(())
}

/// Appends the line of a place: of this field and position in the row of an id.
pub(crate) fn put_hit(
    schema: &Schema,
    entry: &ChunkEntry,
    id: u64,
    hit: (u16, u32),
    line: &mut Vec<u8>,
) -> Result<(), NoMemory>
    ensures { OnOk result ((row : DocRow) → row.doc.id ≡ id → line.new.items ≡ line.old.items ++ hit_line schema.now entry.now row hit) }
{
    put_number(u64::from(entry.file), line)?;
    line.extend_from_slice(b" ")?;
    put_number(id, line)?;
    line.extend_from_slice(b" ")?;
    line.extend_from_slice(field_name(schema, hit.0))?;
    line.extend_from_slice(b" ")?;
    put_number(u64::from(hit.1), line)?;
    line.extend_from_slice(b"\n")?;
    Ok(())
}

/// The name of a field.
fn field_name(schema: &Schema, field: u16) -> &[u8]
    ensures { result.now ≡ field_name schema.now field }
{
    match schema.fields.as_slice().get(usize::from(field)) {
        Some(name) => name.as_bytes(),
        None => b"",
    }
}

/// Appends a number.
fn put_number(number: u64, line: &mut Vec<u8>) -> Result<(), NoMemory>
    ensures { OnOk result (line.new.items ≡ line.old.items ++ decimal number) }
{
    let mut digits = Buffer::new();
    line.extend_from_slice(digits.format(number).as_bytes())?;
    Ok(())
}
