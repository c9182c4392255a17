//! Documents from the texts of their fields: the rows of a chunk.
ghost use Rattle.std.specs.Prelude.{◌<◌, All, AllPairs, IfOk, IsTrue, OnOk};
ghost use Rattle.doc_types.specs.Chunks.{IsContent};
ghost use Rattle.doc_types.specs.Documents.{AreRowsOf};
ghost use Rattle.eval_vectors.specs.steps.Reading.{AreFewRows, IsShortField, IsShortRow, IsSoundIndex};

use doc_tokens::tokens;
use doc_types::{Chunk, Doc, DocRow, FieldTokens};
use image_chunk::RamChunk;
use index_conf::IndexConf;
use srch_base::{Items, NoMemory};
use std::alloc::Global;

/// The tokens of a short text by the rules of an index.
fn field(alloc: Global, index: &IndexConf, text: &str) -> Result<FieldTokens, NoMemory>
    requires { IsSoundIndex index.now }
    ensures { IfOk result IsShortField }
{
    if text.len() > 5000 {
        return Err(NoMemory);
    }
    match tokens(alloc, &index.charset, &index.rules, text) {
        Ok(found) if found.words.len() <= 1000 && found.spans.len() <= 1000 => Ok(found),
        _ => Err(NoMemory),
    }
}

/// The fields of a document, which is told by their texts with ` ⇒ ` between them.
fn fields(alloc: Global, index: &IndexConf, texts: &str) -> Result<Vec<FieldTokens>, NoMemory>
    requires { IsSoundIndex index.now }
    ensures { IfOk result (λ fields. All IsShortField fields.items) }
{
    let mut fields = Vec::new(alloc);
    'texts: for text in texts.split(" ⇒ ") {
        fields.push(field(alloc, index, text)?)?;
    }
    Ok(fields)
}

/// The row of a document.
fn row(alloc: Global, index: &IndexConf, id: u64, texts: &str) -> Result<DocRow, NoMemory>
    requires { IsSoundIndex index.now }
    ensures { IfOk result (IsShortRow index.now.schema) }
{
    let fields = fields(alloc, index, texts)?;
    if fields.len() != index.schema.fields.len() || index.schema.attrs.len() != 0 {
        return Err(NoMemory);
    }
    let doc = Doc {
        id,
        fields: Items::new(fields),
        values: Items::new(Vec::new(alloc)),
    };
    Ok(DocRow { doc, born: 1 })
}

/// Whether the id is above all ids of the rows.
fn goes_on(rows: &[DocRow], id: u64) -> bool
    requires { AllPairs (λ row later. row.doc.id < later.doc.id) rows.now }
    ensures { IsTrue result → All (λ row. row.doc.id < id) rows.now }
{
    match rows.last() {
        Some(row) => row.doc.id < id,
        None => true,
    }
}

/// Appends the row of a document, which is told by its id and its fields' texts.
fn push(
    alloc: Global,
    index: &IndexConf,
    rows: &mut Vec<DocRow>,
    line: &str,
) -> Result<(), NoMemory>
    requires index { IsSoundIndex index.now }
    requires rows { AreFewRows index.now.schema rows.old.items }
    ensures { OnOk result (AreFewRows index.now.schema rows.new.items) }
{
    let (id, texts) = line.split_once(" ⇒ ").ok_or(NoMemory)?;
    let id = id.parse::<u64>().or(Err(NoMemory))?;
    let row = row(alloc, index, id, texts)?;
    if rows.len() >= 10_000 || !goes_on(rows.as_slice(), row.doc.id) {
        return Err(NoMemory);
    }
    rows.push(row)?;
    Ok(())
}

/// The chunk of rows of an index.
fn built(alloc: Global, index: &IndexConf, rows: Vec<DocRow>) -> Result<RamChunk, NoMemory>
    requires index { IsSoundIndex index.now }
    requires rows { AreFewRows index.now.schema rows.items }
    ensures rows { IfOk result (λ chunk. AreRowsOf index.now.schema (⟦<RamChunk as Chunk>⟧.content chunk)) }
    ensures content { IfOk result (λ chunk. IsContent (⟦<RamChunk as Chunk>⟧.content chunk)) }
{
    Ok(RamChunk::build(alloc, rows)?)
}

/// The chunk of documents, one a line.
pub(crate) fn chunk_of(alloc: Global, index: &IndexConf, lines: &str) -> Result<RamChunk, NoMemory>
    requires { IsSoundIndex index.now }
    ensures rows { IfOk result (λ chunk. AreRowsOf index.now.schema (⟦<RamChunk as Chunk>⟧.content chunk)) }
    ensures content { IfOk result (λ chunk. IsContent (⟦<RamChunk as Chunk>⟧.content chunk)) }
{
    let mut rows = Vec::new(alloc);
    'lines: for line in lines.lines() {
        push(alloc, index, &mut rows, line)?;
    }
    built(alloc, index, rows)
}
