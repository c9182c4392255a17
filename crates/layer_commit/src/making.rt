//! How a chunk in memory is made of documents that are lent: those of a transaction, which stays the caller's.
ghost use Rattle.layer_commit.specs.Commits.{row_at};
ghost use Rattle.std.specs.Prelude.{◌≡◌, IfOk, map};
ghost use Rattle.doc_types.specs.Chunks.{IsContent};

use doc_types::{Chunk, Doc, DocRow, PlainChunk};
use srch_base::NoMemory;
use std::alloc::Global;

/// A chunk that can be made in memory, of documents that are lent. What it keeps of them is its own.
pub trait MakeChunk: Chunk {
    /// A chunk of these documents, each put by the commit of this number.
    fn of_docs(alloc: Global, docs: &[&Doc], number: u64) -> Result<Self, NoMemory>
        requires { IsContent (map (λ doc. row_at number doc.now) docs.now) }
        ensures { IfOk result (λ chunk. Self.content chunk ≡ map (λ doc. row_at number doc.now) docs.now) };
}

/// A plain chunk keeps a copy of each document.
impl MakeChunk for PlainChunk {
    fn of_docs(alloc: Global, docs: &[&Doc], number: u64) -> Result<PlainChunk, NoMemory> {
        let rows = rows_of(alloc, docs, number)?;
        PlainChunk::build(alloc, rows)
    }
}

/// The rows that the commit of this number puts for documents.
fn rows_of(alloc: Global, docs: &[&Doc], number: u64) -> Result<Vec<DocRow>, NoMemory>
    ensures { IfOk result (λ rows. rows.items ≡ map (λ doc. row_at number doc.now) docs.now) }
{
    let mut rows = Vec::with_capacity(alloc, docs.len())?;
    for doc in docs {
        rows.push(row_of(doc, number)?)?;
    }
    Ok(rows)
}

/// The row that the commit of this number puts for a document.
fn row_of(doc: &Doc, number: u64) -> Result<DocRow, NoMemory>
    ensures { IfOk result (λ row. row ≡ row_at number doc.now) }
{
    let doc = doc.clone()?;
    Ok(DocRow { doc, born: number })
}
