//! What is read of a document to weigh it.
ghost use Rattle.std.specs.Prelude.{◌≡◌, ◌<◌, OnOk, Some, length, slice_get};
ghost use Rattle.doc_types.specs.declared.documents.DocRow.{DocRow};
ghost use Rattle.doc_search.specs.steps.Gathering.{AreValuesFor, IsAskedOfDocs};

use crate::ready::ReadyQuestion;
use doc_types::{Chunk, Hits, Value};
use srch_base::{Items, NoMemory};
use std::alloc::Global;

/// The hits and the values of one document. One such room serves all documents of a search.
#[derive(Drop)]
pub(crate) struct Room {
    pub(crate) hits: Hits,
    pub(crate) values: Vec<Value>,
}

impl Room {
    /// Nothing was read yet. This takes no memory.
    pub(crate) fn new(alloc: Global) -> Room {
        Room {
            hits: Hits {
                keywords: 0,
                list: Items::new(Vec::new(alloc)),
            },
            values: Vec::new(alloc),
        }
    }
}

/// Reads a document's values, where the ranker looks at them.
pub(crate) fn read_values<C: Chunk>(
    asked: &ReadyQuestion<'_>,
    chunk: &C,
    number: u32,
    values: &mut Vec<Value>,
) -> Result<(), NoMemory>
    requires asked { IsAskedOfDocs asked.now (C.content chunk.now) }
    requires number { number < length (C.content chunk.now) }
    ensures { (doc : DocRow) → slice_get (C.content chunk.now) number ≡ Some doc → OnOk result (AreValuesFor asked.now doc values.new.items) }
{
    if asked.question.ranker.looks_at_values() {
        return copy_values(chunk, number, asked.question.attrs, values);
    }
    Ok(())
}

/// Copies a document's values.
fn copy_values<C: Chunk>(
    chunk: &C,
    number: u32,
    attrs: u16,
    values: &mut Vec<Value>,
) -> Result<(), NoMemory>
    requires number { number < length (C.content chunk.now) }
    requires attrs { (doc : DocRow) → slice_get (C.content chunk.now) number ≡ Some doc → length doc.doc.values ≡ attrs }
    ensures { (doc : DocRow) → slice_get (C.content chunk.now) number ≡ Some doc → OnOk result (values.new.items ≡ doc.doc.values) }
{
    values.clear();
    for attr in 0..attrs {
        values.push(chunk.value(number, attr))?;
    }
    Ok(())
}
