//! A document of a chunk as a row, read where it stands: a column is read when it is asked for.
ghost use Rattle.std.specs.Prelude.{◌≡◌, ◌<◌, IfOk, Some, length, slice_get};
ghost use Rattle.doc_types.specs.declared.documents.DocRow.{DocRow};
ghost use Rattle.row_select.specs.Columns.{row_of};

use crate::found::FoundRow;
use crate::row::{ColumnRef, Row};
use doc_types::{Chunk, Value};
use srch_base::{Items, NoMemory};
use std::alloc::Global;
use std::marker::Model;

/// A document of a chunk with a weight. Contracts see it as the row of it.
#[derive(Drop)]
pub struct ChunkRow<'a, C: Chunk> {
    chunk: &'a C,
    number: u32,
    /// How many attributes it has.
    attrs: u16,
    weight: u64,
    /// Where a copy takes its memory.
    alloc: Global,
}

impl<'a, C: Chunk> Model for ChunkRow<'a, C> {
    ghost use Rattle.row_select.specs.declared.row.Row.{Row};
    ghost use Rattle.row_select.specs.Columns.{row_at};
    ghost use Rattle.row_select.specs.steps.ChunkRows.{StandsIn};

    ghost Value = { Row };

    ghost view = { λ a. row_at a.weight (C.content a.chunk.now) a.number };

    ghost invariant = { λ a. StandsIn (C.content a.chunk.now) a.number a.attrs };
}

impl<'a, C: Chunk> ChunkRow<'a, C> {
    /// The document of this number, which has so many attributes, with a weight.
    #[inline]
    pub fn new(alloc: Global, chunk: &'a C, number: u32, attrs: u16, weight: u64) -> ChunkRow<'a, C>
        requires number { number < length (C.content chunk.now) }
        requires attrs { (doc : DocRow) → slice_get (C.content chunk.now) number ≡ Some doc → length doc.doc.values ≡ attrs }
        ensures { (doc : DocRow) → slice_get (C.content chunk.now) number ≡ Some doc → result ≡ row_of weight doc }
    {
        ChunkRow {
            chunk,
            number,
            attrs,
            weight,
            alloc,
        }
    }
}

impl<'a, C: Chunk> FoundRow for ChunkRow<'a, C> {
    ghost as_row = { λ row. row };

    #[inline]
    fn id(&self) -> u64 {
        self.chunk.id(self.number)
    }

    #[inline]
    fn value(&self, column: ColumnRef) -> i128 {
        match column {
            ColumnRef::Id => i128::from(self.chunk.id(self.number)),
            ColumnRef::Attr(place) if place < self.attrs => {
                match self.chunk.value(self.number, place) {
                    Value::Whole(value) => i128::from(value),
                }
            }
            ColumnRef::Attr(_) => 0,
            ColumnRef::Weight => i128::from(self.weight),
        }
    }

    fn copy(&self) -> Result<Row, NoMemory> {
        Ok(Row {
            id: self.chunk.id(self.number),
            weight: self.weight,
            values: Items::new(values_of(self.alloc, self.chunk, self.number, self.attrs)?),
        })
    }
}

/// What a document's attributes hold.
fn values_of<C: Chunk>(
    alloc: Global,
    chunk: &C,
    number: u32,
    attrs: u16,
) -> Result<Vec<Value>, NoMemory>
    requires number { number < length (C.content chunk.now) }
    requires attrs { (doc : DocRow) → slice_get (C.content chunk.now) number ≡ Some doc → length doc.doc.values ≡ attrs }
    ensures { (doc : DocRow) → slice_get (C.content chunk.now) number ≡ Some doc → IfOk result (λ values. values.items ≡ doc.doc.values) }
{
    let mut values = Vec::with_capacity(alloc, attrs as usize)?;
    for attr in 0..attrs {
        values.push(chunk.value(number, attr))?;
    }
    Ok(values)
}
