//! A chunk in memory: the image of rows, written and kept.
ghost use Rattle.std.specs.Prelude.{◌≡◌, ◌<◌, ◌^◌, All, IfOk, map};
ghost use Rattle.doc_types.specs.Chunks.{IsContent};
ghost use Rattle.doc_types.specs.declared.schema.Schema.{Schema};
ghost use Rattle.image_write.specs.Written.{IsWritten, row_of};
ghost use Rattle.image_parts.specs.Images.{HasZones};

use crate::image_chunk::ImageChunk;
use doc_types::{Doc, DocRow, FieldTokens, ZoneSpan};
use image_write::{write_counted, write_docs};
use srch_base::NoMemory;
use std::alloc::Global;

/// A chunk whose image is kept in memory. What answers is the image, wherever its bytes come from.
pub type RamChunk = ImageChunk;

impl ImageChunk {
    /// A chunk of these rows. Rows whose image would be longer than an image may be count as want of memory.
    pub fn build(alloc: Global, rows: Vec<DocRow>) -> Result<ImageChunk, NoMemory>
        requires { IsContent rows.items }
        ensures { IfOk result (λ chunk. chunk.image.0.0 ≡ rows.items) }
    {
        let list = rows.as_slice();
        let (fields, attrs) = counts_of(list);
        let bytes = write_counted(alloc, list, fields, attrs)?;
        zones_fit(list);
        // The rows go before skip entries are taken, which stay: behind the rows they would keep their memory from being given back.
        drop(rows);
        let chunk = ImageChunk::over(alloc, bytes)?;
        Ok(chunk)
    }

    /// A chunk of these documents, each put by the commit of this number. None of them is copied.
    pub fn of_docs(alloc: Global, docs: &[&Doc], number: u64) -> Result<ImageChunk, NoMemory>
        requires { IsContent (map (λ doc. row_of doc.now number) docs.now) }
        ensures { IfOk result (λ chunk. chunk.image.0.0 ≡ map (λ doc. row_of doc.now number) docs.now) }
    {
        let (fields, attrs) = counts_of_docs(docs, number);
        let bytes = write_docs(alloc, docs, number, fields, attrs)?;
        docs_fit(docs, number);
        let chunk = ImageChunk::over(alloc, bytes)?;
        Ok(chunk)
    }
}

/// How many fields and attributes the rows have, as their first one tells; none where there is no row.
fn counts_of(rows: &[DocRow]) -> (u16, u16)
    requires { IsContent rows.now }
    ensures { (schema : Schema) × IsWritten schema rows.now result.0 result.1 }
{
    match rows.first() {
        Some(row) => (row.doc.fields.len() as u16, row.doc.values.len() as u16),
        None => (0, 0),
    }
}

/// How many fields and attributes the documents have, as their first one tells; none where there is no document.
fn counts_of_docs(docs: &[&Doc], number: u64) -> (u16, u16)
    requires { IsContent (map (λ doc. row_of doc.now number) docs.now) }
    ensures { (schema : Schema) × IsWritten schema (map (λ doc. row_of doc.now number) docs.now) result.0 result.1 }
{
    match docs.first() {
        Some(doc) => (doc.fields.len() as u16, doc.values.len() as u16),
        None => (0, 0),
    }
}

/// The zones of all spans of documents have room in 16 bits, as their type has it.
fn docs_fit(docs: &[&Doc], number: u64)
    ensures { All HasZones (map (λ doc. row_of doc.now number) docs.now) }
{
    for doc in docs {
        fields_fit(doc.fields.as_slice());
    }
}

/// The zones of all spans have room in 16 bits, as their type has it.
fn zones_fit(rows: &[DocRow])
    ensures { All HasZones rows.now }
{
    for row in rows {
        fields_fit(row.doc.fields.as_slice());
    }
}

fn fields_fit(fields: &[FieldTokens])
    ensures { All (λ tokens. All (λ span. span.zone < 2 ^ 16) tokens.spans) fields.now }
{
    for tokens in fields {
        spans_fit(tokens.spans.as_slice());
    }
}

fn spans_fit(spans: &[ZoneSpan])
    ensures { All (λ span. span.zone < 2 ^ 16) spans.now }
{
    for span in spans {
        zone_fits(span.zone);
    }
}

#[inline]
fn zone_fits(zone: u16)
    ensures { zone < 2 ^ 16 }
{}
