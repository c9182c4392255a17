//! One chunk: its file is the image of rows that the root's entry fits, or damaged.
ghost use Rattle.std.specs.Prelude.{◌≡◌, ◌<◌, All, AllPairs, MatchBool, nat_lt};
ghost use Rattle.std.specs.List.{position};
ghost use Rattle.chunk_damage.specs.Header.{row_at};
ghost use Rattle.doc_types.specs.Documents.{AreRowsOf, AreSmall};
ghost use Rattle.doc_types.specs.Schemas.{IsSchema};
ghost use Rattle.chunk_files.specs.steps.Files.{Fits, ReadsFile, damaged, file_of};

use chunk_open::open;
use doc_types::{Chunk, Layer, Schema};
use image_chunk::{AnyChunk, ImageChunk};
use root_slots::ChunkEntry;
use srch_base::{Items, Or};
use std::alloc::Global;
use std::sync::Arc;
use store_steps::{Damage, DamageKind};

/// The layer of a chunk, of whose file this was found.
pub(crate) fn layer_of(
    alloc: Global,
    schema: &Schema,
    through: u64,
    entry: &ChunkEntry,
    found: Option<Vec<u8>>,
) -> Result<Layer<AnyChunk>, Or<Damage>>
    requires schema { IsSchema schema.now }
    requires dead { AllPairs (λ row later. row < later) entry.now.dead }
    ensures { ReadsFile schema.now through entry.now (file_of found) result }
{
    match found {
        Some(bytes) => {
            if bytes.len() as u64 != u64::from(entry.length) {
                return Err(Or::Fault(damaged(entry, 0, DamageKind::ChunkLength)));
            }
            match open(alloc, bytes, schema) {
                Ok(image) => {
                    image.zones_fit();
                    layer_over(alloc, schema, through, entry, image)
                }
                Err(Or::NoMemory) => Err(Or::NoMemory),
                Err(Or::Fault(bad)) => {
                    let kind = DamageKind::Image(bad.kind);
                    Err(Or::Fault(damaged(entry, u64::from(bad.place), kind)))
                }
            }
        }
        None => Err(Or::Fault(damaged(entry, 0, DamageKind::ChunkMissing))),
    }
}

/// What is wrong with the file of a chunk.
fn damaged(entry: &ChunkEntry, place: u64, kind: DamageKind) -> Damage
    ensures { result ≡ damaged entry.now.file place kind }
{
    let file = entry.file;
    Damage { file, place, kind }
}

/// The layer of an image, unless the root's entry doesn't fit its rows.
fn layer_over(
    alloc: Global,
    schema: &Schema,
    through: u64,
    entry: &ChunkEntry,
    image: ImageChunk,
) -> Result<Layer<AnyChunk>, Or<Damage>>
    requires schema { IsSchema schema.now }
    requires dead { AllPairs (λ row later. row < later) entry.now.dead }
    requires of { AreRowsOf schema.now image.image.0.0 }
    requires small { AreSmall image.image.0.0 }
    ensures { Fits schema.now through entry.now image.image.0.0 result }
{
    if !are_rows(entry.dead.as_slice(), image.rows()) {
        return Err(Or::Fault(damaged(entry, 0, DamageKind::DeadRows)));
    }
    match newer_row(&image, through) {
        Some(row) => {
            let place = row_place(schema, row);
            Err(Or::Fault(damaged(entry, place, DamageKind::Born)))
        }
        None => {
            let mut dead = Vec::new(alloc);
            dead.extend_from_slice(entry.dead.as_slice())?;
            Ok(Layer {
                chunk: Arc::new(alloc, image)?,
                disk: true,
                dead: Arc::new(alloc, Items::new(dead))?,
            })
        }
    }
}

/// Whether all of these are numbers of rows, of so many.
fn are_rows(dead: &[u32], rows: u32) -> bool
    ensures { MatchBool result (All (λ row. row < rows) dead.now) (All (λ row. row < rows) dead.now → ⊥) }
{
    dead.iter().all(|row| *row < rows)
}

/// The first row that is newer than the last commit that the chunks have.
fn newer_row(image: &ImageChunk, through: u64) -> Option<u32>
    ensures { result ≡ position (λ row. nat_lt through row.born) image.now.image.0.0 }
{
    'rows: for row in 0..image.rows() {
        if image.born(row) > through {
            return Some(row);
        }
    }
    None
}

/// Where a row stands in an image.
pub(crate) fn row_place(schema: &Schema, row: u32) -> u64
    requires { IsSchema schema.now }
    ensures { result ≡ row_at schema.now row }
{
    32 + u64::from(row) * (20 + 8 * schema.attrs.len() as u64)
}
