//! The rows of layers that are dead once a job's chunk has taken its place, as lists of numbers that ascend.
ghost use Rattle.std.specs.Prelude.{◌≡◌, ◌<◌, ◌==◌, ◌||◌, ◌++◌, ◌∷◌, [], ℕ, Bool, not, if◌then◌else◌, IfOk, OnOk, length};
ghost use Rattle.std.specs.List.{list_any};
ghost use Rattle.std.specs.List.Sorted.{IsNonDecreasingBy};
ghost use Rattle.doc_types.specs.Chunks.{rows_from};
ghost use Rattle.doc_types.specs.declared.documents.DocRow.{DocRow};
ghost use Rattle.doc_types.specs.Snapshots.{is_dead};
ghost use Rattle.reshape_laws.specs.Rebasing.{is_old, less};
ghost use Rattle.reshape.specs.steps.Moving.{begins, has_moving, numbers};

use crate::moving::{dies, id_at, moving_ids, row_count};
use doc_types::{Chunk, Layer};
use srch_base::{Items, NoMemory};
use std::alloc::Global;
use std::sync::Arc;
use step_history::Job;

/// Appends the row where it passes.
fn push_where(rows: &mut Vec<u32>, row: u32, passes: bool) -> Result<(), NoMemory>
    ensures { OnOk result (rows.new.items ≡ rows.old.items ++ (if passes then row ∷ [] else [])) }
{
    if passes {
        rows.push(row)?;
    }
    Ok(())
}

/// The dead rows of a layer once the old ones are.
fn without_old<C: Chunk>(alloc: Global, layer: &Layer<C>, front: u64) -> Result<Vec<u32>, NoMemory>
    ensures { IfOk result (λ rows. rows.items ≡ numbers (λ e. is_dead layer.now e.0 || is_old front e.1) layer.now.rows) }
{
    let count = row_count(layer);
    let mut rows = Vec::new(alloc);
    for row in 0..count {
        push_where(&mut rows, row, dies(layer, front, row))?;
    }
    Ok(rows)
}

/// The ids from this one on.
fn ids_from(ids: &[u64], id: u64) -> &[u64]
    ensures { result.now ≡ rows_from id ids.now }
{
    match ids.split_first() {
        Some((first, rest)) if *first < id => ids_from(rest, id),
        _ => ids,
    }
}

/// Whether the id is the first one.
fn begins_with(ids: &[u64], id: u64) -> bool
    ensures { result ≡ begins ids.now id }
{
    match ids.first() {
        Some(first) => *first == id,
        None => false,
    }
}

/// The rows of a layer whose ids aren't among these, which ascend: one pass over both.
fn lost_rows<C: Chunk>(alloc: Global, layer: &Layer<C>, ids: &[u64]) -> Result<Vec<u32>, NoMemory>
    requires { IsNonDecreasingBy (λ id. id) ids.now }
    ensures { IfOk result (λ rows. rows.items ≡ numbers (λ e. not (list_any (λ id. id == e.1.doc.id) ids.now)) layer.now.rows) }
{
    let count = row_count(layer);
    let mut rows = Vec::new(alloc);
    let mut rest = ids;
    for row in 0..count {
        let id = id_at(layer, row);
        rest = ids_from(rest, id);
        push_where(&mut rows, row, !begins_with(rest, id))?;
    }
    Ok(rows)
}

/// The layer with these dead rows.
fn with_dead<C: Chunk>(
    alloc: Global,
    layer: &Layer<C>,
    dead: Vec<u32>,
) -> Result<Layer<C>, NoMemory>
    requires { (passes : ℕ × DocRow → Bool) × (dead.items ≡ numbers passes layer.now.rows) }
    ensures { IfOk result (λ next. next ≡ record layer.now { dead = dead.items }) }
{
    Ok(Layer {
        chunk: Arc::try_clone(&layer.chunk)?,
        disk: layer.disk,
        dead: Arc::new(alloc, Items::new(dead))?,
    })
}

/// The layer without its old rows.
pub(crate) fn young<C: Chunk>(
    alloc: Global,
    layer: &Layer<C>,
    front: u64,
) -> Result<Layer<C>, NoMemory>
    ensures { IfOk result (λ next. next ≡ less (is_old front) layer.now) }
{
    let dead = without_old(alloc, layer, front)?;
    with_dead(alloc, layer, dead)
}

/// A job's chunk without the rows that don't live any more in these layers.
pub(crate) fn still_living<C: Chunk>(
    alloc: Global,
    layer: &Layer<C>,
    layers: &[Layer<C>],
    job: Job,
    front: u64,
) -> Result<Layer<C>, NoMemory>
    ensures { IfOk result (λ next. next ≡ record layer.now { dead = numbers (λ e. not (has_moving job front layers.now e.1.doc.id)) layer.now.rows }) }
{
    let ids = moving_ids(alloc, layers, job, front, row_count(layer))?;
    let dead = lost_rows(alloc, layer, ids.as_slice())?;
    let next = with_dead(alloc, layer, dead)?;
    Ok(next)
}
