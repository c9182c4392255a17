//! Which rows move to a job's chunk: those that live in the layers on the disk that the job takes, and in memory those that aren't
//! newer than the snapshot that it began over. They are told by their ids.
ghost use Rattle.std.specs.Prelude.{◌≡◌, ◌<◌, ◌==◌, ◌||◌, ◌++◌, ◌∷◌, [], ℕ, Some, if◌then◌else◌, IfOk, OnOk, length, slice_get};
ghost use Rattle.std.specs.List.{flat_map, list_any};
ghost use Rattle.std.specs.List.Sorted.{IsNonDecreasingBy};
ghost use Rattle.doc_types.specs.declared.documents.DocRow.{DocRow};
ghost use Rattle.doc_types.specs.Snapshots.{IsLayer, is_dead};
ghost use Rattle.reshape_laws.specs.Rebasing.{is_old};
ghost use Rattle.reshape.specs.steps.Moving.{all_moving_ids, moves, moving_ids};

use crate::planning::takes_disk;
use doc_types::{Chunk, Layer};
use layer_commit::is_dead;
use srch_base::NoMemory;
use std::alloc::Global;
use step_history::Job;

/// How many rows the layer has.
pub(crate) fn row_count<C: Chunk>(layer: &Layer<C>) -> u32
    ensures count { result ≡ length layer.now.rows }
    ensures sound { IsLayer layer.now }
{
    layer.chunk.rows()
}

/// The row's id.
pub(crate) fn id_at<C: Chunk>(layer: &Layer<C>, row: u32) -> u64
    requires { row < length layer.now.rows }
    ensures { (x : DocRow) → slice_get layer.now.rows row ≡ Some x → result ≡ x.doc.id }
{
    layer.chunk.id(row)
}

/// Whether the row isn't newer than the commit of this number.
fn is_old<C: Chunk>(layer: &Layer<C>, front: u64, row: u32) -> bool
    requires { row < length layer.now.rows }
    ensures { (x : DocRow) → slice_get layer.now.rows row ≡ Some x → result ≡ is_old front x }
{
    let born = layer.chunk.born(row);
    !(front < born)
}

/// Whether the row is dead once the old ones are.
pub(crate) fn dies<C: Chunk>(layer: &Layer<C>, front: u64, row: u32) -> bool
    requires { row < length layer.now.rows }
    ensures { (x : DocRow) → slice_get layer.now.rows row ≡ Some x → result ≡ (is_dead layer.now row || is_old front x) }
{
    is_dead(layer.dead.as_slice(), row) || is_old(layer, front, row)
}

/// Whether the row moves.
fn moves<C: Chunk>(layer: &Layer<C>, job: Job, front: u64, row: u32) -> bool
    requires { row < length layer.now.rows }
    ensures { (x : DocRow) → slice_get layer.now.rows row ≡ Some x → result ≡ moves job front layer.now (row, x) }
{
    if is_dead(layer.dead.as_slice(), row) {
        return false;
    }
    if layer.disk {
        return takes_disk(job);
    }
    is_old(layer, front, row)
}

/// Appends the id where it passes.
fn push_where(ids: &mut Vec<u64>, id: u64, passes: bool) -> Result<(), NoMemory>
    ensures { OnOk result (ids.new.items ≡ ids.old.items ++ (if passes then id ∷ [] else [])) }
{
    if passes {
        ids.push(id)?;
    }
    Ok(())
}

/// Appends the ids of the layer's rows that move.
fn push_rows<C: Chunk>(
    ids: &mut Vec<u64>,
    layer: &Layer<C>,
    job: Job,
    front: u64,
) -> Result<(), NoMemory>
    ensures { OnOk result (ids.new.items ≡ ids.old.items ++ moving_ids job front layer.now) }
{
    let count = row_count(layer);
    for row in 0..count {
        push_where(ids, id_at(layer, row), moves(layer, job, front, row))?;
    }
    Ok(())
}

/// Appends the ids of the layer's rows that move. Layers on the disk that a job leaves aren't looked at.
fn push_moving<C: Chunk>(
    ids: &mut Vec<u64>,
    layer: &Layer<C>,
    job: Job,
    front: u64,
) -> Result<(), NoMemory>
    ensures { OnOk result (ids.new.items ≡ ids.old.items ++ moving_ids job front layer.now) }
{
    if layer.disk && !takes_disk(job) {
        return Ok(());
    }
    push_rows(ids, layer, job, front)
}

/// The ids of the rows that move, layer by layer.
fn ids_of<C: Chunk>(
    alloc: Global,
    layers: &[Layer<C>],
    job: Job,
    front: u64,
    most: u32,
) -> Result<Vec<u64>, NoMemory>
    ensures { IfOk result (λ ids. ids.items ≡ flat_map (moving_ids job front) layers.now) }
{
    let mut ids = Vec::with_capacity(alloc, most as usize)?;
    for layer in layers {
        push_moving(&mut ids, layer, job, front)?;
    }
    Ok(ids)
}

/// The ids of the rows that move, in order. At most so many do.
pub(crate) fn moving_ids<C: Chunk>(
    alloc: Global,
    layers: &[Layer<C>],
    job: Job,
    front: u64,
    most: u32,
) -> Result<Vec<u64>, NoMemory>
    ensures ascend { IfOk result (λ ids. IsNonDecreasingBy (λ id. id) ids.items) }
    ensures same { IfOk result (λ ids. (id : ℕ) → list_any (λ other. other == id) ids.items ≡ list_any (λ other. other == id) (all_moving_ids job front layers.now)) }
{
    let mut ids = ids_of(alloc, layers, job, front, most)?;
    ids.sort_unstable();
    Ok(ids)
}
