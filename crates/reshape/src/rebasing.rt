//! A job's chunk takes its place among the layers of a snapshot.
ghost use Rattle.std.specs.Prelude.{◌≡◌, ◌<◌, ◌+◌, ◌^◌, ◌++◌, ◌∷◌, [], IfOk, OnOk};
ghost use Rattle.std.specs.List.{filter};
ghost use Rattle.reshape_laws.specs.Rebasing.{HasMoved, lives, moved, new_layers, rebased, staying};
ghost use Rattle.reshape.specs.Builds.{IsNew, new_rows};
ghost use Rattle.reshape.specs.steps.Moving.{young_layers};

use crate::numbering::{still_living, young};
use crate::planning::again;
use doc_types::{Chunk, Layer, Snapshot};
use srch_base::{Items, NoMemory};
use std::alloc::Global;
use step_history::Job;

/// The most layers of a snapshot.
const MAX_LAYERS: usize = 65_535;

/// Appends the layer where it is on the disk.
fn push_disk<C: Chunk>(out: &mut Vec<Layer<C>>, layer: &Layer<C>) -> Result<(), NoMemory>
    ensures { OnOk result (out.new.items ≡ out.old.items ++ filter (λ layer. layer.disk) (layer.now ∷ [])) }
{
    if layer.disk {
        out.push(again(layer)?)?;
    }
    Ok(())
}

/// The layers that stay: for FLUSH those on the disk, for OPTIMIZE none.
fn staying<C: Chunk>(alloc: Global, job: Job, now: &Snapshot<C>) -> Result<Vec<Layer<C>>, NoMemory>
    ensures { IfOk result (λ layers. layers.items ≡ staying job now.now) }
{
    match job {
        Job::Flush => on_disk(alloc, now.layers.as_slice()),
        Job::Optimize => Ok(Vec::new(alloc)),
    }
}

/// The layers on the disk.
fn on_disk<C: Chunk>(alloc: Global, layers: &[Layer<C>]) -> Result<Vec<Layer<C>>, NoMemory>
    ensures { IfOk result (λ out. out.items ≡ filter (λ layer. layer.disk) layers.now) }
{
    let mut out = Vec::new(alloc);
    for layer in layers {
        push_disk(&mut out, layer)?;
    }
    Ok(out)
}

/// Appends the layer where a row of it lives.
fn push_living<C: Chunk>(out: &mut Vec<Layer<C>>, layer: Layer<C>) -> Result<(), NoMemory>
    ensures { OnOk result (out.new.items ≡ out.old.items ++ filter lives (layer ∷ [])) }
{
    if layer.live_count() > 0 {
        out.push(layer)?;
    }
    Ok(())
}

/// Appends the layer where it is in memory, without its old rows.
fn push_young<C: Chunk>(
    alloc: Global,
    out: &mut Vec<Layer<C>>,
    layer: &Layer<C>,
    front: u64,
) -> Result<(), NoMemory>
    ensures { OnOk result (out.new.items ≡ out.old.items ++ young_layers front (layer.now ∷ [])) }
{
    if !layer.disk {
        push_living(out, young(alloc, layer, front)?)?;
    }
    Ok(())
}

/// Appends the layers in memory without their old rows.
fn push_all_young<C: Chunk>(
    alloc: Global,
    out: &mut Vec<Layer<C>>,
    layers: &[Layer<C>],
    front: u64,
) -> Result<(), NoMemory>
    ensures { OnOk result (out.new.items ≡ out.old.items ++ young_layers front layers.now) }
{
    for layer in layers {
        push_young(alloc, out, layer, front)?;
    }
    Ok(())
}

/// Appends the job's chunk, where there is one.
fn push_new<C: Chunk>(
    alloc: Global,
    out: &mut Vec<Layer<C>>,
    new: &Option<Layer<C>>,
    job: Job,
    front: u64,
    now: &Snapshot<C>,
) -> Result<(), NoMemory>
    requires { IsNew new.now }
    ensures { OnOk result (out.new.items ≡ out.old.items ++ new_layers (new_rows new.now) (moved job front now.now)) }
{
    match new {
        None => Ok(()),
        Some(layer) => {
            out.push(still_living(alloc, layer, now.layers.as_slice(), job, front)?)?;
            Ok(())
        }
    }
}

/// The snapshot once the chunk that a job made takes its place, or none where it made none.
///
/// The job began over the snapshot of the number `front`. Each row that moves has to be one of the chunk, as it is where only commits
/// came since. Chunks are shared with the snapshot that is lent, which stays as it is. Want of memory is also the answer where there
/// would be 2^16 layers.
pub fn rebase<C: Chunk>(
    alloc: Global,
    job: Job,
    front: u64,
    new: &Option<Layer<C>>,
    now: &Snapshot<C>,
) -> Result<Snapshot<C>, NoMemory>
    requires shape { now.now.shape + 1 < 2 ^ 64 }
    requires new { IsNew new.now }
    requires moved { HasMoved job front (new_rows new.now) now.now }
    ensures { IfOk result (λ next. next ≡ rebased job front (new_rows new.now) now.now) }
{
    let mut layers = staying(alloc, job, now)?;
    push_new(alloc, &mut layers, new, job, front, now)?;
    push_all_young(alloc, &mut layers, now.layers.as_slice(), front)?;
    if layers.len() > MAX_LAYERS {
        return Err(NoMemory);
    }
    Ok(Snapshot {
        number: now.number,
        shape: now.shape + 1,
        layers: Items::new(layers),
    })
}
