//! Which layers a job takes.
ghost use Rattle.std.specs.Prelude.{◌≡◌, ◌<◌, ◌^◌, ◌++◌, ◌∷◌, [], IfOk, OnOk, length};
ghost use Rattle.std.specs.List.{filter};
ghost use Rattle.doc_types.specs.Snapshots.{all_living};
ghost use Rattle.layer_joins.specs.Joins.{AreApart};
ghost use Rattle.reshape_laws.specs.Rebasing.{taken_layers};
ghost use Rattle.reshape.specs.steps.Moving.{takes, takes_disk};

use doc_types::{Chunk, Layer, Snapshot};
use srch_base::NoMemory;
use std::alloc::Global;
use std::sync::Arc;
use step_history::Job;

/// Whether the job takes layers on the disk too.
pub(crate) fn takes_disk(job: Job) -> bool
    ensures { result ≡ takes_disk job }
{
    match job {
        Job::Flush => false,
        Job::Optimize => true,
    }
}

/// Whether the job takes the layer.
fn takes<C: Chunk>(layer: &Layer<C>, job: Job) -> bool
    ensures { result ≡ takes job layer.now }
{
    !layer.disk || takes_disk(job)
}

/// The layer once more, over the same chunk.
pub(crate) fn again<C: Chunk>(layer: &Layer<C>) -> Result<Layer<C>, NoMemory>
    ensures { IfOk result (λ other. other ≡ layer.now) }
{
    Ok(Layer {
        chunk: Arc::try_clone(&layer.chunk)?,
        disk: layer.disk,
        dead: Arc::try_clone(&layer.dead)?,
    })
}

/// Appends the layer where the job takes it.
fn push_taken<C: Chunk>(
    layers: &mut Vec<Layer<C>>,
    layer: &Layer<C>,
    job: Job,
) -> Result<(), NoMemory>
    ensures { OnOk result (layers.new.items ≡ layers.old.items ++ filter (takes job) (layer.now ∷ [])) }
{
    if takes(layer, job) {
        layers.push(again(layer)?)?;
    }
    Ok(())
}

/// The layers of which some are taken.
fn all_taken<C: Chunk>(
    alloc: Global,
    layers: &[Layer<C>],
    job: Job,
) -> Result<Vec<Layer<C>>, NoMemory>
    ensures { IfOk result (λ taken. taken.items ≡ filter (takes job) layers.now) }
{
    let mut taken = Vec::new(alloc);
    for layer in layers {
        push_taken(&mut taken, layer, job)?;
    }
    Ok(taken)
}

/// The layers that a job takes: for FLUSH those in memory, for OPTIMIZE all.
pub fn plan<C: Chunk>(
    alloc: Global,
    snapshot: &Snapshot<C>,
    job: Job,
) -> Result<Vec<Layer<C>>, NoMemory>
    ensures layers { IfOk result (λ layers. layers.items ≡ taken_layers job snapshot.now) }
    ensures few { IfOk result (λ layers. length layers.items < 2 ^ 16) }
    ensures apart { IfOk result (λ layers. AreApart (all_living layers.items)) }
{
    let layers = all_taken(alloc, snapshot.layers.as_slice(), job)?;
    Ok(layers)
}
