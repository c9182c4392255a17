//! How layers are put together.
ghost use Rattle.std.specs.Prelude.{◌≡◌, ◌<◌, ◌≤◌, ◌^◌, ℕ, ◌++◌, IfOk, IfSome, OnErr, OnOk, length, take};
ghost use Rattle.doc_types.specs.Snapshots.{AreLayers, all_living};
ghost use Rattle.layer_joins.specs.Joins.{AreApart, AreOfOne, MayMerge};
ghost use Rattle.layer_joins.specs.steps.Layering.{AreInMemory, IsLayerOf, IsMerged, option_list};

use crate::joining::JoinChunk;
use doc_types::{Chunk, Layer, Snapshot};
use layer_commit::live_count;
use srch_base::{Items, NoMemory};
use std::alloc::Global;
use std::mem;
use std::sync::Arc;

/// A layer becomes one with those behind it as soon as they have so many times its rows.
const FAN_IN: u64 = 4;

/// The most layers in memory that are left as they are.
const MOST_LAYERS: usize = 32;

/// Whether more than half of the layer's rows are dead.
fn is_mostly_dead<C: Chunk>(layer: &Layer<C>) -> bool {
    layer.dead.len() as u64 > u64::from(layer.live_count())
}

/// Whether the layer is on a disk.
fn is_on_disk<C: Chunk>(layer: &Layer<C>) -> bool
    ensures { result ≡ layer.now.disk }
{
    layer.disk
}

/// Where the layers behind the last one on a disk begin.
fn first_in_memory<C: Chunk>(layers: &[Layer<C>]) -> usize
    ensures memory { (start : ℕ) → result ≤ start → AreInMemory start layers.now }
    ensures within { result ≤ length layers.now }
{
    let mut first = layers.len();
    while first > 0 && !is_on_disk(&layers[first - 1]) {
        first -= 1;
    }
    first
}

/// The last layer from this one on that it is cheap by now to put together with all behind it, if there is one.
fn cheap_start<C: Chunk>(layers: &[Layer<C>], first: usize) -> Option<usize>
    requires { length layers.now < 2 ^ 16 }
    ensures { IfSome result (λ start. (first ≤ start) × (start < length layers.now)) }
{
    let mut behind = live_count(layers);
    let mut start = None;
    for (index, layer) in layers.iter().enumerate() {
        let rows = u64::from(layer.live_count());
        behind = behind.saturating_sub(rows);
        let last = index + 1 == layers.len();
        if index >= first && (is_mostly_dead(layer) || (!last && FAN_IN * rows <= behind)) {
            start = Some(index);
        }
    }
    start
}

/// The layer that is to become one with all behind it next, if there is one.
fn merge_start<C: Chunk>(layers: &[Layer<C>]) -> Option<usize>
    requires { length layers.now < 2 ^ 16 }
    ensures start { IfSome result (λ start. start < length layers.now) }
    ensures memory { IfSome result (λ start. AreInMemory start layers.now) }
{
    let first = first_in_memory(layers);
    let cheap = cheap_start(layers, first);
    if layers.len() - first <= MOST_LAYERS {
        return cheap;
    }
    // With one layer in place of those from here on, just so many are left.
    let most = first + MOST_LAYERS - 1;
    match cheap {
        Some(start) => Some(start.min(most)),
        None => Some(most),
    }
}

/// A layer of the rows of these that live, of which there are some.
fn layer_of<C: JoinChunk>(alloc: Global, layers: &[Layer<C>]) -> Result<Layer<C>, NoMemory>
    requires of { AreOfOne (all_living layers.now) }
    requires apart { AreApart (all_living layers.now) }
    requires some { 0 < length (all_living layers.now) }
    ensures { IfOk result (λ layer. IsLayerOf (all_living layers.now) layer) }
{
    let chunk = C::join(alloc, layers)?;
    let chunk = Arc::new(alloc, chunk)?;
    let dead = Arc::new(alloc, Items::new(Vec::new(alloc)))?;
    Ok(Layer {
        chunk,
        disk: false,
        dead,
    })
}

/// One layer of the rows of these that live, where there are some.
fn merged<C: JoinChunk>(alloc: Global, layers: &[Layer<C>]) -> Result<Option<Layer<C>>, NoMemory>
    requires few { length layers.now < 2 ^ 16 }
    requires of { AreOfOne (all_living layers.now) }
    requires apart { AreApart (all_living layers.now) }
    ensures { IfOk result (IsMerged (all_living layers.now)) }
{
    if live_count(layers) == 0 {
        return Ok(None);
    }
    Ok(Some(layer_of(alloc, layers)?))
}

/// Puts a layer, or none, in the place of those from this one on.
fn replace_from<C: Chunk>(layers: &mut Vec<Layer<C>>, start: usize, layer: Option<Layer<C>>)
    requires { start < length layers.old.items }
    ensures { layers.new.items ≡ take start layers.old.items ++ option_list layer }
{
    match layer {
        Some(layer) => {
            layers[start] = layer;
            layers.truncate(start + 1);
        }
        None => layers.truncate(start),
    }
}

/// Puts the layers from this one on together. After an error all is as before.
fn merge_from<C: JoinChunk>(
    alloc: Global,
    snapshot: &mut Snapshot<C>,
    start: usize,
) -> Result<(), NoMemory>
    requires start { start < length snapshot.old.layers }
    requires memory { AreInMemory start snapshot.old.layers }
    requires of { AreOfOne (all_living snapshot.old.layers) }
    ensures ok { OnOk result (MayMerge snapshot.old snapshot.new) }
    ensures err { OnErr result (snapshot.new ≡ snapshot.old) }
    ensures sound { OnOk result (AreLayers snapshot.new.layers) }
{
    let layer = merged(alloc, &snapshot.layers.as_slice()[start..])?;
    let mut layers = mem::replace(&mut snapshot.layers, Items::new(Vec::new(alloc))).into_vec();
    replace_from(&mut layers, start, layer);
    snapshot.layers = Items::new(layers);
    Ok(())
}

/// Puts the last layers together while they are in memory and that is cheap by now. After an error what was put together before it
/// stays so, and all else is as before.
#[tactic(auto, using(crate::proofs::Again::merged_again, crate::proofs::Again::of_merged, crate::proofs::Upkeep::not_merged))]
pub fn merge_last<C: JoinChunk>(alloc: Global, snapshot: &mut Snapshot<C>) -> Result<(), NoMemory>
    requires of { AreOfOne (all_living snapshot.old.layers) }
    requires sound { AreLayers snapshot.old.layers }
    ensures merges { MayMerge snapshot.old snapshot.new }
    ensures sound { AreLayers snapshot.new.layers }
{
    let most = snapshot.layers.as_slice().len();
    for _ in 0..most {
        match merge_start(snapshot.layers.as_slice()) {
            Some(start) => merge_from(alloc, snapshot, start)?,
            None => return Ok(()),
        }
    }
    Ok(())
}
