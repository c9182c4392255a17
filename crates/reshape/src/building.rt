//! How a job makes its chunk: the layers that it takes are put together by their bytes, and rows that are dead are left out.
ghost use Rattle.std.specs.Prelude.{◌<◌, ◌^◌, IfOk, length};
ghost use Rattle.doc_types.specs.Snapshots.{all_living};
ghost use Rattle.layer_joins.specs.Joins.{AreApart, AreOfOne};
ghost use Rattle.reshape.specs.Builds.{IsBuilt, IsImage};

use crate::planning::plan;
use doc_types::{Layer, Snapshot};
use image_join::{CopyBytes, join};
use layer_commit::live_count;
use srch_base::NoMemory;
use std::alloc::Global;
use step_history::Job;

/// The image of the rows of the layers that live, None where none does.
fn image_of<C: CopyBytes>(alloc: Global, layers: &[Layer<C>]) -> Result<Option<Vec<u8>>, NoMemory>
    requires few { length layers.now < 2 ^ 16 }
    requires of { AreOfOne (all_living layers.now) }
    requires apart { AreApart (all_living layers.now) }
    ensures { IfOk result (IsImage (all_living layers.now)) }
{
    if live_count(layers) == 0 {
        return Ok(None);
    }
    Ok(Some(join(alloc, layers)?))
}

/// The image of the chunk that a job makes of a snapshot, None where no row lives that it takes. Its rows are documents of one schema.
pub fn build<C: CopyBytes>(
    alloc: Global,
    snapshot: &Snapshot<C>,
    job: Job,
) -> Result<Option<Vec<u8>>, NoMemory>
    requires of { AreOfOne (all_living snapshot.now.layers) }
    ensures { IfOk result (IsBuilt job snapshot.now) }
{
    let layers = plan(alloc, snapshot, job)?;
    image_of(alloc, layers.as_slice())
}
