//! What a job hands to the index once it is done with the long part of its work.
ghost use Rattle.std.specs.Prelude.{◌≡◌, [], true, IfOk};
ghost use Rattle.std.specs.Arc.{arc_value};
ghost use Rattle.std.specs.Option.{option_copied};
ghost use Rattle.doc_types.specs.Chunks.{IsContent};
ghost use Rattle.job_chunks.specs.Chunks.{image_of, layer_in, rows_of};

use doc_types::{Layer, Snapshot};
use image_chunk::AnyChunk;
use srch_base::{Items, NoMemory};
use std::alloc::Global;
use std::marker::Model;
use std::sync::Arc;
use step_history::Job;

/// The chunk that a job made of a snapshot, or none where no row lived that it takes. The snapshot is kept, since the chunks that stay
/// and their dead rows are written as they were then.
#[derive(Drop)]
pub struct NewChunk {
    job: Job,
    from: Arc<Snapshot<AnyChunk>, Global>,
    chunk: Option<Arc<AnyChunk, Global>>,
}

impl Model for NewChunk {
    ghost use Rattle.std.specs.Arc.{arc_value};
    ghost use Rattle.job_chunks.specs.Chunks.{NewChunkValue, image_of, rows_of};

    ghost Value = { NewChunkValue };

    ghost view = { λ n. record { job = n.job; from = arc_value n.from; rows = rows_of n.chunk; image = image_of n.chunk } };
}

impl NewChunk {
    /// What a job made.
    pub(crate) fn new(
        job: Job,
        from: Arc<Snapshot<AnyChunk>, Global>,
        chunk: Option<Arc<AnyChunk, Global>>,
    ) -> NewChunk
        ensures { result ≡ record { job = job; from = arc_value from; rows = rows_of chunk; image = image_of chunk } }
    {
        NewChunk { job, from, chunk }
    }

    /// What the job does.
    pub fn job(&self) -> Job
        ensures { result ≡ self.now.job }
    {
        self.job
    }

    /// The snapshot over which the job began.
    pub fn from(&self) -> &Arc<Snapshot<AnyChunk>, Global>
        ensures { arc_value result.now ≡ self.now.from }
    {
        &self.from
    }

    /// The bytes of the chunk.
    pub fn image(&self) -> Option<&[u8]>
        ensures { option_copied result ≡ self.now.image }
    {
        match &self.chunk {
            None => None,
            Some(chunk) => Some(chunk.as_bytes()),
        }
    }

    /// The chunk as a layer on the disk, of which no row is dead.
    pub fn layer(&self, alloc: Global) -> Result<Option<Layer<AnyChunk>>, NoMemory>
        requires { IsContent self.now.rows }
        ensures { IfOk result (λ layer. layer ≡ layer_in self.now) }
    {
        match &self.chunk {
            None => Ok(None),
            Some(chunk) => Ok(Some(layer_over(alloc, Arc::try_clone(chunk)?)?)),
        }
    }
}

/// The layer of a chunk in which all rows live.
fn layer_over(alloc: Global, chunk: Arc<AnyChunk, Global>) -> Result<Layer<AnyChunk>, NoMemory>
    requires { IsContent (arc_value chunk).image.0.0 }
    ensures { IfOk result (λ layer. layer ≡ record { rows = (arc_value chunk).image.0.0; disk = true; dead = [] }) }
{
    let dead = Arc::new(alloc, Items::new(Vec::new(alloc)))?;
    Ok(Layer {
        chunk,
        disk: true,
        dead,
    })
}
