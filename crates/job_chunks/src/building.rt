//! How a job makes its chunk, while commits go on: it has neither the index's lock nor its disk.
ghost use Rattle.std.specs.Prelude.{◌≡◌, IfOk};
ghost use Rattle.std.specs.Arc.{arc_value};
ghost use Rattle.doc_types.specs.Schemas.{IsSchema};
ghost use Rattle.doc_types.specs.declared.schema.Schema.{Schema as AnySchema};
ghost use Rattle.step_history.specs.History.{AreOf};
ghost use Rattle.job_chunks.specs.Limits.{Builds};
ghost use Rattle.job_chunks.specs.steps.Making.{Takes, chunk_by};

use crate::limits::staying_of;
use crate::making::{Made, made_of};
use crate::new_chunk::NewChunk;
use commit_outcomes::Full;
use doc_types::Snapshot;
use image_chunk::AnyChunk;
use reshape::plan;
use srch_base::{NoMemory, Or};
use std::alloc::Global;
use std::sync::Arc;
use step_history::Job;

/// What became of the rows of a snapshot that a job takes.
fn made(alloc: Global, snapshot: &Snapshot<AnyChunk>, job: Job) -> Result<Made, NoMemory>
    requires { (schema : AnySchema) × IsSchema schema × AreOf schema snapshot.now }
    ensures { IfOk result (Takes job snapshot.now) }
{
    let layers = plan(alloc, snapshot, job)?;
    let staying = staying_of(snapshot.layers.as_slice(), job)?;
    made_of(alloc, layers.as_slice(), staying)
}

/// The chunk as a job hands it on.
fn handed(
    alloc: Global,
    snapshot: &Arc<Snapshot<AnyChunk>, Global>,
    job: Job,
    chunk: Option<AnyChunk>,
) -> Result<NewChunk, NoMemory>
    ensures { IfOk result (λ new. new ≡ chunk_by job (arc_value snapshot.now) chunk) }
{
    let from = Arc::try_clone(snapshot)?;
    match chunk {
        Some(chunk) => Ok(NewChunk::new(job, from, Some(Arc::new(alloc, chunk)?))),
        None => Ok(NewChunk::new(job, from, None)),
    }
}

impl NewChunk {
    /// The chunk that a job makes of a snapshot, unless an index has no room for it beside those that the job leaves. It is none where
    /// no row lives that the job takes.
    ///
    /// This takes long: it goes over all words of the layers that the job takes. Beside the new image it takes memory for the parts
    /// of it once more.
    pub fn build(
        alloc: Global,
        snapshot: &Arc<Snapshot<AnyChunk>, Global>,
        job: Job,
    ) -> Result<NewChunk, Or<Full>>
        requires { (schema : AnySchema) × IsSchema schema × AreOf schema (arc_value snapshot.now) }
        ensures { Builds job (arc_value snapshot.now) result }
    {
        match made(alloc, snapshot, job) {
            Ok(Made::Chunk(chunk)) => match handed(alloc, snapshot, job, chunk) {
                Ok(new) => Ok(new),
                Err(NoMemory) => Err(Or::NoMemory),
            },
            Ok(Made::Full(full)) => Err(Or::Fault(full)),
            Err(NoMemory) => Err(Or::NoMemory),
        }
    }
}
