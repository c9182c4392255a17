//! The root's state at the end of a job.
ghost use Rattle.std.specs.Prelude.{◌≡◌, ◌<◌, ◌+◌, ◌^◌, ◌++◌, [], ◌∷◌, IfOk, IfSome, OnOk, length};
ghost use Rattle.std.specs.List.{filter};
ghost use Rattle.std.specs.Option.{option_copied};
ghost use Rattle.job_files.specs.Jobs.{log_file};
ghost use Rattle.job_states.specs.States.{job_state, kept_entries, new_entries, with_dead};

use doc_types::{Chunk, Layer, Snapshot};
use job_files::log_file;
use root_slots::{ChunkEntry, RootState};
use srch_base::{Items, NoMemory, Text};
use std::alloc::Global;
use step_history::Job;

/// A chunk's entry with the dead rows of its layer.
fn entry_of<C: Chunk>(
    alloc: Global,
    entry: &ChunkEntry,
    layer: &Layer<C>,
) -> Result<ChunkEntry, NoMemory>
    ensures { IfOk result (λ made. made ≡ record { file = entry.now.file; length = entry.now.length; dead = layer.now.dead }) }
{
    let mut dead = Vec::new(alloc);
    dead.extend_from_slice(layer.dead.as_slice())?;
    Ok(ChunkEntry {
        file: entry.file,
        length: entry.length,
        dead: Items::new(dead),
    })
}

/// Appends the entries of the layers that are on the disk.
#[tactic(auto, using(crate::proofs::Pushing::none_kept))]
fn push_kept<C: Chunk>(
    alloc: Global,
    entries: &[ChunkEntry],
    layers: &[Layer<C>],
    out: &mut Vec<ChunkEntry>,
) -> Result<(), NoMemory>
    ensures { OnOk result (out.new.items ≡ out.old.items ++ with_dead entries.now (filter (λ layer. layer.disk) layers.now)) }
{
    match layers.split_first() {
        None => Ok(()),
        Some((layer, layers)) => {
            if !layer.disk {
                return push_kept(alloc, entries, layers, out);
            }
            match entries.split_first() {
                None => Ok(()),
                Some((entry, entries)) => {
                    out.push(entry_of(alloc, entry, layer)?)?;
                    push_kept(alloc, entries, layers, out)
                }
            }
        }
    }
}

/// Appends the entry of the new chunk.
fn push_new(
    alloc: Global,
    file: u32,
    chunk: Option<&[u8]>,
    out: &mut Vec<ChunkEntry>,
) -> Result<(), NoMemory>
    requires small { IfSome (option_copied chunk) (λ bytes. length bytes < 2 ^ 32) }
    ensures { OnOk result (out.new.items ≡ out.old.items ++ new_entries file (option_copied chunk.entry)) }
{
    match chunk {
        None => Ok(()),
        Some(bytes) => {
            out.push(ChunkEntry {
                file,
                length: bytes.len() as u32,
                dead: Items::new(Vec::new(alloc)),
            })?;
            Ok(())
        }
    }
}

/// The chunks that stay.
fn kept_chunks<C: Chunk>(
    alloc: Global,
    own: &RootState,
    job: Job,
    then: &Snapshot<C>,
) -> Result<Vec<ChunkEntry>, NoMemory>
    ensures { IfOk result (λ chunks. chunks.items ≡ kept_entries job own.now.chunks then.now) }
{
    let mut chunks = Vec::new(alloc);
    match job {
        Job::Flush => push_kept(
            alloc,
            own.chunks.as_slice(),
            then.layers.as_slice(),
            &mut chunks,
        )?,
        Job::Optimize => {}
    }
    Ok(chunks)
}

/// The state that follows this one.
pub fn state_of<C: Chunk>(
    alloc: Global,
    own: &RootState,
    job: Job,
    then: &Snapshot<C>,
    file: u32,
    chunk: Option<&[u8]>,
) -> Result<RootState, NoMemory>
    requires room { file + 2 < 2 ^ 32 }
    requires small { IfSome (option_copied chunk) (λ bytes. length bytes < 2 ^ 32) }
    ensures { IfOk result (λ state. state ≡ job_state own.now job then.now file (option_copied chunk.entry)) }
{
    let mut chunks = kept_chunks(alloc, own, job, then)?;
    push_new(alloc, file, chunk, &mut chunks)?;
    let mut text = Vec::new(alloc);
    text.extend_from_slice(own.schema_text.as_bytes())?;
    let newer = log_file(file, chunk);
    Ok(RootState {
        schema_text: Text::new(text),
        through: then.number,
        next_file: newer + 1,
        older: own.newer,
        newer,
        chunks: Items::new(chunks),
    })
}
