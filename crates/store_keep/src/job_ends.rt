//! How a job ends: its chunk takes its place in the last snapshot, the new files and the root are written, and the step is published.
//! Then the files go that no state names any more.
ghost use Rattle.std.specs.Prelude.{◌≡◌, ◌<◌, ◌≤◌, ◌+◌, ◌^◌, ◌==◌, None, Some, true, length, IfOk, OnErr, OnOk};
ghost use Rattle.std.specs.Arc.{arc_value};
ghost use Rattle.std.specs.List.{list_any};
ghost use Rattle.doc_types.specs.Chunks.{IsContent};
ghost use Rattle.job_chunks.specs.Chunks.{IsNewChunk, layer_in};
ghost use Rattle.job_files.specs.Jobs.{names};
ghost use Rattle.job_states.specs.States.{HasEndCause, HasSeen, TakesSome};
ghost use Rattle.reshape.specs.Builds.{IsNew, new_rows};
ghost use Rattle.reshape_laws.specs.Rebasing.{HasMoved, rebased};
ghost use Rattle.step_history.specs.History.{last_snapshot};
ghost use Rattle.store_steps.specs.Kept.{Gives, GivesEither, IsKept, LeavesOnly};
ghost use Rattle.store_keep.specs.Installs.{HasRoom, end_of, full_root, installed, shape_of};
ghost use Rattle.store_keep.specs.Keepers.{Keeps};
ghost use Rattle.store_keep.specs.steps.Endings.{IsEndPrepared, JobRefused};

use crate::install_fault::InstallFault;
use crate::kept::Kept;
use chunk_store::Disk;
use commit_outcomes::{Full, FullKind};
use doc_types::Snapshot;
use image_chunk::AnyChunk;
use job_chunks::{NewChunk, rows_fit};
use job_files::remove;
use job_states::{EndFault, finish};
use reshape::rebase;
use root_slots::{ChunkEntry, RootState};
use srch_base::NoMemory;
use std::alloc::Global;
use std::sync::Arc;
use step_book::{Made, Naming};
use store_steps::LAST_COMMIT;

/// The greatest number of a file.
pub const LAST_FILE: u32 = 4_294_967_288;

/// The greatest number of a root.
pub const LAST_ROOT: u64 = 1 << 63;

/// The end of a job that has all its memory but that of writing and publishing.
#[derive(Drop)]
pub(crate) struct PreparedEnd {
    /// The snapshot with the chunk in its place.
    pub(crate) next: Arc<Snapshot<AnyChunk>, Global>,
    /// The files of which some go then: those of the chunks, and the older log.
    pub(crate) old: Vec<u32>,
}

/// The snapshot with the chunk of a job in its place.
fn next_arc(
    alloc: Global,
    new: &NewChunk,
    now: &Snapshot<AnyChunk>,
) -> Result<Arc<Snapshot<AnyChunk>, Global>, NoMemory>
    requires content { IsContent new.now.rows }
    requires shape { now.now.shape + 1 < 2 ^ 64 }
    requires new { IsNew (layer_in new.now) }
    requires moved { HasMoved new.now.job new.now.from.number (new_rows (layer_in new.now)) now.now }
    ensures { IfOk result (λ next. arc_value next ≡ rebased new.now.job new.now.from.number (new_rows (layer_in new.now)) now.now) }
{
    let layer = new.layer(alloc)?;
    let from: &Snapshot<AnyChunk> = new.from();
    let next = rebase(alloc, new.job(), from.number, &layer, now)?;
    Ok(Arc::new(alloc, next)?)
}

/// The older log and the chunks of a state.
fn old_files(alloc: Global, state: &RootState) -> Result<Vec<u32>, NoMemory> {
    let mut files = Vec::new(alloc);
    files.push(state.older)?;
    for chunk in state.chunks.as_slice() {
        files.push(chunk.file)?;
    }
    Ok(files)
}

/// Whether one of the chunks has the file.
fn is_chunk(chunks: &[ChunkEntry], file: u32) -> bool
    ensures { result ≡ list_any (λ chunk. chunk.file == file) chunks.now }
{
    chunks.iter().any(|chunk| chunk.file == file)
}

/// Whether the state names the file.
fn names(state: &RootState, file: u32) -> bool
    ensures { result ≡ names state.now file }
{
    let older = state.older == file;
    let newer = state.newer == file;
    let chunk = is_chunk(state.chunks.as_slice(), file);
    older | newer | chunk
}

impl<D: Disk, J: Naming> Kept<D, J> {
    /// Whether the numbers of files or of roots have ended.
    fn root_full(&self) -> Option<Full>
        ensures { result ≡ full_root self.now.files }
    {
        let next = self.files.next_file;
        let what = FullKind::Root;
        if next > LAST_FILE - 2 {
            let at = u64::from(next);
            return Some(Full { what, at, need: 1 });
        }
        if self.files.root.full() {
            let at = self.files.root.number();
            return Some(Full { what, at, need: 1 });
        }
        None
    }

    /// Why a job doesn't end here, before anything is made for it.
    pub(crate) fn refusal(&self, new: &NewChunk) -> Option<InstallFault<J>>
        requires seen { HasSeen (J.base self.now.line.index) self.now.line.history new.now.from }
        ensures { JobRefused (J.base self.now.line.index) self.now.line self.now.files new.now result }
    {
        let from: &Snapshot<AnyChunk> = new.from();
        let now: &Snapshot<AnyChunk> = self.line.snapshot();
        let shape = now.shape;
        let note = self.line.note();
        if shape != from.shape {
            return Some(InstallFault::Overtaken { shape, note });
        }
        match self.root_full() {
            Some(full) => Some(InstallFault::Full(full)),
            None => None,
        }
    }

    /// All that the end of a job takes memory for before it writes. No history has so many steps, or a commit of so great a number,
    /// that there is no place for one more.
    pub(crate) fn prepare_end(&self, new: &NewChunk) -> Result<PreparedEnd, NoMemory>
        requires none { self.now.line.waiting ≡ None }
        requires rests { self.now.files.log.staged ≡ None }
        requires kept { Keeps D.Disk J.schema J.base self.now.disk self.now.files self.now.line }
        requires seen { HasSeen (J.base self.now.line.index) self.now.line.history new.now.from }
        requires same { shape_of (J.base self.now.line.index) self.now.line ≡ new.now.from.shape }
        requires chunk { IsNewChunk (J.schema self.now.line.index) new.now }
        ensures { IfOk result (IsEndPrepared (J.schema self.now.line.index) (J.base self.now.line.index) self.now.line new.now) }
    {
        if !self.has_place() {
            return Err(NoMemory);
        }
        let from: &Snapshot<AnyChunk> = new.from();
        let now: &Snapshot<AnyChunk> = self.line.snapshot();
        let _layers = now.layers.as_slice();
        let _from_layers = from.layers.as_slice();
        if from.number > LAST_COMMIT || now.shape >= LAST_COMMIT {
            return Err(NoMemory);
        }
        let old = old_files(self.alloc, &self.files.state)?;
        let next = next_arc(self.alloc, new, now)?;
        Ok(PreparedEnd { next, old })
    }

    /// Writes the end of a job, which waits from then on.
    pub(crate) fn write_end(
        &mut self,
        new: &NewChunk,
        next: &Snapshot<AnyChunk>,
    ) -> Result<(), EndFault>
        requires none { self.old.line.waiting ≡ None }
        requires rests { self.old.files.log.staged ≡ None }
        requires kept { Keeps D.Disk J.schema J.base self.old.disk self.old.files self.old.line }
        requires seen { HasSeen (J.base self.old.line.index) self.old.line.history new.now.from }
        requires room { HasRoom (J.base self.old.line.index) self.old.line self.old.files new.now }
        requires chunk { IsNewChunk (J.schema self.old.line.index) new.now }
        requires number { new.now.from.number < 2 ^ 63 }
        requires next { next.now ≡ installed (J.base self.old.line.index) self.old.line new.now }
        ensures line { self.new.line ≡ self.old.line }
        ensures ok { OnOk result (IsKept D.Disk (J.schema self.old.line.index) (J.base self.old.line.index) self.old.line.history (Some (end_of (J.base self.old.line.index) self.old.line new.now)) self.new.disk self.new.files) }
        ensures err { OnErr result (Keeps D.Disk J.schema J.base self.new.disk self.new.files self.new.line) }
        ensures sure { OnOk result (self.new.files.sure ≡ true) }
        ensures rests { self.new.files.log.staged ≡ None }
        ensures numbers { TakesSome self.old.files result self.new.files }
        ensures crash { LeavesOnly D.Disk self.old.disk self.new.disk (Gives (J.schema self.old.line.index) (J.base self.old.line.index) self.old.line.history) }
        ensures cause { HasEndCause (D.faults self.old.disk) (D.faults self.new.disk) result }
    {
        let from: &Snapshot<AnyChunk> = new.from();
        rows_fit(from.layers.as_slice());
        finish(
            self.alloc,
            &mut self.files,
            &mut self.disk,
            self.line.front(),
            new.job(),
            from,
            self.line.snapshot(),
            new.image(),
            next,
        )
    }

    /// Removes a file, unless the state names it.
    fn remove_unnamed(&mut self, waiting: &Option<Made<AnyChunk>>, file: u32)
        requires waiting { waiting.now ≡ self.old.line.waiting }
        requires sure { self.old.files.sure ≡ true }
        requires kept { Keeps D.Disk J.schema J.base self.old.disk self.old.files self.old.line }
        ensures line { self.new.line ≡ self.old.line }
        ensures files { self.new.files ≡ self.old.files }
        ensures kept { Keeps D.Disk J.schema J.base self.new.disk self.new.files self.new.line }
        ensures crash { LeavesOnly D.Disk self.old.disk self.new.disk (GivesEither (J.schema self.old.line.index) (J.base self.old.line.index) self.old.line.history self.old.line.waiting) }
        ensures later { D.faults self.old.disk ≤ D.faults self.new.disk }
    {
        if file < 2 || names(&self.files.state, file) {
            return;
        }
        remove(
            &mut self.files,
            &mut self.disk,
            self.line.front(),
            waiting,
            file,
        );
    }

    /// Removes those of the files that the state doesn't name. Whether that succeeds doesn't matter.
    pub(crate) fn remove_all(&mut self, waiting: &Option<Made<AnyChunk>>, old: &[u32])
        requires waiting { waiting.now ≡ self.old.line.waiting }
        requires sure { self.old.files.sure ≡ true }
        requires kept { Keeps D.Disk J.schema J.base self.old.disk self.old.files self.old.line }
        ensures line { self.new.line ≡ self.old.line }
        ensures files { self.new.files ≡ self.old.files }
        ensures kept { Keeps D.Disk J.schema J.base self.new.disk self.new.files self.new.line }
        ensures crash { LeavesOnly D.Disk self.old.disk self.new.disk (GivesEither (J.schema self.old.line.index) (J.base self.old.line.index) self.old.line.history self.old.line.waiting) }
        ensures later { D.faults self.old.disk ≤ D.faults self.new.disk }
    {
        if let Some((file, others)) = old.split_first() {
            self.remove_unnamed(waiting, *file);
            self.remove_all(waiting, others);
        }
    }
}
