//! What a store has that was opened, and how it is given up again where no keeper is made of it.
ghost use Rattle.std.specs.Prelude.{◌≡◌, length};
ghost use Rattle.std.specs.Arc.{arc_value};
ghost use Rattle.std.specs.FinMap as finite;
ghost use Rattle.doc_types.specs.Snapshots.{live};
ghost use Rattle.step_history.specs.Places.{disk_chunks};

use crate::opening::Opened;
use chunk_store::Disk;
use doc_types::Snapshot;
use image_chunk::AnyChunk;

impl<D: Disk> Opened<D> {
    /// How many documents live.
    pub fn documents(&self) -> u32
        ensures { result ≡ finite.len (live (arc_value self.now.snapshot)) }
    {
        let snapshot: &Snapshot<AnyChunk> = &self.snapshot;
        snapshot.live_count()
    }

    /// How many chunks are on the disk.
    pub fn disk_chunks(&self) -> u32
        ensures { result ≡ length (disk_chunks (arc_value self.now.snapshot)) }
    {
        let snapshot: &Snapshot<AnyChunk> = &self.snapshot;
        snapshot.disk_chunks()
    }

    /// How many records of the log were read that no chunk has.
    pub fn records(&self) -> u64
        ensures { result ≡ self.now.records }
    {
        self.records
    }

    /// Gives the disk back, as opening left it.
    pub fn into_disk(self) -> D
        ensures { result ≡ self.disk }
    {
        let Opened {
            disk,
            files: _files,
            book: _book,
            faults: _faults,
            stops: _stops,
            snapshot: _snapshot,
            records: _records,
            documents: _documents,
        } = self;
        disk
    }
}
