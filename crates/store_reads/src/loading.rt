//! The documents of chunks and logs: what logs have is laid over the layers of the chunks. A log is read and indexed in pieces, two at once, which are then laid in their order; so few of its rows are
//! documents at a time: these take five times the bytes that they have in the log, and the memory of those that have their layer serves
//! for the next ones.
ghost use Rattle.std.specs.Prelude.{◌≡◌, ◌<◌, ◌^◌, ◌++◌, ℕ, List, [], IfOk, OnOk, length};
ghost use Rattle.doc_types.specs.Schemas.{IsSchema};
ghost use Rattle.doc_types.specs.Snapshots.{AreLayers, LayerValue, all_living};
ghost use Rattle.doc_types.specs.declared.schema.Schema.{Schema as AnySchema};
ghost use Rattle.gate_log.specs.declared.records.LogRecord.{LogRecord};
ghost use Rattle.store_reads.specs.steps.Loads.{IsLoaded, IsOfBytes, IsSnapshotOf, TakesLog, bad_record, before_next, number_after};
ghost use Rattle.store_reads.specs.steps.Pieces.{AreChunks, AreShort, IsLaidOf, IsPiece, Lays};

use crate::fault::StoreFault;
use crate::laying::{lay, snapshot_with};
use crate::pieces::{Piece, piece_size, read_both};
use crate::reading::Source;
use doc_types::{Layer, Schema, Snapshot};
use gate_log::{Before, LogKind, RecordAt, read_records};
use image_chunk::AnyChunk;
use srch_base::NoMemory;
use std::alloc::Global;
use std::thread::Threads;
use store_steps::{Damage, DamageKind};

/// How many layers are made of a log at most. As many of one size don't become one with the next commit.
const PIECES: usize = 4;

/// The fewest bytes of records that get a layer of their own while more follow.
const LEAST_PIECE: usize = 1_048_576;

/// What was read of the logs so far.
#[derive(Drop)]
pub(crate) struct Loaded {
    /// The layers that were made.
    laid: Snapshot<AnyChunk>,
    /// The last commit that the chunks have.
    through: u64,
    /// The number of the last record.
    last: Option<u64>,
}

/// Where the records of a log end, and with which number.
#[derive(Clone, Copy)]
pub(crate) struct LogEnd {
    pub(crate) end: u64,
    pub(crate) last: Option<u64>,
}

impl Loaded {
    /// Nothing yet, over the layers of chunks that have all commits through this number.
    pub(crate) fn over(through: u64, chunks: Vec<Layer<AnyChunk>>) -> Result<Loaded, NoMemory>
        requires { length chunks.items < 2 ^ 16 → length (all_living chunks.items) < 2 ^ 32 → AreLayers chunks.items }
        ensures { IfOk result (λ loaded. (schema : AnySchema) → AreChunks schema through chunks.items → IsLoaded schema chunks.items through [] loaded) }
    {
        let laid = snapshot_with(through, chunks)?;
        Ok(Loaded {
            laid,
            through,
            last: None,
        })
    }

    /// What comes before the next record.
    fn before(&self) -> Before
        ensures { (schema : AnySchema) (chunks : List LayerValue) (through : ℕ) (front : List LogRecord) → IsLoaded schema chunks through front self.now → result ≡ before_next through front }
    {
        match self.last {
            Some(last) => Before::Record(last),
            None => Before::Chunks(self.through),
        }
    }

    /// The number of the last record, if there is one.
    pub(crate) fn last(&self) -> Option<u64>
        ensures { result ≡ self.now.last }
    {
        self.last
    }

    /// Takes the records of a log with these bytes.
    pub(crate) fn take_log<R: Threads>(
        &mut self,
        rt: &R,
        alloc: Global,
        schema: &Schema,
        file: u32,
        bytes: &[u8],
    ) -> Result<LogEnd, StoreFault>
        requires limits { IsSchema schema.now }
        requires loaded { (chunks : List LayerValue) × (through : ℕ) × (front : List LogRecord) × IsLoaded schema.now chunks through front self.old }
        ensures bytes { IsOfBytes result }
        ensures takes { (chunks : List LayerValue) (through : ℕ) (front : List LogRecord) → IsLoaded schema.now chunks through front self.old → TakesLog schema.now chunks through front file bytes.now result self.new }
    {
        let read = read_records(alloc, bytes, self.before())?;
        let piece = (bytes.len() / PIECES).max(LEAST_PIECE);
        let source = Source {
            schema,
            through: self.through,
            file,
        };
        match lay_records(rt, alloc, source, piece, &read.records, &mut self.laid) {
            Ok(()) => self.last = read.last.or(self.last),
            Err(fault) => return Err(fault),
        }
        match read.fault {
            Some(kind) => Err(StoreFault::Damaged(damage_of(file, read.end, kind))),
            None => Ok(LogEnd {
                end: read.end,
                last: read.last,
            }),
        }
    }

    /// The snapshot of all that was read.
    pub(crate) fn into_snapshot(self) -> Snapshot<AnyChunk>
        ensures { (schema : AnySchema) (chunks : List LayerValue) (through : ℕ) (front : List LogRecord) → IsLoaded schema chunks through front self → IsSnapshotOf schema chunks through front result }
    {
        let Loaded {
            laid,
            through,
            last,
        } = self;
        let mut snapshot = laid;
        snapshot.number = number_of(last, through);
        snapshot
    }
}

/// Lays records in pieces of just more than so many bytes, two of them at a time.
fn lay_records<R: Threads>(
    rt: &R,
    alloc: Global,
    source: Source<'_>,
    piece: usize,
    records: &[RecordAt<'_>],
    laid: &mut Snapshot<AnyChunk>,
) -> Result<(), StoreFault>
    requires limits { IsSchema source.schema.now }
    requires short { AreShort records.now }
    requires laid { (chunks : List LayerValue) × (front : List LogRecord) × IsLaidOf source.schema.now chunks source.through front laid.old }
    ensures { (chunks : List LayerValue) (front : List LogRecord) → IsLaidOf source.entry.schema.now chunks source.entry.through front laid.old → Lays source.entry.schema.now chunks source.entry.through front source.entry.file records.now result laid.new }
{
    if records.is_empty() {
        return Ok(());
    }
    let (first, others) = records.split_at(piece_size(records, piece));
    let (second, others) = others.split_at(piece_size(others, piece));
    match lay_two(rt, alloc, source, first, second, laid) {
        Ok(()) => lay_records(rt, alloc, source, piece, others, laid),
        Err(fault) => Err(fault),
    }
}

/// Lays the records of two pieces.
fn lay_two<R: Threads>(
    rt: &R,
    alloc: Global,
    source: Source<'_>,
    first: &[RecordAt<'_>],
    second: &[RecordAt<'_>],
    laid: &mut Snapshot<AnyChunk>,
) -> Result<(), StoreFault>
    requires limits { IsSchema source.schema.now }
    requires first { AreShort first.now }
    requires second { AreShort second.now }
    requires laid { (chunks : List LayerValue) × (front : List LogRecord) × IsLaidOf source.schema.now chunks source.through front laid.old }
    ensures { (chunks : List LayerValue) (front : List LogRecord) → IsLaidOf source.entry.schema.now chunks source.entry.through front laid.old → Lays source.entry.schema.now chunks source.entry.through front source.entry.file (first.now ++ second.now) result laid.new }
{
    let (first, second) = read_both(rt, alloc, source, first, second);
    match first {
        Ok(first) => match second {
            Ok(second) => match lay_both(alloc, first, second, laid) {
                Ok(()) => Ok(()),
                Err(NoMemory) => Err(StoreFault::NoMemory),
            },
            Err(fault) => Err(fault),
        },
        Err(fault) => Err(fault),
    }
}

/// Lays two pieces, one behind the other.
fn lay_both(
    alloc: Global,
    first: Piece,
    second: Piece,
    laid: &mut Snapshot<AnyChunk>,
) -> Result<(), NoMemory>
    requires { (schema : AnySchema) × IsSchema schema × ((chunks : List LayerValue) × (through : ℕ) × (front : List LogRecord) × (one : List LogRecord) × (two : List LogRecord) × IsLaidOf schema chunks through front laid.old × IsPiece schema through one first × IsPiece schema through two second) }
    ensures { OnOk result ((schema : AnySchema) (chunks : List LayerValue) (through : ℕ) (front one two : List LogRecord) → IsLaidOf schema chunks through front laid.old → IsPiece schema through one first → IsPiece schema through two second → IsLaidOf schema chunks through ((front ++ one) ++ two) laid.new) }
{
    *laid = lay(alloc, laid, first)?;
    *laid = lay(alloc, laid, second)?;
    Ok(())
}

/// The number of the last commit: that of the last record, or else the last one that the chunks have.
fn number_of(last: Option<u64>, through: u64) -> u64
    ensures { result ≡ number_after through last }
{
    match last {
        Some(last) => last,
        None => through,
    }
}

/// What is wrong with a log, among the damage of an index.
fn damage_of(file: u32, place: u64, kind: LogKind) -> Damage
    ensures { result ≡ bad_record file place kind }
{
    let kind = match kind {
        LogKind::Missing => DamageKind::LogMissing,
        LogKind::Length => DamageKind::RecordLength,
        LogKind::Number => DamageKind::RecordNumber,
    };
    Damage { file, place, kind }
}
