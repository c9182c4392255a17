//! What a commit makes before it writes: all its memory but that of publishing.
ghost use Rattle.std.specs.Prelude.{◌≡◌, ◌+◌, ◌<◌, ◌≤◌, ◌^◌, None, length, map, IfOk, IsTrue};
ghost use Rattle.std.specs.FinMap as finite;
ghost use Rattle.std.specs.List.{list_any};
ghost use Rattle.doc_bytes.specs.Payload.{payload};
ghost use Rattle.doc_types.specs.Commits.{change_of};
ghost use Rattle.doc_types.specs.Schemas.{IsSchema};
ghost use Rattle.doc_types.specs.Transactions.{IsTxnOf};
ghost use Rattle.doc_types.specs.declared.schema.Schema.{Schema};
ghost use Rattle.commit_outcomes.specs.Outcomes.{IsFull, changed};
ghost use Rattle.commit_outcomes.specs.declared.outcome.TheConstants.{MAX_DOCUMENTS};
ghost use Rattle.doc_types.specs.Snapshots.{AreLayers, all_living};
ghost use Rattle.layer_commit.specs.Commits.{Applies};
ghost use Rattle.layer_joins.specs.Joins.{AreOfOne, MayMerge};
ghost use Rattle.step_history.specs.History.{IsGood, last_snapshot};
ghost use Rattle.step_history.specs.Logs.{log_at};
ghost use Rattle.store_steps.specs.Refusals.{full_numbers, full_of, is_put, most_log};
ghost use Rattle.store_keep.specs.Commits.{Refuses};
ghost use Rattle.store_keep.specs.Keepers.{Keeps};
ghost use Rattle.store_keep.specs.steps.Limits.{full_log};
ghost use Rattle.store_keep.specs.steps.Stages.{IsPrepared, Prepares};

use crate::fault::CommitFault;
use crate::kept::Kept;
use crate::numbers::numbers_fit;
use chunk_store::Disk;
use commit_outcomes::{Full, FullKind, MAX_DOCUMENTS};
use doc_bytes::put_txn;
use doc_types::{Snapshot, Txn, TxnOp, txn_bytes};
use gate_log::Staged;
use image_chunk::AnyChunk;
use layer_commit::{Refusal, commit};
use srch_base::{NoMemory, Or};
use std::alloc::Global;
use std::sync::Arc;
use step_book::{Made, Naming};
use step_line::Pending;
use store_reads::upkept;
use store_steps::{LAST_COMMIT, MOST_LOG, MOST_LOG_BY_REMOVALS};

/// A commit that has all its memory: its record, and the step that it makes.
#[derive(Drop)]
pub(crate) struct Prepared<J: Naming> {
    pub(crate) staged: Staged,
    pub(crate) pending: Pending<J>,
    pub(crate) number: u64,
    pub(crate) removed: u32,
}

/// Whether an operation puts a document.
fn is_put(op: &TxnOp) -> bool
    ensures { result ≡ is_put (change_of op.now) }
{
    match op {
        TxnOp::Insert(_) | TxnOp::Put(_) => true,
        TxnOp::Kill(_) | TxnOp::Clear => false,
    }
}

/// Whether one of the operations does.
fn puts_any(ops: &[TxnOp]) -> bool
    ensures { result ≡ list_any (λ op. is_put (change_of op)) ops.now }
{
    ops.iter().any(|op| is_put(op))
}

/// The place of the log's closed gate at most, behind the record of a transaction.
fn most_log(txn: &Txn) -> u64
    ensures { result ≡ most_log (map change_of txn.now.ops) }
{
    if puts_any(txn.ops.as_slice()) {
        MOST_LOG
    } else {
        MOST_LOG_BY_REMOVALS
    }
}

/// The record of a transaction.
fn record_of(alloc: Global, number: u64, txn: &Txn) -> Result<Staged, NoMemory>
    requires of { (schema : Schema) × IsSchema schema × IsTxnOf schema txn.now }
    requires short { length (payload txn.now) < 2 ^ 32 }
    ensures { IfOk result (λ staged. staged ≡ record { number = number; payload = payload txn.now }) }
{
    let mut bytes = Vec::new(alloc);
    put_txn(txn, &mut bytes)?;
    Staged::new(alloc, number, &bytes)
}

impl<D: Disk, J: Naming> Kept<D, J> {
    /// Whether the log has no room for the record of a transaction. No memory holds a transaction whose length can't be counted.
    fn log_full(&self, txn: &Txn) -> Result<Option<Full>, NoMemory>
        requires end { self.now.files.log.end ≡ log_at (J.base self.now.line.index) self.now.line.history }
        ensures { IfOk result (λ full. full ≡ full_log (J.base self.now.line.index) self.now.line.history (map change_of txn.now.ops)) }
    {
        let at = self.files.log.end();
        let need = txn_bytes(txn).checked_add(13).ok_or(NoMemory)?;
        if at.saturating_add(need) <= most_log(txn) {
            return Ok(None);
        }
        let what = FullKind::Log;
        Ok(Some(Full { what, at, need }))
    }

    /// Whether the numbers of commits have ended.
    fn numbers_full(&self) -> Option<Full>
        ensures { result ≡ full_numbers (last_snapshot (J.base self.now.line.index) self.now.line.history) }
    {
        let at = self.line.snapshot().number;
        if at < LAST_COMMIT {
            return None;
        }
        let what = FullKind::Numbers;
        Some(Full { what, at, need: 1 })
    }

    /// The limit that a commit of a transaction would pass, where there aren't too many documents.
    fn full(&self, txn: &Txn) -> Result<Option<Full>, NoMemory>
        requires end { self.now.files.log.end ≡ log_at (J.base self.now.line.index) self.now.line.history }
        requires few { finite.len (changed (last_snapshot (J.base self.now.line.index) self.now.line.history) (map change_of txn.now.ops)) ≤ MAX_DOCUMENTS }
        ensures { IfOk result (λ full. full ≡ full_of (J.base self.now.line.index) self.now.line.history (map change_of txn.now.ops)) }
    {
        match self.log_full(txn)? {
            Some(full) => Ok(Some(full)),
            None => Ok(self.numbers_full()),
        }
    }

    /// Whether the history has a place for one more step. No number of a commit is so great that it hasn't.
    pub(crate) fn has_place(&self) -> bool
        ensures place { IsTrue result → length self.now.line.history + 1 < 2 ^ 63 }
        ensures good { IsGood (J.schema self.now.line.index) (J.base self.now.line.index) self.now.line.history }
    {
        self.line.front().len() < LAST_COMMIT - 1
    }

    /// Writes the record of a commit, and makes its step.
    fn write(
        &self,
        worker: u32,
        txn: &Txn,
        next: Snapshot<AnyChunk>,
        removed: u32,
    ) -> Result<Prepared<J>, NoMemory>
        requires none { self.now.line.waiting ≡ None }
        requires worker { (0 < worker) × (worker ≤ self.now.line.workers) }
        requires of { IsSchema (J.schema self.now.line.index) × IsTxnOf (J.schema self.now.line.index) txn.now }
        requires applies { Applies MAX_DOCUMENTS txn.now.ops (last_snapshot (J.base self.now.line.index) self.now.line.history) removed next }
        requires room { full_of (J.base self.now.line.index) self.now.line.history (map change_of txn.now.ops) ≡ None }
        ensures { IfOk result (λ prepared. IsPrepared (J.schema self.now.line.index) (J.base self.now.line.index) self.now.line worker txn.now.ops prepared) }
    {
        if !self.has_place() {
            return Err(NoMemory);
        }
        numbers_fit(txn);
        let next = upkept(self.alloc, next);
        let number = next.number;
        let seq = self.line.count(worker).checked_add(1).ok_or(NoMemory)?;
        let staged = record_of(self.alloc, number, txn)?;
        let made = Made::commit(worker, seq, number, txn, &next);
        let next = Arc::new(self.alloc, next)?;
        let pending = Pending::new(self.line.front(), made, next);
        Ok(Prepared {
            staged,
            pending,
            number,
            removed,
        })
    }

    /// Prepares a commit that was accepted, and for whose documents there is room.
    fn prepare_next(
        &self,
        worker: u32,
        txn: &Txn,
        next: Snapshot<AnyChunk>,
        removed: u32,
    ) -> Result<Prepared<J>, CommitFault<J>>
        requires none { self.now.line.waiting ≡ None }
        requires end { self.now.files.log.end ≡ log_at (J.base self.now.line.index) self.now.line.history }
        requires worker { (0 < worker) × (worker ≤ self.now.line.workers) }
        requires of { IsSchema (J.schema self.now.line.index) × IsTxnOf (J.schema self.now.line.index) txn.now }
        requires applies { Applies MAX_DOCUMENTS txn.now.ops (last_snapshot (J.base self.now.line.index) self.now.line.history) removed next }
        ensures { Prepares (J.schema self.now.line.index) (J.base self.now.line.index) self.now.line worker txn.now.ops result }
    {
        match self.full(txn) {
            Ok(None) => match self.write(worker, txn, next, removed) {
                Ok(prepared) => Ok(prepared),
                Err(NoMemory) => Err(CommitFault::NoMemory),
            },
            Ok(Some(full)) => Err(CommitFault::Full {
                full,
                note: self.line.note(),
            }),
            Err(NoMemory) => Err(CommitFault::NoMemory),
        }
    }

    /// Refuses a commit that was accepted, after which there would be too many documents.
    fn refuse(&self, txn: &Txn, full: Full) -> CommitFault<J>
        requires end { self.now.files.log.end ≡ log_at (J.base self.now.line.index) self.now.line.history }
        requires full { IsFull MAX_DOCUMENTS txn.now.ops (last_snapshot (J.base self.now.line.index) self.now.line.history) full }
        ensures { Refuses (J.base self.now.line.index) self.now.line txn.now.ops result }
    {
        let note = self.line.note();
        match self.log_full(txn) {
            Ok(Some(full)) => CommitFault::Full { full, note },
            Ok(None) => CommitFault::Full { full, note },
            Err(NoMemory) => CommitFault::NoMemory,
        }
    }

    /// Tries the operations of a transaction, and makes what it commits.
    pub(crate) fn prepare(&self, worker: u32, txn: &Txn) -> Result<Prepared<J>, CommitFault<J>>
        requires none { self.now.line.waiting ≡ None }
        requires rests { self.now.files.log.staged ≡ None }
        requires worker { (0 < worker) × (worker ≤ self.now.line.workers) }
        requires of { IsSchema (J.schema self.now.line.index) × IsTxnOf (J.schema self.now.line.index) txn.now }
        requires kept { Keeps D.Disk J.schema J.base self.now.disk self.now.files self.now.line }
        ensures { Prepares (J.schema self.now.line.index) (J.base self.now.line.index) self.now.line worker txn.now.ops result }
    {
        match commit::<AnyChunk>(self.alloc, self.line.snapshot(), txn, MAX_DOCUMENTS) {
            Ok((next, removed)) => self.prepare_next(worker, txn, next, removed),
            Err(Or::NoMemory) => Err(CommitFault::NoMemory),
            Err(Or::Fault(Refusal::Duplicate { id })) => Err(CommitFault::Duplicate {
                id,
                note: self.line.note(),
            }),
            Err(Or::Fault(Refusal::Full(full))) => Err(self.refuse(txn, full)),
        }
    }
}
