//! What holds the documents that sessions ask for and change, as a trait. What a session replies is proved once, over any store.
ghost use Rattle.std.specs.Prelude.{◌≡◌, ◌<◌, ℕ, List, All, IfOk, OnErr, Some, length, slice_get};
ghost use Rattle.std.specs.Arc.{arc_value};
ghost use Rattle.doc_types.specs.Documents.{AreRowsOf};
ghost use Rattle.doc_types.specs.Schemas.{IsSchema};
ghost use Rattle.doc_types.specs.Transactions.{IsTxnOf};
ghost use Rattle.index_conf.specs.declared.conf.IndexConf.{IndexConf};
ghost use Rattle.ql_session.specs.Events.{Commit, Follows, NoMemory as OutOfMemory, Read, Reshape, StoreWords};

use commit_outcomes::CommitOutcome;
use doc_types::{HitLists, Snapshot, Txn};
use ql_answers::{Catalog, JobOutcome};
use srch_base::NoMemory;
use std::alloc::Global;
use std::sync::Arc;
use step_history::Job;

/// The indexes of a configuration with their documents, wherever these are held.
pub trait TableStore: Catalog {
    /// How the rows of a layer are held.
    type Chunk: HitLists;

    /// What is seen of an index at one moment.
    ghost Front: { Type 0 };

    /// What each call means.
    ghost words: { StoreWords Self Front };

    /// The documents of the index at a place below `count`, as they are now.
    fn front(&mut self, place: u16) -> Result<Arc<Snapshot<Self::Chunk>, Global>, NoMemory>
        requires { place < length (Self.confs self.old) }
        ensures reads { IfOk result (λ snapshot. (front : Front) × (arc_value snapshot ≡ words.documents front) × Follows Self.confs words self.old (Read place front) self.new) }
        ensures rows { IfOk result (λ snapshot. (conf : IndexConf) × (slice_get (Self.confs self.old) place ≡ Some conf) × IsSchema conf.schema × All (λ layer. AreRowsOf conf.schema layer.rows) (arc_value snapshot).layers) }
        ensures failed { OnErr result (Follows Self.confs words self.old OutOfMemory self.new) }
        ensures confs { Self.confs self.new ≡ Self.confs self.old };

    /// Commits a transaction to the index at a place. After want of memory nothing of it was done.
    fn commit(&mut self, alloc: Global, place: u16, txn: &Txn) -> Result<CommitOutcome, NoMemory>
        requires { (conf : IndexConf) × (slice_get (Self.confs self.old) place ≡ Some conf) × IsTxnOf conf.schema txn.now }
        ensures commits { IfOk result (λ outcome. (front : Front) × Follows Self.confs words self.old (Commit place txn.now.ops outcome front) self.new) }
        ensures failed { OnErr result (Follows Self.confs words self.old OutOfMemory self.new) }
        ensures confs { Self.confs self.new ≡ Self.confs self.old };

    /// Does a job over the index at a place, begun over its documents as they are now. After want of memory nothing of it was done.
    fn reshape(&mut self, alloc: Global, place: u16, job: Job) -> Result<JobOutcome, NoMemory>
        requires { place < length (Self.confs self.old) }
        ensures reshapes { IfOk result (λ outcome. (own : Front) × (front : Front) × Follows Self.confs words self.old (Reshape place job outcome own front) self.new) }
        ensures failed { OnErr result (Follows Self.confs words self.old OutOfMemory self.new) }
        ensures confs { Self.confs self.new ≡ Self.confs self.old };

    /// Nothing need be settled.
    ghost may_stay: { (store : Self) → words.settles store store };
}
