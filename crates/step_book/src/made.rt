//! A step as a call tells it to the line: what was committed or which job ended, and the snapshot after it.
ghost use Rattle.std.specs.Prelude.{◌≡◌};
ghost use Rattle.step_history.specs.History.{Commit, Reshape};
ghost use Rattle.step_book.specs.Tellings.{entry_of, worker_of};

use doc_types::{Chunk, Snapshot, Txn};
use std::marker::Model;
use std::snapshot;
use step_history::Job;

/// The type of the line's entries, which contracts see as steps. No value of it is made, since the line stands in proofs alone.
pub struct Mark {
    number: u64,
}

impl Model for Mark {
    ghost use Rattle.step_history.specs.History.{Step};
    ghost use Rattle.step_book.specs.Tellings.{no_step};

    ghost Value = { Step };

    ghost view = { λ mark. no_step };
}

/// What a commit or a job did. Transaction and snapshot are there for proofs alone, and take no bytes.
#[derive(Drop)]
pub enum Told<C: Chunk> {
    Commit {
        worker: u32,
        seq: u64,
        number: u64,
        txn: snapshot::Snapshot<Txn>,
        after: snapshot::Snapshot<Snapshot<C>>,
    },
    Reshape {
        job: Job,
        through: u64,
        after: snapshot::Snapshot<Snapshot<C>>,
    },
}

/// A step that a commit or a job made. Contracts see it as the step.
#[derive(Drop)]
pub struct Made<C: Chunk> {
    told: Told<C>,
}

impl<C: Chunk> Model for Made<C> {
    ghost use Rattle.step_history.specs.History.{Step};
    ghost use Rattle.step_book.specs.Tellings.{step_of};

    ghost Value = { Step };

    ghost view = { λ made. step_of made.told };
}

impl<C: Chunk> Made<C> {
    /// The commit of a transaction, which is the worker's `seq`th and the index's `number`th.
    pub fn commit(worker: u32, seq: u64, number: u64, txn: &Txn, after: &Snapshot<C>) -> Made<C>
        ensures { result ≡ Commit (entry_of worker seq number txn.now) after.now }
    {
        Made {
            told: Told::Commit {
                worker,
                seq,
                number,
                txn: snapshot::Snapshot::of(txn),
                after: snapshot::Snapshot::of(after),
            },
        }
    }

    /// The end of a job that began over the snapshot of the number `through`.
    pub fn reshape(job: Job, through: u64, after: &Snapshot<C>) -> Made<C>
        ensures { result ≡ Reshape job through after.now }
    {
        Made {
            told: Told::Reshape {
                job,
                through,
                after: snapshot::Snapshot::of(after),
            },
        }
    }
    /// The worker whose commit it is. None where it is the end of a job.
    pub fn worker(&self) -> Option<u32>
        ensures { result ≡ worker_of self.now }
    {
        match &self.told {
            Told::Commit { worker, .. } => Some(*worker),
            Told::Reshape { .. } => None,
        }
    }
}
