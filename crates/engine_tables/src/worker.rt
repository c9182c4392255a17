//! One worker's view of all indexes, over which its sessions run.
ghost use Rattle.std.specs.Prelude.{◌≡◌};
ghost use Rattle.engine_tables.specs.Tokens.{SitsAt};

use crate::{Engines, Tokens};
use chunk_store::Disk;
use commit_outcomes::CommitOutcome;
use doc_types::{Snapshot, Txn};
use image_chunk::AnyChunk;
use index_conf::IndexConf;
use ql_answers::Catalog;
use ql_session::{JobOutcome, TableStore};
use srch_base::NoMemory;
use std::alloc::Global;
use std::marker::Model;
use std::sync::{Arc, Wait};
use step_book::Naming;
use step_history::Job;

/// The engines that all workers share, with one worker's tokens. Contracts see how the indexes are configured, and the tokens. The
/// handle is what commits and the ends of jobs wait by: reads need none.
pub struct WorkerTables<'a, D: Disk, J: Naming, R: Wait> {
    rt: &'a R,
    engines: &'a Engines<D, J>,
    tokens: Tokens<J>,
}

impl<'a, D: Disk, J: Naming, R: Wait> Model for WorkerTables<'a, D, J, R> {
    ghost use Rattle.engine_tables.specs.Tokens.{SitsAt};
    ghost use Rattle.engine_tables.specs.Workers.{WorkerValue};

    ghost Value = { WorkerValue };

    ghost view = { λ w. record { confs = w.engines.now.confs; tokens = w.tokens } };

    ghost invariant = { λ w. SitsAt w.engines.now w.tokens };
}

impl<'a, D: Disk, J: Naming, R: Wait> WorkerTables<'a, D, J, R> {
    /// A worker's view of these engines.
    pub fn over(
        rt: &'a R,
        engines: &'a Engines<D, J>,
        tokens: Tokens<J>,
    ) -> WorkerTables<'a, D, J, R>
        requires { SitsAt engines.now tokens }
        ensures { result ≡ record { confs = engines.now.confs; tokens = tokens } }
    {
        WorkerTables {
            rt,
            engines,
            tokens,
        }
    }

    /// The tokens, once its sessions have ended.
    pub fn into_tokens(self) -> Tokens<J>
        ensures { result ≡ self.entry.tokens }
    {
        let WorkerTables {
            rt: _rt,
            engines: _engines,
            tokens,
        } = self;
        tokens
    }
}

impl<'a, D: Disk, J: Naming, R: Wait> Catalog for WorkerTables<'a, D, J, R> {
    ghost confs = { λ worker. worker.confs };

    fn count(&self) -> u16 {
        let engines = self.engines;
        engines.count()
    }

    fn conf(&self, index: u16) -> &IndexConf {
        let engines = self.engines;
        engines.conf(index)
    }
}

impl<'a, D: Disk, J: Naming, R: Wait> TableStore for WorkerTables<'a, D, J, R> {
    ghost use Rattle.step_book.specs.Fronts.{FrontValue};
    ghost use Rattle.engine_tables.specs.Workers.{by_tokens};
    ghost use Rattle.engine_tables.specs.steps.Staying.{stays};

    type Chunk = AnyChunk;

    ghost Front = { FrontValue };

    ghost words = { by_tokens J.schema J.base };

    ghost may_stay = { stays };

    fn front(&mut self, place: u16) -> Result<Arc<Snapshot<AnyChunk>, Global>, NoMemory> {
        let engines = self.engines;
        let _conf = engines.conf(place);
        self.tokens.read(place)
    }

    fn commit(&mut self, _alloc: Global, place: u16, txn: &Txn) -> Result<CommitOutcome, NoMemory> {
        let engines = self.engines;
        self.tokens
            .commit(self.rt, engines.engine(place), place, txn)
    }

    fn reshape(&mut self, alloc: Global, place: u16, job: Job) -> Result<JobOutcome, NoMemory> {
        let engines = self.engines;
        self.tokens
            .reshape(self.rt, alloc, engines.engine(place), place, job)
    }
}
