//! The engine: what each worker calls.
ghost use Rattle.std.specs.Prelude.{◌≡◌, ◌<◌, ◌≤◌, IfOk, IfErr, length};
ghost use Rattle.std.specs.Arc.{arc_value};
ghost use Rattle.doc_types.specs.Schemas.{IsSchema};
ghost use Rattle.doc_types.specs.Transactions.{IsTxnOf};
ghost use Rattle.step_history.specs.Places.{disk_chunks};
ghost use Rattle.step_line.specs.Lines.{new_line};
ghost use Rattle.job_chunks.specs.Chunks.{IsNewChunk};
ghost use Rattle.job_states.specs.States.{HasSeen};
ghost use Rattle.store_keep.specs.Names.{first_tokens};
ghost use Rattle.store_keep.specs.Charges.{charge_of, charge_of_job};
ghost use Rattle.store_keep.specs.Opens.{IsOpened, base_of, opening_of};
ghost use Rattle.store_keep.specs.Tellings.{AreTokensOf};
ghost use Rattle.snap_share.specs.Closings.{Closes, WorkersDiffer};
ghost use Rattle.snap_share.specs.Counts.{Shares};
ghost use Rattle.snap_share.specs.Answers.{Answers};
ghost use Rattle.snap_share.specs.Reshapes.{ReshapeAnswers};

use crate::held::Held;
use chunk_store::Disk;
use commit_outcomes::Strayed;
use doc_types::Txn;
use job_chunks::NewChunk;
use srch_base::Or;
use std::alloc::Global;
use std::marker::Model;
use std::sync::{Mutex, MutexGuard, Wait};
use step_book::Naming;
use step_tokens::{Note, Token};
use store_keep::{CommitFault, Committed, InstallFault, Keeper, Opened};

/// The engine of an index. Workers share it by reference, and each commits with its own token; reading takes no engine at all. It
/// isn't let go of: end it by `close`.
pub struct Engine<D: Disk, J: Naming> {
    index: u16,
    workers: u32,
    records: u64,
    documents: u32,
    chunks: u32,
    keeper: Mutex<Held<D, J>>,
}

impl<D: Disk, J: Naming> Model for Engine<D, J> {
    ghost use Rattle.snap_share.specs.Engines.{EngineValue};

    ghost Value = { EngineValue };

    ghost view = { λ e. record { index = e.index; workers = e.workers; records = e.records; documents = e.documents; chunks = e.chunks } };
}

impl<D: Disk, J: Naming> Engine<D, J> {
    /// The engine of a store that was opened, under the names of its index, with a token for each worker. Out of memory, its disk
    /// comes back.
    pub fn named<R: Wait>(
        rt: &R,
        alloc: Global,
        opened: Opened<D>,
        index: u16,
        workers: u32,
    ) -> Result<(Engine<D, J>, Vec<Token<J>>), D>
        requires workers { 0 < workers }
        requires book { opened.book.past.seen.book ≡ J.book index }
        requires faults { opened.faults.past.seen.book ≡ J.faults index }
        requires stops { opened.stops.past.seen.book ≡ J.stops index }
        requires base { J.base index ≡ base_of opened }
        requires counted { J.opened index ≡ opening_of D.Disk opened }
        requires opened { IsOpened D.Disk (J.schema index) opened }
        ensures engine { IfOk result (λ named. named.0 ≡ record { index = index; workers = workers; records = opened.records; documents = opened.documents; chunks = length (disk_chunks (arc_value opened.snapshot)) }) }
        ensures tokens { IfOk result (λ named. named.1.items ≡ first_tokens index workers) }
        ensures disk { IfErr result (λ disk. disk ≡ opened.disk) }
    {
        match Keeper::named(rt, alloc, opened, index, workers) {
            Ok((keeper, tokens)) => {
                let records = keeper.records();
                let (documents, chunks) = keeper.opened();
                let engine = Engine {
                    index,
                    workers,
                    records,
                    documents,
                    chunks,
                    keeper: Mutex::new(Held::new(keeper, index, workers)),
                };
                Ok((engine, tokens))
            }
            Err(disk) => Err(disk),
        }
    }

    /// How many records of the log were read at opening that no chunk has.
    pub fn records(&self) -> u64
        ensures { result ≡ self.now.records }
    {
        self.records
    }

    /// How many documents and how many chunks on the disk there were at opening.
    pub fn opened(&self) -> (u32, u32)
        ensures { result ≡ (self.now.documents, self.now.chunks) }
    {
        (self.documents, self.chunks)
    }

    /// Commits a transaction of a worker with its token. What waits is settled first. It waits for the commits of other workers.
    pub fn commit<R: Wait>(
        &self,
        rt: &R,
        worker: u32,
        token: &mut Token<J>,
        txn: &Txn,
    ) -> Result<Committed<J>, CommitFault<J>>
        requires index { token.old.index ≡ self.now.index }
        requires own { (token.old.worker ≡ worker) × (0 < worker) × (worker ≤ self.now.workers) }
        requires of { IsSchema (J.schema self.now.index) × IsTxnOf (J.schema self.now.index) txn.now }
        ensures answers { Answers (J.schema self.now.index) (J.base self.now.index) token.old txn.now.ops result token.new }
        ensures shares { Shares (charge_of result) token.old token.new }
    {
        let mut held = self.keeper.lock(rt);
        let result = held.commit(rt, worker, token, txn);
        MutexGuard::unlock(held);
        result
    }

    /// Ends a job with the chunk that it made of a snapshot which the token has seen. What waits is settled first. It waits for the
    /// commits of workers, and they for it.
    pub fn reshape<R: Wait>(
        &self,
        rt: &R,
        token: &mut Token<J>,
        new: NewChunk,
    ) -> Result<Note<J>, InstallFault<J>>
        requires index { token.old.index ≡ self.now.index }
        requires own { (0 < token.old.worker) × (token.old.worker ≤ self.now.workers) }
        requires seen { HasSeen (J.base self.now.index) token.old.seen new.from }
        requires chunk { IsNewChunk (J.schema self.now.index) new }
        ensures answers { ReshapeAnswers (J.schema self.now.index) (J.base self.now.index) token.old new result token.new }
        ensures shares { Shares (charge_of_job result) token.old token.new }
    {
        let mut held = self.keeper.lock(rt);
        let result = held.reshape(rt, token, new);
        MutexGuard::unlock(held);
        result
    }

    /// Ends the engine once its workers have ended: the disk, and a note of the whole history, which each of its tokens learns. It
    /// waits for those who still read. `told` has the first contradiction that a call told each worker, where one did: the first of
    /// all is answered again.
    pub fn close<R: Wait>(
        self,
        rt: &R,
        tokens: &mut [Token<J>],
        told: &[Strayed],
    ) -> (D, Note<J>, Result<(), Or<Strayed>>)
        requires of { AreTokensOf (new_line self.index self.workers) tokens.old }
        requires differ { WorkersDiffer tokens.old }
        ensures { Closes D.Disk J.schema J.base J.opened self.index self.workers told.now tokens.old result.0 result.1 result.2 tokens.new }
    {
        let Engine {
            index,
            workers,
            records: _records,
            documents: _documents,
            chunks: _chunks,
            keeper,
        } = self;
        keeper.into_inner().close(rt, index, workers, tokens, told)
    }
}
