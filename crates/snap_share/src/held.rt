//! What is under the lock: the keeper, which is sound whenever the lock is free.
ghost use Rattle.std.specs.Prelude.{◌≡◌, ◌<◌, None};
ghost use Rattle.std.specs.Bool.{Decides};
ghost use Rattle.doc_types.specs.Schemas.{IsSchema};
ghost use Rattle.doc_types.specs.Transactions.{IsTxnOf};
ghost use Rattle.step_line.specs.Lines.{new_line};
ghost use Rattle.store_keep.specs.Charges.{charge_of, charge_of_job};
ghost use Rattle.store_keep.specs.Keepers.{IsSound};
ghost use Rattle.job_chunks.specs.Chunks.{IsNewChunk};
ghost use Rattle.job_states.specs.States.{HasSeen};
ghost use Rattle.store_keep.specs.Commits.{strayed_after};
ghost use Rattle.store_keep.specs.Installs.{strayed_after_job};
ghost use Rattle.store_keep.specs.Tellings.{AreTokensOf};
ghost use Rattle.snap_share.specs.Closings.{Closes, WorkersDiffer};
ghost use Rattle.snap_share.specs.Answers.{Answers};
ghost use Rattle.snap_share.specs.Counts.{Shares};
ghost use Rattle.snap_share.specs.Reshapes.{ReshapeAnswers};

use crate::telling::{all_took_of, answer_of, meet_all};
use chunk_store::Disk;
use commit_outcomes::Strayed;
use doc_types::Txn;
use job_chunks::NewChunk;
use srch_base::Or;
use std::marker::Model;
use std::sync::Wait;
use step_book::Naming;
use step_tokens::{Note, Token};
use store_keep::{
    CommitFault, Committed, InstallFault, Keeper, a_crash_between_calls_leaves_the_documents,
};

/// The keeper of an index between calls. Contracts see the number of the index.
pub(crate) struct Held<D: Disk, J: Naming> {
    keeper: Keeper<D, J>,
    /// Of which index it is, and how many workers it knows.
    index: u16,
    workers: u32,
    /// The first contradiction that a commit answered: the keeper's.
    strayed: Option<Strayed>,
}

impl<D: Disk, J: Naming> Model for Held<D, J> {
    ghost use Rattle.std.specs.Prelude.{◌≡◌, ℕ};
    ghost use Rattle.store_keep.specs.Keepers.{IsSound};

    ghost Value = { ℕ };

    ghost view = { λ held. held.index };

    ghost invariant = { λ held. (held.index ≡ held.keeper.kept.line.index) × (held.workers ≡ held.keeper.kept.line.workers) × IsSound D.Disk (λ index. J.schema index) (λ index. J.base index) (λ index. J.opened index) held.keeper × (held.strayed ≡ held.keeper.strayed) };
}

/// The contradiction that is held after an answer: the first one.
fn held_after<J: Naming>(
    held: Option<Strayed>,
    answer: &Result<Committed<J>, CommitFault<J>>,
) -> Option<Strayed>
    ensures { result ≡ strayed_after held answer.now }
{
    match answer {
        Err(CommitFault::Strayed(numbers, _note)) => held.or(Some(*numbers)),
        _ => held,
    }
}

/// The same after the answer of a job.
fn held_after_job<J: Naming>(
    held: Option<Strayed>,
    answer: &Result<Note<J>, InstallFault<J>>,
) -> Option<Strayed>
    ensures { result ≡ strayed_after_job held answer.now }
{
    match answer {
        Err(InstallFault::Strayed(numbers, _note)) => held.or(Some(*numbers)),
        _ => held,
    }
}

impl<D: Disk, J: Naming> Held<D, J> {
    /// A keeper that is sound.
    pub(crate) fn new(keeper: Keeper<D, J>, index: u16, workers: u32) -> Held<D, J>
        requires index { index ≡ keeper.kept.line.index }
        requires workers { workers ≡ keeper.kept.line.workers }
        requires sound { IsSound D.Disk J.schema J.base J.opened keeper }
        requires none { keeper.strayed ≡ None }
    {
        Held {
            keeper,
            index,
            workers,
            strayed: None,
        }
    }

    /// Commits a transaction of a worker. That the token is of another index, or of no worker here, can't come, and is answered as
    /// out of memory.
    #[tactic(auto, using(crate::proofs::Sharing::stays))]
    pub(crate) fn commit<R: Wait>(
        &mut self,
        rt: &R,
        worker: u32,
        token: &mut Token<J>,
        txn: &Txn,
    ) -> Result<Committed<J>, CommitFault<J>>
        requires own { (token.old.worker ≡ worker) × (0 < worker) }
        requires of { IsSchema (J.schema token.old.index) × IsTxnOf (J.schema token.old.index) txn.now }
        ensures answers { Answers (J.schema token.old.index) (J.base token.old.index) token.old txn.now.ops result token.new }
        ensures shares { Shares (charge_of result) token.old token.new }
    {
        // The clauses of a token's length say that what it has seen is good.
        let _before = token.len();
        if token.index() != self.index || self.workers < worker {
            return Err(CommitFault::NoMemory);
        }
        let result = self.keeper.commit(rt, worker, token, txn);
        self.strayed = held_after(self.strayed, &result);
        let _after = token.len();
        result
    }

    /// Installs the chunk of a job. That the token is of another index, or of no worker here, can't come, and is answered as out of
    /// memory.
    #[tactic(auto, using(crate::proofs::Sharing::stays))]
    pub(crate) fn reshape<R: Wait>(
        &mut self,
        rt: &R,
        token: &mut Token<J>,
        new: NewChunk,
    ) -> Result<Note<J>, InstallFault<J>>
        requires own { 0 < token.old.worker }
        requires seen { HasSeen (J.base token.old.index) token.old.seen new.from }
        requires chunk { IsNewChunk (J.schema token.old.index) new }
        ensures answers { ReshapeAnswers (J.schema token.old.index) (J.base token.old.index) token.old new result token.new }
        ensures shares { Shares (charge_of_job result) token.old token.new }
    {
        // The clauses of a token's length say that what it has seen is good.
        let _before = token.len();
        if token.index() != self.index || self.workers < token.worker() {
            return Err(InstallFault::NoMemory);
        }
        let result = self.keeper.install(rt, token, new);
        self.strayed = held_after_job(self.strayed, &result);
        let _after = token.len();
        result
    }

    /// Tells all tokens the whole history, and gives the disk back. That it is the keeper of another index, or that a token took more
    /// of its lines of calls than there is, can't come. No answer would be true then, so it waits for ever.
    pub(crate) fn close<R: Wait>(
        self,
        rt: &R,
        index: u16,
        workers: u32,
        tokens: &mut [Token<J>],
        told: &[Strayed],
    ) -> (D, Note<J>, Result<(), Or<Strayed>>)
        requires of { AreTokensOf (new_line index workers) tokens.old }
        requires differ { WorkersDiffer tokens.old }
        ensures { Closes D.Disk J.schema J.base J.opened index workers told.now tokens.old result.0 result.1 result.2 tokens.new }
    {
        let Held {
            keeper,
            index: own,
            workers: known,
            strayed,
        } = self;
        a_crash_between_calls_leaves_the_documents(&keeper);
        if own != index || known != workers {
            for _ in rt.forever() {}
            unreachable!()
        }
        if !all_took_of(tokens, keeper.faults().share(), keeper.stops().share()) {
            for _ in rt.forever() {}
            unreachable!()
        }
        let answer = answer_of(strayed, told, keeper.first_stray(tokens));
        let note = keeper.note();
        meet_all(tokens, &note);
        (keeper.close(rt), note, answer)
    }
}
