//! How a commit is made that has all its memory: it is entered, and then settled.
ghost use Rattle.std.specs.Prelude.{◌≡◌, ◌+◌, ◌<◌, ◌≤◌, ◌^◌, None};
ghost use Rattle.step_line.specs.Lines.{IsBy, kept_by};
ghost use Rattle.store_steps.specs.Kept.{GivesEither, LeavesOnly};
ghost use Rattle.doc_types.specs.Schemas.{IsSchema};
ghost use Rattle.doc_types.specs.Transactions.{IsTxnOf};
ghost use Rattle.store_keep.specs.Commits.{Ends, GivesEntered, Makes, front_of};
ghost use Rattle.store_keep.specs.Keepers.{Keeps};
ghost use Rattle.store_keep.specs.steps.Stages.{Enters, Finishes};

use crate::fault::{CommitFault, Committed};
use crate::kept::Kept;
use crate::preparing::Prepared;
use chunk_store::Disk;
use commit_outcomes::Doubt;
use doc_types::Txn;
use srch_base::{Failed, Or};
use std::sync::Wait;
use step_book::Naming;
use step_tokens::{Token, learn};

impl<D: Disk, J: Naming> Kept<D, J> {
    /// Settles a commit that was just entered.
    fn finish<R: Wait>(
        &mut self,
        rt: &R,
        token: &mut Token<J>,
        number: u64,
        removed: u32,
    ) -> Result<Committed<J>, CommitFault<J>>
        requires token { token.old.index ≡ self.old.line.index }
        requires kept { Keeps D.Disk J.schema J.base self.old.disk self.old.files self.old.line }
        ensures ends { Finishes self.old.line token.old number removed (D.faults self.old.disk) result self.new.line self.new.files.log token.new (D.faults self.new.disk) }
        ensures files { self.new.files ≡ record self.old.files { log = self.new.files.log } }
        ensures kept { Keeps D.Disk J.schema J.base self.new.disk self.new.files self.new.line }
        ensures crash { LeavesOnly D.Disk self.old.disk self.new.disk (GivesEither (J.schema self.old.line.index) (J.base self.old.line.index) self.old.line.history self.old.line.waiting) }
    {
        match self.settle(rt) {
            Ok(()) => {
                let note = self.line.note();
                learn(token, &note);
                Ok(Committed {
                    note,
                    number,
                    removed,
                })
            }
            Err(Or::NoMemory) => {
                token.leave(self.line.entered());
                Err(CommitFault::InDoubt(Doubt::Memory))
            }
            Err(Or::Fault(Failed)) => {
                token.leave(self.line.entered());
                Err(CommitFault::InDoubt(Doubt::Disk))
            }
        }
    }

    /// Makes a commit that has its memory.
    pub(crate) fn make<R: Wait>(
        &mut self,
        rt: &R,
        token: &mut Token<J>,
        prepared: Prepared<J>,
    ) -> Result<Committed<J>, CommitFault<J>>
        requires rests { self.old.files.log.staged ≡ None }
        requires none { self.old.line.waiting ≡ None }
        requires index { token.old.index ≡ self.old.line.index }
        requires room { token.old.made + 1 < 2 ^ 64 }
        requires from { prepared.pending.from ≡ front_of self.old.line }
        requires by { IsBy self.old.line.workers prepared.pending.step }
        requires enters { Enters (J.schema self.old.line.index) (J.base self.old.line.index) self.old.line.history prepared.pending.step prepared.staged }
        requires kept { Keeps D.Disk J.schema J.base self.old.disk self.old.files self.old.line }
        ensures ends { Makes self.old.line token.old prepared.pending.step prepared.number prepared.removed (D.faults self.old.disk) result self.new.line self.new.files.log token.new (D.faults self.new.disk) }
        ensures files { self.new.files ≡ record self.old.files { log = self.new.files.log } }
        ensures kept { Keeps D.Disk J.schema J.base self.new.disk self.new.files self.new.line }
        ensures crash { LeavesOnly D.Disk self.old.disk self.new.disk (GivesEntered (J.schema self.old.line.index) (J.base self.old.line.index) self.old.line.history self.new.line) }
    {
        let Prepared {
            staged,
            pending,
            number,
            removed,
        } = prepared;
        match self.enter(&staged, pending) {
            Ok(()) => {
                token.count();
                self.finish(rt, token, number, removed)
            }
            Err(Failed) => Err(CommitFault::Refused),
        }
    }

    /// Commits a transaction, where nothing waits.
    pub(crate) fn commit_next<R: Wait>(
        &mut self,
        rt: &R,
        worker: u32,
        token: &mut Token<J>,
        txn: &Txn,
    ) -> Result<Committed<J>, CommitFault<J>>
        requires rests { self.old.files.log.staged ≡ None }
        requires none { self.old.line.waiting ≡ None }
        requires index { token.old.index ≡ self.old.line.index }
        requires worker { (0 < worker) × (worker ≤ self.old.line.workers) }
        requires made { token.old.made ≡ kept_by worker self.old.line }
        requires of { IsSchema (J.schema self.old.line.index) × IsTxnOf (J.schema self.old.line.index) txn.now }
        requires kept { Keeps D.Disk J.schema J.base self.old.disk self.old.files self.old.line }
        ensures ends { Ends (J.base self.old.line.index) self.old.line token.old worker txn.now.ops (D.faults self.old.disk) result self.new.line self.new.files.log token.new (D.faults self.new.disk) }
        ensures files { self.new.files ≡ record self.old.files { log = self.new.files.log } }
        ensures kept { Keeps D.Disk J.schema J.base self.new.disk self.new.files self.new.line }
        ensures crash { LeavesOnly D.Disk self.old.disk self.new.disk (GivesEntered (J.schema self.old.line.index) (J.base self.old.line.index) self.old.line.history self.new.line) }
    {
        match self.prepare(worker, txn) {
            Ok(prepared) => self.make(rt, token, prepared),
            Err(fault) => Err(fault),
        }
    }
}
