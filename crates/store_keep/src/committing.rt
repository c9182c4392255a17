//! A commit, from the test of the token on.
ghost use Rattle.std.specs.Prelude.{◌≡◌, ◌<◌, ◌≤◌};
ghost use Rattle.doc_types.specs.Schemas.{IsSchema};
ghost use Rattle.doc_types.specs.Transactions.{IsTxnOf};
ghost use Rattle.step_history.specs.History.{place_of};
ghost use Rattle.store_steps.specs.Kept.{GivesEither, LeavesOnly};
ghost use Rattle.store_steps.specs.Refusals.{stray_of};
ghost use Rattle.store_keep.specs.Commits.{Commits, GivesAny, Settles, strayed_after};
ghost use Rattle.store_keep.specs.Keepers.{IsSameKeeper, IsSameToken, IsSound, Keeps};
ghost use Rattle.store_keep.specs.steps.Stages.{Readies};

use crate::fault::{CommitFault, Committed};
use crate::keeper::Keeper;
use crate::kept::Kept;
use chunk_store::Disk;
use commit_outcomes::Strayed;
use doc_types::Txn;
use srch_base::{Failed, Or};
use std::sync::Wait;
use step_book::Naming;
use step_tokens::{Token, learn};

impl<D: Disk, J: Naming> Kept<D, J> {
    /// Settles what waits, and teaches the token the history.
    pub(crate) fn ready<R: Wait>(&mut self, rt: &R, token: &mut Token<J>) -> Result<(), Or<Failed>>
        requires index { token.old.index ≡ self.old.line.index }
        requires kept { Keeps D.Disk J.schema J.base self.old.disk self.old.files self.old.line }
        ensures ends { Readies self.old.line token.old (D.faults self.old.disk) result self.new.line self.new.files.log token.new (D.faults self.new.disk) }
        ensures files { self.new.files ≡ record self.old.files { log = self.new.files.log } }
        ensures kept { Keeps D.Disk J.schema J.base self.new.disk self.new.files self.new.line }
        ensures crash { LeavesOnly D.Disk self.old.disk self.new.disk (GivesEither (J.schema self.old.line.index) (J.base self.old.line.index) self.old.line.history self.old.line.waiting) }
    {
        let settled = self.settle(rt);
        learn(token, &self.line.note());
        settled
    }
}

impl<D: Disk, J: Naming> Keeper<D, J> {
    /// The numbers of a token and of this keeper, where they contradict each other.
    pub(crate) fn stray(&self, token: &Token<J>) -> Option<Strayed>
        requires worker { (0 < token.now.worker) × (token.now.worker ≤ self.now.kept.line.workers) }
        requires first { self.now.first ≡ place_of (J.base self.now.kept.line.index).opening }
        ensures { result ≡ stray_of (J.base self.now.kept.line.index) self.now.kept.line token.now }
    {
        let line = &self.kept.line;
        let seen = token.len();
        let place = line.front().len();
        let made = token.made();
        let kept = line.count(token.worker());
        if place < seen || made != kept {
            return Some(Strayed {
                seen: self.first.saturating_add(seen),
                place: self.first.saturating_add(place),
                made,
                kept,
            });
        }
        None
    }

    /// Commits a transaction of a worker with its token, but for charging the answer. What waits is settled first.
    pub(crate) fn commit_by<R: Wait>(
        &mut self,
        rt: &R,
        worker: u32,
        token: &mut Token<J>,
        txn: &Txn,
    ) -> Result<Committed<J>, CommitFault<J>>
        requires index { token.old.index ≡ self.old.kept.line.index }
        requires own { token.old.worker ≡ worker }
        requires worker { (0 < worker) × (worker ≤ self.old.kept.line.workers) }
        requires of { IsSchema (J.schema self.old.kept.line.index) × IsTxnOf (J.schema self.old.kept.line.index) txn.now }
        requires first { self.old.first ≡ place_of (J.base self.old.kept.line.index).opening }
        requires kept { Keeps D.Disk J.schema J.base self.old.kept.disk self.old.kept.files self.old.kept.line }
        ensures ends { Commits (J.base self.old.kept.line.index) self.old.kept.line token.old worker txn.now.ops (D.faults self.old.kept.disk) result self.new.kept.line self.new.kept.files.log token.new (D.faults self.new.kept.disk) }
        ensures strayed { self.new.strayed ≡ strayed_after self.old.strayed result }
        ensures same { IsSameKeeper self.old self.new }
        ensures rest { self.new ≡ record self.old { kept = self.new.kept; strayed = self.new.strayed } }
        ensures token { IsSameToken token.old token.new }
        ensures files { self.new.kept.files ≡ record self.old.kept.files { log = self.new.kept.files.log } }
        ensures kept { Keeps D.Disk J.schema J.base self.new.kept.disk self.new.kept.files self.new.kept.line }
        ensures crash { LeavesOnly D.Disk self.old.kept.disk self.new.kept.disk (GivesAny (J.schema self.old.kept.line.index) (J.base self.old.kept.line.index) self.old.kept.line self.new.kept.line) }
    {
        if let Some(strayed) = self.stray(token) {
            self.strayed = self.strayed.or(Some(strayed));
            return Err(CommitFault::Strayed(strayed, self.kept.line.note()));
        }
        match self.kept.ready(rt, token) {
            Ok(()) => self.kept.commit_next(rt, worker, token, txn),
            Err(Or::NoMemory) => Err(CommitFault::NoMemory),
            Err(Or::Fault(Failed)) => Err(CommitFault::Refused),
        }
    }

    /// Settles the step that waits: after it nothing does. Otherwise it still waits.
    pub fn settle<R: Wait>(&mut self, rt: &R) -> Result<(), Or<Failed>>
        requires sound { IsSound D.Disk J.schema J.base J.opened self.old }
        ensures ends { Settles self.old.kept.line (D.faults self.old.kept.disk) result self.new.kept.line self.new.kept.files.log (D.faults self.new.kept.disk) }
        ensures strayed { self.new.strayed ≡ self.old.strayed }
        ensures same { IsSameKeeper self.old self.new }
        ensures sound { IsSound D.Disk J.schema J.base J.opened self.new }
        ensures crash { LeavesOnly D.Disk self.old.kept.disk self.new.kept.disk (GivesEither (J.schema self.old.kept.line.index) (J.base self.old.kept.line.index) self.old.kept.line.history self.old.kept.line.waiting) }
    {
        self.kept.settle(rt)
    }
}
