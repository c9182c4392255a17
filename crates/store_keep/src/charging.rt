//! How calls are charged. Before a call does anything, both lines of calls get ready for one entry more; so when the answer is known,
//! entering it can't fail. The token takes the line with it, and so its count is one that whoever holds the lock has agreed to.
ghost use Rattle.std.specs.Prelude.{◌≡◌, ◌<◌, ◌≤◌, OnOk};
ghost use Rattle.doc_types.specs.Schemas.{IsSchema};
ghost use Rattle.doc_types.specs.Transactions.{IsTxnOf};
ghost use Rattle.job_chunks.specs.Chunks.{IsNewChunk};
ghost use Rattle.job_states.specs.States.{HasSeen};
ghost use Rattle.step_tokens.specs.Tokens.{faults_of, stops_of};
ghost use Rattle.store_steps.specs.Kept.{LeavesOnly};
ghost use Rattle.store_keep.specs.Answers.{AnswersCommit, AnswersInstall};
ghost use Rattle.store_keep.specs.Charges.{Charges};
ghost use Rattle.store_keep.specs.Commits.{GivesAny, strayed_after};
ghost use Rattle.store_keep.specs.Installs.{strayed_after_job};
ghost use Rattle.store_keep.specs.Keepers.{IsSameKeeper, IsSameToken, IsSound};
ghost use Rattle.store_keep.specs.steps.Charging.{IsReadyFor, MayCharge, with_calls, with_turns};

use crate::charge::{Charge, charge_of, charge_of_job};
use crate::fault::{CommitFault, Committed};
use crate::install_fault::InstallFault;
use crate::keeper::Keeper;
use chunk_store::Disk;
use doc_types::Txn;
use job_chunks::NewChunk;
use srch_base::NoMemory;
use std::sync::Wait;
use step_book::Naming;
use step_tokens::{Note, Token};

impl<D: Disk, J: Naming> Keeper<D, J> {
    /// Gets both lines of calls ready for one call more of the token's worker. The token counts its calls as they do.
    fn make_ready(&mut self, token: &Token<J>) -> Result<(), NoMemory>
        requires worker { (0 < token.now.worker) × (token.now.worker ≤ self.old.kept.line.workers) }
        requires sound { IsSound D.Disk J.schema J.base J.opened self.old }
        ensures same { self.new ≡ with_turns self.old self.new.faults.ready self.new.stops.ready }
        ensures faults { OnOk result (IsReadyFor token.now.worker (faults_of token.now) self.new.faults) }
        ensures stops { OnOk result (IsReadyFor token.now.worker (stops_of token.now) self.new.stops) }
        ensures sound { IsSound D.Disk J.schema J.base J.opened self.new }
    {
        self.faults.prepare()?;
        self.stops.prepare()?;
        let worker = token.worker();
        if self.faults.count(worker) != token.faults()
            || self.stops.count(worker) != token.stops()
        {
            return Err(NoMemory);
        }
        Ok(())
    }

    /// Charges a call to its token.
    fn charge(&mut self, charge: Charge, token: &mut Token<J>)
        requires index { token.old.index ≡ self.old.kept.line.index }
        requires worker { (0 < token.old.worker) × (token.old.worker ≤ self.old.kept.line.workers) }
        requires faults { IsReadyFor token.old.worker (faults_of token.old) self.old.faults }
        requires stops { IsReadyFor token.old.worker (stops_of token.old) self.old.stops }
        requires may { MayCharge charge (J.opened self.old.kept.line.index) self.old.kept.line.history (D.faults self.old.kept.disk) self.old.strayed self.old.faults.calls }
        requires sound { IsSound D.Disk J.schema J.base J.opened self.old }
        ensures charges { Charges charge token.old token.new }
        ensures same { self.new ≡ with_calls self.old self.new.faults self.new.stops }
        ensures sound { IsSound D.Disk J.schema J.base J.opened self.new }
    {
        let worker = token.worker();
        match charge {
            Charge::Free => {}
            Charge::Fault => {
                self.faults.enter(worker, token.taken_faults());
                token.take_faults(self.faults.share(), self.faults.count(worker));
            }
            Charge::Stop => {
                self.stops.enter(worker, token.taken_stops());
                token.take_stops(self.stops.share(), self.stops.count(worker));
            }
        }
    }

    /// Commits a transaction of a worker with its token. What waits is settled first.
    pub fn commit<R: Wait>(
        &mut self,
        rt: &R,
        worker: u32,
        token: &mut Token<J>,
        txn: &Txn,
    ) -> Result<Committed<J>, CommitFault<J>>
        requires index { token.old.index ≡ self.old.kept.line.index }
        requires own { token.old.worker ≡ worker }
        requires worker { (0 < worker) × (worker ≤ self.old.kept.line.workers) }
        requires of { IsSchema (J.schema self.old.kept.line.index) × IsTxnOf (J.schema self.old.kept.line.index) txn.now }
        requires sound { IsSound D.Disk J.schema J.base J.opened self.old }
        ensures ends { AnswersCommit (J.base self.old.kept.line.index) self.old.kept.line token.old worker txn.now.ops (D.faults self.old.kept.disk) result self.new.kept.line self.new.kept.files.log token.new (D.faults self.new.kept.disk) }
        ensures strayed { self.new.strayed ≡ strayed_after self.old.strayed result }
        ensures same { IsSameKeeper self.old self.new }
        ensures token { IsSameToken token.old token.new }
        ensures sound { IsSound D.Disk J.schema J.base J.opened self.new }
        ensures crash { LeavesOnly D.Disk self.old.kept.disk self.new.kept.disk (GivesAny (J.schema self.old.kept.line.index) (J.base self.old.kept.line.index) self.old.kept.line self.new.kept.line) }
    {
        match self.make_ready(token) {
            Ok(()) => {
                let answer = self.commit_by(rt, worker, token, txn);
                self.charge(charge_of(&answer), token);
                answer
            }
            Err(NoMemory) => Err(CommitFault::NoMemory),
        }
    }

    /// Installs the chunk of a job, which was built from a snapshot that the token has seen. What waits is settled first.
    pub fn install<R: Wait>(
        &mut self,
        rt: &R,
        token: &mut Token<J>,
        new: NewChunk,
    ) -> Result<Note<J>, InstallFault<J>>
        requires index { token.old.index ≡ self.old.kept.line.index }
        requires worker { (0 < token.old.worker) × (token.old.worker ≤ self.old.kept.line.workers) }
        requires seen { HasSeen (J.base self.old.kept.line.index) token.old.seen new.from }
        requires chunk { IsNewChunk (J.schema self.old.kept.line.index) new }
        requires sound { IsSound D.Disk J.schema J.base J.opened self.old }
        ensures ends { AnswersInstall (J.base self.old.kept.line.index) self.old.kept.line self.old.kept.files token.old new (D.faults self.old.kept.disk) result self.new.kept.line self.new.kept.files token.new (D.faults self.new.kept.disk) }
        ensures strayed { self.new.strayed ≡ strayed_after_job self.old.strayed result }
        ensures same { IsSameKeeper self.old self.new }
        ensures token { IsSameToken token.old token.new }
        ensures sound { IsSound D.Disk J.schema J.base J.opened self.new }
        ensures crash { LeavesOnly D.Disk self.old.kept.disk self.new.kept.disk (GivesAny (J.schema self.old.kept.line.index) (J.base self.old.kept.line.index) self.old.kept.line self.new.kept.line) }
    {
        match self.make_ready(token) {
            Ok(()) => {
                let answer = self.install_by(rt, token, new);
                self.charge(charge_of_job(&answer), token);
                answer
            }
            Err(NoMemory) => Err(InstallFault::NoMemory),
        }
    }
}
