//! How the chunk of a job is installed, from the test of the token on. Commits wait for it; what it does is in proportion to what changed
//! since the job began and to the ids of the chunk, beside the disk's writes.
ghost use Rattle.std.specs.Prelude.{◌≡◌, ◌<◌, ◌≤◌, ◌^◌, None, Some, true, length};
ghost use Rattle.std.specs.Arc.{arc_value};
ghost use Rattle.job_chunks.specs.Chunks.{IsNewChunk};
ghost use Rattle.job_states.specs.States.{HasSeen};
ghost use Rattle.step_history.specs.History.{place_of};
ghost use Rattle.step_line.specs.Lines.{entered};
ghost use Rattle.store_steps.specs.Kept.{GivesEither, LeavesOnly};
ghost use Rattle.store_keep.specs.Commits.{GivesAny, GivesEntered};
ghost use Rattle.store_keep.specs.Installs.{EndsJob, HasRoom, Installs, end_of, strayed_after_job};
ghost use Rattle.store_keep.specs.Keepers.{IsSameKeeper, IsSameToken, Keeps};
ghost use Rattle.store_keep.specs.steps.Charging.{TakesFew};
ghost use Rattle.store_keep.specs.steps.Endings.{FinishesJob, IsEndPrepared};

use crate::install_fault::InstallFault;
use crate::job_ends::PreparedEnd;
use crate::keeper::Keeper;
use crate::kept::Kept;
use chunk_store::Disk;
use doc_types::Snapshot;
use image_chunk::AnyChunk;
use job_chunks::NewChunk;
use job_states::EndFault;
use srch_base::{Failed, NoMemory, Or};
use std::sync::Wait;
use step_book::{Made, Naming};
use step_line::Pending;
use step_tokens::{Note, Token, learn};

impl<D: Disk, J: Naming> Kept<D, J> {
    /// Publishes the end of a job, which waits, and removes the files that no state names any more.
    fn publish_end<R: Wait>(
        &mut self,
        rt: &R,
        token: &mut Token<J>,
        made: Made<AnyChunk>,
        old: &[u32],
    ) -> Result<Note<J>, InstallFault<J>>
        requires index { token.old.index ≡ self.old.line.index }
        requires waits { self.old.line.waiting ≡ Some made }
        requires rests { self.old.files.log.staged ≡ None }
        requires sure { self.old.files.sure ≡ true }
        requires kept { Keeps D.Disk J.schema J.base self.old.disk self.old.files self.old.line }
        ensures ends { FinishesJob self.old.line token.old (D.faults self.old.disk) result self.new.line token.new (D.faults self.new.disk) }
        ensures files { self.new.files ≡ self.old.files }
        ensures kept { Keeps D.Disk J.schema J.base self.new.disk self.new.files self.new.line }
        ensures crash { LeavesOnly D.Disk self.old.disk self.new.disk (GivesEither (J.schema self.old.line.index) (J.base self.old.line.index) self.old.line.history self.old.line.waiting) }
    {
        match self.publish(rt) {
            Ok(()) => {
                self.remove_all(&None, old);
                let note = self.line.note();
                learn(token, &note);
                Ok(note)
            }
            Err(NoMemory) => {
                self.remove_all(&Some(made), old);
                token.leave(self.line.entered());
                Err(InstallFault::InDoubt)
            }
        }
    }

    /// Ends a job for which all is prepared.
    fn end_job<R: Wait>(
        &mut self,
        rt: &R,
        token: &mut Token<J>,
        new: &NewChunk,
        prepared: PreparedEnd,
    ) -> Result<Note<J>, InstallFault<J>>
        requires index { token.old.index ≡ self.old.line.index }
        requires none { self.old.line.waiting ≡ None }
        requires rests { self.old.files.log.staged ≡ None }
        requires kept { Keeps D.Disk J.schema J.base self.old.disk self.old.files self.old.line }
        requires seen { HasSeen (J.base self.old.line.index) self.old.line.history new.now.from }
        requires room { HasRoom (J.base self.old.line.index) self.old.line self.old.files new.now }
        requires chunk { IsNewChunk (J.schema self.old.line.index) new.now }
        requires prepared { IsEndPrepared (J.schema self.old.line.index) (J.base self.old.line.index) self.old.line new.now prepared }
        ensures ends { EndsJob (J.base self.old.line.index) self.old.line self.old.files token.old new.now (D.faults self.old.disk) result self.new.line self.new.files token.new (D.faults self.new.disk) }
        ensures numbers { TakesFew (entered self.old.line) (D.faults self.old.disk) self.old.files (entered self.new.line) (D.faults self.new.disk) self.new.files }
        ensures kept { Keeps D.Disk J.schema J.base self.new.disk self.new.files self.new.line }
        ensures crash { LeavesOnly D.Disk self.old.disk self.new.disk (GivesEntered (J.schema self.old.line.index) (J.base self.old.line.index) self.old.line.history self.new.line) }
    {
        let PreparedEnd { next, old } = prepared;
        match self.write_end(new, &next) {
            Ok(()) => {
                let from: &Snapshot<AnyChunk> = new.from();
                let through = from.number;
                let made = Made::reshape(new.job(), through, &next);
                let again = Made::reshape(new.job(), through, &next);
                let pending = Pending::new(self.line.front(), made, next);
                self.line.put(pending);
                self.publish_end(rt, token, again, old.as_slice())
            }
            Err(EndFault::NoMemory) => Err(InstallFault::NoMemory),
            Err(EndFault::Disk) => Err(InstallFault::DiskFault),
        }
    }

    /// Installs the chunk of a job, where nothing waits.
    fn install_next<R: Wait>(
        &mut self,
        rt: &R,
        token: &mut Token<J>,
        new: &NewChunk,
    ) -> Result<Note<J>, InstallFault<J>>
        requires index { token.old.index ≡ self.old.line.index }
        requires none { self.old.line.waiting ≡ None }
        requires rests { self.old.files.log.staged ≡ None }
        requires kept { Keeps D.Disk J.schema J.base self.old.disk self.old.files self.old.line }
        requires seen { HasSeen (J.base self.old.line.index) self.old.line.history new.now.from }
        requires chunk { IsNewChunk (J.schema self.old.line.index) new.now }
        ensures ends { EndsJob (J.base self.old.line.index) self.old.line self.old.files token.old new.now (D.faults self.old.disk) result self.new.line self.new.files token.new (D.faults self.new.disk) }
        ensures numbers { TakesFew (entered self.old.line) (D.faults self.old.disk) self.old.files (entered self.new.line) (D.faults self.new.disk) self.new.files }
        ensures kept { Keeps D.Disk J.schema J.base self.new.disk self.new.files self.new.line }
        ensures crash { LeavesOnly D.Disk self.old.disk self.new.disk (GivesEntered (J.schema self.old.line.index) (J.base self.old.line.index) self.old.line.history self.new.line) }
    {
        match self.refusal(new) {
            Some(fault) => Err(fault),
            None => match self.prepare_end(new) {
                Ok(prepared) => self.end_job(rt, token, new, prepared),
                Err(NoMemory) => Err(InstallFault::NoMemory),
            },
        }
    }
}

impl<D: Disk, J: Naming> Keeper<D, J> {
    /// Installs the chunk of a job, which was built from a snapshot that the token has seen, but for charging the answer. What waits is
    /// settled first.
    pub(crate) fn install_by<R: Wait>(
        &mut self,
        rt: &R,
        token: &mut Token<J>,
        new: NewChunk,
    ) -> Result<Note<J>, InstallFault<J>>
        requires index { token.old.index ≡ self.old.kept.line.index }
        requires worker { (0 < token.old.worker) × (token.old.worker ≤ self.old.kept.line.workers) }
        requires seen { HasSeen (J.base self.old.kept.line.index) token.old.seen new.from }
        requires chunk { IsNewChunk (J.schema self.old.kept.line.index) new }
        requires first { self.old.first ≡ place_of (J.base self.old.kept.line.index).opening }
        requires kept { Keeps D.Disk J.schema J.base self.old.kept.disk self.old.kept.files self.old.kept.line }
        ensures ends { Installs (J.base self.old.kept.line.index) self.old.kept.line self.old.kept.files token.old new (D.faults self.old.kept.disk) result self.new.kept.line self.new.kept.files token.new (D.faults self.new.kept.disk) }
        ensures strayed { self.new.strayed ≡ strayed_after_job self.old.strayed result }
        ensures same { IsSameKeeper self.old self.new }
        ensures rest { self.new ≡ record self.old { kept = self.new.kept; strayed = self.new.strayed } }
        ensures token { IsSameToken token.old token.new }
        ensures numbers { TakesFew (entered self.old.kept.line) (D.faults self.old.kept.disk) self.old.kept.files (entered self.new.kept.line) (D.faults self.new.kept.disk) self.new.kept.files }
        ensures kept { Keeps D.Disk J.schema J.base self.new.kept.disk self.new.kept.files self.new.kept.line }
        ensures crash { LeavesOnly D.Disk self.old.kept.disk self.new.kept.disk (GivesAny (J.schema self.old.kept.line.index) (J.base self.old.kept.line.index) self.old.kept.line self.new.kept.line) }
    {
        if let Some(strayed) = self.stray(token) {
            self.strayed = self.strayed.or(Some(strayed));
            return Err(InstallFault::Strayed(strayed, self.kept.line.note()));
        }
        match self.kept.ready(rt, token) {
            Ok(()) => self.kept.install_next(rt, token, &new),
            Err(Or::NoMemory) => Err(InstallFault::NoMemory),
            Err(Or::Fault(Failed)) => Err(InstallFault::DiskFault),
        }
    }
}
