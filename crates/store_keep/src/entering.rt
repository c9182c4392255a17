//! How a commit is entered: its record is staged, and then it waits.
ghost use Rattle.std.specs.Prelude.{◌≡◌, ◌+◌, ◌<◌, ◌^◌, ℕ, None, Some, length, OnOk, OnErr};
ghost use Rattle.doc_types.specs.Commits.{Entry};
ghost use Rattle.doc_types.specs.Snapshots.{SnapshotValue};
ghost use Rattle.srch_base.specs.Counts.{HasCause};
ghost use Rattle.step_history.specs.History.{Commit, CommitFollows, last_snapshot};
ghost use Rattle.step_history.specs.Logs.{log_at};
ghost use Rattle.step_line.specs.Lines.{IsBy};
ghost use Rattle.store_steps.specs.Batches.{IsBatchOf, batch_of, record_of};
ghost use Rattle.store_steps.specs.Kept.{Gives, LeavesOnly};
ghost use Rattle.store_keep.specs.Keepers.{Keeps};
ghost use Rattle.store_keep.specs.steps.Stages.{Enters};

use crate::kept::Kept;
use chunk_store::Disk;
use gate_log::Staged;
use srch_base::Failed;
use step_book::Naming;
use step_line::Pending;

impl<D: Disk, J: Naming> Kept<D, J> {
    /// Stages the record of a commit, which waits from then on.
    pub(crate) fn enter(&mut self, staged: &Staged, pending: Pending<J>) -> Result<(), Failed>
        requires rests { self.old.files.log.staged ≡ None }
        requires none { self.old.line.waiting ≡ None }
        requires from { pending.from ≡ record { index = self.old.line.index; steps = self.old.line.history } }
        requires by { IsBy self.old.line.workers pending.step }
        requires enters { Enters (J.schema self.old.line.index) (J.base self.old.line.index) self.old.line.history pending.step staged.now }
        requires kept { Keeps D.Disk J.schema J.base self.old.disk self.old.files self.old.line }
        ensures files { self.new.files ≡ record self.old.files { log = self.new.files.log } }
        ensures ok { OnOk result (self.new.line ≡ record self.old.line { waiting = Some pending.step }) }
        ensures err { OnErr result (self.new.line ≡ self.old.line) }
        ensures rests { OnErr result (self.new.files.log.staged ≡ None) }
        ensures kept { Keeps D.Disk J.schema J.base self.new.disk self.new.files self.new.line }
        ensures crash { LeavesOnly D.Disk self.old.disk self.new.disk (Gives (J.schema self.old.line.index) (J.base self.old.line.index) self.old.line.history) }
        ensures cause { HasCause (D.faults self.old.disk) (D.faults self.new.disk) result }
    {
        match self.files.log.stage(&mut self.disk, staged) {
            Ok(()) => {
                self.line.put(pending);
                Ok(())
            }
            Err(Failed) => Err(Failed),
        }
    }
}
