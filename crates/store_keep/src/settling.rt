//! How a step that waits takes effect: its gate is opened where its record is staged, and then it is published.
ghost use Rattle.std.specs.Prelude.{◌≡◌, ◌≢◌, None, OnOk, OnErr};
ghost use Rattle.srch_base.specs.Counts.{HasCause};
ghost use Rattle.step_line.specs.Lines.{settled};
ghost use Rattle.store_steps.specs.Kept.{GivesEither, LeavesOnly};
ghost use Rattle.store_keep.specs.Commits.{Settles};
ghost use Rattle.store_keep.specs.Keepers.{Keeps};

use crate::kept::Kept;
use chunk_store::Disk;
use srch_base::{Failed, NoMemory, Or};
use std::sync::Wait;
use step_book::Naming;

impl<D: Disk, J: Naming> Kept<D, J> {
    /// Opens the gate of the record that is staged, if one is.
    pub(crate) fn sync_pending(&mut self) -> Result<(), Failed>
        requires kept { Keeps D.Disk J.schema J.base self.old.disk self.old.files self.old.line }
        ensures line { self.new.line ≡ self.old.line }
        ensures files { self.new.files ≡ record self.old.files { log = self.new.files.log } }
        ensures none { OnOk result (self.new.files.log.staged ≡ None) }
        ensures kept { Keeps D.Disk J.schema J.base self.new.disk self.new.files self.new.line }
        ensures crash { LeavesOnly D.Disk self.old.disk self.new.disk (GivesEither (J.schema self.old.line.index) (J.base self.old.line.index) self.old.line.history self.old.line.waiting) }
        ensures waits { OnErr result (self.old.line.waiting ≢ None) }
        ensures staged { OnErr result (self.new.files.log.staged ≢ None) }
        ensures cause { HasCause (D.faults self.old.disk) (D.faults self.new.disk) result }
    {
        if self.files.log.is_staged() {
            self.files.log.open_gate(&mut self.disk)?;
        }
        Ok(())
    }

    /// Publishes the step that waits. Its record isn't staged any more.
    pub(crate) fn publish<R: Wait>(&mut self, rt: &R) -> Result<(), NoMemory>
        requires none { self.old.files.log.staged ≡ None }
        requires kept { Keeps D.Disk J.schema J.base self.old.disk self.old.files self.old.line }
        ensures ok { OnOk result (self.new.line ≡ settled self.old.line) }
        ensures err { OnErr result (self.new.line ≡ self.old.line) }
        ensures disk { self.new.disk ≡ self.old.disk }
        ensures files { self.new.files ≡ self.old.files }
        ensures kept { Keeps D.Disk J.schema J.base self.new.disk self.new.files self.new.line }
    {
        self.line.settle(rt)
    }

    /// Settles the step that waits: after it nothing does. Otherwise it still waits.
    pub(crate) fn settle<R: Wait>(&mut self, rt: &R) -> Result<(), Or<Failed>>
        requires kept { Keeps D.Disk J.schema J.base self.old.disk self.old.files self.old.line }
        ensures ends { Settles self.old.line (D.faults self.old.disk) result self.new.line self.new.files.log (D.faults self.new.disk) }
        ensures files { self.new.files ≡ record self.old.files { log = self.new.files.log } }
        ensures kept { Keeps D.Disk J.schema J.base self.new.disk self.new.files self.new.line }
        ensures crash { LeavesOnly D.Disk self.old.disk self.new.disk (GivesEither (J.schema self.old.line.index) (J.base self.old.line.index) self.old.line.history self.old.line.waiting) }
    {
        match self.sync_pending() {
            Ok(()) => match self.publish(rt) {
                Ok(()) => Ok(()),
                Err(NoMemory) => Err(Or::NoMemory),
            },
            Err(Failed) => Err(Or::Fault(Failed)),
        }
    }
}
