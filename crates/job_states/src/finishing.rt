//! The end of a job.
ghost use Rattle.std.specs.Prelude.{◌≡◌, ◌<◌, ◌≤◌, ◌+◌, ◌^◌, None, Some, true, All, IfSome, OnOk, OnErr, length};
ghost use Rattle.std.specs.Option.{option_copied};
ghost use Rattle.store_steps.specs.Kept.{Gives, IsKept, LeavesOnly};
ghost use Rattle.job_chunks.specs.Chunks.{HasFewRows};
ghost use Rattle.job_states.specs.States.{HasEndCause, HasSeen, IsRebased, TakesSome, new_entries};
ghost use Rattle.reshape_laws.specs.Rebasing.{staying};
ghost use Rattle.root_slots.specs.States.{most_chunks};
ghost use Rattle.step_history.specs.History.{Reshape, last_snapshot};

use crate::state::state_of;
use chunk_store::Disk;
use doc_types::{Chunk, Snapshot};
use job_files::install;
use root_slots::RootBytes;
use srch_base::{Failed, NoMemory};
use std::alloc::Global;
use step_book::{Front, Made, Naming};
use step_history::Job;
use store_steps::Files;

/// Why a job ends without effect.
#[derive(Clone, Copy)]
pub enum EndFault {
    NoMemory,
    Disk,
}

/// Writes the end of a job that began over an earlier snapshot of the same shape, and whose chunk has these bytes. The step waits from
/// then on.
pub fn finish<D: Disk, J: Naming, C: Chunk>(
    alloc: Global,
    files: &mut Files,
    disk: &mut D,
    front: &Front<J>,
    job: Job,
    then: &Snapshot<C>,
    now: &Snapshot<C>,
    chunk: Option<&[u8]>,
    next: &Snapshot<C>,
) -> Result<(), EndFault>
    requires kept { IsKept D.Disk (J.schema front.now.index) (J.base front.now.index) front.now.steps None disk.old files.old }
    requires rests { files.old.log.staged ≡ None }
    requires seen { HasSeen (J.base front.now.index) front.now.steps then.now }
    requires now { now.now ≡ last_snapshot (J.base front.now.index) front.now.steps }
    requires same { now.now.shape ≡ then.now.shape }
    requires built { IsRebased (J.schema front.now.index) job then.now now.now (option_copied chunk) next.now }
    requires room { files.old.root.number < 2 ^ 63 }
    requires numbers { files.old.next_file + 2 < 2 ^ 32 }
    requires number { then.now.number < 2 ^ 63 }
    requires small { IfSome (option_copied chunk) (λ bytes. length bytes < 2 ^ 32) }
    requires few { length (staying job then.now) + length (new_entries files.old.next_file (option_copied chunk)) ≤ most_chunks }
    requires short { All (λ layer. HasFewRows layer.rows) then.now.layers }
    ensures ok { OnOk result (IsKept D.Disk (J.schema front.now.index) (J.base front.now.index) front.now.steps (Some (Reshape job then.now.number next.now)) disk.new files.new) }
    ensures err { OnErr result (IsKept D.Disk (J.schema front.now.index) (J.base front.now.index) front.now.steps None disk.new files.new) }
    ensures sure { OnOk result (files.new.sure ≡ true) }
    ensures rests { files.new.log.staged ≡ None }
    ensures numbers { TakesSome files.old result files.new }
    ensures crash { LeavesOnly D.Disk disk.old disk.new (Gives (J.schema front.now.index) (J.base front.now.index) front.now.steps) }
    ensures cause { HasEndCause (D.faults disk.old) (D.faults disk.new) result }
{
    let _steps = front.len();
    let _then = then.layers.as_slice();
    let _now = now.layers.as_slice();
    let file = files.next_file;
    match state_of(alloc, &files.state, job, then, file, chunk) {
        Ok(state) => match RootBytes::new(alloc, &state) {
            Ok(bytes) => {
                let made = Made::reshape(job, then.number, next);
                match install(files, disk, front, &made, chunk, state, &bytes) {
                    Ok(()) => Ok(()),
                    Err(Failed) => Err(EndFault::Disk),
                }
            }
            Err(NoMemory) => Err(EndFault::NoMemory),
        },
        Err(NoMemory) => Err(EndFault::NoMemory),
    }
}
