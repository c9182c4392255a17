//! What one crash leaves of a disk in memory: the calls are made again, call by call, beside what the crash leaves of them.
ghost use Rattle.std.specs.Prelude.{◌≡◌, ◌≢◌, ℕ, map, reverse, IfOk, OnOk};
ghost use Rattle.chunk_store.specs.Memory.{image_of, after_call, left_after, mark, outcome, put_in, AreFitting, IsWithin};

use crate::call::Call;
use crate::stored::{Stored, write_in};
use srch_base::NoMemory;
use std::alloc::Global;

/// The files that a crash leaves after some calls on a disk that had these files.
pub(crate) fn left_by(
    alloc: Global,
    start: &Stored,
    calls: &[Call],
    pick: u8,
) -> Result<Stored, NoMemory>
    requires { AreFitting (image_of start.now) (reverse calls.now) }
    ensures { IfOk result (λ left. (f : ℕ) → image_of left f ≡ outcome pick (image_of start.now) (reverse calls.now) f) }
{
    let mut now = copy_of(start)?;
    let mut left = copy_of(start)?;
    for call in calls {
        leave(alloc, &mut left, &now, call, pick)?;
        repeat(alloc, &mut now, call)?;
    }
    Ok(left)
}

/// A copy of all files.
pub(crate) fn copy_of(files: &Stored) -> Result<Stored, NoMemory>
    ensures { IfOk result (λ copy. (f : ℕ) → image_of copy f ≡ image_of files.now f) }
{
    Ok(files.clone()?)
}

/// Makes a call again.
pub(crate) fn repeat(alloc: Global, files: &mut Stored, call: &Call) -> Result<(), NoMemory>
    requires { IsWithin (image_of files.old) call.now }
    ensures { OnOk result ((f : ℕ) → image_of files.new f ≡ after_call (image_of files.old) call.now f) }
{
    match call {
        Call::Wrote { file, at, bytes } => {
            write_in(alloc, files, *file, *at as usize, bytes.as_slice())
        }
        Call::Removed(file) => {
            let _bytes = files.remove(file);
            Ok(())
        }
        Call::Synced(_) | Call::Idle => Ok(()),
    }
}

/// Does to what a crash leaves what it leaves of one more call.
pub(crate) fn leave(
    alloc: Global,
    left: &mut Stored,
    now: &Stored,
    call: &Call,
    pick: u8,
) -> Result<(), NoMemory>
    requires { pick ≢ 0 → IsWithin (image_of left.old) call.now }
    ensures { OnOk result ((f : ℕ) → image_of left.new f ≡ left_after pick (image_of now.now) (image_of left.old) call.now f) }
{
    match call {
        Call::Wrote { file, at, bytes } => {
            if pick == 0 {
                return Ok(());
            }
            let marked = marked(alloc, bytes.as_slice(), pick)?;
            write_in(alloc, left, *file, *at as usize, marked.as_slice())
        }
        Call::Synced(file) => copy_file(alloc, left, now, *file),
        Call::Removed(file) => {
            if pick != 0 {
                let _bytes = left.remove(file);
            }
            Ok(())
        }
        Call::Idle => Ok(()),
    }
}

fn marked(alloc: Global, bytes: &[u8], pick: u8) -> Result<Vec<u8>, NoMemory>
    ensures { IfOk result (λ marked. marked.items ≡ map (mark pick) bytes.now) }
{
    let marked = bytes.iter().map(|byte| match pick {
        1 => *byte,
        2 => 1,
        _ => 255,
    });
    Ok(marked.collect(alloc)?)
}

/// Puts one file as it is among others.
fn copy_file(alloc: Global, to: &mut Stored, from: &Stored, file: u32) -> Result<(), NoMemory>
    ensures { OnOk result ((f : ℕ) → image_of to.new f ≡ put_in file (image_of from.now file) (image_of to.old) f) }
{
    match from.get(&file) {
        Some(bytes) => {
            let copy = Vec::from_slice(alloc, bytes.as_slice())?;
            let _bytes = to.insert(file, copy)?;
        }
        None => {
            let _bytes = to.remove(&file);
        }
    }
    Ok(())
}
