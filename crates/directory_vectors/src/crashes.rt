//! The script, stopped after each call of the disk with each outcome of a crash, and opened again: it has the documents after all
//! steps that were acknowledged before, and maybe those of the one on its way. It is stopped again while it is opened.
ghost use Rattle.doc_types.specs.Schemas.{IsSchema};
ghost use Rattle.std.specs.Prelude.{◌≡◌};
ghost use Rattle.directory_vectors.specs.Ready.{plain};

use crate::opening::{gives, is_wanted, reopened};
use crate::running::run;
use crate::scripts::{SCRIPT, STEPS, first_steps, left_after, schema};
use chunk_store::MemoryDisk;
use doc_types::Schema;
use std::alloc::Global;
use std::sync::Wait;
use std::thread::Threads;

/// How many outcomes of a crash are tried.
pub(crate) const OUTCOMES: u8 = 4;

/// None where a disk that was opened gives something else after a crash at a moment of opening than was said of it.
fn gives_again<R: Threads + Wait>(
    rt: &R,
    alloc: Global,
    disk: &MemoryDisk,
    schema: &Schema,
    wanted: &str,
    said: &mut String,
) -> Option<()>
    requires { IsSchema schema.now }
{
    is_wanted(wanted, said)?;
    let found = said.clone().ok()?;
    for calls in 0..=disk.calls() {
        for pick in 0..OUTCOMES {
            gives(rt, alloc, disk, (calls, pick), schema, found.as_str(), said)?;
        }
    }
    Some(())
}

/// None where a crash leaves something else than this, or a crash while that is opened.
fn leaves<R: Threads + Wait>(
    rt: &R,
    alloc: Global,
    whole: &MemoryDisk,
    at: (u64, u8),
    schema: &Schema,
    wanted: &str,
    said: &mut String,
) -> Option<()>
    requires { IsSchema schema.now }
{
    let disk = reopened(rt, alloc, whole, at, schema, said)?;
    gives_again(rt, alloc, &disk, schema, wanted, said)
}

/// None where a crash behind these calls leaves neither what was there before a commit nor what is after it.
fn leaves_either<R: Threads + Wait>(
    rt: &R,
    alloc: Global,
    whole: &MemoryDisk,
    calls: u64,
    schema: &Schema,
    wanted: (&str, &str),
    said: &mut String,
) -> Option<()>
    requires { IsSchema schema.now }
{
    let (before, after) = wanted;
    for pick in 0..OUTCOMES {
        if leaves(rt, alloc, whole, (calls, pick), schema, before, said).is_none() {
            leaves(rt, alloc, whole, (calls, pick), schema, after, said)?;
        }
    }
    Some(())
}

/// The disk after the first steps of the script, of which is said what it tells.
fn disk_after<R: Threads + Wait>(
    rt: &R,
    alloc: Global,
    count: usize,
    schema: &Schema,
    said: &mut String,
) -> Option<MemoryDisk>
    requires { schema.now ≡ plain }
{
    let steps = first_steps(alloc, SCRIPT, count)?;
    let fresh = MemoryDisk::new(alloc, Vec::new(alloc));
    Some(run(rt, alloc, fresh, schema, steps.as_slice(), said))
}

/// None where a crash behind any of the calls of the whole script leaves something else than it may.
fn leaves_all<R: Threads + Wait>(
    rt: &R,
    alloc: Global,
    whole: &MemoryDisk,
    schema: &Schema,
    said: &mut String,
) -> Option<()>
    requires { schema.now ≡ plain }
{
    let mut from = 0;
    for count in 0..=STEPS {
        let (before, after) = (left_after(count.saturating_sub(1))?, left_after(count)?);
        let to = disk_after(rt, alloc, count, schema, said)?.calls();
        for calls in from..to {
            leaves_either(rt, alloc, whole, calls, schema, (before, after), said)?;
        }
        from = to;
    }
    let last = left_after(STEPS)?;
    leaves_either(rt, alloc, whole, from, schema, (last, last), said)
}

/// None where a crash leaves something else than what was acknowledged; then that is said.
pub(crate) fn are_left<R: Threads + Wait>(rt: &R, alloc: Global, said: &mut String) -> Option<()> {
    let schema = schema(alloc);
    let whole = disk_after(rt, alloc, STEPS, &schema, said)?;
    leaves_all(rt, alloc, &whole, &schema, said)
}
