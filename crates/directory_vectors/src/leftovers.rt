//! A job is stopped behind each of its calls of the disk, and its chunk may be left in a file that no root names. The store is opened
//! again, all documents but one are removed, and the job is made again: its chunk is shorter, and takes the number of that file.
//! A chunk's file is read as a whole, so bytes behind its end would be damage.
ghost use Rattle.std.specs.Prelude.{◌≡◌};
ghost use Rattle.directory_vectors.specs.Ready.{plain};

use crate::crashes::OUTCOMES;
use crate::opening::gives;
use crate::running::run;
use crate::scripts::{REST, TWICE, first_steps, schema};
use chunk_store::MemoryDisk;
use doc_types::Schema;
use std::alloc::Global;
use std::sync::Wait;
use std::thread::Threads;

/// What is there in the end, worked out by hand: a chunk, and the document that is left.
const ONE: &str = "1 0 1; 1 born 1";

/// The disk after the first steps of the ten documents and their job.
fn disk_after<R: Threads + Wait>(
    rt: &R,
    alloc: Global,
    count: usize,
    schema: &Schema,
    said: &mut String,
) -> Option<MemoryDisk>
    requires { schema.now ≡ plain }
{
    let steps = first_steps(alloc, TWICE, count)?;
    let fresh = MemoryDisk::new(alloc, Vec::new(alloc));
    Some(run(rt, alloc, fresh, schema, steps.as_slice(), said))
}

/// None where the job that is made again behind a crash leaves something else than the one document.
fn is_replaced<R: Threads + Wait>(
    rt: &R,
    alloc: Global,
    whole: &MemoryDisk,
    at: (u64, u8),
    schema: &Schema,
    said: &mut String,
) -> Option<()>
    requires { schema.now ≡ plain }
{
    let (calls, pick) = at;
    let steps = first_steps(alloc, REST, 2)?;
    let left = whole.after_crash(calls, pick).ok()?;
    said.clear();
    let disk = run(rt, alloc, left, schema, steps.as_slice(), said);
    if !said.as_str().ends_with(" + #") {
        return None;
    }
    gives(rt, alloc, &disk, (disk.calls(), 0), schema, ONE, said)
}

/// None where that comes behind any call of the first job; then it is said.
pub(crate) fn are_replaced<R: Threads + Wait>(
    rt: &R,
    alloc: Global,
    said: &mut String,
) -> Option<()> {
    let schema = schema(alloc);
    let from = disk_after(rt, alloc, 1, &schema, said)?.calls();
    let whole = disk_after(rt, alloc, 2, &schema, said)?;
    for calls in from..=whole.calls() {
        for pick in 0..OUTCOMES {
            is_replaced(rt, alloc, &whole, (calls, pick), &schema, said)?;
        }
    }
    Some(())
}
