//! A job fails at each of its calls of the disk, a document is committed, and the job is made again: wherever that is stopped, all
//! documents are there. Where the job failed while it replaced the root, either of two states may be found until the second one ends.
ghost use Rattle.std.specs.Prelude.{◌≡◌};
ghost use Rattle.directory_vectors.specs.Ready.{plain};

use crate::crashes::OUTCOMES;
use crate::opening::gives;
use crate::running::run;
use crate::scripts::{TWICE, first_steps, schema};
use chunk_store::MemoryDisk;
use doc_types::Schema;
use std::alloc::Global;
use std::sync::Wait;
use std::thread::Threads;

/// What may be there: the documents, which two commits put that no chunk has, or one, or none.
const ELEVEN: &str =
    "11 2 0; 1 born 1; 2 born 1; 3 born 1; 4 born 1; 5 born 1; 6 born 1; 7 born 1; 8 born 1; 9 born 1; 10 born 1; 11 born 2 | \
11 1 1; 1 born 1; 2 born 1; 3 born 1; 4 born 1; 5 born 1; 6 born 1; 7 born 1; 8 born 1; 9 born 1; 10 born 1; 11 born 2 | \
11 0 1; 1 born 1; 2 born 1; 3 born 1; 4 born 1; 5 born 1; 6 born 1; 7 born 1; 8 born 1; 9 born 1; 10 born 1; 11 born 2";

/// The disk after the first steps, where this call failed.
fn disk_after<R: Threads + Wait>(
    rt: &R,
    alloc: Global,
    count: usize,
    failed: u64,
    schema: &Schema,
    said: &mut String,
) -> Option<MemoryDisk>
    requires { schema.now ≡ plain }
{
    let steps = first_steps(alloc, TWICE, count)?;
    let failing = Vec::from_slice(alloc, &[failed]).ok()?;
    said.clear();
    let fresh = MemoryDisk::new(alloc, failing);
    Some(run(rt, alloc, fresh, schema, steps.as_slice(), said))
}

/// None where the second job leaves something else than the documents, stopped at a call of the disk behind these.
fn keeps<R: Threads + Wait>(
    rt: &R,
    alloc: Global,
    whole: &MemoryDisk,
    from: u64,
    schema: &Schema,
    said: &mut String,
) -> Option<()>
    requires { schema.now ≡ plain }
{
    for calls in from..=whole.calls() {
        for pick in 0..OUTCOMES {
            gives(rt, alloc, whole, (calls, pick), schema, ELEVEN, said)?;
        }
    }
    Some(())
}

/// None where it does, after this call of the first job failed, which says so.
fn keeps_after<R: Threads + Wait>(
    rt: &R,
    alloc: Global,
    failed: u64,
    schema: &Schema,
    said: &mut String,
) -> Option<()>
    requires { schema.now ≡ plain }
{
    let from = disk_after(rt, alloc, 3, failed, schema, said)?.calls();
    let whole = disk_after(rt, alloc, 4, failed, schema, said)?;
    if said.as_str() != "0 0 0 + ! + #" {
        return None;
    }
    keeps(rt, alloc, &whole, from, schema, said)
}

/// None where a call of the first job that fails leaves something else than it may; then that is said. The last one opens the gate of
/// the new root.
pub(crate) fn are_all_there<R: Threads + Wait>(
    rt: &R,
    alloc: Global,
    said: &mut String,
) -> Option<()> {
    let schema = schema(alloc);
    let from = disk_after(rt, alloc, 1, 0, &schema, said)?.calls();
    let to = disk_after(rt, alloc, 2, 0, &schema, said)?.calls();
    for failed in from + 1..=to {
        keeps_after(rt, alloc, failed, &schema, said)?;
    }
    Some(())
}
