//! Each call of the disk fails once, and the script goes on: one call at most says so, and all commits that were made are there,
//! with one in doubt in its place. No job that failed changes documents.
ghost use Rattle.std.specs.Prelude.{◌≡◌, All};
ghost use Rattle.directory_vectors.specs.Ready.{IsStepOf, plain};
ghost use Rattle.doc_types.specs.Schemas.{IsSchema};

use crate::crashes::OUTCOMES;
use crate::opening::gives;
use crate::running::run;
use crate::scripts::{SCRIPT, STEPS, first_steps, schema};
use crate::step::Step;
use chunk_store::MemoryDisk;
use doc_types::Schema;
use std::alloc::Global;
use std::sync::Wait;
use std::thread::Threads;

/// How many calls are let fail, one by one; the script has fewer.
const CALLS: u64 = 240;

/// What the script may tell where a call fails, and what is there then, worked out by hand: a commit that the disk refuses isn't
/// made, and one in doubt is; a job that fails may be begun anew, and one that fails while it replaces the root may be found.
const TOLD: &str = "
not opened ⇒ 0 0 0
0 0 0 + + # + + + + # ~ - + # - + # # + ⇒ 1 1 0; 3 born 9
0 0 0 ! + # + + + + # ~ - + # - + # # + ⇒ 1 1 0; 3 born 8
0 0 0 + ! # + + + + # ~ - + # - + # # + ⇒ 1 1 0; 3 born 8
0 0 0 + + ! + + + + # ~ - + # - + # # + ⇒ 1 1 0; 3 born 9
0 0 0 + + # ! + + + # ~ - + # - + # # + ⇒ 1 1 0; 3 born 8
0 0 0 + + # + ! + + # ~ - + # - + # # + ⇒ 1 1 0; 3 born 8
0 0 0 + + # + + ! + # ~ - + # - + # # + ⇒ 1 1 0; 3 born 8
0 0 0 + + # + + + ! # ~ + + # - + # # + ⇒ 2 1 1; 3 born 9; 8 born 4
0 0 0 + + # + + + + ! # - + # - + # # + ⇒ 1 1 0; 3 born 9
0 0 0 + + # + + + + # ~ - ! # - + # # + ⇒ 2 1 1; 3 born 8; 5 born 6
0 0 0 + + # + + + + # ~ - + ! - + # # + ⇒ 1 1 0; 3 born 9
0 0 0 + + # + + + + # ~ - + # - ! # # + ⇒ 2 1 1; 3 born 8; 6 born 7
0 0 0 + + # + + + + # ~ - + # - + ! # + ⇒ 1 1 0; 3 born 9
0 0 0 + + # + + + + # ~ - + # - + # ! + ⇒ 1 1 2; 3 born 9 | 1 1 0; 3 born 9
0 0 0 + + # + + + + # ~ - + # - + # # ! ⇒ 0 0 0
0 0 0 ? + # + + + + # ~ - + # - + # # + ⇒ 1 1 0; 3 born 9
0 0 0 + ? # + + + + # ~ - + # - + # # + ⇒ 1 1 0; 3 born 9
0 0 0 + + # ? + + + # ~ - + # - + # # + ⇒ 1 1 0; 3 born 9
0 0 0 + + # + ? + + # ~ - + # - + # # + ⇒ 1 1 0; 3 born 9
0 0 0 + + # + + ? + # ~ - + # - + # # + ⇒ 1 1 0; 3 born 9
0 0 0 + + # + + + ? # ~ - + # - + # # + ⇒ 1 1 0; 3 born 9
0 0 0 + + # + + + + # ~ - ? # - + # # + ⇒ 1 1 0; 3 born 9
0 0 0 + + # + + + + # ~ - + # - ? # # + ⇒ 1 1 0; 3 born 9
0 0 0 + + # + + + + # ~ - + # - + # # ? ⇒ 1 1 0; 3 born 9
";

/// What a disk is to give after this was told.
fn wanted_of(told: &str) -> Option<&'static str> {
    for line in TOLD.lines().skip(1) {
        let (text, wanted) = line.split_once(" ⇒ ")?;
        if text == told {
            return Some(wanted);
        }
    }
    None
}

/// None where a disk gives something else than what was told.
fn gives_all<R: Threads + Wait>(
    rt: &R,
    alloc: Global,
    disk: &MemoryDisk,
    schema: &Schema,
    said: &mut String,
) -> Option<()>
    requires { IsSchema schema.now }
{
    let wanted = wanted_of(said.as_str())?;
    for pick in 0..OUTCOMES {
        gives(rt, alloc, disk, (disk.calls(), pick), schema, wanted, said)?;
    }
    Some(())
}

/// None where a failing call leaves something else than the commits that were made.
fn fails_well<R: Threads + Wait>(
    rt: &R,
    alloc: Global,
    call: u64,
    schema: &Schema,
    steps: &[Step],
    said: &mut String,
) -> Option<()>
    requires schema { IsSchema schema.now }
    requires of { All (IsStepOf schema.now) steps.now }
{
    let failing = Vec::from_slice(alloc, &[call]).ok()?;
    let fresh = MemoryDisk::new(alloc, failing);
    said.clear();
    let disk = run(rt, alloc, fresh, schema, steps, said);
    gives_all(rt, alloc, &disk, schema, said)
}

/// None where one of the calls does.
fn all_fail_well<R: Threads + Wait>(
    rt: &R,
    alloc: Global,
    schema: &Schema,
    steps: &[Step],
    said: &mut String,
) -> Option<()>
    requires schema { IsSchema schema.now }
    requires of { All (IsStepOf schema.now) steps.now }
{
    for call in 0..CALLS {
        fails_well(rt, alloc, call, schema, steps, said)?;
    }
    Some(())
}

/// None where a failing call leaves something else than it may; then that is said.
pub(crate) fn are_kept<R: Threads + Wait>(rt: &R, alloc: Global, said: &mut String) -> Option<()> {
    let schema = schema(alloc);
    let steps = first_steps(alloc, SCRIPT, STEPS)?;
    all_fail_well(rt, alloc, &schema, steps.as_slice(), said)
}
