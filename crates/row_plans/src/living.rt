//! The rows that a plan lets through and that aren't dead, one after another.
//!
//! The numbers of the dead rows ascend, and stand beside the rows: a count says how many of them lie before the row at hand, so
//! each is passed once, and no row is looked for among all of them.
ghost use Rattle.std.specs.Prelude.{◌≡◌, ◌<◌, ◌≤◌, ◌==◌, All, AllPairs, IfOk, IfSome, length};
ghost use Rattle.std.specs.List.{filter, list_any, range_with_len};
ghost use Rattle.row_plans.specs.Cursors.{Agree, has_at};
ghost use Rattle.row_plans.specs.Living.{HasGone, is_living};
ghost use Rattle.row_plans.specs.Plans.{IsFirst};

use crate::bounds::next;
use crate::plan::Plan;
use doc_types::{Chunk, Cursor, NO_ROW};
use srch_base::NoMemory;
use std::alloc::Global;

/// Whether the row is dead. The first `gone` of the dead rows lie before it.
fn is_dead(dead: &[u32], gone: &mut usize, row: u32) -> bool
    requires ascend { AllPairs (λ row later. row < later) dead.now }
    requires gone { HasGone dead.now gone.old row }
    ensures gone { HasGone dead.now gone.new row }
    ensures dead { result ≡ list_any (λ d. d == row) dead.now }
{
    'gone_over: while *gone < dead.len() && dead[*gone] < row {
        *gone += 1;
    }
    *gone < dead.len() && dead[*gone] == row
}

/// The first row from this one on that isn't dead and whose words are as the plan wants; `NO_ROW` where there is none. The first
/// `gone` of the dead rows lie before the row at which it begins, and then before that which it answers.
pub fn next_living<C: Chunk>(
    plan: &Plan,
    chunk: &C,
    cursors: &mut [Option<Cursor>],
    dead: &[u32],
    gone: &mut usize,
    from: u32,
) -> u32
    requires belongs { All (λ cursor. IfSome cursor (C.belongs chunk.now)) cursors.old }
    requires ascend { AllPairs (λ row later. row < later) dead.now }
    requires gone { HasGone dead.now gone.old from }
    ensures agree { Agree (C.belongs chunk.now) (C.place chunk.now) result cursors.old cursors.new }
    ensures gone { HasGone dead.now gone.new result }
    ensures first { IsFirst (λ row. is_living (has_at (C.place chunk.now) cursors.old row) plan.now dead.now row) from result }
{
    let mut at = from;
    'rows: while at < NO_ROW {
        let row = next(plan, chunk, cursors, at);
        if row == NO_ROW || !is_dead(dead, gone, row) {
            return row;
        }
        at = row + 1;
    }
    at
}

/// The rows below `count` that aren't dead and whose words are as the plan wants: each once, ascending.
pub fn rows_of<C: Chunk>(
    alloc: Global,
    plan: &Plan,
    chunk: &C,
    cursors: &mut [Option<Cursor>],
    dead: &[u32],
    count: u32,
) -> Result<Vec<u32>, NoMemory>
    requires belongs { All (λ cursor. IfSome cursor (C.belongs chunk.now)) cursors.old }
    requires ascend { AllPairs (λ row later. row < later) dead.now }
    ensures { IfOk result (λ found. found.items ≡ filter (λ row. is_living (has_at (C.place chunk.now) cursors.old row) plan.now dead.now row) (range_with_len 0 count)) }
{
    let mut found = Vec::new(alloc);
    let mut gone = 0;
    let mut at = 0;
    'rows: while at < count {
        let row = next_living(plan, chunk, cursors, dead, &mut gone, at);
        if row >= count {
            return Ok(found);
        }
        found.push(row)?;
        at = row + 1;
    }
    Ok(found)
}
