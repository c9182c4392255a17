//! How many rows match, by the flags of many rows at a time.
ghost use Rattle.std.specs.Prelude.{◌≡◌, ◌+◌, ◌<◌, ◌≤◌, ◌^◌, AllPairs, IfOk, IfSome, length, true};
ghost use Rattle.op_eval.specs.Streams.{matching_from};
ghost use Rattle.op_eval.specs.steps.Wanted.{is_wanted, numbers_from};
ghost use Rattle.row_flags.specs.steps.Flags.{AreLivingFlags};

use crate::combining::{bury, count_set, new_flags};
use crate::trees::flag;
use doc_types::CountedLists;
use query_tree::{Node, Query};
use srch_base::{NoMemory, Steps};
use std::alloc::Global;

/// How many rows have their flags at the same time.
const WINDOW: u32 = 0x1_0000;

/// How many of the rows from one on match the query and aren't dead, where words and their fields decide that; None where more does,
/// and of a query without a word.
pub fn count_from<C: CountedLists>(
    alloc: Global,
    query: &Query,
    chunk: &C,
    dead: &[u32],
    from: u32,
    steps: &mut Steps<C::Book>,
) -> Result<Option<u32>, NoMemory>
    requires within { from ≤ length (C.content chunk.now) }
    requires ascend { AllPairs (λ row later. row < later) dead.now }
    ensures { IfOk result (λ told. IfSome told (λ count. count ≡ length (matching_from from query.now (C.content chunk.now) dead.now))) }
{
    match &query.root {
        None => Ok(None),
        Some(root) => count_rows(alloc, root, chunk, dead, from, steps),
    }
}

/// The same for a query's tree.
fn count_rows<C: CountedLists>(
    alloc: Global,
    root: &Node,
    chunk: &C,
    dead: &[u32],
    from: u32,
    steps: &mut Steps<C::Book>,
) -> Result<Option<u32>, NoMemory>
    requires within { from ≤ length (C.content chunk.now) }
    requires ascend { AllPairs (λ row later. row < later) dead.now }
    ensures { IfOk result (λ told. IfSome told (λ count. count ≡ length (numbers_from (is_wanted root.now dead.now) from (C.content chunk.now)))) }
{
    let rows = chunk.rows();
    let mut count = 0;
    let mut at = from;
    'windows: while at < rows {
        let size = (rows - at).min(WINDOW);
        match count_window(alloc, root, chunk, dead, at, size, steps)? {
            Some(more) => count += more,
            None => return Ok(None),
        }
        at += size;
    }
    Ok(Some(count))
}

/// How many of so many rows from one on match the tree and aren't dead.
fn count_window<C: CountedLists>(
    alloc: Global,
    root: &Node,
    chunk: &C,
    dead: &[u32],
    from: u32,
    size: u32,
    steps: &mut Steps<C::Book>,
) -> Result<Option<u32>, NoMemory>
    requires within { from + size ≤ length (C.content chunk.now) }
    requires ascend { AllPairs (λ row later. row < later) dead.now }
    ensures { IfOk result (λ told. IfSome told (λ count. count + length (numbers_from (is_wanted root.now dead.now) (from + size) (C.content chunk.now)) ≡ length (numbers_from (is_wanted root.now dead.now) from (C.content chunk.now)))) }
{
    let mut flags = new_flags(alloc, size as usize)?;
    count_flagged(alloc, root, chunk, dead, from, &mut flags, steps)
}

/// How many of the rows from one on match the tree and aren't dead, of as many as there are flags.
fn count_flagged<C: CountedLists>(
    alloc: Global,
    root: &Node,
    chunk: &C,
    dead: &[u32],
    from: u32,
    flags: &mut [bool],
    steps: &mut Steps<C::Book>,
) -> Result<Option<u32>, NoMemory>
    requires within { from + length flags.old ≤ length (C.content chunk.now) }
    requires few { length flags.old < 2 ^ 32 }
    requires ascend { AllPairs (λ row later. row < later) dead.now }
    ensures { IfOk result (λ told. IfSome told (λ count. count + length (numbers_from (is_wanted root.now dead.now) (from + length flags.old) (C.content chunk.now)) ≡ length (numbers_from (is_wanted root.now dead.now) from (C.content chunk.now)))) }
{
    if !flag_living(alloc, root, chunk, dead, from, flags, steps)? {
        return Ok(None);
    }
    Ok(Some(count_set(flags) as u32))
}

/// Sets the flags of the rows from one on by whether the tree matches them and they aren't dead; or tells that more than words and
/// their fields decides that.
pub(crate) fn flag_living<C: CountedLists>(
    alloc: Global,
    root: &Node,
    chunk: &C,
    dead: &[u32],
    from: u32,
    into: &mut [bool],
    steps: &mut Steps<C::Book>,
) -> Result<bool, NoMemory>
    requires within { from + length into.old ≤ length (C.content chunk.now) }
    requires ascend { AllPairs (λ row later. row < later) dead.now }
    ensures long { length into.new ≡ length into.old }
    ensures flags { IfOk result (λ told. told ≡ true → AreLivingFlags root.now dead.now (C.content chunk.now) from into.new) }
{
    if !flag(alloc, root, chunk, from, into, steps)? {
        return Ok(false);
    }
    bury(dead, from, into);
    Ok(true)
}
