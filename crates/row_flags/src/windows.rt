//! What is known of many rows at a time by the words of a query alone: which of them match, how many of its keywords have their words
//! in each, and in which fields its hits lie.
ghost use Rattle.std.specs.Prelude.{◌≡◌, ◌+◌, ◌<◌, ◌≤◌, Some, AllPairs, IfOk, IfSome, length, map, true};
ghost use Rattle.query_tree.specs.declared.query.Query.{Query as QueryValue};
ghost use Rattle.op_eval.specs.Fields.{GoesByFields};
ghost use Rattle.row_flags.specs.Windows.{AreFieldsTold, AreTold};
ghost use Rattle.row_flags.specs.steps.Tallies.{first_told};

use crate::combining::new_flags;
use crate::counting::flag_living;
use crate::tallies::tally_tree;
use doc_types::CountedLists;
use query_tree::{Node, Query};
use srch_base::{NoMemory, Steps};
use std::alloc::Global;

/// What is known of a row by the words of a query alone.
#[derive(Clone, Copy)]
pub struct Told {
    /// Whether the query matches it and it isn't dead.
    pub found: bool,
    /// How many of the query's keywords have their word in it; 65,535 stands for more too.
    pub words: u16,
    /// Fields in which all its hits lie, as bits.
    pub fields: u32,
}

/// What is known of so many rows from one on, where words and their fields decide which of them match; None where more does, and of a
/// query without a word. Where `by_fields` doesn't ask for it, no fields are looked for, and all stand for them. Where it does, and the
/// query is one keyword that goes by its fields, they are exactly those that have a hit.
pub fn told_rows<C: CountedLists>(
    alloc: Global,
    query: &Query,
    chunk: &C,
    dead: &[u32],
    from: u32,
    size: u32,
    by_fields: bool,
    steps: &mut Steps<C::Book>,
) -> Result<Option<Vec<Told>>, NoMemory>
    requires within { from + size ≤ length (C.content chunk.now) }
    requires ascend { AllPairs (λ row later. row < later) dead.now }
    ensures told { IfOk result (λ told. IfSome told (λ rows. AreTold query.now dead.now (C.content chunk.now) from rows.items)) }
    ensures exact { by_fields ≡ true → GoesByFields query.now → IfOk result (λ told. IfSome told (λ rows. AreFieldsTold query.now (C.content chunk.now) from rows.items)) }
    ensures long { IfOk result (λ told. IfSome told (λ rows. length rows.items ≡ size)) }
{
    match &query.root {
        None => Ok(None),
        Some(root) => told_by_tree(alloc, root, chunk, dead, from, size, by_fields, steps),
    }
}

/// The same by a query's tree.
fn told_by_tree<C: CountedLists>(
    alloc: Global,
    root: &Node,
    chunk: &C,
    dead: &[u32],
    from: u32,
    size: u32,
    by_fields: bool,
    steps: &mut Steps<C::Book>,
) -> Result<Option<Vec<Told>>, NoMemory>
    requires within { from + size ≤ length (C.content chunk.now) }
    requires ascend { AllPairs (λ row later. row < later) dead.now }
    ensures told { (query : QueryValue) → query.root ≡ Some root.now → IfOk result (λ told. IfSome told (λ rows. AreTold query dead.now (C.content chunk.now) from rows.items)) }
    ensures exact { (query : QueryValue) → query.root ≡ Some root.now → by_fields ≡ true → GoesByFields query → IfOk result (λ told. IfSome told (λ rows. AreFieldsTold query (C.content chunk.now) from rows.items)) }
    ensures long { IfOk result (λ told. IfSome told (λ rows. length rows.items ≡ size)) }
{
    let mut flags = new_flags(alloc, size as usize)?;
    told_by_flags(alloc, root, chunk, dead, from, by_fields, &mut flags, steps)
}

/// The same of as many rows as there are flags.
fn told_by_flags<C: CountedLists>(
    alloc: Global,
    root: &Node,
    chunk: &C,
    dead: &[u32],
    from: u32,
    by_fields: bool,
    flags: &mut [bool],
    steps: &mut Steps<C::Book>,
) -> Result<Option<Vec<Told>>, NoMemory>
    requires within { from + length flags.old ≤ length (C.content chunk.now) }
    requires ascend { AllPairs (λ row later. row < later) dead.now }
    ensures told { (query : QueryValue) → query.root ≡ Some root.now → IfOk result (λ told. IfSome told (λ rows. AreTold query dead.now (C.content chunk.now) from rows.items)) }
    ensures exact { (query : QueryValue) → query.root ≡ Some root.now → by_fields ≡ true → GoesByFields query → IfOk result (λ told. IfSome told (λ rows. AreFieldsTold query (C.content chunk.now) from rows.items)) }
    ensures long { IfOk result (λ told. IfSome told (λ rows. length rows.items ≡ length flags.old)) }
{
    if !flag_living(alloc, root, chunk, dead, from, flags, steps)? {
        return Ok(None);
    }
    let mut told = first_told(alloc, flags, by_fields)?;
    tally_tree(alloc, root, chunk, from, by_fields, &mut told, steps)?;
    Ok(Some(told))
}

/// What is told of rows with these flags before any keyword was looked for.
fn first_told(alloc: Global, flags: &[bool], by_fields: bool) -> Result<Vec<Told>, NoMemory>
    ensures { IfOk result (λ told. told.items ≡ map (first_told by_fields) flags.now) }
{
    let fields = if by_fields { 0 } else { u32::MAX };
    let mut told = Vec::with_capacity(alloc, flags.len())?;
    for found in flags {
        told.push(Told {
            found: *found,
            words: 0,
            fields,
        })?;
    }
    Ok(told)
}
