//! The flags of a query's tree, joined from those of its keywords.
ghost use Rattle.std.specs.Prelude.{◌≡◌, ◌+◌, ◌≤◌, ◌||◌, ℕ, List, true, length, IfOk};
ghost use Rattle.row_flags.specs.steps.Flags.{AreFlags, all_pass, node_matches};

use crate::combining::{add, keep, new_flags};
use crate::keys::flag_key;
use doc_types::CountedLists;
use query_tree::{Item, Node};
use srch_base::{NoMemory, Steps};
use std::alloc::Global;

/// Sets the flags of the rows from one on by whether the node matches them; or tells that more than words and their fields decides
/// that.
#[cycle(flagging)]
pub(crate) fn flag<C: CountedLists>(
    alloc: Global,
    node: &Node,
    chunk: &C,
    from: u32,
    into: &mut [bool],
    steps: &mut Steps<C::Book>,
) -> Result<bool, NoMemory>
    requires { from + length into.old ≤ length (C.content chunk.now) }
    ensures long { length into.new ≡ length into.old }
    ensures flags { (number : List ℕ → ℕ) → IfOk result (λ told. told ≡ true → AreFlags (node_matches number node.now) (C.content chunk.now) from into.new) }
{
    match node {
        Node::Word(key) => Ok(flag_key(key, chunk, from, into, steps)),
        Node::And(items) => flag_all(alloc, items.as_slice(), chunk, from, into, steps),
        Node::Or(a, b) => flag_either(alloc, a.get(), b.get(), chunk, from, into, steps),
        Node::Maybe(a, _) => flag(alloc, a.get(), chunk, from, into, steps),
        _ => Ok(false),
    }
}

/// The same for either of two nodes.
#[cycle(flagging)]
fn flag_either<C: CountedLists>(
    alloc: Global,
    a: &Node,
    b: &Node,
    chunk: &C,
    from: u32,
    into: &mut [bool],
    steps: &mut Steps<C::Book>,
) -> Result<bool, NoMemory>
    requires { from + length into.old ≤ length (C.content chunk.now) }
    ensures long { length into.new ≡ length into.old }
    ensures flags { (number : List ℕ → ℕ) → IfOk result (λ told. told ≡ true → AreFlags (λ row. node_matches number a.now row || node_matches number b.now row) (C.content chunk.now) from into.new) }
{
    if !flag(alloc, a, chunk, from, into, steps)? {
        return Ok(false);
    }
    let mut others = new_flags(alloc, into.len())?;
    if !flag(alloc, b, chunk, from, &mut others, steps)? {
        return Ok(false);
    }
    add(into, &others);
    Ok(true)
}

/// The same for all items of an AND.
#[cycle(flagging)]
fn flag_all<C: CountedLists>(
    alloc: Global,
    items: &[Item],
    chunk: &C,
    from: u32,
    into: &mut [bool],
    steps: &mut Steps<C::Book>,
) -> Result<bool, NoMemory>
    requires { from + length into.old ≤ length (C.content chunk.now) }
    ensures long { length into.new ≡ length into.old }
    ensures flags { (number : List ℕ → ℕ) → IfOk result (λ told. told ≡ true → AreFlags (all_pass number items.now) (C.content chunk.now) from into.new) }
{
    into.fill(true);
    let mut own = new_flags(alloc, into.len())?;
    for item in items {
        if !flag(alloc, &item.node, chunk, from, &mut own, steps)? {
            return Ok(false);
        }
        keep(into, &own, !item.negated);
    }
    Ok(true)
}
