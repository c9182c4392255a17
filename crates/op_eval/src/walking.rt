//! The next row of a chunk by the plan of a query's tree.
ghost use Rattle.std.specs.Prelude.{◌≡◌, ◌<◌, ◌≤◌, map, length, unwrap_or, AllPairs, IfOk};
ghost use Rattle.doc_types.specs.Chunks.{rows_with};
ghost use Rattle.query_tree.specs.declared.query.Node.{Node as NodeValue};
ghost use Rattle.query_tree.specs.TreeKeys.{node_keys};
ghost use Rattle.word_rows.specs.Slots.{AreSlots, keys_of};
ghost use Rattle.op_eval.specs.steps.Planned.{Serves};
ghost use Rattle.op_eval.specs.steps.Streaming.{IsFirstOpen};
ghost use Rattle.op_eval.specs.steps.Wanted.{is_wanted};
ghost use Rattle.row_plans.specs.Living.{HasGone};

use doc_types::Chunk;
use query_tree::Key;
use row_plans::{Plan, next_living};
use srch_base::NoMemory;
use std::alloc::Global;
use word_rows::Slots;

/// How many rows have the word of each keyword.
pub(crate) fn row_counts<C: Chunk>(
    alloc: Global,
    keys: &[&Key],
    chunk: &C,
) -> Result<Vec<u32>, NoMemory>
    ensures { IfOk result (λ counts. counts.items ≡ map (λ key. length (rows_with key.now.word (C.content chunk.now))) keys.now) }
{
    let mut counts = Vec::new(alloc);
    for key in keys {
        counts.push(chunk.count(key.word.as_bytes()))?;
    }
    Ok(counts)
}

/// The first row from this one on that isn't dead and may match the tree that the plan serves, as far as its words tell. The first
/// `gone` of the dead rows lie before the row at which it begins, and then before that which it answers.
pub(crate) fn next_row_alive<C: Chunk>(
    plan: &Plan,
    chunk: &C,
    slots: &mut Slots,
    dead: &[u32],
    gone: &mut usize,
    from: u32,
) -> Option<u32>
    requires from { from ≤ length (C.content chunk.now) }
    requires ascend { AllPairs (λ row later. row < later) dead.now }
    requires gone { HasGone dead.now gone.old from }
    requires slots { AreSlots (C.belongs chunk.now) (C.place chunk.now) (C.content chunk.now) from slots.old }
    ensures keys { slots.new.keys ≡ slots.old.keys }
    ensures gone { HasGone dead.now gone.new (unwrap_or result (length (C.content chunk.now))) }
    ensures slots { AreSlots (C.belongs chunk.now) (C.place chunk.now) (C.content chunk.now) (unwrap_or result (length (C.content chunk.now))) slots.new }
    ensures first { (root : NodeValue) → keys_of slots.old ≡ node_keys root → Serves plan.now root → IsFirstOpen (is_wanted root dead.now) dead.now (C.content chunk.now) from result }
{
    let before = *gone;
    let row = next_living(plan, chunk, &mut slots.cursors, dead, gone, from);
    if row < chunk.rows() {
        return Some(row);
    }
    *gone = before;
    None
}
