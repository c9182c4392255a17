//! All rows of a layer, where a search asks for no word and has no condition: each one that lives is found and weighs 1. Nothing is
//! asked of a row there, so that a count of all documents costs as little for each as can be.
ghost use Rattle.std.specs.Prelude.{◌≡◌, ◌<◌, ◌++◌, ◌==◌, List, OnOk, AllPairs, true};
ghost use Rattle.std.specs.List.{filter, list_any};
ghost use Rattle.doc_types.specs.declared.documents.DocRow.{DocRow};
ghost use Rattle.doc_types.specs.Snapshots.{living};
ghost use Rattle.op_eval.specs.Matching.{matches};
ghost use Rattle.doc_search.specs.steps.Gathering.{Gathers, IsAskedOfDocs, TakesAll};

use crate::question::Question;
use crate::ready::ReadyQuestion;
use crate::searching::offer;
use doc_types::{Chunk, Layer};
use row_select::Sink;
use srch_base::NoMemory;

/// Whether the question has neither a word nor a condition.
pub(crate) fn takes_all(question: &Question) -> bool
    ensures { result ≡ true → TakesAll question.now }
{
    question.query.root.is_none() && question.filters.is_empty()
}

/// Offers all documents of a layer that live, for a question that takes all.
pub(crate) fn collect_all<C: Chunk, S: Sink>(
    asked: &ReadyQuestion<'_>,
    layer: &Layer<C>,
    sink: &mut S,
) -> Result<(), NoMemory>
    requires asked { IsAskedOfDocs asked.now layer.now.rows }
    requires all { TakesAll asked.now }
    ensures { (first : S) (before : List DocRow) → Gathers S.Took asked.now first before sink.old → OnOk result (Gathers S.Took asked.now first (before ++ filter (matches asked.now.query) (living layer.now)) sink.new) }
{
    let chunk: &C = &layer.chunk;
    let dead = layer.dead.as_slice();
    for row in 0..chunk.rows() {
        if !is_dead(dead, row) {
            offer(asked, chunk, row, 1, sink)?;
        }
    }
    Ok(())
}

/// Whether the row is one of these.
fn is_dead(dead: &[u32], row: u32) -> bool
    requires { AllPairs (λ row later. row < later) dead.now }
    ensures { result ≡ list_any (λ d. d == row) dead.now }
{
    dead.binary_search(&row).is_ok()
}
