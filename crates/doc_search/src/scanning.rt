//! Rows by the conditions that look at no weight, asked of each where it stands in its chunk. A query without words lets each row
//! through, so there the conditions go first, in a loop of their own: a row of which one fails costs no more than that question.
ghost use Rattle.std.specs.Prelude.{◌≡◌, ◌+◌, ◌<◌, ◌≤◌, Some, length, slice_get, AllPairs};
ghost use Rattle.doc_types.specs.declared.documents.DocRow.{DocRow};
ghost use Rattle.doc_search.specs.steps.Gathering.{IsAskedOfDocs};
ghost use Rattle.doc_search.specs.steps.ListedRows.{GoBy, Leaves, holds_of};

use crate::listed_rows::ListedRows;
use crate::ready::ReadyQuestion;
use doc_types::Chunk;
use row_select::ChunkRow;

/// The first row from this one on that may pass by its id and, where the query has no word, by the other conditions; or a row behind
/// the last one that may. From then on those behind it are looked for.
pub(crate) fn next_passing<C: Chunk>(
    asked: &ReadyQuestion<'_>,
    listed: &mut ListedRows<'_>,
    chunk: &C,
    at: u32,
) -> u32
    requires at { at ≤ length (C.content chunk.now) }
    requires asked { IsAskedOfDocs asked.now (C.content chunk.now) }
    requires rows { AllPairs (λ row later. row.doc.id < later.doc.id) (C.content chunk.now) }
    ensures on { at ≤ result }
    ensures within { result ≤ length (C.content chunk.now) }
    ensures next { Leaves asked.now (C.content chunk.now) at listed.old → GoBy asked.now (C.content chunk.now) at result × Leaves asked.now (C.content chunk.now) (result + 1) listed.new }
{
    let from = listed.next(chunk, at);
    if asked.conditions_first && listed.ids.is_none() {
        first_passing(asked, chunk, from, listed.end)
    } else {
        from
    }
}

/// The first row from this one on, and before that one, of which the conditions hold; where there is none, the row behind those that
/// were asked.
fn first_passing<C: Chunk>(asked: &ReadyQuestion<'_>, chunk: &C, from: u32, end: u32) -> u32
    requires asked { IsAskedOfDocs asked.now (C.content chunk.now) }
    requires from { from ≤ length (C.content chunk.now) }
    ensures { GoBy asked.now (C.content chunk.now) from result }
{
    let end = end.min(chunk.rows());
    let mut row = from;
    'rows: while row < end {
        if passes(asked, chunk, row) {
            return row;
        }
        row += 1;
    }
    row
}

/// Whether those conditions hold of a row that look at no weight.
pub(crate) fn passes<C: Chunk>(asked: &ReadyQuestion<'_>, chunk: &C, row: u32) -> bool
    requires asked { IsAskedOfDocs asked.now (C.content chunk.now) }
    requires row { row < length (C.content chunk.now) }
    ensures { (doc : DocRow) → slice_get (C.content chunk.now) row ≡ Some doc → result ≡ holds_of asked.now doc }
{
    let found = ChunkRow::new(asked.alloc, chunk, row, asked.question.attrs, 0);
    asked.conditions.hold_unweighed(&found)
}
