//! The rows of a chunk that may pass by their ids, one after the other: those between the least and the greatest id that conditions
//! allow, and of these the ones whose id a condition lists. Since rows ascend by their ids and a list is in order, each is found by
//! halving what lies behind the last one, and no other row is asked of its conditions.
ghost use Rattle.std.specs.Prelude.{◌≡◌, ◌+◌, ◌<◌, ◌≤◌, pos, int_lt, true, Some, drop, length, slice_get, AllPairs, List};
ghost use Rattle.std.specs.List.Sorted.{IsSorted};
ghost use Rattle.std.specs.Ordering.{int_cmp, int_eq};
ghost use Rattle.doc_types.specs.declared.documents.DocRow.{DocRow};
ghost use Rattle.doc_search.specs.declared.question.Question.{Question as QuestionValue};
ghost use Rattle.doc_search.specs.steps.ListedRows.{GoBy, HaveIds, IsEndOf, IsFirstFrom, IsFirstOf, Leaves};

use doc_types::Chunk;
use row_select::Conditions;

/// Which rows of a chunk may pass by their ids.
#[derive(Drop)]
pub(crate) struct ListedRows<'a> {
    /// The first row that may pass by the least id that a condition allows.
    first: u32,
    /// The row behind the last one that may pass by the greatest.
    pub(crate) end: u32,
    /// The ids that a condition lists, in order. None where none does: then each row between these two may pass.
    pub(crate) ids: Option<&'a [i128]>,
    /// How many of them belong to rows that went by, or to no row.
    passed: usize,
}

impl<'a> ListedRows<'a> {
    /// Before all rows of a chunk.
    pub(crate) fn over<C: Chunk>(chunk: &C, conditions: &'a Conditions<'_>) -> ListedRows<'a>
        requires { AllPairs (λ row later. row.doc.id < later.doc.id) (C.content chunk.now) }
        ensures { (question : QuestionValue) → conditions.now ≡ question.filters → Leaves question (C.content chunk.now) 0 result }
    {
        ListedRows {
            first: first_of(chunk, conditions),
            end: end_of(chunk, conditions),
            ids: conditions.ids(),
            passed: 0,
        }
    }

    /// The first row from this one on that may pass, or the end. From then on those behind it are looked for.
    pub(crate) fn next<C: Chunk>(&mut self, chunk: &C, at: u32) -> u32
        requires at { at ≤ length (C.content chunk.now) }
        requires rows { AllPairs (λ row later. row.doc.id < later.doc.id) (C.content chunk.now) }
        ensures on { at ≤ result }
        ensures within { result ≤ length (C.content chunk.now) }
        ensures next { (question : QuestionValue) → Leaves question (C.content chunk.now) at self.old → GoBy question (C.content chunk.now) at result × Leaves question (C.content chunk.now) (result + 1) self.new }
    {
        let rows = chunk.rows();
        let from = at.max(self.first).min(rows);
        if from >= self.end {
            return rows;
        }
        match self.ids {
            None => from,
            Some(ids) => next_listed(chunk, ids, &mut self.passed, from),
        }
    }
}

/// The first row that may pass by the least id that a condition allows.
fn first_of<C: Chunk>(chunk: &C, conditions: &Conditions<'_>) -> u32
    requires { AllPairs (λ row later. row.doc.id < later.doc.id) (C.content chunk.now) }
    ensures { (question : QuestionValue) → conditions.now ≡ question.filters → IsFirstOf question (C.content chunk.now) result }
{
    match conditions.low_id() {
        None => 0,
        Some(low) => first_from(chunk, 0, low),
    }
}

/// The row behind the last one that may pass by the greatest id that a condition allows.
fn end_of<C: Chunk>(chunk: &C, conditions: &Conditions<'_>) -> u32
    requires { AllPairs (λ row later. row.doc.id < later.doc.id) (C.content chunk.now) }
    ensures { (question : QuestionValue) → conditions.now ≡ question.filters → IsEndOf question (C.content chunk.now) result }
{
    let rows = chunk.rows();
    match conditions.high_id() {
        None => rows,
        Some(high) => {
            let last = first_from(chunk, 0, high);
            if has_id(chunk, last, high) {
                last + 1
            } else {
                last
            }
        }
    }
}

/// The first row from this one on that has one of the ids that are left, or the end.
fn next_listed<C: Chunk>(chunk: &C, ids: &[i128], passed: &mut usize, at: u32) -> u32
    requires at { at ≤ length (C.content chunk.now) }
    requires rows { AllPairs (λ row later. row.doc.id < later.doc.id) (C.content chunk.now) }
    ensures on { at ≤ result }
    ensures within { result ≤ length (C.content chunk.now) }
    ensures next { (question : QuestionValue) → IsSorted int_cmp ids.now → HaveIds question (C.content chunk.now) at (drop passed.old ids.now) → GoBy question (C.content chunk.now) at result × HaveIds question (C.content chunk.now) (result + 1) (drop passed.new ids.now) }
{
    let mut from = at;
    'ids: while let Some(number) = ids.get(*passed) {
        from = first_from(chunk, from, number);
        *passed += 1;
        if has_id(chunk, from, number) {
            return from;
        }
    }
    chunk.rows()
}

/// The first row from this one on whose id isn't below a number, or the end.
fn first_from<C: Chunk>(chunk: &C, from: u32, number: &i128) -> u32
    requires from { from ≤ length (C.content chunk.now) }
    requires rows { AllPairs (λ row later. row.doc.id < later.doc.id) (C.content chunk.now) }
    ensures { IsFirstFrom (C.content chunk.now) from number.now result }
{
    let mut low = from;
    let mut high = chunk.rows();
    'halves: while low < high {
        let middle = low + (high - low) / 2;
        if is_below(chunk, middle, number) {
            low = middle + 1;
        } else {
            high = middle;
        }
    }
    low
}

/// Whether a row's id is below a number.
fn is_below<C: Chunk>(chunk: &C, row: u32, number: &i128) -> bool
    requires { row < length (C.content chunk.now) }
    ensures { (doc : DocRow) → slice_get (C.content chunk.now) row ≡ Some doc → result ≡ int_lt (pos doc.doc.id) number.now }
{
    i128::from(chunk.id(row)) < *number
}

/// Whether there is a row of this number, and its id is that number.
fn has_id<C: Chunk>(chunk: &C, row: u32, number: &i128) -> bool
    ensures within { result ≡ true → row < length (C.content chunk.now) }
    ensures told { (doc : DocRow) → slice_get (C.content chunk.now) row ≡ Some doc → result ≡ int_eq (pos doc.doc.id) number.now }
{
    row < chunk.rows() && i128::from(chunk.id(row)) == *number
}
