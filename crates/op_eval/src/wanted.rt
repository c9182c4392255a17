//! The next row that isn't dead and may match a query, and what is found in one.
ghost use Rattle.std.specs.Prelude.{◌≡◌, ◌+◌, ◌<◌, ◌≤◌, ◌^◌, Some, true, length, slice_get, unwrap_or, AllPairs, IfSome, IfOk, OnOk};
ghost use Rattle.doc_types.specs.declared.documents.DocRow.{DocRow};
ghost use Rattle.occ_lists.specs.OccLists.{SameMembers};
ghost use Rattle.query_tree.specs.TreeKeys.{query_keys};
ghost use Rattle.query_tree.specs.declared.query.Query.{Query as QueryValue};
ghost use Rattle.word_rows.specs.Keywords.{present_in};
ghost use Rattle.op_eval.specs.Fields.{AreFieldsOf, GoesByFields};
ghost use Rattle.op_eval.specs.Matching.{query_finds};
ghost use Rattle.op_eval.specs.steps.Searching.{IsSearch};
ghost use Rattle.op_eval.specs.steps.Streaming.{IsFirstOpen, StandsAt, is_matching};
ghost use Rattle.op_eval.specs.steps.Wanted.{is_wanted};
ghost use Rattle.row_plans.specs.Living.{HasGone};

use crate::calls::is_dead;
use crate::finding::Finding;
use crate::search::Search;
use doc_types::{Chunk, CountedLists};
use query_tree::Query;
use srch_base::{NoMemory, Steps};

/// The first row from this one on that isn't dead and may match, as far as its words tell. Without a search any row may. The first
/// `gone` of the dead rows lie before the row at which it begins, and then before that which it answers.
pub(crate) fn first_open<C: Chunk>(
    search: &mut Option<Search>,
    chunk: &C,
    dead: &[u32],
    gone: &mut usize,
    from: u32,
) -> Option<u32>
    requires from { from ≤ length (C.content chunk.now) }
    requires dead { AllPairs (λ row later. row < later) dead.now }
    requires gone { HasGone dead.now gone.old from }
    requires search { IfSome search.old (λ its. IsSearch (C.belongs chunk.now) (C.place chunk.now) (C.content chunk.now) from its.root.now its) }
    ensures gone { HasGone dead.now gone.new (unwrap_or result (length (C.content chunk.now))) }
    ensures stands { (query : QueryValue) → StandsAt (C.belongs chunk.now) (C.place chunk.now) (C.content chunk.now) from query search.old → StandsAt (C.belongs chunk.now) (C.place chunk.now) (C.content chunk.now) (unwrap_or result (length (C.content chunk.now))) query search.new }
    ensures first { (query : QueryValue) → StandsAt (C.belongs chunk.now) (C.place chunk.now) (C.content chunk.now) from query search.old → IsFirstOpen (is_matching query dead.now) dead.now (C.content chunk.now) from result }
{
    match search {
        None => first_living(chunk, dead, from),
        Some(search) => first_worded(search, chunk, dead, gone, from),
    }
}

/// The first row from this one on that isn't dead.
fn first_living<C: Chunk>(chunk: &C, dead: &[u32], from: u32) -> Option<u32>
    requires from { from ≤ length (C.content chunk.now) }
    requires dead { AllPairs (λ row later. row < later) dead.now }
    ensures on { from ≤ unwrap_or result (length (C.content chunk.now)) }
    ensures first { (query : QueryValue) → IsFirstOpen (is_matching query dead.now) dead.now (C.content chunk.now) from result }
{
    for row in from..chunk.rows() {
        if !is_dead(dead, row) {
            return Some(row);
        }
    }
    None
}

/// The first row from this one on that isn't dead and may match the tree.
fn first_worded<C: Chunk>(
    search: &mut Search,
    chunk: &C,
    dead: &[u32],
    gone: &mut usize,
    from: u32,
) -> Option<u32>
    requires from { from ≤ length (C.content chunk.now) }
    requires dead { AllPairs (λ row later. row < later) dead.now }
    requires gone { HasGone dead.now gone.old from }
    requires search { IsSearch (C.belongs chunk.now) (C.place chunk.now) (C.content chunk.now) from search.old.root.now search.old }
    ensures gone { HasGone dead.now gone.new (unwrap_or result (length (C.content chunk.now))) }
    ensures search { IsSearch (C.belongs chunk.now) (C.place chunk.now) (C.content chunk.now) (unwrap_or result (length (C.content chunk.now))) search.old.root.now search.new }
    ensures first { IsFirstOpen (is_wanted search.old.root.now dead.now) dead.now (C.content chunk.now) from result }
{
    let mut at = from;
    'rows: while let Some(row) = search.next_row(chunk, dead, gone, at) {
        if search.may_match(chunk, row) {
            return Some(row);
        }
        at = row + 1;
    }
    None
}

/// Whether the row matches, and what is found in it, in the place of what was found before. A list of places is opened for each
/// keyword whose word the row has, at most, and after want of memory the row can be asked again.
pub(crate) fn find_row<C: CountedLists>(
    query: &Query,
    chunk: &C,
    row: u32,
    search: &mut Option<Search>,
    found: &mut Finding,
    steps: &mut Steps<C::Book>,
) -> Result<bool, NoMemory>
    requires row { row < length (C.content chunk.now) }
    requires few { length (query_keys query.now) < 2 ^ 16 }
    requires stands { StandsAt (C.belongs chunk.now) (C.place chunk.now) (C.content chunk.now) row query.now search.old }
    ensures stands { StandsAt (C.belongs chunk.now) (C.place chunk.now) (C.content chunk.now) row query.now search.new }
    ensures count { (its : DocRow) → slice_get (C.content chunk.now) row ≡ Some its → steps.new ≤ steps.old + present_in its (query_keys query.now) }
    ensures told { (its : DocRow) → slice_get (C.content chunk.now) row ≡ Some its → IfOk result (λ told. told ≡ (query_finds query.now its).matches) }
    ensures hits { (its : DocRow) → slice_get (C.content chunk.now) row ≡ Some its → OnOk result (SameMembers found.new.hits.items (query_finds query.now its).hits) }
{
    match search {
        None => {
            found.clear();
            Ok(true)
        }
        Some(search) => search.find(chunk, row, found, steps),
    }
}

/// How many of the query's keywords have their word in the row, where its words tell that it matches. None where its places may
/// decide, and of a query without a keyword.
pub(crate) fn row_words<C: Chunk>(
    query: &Query,
    chunk: &C,
    row: u32,
    search: &mut Option<Search>,
) -> Option<usize>
    requires { StandsAt (C.belongs chunk.now) (C.place chunk.now) (C.content chunk.now) row query.now search.old }
    ensures stands { StandsAt (C.belongs chunk.now) (C.place chunk.now) (C.content chunk.now) row query.now search.new }
    ensures sure { (its : DocRow) → slice_get (C.content chunk.now) row ≡ Some its → IfSome result (λ words. ((query_finds query.now its).matches ≡ true) × (words ≡ present_in its (query_keys query.now))) }
{
    match search {
        None => None,
        Some(search) => search.sure_words(chunk, row),
    }
}

/// Whether the row matches, by no more lists, and again after want of memory.
pub(crate) fn row_matches<C: CountedLists>(
    query: &Query,
    chunk: &C,
    row: u32,
    search: &mut Option<Search>,
    steps: &mut Steps<C::Book>,
) -> Result<bool, NoMemory>
    requires row { row < length (C.content chunk.now) }
    requires stands { StandsAt (C.belongs chunk.now) (C.place chunk.now) (C.content chunk.now) row query.now search.old }
    ensures stands { StandsAt (C.belongs chunk.now) (C.place chunk.now) (C.content chunk.now) row query.now search.new }
    ensures count { (its : DocRow) → slice_get (C.content chunk.now) row ≡ Some its → steps.new ≤ steps.old + present_in its (query_keys query.now) }
    ensures told { (its : DocRow) → slice_get (C.content chunk.now) row ≡ Some its → IfOk result (λ told. told ≡ (query_finds query.now its).matches) }
{
    match search {
        None => Ok(true),
        Some(search) => search.matches(chunk, row, steps),
    }
}

/// The fields in which the row has hits, as bits, where the query is one keyword whose limits look at fields alone.
pub(crate) fn row_fields<C: CountedLists>(
    query: &Query,
    chunk: &C,
    row: u32,
    search: &mut Option<Search>,
    steps: &mut Steps<C::Book>,
) -> u32
    requires row { row < length (C.content chunk.now) }
    requires word { GoesByFields query.now }
    requires stands { StandsAt (C.belongs chunk.now) (C.place chunk.now) (C.content chunk.now) row query.now search.old }
    ensures stands { StandsAt (C.belongs chunk.now) (C.place chunk.now) (C.content chunk.now) row query.now search.new }
    ensures count { (its : DocRow) → slice_get (C.content chunk.now) row ≡ Some its → steps.new ≤ steps.old + present_in its (query_keys query.now) }
    ensures fields { (its : DocRow) → slice_get (C.content chunk.now) row ≡ Some its → AreFieldsOf (query_finds query.now its) result }
{
    match search {
        None => 0,
        Some(search) => search.fields(chunk, row, steps),
    }
}
