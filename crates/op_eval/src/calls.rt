//! The calls: which rows of a chunk match a query, and what it finds in one.
ghost use Rattle.std.specs.Prelude.{◌≡◌, ◌+◌, ◌<◌, ◌≤◌, ◌^◌, ◌++◌, ◌∷◌, ◌==◌, [], Some, length, slice_get, if◌then◌else◌, AllPairs, IsTrue, IfOk, OnOk};
ghost use Rattle.std.specs.List.{list_any};
ghost use Rattle.doc_types.specs.declared.documents.DocRow.{DocRow};
ghost use Rattle.query_tree.specs.TreeKeys.{node_keys, query_keys};
ghost use Rattle.occ_lists.specs.OccLists.{SameMembers};
ghost use Rattle.word_rows.specs.Keywords.{present_in};
ghost use Rattle.op_eval.specs.Debts.{due};
ghost use Rattle.op_eval.specs.Hits.{AreHits, comes_before};
ghost use Rattle.op_eval.specs.Matching.{matching};
ghost use Rattle.op_eval.specs.Occurrences.{AreOccurrences};
ghost use Rattle.op_eval.specs.steps.Searching.{IsSearch, node_found};
ghost use Rattle.op_eval.specs.steps.Wanted.{is_wanted, lives, numbers_of};

use crate::finding::Finding;
use crate::search::Search;
use doc_types::{Chunk, CountedLists, Hit, Hits};
use occ_lists::{Occ, sort_distinct};
use query_tree::{Node, Query};
use srch_base::{Items, NoMemory, Steps};
use std::alloc::Global;

/// The rows that match the query and aren't dead, ascending. A list of places is opened once for each keyword of a row whose word
/// the row has, at most.
pub fn candidates<C: CountedLists>(
    alloc: Global,
    query: &Query,
    chunk: &C,
    dead: &[u32],
    steps: &mut Steps<C::Book>,
) -> Result<Vec<u32>, NoMemory>
    requires dead { AllPairs (λ row later. row < later) dead.now }
    ensures rows { IfOk result (λ rows. rows.items ≡ matching query.now (C.content chunk.now) dead.now) }
    ensures debt { steps.new ≤ steps.old + due (C.content chunk.now) (query_keys query.now) 0 }
{
    match &query.root {
        None => living(alloc, chunk, dead),
        Some(root) => wanted(alloc, root, chunk, dead, steps),
    }
}

/// The rows that aren't dead.
fn living<C: Chunk>(alloc: Global, chunk: &C, dead: &[u32]) -> Result<Vec<u32>, NoMemory>
    requires { AllPairs (λ row later. row < later) dead.now }
    ensures { IfOk result (λ rows. rows.items ≡ numbers_of (λ e. lives dead.now e.0) (C.content chunk.now)) }
{
    let mut found = Vec::new(alloc);
    for row in 0..chunk.rows() {
        if !is_dead(dead, row) {
            found.push(row)?;
        }
    }
    Ok(found)
}

/// Whether the row is one of these.
pub(crate) fn is_dead(dead: &[u32], row: u32) -> bool
    requires { AllPairs (λ row later. row < later) dead.now }
    ensures { result ≡ list_any (λ d. d == row) dead.now }
{
    dead.binary_search(&row).is_ok()
}

/// The rows that match the tree and aren't dead.
fn wanted<C: CountedLists>(
    alloc: Global,
    root: &Node,
    chunk: &C,
    dead: &[u32],
    steps: &mut Steps<C::Book>,
) -> Result<Vec<u32>, NoMemory>
    requires dead { AllPairs (λ row later. row < later) dead.now }
    ensures rows { IfOk result (λ rows. rows.items ≡ numbers_of (is_wanted root.now dead.now) (C.content chunk.now)) }
    ensures debt { steps.new ≤ steps.old + due (C.content chunk.now) (node_keys root.now) 0 }
{
    let mut search = Search::over(alloc, root, chunk)?;
    let mut found = Vec::new(alloc);
    let mut gone = 0;
    let mut from = 0;
    'rows: while let Some(row) = search.next_row(chunk, dead, &mut gone, from) {
        put_matching(&mut search, chunk, row, steps, &mut found)?;
        from = row + 1;
    }
    Ok(found)
}

/// Adds the row, if it matches.
fn put_matching<C: CountedLists>(
    search: &mut Search,
    chunk: &C,
    row: u32,
    steps: &mut Steps<C::Book>,
    found: &mut Vec<u32>,
) -> Result<(), NoMemory>
    requires row { row < length (C.content chunk.now) }
    requires search { IsSearch (C.belongs chunk.now) (C.place chunk.now) (C.content chunk.now) row search.old.root.now search.old }
    ensures root { search.new.root ≡ search.old.root }
    ensures count { (its : DocRow) → slice_get (C.content chunk.now) row ≡ Some its → steps.new ≤ steps.old + present_in its (node_keys search.old.root.now) }
    ensures search { OnOk result (IsSearch (C.belongs chunk.now) (C.place chunk.now) (C.content chunk.now) row search.old.root.now search.new) }
    ensures found { (its : DocRow) → slice_get (C.content chunk.now) row ≡ Some its → OnOk result (found.new.items ≡ found.old.items ++ (if (node_found search.old.root.now its).matches then row ∷ [] else [])) }
{
    if search.matches(chunk, row, steps)? {
        found.push(row)?;
    }
    Ok(())
}

/// The occurrences of the query in the row: by field, first and last position, each once.
pub fn occurrences<C: CountedLists>(
    alloc: Global,
    query: &Query,
    chunk: &C,
    row: u32,
    steps: &mut Steps<C::Book>,
) -> Result<Vec<Occ>, NoMemory>
    requires row { row < length (C.content chunk.now) }
    ensures count { (found : DocRow) → slice_get (C.content chunk.now) row ≡ Some found → steps.new ≤ steps.old + present_in found (query_keys query.now) }
    ensures list { (found : DocRow) → slice_get (C.content chunk.now) row ≡ Some found → IfOk result (λ occs. AreOccurrences query.now found occs.items) }
{
    match &query.root {
        None => Ok(Vec::new(alloc)),
        Some(root) => {
            let mut search = Search::over(alloc, root, chunk)?;
            let mut found = Finding::empty(alloc);
            search.find(chunk, row, &mut found, steps)?;
            sort_distinct(&mut found.occs);
            Ok(found.occs)
        }
    }
}

/// The hits of the query in the row: by field, position, query position and word, each once.
pub fn hits<C: CountedLists>(
    alloc: Global,
    query: &Query,
    chunk: &C,
    row: u32,
    steps: &mut Steps<C::Book>,
) -> Result<Hits, NoMemory>
    requires row { row < length (C.content chunk.now) }
    requires keys { length (query_keys query.now) < 2 ^ 16 }
    ensures count { (found : DocRow) → slice_get (C.content chunk.now) row ≡ Some found → steps.new ≤ steps.old + present_in found (query_keys query.now) }
    ensures keywords { IfOk result (λ hits. hits.keywords ≡ query.now.keywords) }
    ensures list { (found : DocRow) → slice_get (C.content chunk.now) row ≡ Some found → IfOk result (λ hits. AreHits query.now found hits.list) }
{
    let list = hits_in(alloc, query, chunk, row, steps)?;
    Ok(Hits {
        keywords: query.keywords,
        list: Items::new(list),
    })
}

/// The hits of the query in the row, in order, each once.
fn hits_in<C: CountedLists>(
    alloc: Global,
    query: &Query,
    chunk: &C,
    row: u32,
    steps: &mut Steps<C::Book>,
) -> Result<Vec<Hit>, NoMemory>
    requires row { row < length (C.content chunk.now) }
    requires keys { length (query_keys query.now) < 2 ^ 16 }
    ensures count { (found : DocRow) → slice_get (C.content chunk.now) row ≡ Some found → steps.new ≤ steps.old + present_in found (query_keys query.now) }
    ensures list { (found : DocRow) → slice_get (C.content chunk.now) row ≡ Some found → IfOk result (λ hits. AreHits query.now found hits.items) }
{
    match &query.root {
        None => Ok(Vec::new(alloc)),
        Some(root) => {
            let mut search = Search::over(alloc, root, chunk)?;
            let mut found = Finding::empty(alloc);
            search.find(chunk, row, &mut found, steps)?;
            sort_hits(&mut found.hits);
            Ok(found.hits)
        }
    }
}

/// Puts the hits in order, by field, position, query position and word, and leaves each once.
pub(crate) fn sort_hits(list: &mut Vec<Hit>)
    ensures ascend { AllPairs (λ hit later. IsTrue (comes_before hit later)) list.new.items }
    ensures same { SameMembers list.new.items list.old.items }
{
    list.sort_unstable_by_key(|hit| (hit.field, hit.position, hit.query, hit.word));
    list.dedup();
}
