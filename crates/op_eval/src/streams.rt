//! The rows that may match a query one after another, for a caller that looks at each of them once: one row is taken, with its hits
//! where it matches, and another one is passed over, so that no list of its places is opened.
ghost use Rattle.std.specs.Prelude.{◌≡◌, ◌+◌, ◌<◌, ◌≤◌, ◌^◌, Some, true, ◌↔◌, length, slice_get, AllPairs, IsTrue, IfOk, IfSome, OnErr, OnOk};
ghost use Rattle.doc_types.specs.declared.documents.DocRow.{DocRow};
ghost use Rattle.occ_lists.specs.OccLists.{SameMembers};
ghost use Rattle.query_tree.specs.TreeKeys.{query_keys};
ghost use Rattle.word_rows.specs.Keywords.{present_in};
ghost use Rattle.op_eval.specs.Debts.{owed};
ghost use Rattle.op_eval.specs.Fields.{AreFieldsOf, GoesByFields};
ghost use Rattle.op_eval.specs.Hits.{comes_before};
ghost use Rattle.op_eval.specs.Matching.{matches, query_finds};
ghost use Rattle.op_eval.specs.Streams.{GoesOn, Takes};
ghost use Rattle.op_eval.specs.steps.Streaming.{StandsAt};

use crate::calls::sort_hits;
use crate::finding::Finding;
use crate::search::Search;
use crate::wanted::{find_row, first_open, row_fields, row_matches, row_words};
use doc_types::{Chunk, CountedLists, Hit, Hits};
use query_tree::Query;
use srch_base::{Items, NoMemory, Steps};
use std::alloc::Global;
use std::marker::Model;
use std::mem;

/// A query on its way over the rows of a chunk.
///
/// `row` goes on to the next row that isn't dead and may match, as far as its words tell. That one is taken, told of without its
/// hits, or skipped. After want of memory all is as before, so that the row can be taken then. What was opened and what the rows
/// ahead may still open never rise together. Contracts see it as a `Stream`.
#[derive(Drop)]
pub struct Matches<'a, C: Chunk> {
    query: &'a Query,
    chunk: &'a C,
    dead: &'a [u32],
    /// The rows before this one went by.
    from: u32,
    /// So many of the dead rows lie before it.
    gone: usize,
    /// None exactly where the query has no keyword.
    search: Option<Search<'a>>,
    found: Finding,
    alloc: Global,
}

impl<'a, C: Chunk> Model for Matches<'a, C> {
    ghost use Rattle.std.specs.Coded.{codes};
    ghost use Rattle.query_tree.specs.contracts.query.Node as node;
    ghost use Rattle.op_eval.specs.Streams.{Stream};
    ghost use Rattle.op_eval.specs.steps.Streaming.{IsStream};

    ghost Value = { Stream };

    ghost coded = { Prim.hlevel (codes, node.the_row.coded) };

    ghost view = { λ a. record { query = a.query.now; rows = C.content a.chunk.now; dead = a.dead.now; at = a.from } };

    ghost invariant = { λ a. IsStream (C.belongs a.chunk.now) (C.place a.chunk.now) (C.content a.chunk.now) a.from a.query.now a.dead.now a.gone a.search };
}

impl<'a, C: Chunk> Matches<'a, C> {
    /// The query before all rows of the chunk.
    pub fn over(
        alloc: Global,
        query: &'a Query,
        chunk: &'a C,
        dead: &'a [u32],
    ) -> Result<Matches<'a, C>, NoMemory>
        requires dead { AllPairs (λ row later. row < later) dead.now }
        requires keys { length (query_keys query.now) < 2 ^ 16 }
        ensures { IfOk result (λ matches. matches ≡ record { query = query.now; rows = C.content chunk.now; dead = dead.now; at = 0 }) }
    {
        let search = search_of(alloc, query, chunk)?;
        Ok(Matches {
            query,
            chunk,
            dead,
            from: 0,
            gone: 0,
            search,
            found: Finding::empty(alloc),
            alloc,
        })
    }

    /// Goes on to the next row that isn't dead and may match, as far as its words tell. It stays at one where it stands. No list of
    /// places is opened, and what is owed doesn't rise.
    pub fn row(&mut self) -> Option<u32>
        ensures goes { GoesOn self.old result self.new }
        ensures debt { owed self.new ≤ owed self.old }
    {
        let next = first_open(
            &mut self.search,
            self.chunk,
            self.dead,
            &mut self.gone,
            self.from,
        );
        match next {
            Some(row) => self.from = row,
            None => self.from = self.chunk.rows(),
        }
        next
    }

    /// Whether the query is one keyword whose limits look at fields alone, so that `take_fields` tells all.
    pub fn goes_by_fields(&self) -> bool
        ensures { IsTrue result ↔ GoesByFields self.now.query }
    {
        match &self.search {
            None => false,
            Some(search) => search.by_fields,
        }
    }

    /// How many of the query's keywords have their word in the row at which it stands, where its words tell that it matches: there
    /// no place has to be read. None where its places may decide, and of a query without a keyword. It stays where it stands.
    pub fn sure_words(&mut self) -> Option<usize>
        requires { self.old.at < length self.old.rows }
        ensures stays { self.new ≡ self.old }
        ensures sure { (doc : DocRow) → slice_get self.old.rows self.old.at ≡ Some doc → IfSome result (λ words. (matches self.old.query doc ≡ true) × (words ≡ present_in doc (query_keys self.old.query))) }
    {
        row_words(self.query, self.chunk, self.from, &mut self.search)
    }

    /// Goes on behind the row at which it stands, and doesn't look whether it matches.
    pub fn skip(&mut self)
        requires { self.old.at < length self.old.rows }
        ensures { self.new ≡ record self.old { at = self.old.at + 1 } }
    {
        self.from += 1;
    }
}

impl<'a, C: CountedLists> Matches<'a, C> {
    /// Whether the row at which it stands matches, and goes on behind it. The hits come in the place of those that are handed in. A
    /// list of places is opened for each keyword whose word the row has, at most.
    pub fn take(&mut self, hits: &mut Hits, steps: &mut Steps<C::Book>) -> Result<bool, NoMemory>
        requires { self.old.at < length self.old.rows }
        ensures takes { IfOk result (λ told. Takes self.old told hits.old hits.new self.new) }
        ensures debt { OnOk result (steps.new + owed self.new ≤ steps.old + owed self.old) }
        ensures failed { OnErr result (steps.new ≤ steps.old + owed self.old) }
        ensures count { (doc : DocRow) → slice_get self.old.rows self.old.at ≡ Some doc → steps.new ≤ steps.old + present_in doc (query_keys self.old.query) }
        ensures same { OnErr result (self.new ≡ self.old) }
        ensures kept { OnErr result (hits.new ≡ hits.old) }
    {
        let told = find_row(
            self.query,
            self.chunk,
            self.from,
            &mut self.search,
            &mut self.found,
            steps,
        )?;
        self.from += 1;
        if told {
            hits.keywords = self.query.keywords;
            hand_over(self.alloc, &mut self.found.hits, &mut hits.list);
        }
        Ok(told)
    }

    /// The fields in which the row at which it stands has hits, as bits, of a query that goes by fields; and goes on behind it. It
    /// matches where there is one. No place is read.
    pub fn take_fields(&mut self, steps: &mut Steps<C::Book>) -> u32
        requires within { self.old.at < length self.old.rows }
        requires word { GoesByFields self.old.query }
        ensures stands { self.new ≡ record self.old { at = self.old.at + 1 } }
        ensures debt { steps.new + owed self.new ≤ steps.old + owed self.old }
        ensures fields { (doc : DocRow) → slice_get self.old.rows self.old.at ≡ Some doc → AreFieldsOf (query_finds self.old.query doc) result }
        ensures count { (doc : DocRow) → slice_get self.old.rows self.old.at ≡ Some doc → steps.new ≤ steps.old + present_in doc (query_keys self.old.query) }
    {
        let fields = row_fields(self.query, self.chunk, self.from, &mut self.search, steps);
        self.from += 1;
        fields
    }

    /// Whether the row at which it stands matches, and goes on behind it. Its hits aren't looked for: where its words decide, no
    /// list of places is opened.
    pub fn matches(&mut self, steps: &mut Steps<C::Book>) -> Result<bool, NoMemory>
        requires { self.old.at < length self.old.rows }
        ensures stands { OnOk result (self.new ≡ record self.old { at = self.old.at + 1 }) }
        ensures debt { OnOk result (steps.new + owed self.new ≤ steps.old + owed self.old) }
        ensures failed { OnErr result (steps.new ≤ steps.old + owed self.old) }
        ensures told { (doc : DocRow) → slice_get self.old.rows self.old.at ≡ Some doc → IfOk result (λ told. told ≡ matches self.old.query doc) }
        ensures count { (doc : DocRow) → slice_get self.old.rows self.old.at ≡ Some doc → steps.new ≤ steps.old + present_in doc (query_keys self.old.query) }
        ensures same { OnErr result (self.new ≡ self.old) }
    {
        let told = row_matches(self.query, self.chunk, self.from, &mut self.search, steps)?;
        self.from += 1;
        Ok(told)
    }
}

/// The query's tree before all rows, if it has one.
fn search_of<'a, C: Chunk>(
    alloc: Global,
    query: &'a Query,
    chunk: &C,
) -> Result<Option<Search<'a>>, NoMemory>
    requires { length (query_keys query.now) < 2 ^ 16 }
    ensures { IfOk result (λ search. StandsAt (C.belongs chunk.now) (C.place chunk.now) (C.content chunk.now) 0 query.now search) }
{
    match &query.root {
        None => Ok(None),
        Some(root) => Ok(Some(Search::over(alloc, root, chunk)?)),
    }
}

/// Hands over the hits in order, each once, and takes the list in whose place they come, for its room.
fn hand_over(alloc: Global, found: &mut Vec<Hit>, list: &mut Items<Hit>)
    ensures ascend { AllPairs (λ hit later. IsTrue (comes_before hit later)) list.new }
    ensures same { SameMembers list.new found.old.items }
{
    sort_hits(found);
    let hits = mem::replace(found, Vec::new(alloc));
    *found = mem::replace(list, Items::new(hits)).into_vec();
}
