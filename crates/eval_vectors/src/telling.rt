//! What a query finds in a chunk, as the tables tell it.
ghost use Rattle.std.specs.Prelude.{◌≡◌, ◌<◌, ◌^◌, length};
ghost use Rattle.query_tree.specs.TreeKeys.{query_keys};

use doc_types::{Chunk, Counted, CountedLists, Hit, HitLists, Hits};
use occ_lists::Occ;
use op_eval::{Matches, candidates, hits, occurrences};
use query_tree::Query;
use srch_base::{Items, Steps};
use std::alloc::Global;
use std::marker::Brand;
use std::sync::ledger::{Blank, Ledger};

/// How a query is asked.
pub(crate) enum Call {
    /// Which rows match, and what is found in each row.
    Rows,
    /// Which rows match.
    Ids,
    /// How many rows match.
    Count,
    /// At how many rows `Matches` stops, where each of them is taken.
    Stops,
}

/// Appends the ids of rows.
fn put_ids<C: Chunk>(chunk: &C, rows: &[u32], into: &mut String) -> Option<()> {
    for row in rows {
        if *row >= chunk.rows() {
            return None;
        }
        let id = chunk.id(*row);
        write!(into, " {id}").ok()?;
    }
    Some(())
}

/// Appends what is found in a row, where something is: occurrences, and hits.
fn put_found(id: u64, occs: &[Occ], hits: &[Hit], into: &mut String) -> Option<()> {
    if occs.is_empty() && hits.is_empty() {
        return Some(());
    }
    write!(into, "; {id}:").ok()?;
    for occ in occs {
        let (field, first, last) = (occ.field, occ.first, occ.last);
        write!(into, " {field}.{first}-{last}").ok()?;
    }
    into.push(',').ok()?;
    for hit in hits {
        let (query, word, field, position) = (hit.query, hit.word, hit.field, hit.position);
        write!(into, " {query}/{word}@{field}.{position}").ok()?;
    }
    Some(())
}

/// Appends the rows that match.
fn put_matching<C: CountedLists>(
    alloc: Global,
    query: &Query,
    chunk: &C,
    steps: &mut Steps<C::Book>,
    into: &mut String,
) -> Option<()> {
    match candidates(alloc, query, chunk, &[], steps) {
        Ok(matching) => put_ids(chunk, matching.as_slice(), into),
        Err(_) => None,
    }
}

/// Appends how many rows match.
fn put_count<C: CountedLists>(
    alloc: Global,
    query: &Query,
    chunk: &C,
    steps: &mut Steps<C::Book>,
    into: &mut String,
) -> Option<()> {
    let count = candidates(alloc, query, chunk, &[], steps).ok()?.len();
    write!(into, " {count} rows").ok()
}

/// Appends what the query finds in a row.
fn put_row<C: CountedLists>(
    alloc: Global,
    query: &Query,
    chunk: &C,
    row: u32,
    steps: &mut Steps<C::Book>,
    into: &mut String,
) -> Option<()>
    requires row { row < length (C.content chunk.now) }
    requires keys { length (query_keys query.now) < 2 ^ 16 }
{
    let occs = occurrences(alloc, query, chunk, row, steps).ok()?;
    match hits(alloc, query, chunk, row, steps) {
        Ok(found) => {
            let list = found.list.as_slice();
            put_found(chunk.id(row), occs.as_slice(), list, into)
        }
        Err(_) => None,
    }
}

/// Appends the rows that match, and what the query finds in each row.
fn put_rows<C: CountedLists>(
    alloc: Global,
    query: &Query,
    chunk: &C,
    steps: &mut Steps<C::Book>,
    into: &mut String,
) -> Option<()>
    requires { length (query_keys query.now) < 2 ^ 16 }
{
    put_matching(alloc, query, chunk, steps, into)?;
    for row in 0..chunk.rows() {
        put_row(alloc, query, chunk, row, steps, into)?;
    }
    Some(())
}

/// Appends at how many rows the query stops, of which there are no more than so many, where each of them is taken.
fn put_taken<C: CountedLists>(
    matches: &mut Matches<'_, C>,
    found: &mut Hits,
    rows: u32,
    steps: &mut Steps<C::Book>,
    into: &mut String,
) -> Option<()> {
    for count in 0..=rows {
        match matches.row() {
            Some(_) => matches.take(found, steps).ok()?,
            None => return write!(into, " {count} rows").ok(),
        };
    }
    None
}

/// Appends at how many rows the query stops.
fn put_stops<C: CountedLists>(
    alloc: Global,
    query: &Query,
    chunk: &C,
    steps: &mut Steps<C::Book>,
    into: &mut String,
) -> Option<()>
    requires { length (query_keys query.now) < 2 ^ 16 }
{
    let mut found = Hits {
        keywords: 0,
        list: Items::new(Vec::new(alloc)),
    };
    match Matches::over(alloc, query, chunk, &[]) {
        Ok(mut matches) => put_taken(&mut matches, &mut found, chunk.rows(), steps, into),
        Err(_) => None,
    }
}

fn put_told<L: Ledger, C: HitLists>(
    alloc: Global,
    query: &Query,
    chunk: &C,
    call: &Call,
    blank: Blank,
    into: &mut String,
) -> Option<()>
    requires keys { length (query_keys query.now) < 2 ^ 16 }
    requires name { blank.name ≡ L.name }
    requires parts { blank.parts ≡ L.parts }
    requires some { 0 < blank.parts }
{
    let chunk = &Counted::<C, L>::over(chunk);
    let mut steps = Steps::<L>::new(blank);
    match call {
        Call::Rows => put_rows(alloc, query, chunk, &mut steps, into),
        Call::Stops => put_stops(alloc, query, chunk, &mut steps, into),
        Call::Ids => put_matching(alloc, query, chunk, &mut steps, into),
        Call::Count => put_count(alloc, query, chunk, &mut steps, into),
    }
}

/// Appends what a query finds in a chunk. Lists that it opens are counted in a ledger of their own.
pub(crate) fn put_answer<C: HitLists>(
    alloc: Global,
    query: &Query,
    chunk: &C,
    call: &Call,
    into: &mut String,
) -> Option<()>
    requires { length (query_keys query.now) < 2 ^ 16 }
{
    put_told::<Brand, C>(alloc, query, chunk, call, Blank::new(1), into)
}
