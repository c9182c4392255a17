//! One pass over the documents that a SELECT finds: each is offered to the page or to the groups, to the count, and to each facet.
ghost use Rattle.std.specs.Prelude.{◌≡◌, All};
ghost use Rattle.doc_types.specs.declared.schema.Schema.{Schema};
ghost use Rattle.doc_types.specs.Documents.{AreRowsOf};
ghost use Rattle.doc_types.specs.Snapshots.{all_living};
ghost use Rattle.doc_search.specs.Searches.{IsAskedOf};
ghost use Rattle.prefix_search.specs.Searches.{IsReadOf};
ghost use Rattle.prefix_search.specs.Asking.{IsAskedFor};
ghost use Rattle.table_search.specs.Tables.{TablesOr};
ghost use Rattle.table_search.specs.steps.Plain.{IsTold, PlainOr};
ghost use Rattle.table_search.specs.declared.asked.Table.TheVariants as tables;

use crate::asked::{Asked, GroupTable, Table};
use crate::facet_sinks::FacetSinks;
use crate::found::{Found, FoundTable, Unfound};
use doc_search::search_into;
use doc_types::{HitLists, Snapshot};
use group_facet::{Groups, top_groups};
use prefix_search::query_to_ask;
use query_tree::Query;
use row_select::{Both, Collector, RowCount};
use srch_base::{Items, Or};
use std::alloc::Global;
use std::mem;

/// What a SELECT finds in a snapshot, by what it asks of its index; or how many words the prefixes of its query have, where these are too
/// many; or the least id of a document that it finds without a weight.
///
/// Where the query has prefixes, the one that is asked stands in its place as long as it is searched by.
pub fn find_tables<C: HitLists>(
    alloc: Global,
    asked: &mut Asked,
    snapshot: &Snapshot<C>,
) -> Result<Found, Or<Unfound>>
    requires asked { (schema : Schema) × IsReadOf schema asked.old.question × All (λ layer. AreRowsOf schema layer.rows) snapshot.now.layers }
    ensures stays { asked.new ≡ asked.old }
    ensures found { TablesOr asked.old (all_living snapshot.now.layers) result }
{
    match query_to_ask(alloc, &asked.question.query, snapshot) {
        Ok(Some(other)) => find_by(alloc, other, asked, snapshot),
        Ok(None) => told(find_plain(alloc, asked, snapshot)),
        Err(Or::NoMemory) => Err(Or::NoMemory),
        Err(Or::Fault(many)) => Err(Or::Fault(Unfound::TooManyWords(many.count))),
    }
}

/// What a SELECT finds by another query, which has the words of its prefixes in their place.
fn find_by<C: HitLists>(
    alloc: Global,
    other: Query,
    asked: &mut Asked,
    snapshot: &Snapshot<C>,
) -> Result<Found, Or<Unfound>>
    requires asked { (schema : Schema) × IsReadOf schema asked.old.question × All (λ layer. AreRowsOf schema layer.rows) snapshot.now.layers }
    requires other { IsAskedFor asked.old.question.query (all_living snapshot.now.layers) other }
    ensures stays { asked.new ≡ asked.old }
    ensures found { TablesOr asked.old (all_living snapshot.now.layers) result }
{
    let own = mem::replace(&mut asked.question.query, other);
    let found = find_plain(alloc, asked, snapshot);
    asked.question.query = own;
    told(found)
}

/// What was found, or the document without a weight.
fn told(found: Result<Found, Or<u64>>) -> Result<Found, Or<Unfound>>
    ensures { IsTold found result }
{
    match found {
        Ok(found) => Ok(found),
        Err(Or::NoMemory) => Err(Or::NoMemory),
        Err(Or::Fault(id)) => Err(Or::Fault(Unfound::NoWeight(id))),
    }
}

/// What a SELECT finds whose query has no prefixes.
fn find_plain<C: HitLists>(
    alloc: Global,
    asked: &Asked,
    snapshot: &Snapshot<C>,
) -> Result<Found, Or<u64>>
    requires asked { (schema : Schema) × IsAskedOf schema asked.now.question × All (λ layer. AreRowsOf schema layer.rows) snapshot.now.layers }
    ensures { PlainOr asked.now (all_living snapshot.now.layers) result }
{
    match &asked.table {
        Table::Rows => find_rows(alloc, asked, snapshot),
        Table::Groups(table) => find_groups(alloc, asked, table, snapshot),
    }
}

/// The page of the documents.
fn find_rows<C: HitLists>(
    alloc: Global,
    asked: &Asked,
    snapshot: &Snapshot<C>,
) -> Result<Found, Or<u64>>
    requires asked { (schema : Schema) × IsAskedOf schema asked.now.question × All (λ layer. AreRowsOf schema layer.rows) snapshot.now.layers }
    requires rows { asked.now.table ≡ tables.Rows }
    ensures { PlainOr asked.now (all_living snapshot.now.layers) result }
{
    let question = &asked.question;
    let mut sinks = Both {
        first: Collector::new(alloc, &question.order, question.page),
        second: Both {
            first: RowCount { rows: 0 },
            second: FacetSinks::new(alloc, asked.facets.as_slice())?,
        },
    };
    match search_into(alloc, question, snapshot, &mut sinks) {
        Ok(()) => {}
        Err(Or::NoMemory) => return Err(Or::NoMemory),
        Err(Or::Fault(id)) => return Err(Or::Fault(id)),
    }
    let Both {
        first: page,
        second: Both {
            first: count,
            second: facets,
        },
    } = sinks;
    Ok(Found {
        table: FoundTable::Rows(Items::new(page.finish()?)),
        total_found: count.rows,
        facets: facets.finish(alloc)?,
    })
}

/// The groups of the documents.
fn find_groups<C: HitLists>(
    alloc: Global,
    asked: &Asked,
    table: &GroupTable,
    snapshot: &Snapshot<C>,
) -> Result<Found, Or<u64>>
    requires asked { (schema : Schema) × IsAskedOf schema asked.now.question × All (λ layer. AreRowsOf schema layer.rows) snapshot.now.layers }
    requires groups { asked.now.table ≡ tables.Groups table.now }
    ensures { PlainOr asked.now (all_living snapshot.now.layers) result }
{
    let mut sinks = Both {
        first: Groups::new(alloc, &table.group),
        second: FacetSinks::new(alloc, asked.facets.as_slice())?,
    };
    match search_into(alloc, &asked.question, snapshot, &mut sinks) {
        Ok(()) => {}
        Err(Or::NoMemory) => return Err(Or::NoMemory),
        Err(Or::Fault(id)) => return Err(Or::Fault(id)),
    }
    let Both {
        first: groups,
        second: facets,
    } = sinks;
    let shown = top_groups(groups.finish()?, &table.page)?;
    Ok(Found {
        table: FoundTable::Groups(Items::new(shown.rows)),
        total_found: shown.found as u64,
        facets: facets.finish(alloc)?,
    })
}
