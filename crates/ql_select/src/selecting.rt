//! A SELECT from an index, taken as a whole: its names, what they mean together, how it is weighed, and last the query that its text
//! is. So nothing that is made after the query can fail, and no proof has to let go of a query's tree. Why the expression of a ranker is
//! refused is told after what is wrong with the text.
ghost use Rattle.std.specs.Prelude.{◌≡◌, ◌<◌, ◌^◌, None, length, IfOk};
ghost use Rattle.doc_types.specs.Schemas.{IsSchema};
ghost use Rattle.ql_select.specs.Faults.{select_fault};
ghost use Rattle.ql_select.specs.Names.{names_of};
ghost use Rattle.ql_select.specs.Selections.{MeansOr};
ghost use Rattle.ql_select.specs.steps.Rankings.{AsksOr, RefusesAfter};
ghost use Rattle.ql_select.specs.steps.Rests.{rest_of};
ghost use Rattle.ql_select.specs.steps.Texts.{ReadsText};

use crate::conditions::match_text;
use crate::grouping::{row_order, table_of};
use crate::limits::page_of;
use crate::names::Names;
use crate::naming::names_of;
use crate::options::{ranking_of, weights_of};
use crate::rest::Rest;
use crate::selection::Selection;
use crate::showing::columns_shown;
use doc_search::Ranking;
use index_conf::IndexConf;
use op_eval::for_schema;
use ql_refusals::{Refusal, bad_query, wrong_kind};
use ql_tree::Select;
use query_read::read_query;
use query_tree::Query;
use srch_base::{NoMemory, Or};
use std::alloc::Global;

/// What a SELECT from this index means, or why it is refused.
///
/// Want of memory is also the answer to a text of 2^32 bytes or more, which no packet has.
pub fn select(alloc: Global, conf: &IndexConf, select: &Select) -> Result<Selection, Or<Refusal>>
    requires schema { IsSchema conf.now.schema }
    ensures { MeansOr conf.now select.now result }
{
    let names = names_of(alloc, &conf.schema, select)?;
    let rest = rest_of(alloc, conf, select, names)?;
    let text = match_text(select.conds.as_slice());
    match ranking_of(alloc, &conf.schema, select.options.as_slice()) {
        Ok(ranking) => asked_of(alloc, conf, text, rest, ranking),
        Err(Or::NoMemory) => Err(Or::NoMemory),
        Err(Or::Fault(refusal)) => Err(after_text(alloc, conf, text, refusal)),
    }
}

/// What a SELECT means with the query of its text.
fn asked_of(
    alloc: Global,
    conf: &IndexConf,
    text: &[u8],
    rest: Rest,
    ranking: Ranking,
) -> Result<Selection, Or<Refusal>>
    requires schema { IsSchema conf.now.schema }
    ensures { AsksOr conf.now text.now rest ranking result }
{
    let query = match query_of(alloc, conf, text) {
        Ok(query) => query,
        Err(end) => return Err(end),
    };
    match for_schema(alloc, query, &conf.schema) {
        Ok(query) => Ok(rest.with_query(query, ranking)),
        Err(NoMemory) => Err(Or::NoMemory),
    }
}

/// Why a SELECT is refused that is refused so, unless the text of its MATCH is refused before.
fn after_text(alloc: Global, conf: &IndexConf, text: &[u8], refusal: Refusal) -> Or<Refusal>
    requires schema { IsSchema conf.now.schema }
    ensures { RefusesAfter conf.now text.now refusal result }
{
    match query_of(alloc, conf, text) {
        Ok(_query) => Or::Fault(refusal),
        Err(sooner) => sooner,
    }
}

/// The query that a text is.
fn query_of(alloc: Global, conf: &IndexConf, text: &[u8]) -> Result<Query, Or<Refusal>>
    requires schema { IsSchema conf.now.schema }
    ensures { ReadsText conf.now text.now result }
{
    if text.len() > u32::MAX as usize {
        return Err(Or::NoMemory);
    }
    let text = match str::from_utf8(text) {
        Ok(text) => text,
        Err(_) => return Err(Or::Fault(wrong_kind(b"match"))),
    };
    match read_query(alloc, text, &conf.schema, &conf.charset) {
        Ok(query) => Ok(query),
        Err(Or::NoMemory) => Err(Or::NoMemory),
        Err(Or::Fault(fault)) => Err(Or::Fault(bad_query(&fault))),
    }
}

/// What a SELECT means that nothing is wrong with, all but its query, by its names.
fn rest_of(alloc: Global, conf: &IndexConf, select: &Select, names: Names) -> Result<Rest, NoMemory>
    requires few { length conf.now.schema.attrs < 2 ^ 16 }
    requires good { select_fault conf.now.schema select.now ≡ None }
    requires names { names ≡ names_of conf.now.schema select.now }
    ensures { IfOk result (λ rest. rest ≡ rest_of conf.now select.now names) }
{
    let schema = &conf.schema;
    let options = select.options.as_slice();
    let items = select.items.as_slice();
    let page = page_of(select);
    let weights = weights_of(alloc, schema, options)?;
    let order = row_order(alloc, &names)?;
    let shown = columns_shown(alloc, schema, names.group, items, names.sources.as_slice())?;
    let table = table_of(alloc, &names, page)?;
    let (filters, facets, facet_columns) = names.into_kept();
    Ok(Rest {
        weights,
        filters,
        order,
        page,
        attrs: schema.attrs.len() as u16,
        table,
        facets,
        shown,
        facet_columns,
    })
}
