//! Queries that are asked over documents, as the lines of tables tell them.
ghost use Rattle.std.specs.Prelude.{◌≡◌, ◌<◌, ◌^◌, ◌∷◌, [], All, IfOk, length};
ghost use Rattle.doc_search.specs.Searches.{IsAskedOf};
ghost use Rattle.doc_types.specs.Chunks.{IsContent};
ghost use Rattle.doc_types.specs.Documents.{AreRowsOf};
ghost use Rattle.doc_types.specs.declared.schema.Schema.{Schema};
ghost use Rattle.index_conf.specs.Soundness.{IsSound};
ghost use Rattle.op_eval.specs.Numbered.{IsNumbered};
ghost use Rattle.query_tree.specs.TreeKeys.{query_keys};
ghost use Rattle.eval_vectors.specs.steps.Reading.{IsSoundIndex, whole};

use crate::documents::chunk_of;
use crate::sets::index_of;
use crate::telling::{Call, put_answer};
use crate::watched::Watched;
use conf_text::read_conf;
use doc_search::{Question, Ranking, search};
use doc_types::{Chunk, HitLists, Layer, Snapshot};
use image_chunk::RamChunk;
use index_conf::{Conf, IndexConf};
use op_eval::{for_schema, numbered_keywords_have_positions};
use query_read::read_query;
use query_tree::Query;
use rankers::{Ranker, Weights};
use row_select::{ColumnRef, Order, Page, Row};
use srch_base::{Items, NoMemory};
use std::alloc::Global;
use std::sync::Arc;

/// What is asked about the queries of a table.
pub(crate) enum Asked {
    /// What a call finds.
    Found(Call),
    /// That, and how many lists of places it opens.
    Lists(Call),
    /// That, and whether it opens one: where it does, it wants memory while none can be opened.
    Opens(Call),
    /// That, how many lists it opens, and whether it seeks no more often than the line says.
    Seeks(Call),
    /// That, and whether no more calls are made on the chunk than the line says.
    Calls(Call),
    /// How many lists a whole search opens.
    Search,
    /// Which documents a whole search shows, and whether no more calls are made on the chunk than the line says.
    Shown,
}

/// The query that a short text is, as the index means it.
fn query_of(alloc: Global, text: &str, index: &IndexConf) -> Result<Query, NoMemory>
    requires { IsSoundIndex index.now }
    ensures numbered { IfOk result IsNumbered }
    ensures few { IfOk result (λ query. length (query_keys query) < 2 ^ 16) }
{
    if text.len() > 10_000 {
        return Err(NoMemory);
    }
    match read_query(alloc, text, &index.schema, &index.charset) {
        Ok(query) => Ok(for_schema(alloc, query, &index.schema)?),
        Err(_) => Err(NoMemory),
    }
}

/// The search of the query of a text over an index: its first page, by weight.
fn question_of(alloc: Global, text: &str, index: &IndexConf) -> Result<Question, NoMemory>
    requires { IsSoundIndex index.now }
    ensures asked { IfOk result (IsAskedOf index.now.schema) }
    ensures few { IfOk result (λ question. length (query_keys question.query) < 2 ^ 16) }
{
    numbered_keywords_have_positions();
    let fields = index.schema.fields.len();
    let weights = vec![in alloc; 1; fields]?;
    let keys = vec![in alloc; (ColumnRef::Weight, true)]?;
    let query = query_of(alloc, text, index)?;
    Ok(Question {
        query,
        ranker: Ranking::Plain(Ranker::Proximity),
        weights: Weights {
            list: Items::new(weights),
        },
        filters: Items::new(Vec::new(alloc)),
        order: Order {
            keys: Items::new(keys),
        },
        page: Page {
            offset: 0,
            count: 20,
            max_matches: 1000,
        },
        attrs: index.schema.attrs.len() as u16,
    })
}

/// A chunk in memory, of which no row is dead.
fn layer_of<C: Chunk>(alloc: Global, chunk: C) -> Result<Layer<C>, NoMemory>
    requires { IsContent (C.content chunk) }
    ensures { IfOk result (λ layer. layer ≡ whole (C.content chunk)) }
{
    Ok(Layer {
        chunk: Arc::new(alloc, chunk)?,
        disk: false,
        dead: Arc::new(alloc, Items::new(Vec::new(alloc)))?,
    })
}

/// A snapshot of one such layer.
fn snapshot_of<C: Chunk>(alloc: Global, chunk: C) -> Result<Snapshot<C>, NoMemory>
    requires { IsContent (C.content chunk) }
    ensures { IfOk result (λ snapshot. snapshot.layers ≡ whole (C.content chunk) ∷ []) }
{
    let mut layers = Vec::new(alloc);
    layers.push(layer_of(alloc, chunk)?)?;
    Ok(Snapshot {
        number: 1,
        shape: 0,
        layers: Items::new(layers),
    })
}

/// A snapshot of documents, whose chunk counts what is opened.
fn watched(
    alloc: Global,
    index: &IndexConf,
    documents: &str,
) -> Result<Snapshot<Watched<RamChunk>>, NoMemory>
    requires { IsSoundIndex index.now }
    ensures { IfOk result (λ snapshot. All (λ layer. AreRowsOf index.now.schema layer.rows) snapshot.layers) }
{
    let chunk = chunk_of(alloc, index, documents)?;
    let snapshot = snapshot_of(alloc, Watched::over(alloc, chunk)?)?;
    Ok(snapshot)
}

/// The number of a line, which stands at its end, or the count where that passes it.
fn within(count: u64, wanted: &str) -> Option<u64> {
    let (_, most) = wanted.rsplit_once(" ")?;
    Some(count.max(most.parse::<u64>().ok()?))
}

/// Appends how much was called, opened and sought, as far as that is asked.
fn put_counts(
    counts: (u64, u64, u64),
    asked: &Asked,
    wanted: &str,
    into: &mut String,
) -> Option<()> {
    let (calls, lists, seeks) = counts;
    match asked {
        Asked::Found(_) | Asked::Opens(_) => Some(()),
        Asked::Lists(_) | Asked::Search => write!(into, ", {lists} lists").ok(),
        Asked::Calls(_) | Asked::Shown => {
            let calls = within(calls, wanted)?;
            write!(into, ", calls within {calls}").ok()
        }
        Asked::Seeks(_) => {
            let seeks = within(seeks, wanted)?;
            write!(into, ", {lists} lists, seeks within {seeks}").ok()
        }
    }
}

/// Appends the ids of rows.
fn put_ids(rows: &[Row], into: &mut String) -> Option<()> {
    for row in rows {
        let id = row.id;
        write!(into, " {id}").ok()?;
    }
    Some(())
}

/// Appends which documents a search shows, or how many.
fn put_shown(rows: &[Row], asked: &Asked, into: &mut String) -> Option<()> {
    if let Asked::Shown = asked {
        return put_ids(rows, into);
    }
    let count = rows.len();
    write!(into, " {count} rows").ok()
}

/// Appends what a query finds while no list can be opened; or, where it wants memory then, what it finds afterwards.
fn put_shut<C: HitLists>(
    alloc: Global,
    query: &Query,
    chunk: &Watched<C>,
    call: &Call,
    into: &mut String,
) -> Option<()>
    requires { length (query_keys query.now) < 2 ^ 16 }
{
    chunk.shut(true);
    let told = put_answer(alloc, query, chunk, call, into);
    chunk.shut(false);
    if told.is_some() {
        return into.push_str(", no list").ok();
    }
    put_answer(alloc, query, chunk, call, into)?;
    into.push_str(", a list").ok()
}

/// Appends what a query finds.
fn put_found<C: HitLists>(
    alloc: Global,
    question: &Question,
    snapshot: &Snapshot<Watched<C>>,
    chunk: &Watched<C>,
    asked: &Asked,
    into: &mut String,
) -> Option<()>
    requires few { length (query_keys question.now.query) < 2 ^ 16 }
    requires asked { (schema : Schema) × IsAskedOf schema question.now × All (λ layer. AreRowsOf schema layer.rows) snapshot.now.layers }
{
    match asked {
        Asked::Found(call) | Asked::Lists(call) | Asked::Seeks(call) | Asked::Calls(call) => {
            put_answer(alloc, &question.query, chunk, call, into)
        }
        Asked::Opens(call) => put_shut(alloc, &question.query, chunk, call, into),
        Asked::Search | Asked::Shown => match search(alloc, question, snapshot) {
            Ok(rows) => put_shown(rows.as_slice(), asked, into),
            Err(_) => None,
        },
    }
}

/// Appends what a query comes to.
fn put_asked<C: HitLists>(
    alloc: Global,
    question: &Question,
    snapshot: &Snapshot<Watched<C>>,
    asked: &Asked,
    wanted: &str,
    into: &mut String,
) -> Option<()>
    requires few { length (query_keys question.now.query) < 2 ^ 16 }
    requires asked { (schema : Schema) × IsAskedOf schema question.now × All (λ layer. AreRowsOf schema layer.rows) snapshot.now.layers }
{
    let chunk: &Watched<C> = &snapshot.layers.as_slice().first()?.chunk;
    chunk.counts();
    put_found(alloc, question, snapshot, chunk, asked, into)?;
    put_counts(chunk.counts(), asked, wanted, into)
}

/// Appends what the query of a text comes to.
fn put_line<C: HitLists>(
    alloc: Global,
    text: &str,
    index: &IndexConf,
    snapshot: &Snapshot<Watched<C>>,
    asked: &Asked,
    wanted: &str,
    into: &mut String,
) -> Option<()>
    requires index { IsSoundIndex index.now }
    requires rows { All (λ layer. AreRowsOf index.now.schema layer.rows) snapshot.now.layers }
{
    match question_of(alloc, text, index) {
        Ok(question) => put_asked(alloc, &question, snapshot, asked, wanted, into),
        Err(_) => None,
    }
}

/// Whether the query of a line comes to what stands behind it. `found` is what it comes to.
fn is_right<C: HitLists>(
    alloc: Global,
    line: &str,
    index: &IndexConf,
    snapshot: &Snapshot<Watched<C>>,
    asked: &Asked,
    found: &mut String,
) -> Option<bool>
    requires index { IsSoundIndex index.now }
    requires rows { All (λ layer. AreRowsOf index.now.schema layer.rows) snapshot.now.layers }
{
    found.clear();
    let (text, wanted) = line.split_once(" ⇒")?;
    put_line(alloc, text, index, snapshot, asked, wanted, found)?;
    Some(found.trim() == wanted.trim())
}

/// The first line of tables that isn't right.
fn first_in<'t, C: HitLists>(
    alloc: Global,
    index: &IndexConf,
    snapshot: &Snapshot<Watched<C>>,
    tables: &[(&'t str, &Asked)],
    found: &mut String,
) -> Option<&'t str>
    requires index { IsSoundIndex index.now }
    requires rows { All (λ layer. AreRowsOf index.now.schema layer.rows) snapshot.now.layers }
{
    for (table, asked) in tables {
        for line in table.trim_start().lines() {
            if is_right(alloc, line, index, snapshot, asked, found) != Some(true) {
                return Some(line);
            }
        }
    }
    None
}

/// The same over documents of an index.
fn first_over<'t>(
    alloc: Global,
    index: &IndexConf,
    documents: &str,
    tables: &[(&'t str, &Asked)],
    found: &mut String,
) -> Option<&'t str>
    requires { IsSoundIndex index.now }
{
    match watched(alloc, index, documents) {
        Ok(snapshot) => first_in(alloc, index, &snapshot, tables, found),
        Err(_) => Some("no documents"),
    }
}

/// The same over documents of the index of a configuration.
fn first_by<'t>(
    alloc: Global,
    conf: &Conf,
    documents: &str,
    tables: &[(&'t str, &Asked)],
    found: &mut String,
) -> Option<&'t str>
    requires { IsSound conf.now }
{
    match conf.indexes.as_slice().split_first() {
        Some((index, _)) => first_over(alloc, index, documents, tables, found),
        None => Some("no index"),
    }
}

/// The first line of tables over documents of the index of a set that isn't right.
pub(crate) fn first_wrong<'t>(
    alloc: Global,
    set: &str,
    documents: &str,
    tables: &[(&'t str, &Asked)],
    found: &mut String,
) -> Option<&'t str> {
    match read_conf(alloc, index_of(set).as_bytes()) {
        Ok(conf) => first_by(alloc, &conf, documents, tables, found),
        Err(_) => Some("no configuration"),
    }
}
