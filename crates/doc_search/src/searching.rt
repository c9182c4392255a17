//! A search over the layers of a snapshot: each document that matches and passes the conditions is offered to a sink, which is a
//! collector for the page, groups, a facet, a count, or several of these.
//!
//! A document's conditions that look at no weight come before its hits, since to find these the places of its words are read. They
//! are asked of the document where it stands in the chunk, and so is all that the sink looks at: of a document that is found no
//! column is read that isn't asked for, and who keeps it makes the copy. Of rows that conditions on the id rule out none is looked
//! at. Nothing is kept of a document but what the sink takes, and one list of hits serves for all of them. Where only how many are found
//! matters from some row on, the rest of the layer is counted (`rest.rt`).
ghost use Rattle.std.specs.Prelude.{◌≡◌, ◌+◌, ◌<◌, ◌≤◌, ◌++◌, ◌∷◌, [], List, IfOk, OnOk, All, AllPairs, Some, true, length, slice_get};
ghost use Rattle.std.specs.List.{filter};
ghost use Rattle.doc_types.specs.declared.documents.DocRow.{DocRow};
ghost use Rattle.doc_types.specs.declared.schema.Schema.{Schema};
ghost use Rattle.doc_types.specs.Documents.{AreRowsOf};
ghost use Rattle.doc_types.specs.Snapshots.{all_living, living};
ghost use Rattle.op_eval.specs.Fields.{GoesByFields};
ghost use Rattle.op_eval.specs.Matching.{matches};
ghost use Rattle.row_select.specs.Pages.{IsTop};
ghost use Rattle.row_select.specs.Filters.{hold_unweighed};
ghost use Rattle.row_select.specs.declared.row.Row.{Row as RowValue};
ghost use Rattle.doc_search.specs.Searches.{AreFound, FindsOr, IsAskedOf};
ghost use Rattle.doc_search.specs.declared.question.Question.{Question as QuestionValue};
ghost use Rattle.doc_search.specs.steps.ByFields.{LooksAtFields};
ghost use Rattle.doc_search.specs.steps.ListedRows.{GoesPast, Leaves};
ghost use Rattle.doc_search.specs.steps.Gathering.{Gathers, GivesOne, IsAskedOfDocs, IsWeighed, StandsAt, unweighed};
ghost use Rattle.doc_search.specs.Searches.{LacksWeight};
ghost use Rattle.doc_search.specs.steps.Lacking.{IfStopped, LacksSome, sought_question};

use crate::all_rows::{collect_all, takes_all};
use crate::by_words::offer_by_words;
use crate::lacking::{NoWeight, first_lacking};
use crate::listed_rows::ListedRows;
use crate::pace::{Pace, collect_some};
use crate::question::Question;
use crate::ranking::Ranking;
use crate::ready::ReadyQuestion;
use crate::rest::{count_rest, most_of_all};
use crate::room::{Room, read_values};
use crate::scanning::{next_passing, passes};
use doc_types::{Chunk, Counted, CountedLists, HitLists, Layer, Snapshot};
use op_eval::Matches;
use rankers::Ranker;
use row_select::{ChunkRow, Collector, Row, Sink};
use srch_base::{NoMemory, Or, Steps};
use std::alloc::Global;
use std::marker::Brand;
use std::sync::ledger::{Blank, Ledger};

/// The page of what is found in a snapshot, by a question of its index; or the least id of a document that is found without a weight,
/// on whatever page that is.
pub fn search<C: HitLists>(
    alloc: Global,
    question: &Question,
    snapshot: &Snapshot<C>,
) -> Result<Vec<Row>, Or<u64>>
    requires asked { (schema : Schema) × IsAskedOf schema question.now × All (λ layer. AreRowsOf schema layer.rows) snapshot.now.layers }
    ensures { FindsOr (λ found shown. IsTop found question.now.order question.now.page shown.items) question.now (all_living snapshot.now.layers) result }
{
    let mut collector = Collector::new(alloc, &question.order, question.page);
    match search_into(alloc, question, snapshot, &mut collector) {
        Ok(()) => {}
        Err(Or::NoMemory) => return Err(Or::NoMemory),
        Err(Or::Fault(id)) => return Err(Or::Fault(id)),
    }
    match collector.finish() {
        Ok(shown) => Ok(shown),
        Err(NoMemory) => Err(Or::NoMemory),
    }
}

/// Offers all that is found in a snapshot to a sink, by a question of its index: each document that matches and passes the
/// conditions, once, with its weight; or tells the least id of one that has none. The question's order and page don't matter.
pub fn search_into<C: HitLists, S: Sink>(
    alloc: Global,
    question: &Question,
    snapshot: &Snapshot<C>,
    sink: &mut S,
) -> Result<(), Or<u64>>
    requires asked { (schema : Schema) × IsAskedOf schema question.now × All (λ layer. AreRowsOf schema layer.rows) snapshot.now.layers }
    ensures { FindsOr (λ found done. S.Took sink.old found sink.new) question.now (all_living snapshot.now.layers) result }
{
    let layers = snapshot.layers.as_slice();
    match search_layers::<Brand, C, S>(alloc, question, false, layers, Blank::new(1), sink) {
        Ok(()) => Ok(()),
        Err(Or::NoMemory) => Err(Or::NoMemory),
        Err(Or::Fault(_)) => Err(first_lacking(alloc, question, layers)),
    }
}

/// Offers what is found in some layers, or stops where a document has no weight; where `lacking` says so, by whether documents have
/// one. The steps of opening are counted, as chunks ask it, and not used.
pub(crate) fn search_layers<L: Ledger, C: HitLists, S: Sink>(
    alloc: Global,
    question: &Question,
    lacking: bool,
    layers: &[Layer<C>],
    blank: Blank,
    sink: &mut S,
) -> Result<(), Or<NoWeight>>
    requires asked { All (λ layer. IsAskedOfDocs (sought_question lacking question.now) layer.rows) layers.now }
    requires name { blank.name ≡ L.name }
    requires parts { blank.parts ≡ L.parts }
    requires some { 0 < blank.parts }
    ensures found { OnOk result ((found : List RowValue) × AreFound (sought_question lacking question.now) (all_living layers.now) found × S.Took sink.old found sink.new) }
    ensures lacks { IfStopped result (LacksSome (sought_question lacking question.now) (all_living layers.now)) }
{
    let asked = ReadyQuestion::over(alloc, question, lacking)?;
    let mut steps = Steps::<L>::new(blank);
    let mut room = Room::new(alloc);
    for layer in layers {
        collect_layer(&asked, layer, &mut room, sink, &mut steps)?;
    }
    Ok(())
}

/// Offers what is found in a layer, with its lists counted in the ledger of the steps.
fn collect_layer<L: Ledger, C: HitLists, S: Sink>(
    asked: &ReadyQuestion<'_>,
    layer: &Layer<C>,
    room: &mut Room,
    sink: &mut S,
    steps: &mut Steps<L>,
) -> Result<(), Or<NoWeight>>
    requires { IsAskedOfDocs asked.now layer.now.rows }
    ensures gathers { (first : S) (before : List DocRow) → Gathers S.Took asked.now first before sink.old → OnOk result (Gathers S.Took asked.now first (before ++ filter (matches asked.now.query) (living layer.now)) sink.new) }
    ensures lacks { IfStopped result (LacksSome asked.now (living layer.now)) }
{
    if takes_all(asked.question) {
        collect_all(asked, layer, sink)?;
        return Ok(());
    }
    let chunk: &C = &layer.chunk;
    let counted = Counted::<C, L>::over(chunk);
    let dead = layer.dead.as_slice();
    let mut stream = Matches::over(asked.alloc, &asked.question.query, &counted, dead)?;
    let mut listed = ListedRows::over(&counted, &asked.conditions);
    let mut most = most_of_all(asked);
    let mut pace = Pace::of(asked, &stream);
    let mut at = 0;
    'rows: while let Some(number) = next_row(asked, &mut stream, &mut listed, &counted, at) {
        let done = count_rest(asked, &counted, dead, number, &mut most, sink, steps)?;
        if done {
            return Ok(());
        }
        at = collect_some(
            asked,
            &counted,
            dead,
            number,
            &mut pace,
            &mut stream,
            room,
            sink,
            steps,
        )?;
    }
    Ok(())
}

/// Goes on from this row to the next one that may match and isn't dead, and passes over those that conditions rule out.
fn next_row<C: Chunk>(
    asked: &ReadyQuestion<'_>,
    stream: &mut Matches<'_, C>,
    listed: &mut ListedRows<'_>,
    chunk: &C,
    at: u32,
) -> Option<u32>
    requires at { stream.old.at ≡ at }
    requires docs { stream.old.rows ≡ C.content chunk.now }
    requires within { at ≤ length (C.content chunk.now) }
    requires asked { IsAskedOfDocs asked.now (C.content chunk.now) }
    requires rows { AllPairs (λ row later. row.doc.id < later.doc.id) (C.content chunk.now) }
    ensures { Leaves asked.now (C.content chunk.now) at listed.old → GoesPast asked.now (C.content chunk.now) at stream.old result stream.new listed.new }
{
    let from = next_passing(asked, listed, chunk, at);
    lead(stream, at, from);
    stream.row()
}

/// Passes over the rows from this one on up to that one.
pub(crate) fn lead<C: Chunk>(stream: &mut Matches<'_, C>, at: u32, to: u32)
    requires at { stream.old.at ≡ at }
    requires on { at ≤ to }
    requires within { to ≤ length stream.old.rows }
    ensures { stream.new ≡ record stream.old { at = to } }
{
    for _ in at..to {
        stream.skip();
    }
}

/// Goes on behind a row, and offers its document if it matches and passes the conditions.
#[inline(always)]
pub(crate) fn collect_row<C: CountedLists, S: Sink>(
    asked: &ReadyQuestion<'_>,
    chunk: &C,
    number: u32,
    stream: &mut Matches<'_, C>,
    room: &mut Room,
    sink: &mut S,
    steps: &mut Steps<C::Book>,
) -> Result<(), Or<NoWeight>>
    requires asked { IsAskedOfDocs asked.now (C.content chunk.now) }
    requires stands { StandsAt asked.now (C.content chunk.now) number stream.old }
    ensures goes_on { OnOk result (stream.new ≡ record stream.old { at = number + 1 }) }
    ensures gathers { (first : S) (before : List DocRow) (doc : DocRow) → slice_get (C.content chunk.now) number ≡ Some doc → Gathers S.Took asked.now first before sink.old → OnOk result (Gathers S.Took asked.now first (before ++ filter (matches asked.now.query) (doc ∷ [])) sink.new) }
    ensures lacks { (doc : DocRow) → slice_get (C.content chunk.now) number ≡ Some doc → IfStopped result (LacksWeight asked.now doc) }
{
    if !passes(asked, chunk, number) {
        stream.skip();
        return Ok(());
    }
    let offered = offer_by_words(asked, chunk, number, stream, sink)?;
    if offered {
        stream.skip();
        return Ok(());
    }
    match weight_of(asked, chunk, number, stream, room, steps)? {
        Some(weight) => offer_or_stop(asked, chunk, number, weight, sink),
        None => Ok(()),
    }
}

/// Offers a document that matches and passed the conditions that look at no weight, if it passes the others too. One that has no
/// weight then ends the search.
fn offer_or_stop<C: Chunk, S: Sink>(
    asked: &ReadyQuestion<'_>,
    chunk: &C,
    number: u32,
    weight: Option<u64>,
    sink: &mut S,
) -> Result<(), Or<NoWeight>>
    requires asked { IsAskedOfDocs asked.now (C.content chunk.now) }
    requires number { number < length (C.content chunk.now) }
    requires passes { (doc : DocRow) → slice_get (C.content chunk.now) number ≡ Some doc → hold_unweighed asked.now.filters (unweighed doc) ≡ true }
    ensures gathers { (first : S) (before : List DocRow) (doc : DocRow) → slice_get (C.content chunk.now) number ≡ Some doc → IsWeighed asked.now doc (Some weight) → Gathers S.Took asked.now first before sink.old → OnOk result (Gathers S.Took asked.now first (before ++ doc ∷ []) sink.new) }
    ensures lacks { (doc : DocRow) → slice_get (C.content chunk.now) number ≡ Some doc → IsWeighed asked.now doc (Some weight) → IfStopped result (LacksWeight asked.now doc) }
{
    match weight {
        Some(weight) => {
            offer(asked, chunk, number, weight, sink)?;
            Ok(())
        }
        None => {
            let row = ChunkRow::new(asked.alloc, chunk, number, asked.question.attrs, 0);
            if asked.conditions.hold_weighed(&row) {
                return Err(Or::Fault(NoWeight));
            }
            Ok(())
        }
    }
}

/// Goes on behind a row, and weighs its document if it matches. What is found then is the weight, or that there is none.
fn weight_of<C: CountedLists>(
    asked: &ReadyQuestion<'_>,
    chunk: &C,
    number: u32,
    stream: &mut Matches<'_, C>,
    room: &mut Room,
    steps: &mut Steps<C::Book>,
) -> Result<Option<Option<u64>>, NoMemory>
    requires asked { IsAskedOfDocs asked.now stream.old.rows }
    requires query { stream.old.query ≡ asked.now.query }
    requires rows { stream.old.rows ≡ C.content chunk.now }
    requires at { stream.old.at ≡ number }
    requires within { stream.old.at < length stream.old.rows }
    ensures goes_on { OnOk result (stream.new ≡ record stream.old { at = stream.old.at + 1 }) }
    ensures weighed { (doc : DocRow) → slice_get stream.old.rows stream.old.at ≡ Some doc → IfOk result (IsWeighed asked.now doc) }
{
    if gives_one(asked) {
        return weight_alike(stream, steps);
    }
    if asked.looks_at_fields() {
        if stream.goes_by_fields() {
            return weight_by_fields(asked, chunk, number, stream, room, steps);
        }
    }
    weight_ranked(asked, chunk, number, stream, room, steps)
}

/// The same by the fields that have hits, for a query that they decide and a ranker that looks at no more of hits.
fn weight_by_fields<C: CountedLists>(
    asked: &ReadyQuestion<'_>,
    chunk: &C,
    number: u32,
    stream: &mut Matches<'_, C>,
    room: &mut Room,
    steps: &mut Steps<C::Book>,
) -> Result<Option<Option<u64>>, NoMemory>
    requires asked { IsAskedOfDocs asked.now stream.old.rows }
    requires query { stream.old.query ≡ asked.now.query }
    requires rows { stream.old.rows ≡ C.content chunk.now }
    requires at { stream.old.at ≡ number }
    requires within { stream.old.at < length stream.old.rows }
    requires word { GoesByFields stream.old.query }
    requires looks { LooksAtFields asked.now.ranker }
    ensures goes_on { OnOk result (stream.new ≡ record stream.old { at = stream.old.at + 1 }) }
    ensures weighed { (doc : DocRow) → slice_get stream.old.rows stream.old.at ≡ Some doc → IfOk result (IsWeighed asked.now doc) }
{
    let fields = stream.take_fields(steps);
    if fields == 0 {
        return Ok(None);
    }
    read_values(asked, chunk, number, &mut room.values)?;
    Ok(Some(asked.weigh_by_fields(fields, room.values.as_slice())))
}

/// Whether each document that matches weighs 1, whatever hits it has: by the ranker that looks at none, or since the query has no
/// keyword.
pub(crate) fn gives_one(asked: &ReadyQuestion<'_>) -> bool
    ensures { result ≡ true → GivesOne asked.now }
{
    let question = asked.question;
    match question.ranker {
        Ranking::Plain(Ranker::None) => true,
        _ => question.query.keywords == 0,
    }
}

/// The same where each document that matches weighs 1: no hits are looked for.
fn weight_alike<C: CountedLists>(
    stream: &mut Matches<'_, C>,
    steps: &mut Steps<C::Book>,
) -> Result<Option<Option<u64>>, NoMemory>
    requires { stream.old.at < length stream.old.rows }
    ensures goes_on { OnOk result (stream.new ≡ record stream.old { at = stream.old.at + 1 }) }
    ensures weighed { (question : QuestionValue) (doc : DocRow) → GivesOne question → stream.old.query ≡ question.query → slice_get stream.old.rows stream.old.at ≡ Some doc → IfOk result (IsWeighed question doc) }
{
    let found = stream.matches(steps)?;
    Ok(if found { Some(Some(1)) } else { None })
}

/// The same by the hits. Out of line: a weight has tables on the stack, for which rows that go another way would pay.
#[inline(never)]
fn weight_ranked<C: CountedLists>(
    asked: &ReadyQuestion<'_>,
    chunk: &C,
    number: u32,
    stream: &mut Matches<'_, C>,
    room: &mut Room,
    steps: &mut Steps<C::Book>,
) -> Result<Option<Option<u64>>, NoMemory>
    requires asked { IsAskedOfDocs asked.now stream.old.rows }
    requires query { stream.old.query ≡ asked.now.query }
    requires rows { stream.old.rows ≡ C.content chunk.now }
    requires at { stream.old.at ≡ number }
    requires within { stream.old.at < length stream.old.rows }
    ensures goes_on { OnOk result (stream.new ≡ record stream.old { at = stream.old.at + 1 }) }
    ensures weighed { (doc : DocRow) → slice_get stream.old.rows stream.old.at ≡ Some doc → IfOk result (IsWeighed asked.now doc) }
{
    let found = stream.take(&mut room.hits, steps)?;
    if !found {
        return Ok(None);
    }
    read_values(asked, chunk, number, &mut room.values)?;
    Ok(Some(asked.weigh(&room.hits, room.values.as_slice())))
}

/// Offers a document that matches and passed the conditions that look at no weight, if it passes the others too.
pub(crate) fn offer<C: Chunk, S: Sink>(
    asked: &ReadyQuestion<'_>,
    chunk: &C,
    number: u32,
    weight: u64,
    sink: &mut S,
) -> Result<(), NoMemory>
    requires asked { IsAskedOfDocs asked.now (C.content chunk.now) }
    requires number { number < length (C.content chunk.now) }
    requires passes { (doc : DocRow) → slice_get (C.content chunk.now) number ≡ Some doc → hold_unweighed asked.now.filters (unweighed doc) ≡ true }
    ensures { (first : S) (before : List DocRow) (doc : DocRow) → slice_get (C.content chunk.now) number ≡ Some doc → IsWeighed asked.now doc (Some (Some weight)) → Gathers S.Took asked.now first before sink.old → OnOk result (Gathers S.Took asked.now first (before ++ doc ∷ []) sink.new) }
{
    let row = ChunkRow::new(asked.alloc, chunk, number, asked.question.attrs, weight);
    if asked.conditions.hold_weighed(&row) {
        sink.offer(&row)?;
    }
    Ok(())
}
