//! Rows that are looked at many at a time. Where the rows that a query finds lie close together, its words are gone over list by list for
//! thousands of rows at once, which tells of each row whether it matches, how many of the keywords it has and in which fields: and so
//! what it weighs at most, or what it weighs (`told_weights.rt`). Rows of which the sink needs no more than their number are counted,
//! others are asked the conditions and offered by that; a row's places are read only where more than a bound of its weight matters.
ghost use Rattle.std.specs.Prelude.{◌≡◌, ◌+◌, ◌<◌, ◌≤◌, ◌^◌, ℕ, List, [], AllPairs, IfOk, IfSome, OnOk, Some, None, true, false, length, slice_get};
ghost use Rattle.doc_types.specs.declared.documents.DocRow.{DocRow};
ghost use Rattle.row_flags.specs.Windows.{AreTold, IsTold};
ghost use Rattle.row_flags.specs.declared.windows.Told.{Told as ToldValue};
ghost use Rattle.doc_search.specs.steps.Gathering.{IsAskedOfDocs, IsWeighed, WeighsUpTo};
ghost use Rattle.doc_search.specs.steps.Windows.{Carries, IsRun, StopsIn, TellWeights, standing};

use crate::by_words::{offer_at_most, positions_at_most};
use crate::lacking::NoWeight;
use crate::ready::ReadyQuestion;
use crate::room::Room;
use crate::scanning::passes;
use crate::searching::{collect_row, lead, offer};
use crate::told_weights::{ToldWeight, weight_told};
use doc_types::{Chunk, CountedLists};
use op_eval::Matches;
use rankers::most_within;
use row_flags::{Told, told_rows};
use row_select::Sink;
use srch_base::{NoMemory, Or, Steps};

/// How many rows are told of at the same time: what is known of them fits a processor's cache.
const WINDOW: u32 = 0x2000;

/// Goes over the rows from one on, many at once, and tells up to which row; None where more than words and fields decides which of them
/// match: then nothing was done.
pub(crate) fn collect_window<C: CountedLists, S: Sink>(
    asked: &ReadyQuestion<'_>,
    chunk: &C,
    dead: &[u32],
    from: u32,
    stream: &mut Matches<'_, C>,
    room: &mut Room,
    sink: &mut S,
    steps: &mut Steps<C::Book>,
) -> Result<Option<u32>, Or<NoWeight>>
    requires asked { IsAskedOfDocs asked.now (C.content chunk.now) }
    requires rows { AllPairs (λ row later. row.doc.id < later.doc.id) (C.content chunk.now) }
    requires ascend { AllPairs (λ row later. row < later) dead.now }
    requires from { from < length (C.content chunk.now) }
    requires stands { stream.old ≡ standing asked.now (C.content chunk.now) dead.now from }
    ensures none { IfOk result (λ told. told ≡ None → (stream.new ≡ stream.old) × (sink.new ≡ sink.old)) }
    ensures within { IfOk result (λ told. IfSome told (λ to. (from < to) × (to ≤ length (C.content chunk.now)))) }
    ensures stands { IfOk result (λ told. IfSome told (λ to. stream.new ≡ standing asked.now (C.content chunk.now) dead.now to)) }
    ensures carries { IfOk result (λ told. IfSome told (λ to. Carries S.Took asked.now (C.content chunk.now) dead.now from to sink.old sink.new)) }
    ensures lacks { StopsIn S.Took asked.now (C.content chunk.now) dead.now from sink.old result }
{
    let size = (chunk.rows() - from).min(WINDOW);
    let query = &asked.question.query;
    let weighs = ToldWeight::of(asked, stream);
    let by_fields = weighs.looks_at_fields();
    match told_rows(
        asked.alloc,
        query,
        chunk,
        dead,
        from,
        size,
        by_fields,
        steps,
    )? {
        None => Ok(None),
        Some(told) => {
            collect_told(
                asked, chunk, dead, from, &told, weighs, stream, room, sink, steps,
            )?;
            Ok(Some(from + size))
        }
    }
}

/// Goes over the rows of which it is told.
fn collect_told<C: CountedLists, S: Sink>(
    asked: &ReadyQuestion<'_>,
    chunk: &C,
    dead: &[u32],
    from: u32,
    told: &[Told],
    weighs: ToldWeight,
    stream: &mut Matches<'_, C>,
    room: &mut Room,
    sink: &mut S,
    steps: &mut Steps<C::Book>,
) -> Result<(), Or<NoWeight>>
    requires asked { IsAskedOfDocs asked.now (C.content chunk.now) }
    requires rows { AllPairs (λ row later. row.doc.id < later.doc.id) (C.content chunk.now) }
    requires few { length (C.content chunk.now) < 2 ^ 32 }
    requires told { AreTold asked.now.query dead.now (C.content chunk.now) from told.now }
    requires tells { TellWeights asked.now weighs (C.content chunk.now) from told.now }
    requires stands { stream.old ≡ standing asked.now (C.content chunk.now) dead.now from }
    ensures stands { OnOk result (stream.new ≡ standing asked.now (C.content chunk.now) dead.now (from + length told.now)) }
    ensures carries { OnOk result (Carries S.Took asked.now (C.content chunk.now) dead.now from (from + length told.now) sink.old sink.new) }
    ensures lacks { StopsIn S.Took asked.now (C.content chunk.now) dead.now from sink.old result }
{
    let mut index = 0;
    let mut stood = from;
    'told: while index < told.len() {
        index = collect_next(
            asked, chunk, dead, from, told, index, weighs, &mut stood, stream, room, sink, steps,
        )?;
    }
    lead(stream, stood, from + told.len() as u32);
    Ok(())
}

/// Goes over the row of this index, or over those behind it too where they are only counted, and tells which one comes next. The stream
/// stands at a row up to it.
fn collect_next<C: CountedLists, S: Sink>(
    asked: &ReadyQuestion<'_>,
    chunk: &C,
    dead: &[u32],
    from: u32,
    told: &[Told],
    index: usize,
    weighs: ToldWeight,
    stood: &mut u32,
    stream: &mut Matches<'_, C>,
    room: &mut Room,
    sink: &mut S,
    steps: &mut Steps<C::Book>,
) -> Result<usize, Or<NoWeight>>
    requires asked { IsAskedOfDocs asked.now (C.content chunk.now) }
    requires rows { AllPairs (λ row later. row.doc.id < later.doc.id) (C.content chunk.now) }
    requires few { length (C.content chunk.now) < 2 ^ 32 }
    requires told { AreTold asked.now.query dead.now (C.content chunk.now) from told.now }
    requires tells { TellWeights asked.now weighs (C.content chunk.now) from told.now }
    requires index { index < length told.now }
    requires before { stood.old ≤ from + index }
    requires stands { stream.old ≡ standing asked.now (C.content chunk.now) dead.now stood.old }
    ensures on { IfOk result (λ next. (index < next) × (next ≤ length told.now) × (stood.new ≤ from + next)) }
    ensures stands { OnOk result (stream.new ≡ standing asked.now (C.content chunk.now) dead.now stood.new) }
    ensures carries { IfOk result (λ next. Carries S.Took asked.now (C.content chunk.now) dead.now (from + index) (from + next) sink.old sink.new) }
    ensures lacks { StopsIn S.Took asked.now (C.content chunk.now) dead.now (from + index) sink.old result }
{
    let its = told_at(told, index);
    if !its.found {
        return Ok(index + 1);
    }
    let offered = offer_told(asked, chunk, from, told, index, weighs, room, sink)?;
    match offered {
        Some(next) => Ok(next),
        None => {
            let number = from + index as u32;
            lead(stream, *stood, number);
            collect_row(asked, chunk, number, stream, room, sink, steps)?;
            *stood = number + 1;
            Ok(index + 1)
        }
    }
}

/// Offers the row of this index, which is found, by what is told of it, or counts it with those behind it that weigh no more, and tells
/// which row comes next. None where more matters of what the row weighs: then nothing was done.
fn offer_told<C: Chunk, S: Sink>(
    asked: &ReadyQuestion<'_>,
    chunk: &C,
    from: u32,
    told: &[Told],
    index: usize,
    weighs: ToldWeight,
    room: &mut Room,
    sink: &mut S,
) -> Result<Option<usize>, NoMemory>
    requires asked { IsAskedOfDocs asked.now (C.content chunk.now) }
    requires rows { AllPairs (λ row later. row.doc.id < later.doc.id) (C.content chunk.now) }
    requires few { length (C.content chunk.now) < 2 ^ 32 }
    requires told { (dead : List ℕ) × AreTold asked.now.query dead (C.content chunk.now) from told.now }
    requires found { (its : ToldValue) → slice_get told.now index ≡ Some its → its.found ≡ true }
    requires index { index < length told.now }
    requires tells { TellWeights asked.now weighs (C.content chunk.now) from told.now }
    ensures on { IfOk result (λ done. IfSome done (λ next. (index < next) × (next ≤ length told.now))) }
    ensures carries { (dead : List ℕ) → AreTold asked.now.query dead (C.content chunk.now) from told.now → IfOk result (λ done. IfSome done (λ next. Carries S.Took asked.now (C.content chunk.now) dead (from + index) (from + next) sink.old sink.new)) }
    ensures kept { IfOk result (λ done. done ≡ None → sink.new ≡ sink.old) }
{
    let number = from + index as u32;
    let weight = weight_told(asked, chunk, number, weighs, told_at(told, index), room)?;
    match weight {
        Some(weight) => {
            let next = offer_weighed(asked, chunk, from, told, index, weight, sink)?;
            Ok(Some(next))
        }
        None => offer_bounded(asked, chunk, from, told, index, sink),
    }
}

/// The same by the weight of the row.
fn offer_weighed<C: Chunk, S: Sink>(
    asked: &ReadyQuestion<'_>,
    chunk: &C,
    from: u32,
    told: &[Told],
    index: usize,
    weight: u64,
    sink: &mut S,
) -> Result<usize, NoMemory>
    requires asked { IsAskedOfDocs asked.now (C.content chunk.now) }
    requires rows { AllPairs (λ row later. row.doc.id < later.doc.id) (C.content chunk.now) }
    requires few { length (C.content chunk.now) < 2 ^ 32 }
    requires told { (dead : List ℕ) × AreTold asked.now.query dead (C.content chunk.now) from told.now }
    requires found { (its : ToldValue) → slice_get told.now index ≡ Some its → its.found ≡ true }
    requires index { index < length told.now }
    requires weighs { (doc : DocRow) → slice_get (C.content chunk.now) (from + index) ≡ Some doc → IsWeighed asked.now doc (Some (Some weight)) }
    ensures on { IfOk result (λ next. (index < next) × (next ≤ length told.now)) }
    ensures carries { (dead : List ℕ) → AreTold asked.now.query dead (C.content chunk.now) from told.now → IfOk result (λ next. Carries S.Took asked.now (C.content chunk.now) dead (from + index) (from + next) sink.old sink.new) }
{
    let counted = count_run(asked, chunk, from, told, index, weight, sink)?;
    match counted {
        Some(next) => Ok(next),
        None => {
            let number = from + index as u32;
            if !passes(asked, chunk, number) {
                return Ok(index + 1);
            }
            offer(asked, chunk, number, weight, sink)?;
            Ok(index + 1)
        }
    }
}

/// The same by the most that the row weighs, if that is known.
fn offer_bounded<C: Chunk, S: Sink>(
    asked: &ReadyQuestion<'_>,
    chunk: &C,
    from: u32,
    told: &[Told],
    index: usize,
    sink: &mut S,
) -> Result<Option<usize>, NoMemory>
    requires asked { IsAskedOfDocs asked.now (C.content chunk.now) }
    requires rows { AllPairs (λ row later. row.doc.id < later.doc.id) (C.content chunk.now) }
    requires few { length (C.content chunk.now) < 2 ^ 32 }
    requires told { (dead : List ℕ) × AreTold asked.now.query dead (C.content chunk.now) from told.now }
    requires found { (its : ToldValue) → slice_get told.now index ≡ Some its → its.found ≡ true }
    requires index { index < length told.now }
    ensures on { IfOk result (λ done. IfSome done (λ next. (index < next) × (next ≤ length told.now))) }
    ensures carries { (dead : List ℕ) → AreTold asked.now.query dead (C.content chunk.now) from told.now → IfOk result (λ done. IfSome done (λ next. Carries S.Took asked.now (C.content chunk.now) dead (from + index) (from + next) sink.old sink.new)) }
    ensures kept { IfOk result (λ done. done ≡ None → sink.new ≡ sink.old) }
{
    match most_of(asked, told_at(told, index)) {
        None => Ok(None),
        Some(most) => offer_within(asked, chunk, from, told, index, most, sink),
    }
}

/// The same where the row weighs so much at most.
fn offer_within<C: Chunk, S: Sink>(
    asked: &ReadyQuestion<'_>,
    chunk: &C,
    from: u32,
    told: &[Told],
    index: usize,
    most: u64,
    sink: &mut S,
) -> Result<Option<usize>, NoMemory>
    requires asked { IsAskedOfDocs asked.now (C.content chunk.now) }
    requires rows { AllPairs (λ row later. row.doc.id < later.doc.id) (C.content chunk.now) }
    requires few { length (C.content chunk.now) < 2 ^ 32 }
    requires told { (dead : List ℕ) × AreTold asked.now.query dead (C.content chunk.now) from told.now }
    requires found { (its : ToldValue) → slice_get told.now index ≡ Some its → its.found ≡ true }
    requires index { index < length told.now }
    requires weighs { (doc : DocRow) → slice_get (C.content chunk.now) (from + index) ≡ Some doc → WeighsUpTo asked.now doc most }
    ensures on { IfOk result (λ done. IfSome done (λ next. (index < next) × (next ≤ length told.now))) }
    ensures carries { (dead : List ℕ) → AreTold asked.now.query dead (C.content chunk.now) from told.now → IfOk result (λ done. IfSome done (λ next. Carries S.Took asked.now (C.content chunk.now) dead (from + index) (from + next) sink.old sink.new)) }
    ensures kept { IfOk result (λ done. done ≡ None → sink.new ≡ sink.old) }
{
    let counted = count_run(asked, chunk, from, told, index, most, sink)?;
    match counted {
        Some(next) => Ok(Some(next)),
        None => {
            let number = from + index as u32;
            if !passes(asked, chunk, number) {
                return Ok(Some(index + 1));
            }
            let offered = offer_at_most(asked, chunk, number, most, sink)?;
            Ok(if offered { Some(index + 1) } else { None })
        }
    }
}

/// Counts the row of this index, which is found and weighs no more than that, with those behind it that weigh no more either, where the
/// sink needs only their number and no condition is asked; and tells which row comes next.
fn count_run<C: Chunk, S: Sink>(
    asked: &ReadyQuestion<'_>,
    chunk: &C,
    from: u32,
    told: &[Told],
    index: usize,
    most: u64,
    sink: &mut S,
) -> Result<Option<usize>, NoMemory>
    requires asked { IsAskedOfDocs asked.now (C.content chunk.now) }
    requires rows { AllPairs (λ row later. row.doc.id < later.doc.id) (C.content chunk.now) }
    requires few { length (C.content chunk.now) < 2 ^ 32 }
    requires told { (dead : List ℕ) × AreTold asked.now.query dead (C.content chunk.now) from told.now }
    requires found { (its : ToldValue) → slice_get told.now index ≡ Some its → its.found ≡ true }
    requires index { index < length told.now }
    requires weighs { asked.now.filters ≡ [] → (doc : DocRow) → slice_get (C.content chunk.now) (from + index) ≡ Some doc → WeighsUpTo asked.now doc most }
    ensures on { IfOk result (λ done. IfSome done (λ next. (index < next) × (next ≤ length told.now))) }
    ensures carries { (dead : List ℕ) → AreTold asked.now.query dead (C.content chunk.now) from told.now → IfOk result (λ done. IfSome done (λ next. Carries S.Took asked.now (C.content chunk.now) dead (from + index) (from + next) sink.old sink.new)) }
    ensures kept { IfOk result (λ done. done ≡ None → sink.new ≡ sink.old) }
{
    let number = from + index as u32;
    if asked.question.filters.is_empty() && sink.only_counts(most, chunk.id(number)) {
        let (next, rows) = run_of(asked, told, index, most);
        sink.count(rows)?;
        return Ok(Some(next));
    }
    Ok(None)
}

/// The most that a row weighs that is found, by what is told of it. None where that isn't known, or a condition is on the weight.
fn most_of(asked: &ReadyQuestion<'_>, its: Told) -> Option<u64>
    requires { (docs : List DocRow) × IsAskedOfDocs asked.now docs }
    ensures { (docs : List DocRow) (dead : List ℕ) (number : ℕ) (doc : DocRow) → IsAskedOfDocs asked.now docs → slice_get docs number ≡ Some doc → IsTold asked.now.query dead number doc its → its.found ≡ true → IfSome result (WeighsUpTo asked.now doc) }
{
    let question = asked.question;
    if question.query.keywords == 0 || asked.conditions.look_at_weight() {
        return None;
    }
    let ranker = question.ranker.plain()?;
    let positions = positions_at_most(usize::from(its.words), question.query.keywords);
    most_within(ranker, positions, its.fields, &question.weights)
}

/// Whether a row that is found is known to weigh no more than that.
fn weighs_no_more(asked: &ReadyQuestion<'_>, its: Told, most: u64) -> bool
    requires { (docs : List DocRow) × IsAskedOfDocs asked.now docs }
    ensures { result ≡ true → (docs : List DocRow) (dead : List ℕ) (number : ℕ) (doc : DocRow) → IsAskedOfDocs asked.now docs → slice_get docs number ≡ Some doc → IsTold asked.now.query dead number doc its → its.found ≡ true → WeighsUpTo asked.now doc most }
{
    match most_of(asked, its) {
        Some(own) => own <= most,
        None => false,
    }
}

/// How many rows are found from the one of this index on, which is found and weighs no more than that, up to the first that may weigh
/// more; before how many they are, that one's index.
fn run_of(asked: &ReadyQuestion<'_>, told: &[Told], index: usize, most: u64) -> (usize, u32)
    requires asked { (docs : List DocRow) × IsAskedOfDocs asked.now docs }
    requires index { index < length told.now }
    requires few { length told.now < 2 ^ 32 }
    requires found { (its : ToldValue) → slice_get told.now index ≡ Some its → its.found ≡ true }
    ensures on { index < result.0 }
    ensures within { result.0 ≤ length told.now }
    ensures run { (docs : List DocRow) (dead : List ℕ) (from : ℕ) → IsAskedOfDocs asked.now docs → AreTold asked.now.query dead docs from told.now → ((doc : DocRow) → slice_get docs (from + index) ≡ Some doc → WeighsUpTo asked.now doc most) → IsRun asked.now docs dead (from + index) (from + result.0) most result.1 }
{
    let mut rows = 1;
    let mut next = index + 1;
    'run: while next < told.len() {
        let its = told_at(told, next);
        if its.found {
            if !weighs_no_more(asked, its, most) {
                return (next, rows);
            }
            rows += 1;
        }
        next += 1;
    }
    (next, rows)
}

/// What is told of the row of this index.
#[inline(always)]
fn told_at(told: &[Told], index: usize) -> Told
    requires { index < length told.now }
    ensures { slice_get told.now index ≡ Some result }
{
    told[index]
}
