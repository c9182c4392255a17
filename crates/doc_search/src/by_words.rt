//! Rows that are offered by the most that they can weigh. Where the words of a row tell that it matches, they also say how many keywords
//! it has, and by that what it weighs at most. A page that is full lets most such rows go by this alone, and a count asks for no weight
//! at all: so none of their places is read.
ghost use Rattle.std.specs.Prelude.{◌≡◌, ◌<◌, ◌++◌, ◌∷◌, [], List, IfOk, IfSome, Some, true, false, length, min, slice_get};
ghost use Rattle.std.specs.List.{filter};
ghost use Rattle.doc_types.specs.declared.documents.DocRow.{DocRow};
ghost use Rattle.op_eval.specs.Matching.{matches};
ghost use Rattle.row_select.specs.Filters.{hold_unweighed};
ghost use Rattle.doc_search.specs.steps.Gathering.{Gathers, IsAskedOfDocs, StandsAt, WeighsUpTo, unweighed};

use crate::ready::ReadyQuestion;
use doc_types::Chunk;
use op_eval::Matches;
use rankers::most_weight;
use row_select::{ChunkRow, Sink};
use srch_base::NoMemory;

/// Offers a document that passed the conditions that look at no weight by the most that it can weigh, where its words tell that it
/// matches and it doesn't matter to the sink how much less it weighs; and tells whether it did.
pub(crate) fn offer_by_words<C: Chunk, S: Sink>(
    asked: &ReadyQuestion<'_>,
    chunk: &C,
    number: u32,
    stream: &mut Matches<'_, C>,
    sink: &mut S,
) -> Result<bool, NoMemory>
    requires asked { IsAskedOfDocs asked.now (C.content chunk.now) }
    requires stands { StandsAt asked.now (C.content chunk.now) number stream.old }
    requires passes { (doc : DocRow) → slice_get (C.content chunk.now) number ≡ Some doc → hold_unweighed asked.now.filters (unweighed doc) ≡ true }
    ensures stays { stream.new ≡ stream.old }
    ensures offered { (first : S) (before : List DocRow) (doc : DocRow) → slice_get (C.content chunk.now) number ≡ Some doc → Gathers S.Took asked.now first before sink.old → IfOk result (λ offered. offered ≡ true → Gathers S.Took asked.now first (before ++ filter (matches asked.now.query) (doc ∷ [])) sink.new) }
    ensures kept { IfOk result (λ offered. offered ≡ false → sink.new ≡ sink.old) }
{
    let most = most_by_words(asked, stream);
    match most {
        Some(most) => offer_at_most(asked, chunk, number, most, sink),
        None => Ok(false),
    }
}

/// The most that the document weighs at which the stream stands, where its words tell that it matches and no condition is on weights.
fn most_by_words<C: Chunk>(asked: &ReadyQuestion<'_>, stream: &mut Matches<'_, C>) -> Option<u64>
    requires asked { IsAskedOfDocs asked.now stream.old.rows }
    requires query { stream.old.query ≡ asked.now.query }
    requires within { stream.old.at < length stream.old.rows }
    ensures stays { stream.new ≡ stream.old }
    ensures weighs { (doc : DocRow) → slice_get stream.old.rows stream.old.at ≡ Some doc → IfSome result (WeighsUpTo asked.now doc) }
{
    let question = asked.question;
    if question.query.keywords == 0 || asked.conditions.look_at_weight() {
        return None;
    }
    let ranker = question.ranker.plain()?;
    let words = stream.sure_words()?;
    let positions = positions_at_most(words, question.query.keywords);
    most_weight(ranker, positions, &question.weights)
}

/// How many query positions the hits of a row have at most that has so many of the keywords, of a query that counts so many.
pub(crate) fn positions_at_most(words: usize, keywords: u16) -> usize
    ensures { result ≡ min words keywords }
{
    words.min(usize::from(keywords))
}

/// The same for a document that weighs so much at most.
pub(crate) fn offer_at_most<C: Chunk, S: Sink>(
    asked: &ReadyQuestion<'_>,
    chunk: &C,
    number: u32,
    most: u64,
    sink: &mut S,
) -> Result<bool, NoMemory>
    requires asked { IsAskedOfDocs asked.now (C.content chunk.now) }
    requires number { number < length (C.content chunk.now) }
    requires passes { (doc : DocRow) → slice_get (C.content chunk.now) number ≡ Some doc → hold_unweighed asked.now.filters (unweighed doc) ≡ true }
    requires weighs { (doc : DocRow) → slice_get (C.content chunk.now) number ≡ Some doc → WeighsUpTo asked.now doc most }
    ensures offered { (first : S) (before : List DocRow) (doc : DocRow) → slice_get (C.content chunk.now) number ≡ Some doc → Gathers S.Took asked.now first before sink.old → IfOk result (λ offered. offered ≡ true → Gathers S.Took asked.now first (before ++ filter (matches asked.now.query) (doc ∷ [])) sink.new) }
    ensures kept { IfOk result (λ offered. offered ≡ false → sink.new ≡ sink.old) }
{
    let row = ChunkRow::new(asked.alloc, chunk, number, asked.question.attrs, most);
    if sink.heeds(&row) {
        return Ok(false);
    }
    sink.pass(&row)?;
    Ok(true)
}
