//! How a search goes over a layer: row by row, or many rows at a time once rows are found close together, where what is told of a row
//! tells what it weighs, or the sink needs no more than the number of some of them. Speed alone rests on which.
ghost use Rattle.std.specs.Prelude.{◌≡◌, ◌<◌, ◌≤◌, ◌==◌, AllPairs, IfOk, false, length};
ghost use Rattle.std.specs.List.{list_any};
ghost use Rattle.doc_search.specs.steps.Gathering.{IsAskedOfDocs};
ghost use Rattle.doc_search.specs.steps.Windows.{Carries, StopsIn, standing};

use crate::lacking::NoWeight;
use crate::ranking::Ranking;
use crate::ready::ReadyQuestion;
use crate::room::Room;
use crate::searching::collect_row;
use crate::told_weights::ToldWeight;
use crate::windows::collect_window;
use doc_types::{Chunk, CountedLists};
use op_eval::Matches;
use rankers::Ranker;
use row_select::Sink;
use srch_base::{Or, Steps};

/// So often, by the rows that were looked at one by one, windows are thought of.
const TRIED: u32 = 512;

/// Windows serve where one row of so many is looked at, or more.
const APART: u32 = 16;

/// How a search goes over a layer.
#[derive(Clone, Copy)]
pub(crate) enum Pace {
    /// Row by row, of which so many were looked at; and whether what is told of a row tells what it weighs.
    Rows { looked_at: u32, weighed: bool },
    /// Many rows at a time.
    Windows,
    /// Row by row to the end.
    RowsAlone,
}

impl Pace {
    /// How a search begins. Where conditions are asked, most rows fail them at less cost than a window is.
    pub(crate) fn of<C: Chunk>(asked: &ReadyQuestion<'_>, stream: &Matches<'_, C>) -> Pace {
        let question = asked.question;
        if question.query.keywords == 0 || !question.filters.is_empty() {
            return Pace::RowsAlone;
        }
        let weighed = ToldWeight::of(asked, stream).is_exact();
        if weighed || is_bounded(&question.ranker) {
            Pace::Rows {
                looked_at: 0,
                weighed,
            }
        } else {
            Pace::RowsAlone
        }
    }

    /// Whether to go over many rows from this one on: where they are weighed by what is told of them, or some are only counted.
    #[inline(always)]
    fn is_by_windows<C: Chunk, S: Sink>(&mut self, chunk: &C, number: u32, sink: &S) -> bool
        requires { number < length (C.content chunk.now) }
    {
        match *self {
            Pace::Windows => true,
            Pace::RowsAlone => false,
            Pace::Rows { looked_at, weighed } => {
                let looked_at = looked_at.saturating_add(1);
                *self = Pace::Rows { looked_at, weighed };
                if looked_at % TRIED != 0 || number / APART > looked_at {
                    return false;
                }
                if !weighed && !sink.only_counts(0, chunk.id(number)) {
                    return false;
                }
                *self = Pace::Windows;
                true
            }
        }
    }
}

/// Whether something is known of what a row weighs at most by its words.
fn is_bounded(ranking: &Ranking) -> bool {
    match ranking.plain() {
        Some(Ranker::None | Ranker::Proximity | Ranker::FieldMask) => true,
        Some(Ranker::MatchAny | Ranker::WordCount) | None => false,
    }
}

/// Goes over the row of this number, which isn't dead, or over many from it on, and tells which row comes next.
#[inline(always)]
pub(crate) fn collect_some<C: CountedLists, S: Sink>(
    asked: &ReadyQuestion<'_>,
    chunk: &C,
    dead: &[u32],
    number: u32,
    pace: &mut Pace,
    stream: &mut Matches<'_, C>,
    room: &mut Room,
    sink: &mut S,
    steps: &mut Steps<C::Book>,
) -> Result<u32, Or<NoWeight>>
    requires asked { IsAskedOfDocs asked.now (C.content chunk.now) }
    requires rows { AllPairs (λ row later. row.doc.id < later.doc.id) (C.content chunk.now) }
    requires ascend { AllPairs (λ row later. row < later) dead.now }
    requires number { number < length (C.content chunk.now) }
    requires lives { list_any (λ d. d == number) dead.now ≡ false }
    requires stands { stream.old ≡ standing asked.now (C.content chunk.now) dead.now number }
    ensures within { IfOk result (λ to. (number < to) × (to ≤ length (C.content chunk.now))) }
    ensures stands { IfOk result (λ to. stream.new ≡ standing asked.now (C.content chunk.now) dead.now to) }
    ensures carries { IfOk result (λ to. Carries S.Took asked.now (C.content chunk.now) dead.now number to sink.old sink.new) }
    ensures lacks { StopsIn S.Took asked.now (C.content chunk.now) dead.now number sink.old result }
{
    if pace.is_by_windows(chunk, number, sink) {
        match collect_window(asked, chunk, dead, number, stream, room, sink, steps)? {
            Some(to) => return Ok(to),
            None => *pace = Pace::RowsAlone,
        }
    }
    collect_row(asked, chunk, number, stream, room, sink, steps)?;
    // No overflow: a chunk has fewer rows than that.
    let _rows = chunk.rows();
    Ok(number + 1)
}
