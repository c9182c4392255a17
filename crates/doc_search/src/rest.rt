//! The rest of a layer, counted. The most that any document weighs is known from the ranker, the weights of fields and the keywords;
//! where no row that weighs so much and comes later can change what the sink shows, only how many match is left to tell. Then no row
//! is looked at by itself.
ghost use Rattle.std.specs.Prelude.{◌≡◌, ◌<◌, ◌++◌, ℕ, List, All, AllPairs, IfOk, IfSome, Some, true, false, length, slice_get};
ghost use Rattle.std.specs.List.{AllZip};
ghost use Rattle.doc_types.specs.declared.documents.DocRow.{DocRow};
ghost use Rattle.query_tree.specs.declared.query.Node.TheVariants as nodes;
ghost use Rattle.op_eval.specs.Matching.{matches};
ghost use Rattle.op_eval.specs.Streams.{matching_from};
ghost use Rattle.doc_search.specs.steps.Gathering.{Gathers, IsAskedOfDocs, WeighNoMore};

use crate::ready::ReadyQuestion;
use doc_types::CountedLists;
use query_tree::{Key, Node, Query};
use rankers::{Ranker, most_of_fields, most_weight};
use row_flags::count_from;
use row_select::Sink;
use srch_base::{NoMemory, Steps};

/// The most that any document weighs that matches, for a question without conditions. None where that isn't known, or of no use: the
/// rows of an AND are found by its rarest word, in fewer steps than by going over the lists of all.
pub(crate) fn most_of_all(asked: &ReadyQuestion<'_>) -> Option<u64>
    requires { (docs : List DocRow) × IsAskedOfDocs asked.now docs }
    ensures { (docs : List DocRow) → IsAskedOfDocs asked.now docs → IfSome result (WeighNoMore asked.now docs) }
{
    match &asked.question.query.root {
        Some(Node::And(_)) => None,
        _ => most_of_any(asked),
    }
}

/// The same, of whatever use it is.
fn most_of_any(asked: &ReadyQuestion<'_>) -> Option<u64>
    requires { (docs : List DocRow) × IsAskedOfDocs asked.now docs }
    ensures { (docs : List DocRow) → IsAskedOfDocs asked.now docs → IfSome result (WeighNoMore asked.now docs) }
{
    let question = asked.question;
    if question.query.keywords == 0 || !question.filters.is_empty() {
        return None;
    }
    let ranker = question.ranker.plain()?;
    let weights = &question.weights;
    match ranker {
        Ranker::None => Some(1),
        _ => match only_word(&question.query) {
            Some(key) => most_of_fields(ranker, key.limit.fields, weights),
            None => most_weight(ranker, usize::from(question.query.keywords), weights),
        },
    }
}

/// The keyword of a query that is no more than one.
fn only_word(query: &Query) -> Option<&Key>
    ensures { IfSome result (λ key. query.now.root ≡ Some (nodes.Word key.now)) }
{
    match &query.root {
        Some(root) => word_of(root),
        None => None,
    }
}

/// The keyword of a node that is no more than one.
fn word_of(node: &Node) -> Option<&Key>
    ensures { IfSome result (λ key. node.now ≡ nodes.Word key.now) }
{
    match node {
        Node::Word(key) => Some(key),
        _ => None,
    }
}

/// Counts the rows from this one on where only how many of them match matters to the sink, and tells whether it did. `most` is the
/// most that a document weighs, if that is known; it is forgotten where rows can't be counted.
pub(crate) fn count_rest<C: CountedLists, S: Sink>(
    asked: &ReadyQuestion<'_>,
    chunk: &C,
    dead: &[u32],
    number: u32,
    most: &mut Option<u64>,
    sink: &mut S,
    steps: &mut Steps<C::Book>,
) -> Result<bool, NoMemory>
    requires asked { IsAskedOfDocs asked.now (C.content chunk.now) }
    requires number { number < length (C.content chunk.now) }
    requires rows { AllPairs (λ row later. row.doc.id < later.doc.id) (C.content chunk.now) }
    requires ascend { AllPairs (λ row later. row < later) dead.now }
    requires most { IfSome most.old (WeighNoMore asked.now (C.content chunk.now)) }
    ensures most { IfSome most.new (WeighNoMore asked.now (C.content chunk.now)) }
    ensures counted { (first : S) (before left : List DocRow) → AllZip (λ n doc. slice_get (C.content chunk.now) n ≡ Some doc) (matching_from number asked.now.query (C.content chunk.now) dead.now) left → All (λ doc. matches asked.now.query doc ≡ true) left → Gathers S.Took asked.now first before sink.old → IfOk result (λ counted. counted ≡ true → Gathers S.Took asked.now first (before ++ left) sink.new) }
    ensures kept { IfOk result (λ counted. counted ≡ false → sink.new ≡ sink.old) }
{
    match *most {
        Some(limit) if sink.only_counts(limit, chunk.id(number)) => {
            match count_from(
                asked.alloc,
                &asked.question.query,
                chunk,
                dead,
                number,
                steps,
            )? {
                Some(rows) => {
                    sink.count(rows)?;
                    Ok(true)
                }
                None => {
                    *most = None;
                    Ok(false)
                }
            }
        }
        _ => Ok(false),
    }
}
