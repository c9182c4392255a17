//! Two nodes of which an operator makes nothing, as a look at the places of their keywords tells. Most rows that have the words of a
//! NEAR don't have them near each other, so the look comes before anything is made.
ghost use Rattle.std.specs.Prelude.{◌≡◌, ℕ, List, [], ◌∷◌, map, true, IsTrue, All};
ghost use Rattle.doc_types.specs.declared.documents.DocRow.{DocRow};
ghost use Rattle.query_tree.specs.declared.key.Key.{Key as KeyValue};
ghost use Rattle.query_tree.specs.declared.query.Node.TheVariants as nodes;
ghost use Rattle.query_tree.specs.TreeKeys.{node_keys};
ghost use Rattle.occ_lists.specs.declared.term.Term.{Term as TermValue};
ghost use Rattle.occ_lists.specs.Joined.{near};
ghost use Rattle.occ_lists.specs.Places.{at_place};
ghost use Rattle.occ_lists.specs.Terms.{IsPlaced};
ghost use Rattle.op_eval.specs.Finding.{node_finds};
ghost use Rattle.op_eval.specs.steps.Evaluating.{join_by};
ghost use Rattle.op_eval.specs.steps.Worded.{term_places};
ghost use Rattle.word_rows.specs.declared.marks.RowMarks.{RowMarks as MarksValue};
ghost use Rattle.word_rows.specs.Terms.{AreTermsOf};

use crate::joining::Join;
use doc_types::ZoneSpan;
use occ_lists::{Term, stand_apart, within};
use query_tree::Node;

/// Whether the operator certainly makes nothing of the two nodes: it is NEAR, they are keywords, and no places of theirs are near
/// each other.
pub(crate) fn are_apart(
    join: Join,
    a: &Node,
    b: &Node,
    left: &[Term],
    right: &[Term],
    spans: &[(u16, ZoneSpan)],
) -> bool
    requires left { All IsPlaced left.now }
    requires right { All IsPlaced right.now }
    ensures { result ≡ true → (row : DocRow) (number : List ℕ → ℕ) (marks : MarksValue) → AreTermsOf row number (node_keys a.now) left.now → AreTermsOf row number (node_keys b.now) right.now → join_by marks join (node_finds row number a.now spans.now).occurrences (node_finds row number b.now spans.now).occurrences ≡ [] }
{
    match join {
        Join::Near(n) => are_words(a, b) && are_words_apart(n, left, right, spans),
        Join::Before | Join::Sentence | Join::Paragraph => false,
    }
}

/// Whether the node is a keyword.
pub(crate) fn is_word(node: &Node) -> bool
    ensures { IsTrue result → (key : KeyValue) × (node.now ≡ nodes.Word key) }
{
    match node {
        Node::Word(_) => true,
        _ => false,
    }
}

/// Whether both nodes are keywords.
fn are_words(a: &Node, b: &Node) -> bool
    ensures { IsTrue result → ((key : KeyValue) × (a.now ≡ nodes.Word key)) × ((key : KeyValue) × (b.now ≡ nodes.Word key)) }
{
    is_word(a) && is_word(b)
}

/// Whether no places of the first of these and of the first of those are near each other.
fn are_words_apart(n: u32, left: &[Term], right: &[Term], spans: &[(u16, ZoneSpan)]) -> bool
    requires left { All IsPlaced left.now }
    requires right { All IsPlaced right.now }
    ensures { result ≡ true → (x y : TermValue) → left.now ≡ x ∷ [] → right.now ≡ y ∷ [] → near n (map at_place (term_places spans.now x)) (map at_place (term_places spans.now y)) ≡ [] }
{
    match (left.split_first(), right.split_first()) {
        (Some((x, _)), Some((y, _))) => are_terms_apart(n, x, y, spans),
        _ => false,
    }
}

/// Whether no places of the two keywords are near each other.
fn are_terms_apart(n: u32, x: &Term, y: &Term, spans: &[(u16, ZoneSpan)]) -> bool
    requires x { IsPlaced x.now }
    requires y { IsPlaced y.now }
    ensures { result ≡ true → near n (map at_place (term_places spans.now x.now)) (map at_place (term_places spans.now y.now)) ≡ [] }
{
    stand_apart(n, within(&x.places, spans), within(&y.places, spans))
}
