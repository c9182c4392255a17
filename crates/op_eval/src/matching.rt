//! Whether a row matches, by the places of its keywords. Nothing is built where a look is enough.
ghost use Rattle.std.specs.Prelude.{◌≡◌, ◌≤◌, ◌∷◌, [], ◌++◌, map, length, All, IfOk, OnOk};
ghost use Rattle.std.specs.List.{list_all};
ghost use Rattle.occ_lists.specs.Terms.{IsPlaced};
ghost use Rattle.query_tree.specs.TreeKeys.{node_keys};
ghost use Rattle.op_eval.specs.Finding.{any_of, either, node_finds, passes, perhaps};
ghost use Rattle.word_rows.specs.Keywords.{is_among};
ghost use Rattle.word_rows.specs.RowMarks.{AreMarks};
ghost use Rattle.op_eval.specs.steps.Evaluating.{OfEachItem, OfEachPair, OfEachRow, founds_in, part_in};
ghost use Rattle.op_eval.specs.steps.Worded.{quoted_by};

use crate::finding::{Finding, find};
use crate::quorum::is_enough;
use crate::quoting::standing;
use doc_types::ZoneSpan;
use occ_lists::{Buffers, Term, put_runs, put_widest};
use query_tree::{How, Item, Node};
use srch_base::NoMemory;
use word_rows::{RowMarks, part_first, part_last};

/// What evaluation works with: the spans in force, and lists to use again.
#[derive(Drop)]
pub(crate) struct Work {
    pub spans: Vec<(u16, ZoneSpan)>,
    pub buffers: Buffers,
}

/// The terms of a node that stand first, and those after them.
pub(crate) fn terms_first<'t>(node: &Node, terms: &'t [Term]) -> (&'t [Term], &'t [Term])
    requires { All IsPlaced terms.now }
    ensures whole { terms.now ≡ result.0.now ++ result.1.now }
    ensures own { length (node_keys node.now) ≤ length terms.now → length result.0.now ≡ length (node_keys node.now) }
    ensures first { All IsPlaced result.0.now }
    ensures last { All IsPlaced result.1.now }
{
    part_first(node, terms)
}

/// The terms before those of a node that stand last, and those.
pub(crate) fn terms_last<'t>(node: &Node, terms: &'t [Term]) -> (&'t [Term], &'t [Term])
    requires { All IsPlaced terms.now }
    ensures whole { terms.now ≡ result.0.now ++ result.1.now }
    ensures own { length (node_keys node.now) ≤ length terms.now → length result.1.now ≡ length (node_keys node.now) }
    ensures first { All IsPlaced result.0.now }
    ensures last { All IsPlaced result.1.now }
{
    part_last(node, terms)
}

/// Whether the node matches within the spans in force.
#[cycle(matching)]
pub(crate) fn matches(
    node: &Node,
    terms: &[Term],
    marks: &RowMarks,
    work: &mut Work,
) -> Result<bool, NoMemory>
    requires placed { All IsPlaced terms.now }
    requires marks { AreMarks marks.now }
    ensures spans { OnOk result (work.new.spans.items ≡ work.old.spans.items) }
    ensures told { OfEachRow node.now terms.now marks.now (λ row number. IfOk result (λ told. told ≡ (node_finds row number node.now work.old.spans.items).matches)) }
{
    match node {
        Node::Word(_) => Ok(standing(terms, &work.spans) > 0),
        Node::Quoted { how, .. } => matches_quoted(*how, terms, work),
        Node::And(items) => matches_all(items.as_slice(), terms, marks, work),
        Node::Or(a, b) => matches_either(a.get(), b.get(), terms, marks, work),
        Node::Maybe(a, b) => matches_perhaps(a.get(), b.get(), terms, marks, work),
        Node::Before(_, _) => finds(node, terms, marks, work),
        Node::Near(_, _, _) => finds(node, terms, marks, work),
        Node::Sentence(_, _) => finds(node, terms, marks, work),
        Node::Paragraph(_, _) => finds(node, terms, marks, work),
        Node::ZoneSpan(zones, a) => matches_span(zones.as_slice(), a.get(), terms, marks, work),
    }
}

/// Whether either of two nodes matches.
#[cycle(matching)]
fn matches_either(
    a: &Node,
    b: &Node,
    terms: &[Term],
    marks: &RowMarks,
    work: &mut Work,
) -> Result<bool, NoMemory>
    requires placed { All IsPlaced terms.now }
    requires marks { AreMarks marks.now }
    ensures spans { OnOk result (work.new.spans.items ≡ work.old.spans.items) }
    ensures told { OfEachPair a.now b.now terms.now marks.now (λ row number. IfOk result (λ told. told ≡ (either (node_finds row number a.now work.old.spans.items) (node_finds row number b.now work.old.spans.items)).matches)) }
{
    let (left, right) = terms_last(b, terms);
    let first = matches(a, left, marks, work)?;
    if first {
        return Ok(true);
    }
    matches(b, right, marks, work)
}

/// Whether a node matches, whatever another one does.
#[cycle(matching)]
fn matches_perhaps(
    a: &Node,
    b: &Node,
    terms: &[Term],
    marks: &RowMarks,
    work: &mut Work,
) -> Result<bool, NoMemory>
    requires placed { All IsPlaced terms.now }
    requires marks { AreMarks marks.now }
    ensures spans { OnOk result (work.new.spans.items ≡ work.old.spans.items) }
    ensures told { OfEachPair a.now b.now terms.now marks.now (λ row number. IfOk result (λ told. told ≡ (perhaps (node_finds row number a.now work.old.spans.items) (node_finds row number b.now work.old.spans.items)).matches)) }
{
    let (left, _) = terms_last(b, terms);
    matches(a, left, marks, work)
}

/// Whether the node matches, by what it finds.
fn finds(node: &Node, terms: &[Term], marks: &RowMarks, work: &mut Work) -> Result<bool, NoMemory>
    requires placed { All IsPlaced terms.now }
    requires marks { AreMarks marks.now }
    ensures spans { OnOk result (work.new.spans.items ≡ work.old.spans.items) }
    ensures told { OfEachRow node.now terms.now marks.now (λ row number. IfOk result (λ told. told ≡ (node_finds row number node.now work.old.spans.items).matches)) }
{
    let mut finding = Finding::new(&mut work.buffers);
    let found = find(node, terms, marks, work, &mut finding)?;
    finding.keep(&mut work.buffers);
    Ok(found)
}

/// Whether keywords that are quoted together match.
fn matches_quoted(how: How, terms: &[Term], work: &mut Work) -> Result<bool, NoMemory>
    requires { All IsPlaced terms.now }
    ensures spans { OnOk result (work.new.spans.items ≡ work.old.spans.items) }
    ensures told { IfOk result (λ told. told ≡ (quoted_by work.old.spans.items terms.now how).matches) }
{
    match how {
        How::Phrase => {
            let mut ends = work.buffers.take_places();
            let mut found = work.buffers.take_occs();
            put_runs(terms, &work.spans, &mut ends, &mut found)?;
            let some = !found.is_empty();
            work.buffers.keep_places(ends);
            work.buffers.keep_occs(found);
            Ok(some)
        }
        How::Within(n) => {
            let mut found = work.buffers.take_occs();
            put_widest(n, terms, &work.spans, &mut work.buffers, &mut found)?;
            let some = !found.is_empty();
            work.buffers.keep_occs(found);
            Ok(some)
        }
        How::AtLeast(_) => Ok(is_enough(how, terms.len(), standing(terms, &work.spans))),
        How::Share { .. } => Ok(is_enough(how, terms.len(), standing(terms, &work.spans))),
    }
}

/// Whether each item of an AND passes.
#[cycle(matching)]
fn matches_all(
    items: &[Item],
    terms: &[Term],
    marks: &RowMarks,
    work: &mut Work,
) -> Result<bool, NoMemory>
    requires placed { All IsPlaced terms.now }
    requires marks { AreMarks marks.now }
    ensures spans { OnOk result (work.new.spans.items ≡ work.old.spans.items) }
    ensures told { OfEachItem items.now terms.now marks.now (λ row number. IfOk result (λ told. told ≡ list_all passes (map (part_in row number work.old.spans.items) items.now))) }
{
    let mut rest = terms;
    for item in items {
        let (own, later) = terms_first(&item.node, rest);
        let found = matches(&item.node, own, marks, work)?;
        if found == item.negated {
            return Ok(false);
        }
        rest = later;
    }
    Ok(true)
}

/// Whether the zone is one of these.
pub(crate) fn is_among(zones: &[u16], zone: u16) -> bool
    ensures { result ≡ is_among zones.now zone }
{
    zones.contains(&zone)
}

/// Whether the node matches within a single span of the zones.
#[cycle(matching)]
fn matches_span(
    zones: &[u16],
    node: &Node,
    terms: &[Term],
    marks: &RowMarks,
    work: &mut Work,
) -> Result<bool, NoMemory>
    requires placed { All IsPlaced terms.now }
    requires marks { AreMarks marks.now }
    ensures spans { OnOk result (work.new.spans.items ≡ work.old.spans.items) }
    ensures told { OfEachRow node.now terms.now marks.now (λ row number. IfOk result (λ told. told ≡ (any_of (founds_in row number node.now work.old.spans.items zones.now marks.now.spans.items)).matches)) }
{
    for span in &marks.spans {
        let found = matches_within(zones, *span, node, terms, marks, work)?;
        if found {
            return Ok(true);
        }
    }
    Ok(false)
}

/// Whether the node matches within one span more, if that is of the zones.
#[cycle(matching)]
fn matches_within(
    zones: &[u16],
    span: (u16, ZoneSpan),
    node: &Node,
    terms: &[Term],
    marks: &RowMarks,
    work: &mut Work,
) -> Result<bool, NoMemory>
    requires placed { All IsPlaced terms.now }
    requires marks { AreMarks marks.now }
    ensures spans { OnOk result (work.new.spans.items ≡ work.old.spans.items) }
    ensures told { OfEachRow node.now terms.now marks.now (λ row number. IfOk result (λ told. told ≡ (any_of (founds_in row number node.now work.old.spans.items zones.now (span ∷ []))).matches)) }
{
    if !is_among(zones, span.1.zone) {
        return Ok(false);
    }
    work.spans.push(span)?;
    let found = matches(node, terms, marks, work)?;
    work.spans.pop();
    Ok(found)
}
