//! The occurrences and the hits of a query in a row, by the places of its keywords.
//!
//! A node appends what it finds to the lists that it is handed, in any order; a join puts its arguments in order, and so does the
//! answer at its end. So a chain of `|` takes time in proportion to what it finds, however long it is.
ghost use Rattle.std.specs.Prelude.{◌≡◌, ◌∷◌, [], map, All, IfOk, OnOk};
ghost use Rattle.occ_lists.specs.OccLists.{Ascend};
ghost use Rattle.occ_lists.specs.Sound.{IsForward};
ghost use Rattle.occ_lists.specs.Terms.{IsPlaced};
ghost use Rattle.op_eval.specs.Finding.{all_of, any_of, either, joined, node_finds, perhaps};
ghost use Rattle.word_rows.specs.RowMarks.{AreMarks};
ghost use Rattle.op_eval.specs.steps.Evaluating.{Finds, Holds, OfEachItem, OfEachPair, OfEachRow, founds_in, join_by, part_finds, part_in};
ghost use Rattle.word_rows.specs.Terms.{IsShort};

use crate::apart::{are_apart, is_word};
use crate::joining::{Join, put_made};
use crate::matching::{Work, is_among, terms_first, terms_last};
use crate::quoting::{find_quoted, find_words};
use doc_types::{Hit, ZoneSpan};
use occ_lists::{Buffers, Occ, Term, sort_distinct};
use query_tree::{Item, Node};
use srch_base::NoMemory;
use std::alloc::Global;
use word_rows::RowMarks;

/// Occurrences and hits.
#[derive(Drop)]
pub(crate) struct Finding {
    pub occs: Vec<Occ>,
    pub hits: Vec<Hit>,
}

impl Finding {
    /// Lists of its own.
    pub(crate) fn empty(alloc: Global) -> Finding
        ensures occs { result.occs.items ≡ [] }
        ensures hits { result.hits.items ≡ [] }
    {
        Finding {
            occs: Vec::new(alloc),
            hits: Vec::new(alloc),
        }
    }

    /// Lists that were used before.
    pub(crate) fn new(buffers: &mut Buffers) -> Finding
        ensures occs { result.occs.items ≡ [] }
        ensures hits { result.hits.items ≡ [] }
    {
        Finding {
            occs: buffers.take_occs(),
            hits: buffers.take_hits(),
        }
    }

    /// Takes what is in the lists out of them.
    pub(crate) fn clear(&mut self)
        ensures occs { self.new.occs.items ≡ [] }
        ensures hits { self.new.hits.items ≡ [] }
    {
        self.occs.clear();
        self.hits.clear();
    }

    /// Gives the lists back.
    pub(crate) fn keep(self, buffers: &mut Buffers) {
        let Finding { occs, hits } = self;
        buffers.keep_occs(occs);
        buffers.keep_hits(hits);
    }
}

/// Appends what the node finds within the spans in force, and tells whether it matches; if it doesn't, nothing is appended.
#[cycle(finding)]
pub(crate) fn find(
    node: &Node,
    terms: &[Term],
    marks: &RowMarks,
    work: &mut Work,
    out: &mut Finding,
) -> Result<bool, NoMemory>
    requires placed { All IsPlaced terms.now }
    requires marks { AreMarks marks.now }
    requires forward { All IsForward out.old.occs.items }
    ensures spans { OnOk result (work.new.spans.items ≡ work.old.spans.items) }
    ensures forward { OnOk result (All IsForward out.new.occs.items) }
    ensures found { OfEachRow node.now terms.now marks.now (λ row number. IfOk result (λ told. Finds (IsShort number) (node_finds row number node.now work.old.spans.items) out.old out.new told)) }
{
    match node {
        Node::Word(_) => find_words(terms, &work.spans, out),
        Node::Quoted { how, .. } => find_quoted(*how, terms, work, out),
        Node::And(items) => find_all(items.as_slice(), terms, marks, work, out),
        Node::Or(a, b) => find_either(a.get(), b.get(), terms, marks, work, out),
        Node::Maybe(a, b) => find_perhaps(a.get(), b.get(), terms, marks, work, out),
        Node::Before(a, b) => find_joined(Join::Before, a.get(), b.get(), terms, marks, work, out),
        Node::Near(n, a, b) => {
            find_joined(Join::Near(*n), a.get(), b.get(), terms, marks, work, out)
        }
        Node::Sentence(a, b) => {
            find_joined(Join::Sentence, a.get(), b.get(), terms, marks, work, out)
        }
        Node::Paragraph(a, b) => {
            find_joined(Join::Paragraph, a.get(), b.get(), terms, marks, work, out)
        }
        Node::ZoneSpan(zones, a) => find_span(zones.as_slice(), a.get(), terms, marks, work, out),
    }
}

/// What either of two nodes finds.
#[cycle(finding)]
fn find_either(
    a: &Node,
    b: &Node,
    terms: &[Term],
    marks: &RowMarks,
    work: &mut Work,
    out: &mut Finding,
) -> Result<bool, NoMemory>
    requires placed { All IsPlaced terms.now }
    requires marks { AreMarks marks.now }
    requires forward { All IsForward out.old.occs.items }
    ensures spans { OnOk result (work.new.spans.items ≡ work.old.spans.items) }
    ensures forward { OnOk result (All IsForward out.new.occs.items) }
    ensures found { OfEachPair a.now b.now terms.now marks.now (λ row number. IfOk result (λ told. Finds (IsShort number) (either (node_finds row number a.now work.old.spans.items) (node_finds row number b.now work.old.spans.items)) out.old out.new told)) }
{
    let (left, right) = terms_last(b, terms);
    let first = find(a, left, marks, work, out)?;
    let second = find_simply(b, right, marks, work, out)?;
    Ok(first | second)
}

/// What the node finds. A keyword is looked for at once: a chain of `|` has one at each of its links, and most rows have few of them.
#[cycle(finding)]
fn find_simply(
    node: &Node,
    terms: &[Term],
    marks: &RowMarks,
    work: &mut Work,
    out: &mut Finding,
) -> Result<bool, NoMemory>
    requires placed { All IsPlaced terms.now }
    requires marks { AreMarks marks.now }
    requires forward { All IsForward out.old.occs.items }
    ensures spans { OnOk result (work.new.spans.items ≡ work.old.spans.items) }
    ensures forward { OnOk result (All IsForward out.new.occs.items) }
    ensures found { OfEachRow node.now terms.now marks.now (λ row number. IfOk result (λ told. Finds (IsShort number) (node_finds row number node.now work.old.spans.items) out.old out.new told)) }
{
    if is_word(node) {
        return find_words(terms, &work.spans, out);
    }
    find(node, terms, marks, work, out)
}

/// What a node finds, and another one where that matches.
#[cycle(finding)]
fn find_perhaps(
    a: &Node,
    b: &Node,
    terms: &[Term],
    marks: &RowMarks,
    work: &mut Work,
    out: &mut Finding,
) -> Result<bool, NoMemory>
    requires placed { All IsPlaced terms.now }
    requires marks { AreMarks marks.now }
    requires forward { All IsForward out.old.occs.items }
    ensures spans { OnOk result (work.new.spans.items ≡ work.old.spans.items) }
    ensures forward { OnOk result (All IsForward out.new.occs.items) }
    ensures found { OfEachPair a.now b.now terms.now marks.now (λ row number. IfOk result (λ told. Finds (IsShort number) (perhaps (node_finds row number a.now work.old.spans.items) (node_finds row number b.now work.old.spans.items)) out.old out.new told)) }
{
    let (left, right) = terms_last(b, terms);
    let first = find(a, left, marks, work, out)?;
    if first {
        find(b, right, marks, work, out)?;
    }
    Ok(first)
}

/// What the items of an AND find. If one doesn't pass, what was appended goes.
#[cycle(finding)]
fn find_all(
    items: &[Item],
    terms: &[Term],
    marks: &RowMarks,
    work: &mut Work,
    out: &mut Finding,
) -> Result<bool, NoMemory>
    requires placed { All IsPlaced terms.now }
    requires marks { AreMarks marks.now }
    requires forward { All IsForward out.old.occs.items }
    ensures spans { OnOk result (work.new.spans.items ≡ work.old.spans.items) }
    ensures forward { OnOk result (All IsForward out.new.occs.items) }
    ensures found { OfEachItem items.now terms.now marks.now (λ row number. IfOk result (λ told. Finds (IsShort number) (all_of (map (part_in row number work.old.spans.items) items.now)) out.old out.new told)) }
{
    let occs = out.occs.len();
    let hits = out.hits.len();
    let mut rest = terms;
    for item in items {
        let (own, later) = terms_first(&item.node, rest);
        let passes = find_item(item, own, marks, work, out)?;
        if !passes {
            out.occs.truncate(occs);
            out.hits.truncate(hits);
            return Ok(false);
        }
        rest = later;
    }
    Ok(true)
}

/// What an item of an AND finds, and whether it passes. A negated one appends nothing.
#[cycle(finding)]
fn find_item(
    item: &Item,
    terms: &[Term],
    marks: &RowMarks,
    work: &mut Work,
    out: &mut Finding,
) -> Result<bool, NoMemory>
    requires placed { All IsPlaced terms.now }
    requires marks { AreMarks marks.now }
    requires forward { All IsForward out.old.occs.items }
    ensures spans { OnOk result (work.new.spans.items ≡ work.old.spans.items) }
    ensures forward { OnOk result (All IsForward out.new.occs.items) }
    ensures found { OfEachRow item.now.node terms.now marks.now (λ row number. IfOk result (λ told. Finds (IsShort number) (part_finds (part_in row number work.old.spans.items item.now)) out.old out.new told)) }
{
    if !item.negated {
        return find(&item.node, terms, marks, work, out);
    }
    let mut unused = Finding::new(&mut work.buffers);
    let found = find(&item.node, terms, marks, work, &mut unused)?;
    unused.keep(&mut work.buffers);
    Ok(!found)
}

/// What an operator on occurrences finds: what it makes of those of its arguments, and the hits of these inside it.
#[cycle(finding)]
fn find_joined(
    join: Join,
    a: &Node,
    b: &Node,
    terms: &[Term],
    marks: &RowMarks,
    work: &mut Work,
    out: &mut Finding,
) -> Result<bool, NoMemory>
    requires placed { All IsPlaced terms.now }
    requires marks { AreMarks marks.now }
    requires forward { All IsForward out.old.occs.items }
    ensures spans { OnOk result (work.new.spans.items ≡ work.old.spans.items) }
    ensures forward { OnOk result (All IsForward out.new.occs.items) }
    ensures found { OfEachPair a.now b.now terms.now marks.now (λ row number. IfOk result (λ told. Finds (IsShort number) (joined (join_by marks.now join) (node_finds row number a.now work.old.spans.items) (node_finds row number b.now work.old.spans.items)) out.old out.new told)) }
{
    let (left, right) = terms_last(b, terms);
    if are_apart(join, a, b, left, right, &work.spans) {
        return Ok(false);
    }
    let first = find_apart(a, left, marks, work)?;
    let second = find_apart(b, right, marks, work)?;
    put_made(join, first, second, marks, &mut work.buffers, out)
}

/// What the node finds, in lists of its own; the occurrences in order.
#[cycle(finding)]
fn find_apart(
    node: &Node,
    terms: &[Term],
    marks: &RowMarks,
    work: &mut Work,
) -> Result<Finding, NoMemory>
    requires placed { All IsPlaced terms.now }
    requires marks { AreMarks marks.now }
    ensures spans { OnOk result (work.new.spans.items ≡ work.old.spans.items) }
    ensures ascend { IfOk result (λ found. Ascend found.occs.items) }
    ensures forward { IfOk result (λ found. All IsForward found.occs.items) }
    ensures found { OfEachRow node.now terms.now marks.now (λ row number. IfOk result (λ found. Holds (IsShort number) (node_finds row number node.now work.old.spans.items) found)) }
{
    let mut finding = Finding::new(&mut work.buffers);
    find(node, terms, marks, work, &mut finding)?;
    sort_distinct(&mut finding.occs);
    Ok(finding)
}

/// What the node finds within each single span of the zones.
#[cycle(finding)]
fn find_span(
    zones: &[u16],
    node: &Node,
    terms: &[Term],
    marks: &RowMarks,
    work: &mut Work,
    out: &mut Finding,
) -> Result<bool, NoMemory>
    requires placed { All IsPlaced terms.now }
    requires marks { AreMarks marks.now }
    requires forward { All IsForward out.old.occs.items }
    ensures spans { OnOk result (work.new.spans.items ≡ work.old.spans.items) }
    ensures forward { OnOk result (All IsForward out.new.occs.items) }
    ensures found { OfEachRow node.now terms.now marks.now (λ row number. IfOk result (λ told. Finds (IsShort number) (any_of (founds_in row number node.now work.old.spans.items zones.now marks.now.spans.items)) out.old out.new told)) }
{
    let mut some = false;
    for span in &marks.spans {
        let found = find_within(zones, *span, node, terms, marks, work, out)?;
        some |= found;
    }
    Ok(some)
}

/// What the node finds within one span more, if that is of the zones.
#[cycle(finding)]
fn find_within(
    zones: &[u16],
    span: (u16, ZoneSpan),
    node: &Node,
    terms: &[Term],
    marks: &RowMarks,
    work: &mut Work,
    out: &mut Finding,
) -> Result<bool, NoMemory>
    requires placed { All IsPlaced terms.now }
    requires marks { AreMarks marks.now }
    requires forward { All IsForward out.old.occs.items }
    ensures spans { OnOk result (work.new.spans.items ≡ work.old.spans.items) }
    ensures forward { OnOk result (All IsForward out.new.occs.items) }
    ensures found { OfEachRow node.now terms.now marks.now (λ row number. IfOk result (λ told. Finds (IsShort number) (any_of (founds_in row number node.now work.old.spans.items zones.now (span ∷ []))) out.old out.new told)) }
{
    if !is_among(zones, span.1.zone) {
        return Ok(false);
    }
    work.spans.push(span)?;
    let found = find(node, terms, marks, work, out)?;
    work.spans.pop();
    Ok(found)
}
