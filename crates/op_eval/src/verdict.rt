//! What a row's words tell by themselves, before any list of places is opened: that the row matches, that it doesn't, or that
//! the places decide. It is the logic of three values: a word that isn't there decides against, one without limits that is there
//! decides for, and what joins positions stays open.
ghost use Rattle.std.specs.Prelude.{◌≡◌, ℕ, List, [], ◌∷◌, ◌&&◌, not, length, count_by, if◌then◌else◌};
ghost use Rattle.std.specs.List.{flat_map, list_all};
ghost use Rattle.doc_types.specs.declared.documents.DocRow.{DocRow};
ghost use Rattle.query_tree.specs.declared.key.Key.{Key as KeyValue};
ghost use Rattle.query_tree.specs.TreeKeys.{node_keys};
ghost use Rattle.op_eval.specs.Finding as finding;
ghost use Rattle.op_eval.specs.Finding.{node_finds};
ghost use Rattle.word_rows.specs.Terms.{AreSeenIn, IsSeenIn};
ghost use Rattle.op_eval.specs.steps.Verdicts.{AreApart, Tells, negation, conjunction, doubt, stands_in, quoted_matches, item_passes};

use crate::quorum::is_enough;
use occ_lists::Term;
use query_tree::{How, Item, Node};
use word_rows::{part_first, part_last};

/// Whether a row matches, as far as its words tell.
#[derive(Clone, Copy, Debug, PartialEq, Eq)]
pub(crate) enum Verdict {
    No,
    Open,
    Yes,
}

impl Verdict {
    fn negated(self) -> Verdict
        ensures { result ≡ negation self }
    {
        match self {
            Verdict::No => Verdict::Yes,
            Verdict::Open => Verdict::Open,
            Verdict::Yes => Verdict::No,
        }
    }

    fn and(self, other: Verdict) -> Verdict
        ensures { result ≡ conjunction self other }
    {
        match (self, other) {
            (Verdict::No, _) | (_, Verdict::No) => Verdict::No,
            (Verdict::Yes, Verdict::Yes) => Verdict::Yes,
            _ => Verdict::Open,
        }
    }

    fn or(self, other: Verdict) -> Verdict
        ensures { result ≡ negation (conjunction (negation self) (negation other)) }
    {
        self.negated().and(other.negated()).negated()
    }

    /// Yes is left open.
    fn doubted(self) -> Verdict
        ensures { result ≡ doubt self }
    {
        match self {
            Verdict::No => Verdict::No,
            _ => Verdict::Open,
        }
    }

    /// What is told of an item of an AND by what is told of its node.
    fn of_item(self, negated: bool) -> Verdict
        ensures { result ≡ (if negated then negation self else self) }
    {
        if negated { self.negated() } else { self }
    }
}

/// What the words of a row tell of a node. `spanned` says that only the positions inside some spans count.
#[cycle(judging)]
pub(crate) fn judge(node: &Node, terms: &[Term], spanned: bool) -> Verdict
    ensures { (row : DocRow) (number : List ℕ → ℕ) → AreApart number (node_keys node.now) → AreSeenIn row (node_keys node.now) terms.now → Tells spanned (λ spans. (node_finds row number node.now spans).matches) result }
{
    match node {
        Node::Word(_) => of_word(terms, spanned),
        Node::Quoted { how, .. } => of_quoted(*how, terms, spanned),
        Node::And(items) => of_items(items.as_slice(), terms, spanned),
        Node::Or(a, b) => {
            let (left, right) = part_last(b.get(), terms);
            judge(a.get(), left, spanned).or(judge(b.get(), right, spanned))
        }
        Node::Maybe(a, b) => {
            let (left, _) = part_last(b.get(), terms);
            judge(a.get(), left, spanned)
        }
        Node::Before(a, b) | Node::Near(_, a, b) | Node::Sentence(a, b) | Node::Paragraph(a, b) => {
            let (left, right) = part_last(b.get(), terms);
            let both = judge(a.get(), left, spanned).and(judge(b.get(), right, spanned));
            both.doubted()
        }
        Node::ZoneSpan(_, a) => judge(a.get(), terms, true).doubted(),
    }
}

/// What is told of the items of an AND.
#[cycle(judging)]
fn of_items(items: &[Item], terms: &[Term], spanned: bool) -> Verdict
    ensures { (row : DocRow) (number : List ℕ → ℕ) → AreApart number (flat_map (λ item. node_keys item.node) items.now) → AreSeenIn row (flat_map (λ item. node_keys item.node) items.now) terms.now → Tells spanned (λ spans. list_all (item_passes row number spans) items.now) result }
{
    let mut all = Verdict::Yes;
    let mut rest = terms;
    for item in items {
        let (own, later) = part_first(&item.node, rest);
        let told = judge(&item.node, own, spanned);
        all = all.and(told.of_item(item.negated));
        rest = later;
    }
    all
}

/// Whether the keyword certainly has a place that counts.
fn is_sure(term: &Term, spanned: bool) -> bool
    ensures { result ≡ (term.now.present && (term.now.free && not spanned)) }
{
    term.present && term.free && !spanned
}

/// What is told of one keyword.
fn of_word(terms: &[Term], spanned: bool) -> Verdict
    ensures { (row : DocRow) (key : KeyValue) → AreSeenIn row (key ∷ []) terms.now → Tells spanned (λ spans. stands_in row spans key) result }
{
    match terms.first() {
        None => Verdict::No,
        Some(term) => of_term(term, spanned),
    }
}

fn of_term(term: &Term, spanned: bool) -> Verdict
    ensures { (row : DocRow) (key : KeyValue) → IsSeenIn row key term.now → Tells spanned (λ spans. stands_in row spans key) result }
{
    if is_sure(term, spanned) {
        Verdict::Yes
    } else if term.present {
        Verdict::Open
    } else {
        Verdict::No
    }
}

/// What is told of keywords that are quoted together.
fn of_quoted(how: How, terms: &[Term], spanned: bool) -> Verdict
    ensures { (row : DocRow) (number : List ℕ → ℕ) (keys : List KeyValue) → AreApart number keys → AreSeenIn row keys terms.now → Tells spanned (quoted_matches row number keys how) result }
{
    match how {
        How::Phrase | How::Within(_) => of_all(terms),
        How::AtLeast(_) | How::Share { .. } => of_quorum(how, terms, spanned),
    }
}

/// Whether the row has each word.
fn are_present(terms: &[Term]) -> bool
    ensures { result ≡ list_all (λ term. term.present) terms.now }
{
    terms.iter().all(|term| term.present)
}

/// What is told of keywords that stand in one piece of a text: they are all there, and there are some.
fn of_all(terms: &[Term]) -> Verdict
    ensures { result ≡ (if finding.is_some terms.now && list_all (λ term. term.present) terms.now then Verdict.Open else Verdict.No) }
{
    if !terms.is_empty() && are_present(terms) {
        Verdict::Open
    } else {
        Verdict::No
    }
}

/// How many of the words the row has.
pub(crate) fn present_count(terms: &[Term]) -> usize
    ensures { result ≡ count_by (λ term. term.present) terms.now }
{
    terms.iter().filter(|term| term.present).count()
}

/// How many of the keywords certainly have a place that counts.
fn sure_count(terms: &[Term], spanned: bool) -> usize
    ensures { result ≡ count_by (λ term. term.present && (term.free && not spanned)) terms.now }
{
    terms.iter().filter(|term| is_sure(term, spanned)).count()
}

/// What is told of a quorum.
fn of_quorum(how: How, terms: &[Term], spanned: bool) -> Verdict
    ensures { (row : DocRow) (keys : List KeyValue) → AreSeenIn row keys terms.now → Tells spanned (λ spans. finding.is_enough how (length keys) (count_by (stands_in row spans) keys)) result }
{
    if is_enough(how, terms.len(), sure_count(terms, spanned)) {
        Verdict::Yes
    } else if is_enough(how, terms.len(), present_count(terms)) {
        Verdict::Open
    } else {
        Verdict::No
    }
}
