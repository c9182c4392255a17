//! The plan of a query's tree.
//!
//! Negated items are left out, MAYBE is its left side, what joins positions is an AND, and so are quoted keywords but for a quorum;
//! ZONESPAN is its node. So a plan says of a row's words what the tree can't do without, and the tree decides of the rows that are
//! left. The keywords have numbers in the order of the tree, as the cursors of `Slots`.
ghost use Rattle.std.specs.Prelude.{◌≡◌, ◌+◌, ◌^◌, ◌≤◌, length, IfOk, OnOk};
ghost use Rattle.std.specs.List.{flat_map};
ghost use Rattle.query_tree.specs.TreeKeys.{node_keys};
ghost use Rattle.op_eval.specs.steps.Planned.{Serves, ServesFrom, ServesItems, ServesQuoted};

use crate::parts::{Parts, Rated, either};
use crate::quoted::{all_words, least_count, least_share, some_words, word};
use query_tree::{How, Item, Key, Node};
use row_plans::Plan;
use sqlite_items::Items;
use srch_base::NoMemory;
use std::alloc::Global;
use word_rows::key_count;

/// How many keywords have numbers.
const MOST_KEYWORDS: usize = 0x1_0000;

/// The plan of a query's tree: a row whose words aren't as it wants doesn't match. `counts` says of each keyword, in the order of
/// the tree, how many rows have its word; the items of an AND are asked from the rarest on. Where the keywords are more than have
/// numbers, which no query is that was read, each row is let through.
pub(crate) fn plan_of(alloc: Global, root: &Node, counts: &[u32]) -> Result<Plan, NoMemory>
    requires { length counts.now ≡ length (node_keys root.now) }
    ensures { IfOk result (λ plan. Serves plan root.now) }
{
    if counts.len() > MOST_KEYWORDS {
        return Ok(Plan::All(Items::from_vec(Vec::new(alloc))));
    }
    let mut next = 0;
    let rated = planned(alloc, root, counts, &mut next)?;
    Ok(rated.plan)
}

/// The plan of a node, whose keywords have the numbers from `next` on. They have numbers as far as there are counts.
#[cycle(planning)]
fn planned(alloc: Global, node: &Node, counts: &[u32], next: &mut usize) -> Result<Rated, NoMemory>
    requires { length counts.now ≤ 2 ^ 16 }
    ensures next { next.old + length (node_keys node.now) ≤ length counts.now → OnOk result (next.new ≡ next.old + length (node_keys node.now)) }
    ensures plan { next.old + length (node_keys node.now) ≤ length counts.now → IfOk result (λ rated. ServesFrom rated.plan next.old node.now) }
{
    match node {
        Node::Word(_) => Ok(word(counts, next)),
        Node::Quoted { keys, how } => quoted(alloc, keys.as_slice(), *how, counts, next),
        Node::And(items) => of_items(alloc, items.as_slice(), counts, next),
        Node::Or(a, b) => {
            let one = planned(alloc, a.get(), counts, next)?;
            either(alloc, one, planned(alloc, b.get(), counts, next)?)
        }
        Node::Maybe(a, b) => {
            let left = planned(alloc, a.get(), counts, next)?;
            *next = next.saturating_add(key_count(b.get()));
            Ok(left)
        }
        Node::Before(a, b) | Node::Near(_, a, b) | Node::Sentence(a, b) | Node::Paragraph(a, b) => {
            let mut parts = Parts::new(alloc);
            parts.put(planned(alloc, a.get(), counts, next)?)?;
            parts.put(planned(alloc, b.get(), counts, next)?)?;
            Ok(parts.all())
        }
        Node::ZoneSpan(_, a) => planned(alloc, a.get(), counts, next),
    }
}

/// The plan of the items of an AND: of those that aren't negated.
#[cycle(planning)]
fn of_items(
    alloc: Global,
    items: &[Item],
    counts: &[u32],
    next: &mut usize,
) -> Result<Rated, NoMemory>
    requires { length counts.now ≤ 2 ^ 16 }
    ensures next { next.old + length (flat_map (λ item. node_keys item.node) items.now) ≤ length counts.now → OnOk result (next.new ≡ next.old + length (flat_map (λ item. node_keys item.node) items.now)) }
    ensures plan { next.old + length (flat_map (λ item. node_keys item.node) items.now) ≤ length counts.now → IfOk result (λ rated. ServesItems rated.plan next.old items.now) }
{
    let mut parts = Parts::new(alloc);
    for item in items {
        if item.negated {
            *next = next.saturating_add(key_count(&item.node));
        } else {
            parts.put(planned(alloc, &item.node, counts, next)?)?;
        }
    }
    Ok(parts.all())
}

/// The plan of keywords that are quoted together.
fn quoted(
    alloc: Global,
    keys: &[Key],
    how: How,
    counts: &[u32],
    next: &mut usize,
) -> Result<Rated, NoMemory>
    requires { length counts.now ≤ 2 ^ 16 }
    ensures next { next.old + length keys.now ≤ length counts.now → OnOk result (next.new ≡ next.old + length keys.now) }
    ensures plan { next.old + length keys.now ≤ length counts.now → IfOk result (λ rated. ServesQuoted rated.plan next.old keys.now how) }
{
    let n = keys.len();
    match how {
        How::Phrase | How::Within(_) => all_words(alloc, n, counts, next),
        How::AtLeast(k) => some_words(alloc, least_count(k, n), n, counts, next),
        How::Share { digits, places } => {
            some_words(alloc, least_share(digits, places, n), n, counts, next)
        }
    }
}

/// Whether some item of an AND is negated, where it counts for the match: then a row may not match whose words are as the plan
/// wants.
#[cycle(vetoing)]
pub(crate) fn has_vetoes(node: &Node) -> bool {
    match node {
        Node::Word(_) | Node::Quoted { .. } => false,
        Node::And(items) => items_veto(items.as_slice()),
        Node::Or(a, b)
        | Node::Before(a, b)
        | Node::Near(_, a, b)
        | Node::Sentence(a, b)
        | Node::Paragraph(a, b) => has_vetoes(a.get()) || has_vetoes(b.get()),
        Node::Maybe(a, _) | Node::ZoneSpan(_, a) => has_vetoes(a.get()),
    }
}

/// Whether one of the items is negated, or has such an item in it.
#[cycle(vetoing)]
fn items_veto(items: &[Item]) -> bool {
    for item in items {
        if item.negated || has_vetoes(&item.node) {
            return true;
        }
    }
    false
}
