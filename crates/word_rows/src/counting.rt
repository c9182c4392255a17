//! Which terms are a node's. The terms of a query stand in a row in the order of its keywords, so a node's are found by counting
//! the keywords of the nodes beside it; a chain of joins leans to the left, and its right sides are short.
ghost use Rattle.std.specs.Prelude.{◌≡◌, ◌≤◌, ◌++◌, length, min};
ghost use Rattle.std.specs.List.{flat_map};
ghost use Rattle.query_tree.specs.TreeKeys.{node_keys};

use occ_lists::Term;
use query_tree::{Item, Node};

/// The terms of a node that stand first, and those after them.
pub fn part_first<'t>(node: &Node, terms: &'t [Term]) -> (&'t [Term], &'t [Term])
    ensures whole { terms.now ≡ result.0.now ++ result.1.now }
    ensures own { length (node_keys node.now) ≤ length terms.now → length result.0.now ≡ length (node_keys node.now) }
{
    terms.split_at(key_count(node).min(terms.len()))
}

/// The terms before those of a node that stand last, and those.
pub fn part_last<'t>(node: &Node, terms: &'t [Term]) -> (&'t [Term], &'t [Term])
    ensures whole { terms.now ≡ result.0.now ++ result.1.now }
    ensures own { length (node_keys node.now) ≤ length terms.now → length result.1.now ≡ length (node_keys node.now) }
{
    terms.split_at(terms.len().saturating_sub(key_count(node)))
}

/// How many keywords the node has, those under NOT too; the greatest number where there are more.
#[cycle(counting)]
pub fn key_count(node: &Node) -> usize
    ensures { result ≡ min (length (node_keys node.now)) usize.MAX }
{
    match node {
        Node::Word(_) => 1,
        Node::Quoted { keys, .. } => keys.len(),
        Node::And(items) => count_items(items.as_slice()),
        Node::Or(a, b)
        | Node::Maybe(a, b)
        | Node::Before(a, b)
        | Node::Near(_, a, b)
        | Node::Sentence(a, b)
        | Node::Paragraph(a, b) => key_count(a.get()).saturating_add(key_count(b.get())),
        Node::ZoneSpan(_, a) => key_count(a.get()),
    }
}

#[cycle(counting)]
fn count_items(items: &[Item]) -> usize
    ensures { result ≡ min (length (flat_map (λ item. node_keys item.node) items.now)) usize.MAX }
{
    let mut count: usize = 0;
    for item in items {
        count = count.saturating_add(key_count(&item.node));
    }
    count
}
