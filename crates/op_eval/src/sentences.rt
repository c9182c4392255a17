//! Queries in an index that reads no sentences: SENTENCE and PARAGRAPH are AND there. The tree that a text is read as keeps them,
//! so that it is written as it was read; an index makes of it what it means.
ghost use Rattle.std.specs.Prelude.{◌≡◌, map, IfOk};
ghost use Rattle.query_tree.specs.TreeKeys.{query_keys};
ghost use Rattle.op_eval.specs.Sentences.{both, item_joined_by_and, joined_by_and, query_for};

use doc_types::Schema;
use query_tree::{Item, Node, Query};
use sqlite_items::{Boxed, Items};
use srch_base::NoMemory;
use std::alloc::Global;

/// The query as an index of this schema means it: with AND in the place of SENTENCE and PARAGRAPH where no sentences are read,
/// and else itself. Ask with this one. It takes memory only where sentences aren't read.
#[tactic(auto, using(crate::proofs::AndKeys::node_keeps))]
pub fn for_schema(alloc: Global, query: Query, schema: &Schema) -> Result<Query, NoMemory>
    ensures means { IfOk result (λ made. made ≡ query_for schema.now query) }
    ensures keywords { IfOk result (λ made. query_keys made ≡ query_keys query) }
{
    if schema.sp {
        return Ok(query);
    }
    let Query { root, keywords } = query;
    match root {
        Some(node) => Ok(Query {
            root: Some(with_and(alloc, node)?),
            keywords,
        }),
        None => Ok(Query {
            root: None,
            keywords,
        }),
    }
}

/// The node with AND in the place of SENTENCE and PARAGRAPH.
#[cycle(with_and)]
#[tactic(auto, using(crate::proofs::AndNodes::of_word, crate::proofs::AndNodes::of_quoted, crate::proofs::AndNodes::of_and, crate::proofs::AndNodes::of_or, crate::proofs::AndNodes::of_maybe, crate::proofs::AndNodes::of_before, crate::proofs::AndNodes::of_near, crate::proofs::AndNodes::of_sentence, crate::proofs::AndNodes::of_paragraph, crate::proofs::AndNodes::of_zonespan))]
fn with_and(alloc: Global, node: Node) -> Result<Node, NoMemory>
    ensures { IfOk result (λ made. made ≡ joined_by_and node) }
{
    match node {
        Node::Word(key) => Ok(Node::Word(key)),
        Node::Quoted { keys, how } => Ok(Node::Quoted { keys, how }),
        Node::And(items) => Ok(Node::And(items_with_and(alloc, items)?)),
        Node::Or(a, b) => Ok(Node::Or(boxed(alloc, a)?, boxed(alloc, b)?)),
        Node::Maybe(a, b) => Ok(Node::Maybe(boxed(alloc, a)?, boxed(alloc, b)?)),
        Node::Before(a, b) => Ok(Node::Before(boxed(alloc, a)?, boxed(alloc, b)?)),
        Node::Near(n, a, b) => Ok(Node::Near(n, boxed(alloc, a)?, boxed(alloc, b)?)),
        Node::Sentence(a, b) => both(alloc, boxed(alloc, a)?, boxed(alloc, b)?),
        Node::Paragraph(a, b) => both(alloc, boxed(alloc, a)?, boxed(alloc, b)?),
        Node::ZoneSpan(zones, a) => Ok(Node::ZoneSpan(zones, boxed(alloc, a)?)),
    }
}

/// The same of a node in a box.
#[cycle(with_and)]
fn boxed(alloc: Global, node: Boxed<Node>) -> Result<Boxed<Node>, NoMemory>
    ensures { IfOk result (λ made. made ≡ joined_by_and node) }
{
    let made = with_and(alloc, node.into_inner())?;
    Ok(Boxed::new(alloc, made)?)
}

/// The same of the nodes of items.
#[cycle(with_and)]
fn items_with_and(alloc: Global, items: Items<Item>) -> Result<Items<Item>, NoMemory>
    ensures { IfOk result (λ made. made ≡ map item_joined_by_and items) }
{
    let mut rest = items;
    let mut made = Vec::new(alloc);
    'items: while let Some(item) = rest.pop() {
        let Item { negated, node } = item;
        let node = with_and(alloc, node)?;
        made.push(Item { negated, node })?;
    }
    made.reverse();
    Ok(Items::from_vec(made))
}

/// The AND of two nodes.
fn both(alloc: Global, a: Boxed<Node>, b: Boxed<Node>) -> Result<Node, NoMemory>
    ensures { IfOk result (λ made. made ≡ both a b) }
{
    let mut items = Items::new(alloc);
    items.push(Item {
        negated: false,
        node: a.into_inner(),
    })?;
    items.push(Item {
        negated: false,
        node: b.into_inner(),
    })?;
    Ok(Node::And(items))
}
