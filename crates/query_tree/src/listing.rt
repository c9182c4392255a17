//! The keywords of a tree, listed in its order.
ghost use Rattle.std.specs.Prelude.{◌≡◌, ◌++◌, map, OnOk};
ghost use Rattle.std.specs.List.{flat_map};
ghost use Rattle.query_tree.specs.TreeKeys.{node_keys};

use crate::key::Key;
use crate::query::{Item, Node};
use srch_base::NoMemory;

/// Appends the keywords of the node.
#[cycle(keys)]
pub fn put_keys<'q>(node: &'q Node, keys: &mut Vec<&'q Key>) -> Result<(), NoMemory>
    ensures { OnOk result (map (λ key. key.now) keys.new.items ≡ map (λ key. key.now) keys.old.items ++ node_keys node.now) }
{
    match node {
        Node::Word(key) => Ok(keys.push(key)?),
        Node::Quoted { keys: listed, .. } => put_listed(listed.as_slice(), keys),
        Node::And(items) => put_items(items.as_slice(), keys),
        Node::Or(a, b)
        | Node::Maybe(a, b)
        | Node::Before(a, b)
        | Node::Near(_, a, b)
        | Node::Sentence(a, b)
        | Node::Paragraph(a, b) => {
            put_keys(a.get(), keys)?;
            put_keys(b.get(), keys)
        }
        Node::ZoneSpan(_, a) => put_keys(a.get(), keys),
    }
}

/// Appends these keywords.
fn put_listed<'q>(listed: &'q [Key], keys: &mut Vec<&'q Key>) -> Result<(), NoMemory>
    ensures { OnOk result (map (λ key. key.now) keys.new.items ≡ map (λ key. key.now) keys.old.items ++ listed.now) }
{
    for key in listed {
        keys.push(key)?;
    }
    Ok(())
}

/// Appends the keywords of the items.
#[cycle(keys)]
fn put_items<'q>(items: &'q [Item], keys: &mut Vec<&'q Key>) -> Result<(), NoMemory>
    ensures { OnOk result (map (λ key. key.now) keys.new.items ≡ map (λ key. key.now) keys.old.items ++ flat_map (λ item. node_keys item.node) items.now) }
{
    for item in items {
        put_keys(&item.node, keys)?;
    }
    Ok(())
}
