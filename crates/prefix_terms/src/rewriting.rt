//! The query without prefixes. Where a prefix stood there is an OR of its words, whose halves have equally many: so 1,024 words are
//! ten deep.
ghost use Rattle.std.specs.Prelude.{◌≡◌, ◌<◌, ℕ, List, [], ◌∷◌, length, map, IfOk};
ghost use Rattle.query_tree.specs.declared.query.Node.TheVariants as nodes;
ghost use Rattle.prefix_terms.specs.Prefixes.{AreRewritten, IsChoice, IsQueryFor, IsRewritten, list_of, whole, with_word};

use crate::expansion::Expansion;
use query_tree::{Item, Key, Limit, Node, Query, copy_key, copy_numbers};
use sqlite_items::{Boxed, Items};
use srch_base::{NoMemory, Word};
use std::alloc::Global;

/// What is asked in the place of the query: each prefix is an OR of plain keywords, one for each of its words, under the same limits
/// and marks and with the same query position. A prefix without words becomes the empty word, which no document has.
#[tactic(auto, using(crate::proofs::Plain::query_some, crate::proofs::Plain::query_none))]
pub fn rewrite(alloc: Global, query: &Query, expansion: &Expansion) -> Result<Query, NoMemory>
    ensures { IfOk result (IsQueryFor query.now expansion.now.keys) }
{
    match &query.root {
        Some(root) => {
            let root = rewritten(alloc, root, expansion)?;
            Ok(Query {
                root: Some(root),
                keywords: query.keywords,
            })
        }
        None => Ok(Query {
            root: None,
            keywords: query.keywords,
        }),
    }
}

/// The node without prefixes.
#[cycle(rewritten)]
#[tactic(auto, using(crate::proofs::Rewritten::as_quoted, crate::proofs::Rewritten::as_and, crate::proofs::Rewritten::as_or, crate::proofs::Rewritten::as_maybe, crate::proofs::Rewritten::as_before, crate::proofs::Rewritten::as_near, crate::proofs::Rewritten::as_sentence, crate::proofs::Rewritten::as_paragraph, crate::proofs::Rewritten::as_span))]
fn rewritten(alloc: Global, node: &Node, expansion: &Expansion) -> Result<Node, NoMemory>
    ensures { IfOk result (IsRewritten expansion.now.keys node.now) }
{
    match node {
        Node::Word(key) => word(alloc, key, expansion),
        Node::Quoted { keys, how } => Ok(Node::Quoted {
            keys: whole_keys(alloc, keys)?,
            how: *how,
        }),
        Node::And(items) => Ok(Node::And(rewritten_items(alloc, items, expansion)?)),
        Node::Or(a, b) => Ok(Node::Or(boxed(alloc, a, expansion)?, boxed(alloc, b, expansion)?)),
        Node::Maybe(a, b) => Ok(Node::Maybe(
            boxed(alloc, a, expansion)?,
            boxed(alloc, b, expansion)?,
        )),
        Node::Before(a, b) => Ok(Node::Before(
            boxed(alloc, a, expansion)?,
            boxed(alloc, b, expansion)?,
        )),
        Node::Near(n, a, b) => Ok(Node::Near(
            *n,
            boxed(alloc, a, expansion)?,
            boxed(alloc, b, expansion)?,
        )),
        Node::Sentence(a, b) => Ok(Node::Sentence(
            boxed(alloc, a, expansion)?,
            boxed(alloc, b, expansion)?,
        )),
        Node::Paragraph(a, b) => Ok(Node::Paragraph(
            boxed(alloc, a, expansion)?,
            boxed(alloc, b, expansion)?,
        )),
        Node::ZoneSpan(zones, a) => Ok(Node::ZoneSpan(
            copy_numbers(alloc, zones)?,
            boxed(alloc, a, expansion)?,
        )),
    }
}

/// The same of a node in a box.
#[cycle(rewritten)]
fn boxed(alloc: Global, node: &Boxed<Node>, expansion: &Expansion) -> Result<Boxed<Node>, NoMemory>
    ensures { IfOk result (IsRewritten expansion.now.keys node.now) }
{
    let made = rewritten(alloc, node.get(), expansion)?;
    Ok(Boxed::new(alloc, made)?)
}

/// The same of the nodes of items.
#[cycle(rewritten)]
#[tactic(auto, using(crate::proofs::Rewritten::items_none, crate::proofs::Rewritten::items_more))]
fn rewritten_items(
    alloc: Global,
    items: &Items<Item>,
    expansion: &Expansion,
) -> Result<Items<Item>, NoMemory>
    ensures { IfOk result (AreRewritten expansion.now.keys items.now) }
{
    let mut made = Items::new(alloc);
    'items: for item in items.as_slice() {
        let node = rewritten(alloc, &item.node, expansion)?;
        made.push(Item {
            negated: item.negated,
            node,
        })?;
    }
    Ok(made)
}

/// A keyword, or an OR of the words of a prefix.
#[tactic(auto, using(crate::proofs::Rewritten::as_word, crate::proofs::Rewritten::as_empty, crate::proofs::Rewritten::as_choice))]
fn word(alloc: Global, key: &Key, expansion: &Expansion) -> Result<Node, NoMemory>
    ensures { IfOk result (IsRewritten expansion.now.keys (nodes.Word key.now)) }
{
    let is_prefix = key.prefix;
    if !is_prefix {
        let copy = copy_key(alloc, key)?;
        return Ok(Node::Word(copy));
    }
    let words = list_of(key.query, expansion);
    if words.is_empty() {
        let empty = with_word(alloc, key, &[])?;
        return Ok(empty);
    }
    let made = choice(alloc, key, words)?;
    Ok(made)
}

/// The words of the prefix with this query position.
fn list_of(query: u16, expansion: &Expansion) -> &[Word]
    ensures { result.now ≡ list_of query expansion.now.keys }
{
    for list in expansion.keys.as_slice() {
        if list.0 == query {
            return list.1.as_slice();
        }
    }
    &[]
}

/// An OR of the words, of which there are some.
#[tactic(auto, using(crate::proofs::Rewritten::choice_one, crate::proofs::Rewritten::choice_halves))]
fn choice(alloc: Global, key: &Key, words: &[Word]) -> Result<Node, NoMemory>
    requires { 0 < length words.now }
    ensures { IfOk result (IsChoice (map (with_word key.now) words.now)) }
{
    let count = words.len();
    if count == 1 {
        let made = with_word(alloc, key, words[0].as_bytes())?;
        return Ok(made);
    }
    let (first, second) = words.split_at(count - count / 2);
    let a = choice(alloc, key, first)?;
    let b = choice(alloc, key, second)?;
    Ok(Node::Or(Boxed::new(alloc, a)?, Boxed::new(alloc, b)?))
}

/// The keywords as whole words.
fn whole_keys(alloc: Global, keys: &Items<Key>) -> Result<Items<Key>, NoMemory>
    ensures { IfOk result (λ made. made ≡ map whole keys.now) }
{
    let mut made = Items::new(alloc);
    'keys: for key in keys.as_slice() {
        let own = key_with(alloc, key, key.word.as_bytes())?;
        made.push(own)?;
    }
    Ok(made)
}

/// The keyword that has this word in the place of the prefix, as a node.
fn with_word(alloc: Global, key: &Key, word: &[u8]) -> Result<Node, NoMemory>
    ensures { IfOk result (λ made. made ≡ nodes.Word (with_word key.now word.now)) }
{
    let own = key_with(alloc, key, word)?;
    Ok(Node::Word(own))
}

/// The keyword with this word in the place of its own, as a whole word.
fn key_with(alloc: Global, key: &Key, word: &[u8]) -> Result<Key, NoMemory>
    ensures { IfOk result (λ made. made ≡ with_word key.now word.now) }
{
    Ok(Key {
        query: key.query,
        word: Word::from_slice(alloc, word)?,
        limit: Limit {
            fields: key.limit.fields,
            positions: key.limit.positions,
            zones: copy_numbers(alloc, &key.limit.zones)?,
        },
        start: key.start,
        end: key.end,
        prefix: false,
    })
}
