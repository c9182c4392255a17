//! The written form of a query: its tokens, as a walk over the tree finds them.
ghost use Rattle.std.specs.Prelude.{◌≡◌, ℕ, List, ◌++◌, ◌∷◌, [], if◌then◌else◌, option_map, OnOk, OnErr};
ghost use Rattle.std.specs.List.{flat_map};
ghost use Rattle.query_write.specs.Written as form;
ghost use Rattle.query_write.specs.Written.{WrittenToken, written};
ghost use Rattle.query_write.specs.steps.Writes.{Appends, token_of, read_limit, limit_over, limit_tokens, line_as};

use crate::tokens::{Token, is_all, put_one};
use doc_types::Schema;
use query_tree::{Item, Key, Limit, Node, Query};
use srch_base::NoMemory;

/// The line of the grammar by which a node is made of others.
#[derive(Clone, Copy)]
enum Line {
    /// None: it stands by itself.
    Single,
    /// `|` and MAYBE.
    Choice,
    /// `<<` and NEAR.
    Order,
    Sentences,
    Paragraphs,
}

fn line_of(node: &Node) -> Line
    ensures { (names : List (List ℕ)) → line_as result ≡ (form.part_of names node.now).line }
{
    match node {
        Node::Word(_) => Line::Single,
        Node::Quoted { .. } => Line::Single,
        Node::And(_) => Line::Single,
        Node::Or(_, _) => Line::Choice,
        Node::Maybe(_, _) => Line::Choice,
        Node::Before(_, _) => Line::Order,
        Node::Near(_, _, _) => Line::Order,
        Node::Sentence(_, _) => Line::Sentences,
        Node::Paragraph(_, _) => Line::Paragraphs,
        Node::ZoneSpan(_, _) => Line::Single,
    }
}

fn is_choice(node: &Node) -> bool
    ensures { (names : List (List ℕ)) → result ≡ form.is_choice (form.part_of names node.now).line }
{
    matches!(line_of(node), Line::Choice)
}

fn is_order(node: &Node) -> bool
    ensures { (names : List (List ℕ)) → result ≡ form.is_order (form.part_of names node.now).line }
{
    matches!(line_of(node), Line::Order)
}

fn is_single(node: &Node) -> bool
    ensures { (names : List (List ℕ)) → result ≡ form.is_single (form.part_of names node.now).line }
{
    matches!(line_of(node), Line::Single)
}

/// The limit of the first keyword.
fn first_limit(keys: &[Key]) -> Option<&Limit>
    ensures { option_map read_limit result ≡ form.first_limit keys.now }
{
    match keys.first() {
        Some(key) => Some(&key.limit),
        None => None,
    }
}

/// The limit of a keyword, or of the first that SENTENCE or PARAGRAPH joins.
fn limit_of(node: &Node) -> Option<&Limit>
    ensures { (names : List (List ℕ)) → option_map read_limit result ≡ (form.part_of names node.now).limit }
{
    match node {
        Node::Word(key) => Some(&key.limit),
        Node::Quoted { keys, .. } => first_limit(keys.as_slice()),
        Node::Sentence(first, _) => limit_of(first.get()),
        Node::Paragraph(first, _) => limit_of(first.get()),
        Node::And(_) => None,
        Node::Or(_, _) => None,
        Node::Maybe(_, _) => None,
        Node::Before(_, _) => None,
        Node::Near(_, _, _) => None,
        Node::ZoneSpan(_, _) => None,
    }
}

/// Whether fields, positions or zones are limited.
fn limits(limit: &Limit, schema: &Schema) -> bool
    ensures { result ≡ form.limits schema.now.fields limit.now }
{
    !is_all(limit.fields, schema.fields.as_slice())
        || limit.positions != 65_535
        || !limit.zones.is_empty()
}

/// The limit that is written over a node.
fn limit_over<'a>(node: &'a Node, schema: &Schema) -> Option<&'a Limit>
    ensures { option_map read_limit result ≡ limit_over schema.now.fields (form.part_of schema.now.fields node.now).limit }
{
    match limit_of(node) {
        None => None,
        Some(limit) => {
            if limits(limit, schema) {
                Some(limit)
            } else {
                None
            }
        }
    }
}

/// Appends a limit, and the space after it.
fn put_limit(limit: &Limit, schema: &Schema, out: &mut Vec<u8>) -> Result<(), NoMemory>
    ensures { Appends schema.now (limit_tokens limit.now) out.old.items result out.new.items }
{
    let fields = Token::Fields {
        fields: limit.fields,
        positions: limit.positions,
    };
    put_spaced(fields, schema, out)?;
    if limit.zones.is_empty() {
        return Ok(());
    }
    put_spaced(Token::Zones(limit.zones.as_slice()), schema, out)
}

/// Appends a token, and a space after it.
fn put_spaced(token: Token<'_>, schema: &Schema, out: &mut Vec<u8>) -> Result<(), NoMemory>
    ensures { Appends schema.now (token_of token.entry ∷ WrittenToken.Space ∷ []) out.old.items result out.new.items }
{
    put_one(token, schema, out)?;
    put_one(Token::Space, schema, out)
}

/// Appends an operator between spaces.
fn put_operator(operator: Token<'_>, schema: &Schema, out: &mut Vec<u8>) -> Result<(), NoMemory>
    ensures { Appends schema.now (WrittenToken.Space ∷ token_of operator.entry ∷ WrittenToken.Space ∷ []) out.old.items result out.new.items }
{
    put_one(Token::Space, schema, out)?;
    put_spaced(operator, schema, out)
}

/// Appends a node by itself: under its limit, where it has one.
#[cycle(writing)]
fn put_node(node: &Node, schema: &Schema, out: &mut Vec<u8>) -> Result<(), NoMemory>
    ensures { Appends schema.now (form.node_tokens schema.now.fields node.now) out.old.items result out.new.items }
{
    match limit_over(node, schema) {
        None => put_enclosed(node, schema, out),
        Some(limit) => {
            put_one(Token::Open, schema, out)?;
            put_limit(limit, schema, out)?;
            put_enclosed(node, schema, out)?;
            put_one(Token::Close, schema, out)
        }
    }
}

/// Appends a node without its limit, with the parentheses around its operators.
#[cycle(writing)]
fn put_enclosed(node: &Node, schema: &Schema, out: &mut Vec<u8>) -> Result<(), NoMemory>
    ensures { Appends schema.now (form.enclosed (form.part_of schema.now.fields node.now).line (form.part_of schema.now.fields node.now).tokens) out.old.items result out.new.items }
{
    if is_single(node) {
        put_inside(node, schema, out)
    } else {
        put_spaced(Token::Open, schema, out)?;
        put_inside(node, schema, out)?;
        put_one(Token::Space, schema, out)?;
        put_one(Token::Close, schema, out)
    }
}

/// Appends a node without its limit and without the parentheses around its operators.
#[cycle(writing)]
fn put_inside(node: &Node, schema: &Schema, out: &mut Vec<u8>) -> Result<(), NoMemory>
    ensures { Appends schema.now (form.part_of schema.now.fields node.now).tokens out.old.items result out.new.items }
{
    match node {
        Node::Word(key) => put_one(Token::Word(key), schema, out),
        Node::Quoted { keys, how } => put_one(Token::Quoted(keys.as_slice(), *how), schema, out),
        Node::And(items) => put_items(items.as_slice(), schema, out),
        Node::Or(first, second) => {
            put_left(first.get(), is_choice(first.get()), schema, out)?;
            put_right(Token::Or, second.get(), schema, out)
        }
        Node::Maybe(first, second) => {
            put_left(first.get(), is_choice(first.get()), schema, out)?;
            put_right(Token::Maybe, second.get(), schema, out)
        }
        Node::Before(first, second) => {
            put_left(first.get(), is_order(first.get()), schema, out)?;
            put_right(Token::Before, second.get(), schema, out)
        }
        Node::Near(most, first, second) => {
            put_left(first.get(), is_order(first.get()), schema, out)?;
            put_right(Token::Near(*most), second.get(), schema, out)
        }
        Node::Sentence(first, second) => {
            put_inside(first.get(), schema, out)?;
            put_leaf(Token::Sentence, second.get(), schema, out)
        }
        Node::Paragraph(first, second) => {
            put_inside(first.get(), schema, out)?;
            put_leaf(Token::Paragraph, second.get(), schema, out)
        }
        Node::ZoneSpan(zones, inner) => put_span(zones.as_slice(), inner.get(), schema, out),
    }
}

/// Appends the first of two nodes that are joined, without its parentheses where it is of the same line.
#[cycle(writing)]
fn put_left(node: &Node, same: bool, schema: &Schema, out: &mut Vec<u8>) -> Result<(), NoMemory>
    ensures { Appends schema.now (if same then (form.part_of schema.now.fields node.now).tokens else form.node_tokens schema.now.fields node.now) out.old.items result out.new.items }
{
    if same {
        put_inside(node, schema, out)
    } else {
        put_node(node, schema, out)
    }
}

/// Appends an operator and the second node that it joins.
#[cycle(writing)]
fn put_right(
    operator: Token<'_>,
    node: &Node,
    schema: &Schema,
    out: &mut Vec<u8>,
) -> Result<(), NoMemory>
    ensures { Appends schema.now (WrittenToken.Space ∷ token_of operator.entry ∷ WrittenToken.Space ∷ form.node_tokens schema.now.fields node.now) out.old.items result out.new.items }
{
    put_operator(operator, schema, out)?;
    put_node(node, schema, out)
}

/// Appends SENTENCE or PARAGRAPH and the leaf after it.
#[cycle(writing)]
fn put_leaf(
    operator: Token<'_>,
    node: &Node,
    schema: &Schema,
    out: &mut Vec<u8>,
) -> Result<(), NoMemory>
    ensures { Appends schema.now (WrittenToken.Space ∷ token_of operator.entry ∷ WrittenToken.Space ∷ (form.part_of schema.now.fields node.now).tokens) out.old.items result out.new.items }
{
    put_operator(operator, schema, out)?;
    put_inside(node, schema, out)
}

/// Appends a node under ZONESPAN.
#[cycle(writing)]
fn put_span(zones: &[u16], inner: &Node, schema: &Schema, out: &mut Vec<u8>) -> Result<(), NoMemory>
    ensures { Appends schema.now (form.span_tokens zones.now (form.node_tokens schema.now.fields inner.now)) out.old.items result out.new.items }
{
    put_one(Token::Open, schema, out)?;
    put_spaced(Token::Spans(zones), schema, out)?;
    put_node(inner, schema, out)?;
    put_one(Token::Close, schema, out)
}

/// Appends an item of an AND, and a space after it.
#[cycle(writing)]
fn put_item(item: &Item, schema: &Schema, out: &mut Vec<u8>) -> Result<(), NoMemory>
    ensures { Appends schema.now (form.item_tokens schema.now.fields item.now) out.old.items result out.new.items }
{
    if item.negated {
        put_one(Token::Not, schema, out)?;
    }
    put_node(&item.node, schema, out)?;
    put_one(Token::Space, schema, out)
}

/// Appends the items of an AND between parentheses.
#[cycle(writing)]
fn put_items(items: &[Item], schema: &Schema, out: &mut Vec<u8>) -> Result<(), NoMemory>
    ensures { Appends schema.now (form.and_tokens (flat_map (form.item_tokens schema.now.fields) items.now)) out.old.items result out.new.items }
{
    put_spaced(Token::Open, schema, out)?;
    for item in items {
        put_item(item, schema, out)?;
    }
    put_one(Token::Close, schema, out)
}

/// Appends the written form of a query.
///
/// A reader of the text finds the query again, where the table folds each character of its words to itself and has none of
/// `"`, `\` and the space.
pub fn put_query(query: &Query, schema: &Schema, out: &mut Vec<u8>) -> Result<(), NoMemory>
    ensures ok { OnOk result (out.new.items ≡ out.old.items ++ written schema.now query.now) }
    ensures err { OnErr result (out.new.items ≡ out.old.items) }
{
    let start = out.len();
    match &query.root {
        None => Ok(()),
        Some(root) => match put_node(root, schema, out) {
            Ok(()) => Ok(()),
            Err(error) => {
                out.truncate(start);
                Err(error)
            }
        },
    }
}
