//! The readers of the grammar, one for each line of it. A reader calls itself only through a group, so that the recursion is no
//! deeper than groups may nest.
ghost use Rattle.std.specs.Prelude.{◌≡◌, ◌∷◌, [], true, false, MatchBool, IfOk};
ghost use Rattle.token_grammar.specs.Language.{one, many};
ghost use Rattle.token_grammar.specs.Reading.{ReadsPart, IsNextOf};
ghost use Rattle.query_marks.specs.declared.mark.Sign.TheVariants as signs;
ghost use Rattle.query_grammar.specs.declared.class.Class.TheVariants as classes;
ghost use Rattle.query_tree.specs.declared.query.Item.{Item};
ghost use Rattle.query_tree.specs.declared.query.Node.TheVariants as nodes;
ghost use Rattle.query_grammar.specs.Grammar.{Is, IsGroup, IsJoin, IsAlt, IsItem, IsAndNode, IsExpr, node_of, items_of as given_of};
ghost use Rattle.query_grammar.specs.QueryFaults.{Any};
ghost use Rattle.query_grammar.specs.steps.Answers.{ReadsWhole};
ghost use Rattle.query_grammar.specs.steps.MarkAlphabet.{query_marks};
ghost use Rattle.query_read.specs.steps.Parts.{join_goes_on, alternatives_go_on, items_go_on, and_goes_on, expr_goes_on, AreItems, is_first, AreLimits, IsGiven};
ghost use Rattle.query_grammar.specs.steps.QueryGrammar.{others, join_of, alternatives_of, item_of, items_of, section_of, and_of, expr_of};

use crate::cursor::{MarkCursor, begins_item};
use crate::joins::{leaves, loose};
use crate::operators::{Operator, join_next};
use query_grammar::Class;
use query_marks::Sign;
use query_tree::{Item, Node, copy_numbers};
use sqlite_items::{Boxed, Items};
use srch_base::{NoMemory, Or};
use std::alloc::Global;

/// Reads the end of a group.
fn closed(node: Node, input: &mut MarkCursor<'_>) -> Result<Node, Or<u32>>
    ensures { ReadsPart query_marks (one classes.Close) [] (λ closed u. (closed ≡ node) × Is signs.Close u) input.old result input.new }
{
    if input.takes(Class::Close) {
        Ok(node)
    } else {
        Err(Or::Fault(input.place()))
    }
}

/// Reads a group, with groups in it nested one less deep.
#[cycle(readers)]
fn group(alloc: Global, depth: u32, input: &mut MarkCursor<'_>) -> Result<Node, Or<u32>>
    requires { IsNextOf query_marks classes.Open input.old true }
    ensures { ReadsPart query_marks (others depth) [] (IsGroup Any depth) input.old result input.new }
{
    if depth == 0 {
        return Err(Or::Fault(input.place()));
    }
    input.skip();
    let node = expr(alloc, depth - 1, input)?;
    closed(node, input)
}

/// Reads what SENTENCE and PARAGRAPH join, or an atom.
#[cycle(readers)]
fn join(alloc: Global, depth: u32, input: &mut MarkCursor<'_>) -> Result<Node, Or<u32>>
    ensures { ReadsPart query_marks (join_of (others depth)) join_goes_on (IsJoin (IsGroup Any depth)) input.old result input.new }
{
    match input.class() {
        Class::Leaf => leaves(alloc, input),
        Class::Loose => loose(alloc, input),
        Class::Open => group(alloc, depth, input),
        _ => Err(Or::Fault(input.place())),
    }
}

/// Reads joins with `|` and MAYBE between them.
#[cycle(readers)]
fn alternatives(alloc: Global, depth: u32, input: &mut MarkCursor<'_>) -> Result<Node, Or<u32>>
    ensures { ReadsPart query_marks (alternatives_of (others depth)) alternatives_go_on (IsAlt (IsGroup Any depth)) input.old result input.new }
{
    let mut node = join(alloc, depth, input)?;
    'choices: loop {
        if input.takes(Class::Or) {
            node = join_next(alloc, Operator::Or, node, join(alloc, depth, input))?;
        } else if input.takes(Class::Maybe) {
            node = join_next(alloc, Operator::Maybe, node, join(alloc, depth, input))?;
        } else {
            return Ok(node);
        }
    }
}

/// Reads an item of an AND.
#[cycle(readers)]
fn item(alloc: Global, depth: u32, input: &mut MarkCursor<'_>) -> Result<Item, Or<u32>>
    ensures { ReadsPart query_marks (item_of (others depth)) alternatives_go_on (IsItem (IsGroup Any depth)) input.old result input.new }
{
    if input.takes(Class::Not) {
        let node = join(alloc, depth, input)?;
        Ok(Item {
            negated: true,
            node,
        })
    } else {
        let node = alternatives(alloc, depth, input)?;
        Ok(Item {
            negated: false,
            node,
        })
    }
}

/// Reads one item or more.
#[cycle(readers)]
fn items(alloc: Global, depth: u32, input: &mut MarkCursor<'_>) -> Result<Items<Item>, Or<u32>>
    ensures { ReadsPart query_marks (items_of (others depth)) items_go_on (AreItems (IsGroup Any depth)) input.old result input.new }
{
    let mut items = Items::new(alloc);
    items.push(item(alloc, depth, input)?)?;
    'items: while begins_item(input.class()) {
        items.push(item(alloc, depth, input)?)?;
    }
    Ok(items)
}

/// Reads limits. The last one counts: its zones are given where it makes a node.
fn limits(alloc: Global, input: &mut MarkCursor<'_>) -> Result<Option<Items<u16>>, Or<u32>>
    ensures { ReadsPart query_marks (many (one classes.Limit)) (classes.Limit ∷ []) (AreLimits (is_first input.old)) input.old result input.new }
{
    let mut span = None;
    'limits: loop {
        match input.sign() {
            Sign::Limits => {
                input.skip();
                span = None;
            }
            Sign::Spans(zones) => {
                input.skip();
                span = Some(copy_numbers(alloc, zones)?);
            }
            _ => return Ok(span),
        }
    }
}

/// Whether it is one item, which isn't negated.
fn is_plain(items: &Items<Item>) -> bool
    ensures { MatchBool result ((item : Item) × (items.now ≡ item ∷ []) × (item.negated ≡ false)) (node_of items.now ≡ nodes.And items.now) }
{
    match items.as_slice() {
        [item] => !item.negated,
        _ => false,
    }
}

/// The node of items: one that isn't negated is the node itself.
fn node_of(items: Items<Item>) -> Node
    ensures { result ≡ node_of items }
{
    if is_plain(&items) {
        let mut items = items;
        items.remove(0).node
    } else {
        Node::And(items)
    }
}

/// What items under limits give to their AND: a ZONESPAN makes one item of them.
fn given(
    alloc: Global,
    span: Option<Items<u16>>,
    items: Items<Item>,
) -> Result<Items<Item>, NoMemory>
    ensures { IfOk result (λ given. given ≡ given_of span items) }
{
    match span {
        Some(zones) => {
            let mut given = Items::new(alloc);
            let node = Node::ZoneSpan(zones, Boxed::new(alloc, node_of(items))?);
            given.push(Item {
                negated: false,
                node,
            })?;
            Ok(given)
        }
        None => Ok(items),
    }
}

/// Reads items after limits, and answers what they give to their AND.
#[cycle(readers)]
fn section(alloc: Global, depth: u32, input: &mut MarkCursor<'_>) -> Result<Items<Item>, Or<u32>>
    ensures { ReadsPart query_marks (section_of (others depth)) items_go_on (IsGiven (IsGroup Any depth) (is_first input.old)) input.old result input.new }
{
    let span = limits(alloc, input)?;
    let items = items(alloc, depth, input)?;
    Ok(given(alloc, span, items)?)
}

/// Reads an AND.
#[cycle(readers)]
fn and(alloc: Global, depth: u32, input: &mut MarkCursor<'_>) -> Result<Node, Or<u32>>
    ensures { ReadsPart query_marks (and_of (others depth)) and_goes_on (IsAndNode Any (IsGroup Any depth)) input.old result input.new }
{
    let mut all = section(alloc, depth, input)?;
    'sections: while input.is_next(Class::Limit) {
        all.append(section(alloc, depth, input)?)?;
    }
    Ok(node_of(all))
}

/// Reads ANDs with `<<` and NEAR between them.
#[cycle(readers)]
fn expr(alloc: Global, depth: u32, input: &mut MarkCursor<'_>) -> Result<Node, Or<u32>>
    ensures { ReadsPart query_marks (expr_of (others depth)) expr_goes_on (IsExpr Any (IsGroup Any depth)) input.old result input.new }
{
    let mut node = and(alloc, depth, input)?;
    'orders: loop {
        match input.sign() {
            Sign::Before => {
                input.skip();
                node = join_next(alloc, Operator::Before, node, and(alloc, depth, input))?;
            }
            Sign::Near(number) => {
                input.skip();
                node = join_next(
                    alloc,
                    Operator::Near(*number),
                    node,
                    and(alloc, depth, input),
                )?;
            }
            _ => return Ok(node),
        }
    }
}

/// Reads a query, to the text's end.
pub(crate) fn query(alloc: Global, input: &mut MarkCursor<'_>) -> Result<Node, Or<u32>>
    ensures { ReadsWhole input.old result }
{
    input.takes(Class::Relaxed);
    let node = expr(alloc, 32, input)?;
    if input.is_end() {
        Ok(node)
    } else {
        Err(Or::Fault(input.place()))
    }
}
