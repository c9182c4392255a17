//! Words, phrases, and what SENTENCE and PARAGRAPH join.
ghost use Rattle.std.specs.Prelude.{[], ◌∷◌, true};
ghost use Rattle.token_grammar.specs.Language.{one, repeated};
ghost use Rattle.token_grammar.specs.Reading.{ReadsPart, IsNextOf};
ghost use Rattle.query_marks.specs.declared.mark.Sign.TheVariants as signs;
ghost use Rattle.query_grammar.specs.declared.class.Class.TheVariants as classes;
ghost use Rattle.query_tree.specs.declared.query.Node.TheVariants as nodes;
ghost use Rattle.query_grammar.specs.Grammar.{IsLeaf, IsLoose};
ghost use Rattle.query_grammar.specs.steps.MarkAlphabet.{query_marks};
ghost use Rattle.query_grammar.specs.steps.QueryGrammar.{leaf, leaves};
ghost use Rattle.query_read.specs.steps.Parts.{join_goes_on, AreAdded, IsLeaves};

use crate::cursor::MarkCursor;
use crate::operators::{Operator, join_next};
use query_grammar::Class;
use query_marks::Sign;
use query_tree::{How, Node, copy_key, copy_keys};
use srch_base::Or;
use std::alloc::Global;

/// Reads a word or a phrase.
fn leaf(alloc: Global, input: &mut MarkCursor<'_>) -> Result<Node, Or<u32>>
    ensures { ReadsPart query_marks leaf [] IsLeaf input.old result input.new }
{
    match input.sign() {
        Sign::Bare(key) => {
            input.skip();
            Ok(Node::Word(copy_key(alloc, key.get())?))
        }
        Sign::Phrase(keys) => {
            input.skip();
            Ok(Node::Quoted {
                keys: copy_keys(alloc, keys)?,
                how: How::Phrase,
            })
        }
        _ => Err(Or::Fault(input.place())),
    }
}

/// Reads a quoted piece with a number.
pub(crate) fn loose(alloc: Global, input: &mut MarkCursor<'_>) -> Result<Node, Or<u32>>
    ensures { ReadsPart query_marks (one classes.Loose) [] IsLoose input.old result input.new }
{
    match input.sign() {
        Sign::Loose(keys, how) => {
            input.skip();
            Ok(Node::Quoted {
                keys: copy_keys(alloc, keys)?,
                how: *how,
            })
        }
        _ => Err(Or::Fault(input.place())),
    }
}

/// Reads the leaves that SENTENCE joins to the first.
fn sentences(alloc: Global, first: Node, input: &mut MarkCursor<'_>) -> Result<Node, Or<u32>>
    requires { IsNextOf query_marks classes.Sentence input.old true }
    ensures { ReadsPart query_marks (repeated classes.Sentence leaf) (classes.Sentence ∷ []) (AreAdded signs.Sentence nodes.Sentence first) input.old result input.new }
{
    let mut node = first;
    'leaves: while input.takes(Class::Sentence) {
        node = join_next(alloc, Operator::Sentence, node, leaf(alloc, input))?;
    }
    Ok(node)
}

/// Reads the leaves that PARAGRAPH joins to the first.
fn paragraphs(alloc: Global, first: Node, input: &mut MarkCursor<'_>) -> Result<Node, Or<u32>>
    requires { IsNextOf query_marks classes.Paragraph input.old true }
    ensures { ReadsPart query_marks (repeated classes.Paragraph leaf) (classes.Paragraph ∷ []) (AreAdded signs.Paragraph nodes.Paragraph first) input.old result input.new }
{
    let mut node = first;
    'leaves: while input.takes(Class::Paragraph) {
        node = join_next(alloc, Operator::Paragraph, node, leaf(alloc, input))?;
    }
    Ok(node)
}

/// Reads a leaf, or leaves that are joined.
pub(crate) fn leaves(alloc: Global, input: &mut MarkCursor<'_>) -> Result<Node, Or<u32>>
    ensures { ReadsPart query_marks leaves join_goes_on IsLeaves input.old result input.new }
{
    let first = leaf(alloc, input)?;
    if input.is_next(Class::Sentence) {
        sentences(alloc, first, input)
    } else if input.is_next(Class::Paragraph) {
        paragraphs(alloc, first, input)
    } else {
        Ok(first)
    }
}
