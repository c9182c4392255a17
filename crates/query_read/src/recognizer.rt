//! The recognizers of the grammar: whether marks are a query, and the offset where reading stops if they aren't. They go over the
//! marks as the readers do, but build nothing and take no memory, so that any text may be given to them. A recognizer calls
//! itself only through a group, so that the recursion is no deeper than groups may nest.
ghost use Rattle.std.specs.Prelude.{◌≢◌, ◌∷◌, [], true};
ghost use Rattle.token_grammar.specs.Language.{one, repeated};
ghost use Rattle.token_grammar.specs.Reading.{IsNextOf};
ghost use Rattle.query_grammar.specs.declared.class.Class.TheVariants as classes;
ghost use Rattle.query_grammar.specs.steps.Answers.{StopsAt};
ghost use Rattle.query_grammar.specs.steps.MarkAlphabet.{query_marks};
ghost use Rattle.query_grammar.specs.steps.QueryGrammar.{leaf, leaves, others, join_of, alternatives_of, item_of, section_of, and_of, expr_of};
ghost use Rattle.query_read.specs.steps.Parts.{join_goes_on, alternatives_go_on, items_go_on, and_goes_on, expr_goes_on};
ghost use Rattle.query_read.specs.steps.Recognizing.{Recognizes, TakesEither};

use crate::cursor::{MarkCursor, begins_item};
use query_grammar::Class;

/// Takes a mark of a class, which has to be the next one.
fn expect(input: &mut MarkCursor<'_>, class: Class) -> Result<(), u32>
    requires { class ≢ classes.End }
    ensures { Recognizes (one class) [] input.old result input.new }
{
    if input.takes(class) {
        Ok(())
    } else {
        Err(input.place())
    }
}

/// Takes a mark of one of two classes, if it is the next one.
fn takes_either(input: &mut MarkCursor<'_>, first: Class, second: Class) -> bool
    requires first { first ≢ classes.End }
    requires second { second ≢ classes.End }
    ensures { TakesEither first second input.old result input.new }
{
    input.takes(first) || input.takes(second)
}

/// Leaves, each after a mark of the class.
fn joined(input: &mut MarkCursor<'_>, class: Class) -> Result<(), u32>
    requires { class ≢ classes.End }
    ensures { Recognizes (repeated class leaf) (class ∷ []) input.old result input.new }
{
    'leaves: while input.takes(class) {
        expect(input, Class::Leaf)?;
    }
    Ok(())
}

/// A leaf, or leaves that SENTENCE or PARAGRAPH joins.
fn leaves(input: &mut MarkCursor<'_>) -> Result<(), u32>
    ensures { Recognizes leaves join_goes_on input.old result input.new }
{
    expect(input, Class::Leaf)?;
    if input.is_next(Class::Sentence) {
        joined(input, Class::Sentence)
    } else {
        joined(input, Class::Paragraph)
    }
}

/// A group, with groups in it nested one less deep.
#[cycle(recognizers)]
fn group(depth: u32, input: &mut MarkCursor<'_>) -> Result<(), u32>
    requires { IsNextOf query_marks classes.Open input.old true }
    ensures { Recognizes (others depth) [] input.old result input.new }
{
    if depth == 0 {
        return Err(input.place());
    }
    input.skip();
    expr(depth - 1, input)?;
    expect(input, Class::Close)
}

/// What SENTENCE and PARAGRAPH join, or an atom.
#[cycle(recognizers)]
fn join(depth: u32, input: &mut MarkCursor<'_>) -> Result<(), u32>
    ensures { Recognizes (join_of (others depth)) join_goes_on input.old result input.new }
{
    match input.class() {
        Class::Leaf => leaves(input),
        Class::Loose => expect(input, Class::Loose),
        Class::Open => group(depth, input),
        _ => Err(input.place()),
    }
}

/// Joins with `|` and MAYBE between them.
#[cycle(recognizers)]
fn alternatives(depth: u32, input: &mut MarkCursor<'_>) -> Result<(), u32>
    ensures { Recognizes (alternatives_of (others depth)) alternatives_go_on input.old result input.new }
{
    join(depth, input)?;
    'choices: while takes_either(input, Class::Or, Class::Maybe) {
        join(depth, input)?;
    }
    Ok(())
}

/// An item of an AND.
#[cycle(recognizers)]
fn item(depth: u32, input: &mut MarkCursor<'_>) -> Result<(), u32>
    ensures { Recognizes (item_of (others depth)) alternatives_go_on input.old result input.new }
{
    if input.takes(Class::Not) {
        join(depth, input)
    } else {
        alternatives(depth, input)
    }
}

/// Limits, and then one item or more.
#[cycle(recognizers)]
fn section(depth: u32, input: &mut MarkCursor<'_>) -> Result<(), u32>
    ensures { Recognizes (section_of (others depth)) items_go_on input.old result input.new }
{
    'limits: while input.takes(Class::Limit) {}
    item(depth, input)?;
    'items: while begins_item(input.class()) {
        item(depth, input)?;
    }
    Ok(())
}

/// An AND: sections, each after the first with a limit.
#[cycle(recognizers)]
fn and(depth: u32, input: &mut MarkCursor<'_>) -> Result<(), u32>
    ensures { Recognizes (and_of (others depth)) and_goes_on input.old result input.new }
{
    section(depth, input)?;
    'sections: while input.takes(Class::Limit) {
        section(depth, input)?;
    }
    Ok(())
}

/// ANDs with `<<` and NEAR between them.
#[cycle(recognizers)]
fn expr(depth: u32, input: &mut MarkCursor<'_>) -> Result<(), u32>
    ensures { Recognizes (expr_of (others depth)) expr_goes_on input.old result input.new }
{
    and(depth, input)?;
    'orders: while takes_either(input, Class::Before, Class::Near) {
        and(depth, input)?;
    }
    Ok(())
}

/// The offset where reading a query stops, or none: then the marks are a query, to the text's end.
pub(crate) fn recognize(input: &mut MarkCursor<'_>) -> Option<u32>
    ensures { StopsAt input.old result }
{
    input.takes(Class::Relaxed);
    if let Err(place) = expr(32, input) {
        return Some(place);
    }
    if input.is_end() {
        None
    } else {
        Some(input.place())
    }
}
