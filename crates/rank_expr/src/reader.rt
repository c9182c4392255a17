//! The readers of the grammar, one for each line of it. They call themselves only through a sign, parentheses or a call, so that the
//! recursion is no deeper than these may nest.
ghost use Rattle.std.specs.Prelude.{◌≡◌, []};
ghost use Rattle.token_grammar.specs.Reading.{ReadsPart};
ghost use Rattle.rank_expr.specs.declared.mark.Sign.TheVariants as signs;
ghost use Rattle.rank_expr.specs.Grammar.{IsDouble, IsExpr, IsGroup, IsNegative, IsNested, IsOperand, IsProduct, IsSingle, IsTotal, IsTriple};
ghost use Rattle.rank_expr.specs.steps.Classes.{IsNextSign};
ghost use Rattle.rank_expr.specs.steps.ExprGrammar.{double_of, expr_goes_on, expr_of, group_of, negative_of, nested_of, operand, product_goes_on, product_of, single_of, total_goes_on, total_of, triple_of};
ghost use Rattle.rank_expr.specs.steps.Joining.{IsFollowed, ReadsWhole};
ghost use Rattle.rank_expr.specs.steps.MarkAlphabet.{expr_marks};

use crate::class::Class;
use crate::cursor::MarkCursor;
use crate::expr::{Expr, PairOp};
use crate::joins::{both, choice, closed, followed, joined, leaf_expr, negated, wrapped};
use crate::mark::{Sign, Single};
use srch_base::Or;
use std::alloc::Global;

/// Reads a sign and what it stands before.
#[cycle(readers)]
fn negative(alloc: Global, depth: u32, input: &mut MarkCursor<'_>) -> Result<Expr, Or<u32>>
    requires { IsNextSign signs.Minus input.old }
    ensures { ReadsPart expr_marks (negative_of (operand depth)) [] (IsNegative (IsOperand depth)) input.old result input.new }
{
    input.skip();
    let part = operand(alloc, depth, input);
    negated(alloc, part)
}

/// Reads what stands in parentheses.
#[cycle(readers)]
fn group(alloc: Global, depth: u32, input: &mut MarkCursor<'_>) -> Result<Expr, Or<u32>>
    requires { IsNextSign signs.Open input.old }
    ensures { ReadsPart expr_marks (group_of (operand depth)) [] (IsGroup (IsOperand depth)) input.old result input.new }
{
    input.skip();
    let part = expr(alloc, depth, input);
    closed(part, input)
}

/// Reads a call of a function of one expression.
#[cycle(readers)]
fn single(
    alloc: Global,
    call: Single,
    depth: u32,
    input: &mut MarkCursor<'_>,
) -> Result<Expr, Or<u32>>
    requires { IsNextSign (signs.Single call) input.old }
    ensures { ReadsPart expr_marks (single_of (operand depth)) [] (IsSingle (IsOperand depth)) input.old result input.new }
{
    input.skip();
    let part = expr(alloc, depth, input);
    let part = closed(part, input);
    wrapped(alloc, call, part)
}

/// Reads a call of a function of two expressions.
#[cycle(readers)]
fn double(
    alloc: Global,
    op: PairOp,
    depth: u32,
    input: &mut MarkCursor<'_>,
) -> Result<Expr, Or<u32>>
    requires { IsNextSign (signs.Double op) input.old }
    ensures { ReadsPart expr_marks (double_of (operand depth)) [] (IsDouble (IsOperand depth)) input.old result input.new }
{
    input.skip();
    let part = expr(alloc, depth, input);
    let first = followed(part, input)?;
    let part = expr(alloc, depth, input);
    let second = closed(part, input);
    joined(alloc, op, first, second)
}

/// Reads a call of `if`.
#[cycle(readers)]
fn triple(alloc: Global, depth: u32, input: &mut MarkCursor<'_>) -> Result<Expr, Or<u32>>
    requires { IsNextSign signs.Triple input.old }
    ensures { ReadsPart expr_marks (triple_of (operand depth)) [] (IsTriple (IsOperand depth)) input.old result input.new }
{
    input.skip();
    let part = expr(alloc, depth, input);
    let test = followed(part, input)?;
    let part = expr(alloc, depth, input);
    let part = followed(part, input);
    let (test, yes) = both(test, part)?;
    let part = expr(alloc, depth, input);
    let no = closed(part, input);
    choice(alloc, test, yes, no)
}

/// Reads what is nested: behind a sign, in parentheses, in a call.
#[cycle(readers)]
fn nested(alloc: Global, depth: u32, input: &mut MarkCursor<'_>) -> Result<Expr, Or<u32>>
    ensures { ReadsPart expr_marks (nested_of (operand depth)) [] (IsNested (IsOperand depth)) input.old result input.new }
{
    match input.sign() {
        Sign::Minus => negative(alloc, depth, input),
        Sign::Open => group(alloc, depth, input),
        Sign::Single(call) => single(alloc, call, depth, input),
        Sign::Double(op) => double(alloc, op, depth, input),
        Sign::Triple => triple(alloc, depth, input),
        _ => Err(Or::Fault(input.place())),
    }
}

/// Reads what is multiplied.
#[cycle(readers)]
fn operand(alloc: Global, depth: u32, input: &mut MarkCursor<'_>) -> Result<Expr, Or<u32>>
    ensures { ReadsPart expr_marks (operand depth) [] (IsOperand depth) input.old result input.new }
{
    match input.sign() {
        Sign::Leaf(leaf) => {
            input.skip();
            Ok(leaf_expr(leaf))
        }
        _ => {
            if depth == 0 {
                Err(Or::Fault(input.place()))
            } else {
                nested(alloc, depth - 1, input)
            }
        }
    }
}

/// Reads operands with `*` between them.
#[cycle(readers)]
fn product(alloc: Global, depth: u32, input: &mut MarkCursor<'_>) -> Result<Expr, Or<u32>>
    ensures { ReadsPart expr_marks (product_of (operand depth)) product_goes_on (IsProduct (IsOperand depth)) input.old result input.new }
{
    let mut product = operand(alloc, depth, input)?;
    'factors: while input.takes(Class::Star) {
        let next = operand(alloc, depth, input);
        product = joined(alloc, PairOp::Multiply, product, next)?;
    }
    Ok(product)
}

/// Reads products with `+` and `-` between them.
#[cycle(readers)]
fn total(alloc: Global, depth: u32, input: &mut MarkCursor<'_>) -> Result<Expr, Or<u32>>
    ensures { ReadsPart expr_marks (total_of (operand depth)) total_goes_on (IsTotal (IsOperand depth)) input.old result input.new }
{
    let mut total = product(alloc, depth, input)?;
    'terms: loop {
        if input.takes(Class::Plus) {
            let next = product(alloc, depth, input);
            total = joined(alloc, PairOp::Add, total, next)?;
        } else if input.takes(Class::Minus) {
            let next = product(alloc, depth, input);
            total = joined(alloc, PairOp::Subtract, total, next)?;
        } else {
            return Ok(total);
        }
    }
}

/// Reads an expression: sums of which two may be compared.
#[cycle(readers)]
fn expr(alloc: Global, depth: u32, input: &mut MarkCursor<'_>) -> Result<Expr, Or<u32>>
    ensures { ReadsPart expr_marks (expr_of (operand depth)) expr_goes_on (IsExpr (IsOperand depth)) input.old result input.new }
{
    let first = total(alloc, depth, input)?;
    match input.sign() {
        Sign::Compare(op) => {
            input.skip();
            let next = total(alloc, depth, input);
            joined(alloc, op, first, next)
        }
        _ => Ok(first),
    }
}

/// A part with the text's end behind it.
fn ended(part: Result<Expr, Or<u32>>, input: &MarkCursor<'_>) -> Result<Expr, Or<u32>>
    ensures { IsFollowed signs.End part input.now result [] }
{
    match part {
        Ok(part) => {
            if input.is_at_end() {
                Ok(part)
            } else {
                Err(Or::Fault(input.place()))
            }
        }
        Err(error) => Err(error),
    }
}

/// Reads a whole text.
pub(crate) fn text(alloc: Global, input: &mut MarkCursor<'_>) -> Result<Expr, Or<u32>>
    ensures { ReadsWhole input.old result }
{
    let part = expr(alloc, 32, input);
    ended(part, input)
}
