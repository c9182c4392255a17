//! What is made of parts that were read. These functions stand outside of the readers' recursion, so that no reader lets go of a tree.
ghost use Rattle.std.specs.Prelude.{◌≡◌, ◌≢◌, IfOk};
ghost use Rattle.rank_expr.specs.declared.expr.Expr.TheVariants as exprs;
ghost use Rattle.rank_expr.specs.declared.mark.Sign.TheVariants as signs;
ghost use Rattle.rank_expr.specs.Grammar.{leaf_expr, single as called};
ghost use Rattle.rank_expr.specs.steps.Joining.{AreBoth, IsFollowed, Makes};

use crate::class::Class;
use crate::cursor::MarkCursor;
use crate::expr::{Expr, PairOp};
use crate::mark::{Leaf, Single};
use sqlite_items::Boxed;
use srch_base::{NoMemory, Or};
use std::alloc::Global;

/// The expression of a leaf.
pub(crate) fn leaf_expr(leaf: Leaf) -> Expr
    ensures { result ≡ leaf_expr leaf }
{
    match leaf {
        Leaf::Number(value) => Expr::Number(i128::from(value)),
        Leaf::Field(factor) => Expr::Field(factor),
        Leaf::Document(factor) => Expr::Document(factor),
        Leaf::Attr(attr) => Expr::Attr(attr),
    }
}

fn new_negative(alloc: Global, part: Expr) -> Result<Expr, NoMemory>
    ensures { IfOk result (λ e. e ≡ exprs.Negative part) }
{
    Ok(Expr::Negative(Boxed::new(alloc, part)?))
}

fn new_single(alloc: Global, call: Single, part: Expr) -> Result<Expr, NoMemory>
    ensures { IfOk result (λ e. e ≡ called call part) }
{
    let part = Boxed::new(alloc, part)?;
    Ok(match call {
        Single::Sum => Expr::Sum(part),
        Single::Abs => Expr::Abs(part),
    })
}

fn new_pair(alloc: Global, op: PairOp, first: Expr, second: Expr) -> Result<Expr, NoMemory>
    ensures { IfOk result (λ e. e ≡ exprs.Pair op first second) }
{
    let first = Boxed::new(alloc, first)?;
    let second = Boxed::new(alloc, second)?;
    Ok(Expr::Pair(op, first, second))
}

fn new_choice(alloc: Global, test: Expr, yes: Expr, no: Expr) -> Result<Expr, NoMemory>
    ensures { IfOk result (λ e. e ≡ exprs.If test yes no) }
{
    let test = Boxed::new(alloc, test)?;
    let yes = Boxed::new(alloc, yes)?;
    let no = Boxed::new(alloc, no)?;
    Ok(Expr::If(test, yes, no))
}

/// The negative of a part.
pub(crate) fn negated(alloc: Global, part: Result<Expr, Or<u32>>) -> Result<Expr, Or<u32>>
    ensures { Makes exprs.Negative part result }
{
    match part {
        Ok(part) => Ok(new_negative(alloc, part)?),
        Err(error) => Err(error),
    }
}

/// A call of a function of one expression.
pub(crate) fn wrapped(
    alloc: Global,
    call: Single,
    part: Result<Expr, Or<u32>>,
) -> Result<Expr, Or<u32>>
    ensures { Makes (called call) part result }
{
    match part {
        Ok(part) => Ok(new_single(alloc, call, part)?),
        Err(error) => Err(error),
    }
}

/// What is made of two parts.
pub(crate) fn joined(
    alloc: Global,
    op: PairOp,
    first: Expr,
    second: Result<Expr, Or<u32>>,
) -> Result<Expr, Or<u32>>
    ensures { Makes (λ x. exprs.Pair op first x) second result }
{
    match second {
        Ok(second) => Ok(new_pair(alloc, op, first, second)?),
        Err(error) => Err(error),
    }
}

/// A call of `if`.
pub(crate) fn choice(
    alloc: Global,
    test: Expr,
    yes: Expr,
    no: Result<Expr, Or<u32>>,
) -> Result<Expr, Or<u32>>
    ensures { Makes (λ x. exprs.If test yes x) no result }
{
    match no {
        Ok(no) => Ok(new_choice(alloc, test, yes, no)?),
        Err(error) => Err(error),
    }
}

/// Two parts together. Without the second, the first is let go of.
pub(crate) fn both(first: Expr, second: Result<Expr, Or<u32>>) -> Result<(Expr, Expr), Or<u32>>
    ensures { AreBoth first second result }
{
    match second {
        Ok(second) => Ok((first, second)),
        Err(error) => Err(error),
    }
}

/// A part with `)` behind it.
pub(crate) fn closed(
    part: Result<Expr, Or<u32>>,
    input: &mut MarkCursor<'_>,
) -> Result<Expr, Or<u32>>
    ensures { IsFollowed signs.Close part input.old result input.new }
{
    match part {
        Ok(part) => {
            if input.takes(Class::Close) {
                Ok(part)
            } else {
                Err(Or::Fault(input.place()))
            }
        }
        Err(error) => Err(error),
    }
}

/// A part with `,` behind it.
pub(crate) fn followed(
    part: Result<Expr, Or<u32>>,
    input: &mut MarkCursor<'_>,
) -> Result<Expr, Or<u32>>
    ensures { IsFollowed signs.Comma part input.old result input.new }
{
    match part {
        Ok(part) => {
            if input.takes(Class::Comma) {
                Ok(part)
            } else {
                Err(Or::Fault(input.place()))
            }
        }
        Err(error) => Err(error),
    }
}
