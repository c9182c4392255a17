//! What operators make of two nodes.
ghost use Rattle.std.specs.Prelude.{◌≡◌, IfOk};
ghost use Rattle.query_read.specs.steps.Joining.{by_operator, Joins};

use query_tree::Node;
use sqlite_items::Boxed;
use srch_base::{NoMemory, Or};
use std::alloc::Global;

/// An operator between two nodes.
#[derive(Clone, Copy)]
pub(crate) enum Operator {
    Or,
    Maybe,
    Before,
    Near(u32),
    Sentence,
    Paragraph,
}

/// The node that an operator makes of two.
fn operate(alloc: Global, operator: Operator, first: Node, next: Node) -> Result<Node, NoMemory>
    ensures { IfOk result (λ node. node ≡ by_operator operator first next) }
{
    let first = Boxed::new(alloc, first)?;
    let next = Boxed::new(alloc, next)?;
    Ok(match operator {
        Operator::Or => Node::Or(first, next),
        Operator::Maybe => Node::Maybe(first, next),
        Operator::Before => Node::Before(first, next),
        Operator::Near(number) => Node::Near(number, first, next),
        Operator::Sentence => Node::Sentence(first, next),
        Operator::Paragraph => Node::Paragraph(first, next),
    })
}

/// Joins what was read next to the node before it. Without a next one the first is let go of.
pub(crate) fn join_next(
    alloc: Global,
    operator: Operator,
    first: Node,
    next: Result<Node, Or<u32>>,
) -> Result<Node, Or<u32>>
    ensures { Joins operator first next result }
{
    match next {
        Ok(next) => Ok(operate(alloc, operator, first, next)?),
        Err(error) => Err(error),
    }
}
