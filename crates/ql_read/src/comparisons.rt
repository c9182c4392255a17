//! Comparisons of a number: `=`, `!=`, `<>`, `<`, `>`, `<=`, `>=`.

ghost use Rattle.std.specs.Prelude.{[]};
ghost use Rattle.ql_grammar.specs.Alphabet.{sphinxql};
ghost use Rattle.ql_grammar.specs.steps.Grammar.{comparison};
ghost use Rattle.token_grammar.specs.Reading.{ReadsPart};
ghost use Rattle.ql_read.specs.steps.Selecting.{IsNextComparison};
ghost use Rattle.ql_grammar.specs.Selects.{IsComparison};

use crate::cursor::TokenCursor;
use ql_grammar::Kind;
use ql_lex::Sign;
use ql_tree::Comparison;
use srch_base::Or;

/// The comparison that is next.
fn next_comparison(input: &TokenCursor<'_>) -> Option<Comparison>
    ensures { IsNextComparison result input.now }
{
    match input.kind() {
        Kind::Sign(Sign::Equal) => Some(Comparison::Equal),
        Kind::Sign(Sign::NotEqual) => Some(Comparison::NotEqual),
        Kind::Sign(Sign::Less) => Some(Comparison::Less),
        Kind::Sign(Sign::Greater) => Some(Comparison::Greater),
        Kind::Sign(Sign::LessOrEqual) => Some(Comparison::AtMost),
        Kind::Sign(Sign::GreaterOrEqual) => Some(Comparison::AtLeast),
        _ => None,
    }
}

/// Reads a comparison.
pub(crate) fn comparison(input: &mut TokenCursor<'_>) -> Result<Comparison, Or<u32>>
    ensures { ReadsPart sphinxql comparison [] IsComparison input.old result input.new }
{
    match next_comparison(input) {
        Some(op) => {
            input.skip();
            Ok(op)
        }
        None => Err(Or::Fault(input.place())),
    }
}
