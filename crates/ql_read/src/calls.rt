//! Calls in an item or a key: `COUNT(*)`, `MIN(name)`, `WEIGHT()` and their kin. Their keywords are names too where no `(`
//! follows, so a reader looks at two tokens before it takes one.

ghost use Rattle.std.specs.Prelude.{◌≡◌, [], ◌∷◌};
ghost use Rattle.ql_grammar.specs.Alphabet.{sphinxql};
ghost use Rattle.ql_lex.specs.declared.token.Sign.TheVariants as signs;
ghost use Rattle.ql_grammar.specs.declared.keyword.Keyword.TheVariants as keywords;
ghost use Rattle.ql_grammar.specs.Classes.{the_sign};
ghost use Rattle.ql_grammar.specs.Terminals.{enclosed, name, keyword};
ghost use Rattle.ql_grammar.specs.steps.Grammar.{count, counted, expr, parens};
ghost use Rattle.token_grammar.specs.Language.{◌⨾◌};
ghost use Rattle.ql_grammar.specs.Parts.{AreParens, IsEnclosed, IsName, IsKeyword};
ghost use Rattle.token_grammar.specs.Values.{◌then◌};
ghost use Rattle.token_grammar.specs.Reading.{ReadsPart};
ghost use Rattle.ql_grammar.specs.Selects.{IsCount, IsExpr};
ghost use Rattle.ql_grammar.specs.steps.Selecting.{IsCounted, count_expr};

use crate::cursor::TokenCursor;
use ql_grammar::Keyword;
use ql_lex::Sign;
use ql_tree::SelectExpr;
use srch_base::{Name, Or};
use std::alloc::Global;

/// Reads a function's keyword and a name in parentheses.
fn argument(alloc: Global, input: &mut TokenCursor<'_>, of: Keyword) -> Result<Name, Or<u32>>
    ensures { ReadsPart sphinxql (keyword of ⨾ enclosed name) [] (λ name. IsKeyword of then IsEnclosed (IsName name)) input.old result input.new }
{
    input.keyword(of)?;
    input.sign(Sign::OpenParen)?;
    let name = input.name(alloc)?;
    input.sign(Sign::CloseParen)?;
    Ok(name)
}

/// Reads a function's keyword and empty parentheses.
pub(crate) fn no_argument(input: &mut TokenCursor<'_>, of: Keyword) -> Result<(), Or<u32>>
    ensures { ReadsPart sphinxql (keyword of ⨾ parens) [] (λ _. IsKeyword of then AreParens) input.old result input.new }
{
    input.keyword(of)?;
    input.sign(Sign::OpenParen)?;
    input.sign(Sign::CloseParen)?;
    Ok(())
}

/// Reads `COUNT(*)`.
pub(crate) fn count_all(input: &mut TokenCursor<'_>) -> Result<(), Or<u32>>
    ensures { ReadsPart sphinxql count [] (λ _. IsCount) input.old result input.new }
{
    input.keyword(Keyword::Count)?;
    input.sign(Sign::OpenParen)?;
    input.sign(Sign::Star)?;
    input.sign(Sign::CloseParen)?;
    Ok(())
}

/// Reads `*`, or `DISTINCT` and a name.
fn counted(alloc: Global, input: &mut TokenCursor<'_>) -> Result<Option<Name>, Or<u32>>
    ensures { ReadsPart sphinxql counted [] IsCounted input.old result input.new }
{
    if input.takes_sign(Sign::Star) {
        return Ok(None);
    }
    input.keyword(Keyword::Distinct)?;
    Ok(Some(input.name(alloc)?))
}

/// The count of all, or of the distinct values of a column.
fn count_expr(name: Option<Name>) -> SelectExpr
    ensures { result ≡ count_expr name }
{
    match name {
        None => SelectExpr::CountAll,
        Some(name) => SelectExpr::CountDistinct(name),
    }
}

/// Reads a count.
fn counting(alloc: Global, input: &mut TokenCursor<'_>) -> Result<Option<Name>, Or<u32>>
    ensures { ReadsPart sphinxql (keyword keywords.Count ⨾ enclosed counted) [] (λ name. IsKeyword keywords.Count then IsEnclosed (IsCounted name)) input.old result input.new }
{
    input.keyword(Keyword::Count)?;
    input.sign(Sign::OpenParen)?;
    let name = counted(alloc, input)?;
    input.sign(Sign::CloseParen)?;
    Ok(name)
}

/// Reads a call of a function, or a name.
pub(crate) fn expr(alloc: Global, input: &mut TokenCursor<'_>) -> Result<SelectExpr, Or<u32>>
    ensures { ReadsPart sphinxql expr (the_sign signs.OpenParen ∷ []) IsExpr input.old result input.new }
{
    if input.is_followed(Keyword::Count, Sign::OpenParen) {
        let name = counting(alloc, input)?;
        return Ok(count_expr(name));
    }
    if input.is_followed(Keyword::Min, Sign::OpenParen) {
        return Ok(SelectExpr::Least(argument(alloc, input, Keyword::Min)?));
    }
    if input.is_followed(Keyword::Max, Sign::OpenParen) {
        return Ok(SelectExpr::Greatest(argument(alloc, input, Keyword::Max)?));
    }
    if input.is_followed(Keyword::Sum, Sign::OpenParen) {
        return Ok(SelectExpr::Sum(argument(alloc, input, Keyword::Sum)?));
    }
    if input.is_followed(Keyword::Weight, Sign::OpenParen) {
        no_argument(input, Keyword::Weight)?;
        return Ok(SelectExpr::Weight);
    }
    if input.is_followed(Keyword::GroupBy, Sign::OpenParen) {
        no_argument(input, Keyword::GroupBy)?;
        return Ok(SelectExpr::GroupBy);
    }
    Ok(SelectExpr::Column(input.name(alloc)?))
}
