//! What may follow the keyword SELECT: a system variable, `DATABASE()`, or the items of a SELECT from an index. DATABASE is a
//! name too where no `(` follows.

ghost use Rattle.std.specs.Prelude.{[], ◌∷◌};
ghost use Rattle.ql_grammar.specs.Alphabet.{sphinxql};
ghost use Rattle.ql_grammar.specs.declared.keyword.Keyword.TheVariants as keywords;
ghost use Rattle.ql_grammar.specs.Classes.{the_keyword};
ghost use Rattle.ql_grammar.specs.Terminals.{number, keyword};
ghost use Rattle.ql_grammar.specs.steps.Grammar.{select, select_database, select_variable, selects};
ghost use Rattle.token_grammar.specs.Language.{◌⨾◌, ◌∣◌, optional};
ghost use Rattle.token_grammar.specs.Values.{IsGiven};
ghost use Rattle.token_grammar.specs.Reading.{ReadsPart};
ghost use Rattle.ql_grammar.specs.steps.GoingOn.{select_goes_on};
ghost use Rattle.ql_grammar.specs.Statements.{IsRowLimit, IsStatement};
ghost use Rattle.ql_grammar.specs.steps.Stating.{IsSelection};

use crate::cursor::TokenCursor;
use crate::selecting::select;
use ql_grammar::Keyword;
use ql_lex::Sign;
use ql_tree::Statement;
use srch_base::Or;
use std::alloc::Global;

/// Reads `LIMIT n`, if it is there.
fn row_limit(input: &mut TokenCursor<'_>) -> Result<Option<u64>, Or<u32>>
    ensures { ReadsPart sphinxql (optional (keyword keywords.Limit ⨾ number)) (the_keyword keywords.Limit ∷ []) (IsGiven IsRowLimit) input.old result input.new }
{
    if input.is_keyword(Keyword::Limit) {
        input.keyword(Keyword::Limit)?;
        return Ok(Some(input.number()?));
    }
    Ok(None)
}

/// Reads what follows the keyword SELECT.
fn selection(alloc: Global, input: &mut TokenCursor<'_>) -> Result<Statement, Or<u32>>
    ensures { ReadsPart sphinxql (select_variable ∣ select_database ∣ select) select_goes_on IsSelection input.old result input.new }
{
    if input.is_variable() {
        let name = input.variable(alloc)?;
        let limit = row_limit(input)?;
        return Ok(Statement::SelectVar { name, limit });
    }
    if input.is_followed(Keyword::Database, Sign::OpenParen) {
        input.keyword(Keyword::Database)?;
        input.sign(Sign::OpenParen)?;
        input.sign(Sign::CloseParen)?;
        return Ok(Statement::SelectDatabase);
    }
    let select = select(alloc, input)?;
    Ok(Statement::Select(select))
}

/// Reads a SELECT.
pub(crate) fn selects(alloc: Global, input: &mut TokenCursor<'_>) -> Result<Statement, Or<u32>>
    ensures { ReadsPart sphinxql selects select_goes_on IsStatement input.old result input.new }
{
    input.keyword(Keyword::Select)?;
    let rest = selection(alloc, input)?;
    Ok(rest)
}
