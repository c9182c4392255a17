//! DELETE, of one document or of several by their ids.

ghost use Rattle.std.specs.Prelude.{[]};
ghost use Rattle.ql_grammar.specs.Alphabet.{sphinxql};
ghost use Rattle.ql_grammar.specs.steps.Grammar.{ids, delete};
ghost use Rattle.token_grammar.specs.Reading.{ReadsPart};
ghost use Rattle.ql_grammar.specs.Statements.{AreIds, IsStatement};

use crate::cursor::TokenCursor;
use crate::part::{Number, enclosed};
use ql_grammar::Keyword;
use ql_lex::Sign;
use ql_tree::{Ids, Statement};
use srch_base::Or;
use std::alloc::Global;

fn ids(alloc: Global, input: &mut TokenCursor<'_>) -> Result<Ids, Or<u32>>
    ensures { ReadsPart sphinxql ids [] AreIds input.old result input.new }
{
    if input.takes_sign(Sign::Equal) {
        return Ok(Ids::One(input.number()?));
    }
    input.keyword(Keyword::In)?;
    Ok(Ids::Several(enclosed::<Number>(alloc, input)?))
}

/// Reads a DELETE.
pub(crate) fn delete(alloc: Global, input: &mut TokenCursor<'_>) -> Result<Statement, Or<u32>>
    ensures { ReadsPart sphinxql delete [] IsStatement input.old result input.new }
{
    input.two_keywords(Keyword::Delete, Keyword::From)?;
    let index = input.name(alloc)?;
    input.two_keywords(Keyword::Where, Keyword::Id)?;
    let ids = ids(alloc, input)?;
    Ok(Statement::Delete { index, ids })
}
