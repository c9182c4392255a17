//! INSERT and REPLACE: an index, columns or none, and rows of values.

ghost use Rattle.std.specs.Prelude.{[], ◌∷◌};
ghost use Rattle.ql_grammar.specs.Alphabet.{sphinxql};
ghost use Rattle.ql_lex.specs.declared.token.Sign.TheVariants as signs;
ghost use Rattle.ql_grammar.specs.declared.keyword.Keyword.TheVariants as keywords;
ghost use Rattle.ql_grammar.specs.Classes.{the_sign};
ghost use Rattle.ql_grammar.specs.Terminals.{comma, enclosed, name, keyword};
ghost use Rattle.ql_grammar.specs.steps.Grammar.{insert, row, val};
ghost use Rattle.token_grammar.specs.Language.{◌∣◌, listed, optional};
ghost use Rattle.token_grammar.specs.Values.{IsGiven};
ghost use Rattle.token_grammar.specs.Reading.{ReadsPart};
ghost use Rattle.ql_grammar.specs.Statements.{AreColumns, IsPut, IsRow, IsStatement, IsVal};

use crate::cursor::TokenCursor;
use crate::part::{AnyName, Part, Whole, enclosed, listed};
use ql_grammar::Keyword;
use ql_lex::Sign;
use ql_tree::{Statement, Val};
use srch_base::{Items, Name, Or};
use std::alloc::Global;

/// A number or a text
struct Value;

impl Part for Value {
    type Value = Val;

    ghost grammar = { val };

    ghost goes_on = { [] };

    ghost is = { IsVal };

    fn read(alloc: Global, input: &mut TokenCursor<'_>) -> Result<Val, Or<u32>> {
        if input.is_text() {
            return Ok(Val::Text(input.text(alloc)?));
        }
        let number = Whole::read(alloc, input)?;
        Ok(Val::Number(number))
    }
}

/// The values of a row, in parentheses
struct Row;

impl Part for Row {
    type Value = Items<Val>;

    ghost grammar = { row };

    ghost goes_on = { [] };

    ghost is = { IsRow };

    fn read(alloc: Global, input: &mut TokenCursor<'_>) -> Result<Items<Val>, Or<u32>> {
        enclosed::<Value>(alloc, input)
    }
}

/// Reads `INSERT` or `REPLACE`, and answers whether it is the second.
fn replaces(input: &mut TokenCursor<'_>) -> Result<bool, Or<u32>>
    ensures { ReadsPart sphinxql (keyword keywords.Replace ∣ keyword keywords.Insert) [] IsPut input.old result input.new }
{
    if input.takes_keyword(Keyword::Replace) {
        return Ok(true);
    }
    input.keyword(Keyword::Insert)?;
    Ok(false)
}

/// Reads the names of the columns, if they are given.
fn columns(alloc: Global, input: &mut TokenCursor<'_>) -> Result<Option<Items<Name>>, Or<u32>>
    ensures { ReadsPart sphinxql (optional (enclosed (listed comma name))) (the_sign signs.OpenParen ∷ []) (IsGiven AreColumns) input.old result input.new }
{
    if input.is_sign(Sign::OpenParen) {
        let names = enclosed::<AnyName>(alloc, input)?;
        return Ok(Some(names));
    }
    Ok(None)
}

/// Reads an INSERT or a REPLACE.
pub(crate) fn insert(alloc: Global, input: &mut TokenCursor<'_>) -> Result<Statement, Or<u32>>
    ensures { ReadsPart sphinxql insert (the_sign signs.Comma ∷ []) IsStatement input.old result input.new }
{
    let replace = replaces(input)?;
    input.keyword(Keyword::Into)?;
    let index = input.name(alloc)?;
    let columns = columns(alloc, input)?;
    input.keyword(Keyword::Values)?;
    let rows = listed::<Row>(alloc, input, Sign::Comma)?;
    Ok(Statement::Insert {
        replace,
        index,
        columns,
        rows,
    })
}
