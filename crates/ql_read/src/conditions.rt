//! The conditions of a WHERE: MATCH, comparisons, IN and BETWEEN, with AND between them.

ghost use Rattle.std.specs.Prelude.{[], ◌∷◌};
ghost use Rattle.ql_grammar.specs.Alphabet.{sphinxql};
ghost use Rattle.ql_grammar.specs.declared.keyword.Keyword.TheVariants as keywords;
ghost use Rattle.ql_grammar.specs.Classes.{the_keyword};
ghost use Rattle.ql_grammar.specs.Terminals.{keyword, text, enclosed, whole};
ghost use Rattle.ql_grammar.specs.steps.Grammar.{wholes, cond, conds};
ghost use Rattle.token_grammar.specs.Language.{◌⨾◌, listed};
ghost use Rattle.ql_grammar.specs.Parts.{IsKeyword, IsComma, IsText, IsWhole, IsEnclosed};
ghost use Rattle.token_grammar.specs.Values.{◌then◌, AreListed, AreGiven};
ghost use Rattle.token_grammar.specs.Reading.{ReadsPart};
ghost use Rattle.ql_grammar.specs.Selects.{IsCond, AreConds};

use crate::comparisons::comparison;
use crate::cursor::TokenCursor;
use crate::part::{Part, Whole, enclosed};
use ql_grammar::Keyword;
use ql_lex::Sign;
use ql_tree::Cond;
use srch_base::{Items, Or, Text};
use std::alloc::Global;

/// Reads `MATCH(text)`.
fn matched(alloc: Global, input: &mut TokenCursor<'_>) -> Result<Text, Or<u32>>
    ensures { ReadsPart sphinxql (keyword keywords.Match ⨾ enclosed text) [] (λ query. IsKeyword keywords.Match then IsEnclosed (IsText query)) input.old result input.new }
{
    input.keyword(Keyword::Match)?;
    input.sign(Sign::OpenParen)?;
    let query = input.text(alloc)?;
    input.sign(Sign::CloseParen)?;
    Ok(query)
}

/// Reads `BETWEEN num AND num`.
fn between(alloc: Global, input: &mut TokenCursor<'_>) -> Result<(i128, i128), Or<u32>>
    ensures { ReadsPart sphinxql (keyword keywords.Between ⨾ whole ⨾ keyword keywords.And ⨾ whole) [] (λ pair. IsKeyword keywords.Between then IsWhole pair.0 then IsKeyword keywords.And then IsWhole pair.1) input.old result input.new }
{
    input.keyword(Keyword::Between)?;
    let low = Whole::read(alloc, input)?;
    input.keyword(Keyword::And)?;
    let high = Whole::read(alloc, input)?;
    Ok((low, high))
}

/// Reads `IN (num, ..)`.
fn among(alloc: Global, input: &mut TokenCursor<'_>) -> Result<Items<i128>, Or<u32>>
    ensures { ReadsPart sphinxql (keyword keywords.In ⨾ wholes) [] (λ values. IsKeyword keywords.In then IsEnclosed (AreListed IsComma IsWhole values)) input.old result input.new }
{
    input.keyword(Keyword::In)?;
    let values = enclosed::<Whole>(alloc, input)?;
    Ok(values)
}

fn cond(alloc: Global, input: &mut TokenCursor<'_>) -> Result<Cond, Or<u32>>
    ensures { ReadsPart sphinxql cond [] IsCond input.old result input.new }
{
    if input.is_keyword(Keyword::Match) {
        return Ok(Cond::Match(matched(alloc, input)?));
    }
    let name = input.name(alloc)?;
    if input.is_keyword(Keyword::Between) {
        let (low, high) = between(alloc, input)?;
        return Ok(Cond::Between { name, low, high });
    }
    if input.takes_keyword(Keyword::Not) {
        let values = among(alloc, input)?;
        return Ok(Cond::Among {
            name,
            values,
            negated: true,
        });
    }
    if input.is_keyword(Keyword::In) {
        let values = among(alloc, input)?;
        return Ok(Cond::Among {
            name,
            values,
            negated: false,
        });
    }
    let op = comparison(input)?;
    let value = Whole::read(alloc, input)?;
    Ok(Cond::Compare { name, op, value })
}

/// Reads one condition or more, with `AND` between them.
fn all_conds(alloc: Global, input: &mut TokenCursor<'_>) -> Result<Items<Cond>, Or<u32>>
    ensures { ReadsPart sphinxql (listed (the_keyword keywords.And) cond) (the_keyword keywords.And ∷ []) (AreListed (IsKeyword keywords.And) IsCond) input.old result input.new }
{
    let mut conds = Vec::new(alloc);
    conds.push(cond(alloc, input)?)?;
    'conds: while input.takes_keyword(Keyword::And) {
        conds.push(cond(alloc, input)?)?;
    }
    Ok(Items::new(conds))
}

/// Reads WHERE, if it is there.
pub(crate) fn conds(alloc: Global, input: &mut TokenCursor<'_>) -> Result<Items<Cond>, Or<u32>>
    ensures { ReadsPart sphinxql conds (the_keyword keywords.Where ∷ the_keyword keywords.And ∷ []) (AreGiven AreConds) input.old result input.new }
{
    if input.takes_keyword(Keyword::Where) {
        let conds = all_conds(alloc, input)?;
        return Ok(conds);
    }
    Ok(Items::new(Vec::new(alloc)))
}
