//! Sort keys and their directions: GROUP BY, WITHIN GROUP ORDER BY and ORDER BY.

ghost use Rattle.std.specs.Prelude.{[], ◌∷◌};
ghost use Rattle.ql_grammar.specs.Alphabet.{sphinxql};
ghost use Rattle.ql_lex.specs.declared.token.Sign.TheVariants as signs;
ghost use Rattle.ql_grammar.specs.declared.keyword.Keyword.TheVariants as keywords;
ghost use Rattle.ql_grammar.specs.Classes.{the_keyword, the_sign};
ghost use Rattle.ql_grammar.specs.Terminals.{name, comma};
ghost use Rattle.ql_grammar.specs.steps.Grammar.{weight, count, direction, key, inner_key, group_key, group, within, order};
ghost use Rattle.token_grammar.specs.Language.{◌∣◌};
ghost use Rattle.token_grammar.specs.Values.{IsGiven, AreGiven};
ghost use Rattle.token_grammar.specs.Reading.{ReadsPart, TakesPart};
ghost use Rattle.ql_grammar.specs.steps.GoingOn.{key_goes_on};
ghost use Rattle.ql_grammar.specs.Selects.{IsSort, IsInnerSort, IsGroupSort, IsDirection, IsKeyBy, IsGroup, AreInnerKeys, AreKeys};

use crate::calls::{count_all, no_argument};
use crate::cursor::TokenCursor;
use crate::part::{Part, listed};
use ql_grammar::Keyword;
use ql_lex::Sign;
use ql_tree::{SortKey, SortName};
use srch_base::{Items, Name, Or};
use std::alloc::Global;

/// Reads what rows are sorted by.
fn sort(alloc: Global, input: &mut TokenCursor<'_>) -> Result<SortName, Or<u32>>
    ensures { ReadsPart sphinxql (weight ∣ count ∣ name) (the_sign signs.OpenParen ∷ []) IsSort input.old result input.new }
{
    if input.is_followed(Keyword::Weight, Sign::OpenParen) {
        no_argument(input, Keyword::Weight)?;
        return Ok(SortName::Weight);
    }
    if input.is_followed(Keyword::Count, Sign::OpenParen) {
        count_all(input)?;
        return Ok(SortName::CountAll);
    }
    Ok(SortName::Column(input.name(alloc)?))
}

/// Reads what the rows of a group are sorted by.
fn inner_sort(alloc: Global, input: &mut TokenCursor<'_>) -> Result<SortName, Or<u32>>
    ensures { ReadsPart sphinxql (weight ∣ name) (the_sign signs.OpenParen ∷ []) IsInnerSort input.old result input.new }
{
    if input.is_followed(Keyword::Weight, Sign::OpenParen) {
        no_argument(input, Keyword::Weight)?;
        return Ok(SortName::Weight);
    }
    Ok(SortName::Column(input.name(alloc)?))
}

/// Reads what groups are sorted by.
pub(crate) fn group_sort(alloc: Global, input: &mut TokenCursor<'_>) -> Result<SortName, Or<u32>>
    ensures { ReadsPart sphinxql (count ∣ name) (the_sign signs.OpenParen ∷ []) IsGroupSort input.old result input.new }
{
    if input.is_followed(Keyword::Count, Sign::OpenParen) {
        count_all(input)?;
        return Ok(SortName::CountAll);
    }
    Ok(SortName::Column(input.name(alloc)?))
}

/// Reads a direction, if it is there.
fn direction(input: &mut TokenCursor<'_>) -> Option<bool>
    ensures { TakesPart sphinxql direction (the_keyword keywords.Asc ∷ the_keyword keywords.Desc ∷ []) (IsGiven IsDirection result) input.old input.new }
{
    if input.takes_keyword(Keyword::Asc) {
        return Some(false);
    }
    if input.takes_keyword(Keyword::Desc) {
        return Some(true);
    }
    None
}

/// `(name | WEIGHT() | COUNT(*)) [ASC | DESC]`
pub(crate) struct Key;

impl Part for Key {
    type Value = SortKey;

    ghost grammar = { key };

    ghost goes_on = { key_goes_on };

    ghost is = { IsKeyBy IsSort };

    fn read(alloc: Global, input: &mut TokenCursor<'_>) -> Result<SortKey, Or<u32>> {
        let by = sort(alloc, input)?;
        let descending = direction(input);
        Ok(SortKey { by, descending })
    }
}

/// `(name | WEIGHT()) [ASC | DESC]`
pub(crate) struct InnerKey;

impl Part for InnerKey {
    type Value = SortKey;

    ghost grammar = { inner_key };

    ghost goes_on = { key_goes_on };

    ghost is = { IsKeyBy IsInnerSort };

    fn read(alloc: Global, input: &mut TokenCursor<'_>) -> Result<SortKey, Or<u32>> {
        let by = inner_sort(alloc, input)?;
        let descending = direction(input);
        Ok(SortKey { by, descending })
    }
}

/// Reads what the groups of a facet are sorted by.
pub(crate) fn group_key(alloc: Global, input: &mut TokenCursor<'_>) -> Result<SortKey, Or<u32>>
    ensures { ReadsPart sphinxql group_key key_goes_on (IsKeyBy IsGroupSort) input.old result input.new }
{
    let by = group_sort(alloc, input)?;
    let descending = direction(input);
    Ok(SortKey { by, descending })
}

/// Reads GROUP BY, if it is there.
pub(crate) fn group(alloc: Global, input: &mut TokenCursor<'_>) -> Result<Option<Name>, Or<u32>>
    ensures { ReadsPart sphinxql group (the_keyword keywords.Group ∷ []) (IsGiven IsGroup) input.old result input.new }
{
    if input.is_keyword(Keyword::Group) {
        input.two_keywords(Keyword::Group, Keyword::By)?;
        return Ok(Some(input.name(alloc)?));
    }
    Ok(None)
}

/// Reads WITHIN GROUP ORDER BY, if it is there.
pub(crate) fn within(alloc: Global, input: &mut TokenCursor<'_>) -> Result<Items<SortKey>, Or<u32>>
    ensures { ReadsPart sphinxql within (the_keyword keywords.Within ∷ comma ∷ key_goes_on) (AreGiven AreInnerKeys) input.old result input.new }
{
    if input.is_keyword(Keyword::Within) {
        input.two_keywords(Keyword::Within, Keyword::Group)?;
        input.two_keywords(Keyword::Order, Keyword::By)?;
        let keys = listed::<InnerKey>(alloc, input, Sign::Comma)?;
        return Ok(keys);
    }
    Ok(Items::new(Vec::new(alloc)))
}

/// Reads ORDER BY, if it is there.
pub(crate) fn order(alloc: Global, input: &mut TokenCursor<'_>) -> Result<Items<SortKey>, Or<u32>>
    ensures { ReadsPart sphinxql order (the_keyword keywords.Order ∷ comma ∷ key_goes_on) (AreGiven AreKeys) input.old result input.new }
{
    if input.is_keyword(Keyword::Order) {
        input.two_keywords(Keyword::Order, Keyword::By)?;
        let keys = listed::<Key>(alloc, input, Sign::Comma)?;
        return Ok(keys);
    }
    Ok(Items::new(Vec::new(alloc)))
}
