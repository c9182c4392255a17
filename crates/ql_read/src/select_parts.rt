//! What may follow the conditions of a SELECT: HAVING, LIMIT, OPTION and FACET. Each is none where its keyword isn't next.

ghost use Rattle.std.specs.Prelude.{◌≡◌, [], ◌∷◌};
ghost use Rattle.ql_grammar.specs.Alphabet.{sphinxql};
ghost use Rattle.ql_lex.specs.declared.token.Sign.TheVariants as signs;
ghost use Rattle.ql_grammar.specs.declared.keyword.Keyword.TheVariants as keywords;
ghost use Rattle.ql_grammar.specs.Classes.{the_keyword, the_sign};
ghost use Rattle.ql_grammar.specs.Terminals.{name, number, text, comma, enclosed, two_keywords};
ghost use Rattle.ql_grammar.specs.steps.Grammar.{having, having_part, limit, field_weight, argument, option_value, option, options, facet, facet_parts, group_key};
ghost use Rattle.token_grammar.specs.Language.{◌⨾◌, ◌∣◌, listed, optional};
ghost use Rattle.token_grammar.specs.Language.{one, many};
ghost use Rattle.token_grammar.specs.Values.{IsGiven, AreGiven, AreInRow};
ghost use Rattle.token_grammar.specs.Reading.{ReadsPart};
ghost use Rattle.ql_grammar.specs.steps.GoingOn.{key_goes_on, limit_goes_on, facet_goes_on};
ghost use Rattle.ql_grammar.specs.steps.Selecting.{named_value};
ghost use Rattle.ql_grammar.specs.Selects.{IsHaving, IsHavingPart, IsSecond, IsLimit, IsFieldWeight, IsArgument, IsOptionValue, IsOption, AreOptions, IsFacetOrder, IsFacet, IsFaceted};

use crate::comparisons::comparison;
use crate::cursor::TokenCursor;
use crate::part::{Part, Whole, enclosed, listed};
use crate::sorting::{group_key, group_sort};
use ql_grammar::Keyword;
use ql_lex::Sign;
use ql_tree::{FacetPart, Having, LimitPart, OptionValue, SelectOption, SortKey};
use srch_base::{Items, Name, Or, Text};
use std::alloc::Global;

fn having_cond(alloc: Global, input: &mut TokenCursor<'_>) -> Result<Having, Or<u32>>
    ensures { ReadsPart sphinxql having [] IsHaving input.old result input.new }
{
    let left = group_sort(alloc, input)?;
    let op = comparison(input)?;
    let value = Whole::read(alloc, input)?;
    Ok(Having { left, op, value })
}

/// Reads HAVING, if it is there.
pub(crate) fn having(alloc: Global, input: &mut TokenCursor<'_>) -> Result<Option<Having>, Or<u32>>
    ensures { ReadsPart sphinxql having_part (the_keyword keywords.Having ∷ []) (IsGiven IsHavingPart) input.old result input.new }
{
    if input.takes_keyword(Keyword::Having) {
        return Ok(Some(having_cond(alloc, input)?));
    }
    Ok(None)
}

fn second_number(input: &mut TokenCursor<'_>) -> Result<Option<u64>, Or<u32>>
    ensures { ReadsPart sphinxql (optional (one comma ⨾ number)) (comma ∷ []) (IsGiven IsSecond) input.old result input.new }
{
    if input.takes_sign(Sign::Comma) {
        return Ok(Some(input.number()?));
    }
    Ok(None)
}

/// Reads LIMIT, if it is there.
pub(crate) fn limit(input: &mut TokenCursor<'_>) -> Result<Option<LimitPart>, Or<u32>>
    ensures { ReadsPart sphinxql (optional limit) limit_goes_on (IsGiven IsLimit) input.old result input.new }
{
    if input.takes_keyword(Keyword::Limit) {
        let first = input.number()?;
        let second = second_number(input)?;
        return Ok(Some(LimitPart { first, second }));
    }
    Ok(None)
}

/// `name = n`
struct FieldWeight;

impl Part for FieldWeight {
    type Value = (Name, u64);

    ghost grammar = { field_weight };

    ghost goes_on = { [] };

    ghost is = { IsFieldWeight };

    fn read(alloc: Global, input: &mut TokenCursor<'_>) -> Result<(Name, u64), Or<u32>> {
        let field = input.name(alloc)?;
        input.sign(Sign::Equal)?;
        let weight = input.number()?;
        Ok((field, weight))
    }
}

/// Reads a text in parentheses, if it is there.
fn argument(alloc: Global, input: &mut TokenCursor<'_>) -> Result<Option<Text>, Or<u32>>
    ensures { ReadsPart sphinxql argument (the_sign signs.OpenParen ∷ []) (IsGiven IsArgument) input.old result input.new }
{
    if input.takes_sign(Sign::OpenParen) {
        let text = input.text(alloc)?;
        input.sign(Sign::CloseParen)?;
        return Ok(Some(text));
    }
    Ok(None)
}

/// The name alone, or its call.
fn named_value(name: Name, argument: Option<Text>) -> OptionValue
    ensures { result ≡ named_value name argument }
{
    match argument {
        None => OptionValue::Name(name),
        Some(text) => OptionValue::Call { name, text },
    }
}

/// Reads a name, and what it is called with.
fn name_or_call(alloc: Global, input: &mut TokenCursor<'_>) -> Result<OptionValue, Or<u32>>
    ensures { ReadsPart sphinxql (name ⨾ argument) (the_sign signs.OpenParen ∷ []) IsOptionValue input.old result input.new }
{
    let name = input.name(alloc)?;
    let argument = argument(alloc, input)?;
    Ok(named_value(name, argument))
}

fn option_value(alloc: Global, input: &mut TokenCursor<'_>) -> Result<OptionValue, Or<u32>>
    ensures { ReadsPart sphinxql option_value (the_sign signs.OpenParen ∷ []) IsOptionValue input.old result input.new }
{
    if input.is_name() {
        return name_or_call(alloc, input);
    }
    if input.is_number() {
        return Ok(OptionValue::Number(input.number()?));
    }
    if input.is_text() {
        return Ok(OptionValue::Text(input.text(alloc)?));
    }
    Ok(OptionValue::List(enclosed::<FieldWeight>(alloc, input)?))
}

/// `name = value`
struct OptionPart;

impl Part for OptionPart {
    type Value = SelectOption;

    ghost grammar = { option };

    ghost goes_on = { the_sign signs.OpenParen ∷ [] };

    ghost is = { IsOption };

    fn read(alloc: Global, input: &mut TokenCursor<'_>) -> Result<SelectOption, Or<u32>> {
        let name = input.name(alloc)?;
        input.sign(Sign::Equal)?;
        let value = option_value(alloc, input)?;
        Ok(SelectOption { name, value })
    }
}

/// Reads OPTION, if it is there.
pub(crate) fn options(
    alloc: Global,
    input: &mut TokenCursor<'_>,
) -> Result<Items<SelectOption>, Or<u32>>
    ensures { ReadsPart sphinxql options (the_keyword keywords.Option ∷ comma ∷ the_sign signs.OpenParen ∷ []) (AreGiven AreOptions) input.old result input.new }
{
    if input.takes_keyword(Keyword::Option) {
        let options = listed::<OptionPart>(alloc, input, Sign::Comma)?;
        return Ok(options);
    }
    Ok(Items::new(Vec::new(alloc)))
}

fn facet_order(alloc: Global, input: &mut TokenCursor<'_>) -> Result<Option<SortKey>, Or<u32>>
    ensures { ReadsPart sphinxql (optional (two_keywords keywords.Order keywords.By ⨾ group_key)) (the_keyword keywords.Order ∷ key_goes_on) (IsGiven IsFacetOrder) input.old result input.new }
{
    if input.is_keyword(Keyword::Order) {
        input.two_keywords(Keyword::Order, Keyword::By)?;
        return Ok(Some(group_key(alloc, input)?));
    }
    Ok(None)
}

/// Reads what follows the keyword FACET.
fn facet_parts(alloc: Global, input: &mut TokenCursor<'_>) -> Result<FacetPart, Or<u32>>
    ensures { ReadsPart sphinxql facet_parts facet_goes_on IsFaceted input.old result input.new }
{
    let column = input.name(alloc)?;
    let order = facet_order(alloc, input)?;
    let limit = limit(input)?;
    Ok(FacetPart {
        column,
        order,
        limit,
    })
}

/// Reads the facets.
pub(crate) fn facets(
    alloc: Global,
    input: &mut TokenCursor<'_>,
) -> Result<Items<FacetPart>, Or<u32>>
    ensures { ReadsPart sphinxql (many facet) (the_keyword keywords.Facet ∷ facet_goes_on) (AreInRow IsFacet) input.old result input.new }
{
    let mut facets = Vec::new(alloc);
    'facets: while input.takes_keyword(Keyword::Facet) {
        facets.push(facet_parts(alloc, input)?)?;
    }
    Ok(Items::new(facets))
}
