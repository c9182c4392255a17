//! A SELECT from an index, part after part in the order of the text.

ghost use Rattle.ql_grammar.specs.steps.Grammar.{select};
ghost use Rattle.ql_grammar.specs.Alphabet.{sphinxql};
ghost use Rattle.token_grammar.specs.Reading.{ReadsPart};
ghost use Rattle.ql_grammar.specs.steps.GoingOn.{select_goes_on};
ghost use Rattle.ql_grammar.specs.Selects.{IsSelected};

use crate::conditions::conds;
use crate::cursor::TokenCursor;
use crate::part::listed;
use crate::select_items::Item;
use crate::select_parts::{facets, having, limit, options};
use crate::sorting::{group, order, within};
use ql_grammar::Keyword;
use ql_lex::Sign;
use ql_tree::Select;
use srch_base::Or;
use std::alloc::Global;

/// Reads what follows the keyword SELECT of a SELECT from an index.
pub(crate) fn select(alloc: Global, input: &mut TokenCursor<'_>) -> Result<Select, Or<u32>>
    ensures { ReadsPart sphinxql select select_goes_on IsSelected input.old result input.new }
{
    let items = listed::<Item>(alloc, input, Sign::Comma)?;
    input.keyword(Keyword::From)?;
    let index = input.name(alloc)?;
    let conds = conds(alloc, input)?;
    let group = group(alloc, input)?;
    let within = within(alloc, input)?;
    let having = having(alloc, input)?;
    let order = order(alloc, input)?;
    let limit = limit(input)?;
    let options = options(alloc, input)?;
    let facets = facets(alloc, input)?;
    Ok(Select {
        items,
        index,
        conds,
        group,
        within,
        having,
        order,
        limit,
        options,
        facets,
    })
}
