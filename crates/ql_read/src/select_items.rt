//! The items of a SELECT, each with an alias or none.

ghost use Rattle.std.specs.Prelude.{[], ◌∷◌};
ghost use Rattle.ql_grammar.specs.Alphabet.{sphinxql};
ghost use Rattle.ql_lex.specs.declared.token.Sign.TheVariants as signs;
ghost use Rattle.ql_grammar.specs.declared.keyword.Keyword.TheVariants as keywords;
ghost use Rattle.ql_grammar.specs.Classes.{the_keyword, any_name, the_sign};
ghost use Rattle.ql_grammar.specs.steps.Grammar.{alias, item};
ghost use Rattle.token_grammar.specs.Language.{optional};
ghost use Rattle.token_grammar.specs.Values.{IsGiven};
ghost use Rattle.token_grammar.specs.Reading.{ReadsPart};
ghost use Rattle.ql_grammar.specs.steps.GoingOn.{item_goes_on};
ghost use Rattle.ql_grammar.specs.Selects.{IsAlias, IsItem};

use crate::calls::expr;
use crate::cursor::TokenCursor;
use crate::part::Part;
use ql_grammar::Keyword;
use ql_lex::Sign;
use ql_tree::SelectItem;
use srch_base::{Name, Or};
use std::alloc::Global;

/// Reads an item's name in the answer, if it is there.
fn alias(alloc: Global, input: &mut TokenCursor<'_>) -> Result<Option<Name>, Or<u32>>
    ensures { ReadsPart sphinxql (optional alias) (the_keyword keywords.As ∷ any_name ∷ []) (IsGiven IsAlias) input.old result input.new }
{
    if input.takes_keyword(Keyword::As) {
        return Ok(Some(input.name(alloc)?));
    }
    if input.is_name() {
        return Ok(Some(input.name(alloc)?));
    }
    Ok(None)
}

/// `* | expr [[AS] name]`
pub(crate) struct Item;

impl Part for Item {
    type Value = SelectItem;

    ghost grammar = { item };

    ghost goes_on = { item_goes_on };

    ghost is = { IsItem };

    fn read(alloc: Global, input: &mut TokenCursor<'_>) -> Result<SelectItem, Or<u32>> {
        if input.takes_sign(Sign::Star) {
            return Ok(SelectItem::All);
        }
        let expr = expr(alloc, input)?;
        let alias = alias(alloc, input)?;
        Ok(SelectItem::One { expr, alias })
    }
}
