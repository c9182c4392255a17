//! Parts of the grammar as types: each has its expression, the classes of tokens with which it may go on, the meaning of its
//! texts and its reader. `listed` and `enclosed` read lists of any such part, and are proved once for all of them.

ghost use Rattle.std.specs.Prelude.{◌≡◌, ◌∷◌, [], true, pos, neg_ℤ};
ghost use Rattle.ql_grammar.specs.Alphabet.{sphinxql};
ghost use Rattle.ql_lex.specs.declared.token.Sign.TheVariants as signs;
ghost use Rattle.ql_grammar.specs.Classes.{the_sign};
ghost use Rattle.ql_grammar.specs.Terminals.{comma, name, sign, number, whole, enclosed};
ghost use Rattle.token_grammar.specs.Language.{listed, repeated};
ghost use Rattle.token_grammar.specs.Language.{many, seq, one};
ghost use Rattle.ql_grammar.specs.Parts.{IsEnclosed, IsSign, IsComma, IsName, IsNumber, IsWhole};
ghost use Rattle.token_grammar.specs.Values.{AreListed};
ghost use Rattle.token_grammar.specs.Reading.{ReadsPart};
ghost use Rattle.token_grammar.specs.Firsts.{may_follow};

use crate::cursor::TokenCursor;
use ql_lex::Sign;
use srch_base::{Items, Name, Or};
use std::alloc::Global;

/// A part of the grammar whose texts stand for values.
pub(crate) trait Part {
    ghost use Rattle.std.specs.Prelude.{List};
    ghost use Rattle.ql_lex.specs.Tokens.{Lexeme};
    ghost use Rattle.ql_grammar.specs.Classes.{Class};
    ghost use Rattle.token_grammar.specs.Language.{Re};

    /// What a text of the part stands for.
    type Value: Drop;

    /// The part, as the grammar has it.
    ghost grammar: { Re Class };

    /// The classes of tokens with which it may go on where it could also end.
    ghost goes_on: { List Class };

    /// These tokens stand for the value.
    ghost is: { Self.Value → List Lexeme → Type 0 };

    /// Reads the part, as far as it goes.
    fn read(alloc: Global, input: &mut TokenCursor<'_>) -> Result<Self::Value, Or<u32>>
        ensures { ReadsPart sphinxql grammar goes_on is input.old result input.new };
}

/// `n`
pub(crate) struct Number;

impl Part for Number {
    type Value = u64;

    ghost grammar = { number };

    ghost goes_on = { [] };

    ghost is = { IsNumber };

    fn read(_: Global, input: &mut TokenCursor<'_>) -> Result<u64, Or<u32>> {
        input.number()
    }
}

/// The number.
fn positive(n: u64) -> i128
    ensures { result ≡ pos n }
{
    i128::from(n)
}

/// The number with a `-` before it.
fn negative(n: u64) -> i128
    ensures { result ≡ neg_ℤ (pos n) }
{
    -i128::from(n)
}

/// A number, maybe after a `-`
pub(crate) struct Whole;

impl Part for Whole {
    type Value = i128;

    ghost grammar = { whole };

    ghost goes_on = { [] };

    ghost is = { IsWhole };

    fn read(_: Global, input: &mut TokenCursor<'_>) -> Result<i128, Or<u32>> {
        if input.takes_sign(Sign::Minus) {
            return Ok(negative(input.number()?));
        }
        Ok(positive(input.number()?))
    }
}

/// A name
pub(crate) struct AnyName;

impl Part for AnyName {
    type Value = Name;

    ghost grammar = { name };

    ghost goes_on = { [] };

    ghost is = { IsName };

    fn read(alloc: Global, input: &mut TokenCursor<'_>) -> Result<Name, Or<u32>> {
        input.name(alloc)
    }
}

/// Reads one part or more, with a sign between them.
pub(crate) fn listed<P: Part>(
    alloc: Global,
    input: &mut TokenCursor<'_>,
    sign: Sign,
) -> Result<Items<P::Value>, Or<u32>>
    requires { may_follow sphinxql P.goes_on (repeated (the_sign sign) P.grammar) (the_sign sign ∷ P.goes_on) ≡ true }
    ensures { ReadsPart sphinxql (listed (the_sign sign) P.grammar) (the_sign sign ∷ P.goes_on) (AreListed (IsSign sign) P.is) input.old result input.new }
{
    let mut list = Vec::new(alloc);
    list.push(P::read(alloc, input)?)?;
    'parts: while input.takes_sign(sign) {
        list.push(P::read(alloc, input)?)?;
    }
    Ok(Items::new(list))
}

/// Reads one part or more in parentheses, with commas between them.
pub(crate) fn enclosed<P: Part>(
    alloc: Global,
    input: &mut TokenCursor<'_>,
) -> Result<Items<P::Value>, Or<u32>>
    requires more { may_follow sphinxql P.goes_on (repeated comma P.grammar) (comma ∷ P.goes_on) ≡ true }
    requires closes { may_follow sphinxql (comma ∷ P.goes_on) (sign signs.CloseParen) [] ≡ true }
    ensures { ReadsPart sphinxql (enclosed (listed comma P.grammar)) [] (λ v. IsEnclosed (AreListed IsComma P.is v)) input.old result input.new }
{
    input.sign(Sign::OpenParen)?;
    let list = listed::<P>(alloc, input, Sign::Comma)?;
    input.sign(Sign::CloseParen)?;
    Ok(list)
}
