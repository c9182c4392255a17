//! SET and its forms. GLOBAL and SESSION may be the variable that is set, so the token after them decides.

ghost use Rattle.std.specs.Prelude.{[]};
ghost use Rattle.ql_lex.specs.declared.token.Sign.TheVariants as signs;
ghost use Rattle.ql_grammar.specs.Classes.{the_sign, the_keyword};
ghost use Rattle.ql_grammar.specs.Alphabet.{sphinxql};
ghost use Rattle.ql_grammar.specs.Terminals.{sysvar, target_name};
ghost use Rattle.ql_grammar.specs.steps.Grammar.{assignment, plain, scoped, set, set_rest, setting};
ghost use Rattle.token_grammar.specs.Language.{◌∣◌};
ghost use Rattle.token_grammar.specs.Reading.{ReadsPart};
ghost use Rattle.token_grammar.specs.steps.Progress.{IsLeading};
ghost use Rattle.ql_grammar.specs.Statements.{IsPlain, IsSetting, IsStatement, IsTarget};
ghost use Rattle.ql_grammar.specs.steps.Stating.{IsAssignment, IsSetRest};

use crate::cursor::TokenCursor;
use crate::part::{Part, Whole};
use ql_grammar::Keyword;
use ql_lex::Sign;
use ql_tree::{Plain, Scope, SetValue, Statement, Target};
use srch_base::Or;
use std::alloc::Global;

/// Reads a name or a text.
fn plain(alloc: Global, input: &mut TokenCursor<'_>) -> Result<Plain, Or<u32>>
    ensures { ReadsPart sphinxql plain [] IsPlain input.old result input.new }
{
    if input.is_text() {
        return Ok(Plain::Text(input.text(alloc)?));
    }
    Ok(Plain::Name(input.name(alloc)?))
}

/// Reads the variable that is set.
fn target(alloc: Global, input: &mut TokenCursor<'_>) -> Result<Target, Or<u32>>
    ensures { ReadsPart sphinxql (sysvar ∣ target_name) [] IsTarget input.old result input.new }
{
    if input.is_variable() {
        return Ok(Target::Var(input.variable(alloc)?));
    }
    Ok(Target::Name(input.target_name(alloc)?))
}

/// Reads what a variable is set to.
fn setting(alloc: Global, input: &mut TokenCursor<'_>) -> Result<SetValue, Or<u32>>
    ensures { ReadsPart sphinxql setting [] IsSetting input.old result input.new }
{
    if input.takes_keyword(Keyword::Null) {
        return Ok(SetValue::Null);
    }
    if input.is_text() {
        return Ok(SetValue::Text(input.text(alloc)?));
    }
    if input.is_name() {
        return Ok(SetValue::Name(input.name(alloc)?));
    }
    let number = Whole::read(alloc, input)?;
    Ok(SetValue::Number(number))
}

/// Reads a variable and what it is set to.
fn assignment(alloc: Global, input: &mut TokenCursor<'_>) -> Result<(Target, SetValue), Or<u32>>
    ensures { ReadsPart sphinxql assignment [] IsAssignment input.old result input.new }
{
    let target = target(alloc, input)?;
    input.sign(Sign::Equal)?;
    let value = setting(alloc, input)?;
    Ok((target, value))
}

/// Whether a keyword is next, and is not itself the name that is set.
fn leads(input: &TokenCursor<'_>, keyword: Keyword) -> bool
    ensures { IsLeading sphinxql (the_keyword keyword) (the_sign signs.Equal) input.now result }
{
    if input.is_keyword(keyword) {
        !input.is_followed(keyword, Sign::Equal)
    } else {
        false
    }
}

/// Reads a scope, if there is one, and an assignment.
fn scoped(alloc: Global, input: &mut TokenCursor<'_>) -> Result<Statement, Or<u32>>
    ensures { ReadsPart sphinxql scoped [] IsSetRest input.old result input.new }
{
    if leads(input, Keyword::Global) {
        input.keyword(Keyword::Global)?;
        let set = assignment(alloc, input)?;
        return Ok(Statement::SetOther {
            scope: Scope::Global,
            target: set.0,
            value: set.1,
        });
    }
    if leads(input, Keyword::Session) {
        input.keyword(Keyword::Session)?;
        let set = assignment(alloc, input)?;
        return Ok(Statement::SetOther {
            scope: Scope::Session,
            target: set.0,
            value: set.1,
        });
    }
    let set = assignment(alloc, input)?;
    Ok(Statement::SetOther {
        scope: Scope::Absent,
        target: set.0,
        value: set.1,
    })
}

/// Reads what follows the keyword SET.
fn set_rest(alloc: Global, input: &mut TokenCursor<'_>) -> Result<Statement, Or<u32>>
    ensures { ReadsPart sphinxql set_rest [] IsSetRest input.old result input.new }
{
    if input.takes_keyword(Keyword::Autocommit) {
        input.sign(Sign::Equal)?;
        return Ok(Statement::SetAutocommit(input.number()?));
    }
    if input.takes_keyword(Keyword::Names) {
        return Ok(Statement::SetNames(plain(alloc, input)?));
    }
    let other = scoped(alloc, input)?;
    Ok(other)
}

/// Reads a SET.
pub(crate) fn set(alloc: Global, input: &mut TokenCursor<'_>) -> Result<Statement, Or<u32>>
    ensures { ReadsPart sphinxql set [] IsStatement input.old result input.new }
{
    input.keyword(Keyword::Set)?;
    let rest = set_rest(alloc, input)?;
    Ok(rest)
}
