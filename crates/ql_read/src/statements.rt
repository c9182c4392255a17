//! A statement, by its first keyword. INSERT and REPLACE come last, so a token with which no statement begins is refused there.

ghost use Rattle.ql_grammar.specs.steps.Grammar.{statement};
ghost use Rattle.ql_grammar.specs.Alphabet.{sphinxql};
ghost use Rattle.token_grammar.specs.Reading.{ReadsPart};
ghost use Rattle.ql_grammar.specs.steps.GoingOn.{select_goes_on};
ghost use Rattle.ql_grammar.specs.Statements.{IsStatement};

use crate::commands::{
    begin, commit, describe, flush, optimize, rollback, show, start_transaction, truncate,
};
use crate::cursor::TokenCursor;
use crate::delete::delete;
use crate::insert::insert;
use crate::selects::selects;
use crate::settings::set;
use ql_grammar::Keyword;
use ql_tree::Statement;
use srch_base::Or;
use std::alloc::Global;

/// Reads a statement, by its first keyword.
pub(crate) fn statement(alloc: Global, input: &mut TokenCursor<'_>) -> Result<Statement, Or<u32>>
    ensures { ReadsPart sphinxql statement select_goes_on IsStatement input.old result input.new }
{
    if input.is_keyword(Keyword::Select) {
        return selects(alloc, input);
    }
    if input.is_keyword(Keyword::Delete) {
        return delete(alloc, input);
    }
    if input.is_keyword(Keyword::Set) {
        return set(alloc, input);
    }
    if input.is_keyword(Keyword::Show) {
        return show(alloc, input);
    }
    if input.is_keyword(Keyword::Flush) {
        return flush(alloc, input);
    }
    if input.is_keyword(Keyword::Begin) {
        return begin(input);
    }
    if input.is_keyword(Keyword::Start) {
        return start_transaction(input);
    }
    if input.is_keyword(Keyword::Commit) {
        return commit(input);
    }
    if input.is_keyword(Keyword::Rollback) {
        return rollback(input);
    }
    if input.is_keyword(Keyword::Optimize) {
        return optimize(alloc, input);
    }
    if input.is_keyword(Keyword::Truncate) {
        return truncate(alloc, input);
    }
    if input.is_keyword(Keyword::Describe) {
        return describe(alloc, input);
    }
    insert(alloc, input)
}
