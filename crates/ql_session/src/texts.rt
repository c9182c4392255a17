//! A text as statements, or why none of it is run.
ghost use Rattle.ql_lex.specs.Tokens.{AreLexemes};
ghost use Rattle.ql_grammar.specs.Tokens.{lexemes};
ghost use Rattle.ql_session.specs.steps.Running.{ReadsText, ReadsTokens};

use ql_lex::{Token, lex};
use ql_read::parse;
use ql_refusals::{Refusal, bad_syntax, bad_token};
use ql_tree::Statement;
use srch_base::Or;
use std::alloc::Global;

/// The statements of a text. No packet holds 2^32 bytes; a text of so many is taken for one that no memory is left for.
pub(crate) fn statements(alloc: Global, text: &[u8]) -> Result<Vec<Statement>, Or<Refusal>>
    ensures { ReadsText text.now result }
{
    if text.len() >= 1 << 32 {
        return Err(Or::NoMemory);
    }
    match lex(alloc, text) {
        Ok(tokens) => parsed(alloc, &tokens),
        Err(Or::NoMemory) => Err(Or::NoMemory),
        Err(Or::Fault(fault)) => Err(Or::Fault(bad_token(fault))),
    }
}

/// The statements of tokens.
fn parsed(alloc: Global, tokens: &[Token<'_>]) -> Result<Vec<Statement>, Or<Refusal>>
    requires { AreLexemes (lexemes tokens.now) }
    ensures { ReadsTokens (lexemes tokens.now) result }
{
    match parse(alloc, tokens) {
        Ok(statements) => Ok(statements),
        Err(Or::NoMemory) => Err(Or::NoMemory),
        Err(Or::Fault(fault)) => Err(Or::Fault(bad_syntax(fault))),
    }
}
