//! A packet: statements with `;` between them, and maybe one after the last. A packet has at most 32; one more is a fault of
//! its own kind where a statement begins there, and a syntax error where none does.

ghost use Rattle.std.specs.Prelude.{◌≡◌, []};
ghost use Rattle.ql_lex.specs.Tokens.{AreLexemes};
ghost use Rattle.ql_grammar.specs.Packets.{Parses};
ghost use Rattle.ql_read.specs.steps.PacketReading.{ReadsPacket, listed_in, syntax_error};
ghost use Rattle.ql_grammar.specs.Tokens.{lexemes};

use crate::cursor::TokenCursor;
use crate::statements::statement;
use ql_grammar::{ParseFault, ParseKind};
use ql_lex::{Sign, Token};
use ql_tree::{MAX_STATEMENTS, Statement};
use srch_base::{Items, Or};
use std::alloc::Global;

/// Reads statements with `;` between them up to the end, and answers whether these are all; they aren't, where one more begins
/// than are allowed. The list is lent by the caller, who lets go of it once, wherever the packet ends.
fn read_statements(
    alloc: Global,
    input: &mut TokenCursor<'_>,
    list: &mut Vec<Statement>,
) -> Result<bool, Or<u32>>
    requires { list.old.items ≡ [] }
    ensures { ReadsPacket input.old (listed_in list.new.items result) input.new }
{
    list.push(statement(alloc, input)?)?;
    'statements: while input.takes_sign(Sign::Semicolon) {
        if input.is_end() {
            return Ok(true);
        }
        if list.len() == MAX_STATEMENTS {
            if input.begins_statement() {
                return Ok(false);
            }
            return Err(Or::Fault(input.place()));
        }
        list.push(statement(alloc, input)?)?;
    }
    if input.is_end() {
        return Ok(true);
    }
    Err(Or::Fault(input.place()))
}

/// Reads a packet up to the end; none, where one statement more begins than are allowed.
fn packet(alloc: Global, input: &mut TokenCursor<'_>) -> Result<Option<Items<Statement>>, Or<u32>>
    ensures { ReadsPacket input.old result input.new }
{
    let mut list = Vec::new(alloc);
    match read_statements(alloc, input, &mut list) {
        Ok(all) => {
            if all {
                Ok(Some(Items::new(list)))
            } else {
                Ok(None)
            }
        }
        Err(fault) => Err(fault),
    }
}

/// The fault of a syntax error's offset.
fn syntax(error: Or<u32>) -> Or<ParseFault>
    ensures { result ≡ syntax_error error }
{
    match error {
        Or::NoMemory => Or::NoMemory,
        Or::Fault(place) => {
            let kind = ParseKind::Syntax;
            Or::Fault(ParseFault { place, kind })
        }
    }
}

/// The statements of a text, from its tokens as `ql_lex::lex` gives them.
///
/// It takes a time linear in the number of tokens, and never looks further ahead than two of them. The grammar is printed in
/// `docs/SPHINXQL.md`.
pub fn parse(alloc: Global, tokens: &[Token<'_>]) -> Result<Vec<Statement>, Or<ParseFault>>
    requires { AreLexemes (lexemes tokens.now) }
    ensures { Parses (lexemes tokens.now) result }
{
    let mut input = TokenCursor::new(tokens);
    match packet(alloc, &mut input) {
        Ok(Some(list)) => {
            let statements = list.into_vec();
            Ok(statements)
        }
        Ok(None) => {
            let place = input.place();
            let kind = ParseKind::TooMany;
            Err(Or::Fault(ParseFault { place, kind }))
        }
        Err(error) => Err(syntax(error)),
    }
}
