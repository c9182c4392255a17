//! Statements of a few keywords and at most one name: BEGIN, FLUSH, OPTIMIZE, SHOW and others.

ghost use Rattle.std.specs.Prelude.{[]};
ghost use Rattle.ql_grammar.specs.Alphabet.{sphinxql};
ghost use Rattle.ql_grammar.specs.declared.keyword.Keyword.TheVariants as keywords;
ghost use Rattle.ql_grammar.specs.Terminals.{name, keyword, two_keywords};
ghost use Rattle.ql_grammar.specs.steps.Grammar.{flush, show, shown};
ghost use Rattle.token_grammar.specs.Language.{◌⨾◌};
ghost use Rattle.token_grammar.specs.Reading.{ReadsPart};
ghost use Rattle.ql_grammar.specs.Statements.{IsStatement};
ghost use Rattle.ql_grammar.specs.steps.Stating.{IsShown};

use crate::cursor::TokenCursor;
use ql_grammar::Keyword;
use ql_tree::Statement;
use srch_base::Or;
use std::alloc::Global;

/// Reads a FLUSH.
pub(crate) fn flush(alloc: Global, input: &mut TokenCursor<'_>) -> Result<Statement, Or<u32>>
    ensures { ReadsPart sphinxql flush [] IsStatement input.old result input.new }
{
    input.keyword(Keyword::Flush)?;
    if input.takes_keyword(Keyword::RamChunk) {
        return Ok(Statement::FlushRamchunk(input.name(alloc)?));
    }
    input.keyword(Keyword::RtIndex)?;
    Ok(Statement::FlushRtindex(input.name(alloc)?))
}

/// Reads what follows the keyword SHOW.
fn shown(alloc: Global, input: &mut TokenCursor<'_>) -> Result<Statement, Or<u32>>
    ensures { ReadsPart sphinxql shown [] IsShown input.old result input.new }
{
    if input.takes_keyword(Keyword::Index) {
        let index = input.name(alloc)?;
        input.keyword(Keyword::Status)?;
        return Ok(Statement::ShowIndexStatus(index));
    }
    if input.takes_keyword(Keyword::Meta) {
        return Ok(Statement::ShowMeta);
    }
    if input.takes_keyword(Keyword::Tables) {
        return Ok(Statement::ShowTables);
    }
    if input.takes_keyword(Keyword::Warnings) {
        return Ok(Statement::ShowWarnings);
    }
    if input.takes_keyword(Keyword::Variables) {
        return Ok(Statement::ShowVariables);
    }
    input.keyword(Keyword::Databases)?;
    Ok(Statement::ShowDatabases)
}

/// Reads a SHOW.
pub(crate) fn show(alloc: Global, input: &mut TokenCursor<'_>) -> Result<Statement, Or<u32>>
    ensures { ReadsPart sphinxql show [] IsStatement input.old result input.new }
{
    input.keyword(Keyword::Show)?;
    let rest = shown(alloc, input)?;
    Ok(rest)
}

/// Reads a BEGIN.
pub(crate) fn begin(input: &mut TokenCursor<'_>) -> Result<Statement, Or<u32>>
    ensures { ReadsPart sphinxql (keyword keywords.Begin) [] IsStatement input.old result input.new }
{
    input.keyword(Keyword::Begin)?;
    Ok(Statement::Begin)
}

/// Reads a START TRANSACTION.
pub(crate) fn start_transaction(input: &mut TokenCursor<'_>) -> Result<Statement, Or<u32>>
    ensures { ReadsPart sphinxql (two_keywords keywords.Start keywords.Transaction) [] IsStatement input.old result input.new }
{
    input.two_keywords(Keyword::Start, Keyword::Transaction)?;
    Ok(Statement::StartTransaction)
}

/// Reads a COMMIT.
pub(crate) fn commit(input: &mut TokenCursor<'_>) -> Result<Statement, Or<u32>>
    ensures { ReadsPart sphinxql (keyword keywords.Commit) [] IsStatement input.old result input.new }
{
    input.keyword(Keyword::Commit)?;
    Ok(Statement::Commit)
}

/// Reads a ROLLBACK.
pub(crate) fn rollback(input: &mut TokenCursor<'_>) -> Result<Statement, Or<u32>>
    ensures { ReadsPart sphinxql (keyword keywords.Rollback) [] IsStatement input.old result input.new }
{
    input.keyword(Keyword::Rollback)?;
    Ok(Statement::Rollback)
}

/// Reads an OPTIMIZE INDEX.
pub(crate) fn optimize(alloc: Global, input: &mut TokenCursor<'_>) -> Result<Statement, Or<u32>>
    ensures { ReadsPart sphinxql (two_keywords keywords.Optimize keywords.Index ⨾ name) [] IsStatement input.old result input.new }
{
    input.two_keywords(Keyword::Optimize, Keyword::Index)?;
    Ok(Statement::OptimizeIndex(input.name(alloc)?))
}

/// Reads a TRUNCATE RTINDEX.
pub(crate) fn truncate(alloc: Global, input: &mut TokenCursor<'_>) -> Result<Statement, Or<u32>>
    ensures { ReadsPart sphinxql (two_keywords keywords.Truncate keywords.RtIndex ⨾ name) [] IsStatement input.old result input.new }
{
    input.two_keywords(Keyword::Truncate, Keyword::RtIndex)?;
    Ok(Statement::TruncateRtindex(input.name(alloc)?))
}

/// Reads a DESCRIBE.
pub(crate) fn describe(alloc: Global, input: &mut TokenCursor<'_>) -> Result<Statement, Or<u32>>
    ensures { ReadsPart sphinxql (keyword keywords.Describe ⨾ name) [] IsStatement input.old result input.new }
{
    input.keyword(Keyword::Describe)?;
    Ok(Statement::Describe(input.name(alloc)?))
}
