//! The writer of a statement. After want of memory the output is as before: it is cut to where the statement began.

ghost use Rattle.std.specs.Prelude.{◌≡◌, ◌++◌, ◌∷◌, [], OnOk, OnErr};
ghost use Rattle.ql_grammar.specs.declared.keyword.Keyword.TheVariants as keywords;
ghost use Rattle.ql_tree.specs.declared.statement.Statement.TheVariants as statements;
ghost use Rattle.ql_write.specs.Pieces.{keyword, name, given, with_commas};
ghost use Rattle.ql_write.specs.Canonical.{columns_pieces, scope as scope_of, row, put_word as put_keyword, pieces, canonical_text};
ghost use Rattle.ql_write.specs.steps.Writing.{Appends};

use crate::writing::{Token, put_all, put_one};
use crate::written::{Written, put_enclosed, put_with_commas};
use ql_grammar::Keyword;
use ql_lex::Sign;
use ql_tree::{Ids, Plain, Scope, SetValue, Statement, Target, Val};
use srch_base::{Items, Name, NoMemory};

impl Written for Val {
    ghost use Rattle.ql_write.specs.Canonical.{value};

    ghost pieces = { value };

    fn put(&self, out: &mut Vec<u8>) -> Result<(), NoMemory> {
        match self {
            Val::Number(number) => number.put(out),
            Val::Text(text) => put_one(Token::Text(text), out),
        }
    }
}

impl Written for Items<Val> {
    ghost use Rattle.ql_write.specs.Canonical.{row};

    ghost pieces = { row };

    fn put(&self, out: &mut Vec<u8>) -> Result<(), NoMemory> {
        put_enclosed(self.as_slice(), out)
    }
}

impl Written for Ids {
    ghost use Rattle.ql_write.specs.Canonical.{ids_pieces};

    ghost pieces = { ids_pieces };

    #[tactic(auto, using(crate::proofs::Writings::failed, crate::proofs::Writings::kept, crate::proofs::Writings::kept_all))]
    fn put(&self, out: &mut Vec<u8>) -> Result<(), NoMemory> {
        match self {
            Ids::One(id) => put_all(
                &[Token::Sign(Sign::Equal), Token::Number(u128::from(*id))],
                out,
            ),
            Ids::Several(ids) => {
                put_one(Token::Keyword(Keyword::In), out)?;
                put_enclosed(ids.as_slice(), out)
            }
        }
    }
}

impl Written for Plain {
    ghost use Rattle.ql_write.specs.Canonical.{plain};

    ghost pieces = { plain };

    fn put(&self, out: &mut Vec<u8>) -> Result<(), NoMemory> {
        match self {
            Plain::Name(name) => name.put(out),
            Plain::Text(text) => put_one(Token::Text(text), out),
        }
    }
}

/// `[GLOBAL | SESSION]`
fn put_scope(scope: Scope, out: &mut Vec<u8>) -> Result<(), NoMemory>
    ensures { Appends (scope_of scope) out.old.items result out.new.items }
{
    match scope {
        Scope::Absent => Ok(()),
        Scope::Global => put_one(Token::Keyword(Keyword::Global), out),
        Scope::Session => put_one(Token::Keyword(Keyword::Session), out),
    }
}

impl Written for Target {
    ghost use Rattle.ql_write.specs.Canonical.{target};

    ghost pieces = { target };

    fn put(&self, out: &mut Vec<u8>) -> Result<(), NoMemory> {
        match self {
            Target::Name(name) => name.put(out),
            Target::Var(name) => put_one(Token::Var(name), out),
        }
    }
}

impl Written for SetValue {
    ghost use Rattle.ql_write.specs.Canonical.{setting};

    ghost pieces = { setting };

    fn put(&self, out: &mut Vec<u8>) -> Result<(), NoMemory> {
        match self {
            SetValue::Name(name) => name.put(out),
            SetValue::Number(number) => number.put(out),
            SetValue::Text(text) => put_one(Token::Text(text), out),
            SetValue::Null => put_one(Token::Keyword(Keyword::Null), out),
        }
    }
}

/// `SELECT @@name [LIMIT n]`
fn put_variable(variable: &Name, limit: Option<u64>, out: &mut Vec<u8>) -> Result<(), NoMemory>
    ensures { Appends (pieces (statements.SelectVar variable.now limit)) out.old.items result out.new.items }
{
    let select = Token::Keyword(Keyword::Select);
    match limit {
        Some(limit) => {
            let rows = Token::Number(u128::from(limit));
            put_all(
                &[
                    select,
                    Token::Var(variable),
                    Token::Keyword(Keyword::Limit),
                    rows,
                ],
                out,
            )
        }
        None => put_all(&[select, Token::Var(variable)], out),
    }
}

/// `INSERT INTO index` or `REPLACE INTO index`
fn put_into(replace: bool, index: &Name, out: &mut Vec<u8>) -> Result<(), NoMemory>
    ensures { Appends (put_keyword replace ++ keyword keywords.Into ∷ name index.now ∷ []) out.old.items result out.new.items }
{
    let verb = if replace {
        Keyword::Replace
    } else {
        Keyword::Insert
    };
    put_all(
        &[
            Token::Keyword(verb),
            Token::Keyword(Keyword::Into),
            Token::Name(index),
        ],
        out,
    )
}

/// `[( column, .. )]`
fn put_columns(columns: &Option<Items<Name>>, out: &mut Vec<u8>) -> Result<(), NoMemory>
    ensures { Appends (given columns_pieces columns.now) out.old.items result out.new.items }
{
    match columns {
        Some(columns) => put_enclosed(columns.as_slice(), out),
        None => Ok(()),
    }
}

/// `[( column, .. )] VALUES row, ..`
#[tactic(auto, using(crate::proofs::Writings::failed, crate::proofs::Writings::kept, crate::proofs::Writings::kept_all))]
fn put_rows(
    columns: &Option<Items<Name>>,
    rows: &Items<Items<Val>>,
    out: &mut Vec<u8>,
) -> Result<(), NoMemory>
    ensures { Appends (given columns_pieces columns.now ++ keyword keywords.Values ∷ with_commas row rows.now) out.old.items result out.new.items }
{
    put_columns(columns, out)?;
    put_one(Token::Keyword(Keyword::Values), out)?;
    put_with_commas(rows.as_slice(), out)
}

#[tactic(auto, using(crate::proofs::Writings::failed, crate::proofs::Writings::kept, crate::proofs::Writings::kept_all))]
fn put_delete(index: &Name, ids: &Ids, out: &mut Vec<u8>) -> Result<(), NoMemory>
    ensures { Appends (pieces (statements.Delete index.now ids.now)) out.old.items result out.new.items }
{
    put_all(
        &[
            Token::Keyword(Keyword::Delete),
            Token::Keyword(Keyword::From),
        ],
        out,
    )?;
    index.put(out)?;
    put_all(
        &[Token::Keyword(Keyword::Where), Token::Keyword(Keyword::Id)],
        out,
    )?;
    ids.put(out)
}

/// `SET AUTOCOMMIT = n`
fn put_autocommit(value: u64, out: &mut Vec<u8>) -> Result<(), NoMemory>
    ensures { Appends (pieces (statements.SetAutocommit value)) out.old.items result out.new.items }
{
    put_all(
        &[
            Token::Keyword(Keyword::Set),
            Token::Keyword(Keyword::Autocommit),
            Token::Sign(Sign::Equal),
            Token::Number(u128::from(value)),
        ],
        out,
    )
}

#[tactic(auto, using(crate::proofs::Writings::failed, crate::proofs::Writings::kept, crate::proofs::Writings::kept_all))]
fn put_setting(
    scope: Scope,
    target: &Target,
    value: &SetValue,
    out: &mut Vec<u8>,
) -> Result<(), NoMemory>
    ensures { Appends (pieces (statements.SetOther scope target.now value.now)) out.old.items result out.new.items }
{
    put_one(Token::Keyword(Keyword::Set), out)?;
    put_scope(scope, out)?;
    target.put(out)?;
    put_one(Token::Sign(Sign::Equal), out)?;
    value.put(out)
}

/// Two keywords.
fn put_words(first: Keyword, second: Keyword, out: &mut Vec<u8>) -> Result<(), NoMemory>
    ensures { Appends (keyword first ∷ keyword second ∷ []) out.old.items result out.new.items }
{
    put_all(&[Token::Keyword(first), Token::Keyword(second)], out)
}

/// Two keywords and the name of an index.
fn put_of_index(
    first: Keyword,
    second: Keyword,
    index: &Name,
    out: &mut Vec<u8>,
) -> Result<(), NoMemory>
    ensures { Appends (keyword first ∷ keyword second ∷ name index.now ∷ []) out.old.items result out.new.items }
{
    put_all(
        &[
            Token::Keyword(first),
            Token::Keyword(second),
            Token::Name(index),
        ],
        out,
    )
}

/// `SHOW INDEX index STATUS`
#[tactic(auto, using(crate::proofs::Writings::failed, crate::proofs::Writings::kept, crate::proofs::Writings::kept_all))]
fn put_status(index: &Name, out: &mut Vec<u8>) -> Result<(), NoMemory>
    ensures { Appends (pieces (statements.ShowIndexStatus index.now)) out.old.items result out.new.items }
{
    put_of_index(Keyword::Show, Keyword::Index, index, out)?;
    put_one(Token::Keyword(Keyword::Status), out)
}

/// `SELECT DATABASE ( )`
#[tactic(auto, using(crate::proofs::Writings::failed, crate::proofs::Writings::kept, crate::proofs::Writings::kept_all))]
fn put_database(out: &mut Vec<u8>) -> Result<(), NoMemory>
    ensures { Appends (pieces statements.SelectDatabase) out.old.items result out.new.items }
{
    put_words(Keyword::Select, Keyword::Database, out)?;
    put_all(
        &[Token::Sign(Sign::OpenParen), Token::Sign(Sign::CloseParen)],
        out,
    )
}

impl Written for Statement {
    ghost use Rattle.ql_write.specs.Canonical.{pieces};

    ghost pieces = { pieces };

    #[tactic(auto, using(crate::proofs::Writings::failed, crate::proofs::Writings::kept, crate::proofs::Writings::kept_all))]
    fn put(&self, out: &mut Vec<u8>) -> Result<(), NoMemory> {
        match self {
            Statement::Select(select) => select.put(out),
            Statement::SelectVar { name, limit } => put_variable(name, *limit, out),
            Statement::SelectDatabase => put_database(out),
            Statement::Insert {
                replace,
                index,
                columns,
                rows,
            } => {
                put_into(*replace, index, out)?;
                put_rows(columns, rows, out)
            }
            Statement::Delete { index, ids } => put_delete(index, ids, out),
            Statement::Begin => put_one(Token::Keyword(Keyword::Begin), out),
            Statement::StartTransaction => put_words(Keyword::Start, Keyword::Transaction, out),
            Statement::Commit => put_one(Token::Keyword(Keyword::Commit), out),
            Statement::Rollback => put_one(Token::Keyword(Keyword::Rollback), out),
            Statement::SetAutocommit(value) => put_autocommit(*value, out),
            Statement::SetNames(names) => {
                put_words(Keyword::Set, Keyword::Names, out)?;
                names.put(out)
            }
            Statement::SetOther {
                scope,
                target,
                value,
            } => put_setting(*scope, target, value, out),
            Statement::FlushRamchunk(index) => {
                put_of_index(Keyword::Flush, Keyword::RamChunk, index, out)
            }
            Statement::FlushRtindex(index) => {
                put_of_index(Keyword::Flush, Keyword::RtIndex, index, out)
            }
            Statement::OptimizeIndex(index) => {
                put_of_index(Keyword::Optimize, Keyword::Index, index, out)
            }
            Statement::TruncateRtindex(index) => {
                put_of_index(Keyword::Truncate, Keyword::RtIndex, index, out)
            }
            Statement::Describe(index) => {
                put_all(
                    &[Token::Keyword(Keyword::Describe), Token::Name(index)],
                    out,
                )
            }
            Statement::ShowIndexStatus(index) => put_status(index, out),
            Statement::ShowMeta => put_words(Keyword::Show, Keyword::Meta, out),
            Statement::ShowTables => put_words(Keyword::Show, Keyword::Tables, out),
            Statement::ShowWarnings => put_words(Keyword::Show, Keyword::Warnings, out),
            Statement::ShowVariables => put_words(Keyword::Show, Keyword::Variables, out),
            Statement::ShowDatabases => put_words(Keyword::Show, Keyword::Databases, out),
        }
    }
}

/// Appends a statement's canonical text.
///
/// Keywords stand in capitals, names between backquotes, texts between `'`, and one space between two tokens.
pub fn put_statement(statement: &Statement, out: &mut Vec<u8>) -> Result<(), NoMemory>
    ensures ok { OnOk result (out.new.items ≡ out.old.items ++ canonical_text statement.now) }
    ensures err { OnErr result (out.new.items ≡ out.old.items) }
{
    let start = out.len();
    match statement.put(out) {
        Ok(()) => {
            out.pop();
            Ok(())
        }
        Err(error) => {
            out.truncate(start);
            Err(error)
        }
    }
}
