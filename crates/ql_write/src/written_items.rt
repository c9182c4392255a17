//! The writers of a SELECT's items: calls, names and aliases.

ghost use Rattle.std.specs.Prelude.{◌≡◌, ◌++◌, ◌∷◌, []};
ghost use Rattle.ql_grammar.specs.declared.keyword.Keyword.TheVariants as keywords;
ghost use Rattle.ql_tree.specs.declared.select.SelectExpr.TheVariants as exprs;
ghost use Rattle.ql_write.specs.Pieces.{given, in_parentheses, name, keyword};
ghost use Rattle.ql_write.specs.Canonical.{count_all, expr, alias_pieces};
ghost use Rattle.ql_write.specs.steps.Writing.{Appends};

use crate::writing::{Token, put_all, put_one};
use crate::written::Written;
use ql_grammar::Keyword;
use ql_lex::Sign;
use ql_tree::{SelectExpr, SelectItem};
use srch_base::{Name, NoMemory};

/// `COUNT ( * )`
pub(crate) fn put_count(out: &mut Vec<u8>) -> Result<(), NoMemory>
    ensures { Appends count_all out.old.items result out.new.items }
{
    put_all(
        &[
            Token::Keyword(Keyword::Count),
            Token::Sign(Sign::OpenParen),
            Token::Sign(Sign::Star),
            Token::Sign(Sign::CloseParen),
        ],
        out,
    )
}

/// A function without an argument.
pub(crate) fn put_call(function: Keyword, out: &mut Vec<u8>) -> Result<(), NoMemory>
    ensures { Appends (keyword function ∷ in_parentheses []) out.old.items result out.new.items }
{
    put_all(
        &[
            Token::Keyword(function),
            Token::Sign(Sign::OpenParen),
            Token::Sign(Sign::CloseParen),
        ],
        out,
    )
}

/// A function of a column.
fn put_call_of(function: Keyword, column: &Name, out: &mut Vec<u8>) -> Result<(), NoMemory>
    ensures { Appends (keyword function ∷ in_parentheses (name column.now ∷ [])) out.old.items result out.new.items }
{
    put_all(
        &[
            Token::Keyword(function),
            Token::Sign(Sign::OpenParen),
            Token::Name(column),
            Token::Sign(Sign::CloseParen),
        ],
        out,
    )
}

/// `COUNT ( DISTINCT column )`
fn put_count_distinct(column: &Name, out: &mut Vec<u8>) -> Result<(), NoMemory>
    ensures { Appends (expr (exprs.CountDistinct column.now)) out.old.items result out.new.items }
{
    put_all(
        &[
            Token::Keyword(Keyword::Count),
            Token::Sign(Sign::OpenParen),
            Token::Keyword(Keyword::Distinct),
            Token::Name(column),
            Token::Sign(Sign::CloseParen),
        ],
        out,
    )
}

impl Written for SelectExpr {
    ghost use Rattle.ql_write.specs.Canonical.{expr};

    ghost pieces = { expr };

    fn put(&self, out: &mut Vec<u8>) -> Result<(), NoMemory> {
        match self {
            SelectExpr::Column(column) => column.put(out),
            SelectExpr::CountAll => put_count(out),
            SelectExpr::CountDistinct(column) => put_count_distinct(column, out),
            SelectExpr::Least(column) => put_call_of(Keyword::Min, column, out),
            SelectExpr::Greatest(column) => put_call_of(Keyword::Max, column, out),
            SelectExpr::Sum(column) => put_call_of(Keyword::Sum, column, out),
            SelectExpr::Weight => put_call(Keyword::Weight, out),
            SelectExpr::GroupBy => put_call(Keyword::GroupBy, out),
        }
    }
}

/// `[AS alias]`
fn put_alias(alias: &Option<Name>, out: &mut Vec<u8>) -> Result<(), NoMemory>
    ensures { Appends (given alias_pieces alias.now) out.old.items result out.new.items }
{
    match alias {
        Some(alias) => put_all(&[Token::Keyword(Keyword::As), Token::Name(alias)], out),
        None => Ok(()),
    }
}

impl Written for SelectItem {
    ghost use Rattle.ql_write.specs.Canonical.{item};

    ghost pieces = { item };

    #[tactic(auto, using(crate::proofs::Writings::failed, crate::proofs::Writings::kept, crate::proofs::Writings::kept_all))]
    fn put(&self, out: &mut Vec<u8>) -> Result<(), NoMemory> {
        match self {
            SelectItem::All => put_one(Token::Sign(Sign::Star), out),
            SelectItem::One { expr, alias } => {
                expr.put(out)?;
                put_alias(alias, out)
            }
        }
    }
}
