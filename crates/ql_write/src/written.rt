//! What can be written: a type whose values have pieces of a statement, and a writer that appends them with a space after each.
//! Lists with commas and parts in a row are written by generic writers, and are proved once.

ghost use Rattle.std.specs.Prelude.{◌≡◌, ◌++◌, ◌∷◌, [], OnOk};
ghost use Rattle.std.specs.List.{flat_map};
ghost use Rattle.ql_write.specs.Pieces.{whole, listed, with_commas, in_parentheses, given, in_row};
ghost use Rattle.ql_write.specs.steps.Writing.{piece_of, Appends};

use crate::writing::{Token, put_all, put_one};
use ql_grammar::Keyword;
use ql_lex::Sign;
use srch_base::{Name, NoMemory};

/// A part of a statement that can be written.
pub(crate) trait Written {
    ghost use Rattle.std.specs.Prelude.{List};
    ghost use Rattle.ql_write.specs.Pieces.{Piece};

    /// The part's tokens.
    ghost pieces: { Self → List Piece };

    /// Appends the part, with a space after each token.
    fn put(&self, out: &mut Vec<u8>) -> Result<(), NoMemory>
        ensures { Appends (pieces self.now) out.old.items result out.new.items };
}

impl Written for Name {
    ghost use Rattle.ql_write.specs.Pieces.{name_piece};

    ghost pieces = { name_piece };

    fn put(&self, out: &mut Vec<u8>) -> Result<(), NoMemory> {
        put_one(Token::Name(self), out)
    }
}

impl Written for u64 {
    ghost use Rattle.ql_write.specs.Pieces.{number_piece};

    ghost pieces = { number_piece };

    fn put(&self, out: &mut Vec<u8>) -> Result<(), NoMemory> {
        put_one(Token::Number(u128::from(*self)), out)
    }
}

impl Written for i128 {
    ghost use Rattle.ql_write.specs.Pieces.{whole};

    ghost pieces = { whole };

    fn put(&self, out: &mut Vec<u8>) -> Result<(), NoMemory> {
        let digits = Token::Number(self.unsigned_abs());
        if *self < 0 {
            put_all(&[Token::Sign(Sign::Minus), digits], out)
        } else {
            put_one(digits, out)
        }
    }
}

/// Appends a token and the part after it.
fn put_next<T: Written>(between: Token<'_>, part: &T, out: &mut Vec<u8>) -> Result<(), NoMemory>
    ensures { Appends (piece_of between.entry ∷ T.pieces part.now) out.old.items result out.new.items }
{
    put_one(between, out)?;
    part.put(out)
}

/// Appends the parts of a list, with a token before each.
#[tactic(auto, using(crate::proofs::Writings::failed, crate::proofs::Writings::kept, crate::proofs::Writings::kept_all))]
fn put_others<T: Written>(
    parts: &[T],
    between: Token<'_>,
    out: &mut Vec<u8>,
) -> Result<(), NoMemory>
    ensures { Appends (flat_map (λ x. piece_of between.entry ∷ T.pieces x) parts.now) out.old.items result out.new.items }
{
    for part in parts {
        put_next(between, part, out)?;
    }
    Ok(())
}

/// Appends the parts of a list, with a token between two of them.
#[tactic(auto, using(crate::proofs::Writings::failed, crate::proofs::Writings::kept, crate::proofs::Writings::kept_all))]
pub(crate) fn put_listed<T: Written>(
    parts: &[T],
    between: Token<'_>,
    out: &mut Vec<u8>,
) -> Result<(), NoMemory>
    ensures { Appends (listed (piece_of between.entry) T.pieces parts.now) out.old.items result out.new.items }
{
    match parts.split_first() {
        Some((first, others)) => {
            first.put(out)?;
            put_others(others, between, out)
        }
        None => Ok(()),
    }
}

/// Appends the parts of a list, with commas between them.
pub(crate) fn put_with_commas<T: Written>(parts: &[T], out: &mut Vec<u8>) -> Result<(), NoMemory>
    ensures { Appends (with_commas T.pieces parts.now) out.old.items result out.new.items }
{
    put_listed(parts, Token::Sign(Sign::Comma), out)
}

/// Appends the parts of a list in parentheses, with commas between them.
#[tactic(auto, using(crate::proofs::Writings::failed, crate::proofs::Writings::kept, crate::proofs::Writings::kept_all))]
pub(crate) fn put_enclosed<T: Written>(parts: &[T], out: &mut Vec<u8>) -> Result<(), NoMemory>
    ensures { Appends (in_parentheses (with_commas T.pieces parts.now)) out.old.items result out.new.items }
{
    put_one(Token::Sign(Sign::OpenParen), out)?;
    put_with_commas(parts, out)?;
    put_one(Token::Sign(Sign::CloseParen), out)
}

/// Appends a part where there is one.
pub(crate) fn put_given<T: Written>(part: &Option<T>, out: &mut Vec<u8>) -> Result<(), NoMemory>
    ensures { Appends (given T.pieces part.now) out.old.items result out.new.items }
{
    match part {
        Some(part) => part.put(out),
        None => Ok(()),
    }
}

/// Appends the parts of a list, one after the other.
#[tactic(auto, using(crate::proofs::Writings::failed, crate::proofs::Writings::kept, crate::proofs::Writings::kept_all))]
pub(crate) fn put_in_row<T: Written>(parts: &[T], out: &mut Vec<u8>) -> Result<(), NoMemory>
    ensures { Appends (in_row T.pieces parts.now) out.old.items result out.new.items }
{
    for part in parts {
        part.put(out)?;
    }
    Ok(())
}
