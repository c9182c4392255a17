//! How each token of a canonical text is spelled: keywords in capitals, names between backquotes, numbers in decimal, texts
//! between `'` with `\` before `'` and `\`. Each is followed by one space, the last of which the writer of a statement takes off.

ghost use Rattle.std.specs.Prelude.{◌≡◌, ◌++◌, ◌∷◌, [], map, decimal};
ghost use Rattle.ql_write.specs.Pieces.{in_capitals as word_text, sign_text as sign_bytes, escaped_byte, spelling, name as name_piece, text as text_piece, variable};
ghost use Rattle.ql_write.specs.steps.Writing.{piece_of, Appends, Appended};

use itoa::Buffer;
use ql_grammar::Keyword;
use ql_lex::Sign;
use srch_base::{Name, NoMemory, Text};

/// A token that is written.
#[derive(Clone, Copy)]
pub(crate) enum Token<'a> {
    Keyword(Keyword),
    Sign(Sign),
    Name(&'a Name),
    Number(u128),
    Text(&'a Text),
    Var(&'a Name),
}

/// A keyword as it is written.
fn in_capitals(keyword: Keyword) -> &'static [u8]
    ensures { result.now ≡ word_text keyword }
{
    match keyword {
        Keyword::And => b"AND",
        Keyword::As => b"AS",
        Keyword::Asc => b"ASC",
        Keyword::Autocommit => b"AUTOCOMMIT",
        Keyword::Begin => b"BEGIN",
        Keyword::Between => b"BETWEEN",
        Keyword::By => b"BY",
        Keyword::Commit => b"COMMIT",
        Keyword::Count => b"COUNT",
        Keyword::Database => b"DATABASE",
        Keyword::Databases => b"DATABASES",
        Keyword::Delete => b"DELETE",
        Keyword::Desc => b"DESC",
        Keyword::Describe => b"DESCRIBE",
        Keyword::Distinct => b"DISTINCT",
        Keyword::Facet => b"FACET",
        Keyword::Flush => b"FLUSH",
        Keyword::From => b"FROM",
        Keyword::Global => b"GLOBAL",
        Keyword::Group => b"GROUP",
        Keyword::GroupBy => b"GROUPBY",
        Keyword::Having => b"HAVING",
        Keyword::Id => b"ID",
        Keyword::In => b"IN",
        Keyword::Index => b"INDEX",
        Keyword::Insert => b"INSERT",
        Keyword::Into => b"INTO",
        Keyword::Limit => b"LIMIT",
        Keyword::Match => b"MATCH",
        Keyword::Max => b"MAX",
        Keyword::Meta => b"META",
        Keyword::Min => b"MIN",
        Keyword::Names => b"NAMES",
        Keyword::Not => b"NOT",
        Keyword::Null => b"NULL",
        Keyword::Optimize => b"OPTIMIZE",
        Keyword::Option => b"OPTION",
        Keyword::Order => b"ORDER",
        Keyword::RamChunk => b"RAMCHUNK",
        Keyword::Replace => b"REPLACE",
        Keyword::Rollback => b"ROLLBACK",
        Keyword::RtIndex => b"RTINDEX",
        Keyword::Select => b"SELECT",
        Keyword::Session => b"SESSION",
        Keyword::Set => b"SET",
        Keyword::Show => b"SHOW",
        Keyword::Start => b"START",
        Keyword::Status => b"STATUS",
        Keyword::Sum => b"SUM",
        Keyword::Tables => b"TABLES",
        Keyword::Transaction => b"TRANSACTION",
        Keyword::Truncate => b"TRUNCATE",
        Keyword::Values => b"VALUES",
        Keyword::Variables => b"VARIABLES",
        Keyword::Warnings => b"WARNINGS",
        Keyword::Weight => b"WEIGHT",
        Keyword::Where => b"WHERE",
        Keyword::Within => b"WITHIN",
    }
}

/// A sign as it is written.
fn sign_text(sign: Sign) -> &'static [u8]
    ensures { result.now ≡ sign_bytes sign }
{
    match sign {
        Sign::OpenParen => b"(",
        Sign::CloseParen => b")",
        Sign::Comma => b",",
        Sign::Semicolon => b";",
        Sign::Star => b"*",
        Sign::Minus => b"-",
        Sign::Equal => b"=",
        Sign::NotEqual => b"!=",
        Sign::Less => b"<",
        Sign::Greater => b">",
        Sign::LessOrEqual => b"<=",
        Sign::GreaterOrEqual => b">=",
    }
}

/// A number as it is written.
fn put_number(number: u128, out: &mut Vec<u8>) -> Result<(), NoMemory>
    ensures { Appended (decimal number) out.old.items result out.new.items }
{
    let mut digits = Buffer::new();
    out.extend_from_slice(digits.format(number).as_bytes())?;
    Ok(())
}

fn put_name(name: &[u8], out: &mut Vec<u8>) -> Result<(), NoMemory>
    ensures { Appended (spelling (name_piece name.now)) out.old.items result out.new.items }
{
    out.push(b'`')?;
    out.extend_from_slice(name)?;
    out.push(b'`')?;
    Ok(())
}

fn put_variable(name: &[u8], out: &mut Vec<u8>) -> Result<(), NoMemory>
    ensures { Appended (spelling (variable name.now)) out.old.items result out.new.items }
{
    out.extend_from_slice(b"@@")?;
    out.extend_from_slice(name)?;
    Ok(())
}

fn put_escaped(byte: u8, out: &mut Vec<u8>) -> Result<(), NoMemory>
    ensures { Appended (escaped_byte byte) out.old.items result out.new.items }
{
    if byte == b'\'' || byte == b'\\' {
        out.push(b'\\')?;
    }
    out.push(byte)?;
    Ok(())
}

fn put_text(text: &[u8], out: &mut Vec<u8>) -> Result<(), NoMemory>
    ensures { Appended (spelling (text_piece text.now)) out.old.items result out.new.items }
{
    out.push(b'\'')?;
    for byte in text {
        put_escaped(*byte, out)?;
    }
    out.push(b'\'')?;
    Ok(())
}

/// Appends a token, and a space after it.
pub(crate) fn put_one(token: Token<'_>, out: &mut Vec<u8>) -> Result<(), NoMemory>
    ensures { Appends (piece_of token.entry ∷ []) out.old.items result out.new.items }
{
    match token {
        Token::Keyword(keyword) => out.extend_from_slice(in_capitals(keyword))?,
        Token::Sign(sign) => out.extend_from_slice(sign_text(sign))?,
        Token::Name(name) => put_name(name.as_bytes(), out)?,
        Token::Number(number) => put_number(number, out)?,
        Token::Text(text) => put_text(text.as_bytes(), out)?,
        Token::Var(name) => put_variable(name.as_bytes(), out)?,
    }
    out.push(b' ')?;
    Ok(())
}

/// Appends tokens, with a space after each.
#[tactic(auto, using(crate::proofs::Writings::failed, crate::proofs::Writings::kept, crate::proofs::Writings::kept_all))]
pub(crate) fn put_all(tokens: &[Token<'_>], out: &mut Vec<u8>) -> Result<(), NoMemory>
    ensures { Appends (map piece_of tokens.now) out.old.items result out.new.items }
{
    for token in tokens {
        put_one(*token, out)?;
    }
    Ok(())
}
