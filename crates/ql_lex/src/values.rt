//! What a token means: the name without its backquotes or `@@`, the number, and the text with its escapes resolved
//! (`\n`, `\r`, `\t`, `\0`, and any other byte for itself). Only a text is copied, into a buffer that the caller hands in.

ghost use Rattle.std.specs.Prelude.{◌≡◌, ◌++◌, ℕ, List, OnOk, OnErr};
ghost use Rattle.std.specs.Str.{IsUtf8};
ghost use Rattle.std.specs.Str.Parse.{digits_value};
ghost use Rattle.ql_lex.specs.declared.token.TokenKind.TheVariants.{Number};
ghost use Rattle.ql_lex.specs.Shapes.{bare_name, inside, IsNamed, IsLexeme, IsQuotedText};
ghost use Rattle.ql_lex.specs.Values.{escaped as escaped_byte, text_of};

use crate::numbers::value_of;
use crate::token::{Token, TokenKind};
use memchr::memchr;
use srch_base::NoMemory;

/// The name in a token, as the text has it: without backquotes, and without `@@`.
pub fn token_name<'a>(token: &Token<'a>) -> &'a [u8]
    requires { IsNamed token.now.kind token.now.text.now }
    ensures { result.now ≡ bare_name token.now.kind token.now.text.now }
{
    match token.kind {
        TokenKind::Quoted => &token.text[1..token.text.len() - 1],
        TokenKind::SysVar => &token.text[2..],
        _ => token.text,
    }
}

/// The number that a token's digits write.
pub fn number_of(digits: &[u8]) -> u64
    requires { IsLexeme Number digits.now }
    ensures { result ≡ digits_value 10 digits.now }
{
    value_of(digits).unwrap()
}

/// The byte that `\` and this byte mean.
fn escaped(byte: u8) -> u8
    ensures { result ≡ escaped_byte byte }
{
    match byte {
        b'n' => b'\n',
        b'r' => b'\r',
        b't' => b'\t',
        b'0' => 0,
        other => other,
    }
}

/// Appends the value of a text token: what stands between its quotes, with the escapes resolved.
pub fn put_text(token: &[u8], out: &mut Vec<u8>) -> Result<(), NoMemory>
    requires { IsQuotedText token.now }
    ensures ok { OnOk result (out.new.items ≡ out.old.items ++ text_of token.now) }
    ensures err { OnErr result (out.new.items ≡ out.old.items) }
{
    let inner = &token[1..token.len() - 1];
    out.reserve(inner.len())?;
    let mut at = 0;
    'pieces: while at < inner.len() {
        match memchr(b'\\', &inner[at..]) {
            None => {
                out.extend_from_slice(&inner[at..])?;
                return Ok(());
            }
            Some(plain) => {
                let place = at + plain;
                out.extend_from_slice(&inner[at..place])?;
                out.push_reserved(escaped(inner[place + 1]));
                at = place + 2;
            }
        }
    }
    Ok(())
}

/// The value of a text token is UTF-8.
pub fn text_values_are_utf8()
    ensures { (token : List ℕ) → IsUtf8 (inside token) → IsUtf8 (text_of token) }
{}
