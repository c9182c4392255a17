//! Signs of one byte or two. The longer one is taken where both stand there; `<>` and `!=` are one sign.

ghost use Rattle.std.specs.Prelude.{◌≡◌, ◌<◌, ◌^◌, length, slice_index};
ghost use Rattle.ql_lex.specs.steps.Reading.{Reads, IsOther};
ghost use Rattle.ql_lex.specs.Shapes.{sign_of as sign_of_bytes, sign_of_one as sign_of_byte, sign_of_two as sign_of_pair};

use crate::bytes::byte_at;
use crate::fault::LexKind;
use crate::part::Part;
use crate::token::{Sign, TokenKind};

/// The sign of one byte.
fn sign_of_one(byte: u8) -> Option<Sign>
    ensures { result ≡ sign_of_byte byte }
{
    match byte {
        b'(' => Some(Sign::OpenParen),
        b')' => Some(Sign::CloseParen),
        b',' => Some(Sign::Comma),
        b';' => Some(Sign::Semicolon),
        b'*' => Some(Sign::Star),
        b'-' => Some(Sign::Minus),
        b'=' => Some(Sign::Equal),
        b'<' => Some(Sign::Less),
        b'>' => Some(Sign::Greater),
        _ => None,
    }
}

/// The sign of two bytes.
fn sign_of_two(first: u8, second: u8) -> Option<Sign>
    ensures { result ≡ sign_of_pair first second }
{
    match (first, second) {
        (b'!', b'=') => Some(Sign::NotEqual),
        (b'<', b'>') => Some(Sign::NotEqual),
        (b'<', b'=') => Some(Sign::LessOrEqual),
        (b'>', b'=') => Some(Sign::GreaterOrEqual),
        _ => None,
    }
}

/// The sign that the bytes spell.
pub fn sign_of(bytes: &[u8]) -> Option<Sign>
    ensures { result ≡ sign_of_bytes bytes.now }
{
    match bytes {
        [byte] => sign_of_one(*byte),
        [first, second] => sign_of_two(*first, *second),
        _ => None,
    }
}

/// Reads the sign at an offset, the longest one.
pub(crate) fn sign_at(text: &[u8], at: usize) -> Result<Part, LexKind>
    requires size { length text.now < 2 ^ 32 }
    requires within { at < length text.now }
    requires other { IsOther (slice_index text.now at) }
    ensures { Reads text.now at result }
{
    if sign_of_two(text[at], byte_at(text, at + 1)).is_some() {
        Ok(Part::Token(TokenKind::Sign, at + 2))
    } else if sign_of_one(text[at]).is_some() {
        Ok(Part::Token(TokenKind::Sign, at + 1))
    } else {
        Err(LexKind::BadCharacter)
    }
}
