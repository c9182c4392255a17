//! Names: plain ones, which may be keywords, names between backquotes, which never are, and system variables after `@@`.
//! A name has at most 64 bytes without its backquotes or `@@`; a longer one is a fault at its first byte.

ghost use Rattle.std.specs.Prelude.{◌≡◌, ◌<◌, ◌^◌, IsTrue, length, slice_index};
ghost use Rattle.ql_lex.specs.steps.Reading.{Reads};
ghost use Rattle.ql_lex.specs.Shapes.{is_letter as is_letter_byte};

use crate::bytes::{byte_at, is_letter, is_name, name_len, next_backquote, variable_len};
use crate::fault::LexKind;
use crate::part::Part;
use crate::token::TokenKind;

/// The most bytes of a name.
const MAX_NAME_BYTES: usize = 64;

/// Reads the name that begins at an offset.
pub(crate) fn name_at(text: &[u8], at: usize) -> Result<Part, LexKind>
    requires size { length text.now < 2 ^ 32 }
    requires within { at < length text.now }
    requires letter { IsTrue (is_letter_byte (slice_index text.now at)) }
    ensures { Reads text.now at result }
{
    let len = name_len(&text[at..]);
    if len <= MAX_NAME_BYTES {
        Ok(Part::Token(TokenKind::Name, at + len))
    } else {
        Err(LexKind::NameTooLong)
    }
}

/// Reads the name in backquotes whose first backquote is at an offset.
pub(crate) fn quoted_at(text: &[u8], at: usize) -> Result<Part, LexKind>
    requires size { length text.now < 2 ^ 32 }
    requires within { at < length text.now }
    requires backquote { slice_index text.now at ≡ 96 }
    ensures { Reads text.now at result }
{
    let Some(last) = next_backquote(text, at + 1) else {
        return Err(LexKind::UnclosedQuote);
    };
    let name = &text[at + 1..last];
    if !is_name(name) {
        Err(LexKind::BadCharacter)
    } else if name.len() <= MAX_NAME_BYTES {
        Ok(Part::Token(TokenKind::Quoted, last + 1))
    } else {
        Err(LexKind::NameTooLong)
    }
}

/// Reads the system variable whose first `@` is at an offset.
pub(crate) fn variable_at(text: &[u8], at: usize) -> Result<Part, LexKind>
    requires size { length text.now < 2 ^ 32 }
    requires within { at < length text.now }
    requires at_sign { slice_index text.now at ≡ 64 }
    ensures { Reads text.now at result }
{
    if byte_at(text, at + 1) != b'@' || !is_letter(byte_at(text, at + 2)) {
        return Err(LexKind::BadCharacter);
    }
    let len = variable_len(&text[at + 2..]);
    if len <= MAX_NAME_BYTES {
        Ok(Part::Token(TokenKind::SysVar, at + 2 + len))
    } else {
        Err(LexKind::NameTooLong)
    }
}
