//! Numbers: decimal digits whose value fits 64 bits. A number above is a fault, and so is a point after the digits, since
//! SphinxQL's values here are whole; the number is looked at first, so a text that is both too large and pointed is too large.

ghost use Rattle.std.specs.Prelude.{◌<◌, ◌^◌, IsTrue, length, slice_index};
ghost use Rattle.std.specs.Char.{is_ascii_digit as is_digit_byte};
ghost use Rattle.std.specs.Option.{SomeIff};
ghost use Rattle.std.specs.Str.Parse.{digits_value};
ghost use Rattle.ql_lex.specs.steps.Reading.{Reads};
ghost use Rattle.ql_lex.specs.Shapes.{is_digits};

use crate::bytes::{byte_at, digits_len};
use crate::fault::LexKind;
use crate::part::Part;
use crate::token::TokenKind;

/// The number that digits write, or none above the greatest one.
pub(crate) fn value_of(digits: &[u8]) -> Option<u64>
    requires { IsTrue (is_digits digits.now) }
    ensures { SomeIff result (digits_value 10 digits.now < 2 ^ 64) (digits_value 10 digits.now) }
{
    let mut value: u64 = 0;
    for byte in digits {
        value = value.checked_mul(10)?.checked_add(u64::from(*byte - b'0'))?;
    }
    Some(value)
}

/// Reads the number whose first digit is at an offset.
pub(crate) fn number_at(text: &[u8], at: usize) -> Result<Part, LexKind>
    requires size { length text.now < 2 ^ 32 }
    requires within { at < length text.now }
    requires digit { IsTrue (is_digit_byte (slice_index text.now at)) }
    ensures { Reads text.now at result }
{
    let to = at + digits_len(&text[at..]);
    match value_of(&text[at..to]) {
        None => Err(LexKind::NumberTooLarge),
        Some(_) if byte_at(text, to) == b'.' => Err(LexKind::NumberWithPoint),
        Some(_) => Ok(Part::Token(TokenKind::Number, to)),
    }
}
