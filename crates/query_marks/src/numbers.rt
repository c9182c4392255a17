//! The numbers of pieces, as their digits stand in the text.
ghost use Rattle.std.specs.Prelude.{◌≡◌, IsTrue};
ghost use Rattle.std.specs.Char.{is_ascii_digit};
ghost use Rattle.std.specs.List.{list_all};
ghost use Rattle.query_marks.specs.LimitNames.{small_value, number_of as number_in};
ghost use Rattle.query_marks.specs.Hows.{share_of as share_in, how_of as how_in, is_out as is_out_of_range};

use crate::slices::bytes_of;
use query_pieces::Number;
use query_tree::How;

/// Whether all bytes are digits.
fn are_digits(bytes: &[u8]) -> bool
    ensures { result ≡ list_all is_ascii_digit bytes.now }
{
    bytes.iter().all(|b| b.is_ascii_digit())
}

/// The number that digits write, and 0 where it is above 65,535.
fn value_of(digits: &[u8]) -> u32
    requires { IsTrue (list_all is_ascii_digit digits.now) }
    ensures { result ≡ small_value digits.now }
{
    let mut value: u32 = 0;
    for digit in digits {
        value = value * 10 + u32::from(*digit - b'0');
        if value > 65_535 {
            return 0;
        }
    }
    value
}

/// The number that digits write, and 0 where it is above 65,535, or where there are other bytes.
pub(crate) fn number_of(digits: &[u8]) -> u32
    ensures { result ≡ number_in digits.now }
{
    if are_digits(digits) {
        value_of(digits)
    } else {
        0
    }
}

/// The share that decimals write. One of more than four is out of range.
fn share_of(digits: &[u8]) -> How
    ensures { result ≡ share_in digits.now }
{
    if digits.len() <= 4 {
        How::Share {
            digits: number_of(digits),
            places: digits.len() as u8,
        }
    } else {
        How::Share {
            digits: 0,
            places: 0,
        }
    }
}

/// How the keywords of a quoted piece are looked for. A number out of range counts as 0.
pub(crate) fn how_of(text: &[u8], number: Number) -> How
    ensures { result ≡ how_in text.now number }
{
    match number {
        Number::Phrase => How::Phrase,
        Number::Within(digits) => How::Within(number_of(bytes_of(text, digits))),
        Number::AtLeast(digits) => How::AtLeast(number_of(bytes_of(text, digits))),
        Number::Share(digits) => share_of(bytes_of(text, digits)),
    }
}

/// Whether the number is out of range.
pub(crate) fn is_out(how: How) -> bool
    ensures { result ≡ is_out_of_range how }
{
    match how {
        How::Phrase => false,
        How::Within(number) => number == 0,
        How::AtLeast(number) => number == 0,
        How::Share { digits, .. } => digits == 0,
    }
}
