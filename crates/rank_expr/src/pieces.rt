//! The first piece of a text: what it stands for, and how many bytes it has.
ghost use Rattle.std.specs.Prelude.{◌≡◌, ◌<◌, ◌≤◌, ◌+◌, ◌^◌, IsTrue, drop, length, slice_index, take};
ghost use Rattle.std.specs.Char.{is_ascii_digit};
ghost use Rattle.std.specs.List.{list_all, prefix_len};
ghost use Rattle.std.specs.Option.{SomeIff};
ghost use Rattle.std.specs.Str.Parse.{digits_value};
ghost use Rattle.doc_types.specs.declared.schema.TheConstants.{MAX_ATTRS};
ghost use Rattle.rank_expr.specs.Pieces.{is_blank, is_letter, is_name_byte, name_piece, number_sign, piece_of, sign_of_one, sign_of_two};

use crate::expr::PairOp;
use crate::mark::{Leaf, Sign};
use crate::names::{call_sign, name_sign};
use doc_types::Schema;

/// The byte at an offset, or 0 past the end.
fn byte_at(text: &[u8], place: usize) -> u8
    ensures { result ≡ slice_index text.now place }
{
    if place < text.len() { text[place] } else { 0 }
}

/// A space, a tab, a carriage return or a line feed.
fn is_blank(byte: u8) -> bool
    ensures { result ≡ is_blank byte }
{
    byte == b' ' || byte == b'\t' || byte == b'\r' || byte == b'\n'
}

/// A letter or `_`.
fn is_letter(byte: u8) -> bool
    ensures { result ≡ is_letter byte }
{
    byte.is_ascii_alphabetic() || byte == b'_'
}

/// A byte of a name.
fn is_name_byte(byte: u8) -> bool
    ensures { result ≡ is_name_byte byte }
{
    byte.is_ascii_alphanumeric() || byte == b'_'
}

/// The text behind its first bytes.
pub(crate) fn behind(text: &[u8], count: usize) -> &[u8]
    requires { count ≤ length text.now }
    ensures { result.now ≡ drop count text.now }
{
    text.split_at(count).1
}

/// The first bytes of a text, or all of it.
pub(crate) fn front(text: &[u8], most: usize) -> &[u8]
    ensures { result.now ≡ take most text.now }
{
    if most < text.len() {
        text.split_at(most).0
    } else {
        text
    }
}

/// How many blanks come first.
pub(crate) fn blanks_len(text: &[u8]) -> usize
    ensures { result ≡ prefix_len is_blank text.now }
{
    text.iter().take_while(|byte| is_blank(**byte)).count()
}

/// How many bytes of a name come first.
pub(crate) fn name_len(text: &[u8]) -> usize
    ensures { result ≡ prefix_len is_name_byte text.now }
{
    text.iter().take_while(|byte| is_name_byte(**byte)).count()
}

/// How many digits come first.
fn digits_len(text: &[u8]) -> usize
    ensures { result ≡ prefix_len is_ascii_digit text.now }
{
    text.iter().take_while(|byte| byte.is_ascii_digit()).count()
}

/// The number that digits write, or none above the greatest one.
fn value_of(digits: &[u8]) -> Option<u64>
    requires { IsTrue (list_all is_ascii_digit digits.now) }
    ensures { SomeIff result (digits_value 10 digits.now < 2 ^ 64) (digits_value 10 digits.now) }
{
    let mut value: u64 = 0;
    for byte in digits {
        value = value.checked_mul(10)?.checked_add(u64::from(*byte - b'0'))?;
    }
    Some(value)
}

/// What the number stands for that digits write.
fn number_sign(digits: &[u8]) -> Sign
    requires { IsTrue (list_all is_ascii_digit digits.now) }
    ensures { result ≡ number_sign (digits_value 10 digits.now) }
{
    match value_of(digits) {
        Some(value) => Sign::Leaf(Leaf::Number(value)),
        None => Sign::TooLarge,
    }
}

/// The piece of a name, by what stands behind it.
#[tactic(auto, unfolding(crate::specs::Pieces::name_piece))]
fn name_piece(schema: &Schema, name: &[u8], behind: &[u8]) -> (Sign, usize)
    requires few { length schema.now.attrs ≤ MAX_ATTRS }
    requires small { length name.now + length behind.now < 2 ^ 32 }
    ensures { let piece = name_piece schema.now name.now behind.now in result ≡ (piece.sign, piece.size) }
{
    let blanks = blanks_len(behind);
    if byte_at(behind, blanks) == b'(' {
        (call_sign(name), name.len() + blanks + 1)
    } else {
        (name_sign(schema, name), name.len())
    }
}

/// What a character stands for by itself.
fn sign_of_one(byte: u8) -> Sign
    ensures { result ≡ sign_of_one byte }
{
    match byte {
        b'(' => Sign::Open,
        b')' => Sign::Close,
        b',' => Sign::Comma,
        b'+' => Sign::Plus,
        b'-' => Sign::Minus,
        b'*' => Sign::Star,
        b'<' => Sign::Compare(PairOp::Less),
        b'>' => Sign::Compare(PairOp::Greater),
        b'=' => Sign::Compare(PairOp::Equal),
        b'/' | b'%' => Sign::Division,
        _ => Sign::Other,
    }
}

/// What two of them stand for.
fn sign_of_two(first: u8, second: u8) -> Option<Sign>
    ensures { result ≡ sign_of_two first second }
{
    match (first, second) {
        (b'<', b'=') => Some(Sign::Compare(PairOp::AtMost)),
        (b'<', b'>') => Some(Sign::Compare(PairOp::NotEqual)),
        (b'>', b'=') => Some(Sign::Compare(PairOp::AtLeast)),
        _ => None,
    }
}

/// The first piece of a text that begins with no blank and isn't empty.
#[tactic(auto, unfolding(crate::specs::Pieces::piece_of))]
pub(crate) fn piece_of(schema: &Schema, text: &[u8]) -> (Sign, usize)
    requires few { length schema.now.attrs ≤ MAX_ATTRS }
    requires small { length text.now < 2 ^ 32 }
    requires some { 0 < length text.now }
    ensures { let piece = piece_of schema.now text.now in result ≡ (piece.sign, piece.size) }
{
    let first = text[0];
    if first.is_ascii_digit() {
        let digits = digits_len(text);
        return (number_sign(&text[..digits]), digits);
    }
    if is_letter(first) {
        let (name, behind) = text.split_at(name_len(text));
        return name_piece(schema, name, behind);
    }
    match sign_of_two(first, byte_at(text, 1)) {
        Some(sign) => (sign, 2),
        None => (sign_of_one(first), 1),
    }
}
