//! Letters: the characters that make words. A letter is a character of the table at which no operator begins, or `\` and any
//! character of the table. The bytes at which an operator can begin are few, so that most letters cost a look at one byte and
//! one at the table.
ghost use Rattle.std.specs.Prelude.{◌≡◌, ◌<◌, ◌≤◌, ◌+◌, ◌^◌, ◌++◌, [], ℕ, IfSome, MatchOption, List, false, None, length};
ghost use Rattle.std.specs.Char.{encode_utf8, len_utf8};
ghost use Rattle.std.specs.Option.{option_map};
ghost use Rattle.std.specs.Str.{IsCharBoundary, IsUtf8};
ghost use Rattle.charset_map.specs.Spans.{folded};
ghost use Rattle.query_pieces.specs.Letters.{alphabet_of, char_at, by_table, is_word_mark as is_mark, letter_at};
ghost use Rattle.query_pieces.specs.Pieces.{char_end, IsRun};
ghost use Rattle.query_pieces.specs.steps.Names.{letter_is};
ghost use Rattle.query_pieces.specs.steps.Ends.{EndsIn, Follows};
ghost use Rattle.query_pieces.specs.QueryBytes.{byte};
ghost use Rattle.query_pieces.specs.Operators.{operator_at};

use crate::bytes::byte_at;
use crate::operators::read_operator;
use crate::piece::Piece;
use charset_map::Charset;

/// A letter as it is folded, and the offset after it.
#[derive(Clone, Copy)]
pub(crate) struct Folded {
    pub letter: char,
    pub to: usize,
}

/// The first character of a text, and the text after it.
fn first_char(text: &str) -> Option<(char, &str)>
    ensures next { MatchOption result (text.now ≡ []) (λ first. text.now ≡ encode_utf8 first.0 ++ first.1.now) }
    ensures utf8 { MatchOption result (IsUtf8 text.now) (λ first. IsUtf8 first.1.now) }
{
    let mut chars = text.chars();
    match chars.next() {
        Some(c) => Some((c, chars.as_str())),
        None => None,
    }
}

/// The character at an offset.
fn character(text: &str, at: usize) -> Option<char>
    requires { IsCharBoundary text.now at }
    ensures is { result ≡ char_at text.now at }
    ensures ends { MatchOption result (length text.now ≤ at) (λ c. Follows text.now at (at + len_utf8 c)) }
{
    match first_char(text.split_at(at).1) {
        Some((c, _)) => Some(c),
        None => None,
    }
}

/// The offset after the character at an offset, if there is one.
pub(crate) fn after_character(text: &str, at: usize) -> usize
    requires { IsCharBoundary text.now at }
    ensures is { result ≡ char_end at (char_at text.now at) }
    ensures ahead { at < length text.now → at < result }
    ensures seam { IsCharBoundary text.now result }
{
    match character(text, at) {
        Some(c) => at + c.len_utf8(),
        None => at,
    }
}

/// The letter that the character at an offset is by the table.
fn by_charset(charset: &Charset, text: &str, at: usize) -> Option<Folded>
    requires { IsCharBoundary text.now at }
    ensures is { option_map letter_is result ≡ by_table (folded charset.now) at (char_at text.now at) }
    ensures ends { IfSome result (λ found. Follows text.now at found.to) }
{
    match character(text, at) {
        Some(c) => match charset.fold(c) {
            Some(letter) => Some(Folded {
                letter,
                to: at + c.len_utf8(),
            }),
            None => None,
        },
        None => None,
    }
}

/// The letter after a `\`.
fn escaped(charset: &Charset, text: &str, at: usize) -> Option<Folded>
    requires { IsCharBoundary text.now (at + 1) }
    ensures is { option_map letter_is result ≡ by_table (folded charset.now) (at + 1) (char_at text.now (at + 1)) }
    ensures ends { IfSome result (λ found. Follows text.now at found.to) }
{
    by_charset(charset, text, at + 1)
}

/// The byte at an offset of a text.
pub(crate) fn text_byte(text: &str, at: usize) -> u8
    ensures { result ≡ byte text.now at }
{
    byte_at(text.as_bytes(), at)
}

/// What begins at an offset of a text besides words.
pub(crate) fn operator(text: &str, inside: bool, at: usize) -> Option<Piece>
    requires within { at ≤ length text.now }
    requires size { length text.now < 2 ^ 32 }
    ensures is { result ≡ operator_at text.now inside at }
    ensures ends { IfSome result (λ p. EndsIn text.now at p.to) }
{
    read_operator(text.as_bytes(), inside, at)
}

/// Whether a byte marks a word's start or end. The flag says that a letter of the word stands directly before it.
fn is_word_mark(charset: &Charset, stars: bool, inside: bool, b: u8) -> bool
    ensures { result ≡ is_mark (alphabet_of (folded charset.now) stars) inside b }
{
    b == b'^' || b == b'$' || (inside && stars && b == b'*')
}

/// The letter at an offset. The flag `inside` says that a letter of the same word stands directly before it.
#[tactic(auto, unfolding(crate::specs::Letters::letter_at))]
pub(crate) fn letter(
    charset: &Charset,
    stars: bool,
    text: &str,
    inside: bool,
    at: usize,
) -> Option<Folded>
    requires seam { IsCharBoundary text.now at }
    requires size { length text.now < 2 ^ 32 }
    ensures is { option_map letter_is result ≡ letter_at (alphabet_of (folded charset.now) stars) text.now inside at }
    ensures ends { IfSome result (λ found. Follows text.now at found.to) }
{
    let b = text_byte(text, at);
    if b == b'\\' {
        return escaped(charset, text, at);
    }
    if is_word_mark(charset, stars, inside, b) {
        return None;
    }
    match operator(text, inside, at) {
        Some(_) => None,
        None => by_charset(charset, text, at),
    }
}

/// The offset after the letters at an offset.
pub(crate) fn after_letters(charset: &Charset, stars: bool, text: &str, from: usize) -> usize
    requires seam { IsCharBoundary text.now from }
    requires size { length text.now < 2 ^ 32 }
    requires some { letter_at (alphabet_of (folded charset.now) stars) text.now false from ≡ None → ⊥ }
    ensures is { (letters : List ℕ) × IsRun (alphabet_of (folded charset.now) stars) text.now from letters result }
    ensures follows { Follows text.now from result }
{
    let mut at = from;
    let mut inside = false;
    'letters: while let Some(found) = letter(charset, stars, text, inside, at) {
        at = found.to;
        inside = true;
    }
    at
}
