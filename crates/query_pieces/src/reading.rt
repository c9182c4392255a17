//! The pieces of a text, read from left to right: at each offset an operator or a limit where one begins, else a word,
//! else one character that separates. Each piece begins where the one before it ended. What begins at an offset
//! depends on the byte before it, on whether that is a letter of a word, and on the bytes from it on; the time is linear in
//! the text.
ghost use Rattle.std.specs.Prelude.{◌≡◌, ◌<◌, ◌≤◌, ◌^◌, ℕ, false, None, IfOk, length};
ghost use Rattle.std.specs.Str.{IsCharBoundary};
ghost use Rattle.charset_map.specs.Spans.{folded};
ghost use Rattle.query_pieces.specs.Letters.{alphabet_of, is_star, letter_at};
ghost use Rattle.query_pieces.specs.QueryBytes.{byte};
ghost use Rattle.query_pieces.specs.Operators.{operator_at};
ghost use Rattle.query_pieces.specs.Pieces.{after_start, after_end, separator_at, IsWord, IsPlain, Stands, ends_in_letter, ArePieces};
ghost use Rattle.query_pieces.specs.steps.Ends.{Follows};

use crate::letters::{after_character, after_letters, letter, operator, text_byte};
use crate::piece::{Form, Piece, Slice, Spelling};
use charset_map::Charset;
use srch_base::NoMemory;
use std::alloc::Global;

/// Reads what separates.
fn read_separator(text: &str, at: usize) -> Piece
    requires seam { IsCharBoundary text.now at }
    requires within { at < length text.now }
    requires size { length text.now < 2 ^ 32 }
    ensures is { result ≡ separator_at text.now at }
    ensures follows { Follows text.now at result.to }
{
    let to = if text_byte(text, at) == b'\\' {
        after_character(text, at + 1)
    } else {
        after_character(text, at)
    };
    Piece {
        form: Form::Separator,
        to,
    }
}

/// Whether a `*` that makes a prefix stands at an offset, where a word's letters end.
fn is_starred(charset: &Charset, stars: bool, text: &str, at: usize) -> bool
    ensures { result ≡ is_star (alphabet_of (folded charset.now) stars) (byte text.now at) }
{
    stars && text_byte(text, at) == b'*'
}

/// The offset after a `$` or a `*` that ends a word, where there is one.
fn after_word(charset: &Charset, stars: bool, text: &str, at: usize) -> usize
    requires seam { IsCharBoundary text.now at }
    requires size { length text.now < 2 ^ 32 }
    ensures is { result ≡ after_end (alphabet_of (folded charset.now) stars) text.now at }
    ensures ahead { at ≤ result }
{
    if text_byte(text, at) == b'$' || is_starred(charset, stars, text, at) {
        at + 1
    } else {
        at
    }
}

/// Reads a word, whose first letter is at the offset `from`.
fn read_word(charset: &Charset, stars: bool, text: &str, at: usize, from: usize) -> Piece
    requires from { from ≡ after_start text.now at }
    requires ahead { at ≤ from }
    requires seam { IsCharBoundary text.now from }
    requires size { length text.now < 2 ^ 32 }
    requires some { letter_at (alphabet_of (folded charset.now) stars) text.now false from ≡ None → ⊥ }
    ensures is { IsWord (alphabet_of (folded charset.now) stars) text.now at result }
    ensures follows { Follows text.now at result.to }
{
    let to = after_letters(charset, stars, text, from);
    let end = text_byte(text, to) == b'$';
    let prefix = is_starred(charset, stars, text, to);
    let after = after_word(charset, stars, text, to);
    Piece {
        form: Form::Word(Spelling {
            letters: Slice { from, to },
            start: text_byte(text, at) == b'^',
            end,
            prefix,
        }),
        to: after,
    }
}

/// The offset after a `^`, where there is one.
fn after_caret(text: &str, at: usize) -> usize
    requires seam { IsCharBoundary text.now at }
    requires size { length text.now < 2 ^ 32 }
    ensures is { result ≡ after_start text.now at }
    ensures ahead { at ≤ result }
    ensures seam { IsCharBoundary text.now result }
{
    if text_byte(text, at) == b'^' {
        at + 1
    } else {
        at
    }
}

/// Reads a word or what separates, where no operator begins.
fn read_plain(charset: &Charset, stars: bool, text: &str, at: usize) -> Piece
    requires seam { IsCharBoundary text.now at }
    requires within { at < length text.now }
    requires size { length text.now < 2 ^ 32 }
    ensures is { IsPlain (alphabet_of (folded charset.now) stars) text.now at result }
    ensures follows { Follows text.now at result.to }
{
    let from = after_caret(text, at);
    match letter(charset, stars, text, false, from) {
        Some(_) => read_word(charset, stars, text, at, from),
        None => read_separator(text, at),
    }
}

/// Whether a letter stands directly before what follows a piece.
fn leaves_letter(form: Form) -> bool
    ensures { result ≡ ends_in_letter form }
{
    match form {
        Form::Word(spelling) => !spelling.end && !spelling.prefix,
        _ => false,
    }
}

/// The piece at an offset of a text. The flag `stars` says that a `*` directly behind a word makes a prefix, `inside` that a letter
/// of a word stands directly before the piece.
///
/// The time is linear in what the piece takes, and it takes no memory.
pub fn piece_at(charset: &Charset, stars: bool, text: &str, inside: bool, at: usize) -> Piece
    requires seam { IsCharBoundary text.now at }
    requires within { at < length text.now }
    requires size { length text.now < 2 ^ 32 }
    ensures is { Stands (alphabet_of (folded charset.now) stars) text.now inside at result }
    ensures after { at < result.to }
    ensures seam { IsCharBoundary text.now result.to }
{
    match operator(text, inside, at) {
        Some(piece) => piece,
        None => read_plain(charset, stars, text, at),
    }
}

/// The pieces of a text, one after the other. The flag says that a `*` directly behind a word makes a prefix.
pub fn pieces(
    alloc: Global,
    charset: &Charset,
    stars: bool,
    text: &str,
) -> Result<Vec<Piece>, NoMemory>
    requires { length text.now < 2 ^ 32 }
    ensures { IfOk result (λ list. ArePieces (alphabet_of (folded charset.now) stars) text.now list.items) }
{
    let mut list = Vec::new(alloc);
    let mut inside = false;
    let mut at = 0;
    'pieces: while at < text.len() {
        let piece = piece_at(charset, stars, text, inside, at);
        list.push(piece)?;
        inside = leaves_letter(piece.form);
        at = piece.to;
    }
    Ok(list)
}
