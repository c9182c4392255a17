//! What a line is by itself: the head of a section, `{`, `}`, `key = value`, nothing, or none of these.
//!
//! A line with `=` is an entry, split at the first one. Any other line is a head: a word, a name where that kind of
//! section has one, and perhaps a `{` at the end.
ghost use Rattle.std.specs.Prelude.{◌≡◌, ◌&&◌};
ghost use Rattle.std.specs.Str.{bytes_eq};
ghost use Rattle.charset_map.specs.Characters.{is_blank};
ghost use Rattle.std.specs.List.{position_or_len};
ghost use Rattle.conf_text.specs.Shapes.{bare_head, entry_shape, head, head_of, head_shape, named_head, shape_of, small, wants_name, wants_no_name, words_shape};
ghost use Rattle.conf_text.specs.steps.SeenShapes.{seen};

use crate::keys::Key;
use crate::text::{after_blanks, before_blanks, blank, name_like, place_of, trim};

/// What a line is, by itself.
#[derive(Clone, Copy)]
pub enum Shape<'a> {
    /// Nothing, or a comment.
    Blank,
    /// The head of an index of this name, and whether `{` stands after it.
    IndexHead(&'a [u8], bool),
    /// The head of a section of another kind, and whether `{` stands after it.
    OtherHead(bool),
    /// The head of a section of no known kind.
    UnknownHead,
    /// `{`
    Opening,
    /// `}`
    Closing,
    /// `key = value`, and the key of an index that it is, if it is one.
    Entry(Option<Key>, &'a [u8]),
    /// Anything else.
    Misformed,
}

/// Whether a section of this kind has a name.
fn wants_name(word: &[u8]) -> bool
    ensures { result ≡ wants_name (small word.now) }
{
    word.eq_ignore_ascii_case(b"index") || word.eq_ignore_ascii_case(b"source")
}

/// Whether a section of this kind has no name.
fn wants_no_name(word: &[u8]) -> bool
    ensures { result ≡ wants_no_name (small word.now) }
{
    word.eq_ignore_ascii_case(b"searchd")
        || word.eq_ignore_ascii_case(b"indexer")
        || word.eq_ignore_ascii_case(b"common")
}

/// The head of one word.
fn bare<'a>(word: &[u8], opens: bool) -> Shape<'a>
    ensures { seen result ≡ bare_head (small word.now) opens }
{
    if wants_no_name(word) {
        Shape::OtherHead(opens)
    } else if wants_name(word) {
        Shape::Misformed
    } else {
        Shape::UnknownHead
    }
}

/// The head of a word and a name.
fn named<'a>(word: &[u8], name: &'a [u8], opens: bool) -> Shape<'a>
    ensures { seen result ≡ named_head (small word.now) (small name.now) opens }
{
    if word.eq_ignore_ascii_case(b"index") {
        Shape::IndexHead(name, opens)
    } else if word.eq_ignore_ascii_case(b"source") {
        Shape::OtherHead(opens)
    } else if wants_no_name(word) {
        Shape::Misformed
    } else {
        Shape::UnknownHead
    }
}

/// A head by its first word and what stands after that.
#[tactic(auto, unfolding(crate::specs::Shapes::head))]
fn head<'a>(word: &[u8], rest: &'a [u8], opens: bool) -> Shape<'a>
    ensures { seen result ≡ head word.now rest.now opens }
{
    if !name_like(word) {
        return Shape::Misformed;
    }
    if rest.is_empty() {
        return bare(word, opens);
    }
    if name_like(rest) {
        named(word, rest, opens)
    } else {
        Shape::Misformed
    }
}

/// How many bytes of a text are before its first blank, or in all of it.
fn word_len(text: &[u8]) -> usize
    ensures { result ≡ position_or_len is_blank text.now }
{
    text.iter().take_while(|byte| !blank(**byte)).count()
}

/// A head of these words.
fn head_of_words(words: &[u8], opens: bool) -> Shape<'_>
    ensures { seen result ≡ head_of words.now opens }
{
    let (word, rest) = words.split_at(word_len(words));
    head(word, after_blanks(rest), opens)
}

/// A line without `=`.
fn head_line(text: &[u8]) -> Shape<'_>
    ensures { seen result ≡ head_shape text.now }
{
    let count = text.len();
    if count > 0 && text[count - 1] == b'{' {
        head_of_words(before_blanks(text.split_at(count - 1).0), true)
    } else {
        head_of_words(text, false)
    }
}

/// A line with `=`, by what is before and after the first one.
fn entry_line<'a>(key: &[u8], value: &'a [u8]) -> Shape<'a>
    ensures { seen result ≡ entry_shape key.now value.now }
{
    if name_like(key) {
        Shape::Entry(Key::named(key), value)
    } else {
        Shape::Misformed
    }
}

/// A line that is no brace and not empty.
fn words_line(text: &[u8]) -> Shape<'_>
    ensures { seen result ≡ words_shape text.now }
{
    let end = place_of(b'=', text);
    if end == text.len() {
        return head_line(text);
    }
    let (key, value) = text.split_at(end);
    entry_line(trim(key), trim(value.split_at(1).1))
}

/// The shape of a line that says this.
#[tactic(auto, unfolding(crate::specs::Shapes::shape_of))]
pub fn shape_of(text: &[u8]) -> Shape<'_>
    ensures { seen result ≡ shape_of text.now }
{
    if text.is_empty() {
        Shape::Blank
    } else if text == b"{".as_slice() {
        Shape::Opening
    } else if text == b"}".as_slice() {
        Shape::Closing
    } else {
        words_line(text)
    }
}
