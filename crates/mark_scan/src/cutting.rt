//! A text cut into its pieces: comments, tags, and plain text between them.
//!
//! ```text
//! one <b>two</b><!-- three -->
//! plain  tag plain tag comment
//! ```
//!
//! Each piece is a part of the text, which isn't copied. The pieces, one after the other, are the text. A `Rest` gives the
//! first piece of what is left and the rest after it. It is a plain value: who looks ahead reads on from a copy. A tag is
//! looked at twice, once after the plain text before it and once as the first piece of the rest.
ghost use Rattle.std.specs.Prelude.{◌≡◌, ◌<◌, ◌+◌, ℕ, [], length, slice_index, take, drop, MatchOption};
ghost use Rattle.std.specs.Str.{IsUtf8};
ghost use Rattle.mark_scan.specs.Markup.{BeginsComment, BeginsTag, BeginsMarkup};
ghost use Rattle.mark_scan.specs.steps.Scanning.{Rules, Begins, IsCut, IsReadable, IsFirst};

use crate::markup::{Ends, Found, TagPlaces, next_markup};
use crate::piece::{Piece, Tag};

/// Cuts a text before an ASCII byte.
fn cut_before(text: &str, place: usize) -> (&str, &str)
    requires within { place < length text.now }
    requires ascii { slice_index text.now place < 128 }
    ensures front { result.0.now ≡ take place text.now }
    ensures back { result.1.now ≡ drop place text.now }
    ensures front_utf8 { IsUtf8 result.0.now }
    ensures back_utf8 { IsUtf8 result.1.now }
{
    text.split_at(place)
}

/// Cuts a text after an ASCII byte.
fn cut_after(text: &str, place: usize) -> (&str, &str)
    requires within { place < length text.now }
    requires ascii { slice_index text.now place < 128 }
    ensures front { result.0.now ≡ take (place + 1) text.now }
    ensures back { result.1.now ≡ drop (place + 1) text.now }
    ensures front_utf8 { IsUtf8 result.0.now }
    ensures back_utf8 { IsUtf8 result.1.now }
{
    text.split_at(place + 1)
}

/// Cuts a text before the first markup in it.
fn plain_piece<'a>(text: &'a str, place: usize) -> (Piece<'a>, &'a str)
    requires some { 0 < place }
    requires within { place < length text.now }
    requires none { (k : ℕ) → k < place → BeginsMarkup (drop k text.now) → ⊥ }
    requires up_to { BeginsMarkup (drop place text.now) }
    ensures cut { IsCut text.now result.0 result.1.now }
    ensures place { result.1.now ≡ drop place text.now }
{
    let (front, rest) = cut_before(text, place);
    (Piece::Plain(front), rest)
}

/// Cuts a text after the comment that it begins with.
fn comment_piece<'a>(text: &'a str, end: usize) -> (Piece<'a>, &'a str)
    requires { BeginsComment text.now end }
    ensures { IsCut text.now result.0 result.1.now }
{
    let (front, rest) = cut_after(text, end + 2);
    (Piece::Comment(front), rest)
}

/// Cuts a text after the tag that it begins with.
fn tag_piece<'a>(text: &'a str, places: TagPlaces) -> (Piece<'a>, &'a str)
    requires { BeginsTag text.now places.from places.to places.last }
    ensures { IsCut text.now result.0 result.1.now }
{
    let bytes = text.as_bytes();
    let name = &bytes[places.from..places.to];
    let empty = bytes[places.last - 1] == b'/';
    let (front, rest) = cut_after(text, places.last);
    let tag = Tag {
        text: front,
        name,
        closing: places.from == 2,
        empty,
    };
    (Piece::Tag(tag), rest)
}

/// Cuts a text after the markup that it begins with.
fn markup_piece<'a>(text: &'a str, found: Found) -> (Piece<'a>, &'a str)
    requires { Begins text.now found }
    ensures { IsCut text.now result.0 result.1.now }
{
    match found {
        Found::Comment(end) => comment_piece(text, end),
        Found::Tag(places) => tag_piece(text, places),
    }
}

/// The first piece of a text, and the text after it.
fn first_piece<'a>(text: &'a str, ends: &mut Ends) -> (Piece<'a>, &'a str)
    requires some { 0 < length text.now }
    requires ends { Rules ends.old text.now }
    ensures cut { IsCut text.now result.0 result.1.now }
    ensures shorter { length result.1.now < length text.now }
    ensures ends { Rules ends.new result.1.now }
{
    match next_markup(text.as_bytes(), ends) {
        Some((place, found)) => {
            if place == 0 {
                markup_piece(text, found)
            } else {
                plain_piece(text, place)
            }
        }
        None => (Piece::Plain(text), ""),
    }
}

/// The rest of a text, from where a piece begins.
#[derive(Clone, Copy)]
pub(crate) struct Rest<'a> {
    text: &'a str,
    /// Whether markup is looked for. Without it the rest is one piece.
    strip: bool,
    /// What may still follow in the rest.
    ends: Ends,
}

impl<'a> Rest<'a> {
    /// A whole text.
    pub fn whole(strip: bool, text: &'a str) -> Rest<'a>
        ensures text { result.text.now ≡ text.now }
        ensures strip { result.strip ≡ strip }
        ensures readable { IsReadable result }
    {
        let ends = Ends {
            tag: true,
            comment: true,
        };
        Rest { text, strip, ends }
    }

    /// The first piece and the rest after it, unless the text ends here.
    ///
    /// It takes no memory, and a time linear in the length of the piece and of the markup after it; but once for `>` and
    /// once for `-->`, where none follows any more, in that of the whole rest.
    pub fn cut(self) -> Option<(Piece<'a>, Rest<'a>)>
        requires { IsReadable self }
        ensures { MatchOption result (self.entry.text.now ≡ []) (λ cut. IsFirst self.entry cut.0 cut.1) }
    {
        if self.text.is_empty() {
            return None;
        }
        if !self.strip {
            let beyond = Rest { text: "", ..self };
            return Some((Piece::Plain(self.text), beyond));
        }
        let mut ends = self.ends;
        let (piece, text) = first_piece(self.text, &mut ends);
        let beyond = Rest { text, ends, ..self };
        Some((piece, beyond))
    }
}
