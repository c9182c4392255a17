//! A text read from left to right beside its marks.
//!
//! Before each character the marks that begin before its end are passed: their tags come before the character, and what
//! they cover is kept. Then the character is read as what the marks make of it.
ghost use Rattle.std.specs.Prelude.{◌≡◌, ◌<◌, ◌≤◌, ◌^◌, ◌++◌, [], length, drop, MatchOption, option_to_list};
ghost use Rattle.std.specs.Char.{encode_utf8};
ghost use Rattle.std.specs.Str.{IsUtf8, chars};
ghost use Rattle.charset_map.specs.Spans.{folded};
ghost use Rattle.doc_tokens.specs.TextSigns.{signs_from};
ghost use Rattle.doc_tokens.specs.steps.TokenReader.{ReadsSome, Ordered, BeginFrom, IsNext, PassesMarks, Finds};

use crate::cover::{Cover, tag_sign_of};
use crate::field::TooLong;
use crate::reader::{Found, Reader};
use crate::sign::TextSign;
use charset_map::Charset;
use mark_scan::Mark;
use srch_base::Or;
use std::alloc::Global;

/// Which marks of a text were passed.
#[derive(Clone, Copy)]
struct Passed {
    /// How many were.
    next: usize,
    cover: Cover,
}

/// The first character of a text, and the text after it.
pub(crate) fn first_char(text: &str) -> Option<(char, &str)>
    ensures next { MatchOption result (text.now ≡ []) (λ first. text.now ≡ encode_utf8 first.0 ++ first.1.now) }
    ensures utf8 { MatchOption result (IsUtf8 text.now) (λ first. IsUtf8 first.1.now) }
{
    let mut chars = text.chars();
    match chars.next() {
        Some(c) => Some((c, chars.as_str())),
        None => None,
    }
}

/// The next mark, if it begins before a place.
fn next_before(marks: &[Mark], next: usize, place: u32) -> Option<Mark>
    requires { next ≤ length marks.now }
    ensures { MatchOption result (BeginFrom place (drop next marks.now)) (λ mark. IsNext marks.now next place mark) }
{
    if next < marks.len() && marks[next].from < place {
        Some(marks[next])
    } else {
        None
    }
}

/// Reads a sign, if there is one.
fn read_some(reader: &mut Reader, alloc: Global, sign: Option<TextSign>) -> Result<(), Or<TooLong>>
    ensures { ReadsSome reader.old (option_to_list sign) reader.new result }
{
    match sign {
        Some(sign) => reader.read(alloc, sign),
        None => Ok(()),
    }
}

/// Passes the marks that begin before a place, and reads their tags.
fn pass_marks(
    reader: &mut Reader,
    alloc: Global,
    marks: &[Mark],
    start: Passed,
    end: u32,
) -> Result<Passed, Or<TooLong>>
    requires { start.next ≤ length marks.now }
    ensures { PassesMarks marks.now reader.old start end reader.new result }
{
    let mut passed = start;
    'marks: while let Some(mark) = next_before(marks, passed.next, end) {
        read_some(reader, alloc, tag_sign_of(mark.kind))?;
        passed = Passed {
            next: passed.next + 1,
            cover: passed.cover.then(mark),
        };
    }
    Ok(passed)
}

/// Reads the signs of a text by its marks.
pub(crate) fn read_text(
    alloc: Global,
    charset: &Charset,
    marks: &[Mark],
    text: &str,
) -> Result<Found, Or<TooLong>>
    requires size { length text.now < 2 ^ 32 }
    requires order { Ordered 0 marks.now }
    ensures { Finds (signs_from (folded charset.now) marks.now 0 (chars text.now)) result }
{
    let mut reader = Reader::new(alloc, text.len())?;
    let mut passed = Passed {
        next: 0,
        cover: Cover::none(),
    };
    let mut place = 0;
    let mut rest = text;
    'chars: loop {
        match first_char(rest) {
            None => return reader.finish(alloc),
            Some((c, beyond)) => {
                let end = place + c.len_utf8() as u32;
                passed = pass_marks(&mut reader, alloc, marks, passed, end)?;
                read_some(&mut reader, alloc, passed.cover.sign(charset, place, c))?;
                place = end;
                rest = beyond;
            }
        }
    }
}
