//! The marks of a text, piece by piece.
//!
//! A reader cuts the next piece off the rest of the text, appends its marks and goes on, so that no piece is kept. Plain
//! text is a mark, after which come the ends of the sentences in it; a tag has the marks of its name; a comment has none.
//! A run goes on across tags that are removed, and ends at all other tags and at comments: the reader keeps what the next
//! dot must know of the run before it, and reads ahead for what it must know of the run after it.
ghost use Rattle.std.specs.Prelude.{Option, ◌≡◌, ◌<◌, ◌≤◌, ◌+◌, ◌^◌, ◌++◌, ℕ, List, [], ◌∷◌, length, reverse, IfOk, true, false};
ghost use Rattle.std.specs.Str.{IsUtf8, chars};
ghost use Rattle.charset_map.specs.Spans.{folded};
ghost use Rattle.mark_scan.specs.Markup.{TextPart, part_bytes};
ghost use Rattle.mark_scan.specs.Marks.{run_of, run_before, sentences_of, part_marks, AreMarks};
ghost use Rattle.mark_scan.specs.steps.Scanning.{IsBefore, Keeps, AddsTextPart, part_of, PartsOf, IsReadable};
ghost use Rattle.mark_scan.specs.Tags.{span};
ghost use Rattle.mark_scan.specs.declared.mark.Mark.{Mark};
ghost use Rattle.mark_scan.specs.declared.mark.MarkRules.{MarkRules};
ghost use Rattle.mark_scan.specs.declared.mark.MarkKind.TheVariants.{Text};

use crate::cutting::Rest;
use crate::mark::{Mark, MarkKind, MarkRules};
use crate::piece::Piece;
use crate::sentences::{Before, push_sentences};
use crate::tags::{push_tag, removed};
use charset_map::Charset;
use srch_base::NoMemory;
use std::alloc::Global;

/// Appends the marks of a piece of a text run, and gives what stands before its end.
fn push_plain(
    list: &mut Vec<Mark>,
    charset: &Charset,
    rules: &MarkRules,
    before: Before,
    from: u32,
    text: &str,
    after: Rest<'_>,
) -> Result<Before, NoMemory>
    requires size { from + length text.now < 2 ^ 32 }
    requires after { IsReadable after }
    ensures { IfOk result (λ state. (parts : List TextPart) → PartsOf after.entry parts
        → (seen : List ℕ) → Keeps rules.now.sp (folded charset.now) before seen
        → (list.new.items ≡ list.old.items ++ span from (from + length text.now) Text
        ∷ sentences_of rules.now.sp (folded charset.now) from seen (chars text.now) (chars (run_of rules.now.zones parts)))
        × Keeps rules.now.sp (folded charset.now) state (reverse (chars text.now) ++ seen)) }
{
    list.push(Mark {
        kind: MarkKind::Text,
        from,
        to: from + text.len() as u32,
    })?;
    if !rules.sp {
        return Ok(before);
    }
    let state = push_sentences(list, charset, rules, before, from, text, after)?;
    Ok(state)
}

/// How far a text was read: the place, and what stands before it.
#[derive(Clone, Copy)]
struct Reader {
    place: u32,
    before: Before,
}

/// Appends the marks of a piece, before the rest of the text after it.
fn push_piece(
    list: &mut Vec<Mark>,
    charset: &Charset,
    rules: &MarkRules,
    reader: Reader,
    piece: Piece<'_>,
    after: Rest<'_>,
) -> Result<Reader, NoMemory>
    requires zones { length rules.now.zones ≤ 65536 }
    requires size { reader.place + length (part_bytes (part_of piece)) < 2 ^ 32 }
    requires utf8 { IsUtf8 (part_bytes (part_of piece)) }
    requires after { IsReadable after }
    ensures place { IfOk result (λ next. next.place ≡ reader.place + length (part_bytes (part_of piece.entry))) }
    ensures adds { IfOk result (λ next. (parts : List TextPart) → PartsOf after.entry parts
        → AddsTextPart (folded charset.now) rules.now reader list.old.items (part_of piece.entry) parts next list.new.items) }
{
    let from = reader.place;
    match piece {
        Piece::Plain(text) => {
            let before = push_plain(list, charset, rules, reader.before, from, text, after)?;
            let place = from + text.len() as u32;
            Ok(Reader { place, before })
        }
        Piece::Comment(text) => Ok(Reader {
            place: from + text.len() as u32,
            before: Before::start(),
        }),
        Piece::Tag(tag) => {
            let place = from + tag.text.len() as u32;
            push_tag(list, rules, &tag, from, place)?;
            if removed(rules, tag.name) {
                Ok(Reader {
                    place,
                    before: reader.before,
                })
            } else {
                Ok(Reader {
                    place,
                    before: Before::start(),
                })
            }
        }
    }
}

/// The marks of a text, in the order of their places.
///
/// It takes a time linear in the text's length, whatever the markup, and memory for the marks alone.
pub fn marks(
    alloc: Global,
    charset: &Charset,
    rules: &MarkRules,
    text: &str,
) -> Result<Vec<Mark>, NoMemory>
    requires size { length text.now < 2 ^ 32 }
    requires zones { length rules.now.zones ≤ 65536 }
    ensures { IfOk result (λ list. AreMarks (folded charset.now) rules.now text.now list.items) }
{
    let mut list = Vec::new(alloc);
    let mut rest = Rest::whole(rules.strip, text);
    let mut reader = Reader {
        place: 0,
        before: Before::start(),
    };
    'pieces: loop {
        match rest.cut() {
            None => return Ok(list),
            Some((piece, beyond)) => {
                reader = push_piece(&mut list, charset, rules, reader, piece, beyond)?;
                rest = beyond;
            }
        }
    }
}

/// A text has one list of marks, so that it is no choice which parts it is taken to have.
pub fn one_list_of_marks()
    ensures { (fold : ℕ → Option ℕ) (rules : MarkRules) (text : List ℕ) (ms ns : List Mark) → AreMarks fold rules text ms → AreMarks fold rules text ns → ms ≡ ns }
{}
