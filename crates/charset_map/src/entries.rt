//! The forms of an entry: `c`, `c..d`, `c->e` and `c..d->e..f`.
//!
//! A text without `-` is one side, and its characters are their own values; else it is split at its first `->`, and
//! both sides must have one form. A side without `.` is one character; else it is split at its first `..`.
ghost use Rattle.std.specs.Prelude.{◌≡◌, ◌≢◌, ℕ, List, ◌∷◌, ◌++◌, MatchOption};
ghost use Rattle.charset_map.specs.declared.entries.Entry.{Entry};
ghost use Rattle.charset_map.specs.declared.entries.Side.{Side};
ghost use Rattle.charset_map.specs.Entries.{IsEntry};
ghost use Rattle.charset_map.specs.steps.Sides.{Lacks, IsSide};

use crate::characters::character;
use crate::trimming::place_of;

/// The characters from one to another, both included.
#[derive(Clone, Copy)]
pub struct CharRange {
    pub first: char,
    pub last: char,
}

/// Characters and their values. Where no values are written, each character is its own.
#[derive(Clone, Copy)]
pub struct Entry {
    pub from: CharRange,
    pub to: CharRange,
}

/// One side of an entry as it is written: a character, or a range by its ends.
#[derive(Clone, Copy)]
pub enum Side {
    Single(CharRange),
    Range(CharRange),
}

/// The entry that a text is.
pub fn read_entry(text: &[u8]) -> Option<Entry>
    ensures { MatchOption result ((entry : Entry) → ¬ (IsEntry text.now entry)) (λ entry. IsEntry text.now entry) }
{
    if place_of(b'-', text) == text.len() {
        return match read_side(text)? {
            Side::Single(range) => Some(Entry {
                from: range,
                to: range,
            }),
            Side::Range(range) => Some(Entry {
                from: range,
                to: range,
            }),
        };
    }
    let (left, right) = halves(text, b'-', b'>')?;
    match (read_side(left)?, read_side(right)?) {
        (Side::Single(from), Side::Single(to)) => Some(Entry { from, to }),
        (Side::Range(from), Side::Range(to)) => Some(Entry { from, to }),
        _ => None,
    }
}

/// The side of an entry that a text is.
fn read_side(text: &[u8]) -> Option<Side>
    ensures { MatchOption result ((side : Side) → ¬ (IsSide text.now side)) (λ side. IsSide text.now side) }
{
    if place_of(b'.', text) == text.len() {
        let first = character(text)?;
        return Some(Side::Single(CharRange { first, last: first }));
    }
    let (low, high) = halves(text, b'.', b'.')?;
    let first = character(low)?;
    let last = character(high)?;
    Some(Side::Range(CharRange { first, last }))
}

/// What stands before a mark of two bytes and after it. The first of its first bytes has to begin the mark.
fn halves(text: &[u8], mark: u8, next: u8) -> Option<(&[u8], &[u8])>
    ensures { MatchOption result
        ((left right : List ℕ) → Lacks mark left → text.now ≢ left ++ mark ∷ next ∷ right)
        (λ halves. Lacks mark halves.0.now × (text.now ≡ halves.0.now ++ mark ∷ next ∷ halves.1.now)) }
{
    let (left, rest) = text.split_at(place_of(mark, text));
    if rest.len() < 2 || rest[1] != next {
        return None;
    }
    Some((left, &rest[2..]))
}
