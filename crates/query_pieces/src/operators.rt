//! Operators, limits and quoted pieces. The byte at an offset decides which of them may begin there; each reader answers the
//! piece, with the offset after it, or nothing where the byte makes no operator: then the character table decides.
//!
//! A list of names is read up to the first byte that can't stand in it, so that no text is read twice: each `@` and each
//! `ZONE` looks ahead over bytes among which no further one makes a limit.
ghost use Rattle.std.specs.Prelude.{◌≡◌, ◌<◌, ◌≤◌, ◌+◌, ◌^◌, ℕ, true, IfSome, length, codes, slice_index, ◌≢◌};
ghost use Rattle.std.specs.Option.{option_map};
ghost use Rattle.query_pieces.specs.steps.Names.{begins_of, further_of, named_of, numbered_of};
ghost use Rattle.query_pieces.specs.Operators.{piece as piece_of, where_holds, not_at, before_at, lettered_at, near_at, list_at, name_at, names_at, limit_with, fields_from, fields_at, zones_at, zones_of, number_at, quoted_at, relaxed_at, at_sign_at, operator_at};
ghost use Rattle.query_pieces.specs.QueryBytes.{byte, spells};
ghost use Rattle.query_pieces.specs.steps.Ends.{EndsIn};

use crate::bytes::{
    NameKind, after_digits, after_list, after_name, before, blank, bounds, byte_at, has, in_field,
    may_open_not, names_only, next_quote,
};
use crate::piece::{FieldLimit, Form, Names, Number, Piece, Quotation, Slice, ZoneLimit};

/// Names, with the offset after them.
#[derive(Clone, Copy)]
pub(crate) struct Named {
    pub names: Slice,
    pub to: usize,
}

/// The number of a quoted piece, with the offset after it.
#[derive(Clone, Copy)]
pub(crate) struct Numbered {
    pub number: Number,
    pub to: usize,
}

/// The piece, where the test holds.
fn where_it_holds(test: bool, form: Form, to: usize) -> Option<Piece>
    ensures { result ≡ where_holds test (piece_of form to) }
{
    if test { Some(Piece { form, to }) } else { None }
}

/// Reads a NOT.
fn read_not(text: &[u8], at: usize) -> Option<Piece>
    requires within { at < length text.now }
    requires size { length text.now < 2 ^ 32 }
    requires ascii { byte text.now at < 128 }
    ensures is { result ≡ not_at text.now at }
    ensures ends { IfSome result (λ p. EndsIn text.now at p.to) }
{
    let holds = may_open_not(before(text, at)) && !blank(byte_at(text, at + 1));
    where_it_holds(holds, Form::Not, at + 1)
}

/// Reads `<<`.
fn read_before(text: &[u8], at: usize) -> Option<Piece>
    requires within { at < length text.now }
    requires size { length text.now < 2 ^ 32 }
    ensures is { result ≡ before_at text.now at }
    ensures ends { IfSome result (λ p. EndsIn text.now at p.to) }
{
    let holds = byte_at(text, at + 1) == b'<';
    where_it_holds(holds, Form::Before, at + 2)
}

/// Reads an operator that is written in letters.
fn read_lettered(text: &[u8], at: usize, word: &[u8], form: Form) -> Option<Piece>
    requires within { at < length text.now }
    requires size { length text.now < 2 ^ 32 }
    requires word { length word.now < 2 ^ 8 }
    requires some { 0 < length word.now }
    requires plain { (k : ℕ) → k < length word.now → slice_index word.now k ≢ 32 }
    ensures is { result ≡ lettered_at text.now at word.now form }
    ensures ends { IfSome result (λ p. EndsIn text.now at p.to) }
{
    let to = at + word.len();
    let holds = bounds(before(text, at)) && has(text, at, word) && bounds(byte_at(text, to));
    where_it_holds(holds, form, to)
}

/// Reads `NEAR/` and its digits.
fn read_near(text: &[u8], at: usize) -> Option<Piece>
    requires within { at < length text.now }
    requires size { length text.now < 2 ^ 32 }
    ensures is { result ≡ near_at text.now at }
    ensures ends { IfSome result (λ p. EndsIn text.now at p.to) }
{
    let from = at + 5;
    let to = after_digits(text, from);
    let holds = bounds(before(text, at))
        && has(text, at, b"NEAR/")
        && from < to
        && bounds(byte_at(text, to));
    where_it_holds(holds, Form::Near(Slice { from, to }), to)
}

/// Reads names between parentheses.
fn read_list(kind: NameKind, text: &[u8], at: usize) -> Option<Named>
    requires at { at ≤ length text.now }
    requires size { length text.now < 2 ^ 32 }
    ensures is { option_map named_of result ≡ list_at (begins_of kind) (further_of kind) text.now at }
    ensures ends { IfSome result (λ p. EndsIn text.now at p.to) }
{
    let from = at + 1;
    let to = after_list(kind, text, from);
    if byte_at(text, to) == b')' && names_only(kind, &text[from..to]) {
        Some(Named {
            names: Slice { from, to },
            to: to + 1,
        })
    } else {
        None
    }
}

/// Reads one name.
fn read_name(kind: NameKind, text: &[u8], at: usize) -> Option<Named>
    requires at { at ≤ length text.now }
    requires size { length text.now < 2 ^ 32 }
    ensures is { option_map named_of result ≡ name_at (begins_of kind) (further_of kind) text.now at }
    ensures ends { IfSome result (λ p. EndsIn text.now at p.to) }
{
    if kind.begins(byte_at(text, at)) {
        let to = after_name(kind, text, at);
        Some(Named {
            names: Slice { from: at, to },
            to,
        })
    } else {
        None
    }
}

/// Reads one name, or a list of them.
fn read_names(kind: NameKind, text: &[u8], at: usize) -> Option<Named>
    requires at { at ≤ length text.now }
    requires size { length text.now < 2 ^ 32 }
    ensures is { option_map named_of result ≡ names_at (begins_of kind) (further_of kind) text.now at }
    ensures ends { IfSome result (λ p. EndsIn text.now at p.to) }
{
    if byte_at(text, at) == b'(' {
        read_list(kind, text, at)
    } else {
        read_name(kind, text, at)
    }
}

/// The field limit that these names are, with `[N]` where it follows directly.
fn limited(text: &[u8], negated: bool, names: Names, to: usize) -> Piece
    requires to { to ≤ length text.now }
    requires size { length text.now < 2 ^ 32 }
    ensures is { result ≡ limit_with text.now negated names to }
    ensures ends { (from : ℕ) → EndsIn text.now from to → EndsIn text.now from result.to }
{
    let from = to + 1;
    let last = after_digits(text, from);
    if byte_at(text, to) == b'[' && from < last && byte_at(text, last) == b']' {
        let positions = Some(Slice { from, to: last });
        Piece {
            form: Form::Fields(FieldLimit {
                negated,
                names,
                positions,
            }),
            to: last + 1,
        }
    } else {
        let positions = None;
        Piece {
            form: Form::Fields(FieldLimit {
                negated,
                names,
                positions,
            }),
            to,
        }
    }
}

/// Reads the names of a field limit, or `*`.
fn read_fields_from(text: &[u8], negated: bool, at: usize) -> Option<Piece>
    requires at { at ≤ length text.now }
    requires size { length text.now < 2 ^ 32 }
    ensures is { result ≡ fields_from text.now negated at }
    ensures ends { IfSome result (λ p. EndsIn text.now at p.to) }
{
    if byte_at(text, at) == b'*' {
        return Some(limited(text, negated, Names::All, at + 1));
    }
    match read_names(NameKind::Field, text, at) {
        Some(found) => Some(limited(text, negated, Names::Listed(found.names), found.to)),
        None => None,
    }
}

/// Reads a field limit.
fn read_fields(text: &[u8], at: usize) -> Option<Piece>
    requires within { at < length text.now }
    requires size { length text.now < 2 ^ 32 }
    ensures is { result ≡ fields_at text.now at }
    ensures ends { IfSome result (λ p. EndsIn text.now at p.to) }
{
    if byte_at(text, at + 1) == b'!' {
        read_fields_from(text, true, at + 2)
    } else {
        read_fields_from(text, false, at + 1)
    }
}

/// The zone limit that names are, if there are any.
fn zone_limit(span: bool, found: Option<Named>) -> Option<Piece>
    ensures { result ≡ option_map (zones_of span) (option_map named_of found) }
{
    match found {
        Some(found) => Some(Piece {
            form: Form::Zones(ZoneLimit {
                span,
                names: found.names,
            }),
            to: found.to,
        }),
        None => None,
    }
}

/// Reads a zone limit.
fn read_zones(text: &[u8], inside: bool, at: usize) -> Option<Piece>
    requires within { at < length text.now }
    requires size { length text.now < 2 ^ 32 }
    ensures is { result ≡ zones_at text.now inside at }
    ensures ends { IfSome result (λ p. EndsIn text.now at p.to) }
{
    if inside || before(text, at) == b'^' {
        None
    } else if has(text, at, b"ZONE:") {
        zone_limit(false, read_names(NameKind::Zone, text, at + 5))
    } else if has(text, at, b"ZONESPAN:") {
        zone_limit(true, read_names(NameKind::Zone, text, at + 9))
    } else {
        None
    }
}

/// Reads the number of a quoted piece.
fn read_number(text: &[u8], at: usize) -> Numbered
    requires at { at ≤ length text.now }
    requires size { length text.now < 2 ^ 32 }
    ensures is { numbered_of result ≡ number_at text.now at }
    ensures ends { (from : ℕ) → EndsIn text.now from at → EndsIn text.now from result.to }
{
    let sign = byte_at(text, at);
    let from = at + 1;
    let to = after_digits(text, from);
    let decimals = at + 3;
    let last = after_digits(text, decimals);
    if sign == b'~' && from < to {
        Numbered {
            number: Number::Within(Slice { from, to }),
            to,
        }
    } else if sign == b'/' && has(text, from, b"0.") && decimals < last {
        Numbered {
            number: Number::Share(Slice {
                from: decimals,
                to: last,
            }),
            to: last,
        }
    } else if sign == b'/' && from < to {
        Numbered {
            number: Number::AtLeast(Slice { from, to }),
            to,
        }
    } else {
        Numbered {
            number: Number::Phrase,
            to: at,
        }
    }
}

/// Reads a quoted piece.
fn read_quoted(text: &[u8], at: usize) -> Piece
    requires within { at < length text.now }
    requires size { length text.now < 2 ^ 32 }
    ensures is { result ≡ quoted_at text.now at }
    ensures ends { EndsIn text.now at result.to }
{
    let from = at + 1;
    let to = next_quote(text, from);
    if to < text.len() {
        let found = read_number(text, to + 1);
        Piece {
            form: Form::Quoted(Quotation {
                inside: Slice { from, to },
                number: found.number,
            }),
            to: found.to,
        }
    } else {
        Piece {
            form: Form::Unclosed,
            to: text.len(),
        }
    }
}

/// Whether `@@relaxed` is at an offset, which is the text's start.
fn relaxes(text: &[u8], at: usize) -> bool
    ensures is { result ≡ relaxed_at text.now at }
    ensures within { result ≡ true → (at ≡ 0) × (9 ≤ length text.now) × (spells text.now 0 (codes "@@relaxed") ≡ true) }
{
    at == 0 && has(text, 0, b"@@relaxed") && !in_field(byte_at(text, 9))
}

/// Reads what begins with `@`.
fn read_at_sign(text: &[u8], at: usize) -> Option<Piece>
    requires within { at < length text.now }
    requires size { length text.now < 2 ^ 32 }
    ensures is { result ≡ at_sign_at text.now at }
    ensures ends { IfSome result (λ p. EndsIn text.now at p.to) }
{
    if relaxes(text, at) {
        Some(Piece {
            form: Form::Relaxed,
            to: 9,
        })
    } else {
        read_fields(text, at)
    }
}

/// Reads what begins at an offset besides words. The flag says that a letter of a word stands directly before it.
#[tactic(auto, unfolding(crate::specs::Operators::operator_at))]
pub(crate) fn read_operator(text: &[u8], inside: bool, at: usize) -> Option<Piece>
    requires within { at ≤ length text.now }
    requires size { length text.now < 2 ^ 32 }
    ensures is { result ≡ operator_at text.now inside at }
    ensures ends { IfSome result (λ p. EndsIn text.now at p.to) }
{
    let b = byte_at(text, at);
    if b == b'"' {
        Some(read_quoted(text, at))
    } else if b == b'(' {
        where_it_holds(true, Form::Open, at + 1)
    } else if b == b')' {
        where_it_holds(true, Form::Close, at + 1)
    } else if b == b'|' {
        where_it_holds(true, Form::Or, at + 1)
    } else if b == b'<' {
        read_before(text, at)
    } else if b == b'-' || b == b'!' {
        read_not(text, at)
    } else if b == b'@' {
        read_at_sign(text, at)
    } else if b == b'Z' {
        read_zones(text, inside, at)
    } else if b == b'M' {
        read_lettered(text, at, b"MAYBE", Form::Maybe)
    } else if b == b'S' {
        read_lettered(text, at, b"SENTENCE", Form::Sentence)
    } else if b == b'P' {
        read_lettered(text, at, b"PARAGRAPH", Form::Paragraph)
    } else if b == b'N' {
        read_near(text, at)
    } else {
        None
    }
}
