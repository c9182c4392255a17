//! Spans of zones, read from a payload: those of all fields in a row, by field, first position, last position and zone.
ghost use Rattle.std.specs.Prelude.{◌≡◌, All, IfOk, map};
ghost use Rattle.byte_fields.specs.Fields.{Gives};
ghost use Rattle.doc_bytes.specs.Reading.{is_behind, is_over, is_taken, may_follow, numbers_at, own_count, span_at, spans_at, with_spans};
ghost use Rattle.doc_bytes.specs.steps.Sorted.{AreSorted};

use byte_fields::{u16_of, u32_of};
use doc_types::{FieldTokens, TokenWord, ZoneSpan};
use srch_base::{Items, NoMemory, Or};
use std::alloc::Global;

/// A span, and the number of its field.
type FieldSpan = (u16, ZoneSpan);

/// So many spans of these fields.
pub(crate) fn spans_of<'a>(
    alloc: Global,
    fields: &[Items<TokenWord>],
    count: u32,
    bytes: &'a [u8],
) -> Result<(Vec<FieldSpan>, &'a [u8]), Or<usize>>
    requires { All AreSorted fields.now }
    ensures { Gives (λ x. (x.0.items, x.1.now)) result (spans_at fields.now count bytes.now) }
{
    let mut spans = Vec::new(alloc);
    let mut before = None;
    let mut rest = bytes;
    for _ in 0..count {
        let (span, after) = span_of(fields, before, rest)?;
        spans.push(span)?;
        before = Some(span);
        rest = after;
    }
    Ok((spans, rest))
}

/// The span that follows another one.
fn span_of<'a>(
    fields: &[Items<TokenWord>],
    before: Option<FieldSpan>,
    bytes: &'a [u8],
) -> Result<(FieldSpan, &'a [u8]), Or<usize>>
    requires { All AreSorted fields.now }
    ensures { Gives (λ x. (x.0, x.1.now)) result (span_at fields.now before bytes.now) }
{
    match numbers_of(bytes) {
        Ok((span, rest)) if follows(fields, before, span) => Ok((span, rest)),
        Err(Or::NoMemory) => Err(Or::NoMemory),
        _ => Err(Or::Fault(bytes.len())),
    }
}

/// A span's numbers, whatever they are.
#[tactic(auto, unfolding(crate::specs::Reading::numbers_at))]
fn numbers_of(bytes: &[u8]) -> Result<(FieldSpan, &[u8]), Or<usize>>
    ensures { Gives (λ x. (x.0, x.1.now)) result (numbers_at bytes.now) }
{
    let (field, rest) = u16_of(bytes)?;
    let (zone, rest) = u16_of(rest)?;
    let (first, rest) = u32_of(rest)?;
    let (last, rest) = u32_of(rest)?;
    Ok(((field, ZoneSpan { zone, first, last }), rest))
}

/// Whether a span is one of these fields and may follow another one.
fn follows(fields: &[Items<TokenWord>], before: Option<FieldSpan>, span: FieldSpan) -> bool
    requires { All AreSorted fields.now }
    ensures { result ≡ may_follow fields.now before span }
{
    match fields.get(usize::from(span.0)) {
        Some(words) => covers(words.as_slice(), span.1) && stands_behind(before, span),
        None => false,
    }
}

/// Whether a span begins at one of the words, and ends at it or at a later one.
fn covers(words: &[TokenWord], span: ZoneSpan) -> bool
    requires { AreSorted words.now }
    ensures { result ≡ is_over words.now span }
{
    stands_at(words, span.first) && stands_at(words, span.last) && span.first <= span.last
}

/// Whether a span stands behind the one before, if there is one.
fn stands_behind(before: Option<FieldSpan>, span: FieldSpan) -> bool
    ensures { result ≡ is_behind before span }
{
    match before {
        None => true,
        Some(other) => other.0 < span.0 || other.0 == span.0 && other.1.precedes(&span.1),
    }
}

/// Whether one of the words stands at the position.
fn stands_at(words: &[TokenWord], position: u32) -> bool
    requires { AreSorted words.now }
    ensures { result ≡ is_taken words.now position }
{
    words
        .binary_search_by(|word| word.position.cmp(&position))
        .is_ok()
}

/// The fields of these words, each with its spans.
#[tactic(auto, using(crate::proofs::SpanForms::own_within))]
pub(crate) fn with_their_spans(
    alloc: Global,
    fields: Vec<Items<TokenWord>>,
    spans: &[FieldSpan],
) -> Result<Vec<FieldTokens>, NoMemory>
    ensures { IfOk result (λ made. made.items ≡ with_spans 0 fields.items spans.now) }
{
    let mut made = Vec::new(alloc);
    let mut rest = spans;
    'fields: for words in fields {
        let (own, after) = rest.split_at(count_own(rest, made.len()));
        let spans = without_field(alloc, own)?;
        made.push(FieldTokens { words, spans })?;
        rest = after;
    }
    Ok(made)
}

/// The spans without the numbers of their fields.
fn without_field(alloc: Global, spans: &[FieldSpan]) -> Result<Items<ZoneSpan>, NoMemory>
    ensures { IfOk result (λ own. own ≡ map (λ span. span.1) spans.now) }
{
    let mut own = Vec::with_capacity(alloc, spans.len())?;
    for span in spans {
        own.push(span.1)?;
    }
    Ok(Items::new(own))
}

/// How many spans at the front are of the field.
fn count_own(spans: &[FieldSpan], field: usize) -> usize
    ensures { result ≡ own_count field spans.now }
{
    spans
        .iter()
        .take_while(|span| usize::from(span.0) == field)
        .count()
}
