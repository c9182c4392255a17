//! The spans of a row.
ghost use Rattle.std.specs.Prelude.{◌≡◌, ℕ, ◌+◌, ◌-◌, ◌<◌, ◌≤◌, ◌^◌, List, length, MatchOption, Some, None};
ghost use Rattle.doc_bytes.specs.Reading.{FieldSpan, is_behind as comes_behind};
ghost use Rattle.item_lists.specs.steps.Places.{IsItemAt};
ghost use Rattle.bit_lists.specs.BitLists.{bits_of};
ghost use Rattle.posting_codec.specs.Numbers.{number, IsNumberAt};
ghost use Rattle.image_marks.specs.steps.SpanItems.{AreCountedSpans, AreFour, IsSpan, counted_spans, four_bytes, span_bytes, spans_bytes, stands, stop_of};

use bit_lists::BitList;
use doc_types::ZoneSpan;
use posting_reads::short_of;

/// Where the places of a field end.
fn stop_in(own: &[u32], taken: &BitList, field: u32) -> usize
    ensures { result ≡ stop_of own.now (bits_of taken.now) field }
{
    let next = field as usize + 2;
    if next < own.len() {
        own[next] as usize
    } else {
        taken.len()
    }
}

/// Whether a word stands at a position of a field.
fn is_word(own: &[u32], taken: &BitList, field: u32, position: u64) -> bool
    requires own { field + 1 < length own.now }
    requires small { position < 2 ^ 34 }
    ensures { result ≡ stands own.now (bits_of taken.now) field position }
{
    let end = u64::from(own[field as usize + 1]) + position;
    position > 0
        && end <= stop_in(own, taken, field) as u64
        && end <= taken.len() as u64
        && !taken.is_set((end - 1) as usize)
}

/// Whether a span stands behind the one before.
fn is_behind(before: Option<(u32, ZoneSpan)>, span: (u32, ZoneSpan)) -> bool
    ensures { result ≡ comes_behind before span }
{
    match before {
        None => true,
        Some(other) => other.0 < span.0 || other.0 == span.0 && other.1.precedes(&span.1),
    }
}

/// The four numbers that stand at a place, and the place behind them.
fn numbers_at(bytes: &[u8], at: usize) -> Option<(u32, u32, u32, u32, usize)>
    ensures { MatchOption result ((a b c d : ℕ) (rest : List ℕ) → AreFour bytes.now at a b c d rest → ⊥) (λ read. (rest : List ℕ) × AreFour bytes.now at read.0 read.1 read.2 read.3 rest × (read.4 ≡ at + length (four_bytes read.0 read.1 read.2 read.3))) }
{
    let (a, at) = match short_of(bytes, at) {
        Some(read) => read,
        None => return None,
    };
    let (b, at) = match short_of(bytes, at) {
        Some(read) => read,
        None => return None,
    };
    let (c, at) = match short_of(bytes, at) {
        Some(read) => read,
        None => return None,
    };
    let (d, at) = match short_of(bytes, at) {
        Some(read) => read,
        None => return None,
    };
    Some((a, b, c, d, at))
}

/// The span at a place behind another one, and the place behind it.
fn span_behind(
    bytes: &[u8],
    at: usize,
    own: &[u32],
    taken: &BitList,
    before: Option<(u32, ZoneSpan)>,
) -> Option<((u32, ZoneSpan), usize)>
    requires { length (bits_of taken.now) < 2 ^ 32 }
    ensures { MatchOption result ((span : FieldSpan) (rest : List ℕ) → IsItemAt span_bytes (IsSpan own.now (bits_of taken.now)) bytes.now at before span rest → ⊥) (λ read. (rest : List ℕ) × IsItemAt span_bytes (IsSpan own.now (bits_of taken.now)) bytes.now at before read.0 rest × (read.1 ≡ at + length (span_bytes before read.0))) }
{
    let (field, zone, first, size, end) = match numbers_at(bytes, at) {
        Some(read) => read,
        None => return None,
    };
    if field as usize + 1 >= own.len() {
        return None;
    }
    if zone > 65_535 {
        return None;
    }
    let last = u64::from(first) + u64::from(size);
    if !is_word(own, taken, field, u64::from(first)) {
        return None;
    }
    if !is_word(own, taken, field, last) {
        return None;
    }
    let span = (
        field,
        ZoneSpan {
            zone: zone as u16,
            first,
            last: last as u32,
        },
    );
    if !is_behind(before, span) {
        return None;
    }
    Some((span, end))
}

/// Reads the spans of a row, their number first; gives the place behind them.
pub(crate) fn read_spans(bytes: &[u8], at: usize, own: &[u32], taken: &BitList) -> Option<usize>
    requires { length (bits_of taken.now) < 2 ^ 32 }
    ensures { MatchOption result ((spans : List FieldSpan) (rest : List ℕ) → AreCountedSpans own.now (bits_of taken.now) bytes.now at spans rest → ⊥) (λ end. (spans : List FieldSpan) × (rest : List ℕ) × AreCountedSpans own.now (bits_of taken.now) bytes.now at spans rest × (end ≡ at + length (counted_spans spans))) }
{
    let (count, first) = match short_of(bytes, at) {
        Some(read) => read,
        None => return None,
    };
    let mut place = first;
    let mut before = None;
    'spans: for _ in 0..count {
        match span_behind(bytes, place, own, taken, before) {
            Some((span, end)) => {
                before = Some(span);
                place = end;
            }
            None => return None,
        }
    }
    Some(place)
}
