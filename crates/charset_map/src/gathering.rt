//! The entries of a text as one table.
//!
//! All entries are gathered first, in the order of the text, up to the first one that is faulty by itself. Then their spans
//! are sorted and joined once, so that each is added after all before it: that takes n log n steps, in whatever order the
//! text has them. Where two entries give a character different values, the first entry that differs from one before it is
//! found by bisection: some number of entries, from the first on, agree, and one more entry does not.
ghost use Rattle.std.specs.Prelude.{◌≡◌, ◌<◌, ◌≤◌, ◌+◌, ◌^◌, All, IfOk, length, map, take};
ghost use Rattle.charset_map.specs.steps.Adding.{ReadsEntries};
ghost use Rattle.charset_map.specs.steps.Gathering.{Gathers, Joins, NoneDiffer, SomeDiffer, span_in};
ghost use Rattle.charset_map.specs.steps.SpanLists.{IsSound};

use crate::adding::read_span;
use crate::fault::{CharsetFault, CharsetKind};
use crate::span::Span;
use crate::spans::Spans;
use crate::trimming::{blanks_before, place_of, trimmed};
use srch_base::{NoMemory, Or};
use std::alloc::Global;

/// An entry of a text.
#[derive(Clone, Copy)]
pub struct Written {
    span: Span,
    /// The offset of its first byte in the text.
    place: u32,
}

/// The entries of a text, up to the first one that is faulty by itself.
#[derive(Drop)]
struct Gathered {
    list: Vec<Written>,
    fault: Option<CharsetFault>,
}

/// Gathers the entries of a text.
fn gather(alloc: Global, text: &[u8]) -> Result<Gathered, NoMemory>
    requires { length text.now < 2 ^ 32 }
    ensures entries { IfOk result (λ gathered. Gathers text.now gathered.list.items gathered.fault) }
    ensures sound { IfOk result (λ gathered. All (λ written. IsSound written.span) gathered.list.items) }
{
    let mut list = Vec::new(alloc);
    let mut rest = text;
    'parts: loop {
        let end = place_of(b',', rest);
        let part = rest.split_at(end).0;
        let place = (text.len() - rest.len() + blanks_before(part)) as u32;
        match read_span(trimmed(part)) {
            Ok(span) => list.push(Written { span, place })?,
            Err(kind) => {
                let fault = Some(CharsetFault { place, kind });
                return Ok(Gathered { list, fault });
            }
        }
        if end == rest.len() {
            return Ok(Gathered { list, fault: None });
        }
        rest = rest.split_at(end + 1).1;
    }
}

/// The spans of some entries as one table, or none where two of them differ.
fn joined(alloc: Global, list: &[Written]) -> Result<Option<Spans>, NoMemory>
    requires { All (λ written. IsSound written.span) list.now }
    ensures { IfOk result (λ spans. Joins (map span_in list.now) spans) }
{
    let mut sorted = Vec::new(alloc);
    sorted.extend_from_slice(list)?;
    sorted.sort_unstable_by_key(|written| written.span.first);
    let mut spans = Spans::new(alloc);
    for at in 0..sorted.len() {
        if !spans.add(sorted[at].span)? {
            return Ok(None);
        }
    }
    Ok(Some(spans))
}

/// The place in the list of the first entry that differs from one before it.
fn first_clash(alloc: Global, list: &[Written]) -> Result<usize, NoMemory>
    requires sound { All (λ written. IsSound written.span) list.now }
    requires clash { SomeDiffer (map span_in list.now) }
    ensures within { IfOk result (λ at. at < length list.now) }
    ensures before { IfOk result (λ at. NoneDiffer (map span_in (take at list.now))) }
    ensures clash { IfOk result (λ at. SomeDiffer (map span_in (take (at + 1) list.now))) }
{
    let mut low = 0;
    let mut high = list.len();
    'halves: while high - low > 1 {
        let middle = low + (high - low) / 2;
        match joined(alloc, list.split_at(middle).0)? {
            Some(_) => low = middle,
            None => high = middle,
        }
    }
    Ok(low)
}

/// The spans of the entries of a text.
pub fn read_spans(alloc: Global, text: &[u8]) -> Result<Spans, Or<CharsetFault>>
    requires { length text.now < 2 ^ 32 }
    ensures { ReadsEntries text.now result }
{
    let Gathered { list, fault } = gather(alloc, text)?;
    match joined(alloc, list.as_slice())? {
        Some(spans) => match fault {
            None => Ok(spans),
            Some(fault) => Err(Or::Fault(fault)),
        },
        None => {
            let place = list[first_clash(alloc, list.as_slice())?].place;
            let kind = CharsetKind::Twice;
            Err(Or::Fault(CharsetFault { place, kind }))
        }
    }
}
