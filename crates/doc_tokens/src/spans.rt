//! The spans of zones, from the tags of zones among the words.
//!
//! A span goes from a tag that opens a zone to the zone's next tag, or to the text's end. The tags are read from the
//! last one on, with the place where each zone ends in an array: so the end is known at the tag that opens. Spans
//! without a word are dropped.
ghost use Rattle.std.specs.Prelude.{◌≡◌, ◌<◌, ◌≤◌, [], ◌∷◌, All, IfOk, OnOk, length, map, option_to_list};
ghost use Rattle.doc_tokens.specs.Tokens.{AreSpans};
ghost use Rattle.doc_tokens.specs.Spans.{span_within};
ghost use Rattle.doc_tokens.specs.steps.TokenReader.{Descend, IsPlaceFor, PutsSpans};

use crate::sign::ZoneTag;
use doc_types::{MAX_ZONES, TokenWord, ZoneSpan};
use srch_base::NoMemory;
use std::alloc::Global;

/// Where a span goes in a list in which each precedes those before it: after all that it precedes.
fn place_for(spans: &[ZoneSpan], span: ZoneSpan) -> usize
    ensures within { result ≤ length spans.now }
    ensures place { IsPlaceFor spans.now span result }
{
    let mut at = spans.len();
    while at > 0 && spans[at - 1].precedes(&span) {
        at -= 1;
    }
    at
}

/// Puts a span at its place in a list in which each precedes those before it, unless it is there.
fn put_span(spans: &mut Vec<ZoneSpan>, span: ZoneSpan) -> Result<(), NoMemory>
    requires { Descend spans.old.items }
    ensures { OnOk result (PutsSpans spans.old.items (span ∷ []) spans.new.items) }
{
    let at = place_for(spans.as_slice(), span);
    if at > 0 && !span.precedes(&spans[at - 1]) {
        return Ok(());
    }
    spans.insert(at, span)?;
    Ok(())
}

/// Puts a span, if there is one.
fn put_some(spans: &mut Vec<ZoneSpan>, span: Option<ZoneSpan>) -> Result<(), NoMemory>
    requires { Descend spans.old.items }
    ensures { OnOk result (PutsSpans spans.old.items (option_to_list span) spans.new.items) }
{
    match span {
        Some(span) => put_span(spans, span),
        None => Ok(()),
    }
}

/// The span that a tag begins, which ends before the word of this number, if it holds a word.
fn span_from(words: &[TokenWord], tag: ZoneTag, end: usize) -> Option<ZoneSpan>
    requires { end ≤ length words.now }
    ensures { option_to_list result ≡ span_within (map (λ word. word.position) words.now) tag end }
{
    if tag.opens && tag.words < end {
        Some(ZoneSpan {
            zone: tag.zone,
            first: words[tag.words].position,
            last: words[end - 1].position,
        })
    } else {
        None
    }
}

/// The spans of the zones that hold a word, in their order.
///
/// The tags are read from the last one on, so that a zone's end is known at the tag that opens it. Spans then come by
/// descending first position, and each goes to the end of the list, but for the few that begin at the same word.
pub(crate) fn zone_spans(
    alloc: Global,
    tags: &[ZoneTag],
    words: &[TokenWord],
) -> Result<Vec<ZoneSpan>, NoMemory>
    requires zones { All (λ tag. tag.zone < MAX_ZONES) tags.now }
    requires counts { All (λ tag. tag.words ≤ length words.now) tags.now }
    ensures { IfOk result (λ spans. AreSpans (map (λ word. word.position) words.now) tags.now spans.items) }
{
    let mut spans = Vec::new(alloc);
    let mut ends = [words.len(); MAX_ZONES];
    let mut left = tags.len();
    while left > 0 {
        left -= 1;
        let tag = tags[left];
        let zone = usize::from(tag.zone);
        put_some(&mut spans, span_from(words, tag, ends[zone]))?;
        ends[zone] = tag.words;
    }
    spans.reverse();
    Ok(spans)
}
