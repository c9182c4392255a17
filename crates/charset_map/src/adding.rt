//! The span of one entry.
//!
//! An entry's two ranges must rise and be equally long; it then is a span of characters, by their numbers, whose values
//! follow each other too. What is wrong with an entry by itself is found here, in the order Entry, Range, Lengths.
ghost use Rattle.std.specs.Prelude.{IfOk};
ghost use Rattle.charset_map.specs.steps.Adding.{HasSpan};
ghost use Rattle.charset_map.specs.steps.Gathering.{WritesSpan};
ghost use Rattle.charset_map.specs.steps.SpanLists.{IsSound};

use crate::characters::ordinal_of;
use crate::entries::{Entry, read_entry};
use crate::fault::CharsetKind;
use crate::span::Span;

/// The span of the entry that a text is.
pub fn read_span(text: &[u8]) -> Result<Span, CharsetKind>
    ensures { WritesSpan text.now result }
{
    let Some(entry) = read_entry(text) else {
        return Err(CharsetKind::Entry);
    };
    match span_of(&entry) {
        Ok(span) => Ok(span),
        Err(kind) => Err(kind),
    }
}

/// The span of an entry.
fn span_of(entry: &Entry) -> Result<Span, CharsetKind>
    ensures span { HasSpan entry.now result }
    ensures sound { IfOk result IsSound }
{
    if entry.from.last < entry.from.first || entry.to.last < entry.to.first {
        return Err(CharsetKind::Range);
    }
    let first = ordinal_of(entry.from.first);
    let last = ordinal_of(entry.from.last);
    let value = ordinal_of(entry.to.first);
    if ordinal_of(entry.to.last) - value != last - first {
        return Err(CharsetKind::Lengths);
    }
    Ok(Span { first, last, value })
}
