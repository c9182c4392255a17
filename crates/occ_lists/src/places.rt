//! Places of a keyword inside spans of zones. Places ascend, so that those inside a span stand side by side and are found by
//! binary search.
ghost use Rattle.std.specs.Prelude.{◌≡◌, IsTrue, not};
ghost use Rattle.std.specs.List.{filter};
ghost use Rattle.occ_lists.specs.Places.{ArePlaces, is_before, is_within, within_all};

use doc_types::ZoneSpan;

/// Whether the one place comes before the other: by field, then by position.
pub(crate) fn is_before(place: (u16, u32), later: (u16, u32)) -> bool
    ensures { result ≡ is_before place later }
{
    place.0 < later.0 || place.0 == later.0 && place.1 < later.1
}

/// The places that lie inside each of the spans, each of which has its field's number beside it.
#[inline]
pub fn within<'a>(places: &'a [(u16, u32)], spans: &[(u16, ZoneSpan)]) -> &'a [(u16, u32)]
    requires { ArePlaces places.now }
    ensures ascend { ArePlaces result.now }
    ensures all { result.now ≡ filter (within_all spans.now) places.now }
{
    let mut rest = places;
    for span in spans {
        rest = inside(rest, *span);
    }
    rest
}

fn inside(places: &[(u16, u32)], span: (u16, ZoneSpan)) -> &[(u16, u32)]
    requires { ArePlaces places.now }
    ensures ascend { ArePlaces result.now }
    ensures all { result.now ≡ filter (is_within span) places.now }
{
    let first = (span.0, span.1.first);
    let last = (span.0, span.1.last);
    let from = places.partition_point(|place| is_before(*place, first));
    let to = places.partition_point(|place| !is_before(last, *place));
    places.get(from..to).unwrap_or(&[])
}

/// The places that don't come before this one.
pub(crate) fn from_on(places: &[(u16, u32)], first: (u16, u32)) -> &[(u16, u32)]
    requires { ArePlaces places.now }
    ensures ascend { ArePlaces result.now }
    ensures all { result.now ≡ filter (λ place. not (is_before place first)) places.now }
{
    let begin = places.partition_point(|place| is_before(*place, first));
    places.split_at(begin).1
}

/// The places that don't come after this one.
pub(crate) fn up_to(places: &[(u16, u32)], last: (u16, u32)) -> &[(u16, u32)]
    requires { ArePlaces places.now }
    ensures { result.now ≡ filter (λ place. not (is_before last place)) places.now }
{
    let end = places.partition_point(|place| !is_before(last, *place));
    places.split_at(end).0
}
