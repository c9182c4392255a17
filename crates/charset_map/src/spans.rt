//! Spans in order, of which no two share a number.
//!
//! A span says: the characters from one number to another, and the number of the first one's value. Spans that overlap
//! and agree are joined into one, so that looking a number up is one bisection. A span that is added after all others
//! costs no more than what it is joined with; one that is added before others moves these.
ghost use Rattle.std.specs.Prelude.{◌≡◌, ◌<◌, [], IfSome, MatchOption};
ghost use Rattle.charset_map.specs.steps.Adding.{AddsSpan};
ghost use Rattle.charset_map.specs.Spans.{number_in, number_of};
ghost use Rattle.charset_map.specs.steps.SpanLists.{AreApart, Differ, IsSound, are_alike, joined};
ghost use Rattle.charset_map.specs.steps.Placing.{IsPlaceFor};

use crate::span::Span;
use srch_base::NoMemory;
use std::alloc::Global;
use std::marker::Model;

/// Spans in order, of which no two share a number. Contracts see their list.
#[derive(Drop)]
pub struct Spans {
    list: Vec<Span>,
}

impl Model for Spans {
    ghost use Rattle.std.specs.Prelude.{List};
    ghost use Rattle.charset_map.specs.steps.SpanLists.{AreApart};
    ghost use Rattle.charset_map.specs.declared.span.Span.{Span};

    ghost Value = { List Span };

    ghost view = { λ spans. spans.list.items };

    ghost invariant = { λ spans. AreApart 0 spans.list.items };
}

impl Spans {
    pub fn new(alloc: Global) -> Self
        ensures { result ≡ [] }
    {
        Spans {
            list: Vec::new(alloc),
        }
    }

    /// The value of a number, by bisection.
    pub fn number(&self, number: u32) -> Option<u32>
        ensures value { result ≡ number_of self.now number }
        ensures within { IfSome result (λ v. v < 0x10_F800) }
    {
        look_up(self.list.as_slice(), number)
    }

    /// Adds a span, and says whether no number of it had another value before.
    pub fn add(&mut self, span: Span) -> Result<bool, NoMemory>
        requires { IsSound span }
        ensures { AddsSpan (number_of self.old) (number_of self.new) span result }
    {
        match place_for(self.list.as_slice(), &span) {
            None => Ok(false),
            Some(place) => {
                self.list.drain(place.from..place.to);
                self.list.insert(place.from, place.whole)?;
                Ok(true)
            }
        }
    }
}

/// Where a span goes among others.
#[derive(Clone, Copy)]
struct Place {
    /// From here on the spans share a number with it,
    from: usize,
    /// and from here on they don't.
    to: usize,
    /// The span with those that share a number with it.
    whole: Span,
}

/// Where a span goes among spans in order; nowhere where some number has another value there.
fn place_for(spans: &[Span], span: &Span) -> Option<Place>
    requires apart { AreApart 0 spans.now }
    requires sound { IsSound span.now }
    ensures { MatchOption result (Differ (number_of spans.now) (number_in span.now)) (λ place. IsPlaceFor span.now spans.now place) }
{
    let from = spans.partition_point(|old| old.last < span.first);
    let mut whole = *span;
    let mut to = from;
    while to < spans.len() {
        let old = spans[to];
        if span.last < old.first {
            break;
        }
        if !alike(&old, span) {
            return None;
        }
        whole = join(&whole, &old);
        to += 1;
    }
    Some(Place { from, to, whole })
}

/// The value of a number by spans in order.
fn look_up(spans: &[Span], number: u32) -> Option<u32>
    requires { AreApart 0 spans.now }
    ensures value { result ≡ number_of spans.now number }
    ensures within { IfSome result (λ v. v < 0x10_F800) }
{
    let place = spans.partition_point(|span| span.last < number);
    match spans.get(place) {
        Some(span) if span.first <= number => Some(span.value + (number - span.first)),
        _ => None,
    }
}

/// Whether two spans put the values as far after the characters.
fn alike(span: &Span, other: &Span) -> bool
    requires sound { IsSound span.now }
    requires other_sound { IsSound other.now }
    ensures { result ≡ are_alike span.now other.now }
{
    span.value + other.first == other.value + span.first
}

/// The span from where the first of the two begins to where the last one ends.
fn join(span: &Span, other: &Span) -> Span
    ensures { result ≡ joined span.now other.now }
{
    Span {
        first: span.first.min(other.first),
        last: span.last.max(other.last),
        value: if other.first < span.first {
            other.value
        } else {
            span.value
        },
    }
}
