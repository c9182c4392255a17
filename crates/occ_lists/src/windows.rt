//! The windows of a proximity. From each place of a listed keyword, the window has to reach so far that each word is in it as
//! often as it is listed; the places at which one ends are then found by binary search.
ghost use Rattle.std.specs.Prelude.{◌≡◌, ℕ, ◌+◌, ◌-◌, ◌≤◌, ◌<◌, ◌^◌, ◌++◌, nat_le, nat_lt, All, IfOk, OnOk};
ghost use Rattle.std.specs.List.{filter};
ghost use Rattle.occ_lists.specs.OccLists.{SameMembers};
ghost use Rattle.occ_lists.specs.Windows.{windows};
ghost use Rattle.occ_lists.specs.steps.Ends.{IsProximity, IsSorted, ends_at, last_of, made, to_each, widest};
ghost use Rattle.occ_lists.specs.Terms.{IsPlaced, listed_in, CoverAlike};

use crate::buffers::Buffers;
use crate::occ::Occ;
use crate::places::{from_on, up_to};
use crate::term::Term;
use crate::wanted::{Wanted, least_end, listed_words, places_of_all};
use doc_types::ZoneSpan;
use srch_base::NoMemory;

/// The listed words, and the places of all, ascending, each once.
#[derive(Drop)]
struct Proximity {
    words: Vec<Wanted>,
    all: Vec<(u16, u32)>,
    /// Each window has fewer positions: n and the number of listed keywords.
    size: u64,
}

/// Appends the windows of a proximity n of the keywords, by their places inside the spans, and to a list of their own the widest of
/// those from each place at which one begins, which hold the places that the windows hold.
///
/// The windows may be many: from each place each place that n lets it reach.
pub fn put_windows(
    n: u32,
    terms: &[Term],
    spans: &[(u16, ZoneSpan)],
    buffers: &mut Buffers,
    out: &mut Vec<Occ>,
    longest: &mut Vec<Occ>,
) -> Result<(), NoMemory>
    requires { All IsPlaced terms.now }
    ensures windows { OnOk result (SameMembers out.new.items (out.old.items ++ windows n (listed_in spans.now terms.now))) }
    ensures widest { OnOk result (CoverAlike longest.old.items longest.new.items (windows n (listed_in spans.now terms.now))) }
{
    let proximity = gathered(n, terms, spans, buffers)?;
    proximity.put_both(out, longest)?;
    keep(proximity, buffers);
    Ok(())
}

/// Appends the widest of the windows from each place at which one begins. They hold the places that the windows hold.
pub fn put_widest(
    n: u32,
    terms: &[Term],
    spans: &[(u16, ZoneSpan)],
    buffers: &mut Buffers,
    out: &mut Vec<Occ>,
) -> Result<(), NoMemory>
    requires { All IsPlaced terms.now }
    ensures { OnOk result (CoverAlike out.old.items out.new.items (windows n (listed_in spans.now terms.now))) }
{
    let proximity = gathered(n, terms, spans, buffers)?;
    proximity.put_longest(out)?;
    keep(proximity, buffers);
    Ok(())
}

impl Proximity {
    /// Appends the windows from each place to each at which one ends, and to the other list that to the last of these.
    fn put_both(&self, out: &mut Vec<Occ>, longest: &mut Vec<Occ>) -> Result<(), NoMemory>
        requires { IsSorted self.now }
        ensures made { OnOk result (out.new.items ≡ out.old.items ++ made self.now) }
        ensures widest { OnOk result (longest.new.items ≡ longest.old.items ++ widest self.now) }
    {
        for from in self.all.iter() {
            let ends = self.ends_from(*from);
            put_each(*from, ends, out)?;
            put_last(*from, ends, longest)?;
        }
        Ok(())
    }

    /// Appends the window from each place to the last at which one ends.
    fn put_longest(&self, out: &mut Vec<Occ>) -> Result<(), NoMemory>
        requires { IsSorted self.now }
        ensures { OnOk result (out.new.items ≡ out.old.items ++ widest self.now) }
    {
        for from in self.all.iter() {
            put_last(*from, self.ends_from(*from), out)?;
        }
        Ok(())
    }

    /// The places at which windows from this place end.
    fn ends_from(&self, from: (u16, u32)) -> &[(u16, u32)]
        requires sorted { IsSorted self.now }
        requires first { 1 ≤ from.1 }
        ensures { result.now ≡ filter (ends_at self.now from) self.now.all.items }
    {
        let Some(end) = least_end(&self.words, from) else {
            return &[];
        };
        let late = from_on(&self.all, (from.0, end));
        up_to(late, (from.0, reach(self.size, from.1)))
    }
}

/// Appends the occurrence from a place to each of these of its field.
fn put_each(from: (u16, u32), ends: &[(u16, u32)], out: &mut Vec<Occ>) -> Result<(), NoMemory>
    ensures { OnOk result (out.new.items ≡ out.old.items ++ to_each from ends.now) }
{
    for to in ends {
        out.push(Occ {
            field: from.0,
            first: from.1,
            last: to.1,
        })?;
    }
    Ok(())
}

/// Appends the occurrence from a place to the last of these of its field.
fn put_last(from: (u16, u32), ends: &[(u16, u32)], out: &mut Vec<Occ>) -> Result<(), NoMemory>
    ensures { OnOk result (out.new.items ≡ out.old.items ++ to_each from (last_of ends.now)) }
{
    if let Some(to) = ends.last() {
        out.push(Occ {
            field: from.0,
            first: from.1,
            last: to.1,
        })?;
    }
    Ok(())
}

/// The last position that a window from this one may reach, which has fewer positions than the size.
fn reach(size: u64, first: u32) -> u32
    requires { 1 ≤ first }
    ensures { (last : ℕ) → first ≤ last → last < 2 ^ 32 → nat_lt (last + 1 - first) size ≡ nat_le last result }
{
    let last = u64::from(first).saturating_add(size).saturating_sub(2);
    u32::try_from(last).unwrap_or(u32::MAX)
}

/// The listed words of the keywords, with their places inside the spans.
fn gathered(
    n: u32,
    terms: &[Term],
    spans: &[(u16, ZoneSpan)],
    buffers: &mut Buffers,
) -> Result<Proximity, NoMemory>
    requires { All IsPlaced terms.now }
    ensures sorted { IfOk result (λ proximity. IsSorted proximity) }
    ensures is { IfOk result (IsProximity n (listed_in spans.now terms.now)) }
{
    let words = listed_words(terms, spans, buffers)?;
    let all = places_of_all(terms, spans, buffers)?;
    let size = u64::from(n) + terms.len() as u64;
    Ok(Proximity { words, all, size })
}

/// Gives the lists back.
fn keep(proximity: Proximity, buffers: &mut Buffers) {
    let Proximity { words, all, .. } = proximity;
    buffers.keep_places(all);
    for wanted in words {
        buffers.keep_places(wanted.places);
    }
}
