//! Posting lists from the occurrences of a word: those in one row are an entry.
ghost use Rattle.std.specs.Prelude.{◌≡◌, ◌≤◌, ◌/◌, ◌++◌, [], ◌∷◌, IsSomeAnd, length, map, drop, slice_get, IfOk, OnOk};
ghost use Rattle.posting_codec.specs.PostingLists.{least_after, posting_list};
ghost use Rattle.image_write.specs.steps.Gathering.{grouped, ArePostable};
ghost use Rattle.image_write.specs.steps.Places.{place_at};
ghost use Rattle.image_write.specs.steps.Posting.{IsPosted};

use crate::gathering::Occurrence;
use posting_codec::put_posting;
use srch_base::NoMemory;

/// Appends the posting list of these occurrences, and gives the number of its rows. The list of hits is used again for each row in
/// which more than one stands.
#[tactic(auto, using(crate::proofs::Posted::listed_more, crate::proofs::Posted::listed_none, crate::proofs::Posted::listed_all))]
pub(crate) fn put_list(
    places: &[Occurrence],
    hits: &mut Vec<(u16, u32)>,
    out: &mut Vec<u8>,
) -> Result<u32, NoMemory>
    requires { ArePostable 0 (grouped (map place_at places.now)) }
    ensures list { OnOk result (out.new.items ≡ out.old.items ++ posting_list 0 (grouped (map place_at places.now))) }
    ensures rows { IfOk result (λ count. count ≡ length (grouped (map place_at places.now))) }
{
    let mut previous = None;
    let mut count: u32 = 0;
    let mut at = 0;
    while at < places.len() {
        let row = places[at].row();
        let taken = put_row(previous, row, &places[at..], hits, out)?;
        at += taken;
        previous = Some(row);
        let more = count.checked_add(1).ok_or(NoMemory)?;
        count = more;
    }
    Ok(count)
}

/// Appends the entry of this row, in which the first occurrences are, and gives the number of these. A word mostly stands once in a
/// row: then the list of hits is left alone.
#[inline]
fn put_row(
    previous: Option<u32>,
    row: u32,
    places: &[Occurrence],
    hits: &mut Vec<(u16, u32)>,
    out: &mut Vec<u8>,
) -> Result<usize, NoMemory>
    requires first { IsSomeAnd (slice_get places.now 0) (λ place. place.stand / 32 ≡ row) }
    requires fits { ArePostable (least_after previous) (grouped (map place_at places.now)) }
    ensures some { IfOk result (λ count. 1 ≤ count) }
    ensures within { IfOk result (λ count. count ≤ length places.now) }
    ensures row { IfOk result (λ count. IsPosted (least_after previous) row (map place_at places.now) (map place_at (drop count places.now)) out.old.items out.new.items) }
{
    if places.len() == 1 || places[1].row() != row {
        put_posting(previous, row, &[hit_of(&places[0])], out)?;
        return Ok(1);
    }
    hits.clear();
    let count = take_row(row, places, hits)?;
    put_posting(previous, row, hits, out)?;
    Ok(count)
}

/// Appends the hits of the first occurrences, which are in this row, and gives the number of these occurrences.
fn take_row(row: u32, places: &[Occurrence], hits: &mut Vec<(u16, u32)>) -> Result<usize, NoMemory>
    requires none { hits.old.items ≡ [] }
    requires first { IsSomeAnd (slice_get places.now 0) (λ place. place.stand / 32 ≡ row) }
    ensures some { IfOk result (λ count. 1 ≤ count) }
    ensures within { IfOk result (λ count. count ≤ length places.now) }
    ensures row { IfOk result (λ count. grouped (map place_at places.now) ≡ (row, hits.new.items) ∷ grouped (map place_at (drop count places.now))) }
{
    for (number, place) in places.iter().enumerate() {
        if place.row() != row {
            return Ok(number);
        }
        hits.push(hit_of(place))?;
    }
    Ok(places.len())
}

/// Where an occurrence stands in its row.
#[inline]
fn hit_of(place: &Occurrence) -> (u16, u32)
    ensures { result ≡ (place_at place.now).1 }
{
    (place.field(), u32::from(place.position))
}
