//! The most hits of a field at one offset. The offset of a hit is its position less its query position, which is 1 to 255.
//!
//! Where the positions of a field's hits ascend, as evaluation gives them, only 255 offsets can come again at any time: those just
//! below the position that was reached. So their counts have places in a ring of 256, and the time is linear in the hits, however
//! long a field can be. Hits in any other order are counted for each offset anew, and so are a few hits, for which a ring isn't
//! worth its clearing.
ghost use Rattle.std.specs.Prelude.{◌≡◌, ℕ, ◌+◌, ◌<◌, ◌%◌, ◌==◌, ◌&&◌, length, slice_set, IfSome};
ghost use Rattle.std.specs.List.{filter};
ghost use Rattle.rankers.specs.Weight.{in_field, lcs, same_offset};
ghost use Rattle.rankers.specs.steps.FieldValue.{AreWithin};
ghost use Rattle.rankers.specs.steps.Offsets.{count_in};

use doc_types::Hit;

/// The greatest query position. The ring has a hit's offset as much higher, since it can be below 0.
const MOST_QUERY: u32 = 255;

/// How many places the ring has: more than there are offsets that hits at one position can have.
const RING: u32 = 256;

/// So many hits at most are few.
const FEW: usize = 6;

/// The most hits of the field that stand at one offset.
pub(crate) fn longest(hits: &[Hit], field: u16) -> u64
    requires { AreWithin hits.now }
    ensures { result ≡ lcs (in_field field hits.now) }
{
    if hits.len() <= FEW {
        return longest_in_any_order(hits, field);
    }
    match longest_in_order(hits, field) {
        Some(most) => most,
        None => longest_in_any_order(hits, field),
    }
}

/// The same where the positions of the field's hits ascend.
fn longest_in_order(hits: &[Hit], field: u16) -> Option<u64>
    requires { AreWithin hits.now }
    ensures { IfSome result (λ most. most ≡ lcs (in_field field hits.now)) }
{
    let mut offsets = [0; RING as usize];
    let mut counts = [0; RING as usize];
    let mut reached = 0;
    let mut most = 0;
    for hit in hits {
        if hit.field == field {
            if hit.position < reached {
                return None;
            }
            reached = hit.position;
            let offset = hit.position + MOST_QUERY - u32::from(hit.query);
            let count = count_one(&mut offsets, &mut counts, offset);
            most = most.max(count);
        }
    }
    Some(u64::from(most))
}

/// Counts a hit at the offset, and answers how many there are by now. Another offset that had its place is forgotten.
fn count_one(offsets: &mut [u32], counts: &mut [u8], offset: u32) -> u8
    requires offsets { length offsets.old ≡ RING }
    requires counts { length counts.old ≡ RING }
    requires few { count_in offsets.old counts.old offset < 255 }
    ensures count { result ≡ count_in offsets.old counts.old offset + 1 }
    ensures offsets { offsets.new ≡ slice_set offsets.old (offset % RING) offset }
    ensures counts { counts.new ≡ slice_set counts.old (offset % RING) result }
{
    let place = (offset % RING) as usize;
    let before = if offsets[place] == offset {
        counts[place]
    } else {
        0
    };
    offsets[place] = offset;
    counts[place] = before + 1;
    before + 1
}

/// The same for hits in any order.
fn longest_in_any_order(hits: &[Hit], field: u16) -> u64
    ensures { result ≡ lcs (in_field field hits.now) }
{
    let mut most = 0;
    for hit in hits {
        if hit.field == field {
            most = most.max(count_at_offset(hits, field, hit));
        }
    }
    most
}

/// How many hits of the field stand at the offset of this one.
fn count_at_offset(hits: &[Hit], field: u16, hit: &Hit) -> u64
    ensures { result ≡ length (filter (λ other. (other.field == field) && same_offset hit.now other) hits.now) }
{
    hits.iter()
        .filter(|other| other.field == field && is_at_offset(hit, other))
        .count() as u64
}

/// Whether the other hit stands at the offset of the first.
fn is_at_offset(hit: &Hit, other: &Hit) -> bool
    ensures { result ≡ same_offset hit.now other.now }
{
    u64::from(other.position) + u64::from(hit.query)
        == u64::from(hit.position) + u64::from(other.query)
}
