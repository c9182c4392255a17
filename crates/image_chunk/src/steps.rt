//! Steps along a posting list. A cursor has the next row itself, so that it is told by one comparison, and the place behind that
//! row's number in its entry, so that each entry is read once.
//!
//! ```text
//! an entry     distance of the row · length of the hit list · count of hits · distances of hits
//!                                  ^ at
//! ```
ghost use Rattle.std.specs.Prelude.{◌≡◌, ◌+◌, ◌<◌, ◌≤◌, ◌^◌, ◌++◌, ℕ, List, ◌∷◌, drop, length, nat_lt, if◌then◌else◌, OnOk, OnErr};
ghost use Rattle.doc_types.specs.declared.cursor.TheConstants.{NO_ROW};
ghost use Rattle.posting_codec.specs.HitLists.{AreHits, AreHitsAt, hit_list};
ghost use Rattle.posting_codec.specs.PostingLists.{posting_list};
ghost use Rattle.image_chunk.specs.Places.{Entry, Here, IsHere, IsList, Rising};
ghost use Rattle.image_chunk.specs.steps.FieldBits.{field_bits};

use doc_types::NO_ROW;
use posting_codec::{hits_at, number_at};
use srch_base::NoMemory;

/// What a field counts in the number of a hit.
const FIELD: u32 = 65_536;

/// The place and the row of the first entry of a list.
pub(crate) fn first(list: &[u8], at: usize) -> (u32, u32)
    requires small { length list.now < 2 ^ 31 }
    requires here { IsList list.now at }
    ensures { (entry : Entry) (entries : List Entry) → drop at list.now ≡ posting_list 0 (entry ∷ entries) → Rising 0 NO_ROW (entry ∷ entries) → Here list.now result.0 result.1 (entry ∷ entries) }
{
    let (ahead, place) = number_at(list, at);
    (place as u32, ahead - 1)
}

/// The place and the row after a row of a list.
#[inline(always)]
pub(crate) fn step(list: &[u8], at: u32, index: u32) -> (u32, u32)
    requires small { length list.now < 2 ^ 31 }
    requires here { IsHere list.now at index }
    ensures { (entry : Entry) (entries : List Entry) → Here list.now at index (entry ∷ entries) → Rising (entry.0 + 1) NO_ROW entries → Here list.now result.0 result.1 entries }
{
    let (long, hits) = number_at(list, at as usize);
    let end = hits + long as usize;
    if end < list.len() {
        let (ahead, next) = number_at(list, end);
        (next as u32, index + ahead)
    } else {
        (at, NO_ROW)
    }
}

/// The bytes of the hit list of the row at this place.
#[inline(always)]
pub(crate) fn hit_bytes(list: &[u8], at: u32, index: u32) -> &[u8]
    requires small { length list.now < 2 ^ 31 }
    requires here { IsHere list.now at index }
    ensures { (entry : Entry) (entries : List Entry) → Here list.now at index (entry ∷ entries) → result.now ≡ hit_list entry.1 }
{
    let (long, start) = number_at(list, at as usize);
    &list[start..start + long as usize]
}

/// Appends the hits of the row at this place.
pub(crate) fn put_hits(
    list: &[u8],
    at: u32,
    index: u32,
    into: &mut Vec<(u16, u32)>,
) -> Result<(), NoMemory>
    requires small { length list.now < 2 ^ 31 }
    requires here { IsHere list.now at index }
    ensures ok { OnOk result ((entry : Entry) (entries : List Entry) → Here list.now at index (entry ∷ entries) → AreHits entry.1 → into.new.items ≡ into.old.items ++ entry.1) }
    ensures err { OnErr result (into.new.items ≡ into.old.items) }
{
    let (_, start) = number_at(list, at as usize);
    hits_at(list, start, into)?;
    Ok(())
}

/// The fields of the hits of the row at this place, as bits.
pub(crate) fn fields_of(list: &[u8], at: u32, index: u32) -> u32
    requires small { length list.now < 2 ^ 31 }
    requires here { IsHere list.now at index }
    ensures { (entry : Entry) (entries : List Entry) → Here list.now at index (entry ∷ entries) → AreHits entry.1 → result ≡ field_bits 0 entry.1 }
{
    let (_, start) = number_at(list, at as usize);
    hit_fields(list, start)
}

/// The fields of the hits that are spelled at a place, as bits.
fn hit_fields(bytes: &[u8], at: usize) -> u32
    requires { (hits : List (ℕ × ℕ)) × (rest : List ℕ) × AreHitsAt bytes.now at hits rest }
    ensures { (hits : List (ℕ × ℕ)) (rest : List ℕ) → AreHitsAt bytes.now at hits rest → result ≡ field_bits 0 hits }
{
    let (count, mut place) = number_at(bytes, at);
    let mut key = 0;
    let mut known = (0, 0);
    'hits: for _ in 0..count {
        let (step, end) = number_at(bytes, place);
        key += step;
        place = end;
        known = with_field(known, key / FIELD);
    }
    known.0
}

/// Bits with that of a field, and the least field that is none of them, where the fields below that one are known.
#[inline]
fn with_field(known: (u32, u32), field: u32) -> (u32, u32)
    requires few { field < 32 }
    requires below { known.0 < 2 ^ known.1 }
    ensures { result ≡ (if nat_lt field known.1 then known else (known.0 + 2 ^ field, field + 1)) }
{
    if field < known.1 {
        known
    } else {
        (known.0 + (1 << field), field + 1)
    }
}
