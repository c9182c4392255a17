//! Hit lists: the places of one word in one row, ascending by field and position.
//!
//! A place counts as one number, `field * 65536 + position`. A list is the count of its places, and then for each how far its
//! number lies behind the one before, from 0; all are short numbers.
//!
//! ```text
//! position 2 of field 0                      01  02
//! positions 1 and 5 of field 0, 3 of field 1 03  01 04 fe ff 03
//! ```
//!
//! As with numbers a list has one spelling, and there are two readers: `read_hits` asks whether there is one, and `hits_at`
//! reads one that is known to be there.
ghost use Rattle.std.specs.Prelude.{◌≡◌, ℕ, ◌+◌, ◌-◌, ◌*◌, ◌/◌, ◌%◌, ◌<◌, ◌^◌, ◌++◌, ◌∷◌, List, [], length, take, MatchOption, IfOk, OnOk, OnErr};
ghost use Rattle.posting_codec.specs.Numbers.{number};
ghost use Rattle.posting_codec.specs.HitLists.{IsHit, key, AreHits, differences, hit_list, AreHitsAt};
ghost use Rattle.posting_codec.specs.steps.Differences.{IsBehind, AreDifferencesAt};

use crate::numbers::{number_at, number_length, put_number, read_number};
use srch_base::NoMemory;
use std::alloc::Global;

/// What a field counts in a hit's number, or key: positions take the low 16 bits.
const FIELD: u32 = 65_536;

/// Keys are below this: there are 32 fields.
const KEYS: u32 = 2_097_152;

/// A hit as one number.
#[inline]
fn key_of(hit: (u16, u32)) -> u32
    requires { IsHit hit }
    ensures { result ≡ key hit }
{
    u32::from(hit.0) * FIELD + hit.1
}

/// The hit of a key.
#[inline]
fn hit_of(key: u32) -> (u16, u32)
    requires { key < 2 ^ 21 }
    ensures { result ≡ (key / 65536, key % 65536) }
{
    ((key / FIELD) as u16, key % FIELD)
}

/// Appends the spelling of a hit list.
pub fn put_hits(hits: &[(u16, u32)], out: &mut Vec<u8>) -> Result<(), NoMemory>
    requires { AreHits hits.now }
    ensures ok { OnOk result (out.new.items ≡ out.old.items ++ hit_list hits.now) }
    ensures err { OnErr result (out.new.items ≡ out.old.items) }
{
    let before = out.len();
    if put_counted(hits, out).is_err() {
        out.truncate(before);
        return Err(NoMemory);
    }
    Ok(())
}

/// Appends the length of a hit list's spelling and the spelling, or a front of them where memory is refused. Most words stand once in
/// a row, whose bytes are known.
#[inline]
pub(crate) fn put_measured(hits: &[(u16, u32)], out: &mut Vec<u8>) -> Result<(), NoMemory>
    requires { AreHits hits.now }
    ensures ok { OnOk result (out.new.items ≡ out.old.items ++ (number (length (hit_list hits.now)) ++ hit_list hits.now)) }
    ensures front { take (length out.old.items) out.new.items ≡ out.old.items }
{
    if let [hit] = hits {
        return put_one(*hit, out);
    }
    put_number(hits_length(hits), out)?;
    put_hits(hits, out)
}

/// The same of one hit: three bytes near the beginning of the first field, five in the fields behind it and far on in it.
#[inline]
fn put_one(hit: (u16, u32), out: &mut Vec<u8>) -> Result<(), NoMemory>
    requires { AreHits (hit ∷ []) }
    ensures ok { OnOk result (out.new.items ≡ out.old.items ++ (number (length (hit_list (hit ∷ []))) ++ hit_list (hit ∷ []))) }
    ensures front { take (length out.old.items) out.new.items ≡ out.old.items }
{
    let key = key_of(hit);
    let low = (key % 128) as u8;
    let middle = (key / 128 % 128) as u8;
    let high = (key / 16_384) as u8;
    if key < 128 {
        out.extend_from_slice(&[2, 1, low])?;
    } else if key < 16_384 {
        out.extend_from_slice(&[3, 1, 128 + low, middle])?;
    } else {
        out.extend_from_slice(&[4, 1, 128 + low, 128 + middle, high])?;
    }
    Ok(())
}

/// Appends the count and the differences, or a front of them where memory is refused.
#[tactic(auto, using(crate::proofs::Writing::written_none, crate::proofs::Writing::written_more, crate::proofs::Writing::written_all, crate::proofs::Writing::written_front, crate::proofs::Writing::hit_here))]
fn put_counted(hits: &[(u16, u32)], out: &mut Vec<u8>) -> Result<(), NoMemory>
    requires { AreHits hits.now }
    ensures ok { OnOk result (out.new.items ≡ out.old.items ++ hit_list hits.now) }
    ensures front { take (length out.old.items) out.new.items ≡ out.old.items }
{
    put_number(hits.len() as u32, out)?;
    let mut last = 0;
    for hit in hits {
        let key = key_of(*hit);
        put_number(key - last, out)?;
        last = key;
    }
    Ok(())
}

/// The hits that are spelled at a place, and the place after them. None exactly where no hit list is.
#[tactic(auto, using(crate::proofs::Reading::none_count, crate::proofs::Reading::none_empty, crate::proofs::Reading::none_differences, crate::proofs::Reading::hits_spelled))]
pub fn read_hits(
    alloc: Global,
    bytes: &[u8],
    at: usize,
) -> Result<Option<(Vec<(u16, u32)>, usize)>, NoMemory>
    ensures { IfOk result (λ found. MatchOption found ((hits : List (ℕ × ℕ)) (rest : List ℕ) → AreHitsAt bytes.now at hits rest → ⊥) (λ read. (rest : List ℕ) × AreHitsAt bytes.now at read.0.items rest × (read.1 ≡ at + length (hit_list read.0.items)))) }
{
    match read_number(bytes, at) {
        Some((count, start)) if count > 0 => {
            let mut hits = Vec::new(alloc);
            let found = read_differences(bytes, start, count, &mut hits)?;
            match found {
                Some(end) => Ok(Some((hits, end))),
                None => Ok(None),
            }
        }
        _ => Ok(None),
    }
}

/// Reads so many hits into an empty list, and gives the place after them. None exactly where so many aren't spelled there.
#[tactic(auto, using(crate::proofs::Reading::gone_none, crate::proofs::Reading::gone_more, crate::proofs::Reading::gone_stop, crate::proofs::Reading::gone_all))]
fn read_differences(
    bytes: &[u8],
    start: usize,
    count: u32,
    into: &mut Vec<(u16, u32)>,
) -> Result<Option<usize>, NoMemory>
    requires { into.old.items ≡ [] }
    ensures { IfOk result (λ found. MatchOption found ((hits : List (ℕ × ℕ)) (rest : List ℕ) → AreDifferencesAt bytes.now start count hits rest → ⊥) (λ end. (rest : List ℕ) × AreDifferencesAt bytes.now start count into.new.items rest × (end ≡ start + length (differences 0 into.new.items)))) }
{
    let mut at = start;
    let mut last = 0;
    'hits: for _ in 0..count {
        match read_hit(bytes, at, last) {
            Some((hit, end)) => {
                into.push(hit)?;
                last = key_of(hit);
                at = end;
            }
            None => return Ok(None),
        }
    }
    Ok(Some(at))
}

/// The hit whose distance from this key is spelled at a place, and the place after it. None exactly where none is.
#[tactic(auto, using(crate::proofs::Reading::none_number, crate::proofs::Reading::none_zero, crate::proofs::Reading::none_large, crate::proofs::Reading::none_position, crate::proofs::Reading::read_one))]
fn read_hit(bytes: &[u8], at: usize, last: u32) -> Option<((u16, u32), usize)>
    requires { last < 2 ^ 21 }
    ensures { MatchOption result ((hit : ℕ × ℕ) (rest : List ℕ) → IsBehind bytes.now at last hit rest → ⊥) (λ read. (rest : List ℕ) × IsBehind bytes.now at last read.0 rest × (read.1 ≡ at + length (number (key read.0 - last)))) }
{
    let (step, end) = read_number(bytes, at)?;
    if step == 0 || step >= KEYS - last {
        return None;
    }
    let hit = hit_of(last + step);
    if hit.1 == 0 {
        return None;
    }
    Some((hit, end))
}

/// Appends the hits that are spelled at a place.
pub fn hits_at(bytes: &[u8], at: usize, into: &mut Vec<(u16, u32)>) -> Result<(), NoMemory>
    requires { (hits : List (ℕ × ℕ)) × (rest : List ℕ) × AreHitsAt bytes.now at hits rest }
    ensures ok { OnOk result ((hits : List (ℕ × ℕ)) (rest : List ℕ) → AreHitsAt bytes.now at hits rest → into.new.items ≡ into.old.items ++ hits) }
    ensures err { OnErr result (into.new.items ≡ into.old.items) }
{
    let before = into.len();
    let (count, mut place) = number_at(bytes, at);
    let mut key = 0;
    'hits: for _ in 0..count {
        let (step, end) = number_at(bytes, place);
        key += step;
        place = end;
        if into.push(hit_of(key)).is_err() {
            into.truncate(before);
            return Err(NoMemory);
        }
    }
    Ok(())
}

/// How many bytes the spelling of a hit list takes.
#[tactic(auto, using(crate::proofs::Writing::counted_none, crate::proofs::Writing::counted_more, crate::proofs::Writing::counted_all, crate::proofs::Writing::hit_counted))]
pub fn hits_length(hits: &[(u16, u32)]) -> u32
    requires { AreHits hits.now }
    ensures { result ≡ length (hit_list hits.now) }
{
    let mut length = number_length(hits.len() as u32);
    let mut last = 0;
    for hit in hits {
        let key = key_of(*hit);
        length += number_length(key - last);
        last = key;
    }
    length
}
