//! Numbers and hit lists at a place of some bytes, by both readers and the writer of each.
ghost use Rattle.std.specs.Prelude.{ℕ, List};
ghost use Rattle.posting_codec.specs.HitLists.{AreHits, AreHitsAt};

use crate::telling::put_written;
use posting_codec::{hits_at, number_at, put_hits, put_number, read_hits, read_number};
use std::alloc::Global;

/// Whether a number is written as these bytes, behind another one.
fn is_written(alloc: Global, value: u32, stands: Option<&[u8]>) -> bool {
    let mut out = Vec::new(alloc);
    out.push(0xff).is_ok() && put_number(value, &mut out).is_ok() && out.get(1..) == stands
}

/// Tells the number that stands at the place as one reader finds it, and whether what the other one finds is written as it stands.
pub(crate) fn put_number_at(
    alloc: Global,
    bytes: &[u8],
    at: usize,
    told: &mut String,
) -> Option<()> {
    match read_number(bytes, at) {
        Some((value, end)) => {
            let (again, to) = number_at(bytes, at);
            write!(told, "{again} to {to} ").ok()?;
            put_written(is_written(alloc, value, bytes.get(at..end)), told)
        }
        None => told.push_str("none").ok(),
    }
}

/// Tells a hit as field:position.
fn put_hit((field, position): (u16, u32), told: &mut String) -> Option<()> {
    write!(told, "{field}:{position} ").ok()
}

/// Tells hits, or how many there are, and the last of them, where they are many.
fn put_list(hits: &[(u16, u32)], told: &mut String) -> Option<()> {
    if hits.len() > 20 {
        let count = hits.len();
        write!(told, "{count} hits up to ").ok()?;
        return put_hit(*hits.last()?, told);
    }
    for hit in hits {
        put_hit(*hit, told)?;
    }
    Some(())
}

/// Tells the hits that the other reader finds where these stand.
fn put_again(alloc: Global, bytes: &[u8], at: usize, told: &mut String) -> Option<()>
    requires { (found : List (ℕ × ℕ)) × (rest : List ℕ) × AreHitsAt bytes.now at found rest }
{
    let mut again = Vec::new(alloc);
    hits_at(bytes, at, &mut again).ok()?;
    put_list(again.as_slice(), told)
}

/// Whether hits are written as these bytes, behind another one.
fn are_written(alloc: Global, hits: &[(u16, u32)], stands: Option<&[u8]>) -> bool
    requires { AreHits hits.now }
{
    let mut out = Vec::new(alloc);
    out.push(0xff).is_ok() && put_hits(hits, &mut out).is_ok() && out.get(1..) == stands
}

/// Tells the hits that the other reader finds where these stand, up to this end, and whether these are written as they stand.
fn put_found(
    alloc: Global,
    bytes: &[u8],
    at: usize,
    end: usize,
    hits: &[(u16, u32)],
    told: &mut String,
) -> Option<()>
    requires hits { AreHits hits.now }
    requires there { (found : List (ℕ × ℕ)) × (rest : List ℕ) × AreHitsAt bytes.now at found rest }
{
    put_again(alloc, bytes, at, told)?;
    write!(told, "to {end} ").ok()?;
    put_written(are_written(alloc, hits, bytes.get(at..end)), told)
}

/// Tells the hits that stand at the place.
pub(crate) fn put_hits_at(alloc: Global, bytes: &[u8], at: usize, told: &mut String) -> Option<()> {
    match read_hits(alloc, bytes, at).ok()? {
        Some((hits, end)) => put_found(alloc, bytes, at, end, hits.as_slice(), told),
        None => told.push_str("none").ok(),
    }
}
