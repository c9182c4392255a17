//! A posting list, whose hits take their places.
ghost use Rattle.std.specs.Prelude.{◌≡◌, ℕ, ◌+◌, ◌-◌, ◌*◌, ◌<◌, ◌≤◌, ◌^◌, List, length, map, MatchOption};
ghost use Rattle.posting_codec.specs.Numbers.{number};
ghost use Rattle.posting_codec.specs.HitLists.{AreHitsAt, differences, hit_list};
ghost use Rattle.posting_codec.specs.PostingLists.{IsEntryAt, posting, posting_list};
ghost use Rattle.posting_codec.specs.steps.Differences.{AreDifferencesAt};
ghost use Rattle.bit_lists.specs.BitLists.{bits_of};
ghost use Rattle.chunk_damage.specs.WordLists.{Entry};
ghost use Rattle.image_cover.specs.Covers.{seen};
ghost use Rattle.image_cover.specs.Lists.{AreEntriesAt, places_in, places_of};
ghost use Rattle.image_cover.specs.Places.{AreOwn, AreStarts, own_at, place_at, place_in, take_all};

use crate::cover::Cover;
use crate::numbers::{head_of, hit_behind, key_of};
use posting_reads::short_of;

/// The place of a hit in a row whose places begin here.
#[inline(always)]
fn place_of(own: &[u32], hit: (u16, u32)) -> usize
    requires own { 0 < length own.now }
    requires position { 0 < hit.1 }
    ensures { result ≡ place_at own.now hit }
{
    let field = hit.0 as usize;
    if field + 2 < own.len() {
        let end = own[field + 1] as usize + hit.1 as usize;
        if end <= own[field + 2] as usize {
            return end - 1;
        }
    }
    own[0] as usize
}

/// Where the places of a row begin, of it and of its fields.
#[inline(always)]
fn own_of(starts: &[u32], width: usize, row: u32) -> &[u32]
    requires { (row + 1) * width < length starts.now }
    ensures { result.now ≡ own_at starts.now width row }
{
    let first = row as usize * width;
    &starts[first..first + width + 1]
}

/// Reads so many hits of a row, each of which takes its place; gives the place behind them.
#[tactic(auto, using(posting_codec::proofs::Reading::gone_none, posting_codec::proofs::Reading::gone_stop))]
fn take_differences(
    bytes: &[u8],
    start: usize,
    count: u32,
    row: u32,
    own: &[u32],
    cover: &mut Cover,
) -> Option<usize>
    requires { AreOwn own.now (length (bits_of cover.old.taken)) }
    ensures { MatchOption result ((hits : List (ℕ × ℕ)) (rest : List ℕ) → AreDifferencesAt bytes.now start count hits rest → ⊥) (λ end. (hits : List (ℕ × ℕ)) × (rest : List ℕ) × AreDifferencesAt bytes.now start count hits rest × (end ≡ start + length (differences 0 hits)) × (seen cover.new ≡ take_all (seen cover.old) (map (place_in row own.now) hits))) }
{
    let mut at = start;
    let mut last = 0;
    'hits: for _ in 0..count {
        let (hit, end) = hit_behind(bytes, at, last)?;
        let place = place_of(own, hit);
        cover.take(row, place);
        last = key_of(hit);
        at = end;
    }
    Some(at)
}

/// Reads a hit list of a row, each hit of which takes its place; gives the place behind it.
#[tactic(auto, using(posting_codec::proofs::Reading::none_count))]
fn take_hits(bytes: &[u8], at: usize, row: u32, own: &[u32], cover: &mut Cover) -> Option<usize>
    requires { AreOwn own.now (length (bits_of cover.old.taken)) }
    ensures { MatchOption result ((hits : List (ℕ × ℕ)) (rest : List ℕ) → AreHitsAt bytes.now at hits rest → ⊥) (λ end. (hits : List (ℕ × ℕ)) × (rest : List ℕ) × AreHitsAt bytes.now at hits rest × (end ≡ at + length (hit_list hits)) × (seen cover.new ≡ take_all (seen cover.old) (map (place_in row own.now) hits))) }
{
    let (count, start) = short_of(bytes, at)?;
    if count == 0 {
        return None;
    }
    take_differences(bytes, start, count, row, own, cover)
}

/// Reads an entry of a row below so many, each hit of which takes its place; gives the row and the place behind the entry.
#[tactic(auto, using(crate::proofs::Listing::no_head, crate::proofs::Listing::no_such_row))]
fn take_entry(
    bytes: &[u8],
    at: usize,
    least: u32,
    rows: u32,
    starts: &[u32],
    width: usize,
    cover: &mut Cover,
) -> Option<(u32, usize)>
    requires { AreStarts starts.now width rows (length (bits_of cover.old.taken)) }
    ensures { MatchOption result ((row : ℕ) (hits : List (ℕ × ℕ)) (rest : List ℕ) → IsEntryAt bytes.now at least row hits rest → row < rows → ⊥) (λ read. (hits : List (ℕ × ℕ)) × (rest : List ℕ) × IsEntryAt bytes.now at least read.0 hits rest × (read.0 < rows) × (read.1 ≡ at + length (posting least read.0 hits)) × (seen cover.new ≡ take_all (seen cover.old) (places_of starts.now width (read.0, hits)))) }
{
    let (row, size, start) = match head_of(bytes, at, least) {
        Some(head) => head,
        None => return None,
    };
    if row >= rows {
        return None;
    }
    let own = own_of(starts, width, row);
    match take_hits(bytes, start, row, own, cover) {
        Some(end) => {
            if end - start == size as usize {
                Some((row, end))
            } else {
                None
            }
        }
        None => None,
    }
}

/// Reads so many entries of rows below so many, each hit of which takes its place; gives the place behind them.
pub(crate) fn take_list(
    bytes: &[u8],
    start: usize,
    count: u32,
    rows: u32,
    starts: &[u32],
    width: usize,
    cover: &mut Cover,
) -> Option<usize>
    requires { AreStarts starts.now width rows (length (bits_of cover.old.taken)) }
    ensures { MatchOption result ((entries : List Entry) (rest : List ℕ) → AreEntriesAt bytes.now start rows 0 count entries rest → ⊥) (λ end. (entries : List Entry) × (rest : List ℕ) × AreEntriesAt bytes.now start rows 0 count entries rest × (end ≡ start + length (posting_list 0 entries)) × (seen cover.new ≡ take_all (seen cover.old) (places_in starts.now width entries))) }
{
    let mut at = start;
    let mut least = 0;
    'entries: for _ in 0..count {
        match take_entry(bytes, at, least, rows, starts, width, cover) {
            Some((row, end)) => {
                least = row + 1;
                at = end;
            }
            None => return None,
        }
    }
    Some(at)
}
