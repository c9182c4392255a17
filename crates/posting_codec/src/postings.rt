//! Posting lists: for a word the rows that have it, ascending, each with the word's places in it.
//!
//! A row's entry is how far it lies behind the row before (the first one behind row -1), how many bytes its hit list has, and the
//! hit list. So who looks for rows alone goes over the hits of each without reading them.
//!
//! ```text
//! row 0, position 1 of field 0, then row 3, position 2 of field 0      01 02  01 01   03 02  01 02
//! ```
//!
//! As with hits there are two readers: `read_posting` asks whether there is an entry, and `posting_at` reads where one is known
//! to be.
ghost use Rattle.std.specs.Prelude.{◌≡◌, ℕ, ◌+◌, ◌-◌, ◌<◌, ◌≤◌, ◌^◌, ◌++◌, List, length, take, MatchOption, IfOk, OnOk, OnErr};
ghost use Rattle.posting_codec.specs.Numbers.{number};
ghost use Rattle.posting_codec.specs.HitLists.{AreHits, hit_list};
ghost use Rattle.posting_codec.specs.PostingLists.{IsEntry, IsEntryAt, least_after, posting, spelled_posting};
ghost use Rattle.posting_codec.specs.steps.Heads.{IsHeadAt, head_length};

use crate::hits::{put_measured, read_hits};
use crate::numbers::{number_at, put_number, read_number};
use srch_base::NoMemory;
use std::alloc::Global;

/// Appends the entry of a row that stands behind another one, or at the front of a list.
pub fn put_posting(
    previous: Option<u32>,
    row: u32,
    hits: &[(u16, u32)],
    out: &mut Vec<u8>,
) -> Result<(), NoMemory>
    requires { IsEntry (least_after previous) row hits.now }
    ensures ok { OnOk result (out.new.items ≡ out.old.items ++ posting (least_after previous) row hits.now) }
    ensures err { OnErr result (out.new.items ≡ out.old.items) }
{
    let distance = match previous {
        Some(before) => row - before,
        None => row + 1,
    };
    let before = out.len();
    if put_entry(distance, hits, out).is_err() {
        out.truncate(before);
        return Err(NoMemory);
    }
    Ok(())
}

/// Appends the entry of a row whose hit list has these bytes, where this is the least row that it can be. After want of memory the
/// list may have a front of the entry.
pub fn put_spelled(least: u32, row: u32, hits: &[u8], out: &mut Vec<u8>) -> Result<(), NoMemory>
    requires behind { least ≤ row }
    requires counted { row + 1 < 2 ^ 32 }
    requires sized { length hits.now < 2 ^ 32 }
    ensures { OnOk result (out.new.items ≡ out.old.items ++ spelled_posting least row hits.now) }
{
    put_number(row - least + 1, out)?;
    put_number(hits.len() as u32, out)?;
    out.extend_from_slice(hits)?;
    Ok(())
}

/// Appends the distance of a row, the length of its hit list and the hit list, or a front of them where memory is refused.
fn put_entry(distance: u32, hits: &[(u16, u32)], out: &mut Vec<u8>) -> Result<(), NoMemory>
    requires { AreHits hits.now }
    ensures ok { OnOk result (out.new.items ≡ out.old.items ++ (number distance ++ number (length (hit_list hits.now)) ++ hit_list hits.now)) }
    ensures front { take (length out.old.items) out.new.items ≡ out.old.items }
{
    put_number(distance, out)?;
    put_measured(hits, out)
}

/// The entry that is spelled at a place behind that of another row, or at the front of a list: its row, its hits, and the place
/// after it. None exactly where no entry is.
#[tactic(auto, using(crate::proofs::Entries::no_head, crate::proofs::Entries::no_hits, crate::proofs::Entries::wrong_size, crate::proofs::Entries::entry_found))]
pub fn read_posting(
    previous: Option<u32>,
    alloc: Global,
    bytes: &[u8],
    at: usize,
) -> Result<Option<(u32, Vec<(u16, u32)>, usize)>, NoMemory>
    ensures { IfOk result (λ found. MatchOption found ((row : ℕ) (hits : List (ℕ × ℕ)) (rest : List ℕ) → IsEntryAt bytes.now at (least_after previous) row hits rest → ⊥) (λ read. (rest : List ℕ) × IsEntryAt bytes.now at (least_after previous) read.0 read.1.items rest × (read.2 ≡ at + length (posting (least_after previous) read.0 read.1.items)))) }
{
    let (row, size, start) = match read_head(previous, bytes, at) {
        Some(head) => head,
        None => return Ok(None),
    };
    match read_hits(alloc, bytes, start)? {
        Some((hits, end)) => {
            if end - start == size as usize {
                Ok(Some((row, hits, end)))
            } else {
                Ok(None)
            }
        }
        None => Ok(None),
    }
}

/// The row and the length of the hit list that are spelled at a place, and the place after them. None exactly where no head of
/// an entry is.
#[tactic(auto, using(crate::proofs::Entries::no_row, crate::proofs::Entries::no_size, crate::proofs::Entries::head_found))]
fn read_head(previous: Option<u32>, bytes: &[u8], at: usize) -> Option<(u32, u32, usize)>
    ensures { MatchOption result ((row size : ℕ) (rest : List ℕ) → IsHeadAt bytes.now at (least_after previous) row size rest → ⊥) (λ read. (rest : List ℕ) × IsHeadAt bytes.now at (least_after previous) read.0 read.1 rest × (read.2 ≡ at + head_length (least_after previous) read.0 read.1)) }
{
    let (distance, sized) = read_number(bytes, at)?;
    let row = row_behind(previous, distance)?;
    let (size, start) = read_number(bytes, sized)?;
    Some((row, size, start))
}

/// The row that lies so far behind another one, or behind none. None exactly where no row does that can be counted.
fn row_behind(previous: Option<u32>, distance: u32) -> Option<u32>
    ensures { MatchOption result ((row : ℕ) → least_after previous ≤ row → row + 1 < 2 ^ 32 → distance ≡ row + 1 - least_after previous → ⊥) (λ row. (least_after previous ≤ row) × (row + 1 < 2 ^ 32) × (distance ≡ row + 1 - least_after previous)) }
{
    let least = match previous {
        Some(before) => u64::from(before) + 1,
        None => 0,
    };
    let next = least + u64::from(distance);
    if distance == 0 || next > u64::from(u32::MAX) {
        return None;
    }
    Some((next - 1) as u32)
}

/// The row whose entry is spelled at a place, where its hit list begins, and the place after the entry.
#[inline]
pub fn posting_at(least: u32, bytes: &[u8], at: usize) -> (u32, usize, usize)
    requires { (row : ℕ) × (hits : List (ℕ × ℕ)) × (rest : List ℕ) × IsEntryAt bytes.now at least row hits rest }
    ensures { (row : ℕ) (hits : List (ℕ × ℕ)) (rest : List ℕ) → IsEntryAt bytes.now at least row hits rest → (result.0 ≡ row) × (result.2 ≡ at + length (posting least row hits)) × (result.2 ≡ result.1 + length (hit_list hits)) }
{
    let (distance, sized) = number_at(bytes, at);
    let (size, start) = number_at(bytes, sized);
    (least + (distance - 1), start, start + size as usize)
}
