//! Heads of entries, and hits.
ghost use Rattle.std.specs.Prelude.{◌≡◌, ℕ, ◌+◌, ◌-◌, ◌*◌, ◌/◌, ◌%◌, ◌<◌, ◌≤◌, ◌^◌, List, length, MatchOption};
ghost use Rattle.posting_codec.specs.Numbers.{number, IsNumberAt};
ghost use Rattle.posting_codec.specs.HitLists.{IsHit, key};
ghost use Rattle.posting_codec.specs.steps.Differences.{IsBehind};
ghost use Rattle.posting_codec.specs.steps.Heads.{IsHeadAt, head_length};

use posting_reads::short_of;

const FIELD: u32 = 65_536;

const KEYS: u32 = 2_097_152;

/// A hit as one number.
#[inline]
pub(crate) fn key_of(hit: (u16, u32)) -> u32
    requires { IsHit hit }
    ensures { result ≡ key hit }
{
    u32::from(hit.0) * FIELD + hit.1
}

/// The hit of a key.
#[inline]
fn hit_of(key: u32) -> (u16, u32)
    requires { key < 2 ^ 21 }
    ensures { result ≡ (key / 65536, key % 65536) }
{
    ((key / FIELD) as u16, key % FIELD)
}

/// The hit whose distance from this key is spelled at a place, and the place after it.
#[tactic(auto, using(posting_codec::proofs::Reading::none_number, posting_codec::proofs::Reading::none_zero, posting_codec::proofs::Reading::none_large, posting_codec::proofs::Reading::none_position, posting_codec::proofs::Reading::read_one))]
#[inline(always)]
pub(crate) fn hit_behind(bytes: &[u8], at: usize, last: u32) -> Option<((u16, u32), usize)>
    requires { last < 2 ^ 21 }
    ensures { MatchOption result ((hit : ℕ × ℕ) (rest : List ℕ) → IsBehind bytes.now at last hit rest → ⊥) (λ read. (rest : List ℕ) × IsBehind bytes.now at last read.0 rest × (read.1 ≡ at + length (number (key read.0 - last)))) }
{
    let (step, end) = short_of(bytes, at)?;
    if step == 0 || step >= KEYS - last {
        return None;
    }
    let hit = hit_of(last + step);
    if hit.1 == 0 {
        return None;
    }
    Some((hit, end))
}

/// The row and the length of the hit list that are spelled at a place, and the place after them.
#[inline(always)]
#[tactic(auto, using(posting_codec::proofs::Entries::no_row, posting_codec::proofs::Entries::no_size, posting_codec::proofs::Entries::head_found))]
pub(crate) fn head_of(bytes: &[u8], at: usize, least: u32) -> Option<(u32, u32, usize)>
    ensures { MatchOption result ((row size : ℕ) (rest : List ℕ) → IsHeadAt bytes.now at least row size rest → ⊥) (λ read. (rest : List ℕ) × IsHeadAt bytes.now at least read.0 read.1 rest × (read.2 ≡ at + head_length least read.0 read.1)) }
{
    let (distance, sized) = short_of(bytes, at)?;
    let row = row_behind(least, distance)?;
    let (size, start) = short_of(bytes, sized)?;
    Some((row, size, start))
}

/// The row that lies so far behind, this one being the least.
#[inline(always)]
fn row_behind(least: u32, distance: u32) -> Option<u32>
    ensures { MatchOption result ((row : ℕ) → least ≤ row → row + 1 < 2 ^ 32 → distance ≡ row + 1 - least → ⊥) (λ row. (least ≤ row) × (row + 1 < 2 ^ 32) × (distance ≡ row + 1 - least)) }
{
    let next = u64::from(least) + u64::from(distance);
    if distance == 0 || next > u64::from(u32::MAX) {
        return None;
    }
    Some((next - 1) as u32)
}
