//! A state, read from its bytes: from left to right, each field as soon as it is there held against those before it.
ghost use Rattle.std.specs.Prelude.{◌≡◌, ◌==◌};
ghost use Rattle.std.specs.List.{list_any};
ghost use Rattle.byte_fields.specs.Fields.{Gives};
ghost use Rattle.root_slots.specs.Reading.{text_at, through_at, file_at, older_at, count_at, may_name, row_at, rows_at, entry_at, entries_at, chunks_at, state_at};

use crate::state::{ChunkEntry, RootState};
use byte_fields::{u16_of, u32_of, u64_of};
use srch_base::{Items, Or, Text};
use std::alloc::Global;

/// The most chunks that an index has.
const MOST_CHUNKS: u16 = 16;

/// The state that these bytes spell, all of them.
#[tactic(auto, unfolding(crate::specs::Reading::state_at))]
pub(crate) fn state_of(alloc: Global, bytes: &[u8]) -> Result<RootState, Or<usize>>
    ensures { Gives (λ x. x) result (state_at bytes.now) }
{
    let (schema_text, rest) = text_of(alloc, bytes)?;
    let (through, rest) = through_of(rest)?;
    let (next_file, rest) = u32_of(rest)?;
    let (older, rest) = older_of(next_file, rest)?;
    let (newer, rest) = file_of(next_file, &[older], rest)?;
    let chunks = chunks_of(alloc, next_file, &[older, newer], rest)?;
    Ok(RootState {
        schema_text,
        through,
        next_file,
        older,
        newer,
        chunks: Items::new(chunks),
    })
}

#[tactic(auto, unfolding(crate::specs::Reading::text_at))]
fn text_of(alloc: Global, bytes: &[u8]) -> Result<(Text, &[u8]), Or<usize>>
    ensures { Gives (λ x. (x.0, x.1.now)) result (text_at bytes.now) }
{
    let (size, rest) = u16_of(bytes)?;
    let size = size as usize;
    if rest.len() < size {
        return Err(Or::Fault(bytes.len()));
    }
    let (text, rest) = rest.split_at(size);
    Ok((Text::from_slice(alloc, text)?, rest))
}

#[tactic(auto, unfolding(crate::specs::Reading::through_at))]
fn through_of(bytes: &[u8]) -> Result<(u64, &[u8]), Or<usize>>
    ensures { Gives (λ x. (x.0, x.1.now)) result (through_at bytes.now) }
{
    let (through, rest) = u64_of(bytes)?;
    if through >= 1 << 63 {
        return Err(Or::Fault(bytes.len()));
    }
    Ok((through, rest))
}

/// A file that may be named after these.
#[tactic(auto, unfolding(crate::specs::Reading::file_at))]
fn file_of<'a>(next_file: u32, named: &[u32], bytes: &'a [u8]) -> Result<(u32, &'a [u8]), Or<usize>>
    ensures { Gives (λ x. (x.0, x.1.now)) result (file_at next_file named.now bytes.now) }
{
    let (file, rest) = u32_of(bytes)?;
    if !may_name(next_file, named, file) {
        return Err(Or::Fault(bytes.len()));
    }
    Ok((file, rest))
}

/// Whether a log or a chunk may have this file: it is no slot's, it was made, and it isn't named before.
fn may_name(next_file: u32, named: &[u32], file: u32) -> bool
    ensures { result ≡ may_name next_file named.now file }
{
    2 <= file && file < next_file && !is_among(file, named)
}

fn is_among(file: u32, named: &[u32]) -> bool
    ensures { result ≡ list_any (λ other. other == file) named.now }
{
    named.iter().any(|other| *other == file)
}

/// The older log, 0 for none.
#[tactic(auto, unfolding(crate::specs::Reading::older_at))]
fn older_of(next_file: u32, bytes: &[u8]) -> Result<(u32, &[u8]), Or<usize>>
    ensures { Gives (λ x. (x.0, x.1.now)) result (older_at next_file bytes.now) }
{
    let (older, rest) = u32_of(bytes)?;
    if older != 0 && !may_name(next_file, &[], older) {
        return Err(Or::Fault(bytes.len()));
    }
    Ok((older, rest))
}

/// The chunks, with nothing behind them.
#[tactic(auto, unfolding(crate::specs::Reading::chunks_at))]
fn chunks_of(
    alloc: Global,
    next_file: u32,
    named: &[u32],
    bytes: &[u8],
) -> Result<Vec<ChunkEntry>, Or<usize>>
    ensures { Gives (λ x. x.items) result (chunks_at next_file named.now bytes.now) }
{
    let (count, rest) = count_of(bytes)?;
    let (chunks, rest) = entries_of(alloc, next_file, count, named, rest)?;
    if !rest.is_empty() {
        return Err(Or::Fault(rest.len()));
    }
    Ok(chunks)
}

#[tactic(auto, unfolding(crate::specs::Reading::count_at))]
fn count_of(bytes: &[u8]) -> Result<(u16, &[u8]), Or<usize>>
    ensures { Gives (λ x. (x.0, x.1.now)) result (count_at bytes.now) }
{
    let (count, rest) = u16_of(bytes)?;
    if count > MOST_CHUNKS {
        return Err(Or::Fault(bytes.len()));
    }
    Ok((count, rest))
}

/// So many chunks, where these files are named before.
fn entries_of<'a>(
    alloc: Global,
    next_file: u32,
    count: u16,
    named: &[u32],
    bytes: &'a [u8],
) -> Result<(Vec<ChunkEntry>, &'a [u8]), Or<usize>>
    ensures { Gives (λ x. (x.0.items, x.1.now)) result (entries_at next_file count named.now bytes.now) }
{
    let mut chunks = Vec::new(alloc);
    let mut before = named.to_vec(alloc)?;
    let mut rest = bytes;
    for _ in 0..count {
        let (entry, after) = entry_of(alloc, next_file, &before, rest)?;
        before.push(entry.file)?;
        chunks.push(entry)?;
        rest = after;
    }
    Ok((chunks, rest))
}

#[tactic(auto, unfolding(crate::specs::Reading::entry_at))]
fn entry_of<'a>(
    alloc: Global,
    next_file: u32,
    named: &[u32],
    bytes: &'a [u8],
) -> Result<(ChunkEntry, &'a [u8]), Or<usize>>
    ensures { Gives (λ x. (x.0, x.1.now)) result (entry_at next_file named.now bytes.now) }
{
    let (file, rest) = file_of(next_file, named, bytes)?;
    let (length, rest) = u32_of(rest)?;
    let (count, rest) = u32_of(rest)?;
    let (dead, rest) = rows_of(alloc, count, rest)?;
    let entry = ChunkEntry {
        file,
        length,
        dead: Items::new(dead),
    };
    Ok((entry, rest))
}

/// So many dead rows, ascending.
fn rows_of(alloc: Global, count: u32, bytes: &[u8]) -> Result<(Vec<u32>, &[u8]), Or<usize>>
    ensures { Gives (λ x. (x.0.items, x.1.now)) result (rows_at count 0 bytes.now) }
{
    let mut dead = Vec::new(alloc);
    let mut low = 0;
    let mut rest = bytes;
    for _ in 0..count {
        let (row, after) = row_of(low, rest)?;
        dead.push(row)?;
        low = row as u64 + 1;
        rest = after;
    }
    Ok((dead, rest))
}

/// A dead row that is none of those below this number.
#[tactic(auto, unfolding(crate::specs::Reading::row_at))]
fn row_of(low: u64, bytes: &[u8]) -> Result<(u32, &[u8]), Or<usize>>
    ensures { Gives (λ x. (x.0, x.1.now)) result (row_at low bytes.now) }
{
    let (row, rest) = u32_of(bytes)?;
    if u64::from(row) < low {
        return Err(Or::Fault(bytes.len()));
    }
    Ok((row, rest))
}
