//! The posting list of one word: its entries in the parts, by their new numbers.
ghost use Rattle.std.specs.Prelude.{◌≡◌, ◌<◌, ◌≤◌, ◌+◌, ◌++◌, ℕ, List, Some, length, slice_get, OnOk};
ghost use Rattle.std.specs.List.Sorted.{IsPermutation};
ghost use Rattle.image_join.specs.steps.Entries.{Rising, entries_from, entries_in, lent, spelled_list};

use crate::copying::CopyBytes;
use crate::parts::Part;
use doc_types::{Chunk, NO_ROW};
use image_write::count_in;
use posting_codec::put_spelled;
use srch_base::NoMemory;

/// Appends the entries of the part's word of this number: each row that has it and lives, by its new number, with the bytes of
/// its hit list.
pub(crate) fn collect<'p, C: CopyBytes>(
    part: &'p Part<C>,
    word: u32,
    numbers: &[u32],
    found: &mut Vec<(u32, &'p [u8])>,
) -> Result<(), NoMemory>
    requires word { word < length part.now.words }
    requires within { part.now.first + length part.now.rows ≤ length numbers.now }
    ensures { OnOk result ((w : List ℕ) → slice_get part.now.words word ≡ Some w → lent found.new.items ≡ lent found.old.items ++ entries_in w numbers.now part.now) }
{
    let chunk: &C = &part.chunk;
    collect_from(chunk, part.first, word, numbers, found)
}

/// The same of a chunk with so many rows before its first one.
fn collect_from<'p, C: CopyBytes>(
    chunk: &'p C,
    first: u32,
    word: u32,
    numbers: &[u32],
    found: &mut Vec<(u32, &'p [u8])>,
) -> Result<(), NoMemory>
    requires word { word < length (C.words_of chunk.now) }
    requires within { first + length (C.content chunk.now) ≤ length numbers.now }
    ensures { OnOk result ((w : List ℕ) → slice_get (C.words_of chunk.now) word ≡ Some w → lent found.new.items ≡ lent found.old.items ++ entries_from w numbers.now first (C.content chunk.now)) }
{
    let mut cursor = chunk.start_at(word);
    while let Some(row) = chunk.row(&cursor) {
        let number = numbers[first as usize + row as usize];
        if number != NO_ROW {
            found.push((number, chunk.hit_bytes(&cursor)))?;
        }
        chunk.advance(&mut cursor);
    }
    Ok(())
}

/// Puts entries in the order of their numbers.
pub(crate) fn put_in_order(found: &mut Vec<(u32, &[u8])>)
    ensures { IsPermutation (lent found.old.items) (lent found.new.items) }
{
    if !do_ascend(found) {
        found.sort_unstable_by_key(|entry| entry.0);
    }
}

/// Whether the numbers of the entries ascend.
fn do_ascend(found: &[(u32, &[u8])]) -> bool {
    let mut least = 0;
    for entry in found {
        if entry.0 < least || entry.0 == NO_ROW {
            return false;
        }
        least = entry.0 + 1;
    }
    true
}

/// Appends the posting list of entries in the order of their numbers, of which no two are one.
pub(crate) fn put_list(found: &[(u32, &[u8])], out: &mut Vec<u8>) -> Result<(), NoMemory>
    ensures list { OnOk result (out.new.items ≡ out.old.items ++ spelled_list 0 (lent found.now)) }
    ensures rising { OnOk result (Rising 0 (lent found.now)) }
{
    let mut least = 0;
    for entry in found {
        if entry.0 < least || entry.0 == NO_ROW {
            return Err(NoMemory);
        }
        count_in(entry.1.len())?;
        put_spelled(least, entry.0, entry.1, out)?;
        least = entry.0 + 1;
    }
    Ok(())
}
