//! The lists of all words.
ghost use Rattle.std.specs.Prelude.{◌≡◌, ℕ, ◌+◌, ◌*◌, ◌<◌, ◌≤◌, List, length, MatchOption};
ghost use Rattle.bit_lists.specs.BitLists.{bits_of};
ghost use Rattle.chunk_damage.specs.WordLists.{Entry};
ghost use Rattle.chunk_damage.specs.WordTable.{row_count};
ghost use Rattle.image_cover.specs.Covers.{seen};
ghost use Rattle.image_cover.specs.Lists.{AreListsIn, IsBadListIn, places_of_lists};
ghost use Rattle.image_cover.specs.Places.{AreStarts, take_all};

use crate::cover::Cover;
use crate::lists::take_list;

/// How many rows have the word of this number, as its entry says.
#[inline(always)]
fn count_of(table: &[u8], n: u32) -> u32
    requires { 12 * n + 12 ≤ length table.now }
    ensures { result ≡ row_count table.now n }
{
    let at = n as usize * 12 + 4;
    let field = &table[at..at + 4];
    u32::from_le_bytes([field[0], field[1], field[2], field[3]])
}

/// Reads the lists of so many words, each hit of which takes its place; gives the place of the first list that is wrong.
pub fn take_lists(
    postings: &[u8],
    table: &[u8],
    words: u32,
    rows: u32,
    starts: &[u32],
    width: usize,
    cover: &mut Cover,
) -> Option<usize>
    requires table { 12 * words ≤ length table.now }
    requires starts { AreStarts starts.now width rows (length (bits_of cover.old.taken)) }
    requires none { words ≡ 0 → length postings.now ≡ 0 }
    ensures { MatchOption result ((lists : List (List Entry)) × AreListsIn table.now rows words postings.now lists × (seen cover.new ≡ take_all (seen cover.old) (places_of_lists starts.now width lists))) (λ place. IsBadListIn table.now rows words postings.now place) }
{
    let mut at = 0;
    let mut last = 0;
    'words: for word in 0..words {
        let count = count_of(table, word);
        match take_list(postings, at, count, rows, starts, width, cover) {
            Some(end) => {
                last = at;
                at = end;
            }
            None => return Some(at),
        }
    }
    if at != postings.len() {
        return Some(last);
    }
    None
}
