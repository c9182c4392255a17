//! The word table beside the dictionary.
ghost use Rattle.std.specs.Prelude.{◌≡◌, ℕ, ◌+◌, ◌*◌, ◌<◌, ◌≤◌, List, length, MatchOption, MatchBool, IfSome};
ghost use Rattle.item_lists.specs.steps.Places.{IsItemAt};
ghost use Rattle.chunk_damage.specs.Header.{four_in};
ghost use Rattle.chunk_damage.specs.WordTable.{Headed, IsHeaded, headed_bytes, headed_list};
ghost use Rattle.image_words.specs.Parts.{AreEnteredIn, IsBadEntryIn};
ghost use Rattle.image_words.specs.steps.Heads.{AreHeadedAt, IsWordAt, ListEnds};

use posting_reads::short_of;

/// The number of 4 bytes at a place.
#[inline(always)]
fn u32_in(bytes: &[u8], at: usize) -> u32
    requires { at + 4 ≤ length bytes.now }
    ensures { result ≡ four_in bytes.now at }
{
    let field = &bytes[at..at + 4];
    u32::from_le_bytes([field[0], field[1], field[2], field[3]])
}

/// The place behind the entry at a place, by its head alone.
#[inline(always)]
fn behind_entry(postings: &[u8], at: usize) -> Option<usize>
    ensures { MatchOption result ((entry : Headed) (rest : List ℕ) → IsItemAt headed_bytes IsHeaded postings.now at tt entry rest → ⊥) (λ end. (entry : Headed) × (rest : List ℕ) × IsItemAt headed_bytes IsHeaded postings.now at tt entry rest × (end ≡ at + length (headed_bytes tt entry))) }
{
    let sized = match short_of(postings, at) {
        Some(read) => read.1,
        None => return None,
    };
    let (size, start) = match short_of(postings, sized) {
        Some(read) => read,
        None => return None,
    };
    if postings.len().saturating_sub(start) < size as usize {
        return None;
    }
    Some(start + size as usize)
}

/// The place behind so many entries.
fn behind_entries(postings: &[u8], at: usize, count: u32) -> Option<usize>
    ensures { MatchOption result ((entries : List Headed) (rest : List ℕ) → AreHeadedAt postings.now at count entries rest → ⊥) (λ end. (entries : List Headed) × (rest : List ℕ) × AreHeadedAt postings.now at count entries rest × (end ≡ at + length (headed_list 0 entries))) }
{
    let mut place = at;
    'entries: for _ in 0..count {
        match behind_entry(postings, place) {
            Some(end) => place = end,
            None => return None,
        }
    }
    Some(place)
}

/// The first entry that is wrong of the word table, by its number. `list` is where the list of the next word begins, while the lists
/// before it can be gone over by their heads.
pub fn bad_entry(
    dictionary: &[u8],
    table: &[u8],
    postings: &[u8],
    words: u32,
    rows: u32,
) -> Option<u32>
    requires table { 12 * words ≤ length table.now }
    requires none { words ≡ 0 → length dictionary.now ≡ 0 }
    ensures { MatchOption result ((list : List (List ℕ)) × AreEnteredIn table.now postings.now rows words dictionary.now list) (λ number. (at : ℕ) × (bad : IsBadEntryIn table.now postings.now rows words dictionary.now at) × (length bad.before ≡ number)) }
{
    let mut at = 0;
    let mut list = Some(0);
    let mut last = 0;
    'words: for word in 0..words {
        match word_entered(dictionary, table, word, rows, at, list) {
            Some(end) => {
                last = word;
                at = end;
            }
            None => return Some(word),
        }
        list = list_behind(postings, table, word, list);
    }
    if at != dictionary.len() {
        return Some(last);
    }
    None
}

/// Where the list behind that of a word begins.
fn list_behind(postings: &[u8], table: &[u8], word: u32, list: Option<usize>) -> Option<usize>
    requires entry { 12 * word + 12 ≤ length table.now }
    requires so_far { ListEnds table.now postings.now word list }
    ensures { ListEnds table.now postings.now (word + 1) result }
{
    let docs = u32_in(table, 12 * word as usize + 4);
    match list {
        Some(place) => behind_entries(postings, place, docs),
        None => None,
    }
}

/// Whether a list begins where its entry says, where that is known.
fn is_told(list: Option<usize>, told: u32) -> bool
    ensures { MatchBool result (IfSome list (λ place. told ≡ place)) (IfSome list (λ place. told ≡ place) → ⊥) }
{
    match list {
        Some(place) => told as usize == place,
        None => true,
    }
}

/// The place behind the word at a place, where its entry says its place, a number of documents that may be, and the place of its list.
fn word_entered(
    dictionary: &[u8],
    table: &[u8],
    word: u32,
    rows: u32,
    at: usize,
    list: Option<usize>,
) -> Option<usize>
    requires { 12 * word + 12 ≤ length table.now }
    ensures { MatchOption result ((text : List ℕ) (rest : List ℕ) → IsWordAt table.now dictionary.now rows word at list text rest → ⊥) (λ end. (text : List ℕ) × (rest : List ℕ) × IsWordAt table.now dictionary.now rows word at list text rest × (end ≡ at + 1 + length text)) }
{
    let entry = 12 * word as usize;
    if u32_in(table, entry) as usize != at {
        return None;
    }
    let docs = u32_in(table, entry + 4);
    if docs == 0 {
        return None;
    }
    if docs > rows {
        return None;
    }
    let told = u32_in(table, entry + 8);
    if !is_told(list, told) {
        return None;
    }
    if at >= dictionary.len() {
        return None;
    }
    let size = dictionary[at] as usize;
    if dictionary.len() - at <= size {
        return None;
    }
    Some(at + 1 + size)
}
