//! The parts of an image that are about words: word table, dictionary and postings.
ghost use Rattle.std.specs.Prelude.{◌≡◌, ◌≤◌, ◌++◌, ◌∷◌, [], List, IsSomeAnd, length, map, drop, take, slice_get, All, OnOk, IfOk};
ghost use Rattle.std.specs.Int.{w32, to_le_bytes};
ghost use Rattle.doc_types.specs.declared.documents.DocRow.{DocRow as AnyRow};
ghost use Rattle.chunk_image.specs.ChunkImage.{dictionary_bytes, postings_bytes, table_bytes, word_bytes};
ghost use Rattle.posting_codec.specs.PostingLists.{posting_list};
ghost use Rattle.image_write.specs.declared.image.TheConstants.{MAX_IMAGE};
ghost use Rattle.image_write.specs.steps.Gathering.{ArePostable, CanPost, IsGathered, grouped};
ghost use Rattle.image_write.specs.steps.Places.{HasHead, by_word, place_at, word_at};

use crate::gathering::{Occurrence, are_of_one, word_of};
use crate::image::{count_in, place_in};
use crate::lending::LendsDoc;
use crate::lists::put_list;
use doc_types::MAX_WORD_BYTES;
use srch_base::NoMemory;
use std::alloc::Global;

/// How many bytes the entry of a word takes in the word table.
const ENTRY: usize = 12;

/// How many bytes a word of seven letters takes in the dictionary.
const SHORT_WORD: usize = 8;

/// How many bytes a posting list takes for a word that stands once in a row, where the row's number and the position are small.
const POSTING: usize = 6;

/// How many hits of a word most rows have at most.
const FEW_HITS: usize = 16;

/// The parts of an image that are about words, and how many words they have.
#[derive(Drop)]
pub struct Tables {
    pub words: u32,
    pub table: Vec<u8>,
    pub dictionary: Vec<u8>,
    pub postings: Vec<u8>,
}

/// Word table, dictionary and postings of some documents. The occurrences are sorted by their words.
///
/// The lists get their room at once, as if each occurrence were of a word of its own, which is nearly so in one document. A list that
/// grew by itself would be moved again and again.
pub(crate) fn tables_of<R: LendsDoc>(
    alloc: Global,
    rows: &[R],
    places: &[Occurrence],
) -> Result<Tables, NoMemory>
    requires heads { All (HasHead (map R.lent rows.now)) places.now }
    requires posted { All CanPost (by_word (map R.lent rows.now) places.now) }
    ensures table { IfOk result (λ tables. (all : List AnyRow) → All (IsGathered all) (by_word (map R.lent rows.now) places.now) → tables.table.items ≡ table_bytes all 0 0 (map (λ entry. entry.word) (by_word (map R.lent rows.now) places.now))) }
    ensures dictionary { IfOk result (λ tables. tables.dictionary.items ≡ dictionary_bytes (map (λ entry. entry.word) (by_word (map R.lent rows.now) places.now))) }
    ensures postings { IfOk result (λ tables. (all : List AnyRow) → All (IsGathered all) (by_word (map R.lent rows.now) places.now) → tables.postings.items ≡ postings_bytes all (map (λ entry. entry.word) (by_word (map R.lent rows.now) places.now))) }
    ensures count { IfOk result (λ tables. tables.words ≡ length (by_word (map R.lent rows.now) places.now)) }
    ensures few { IfOk result (λ tables. tables.words ≤ MAX_IMAGE) }
{
    let most = places.len();
    let mut table = Vec::with_capacity(alloc, most.saturating_mul(ENTRY))?;
    let mut dictionary = Vec::with_capacity(alloc, most.saturating_mul(SHORT_WORD))?;
    let mut postings = Vec::with_capacity(alloc, most.saturating_mul(POSTING))?;
    let count = put_words(
        alloc,
        rows,
        places,
        &mut table,
        &mut dictionary,
        &mut postings,
    )?;
    let words = count_in(count)?;
    Ok(Tables {
        words,
        table,
        dictionary,
        postings,
    })
}

/// Appends the word table to one list, and the dictionary and the postings to two others, which are empty; gives the number of
/// words. The occurrences are sorted by their words.
fn put_words<R: LendsDoc>(
    alloc: Global,
    rows: &[R],
    places: &[Occurrence],
    table: &mut Vec<u8>,
    dictionary: &mut Vec<u8>,
    postings: &mut Vec<u8>,
) -> Result<usize, NoMemory>
    requires no_word { dictionary.old.items ≡ [] }
    requires no_list { postings.old.items ≡ [] }
    requires heads { All (HasHead (map R.lent rows.now)) places.now }
    requires posted { All CanPost (by_word (map R.lent rows.now) places.now) }
    ensures table { OnOk result ((all : List AnyRow) → All (IsGathered all) (by_word (map R.lent rows.now) places.now) → table.new.items ≡ table.old.items ++ table_bytes all 0 0 (map (λ entry. entry.word) (by_word (map R.lent rows.now) places.now))) }
    ensures dictionary { OnOk result (dictionary.new.items ≡ dictionary_bytes (map (λ entry. entry.word) (by_word (map R.lent rows.now) places.now))) }
    ensures postings { OnOk result ((all : List AnyRow) → All (IsGathered all) (by_word (map R.lent rows.now) places.now) → postings.new.items ≡ postings_bytes all (map (λ entry. entry.word) (by_word (map R.lent rows.now) places.now))) }
    ensures count { IfOk result (λ count. count ≡ length (by_word (map R.lent rows.now) places.now)) }
{
    let mut hits = Vec::with_capacity(alloc, FEW_HITS)?;
    let mut count = 0;
    let mut at = 0;
    while at < places.len() {
        let word = word_of(rows, &places[at]);
        let end = at + count_word(rows, &places[at], &places[at..]);
        put_word(
            word,
            &places[at..end],
            &mut hits,
            table,
            dictionary,
            postings,
        )?;
        at = end;
        count += 1;
    }
    Ok(count)
}

/// How many of the occurrences at the front are of the word of this one.
fn count_word<R: LendsDoc>(rows: &[R], first: &Occurrence, places: &[Occurrence]) -> usize
    requires head { HasHead (map R.lent rows.now) first.now }
    requires heads { All (HasHead (map R.lent rows.now)) places.now }
    requires first { IsSomeAnd (slice_get places.now 0) (λ place. word_at (map R.lent rows.now) place ≡ word_at (map R.lent rows.now) first.now) }
    ensures some { 1 ≤ result }
    ensures within { result ≤ length places.now }
    ensures word { by_word (map R.lent rows.now) places.now ≡ record { word = word_at (map R.lent rows.now) first.now; places = map place_at (take result places.now) } ∷ by_word (map R.lent rows.now) (drop result places.now) }
{
    for (number, place) in places.iter().enumerate() {
        if !are_of_one(rows, place, first) {
            return number;
        }
    }
    places.len()
}

/// Appends what an image has of a word with these occurrences: its entry in the table, its bytes in the dictionary, its list.
fn put_word(
    word: &[u8],
    places: &[Occurrence],
    hits: &mut Vec<(u16, u32)>,
    table: &mut Vec<u8>,
    dictionary: &mut Vec<u8>,
    postings: &mut Vec<u8>,
) -> Result<(), NoMemory>
    requires { ArePostable 0 (grouped (map place_at places.now)) }
    ensures table { OnOk result (table.new.items ≡ table.old.items ++ (to_le_bytes w32 (length dictionary.old.items) ++ to_le_bytes w32 (length (grouped (map place_at places.now))) ++ to_le_bytes w32 (length postings.old.items))) }
    ensures dictionary { OnOk result (dictionary.new.items ≡ dictionary.old.items ++ word_bytes word.now) }
    ensures postings { OnOk result (postings.new.items ≡ postings.old.items ++ posting_list 0 (grouped (map place_at places.now))) }
{
    let at = place_in(dictionary)?;
    let list = place_in(postings)?;
    put_bytes(word, dictionary)?;
    let rows = put_list(places, hits, postings)?;
    put_entry(at, rows, list, table)
}

/// Appends the entry of a word: its place in the dictionary, how many rows have it, and the place of its posting list.
pub fn put_entry(word: u32, rows: u32, list: u32, out: &mut Vec<u8>) -> Result<(), NoMemory>
    ensures { OnOk result (out.new.items ≡ out.old.items ++ (to_le_bytes w32 word ++ to_le_bytes w32 rows ++ to_le_bytes w32 list)) }
{
    // One append, not three: each looks at the room that is left, and every word has an entry.
    let [w0, w1, w2, w3] = word.to_le_bytes();
    let [r0, r1, r2, r3] = rows.to_le_bytes();
    let [l0, l1, l2, l3] = list.to_le_bytes();
    out.extend_from_slice(&[w0, w1, w2, w3, r0, r1, r2, r3, l0, l1, l2, l3])?;
    Ok(())
}

/// Appends a word to the dictionary: its length and its bytes. No row has a word that is longer than a word may be.
fn put_bytes(word: &[u8], out: &mut Vec<u8>) -> Result<(), NoMemory>
    ensures { OnOk result (out.new.items ≡ out.old.items ++ word_bytes word.now) }
{
    if word.len() > MAX_WORD_BYTES {
        return Err(NoMemory);
    }
    out.push(word.len() as u8)?;
    out.extend_from_slice(word)?;
    Ok(())
}
