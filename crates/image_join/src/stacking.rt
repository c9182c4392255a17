//! The posting list of a word where the rows of all parts keep their order: the lists of the parts, one behind the other.
//!
//! No row is dead then, and the ids of each part lie above those of the parts before, as they do where documents come with new ids
//! one after the other. A part's rows are so many rows further on in the image, all of them; so of its list only the distance of the
//! first entry changes, and the other bytes are copied as they are.
ghost use Rattle.std.specs.Prelude.{◌≡◌, ◌<◌, ◌≤◌, ◌+◌, ◌++◌, ◌∷◌, ℕ, List, Option, Some, IsTrue, length, slice_get, true, All, IfOk, OnOk};
ghost use Rattle.std.specs.List.{flat_map};
ghost use Rattle.doc_types.specs.declared.cursor.TheConstants.{NO_ROW};
ghost use Rattle.doc_types.specs.declared.documents.DocRow.{DocRow as AnyRow};
ghost use Rattle.doc_types.specs.Chunks.{AreWordsOf, rows_with};
ghost use Rattle.posting_codec.specs.PostingLists.{posting_list};
ghost use Rattle.image_join.specs.steps.Entries.{AreEntriesOf};
ghost use Rattle.image_join.specs.steps.Merging.{AreTables, IsBefore, IsHeadOf, IsLeast, StandAt, StandsAt, added, is_ahead};
ghost use Rattle.image_join.specs.steps.Parts.{AreLaid};
ghost use Rattle.image_join.specs.steps.Stacking.{AreInOrder, ArePosted, Posting, at_front, behind, moved, stacked_in};

use crate::copying::CopyBytes;
use crate::nexts::{Next, is_next, next_of};
use crate::parts::Part;
use crate::places::low_place;
use doc_types::{MAX_WORD_BYTES, NO_ROW};
use image_write::{Tables, put_entry};
use posting_codec::{number_at, put_number};
use srch_base::NoMemory;

/// How far a posting list is: the least row that can stand next, and how many entries there are.
#[derive(Clone, Copy)]
pub(crate) struct Reached {
    pub(crate) least: u32,
    pub(crate) count: u32,
}

/// Whether each row's number is its place among all rows.
pub(crate) fn stand_in_order(numbers: &[u32]) -> bool
    ensures { IsTrue result → AreInOrder numbers.now }
{
    if numbers.len() >= NO_ROW as usize {
        return false;
    }
    for (place, number) in numbers.iter().enumerate() {
        if *number as usize != place {
            return false;
        }
    }
    true
}

/// Appends a posting list, whose rows lie so many rows further on here, to one that ends before them, where this is the least row
/// that can stand next. Gives the row behind the first one that was appended.
#[inline]
fn put_moved(list: &[u8], by: u32, least: u32, out: &mut Vec<u8>) -> Result<u32, NoMemory>
    requires list { (entry : Posting) × (entries : List Posting) × (list.now ≡ posting_list 0 (entry ∷ entries)) × (by + entry.0 < NO_ROW) }
    requires least { least ≤ by }
    ensures behind { IfOk result (λ behind. (entry : Posting) (entries : List Posting) → list.now ≡ posting_list 0 (entry ∷ entries) → by + entry.0 < NO_ROW → behind ≡ by + entry.0 + 1) }
    ensures list { OnOk result ((entry : Posting) (entries : List Posting) → list.now ≡ posting_list 0 (entry ∷ entries) → by + entry.0 < NO_ROW → out.new.items ≡ out.old.items ++ posting_list least (moved by (entry ∷ entries))) }
{
    let (ahead, behind) = number_at(list, 0);
    put_number(by - least + ahead, out)?;
    out.extend_from_slice(&list[behind..])?;
    Ok(by + ahead)
}

/// The row behind the last one that has the word of this number.
fn behind_of<C: CopyBytes>(chunk: &C, word: u32) -> u32
    requires word { word < length (C.words_of chunk.now) }
    requires few { length (C.content chunk.now) < NO_ROW }
    ensures is { (w : List ℕ) → slice_get (C.words_of chunk.now) word ≡ Some w → result ≡ behind 0 (rows_with w (C.content chunk.now)) }
    ensures within { result ≤ length (C.content chunk.now) }
{
    let mut cursor = chunk.near_end(word);
    let mut behind = 0;
    while let Some(row) = chunk.row(&cursor) {
        behind = row + 1;
        chunk.advance(&mut cursor);
    }
    behind
}

/// The same of a part.
#[inline]
fn behind_in<C: CopyBytes>(part: &Part<C>, word: u32) -> u32
    requires word { word < length part.now.words }
    requires few { length part.now.rows < NO_ROW }
    ensures is { (w : List ℕ) → slice_get part.now.words word ≡ Some w → result ≡ behind 0 (rows_with w part.now.rows) }
    ensures within { result ≤ length part.now.rows }
{
    let chunk: &C = &part.chunk;
    behind_of(chunk, word)
}

/// The row behind the last one of the part that has the word of this number, where so many have it, and this one stands behind the
/// first of them. Most words of a small part are in one row of it, so that its list needn't be gone over.
#[inline]
fn behind_all<C: CopyBytes>(part: &Part<C>, word: u32, rows: u32, first: u32) -> u32
    requires word { word < length part.now.words }
    requires few { part.now.first + length part.now.rows < NO_ROW }
    requires rows { (w : List ℕ) → slice_get part.now.words word ≡ Some w → rows ≡ length (rows_with w part.now.rows) }
    requires first { (w : List ℕ) → slice_get part.now.words word ≡ Some w → rows ≡ 1 → first ≡ part.now.first + behind 0 (rows_with w part.now.rows) }
    ensures is { (w : List ℕ) → slice_get part.now.words word ≡ Some w → result ≡ part.now.first + behind 0 (rows_with w part.now.rows) }
    ensures within { result ≤ part.now.first + length part.now.rows }
{
    if rows == 1 {
        return first;
    }
    part.first() + behind_in(part, word)
}

/// Appends the entries of the part's word of this number, and says how far the list is then.
#[inline]
fn put_stacked<C: CopyBytes>(
    part: &Part<C>,
    word: u32,
    reached: Reached,
    out: &mut Vec<u8>,
) -> Result<Reached, NoMemory>
    requires word { word < length part.now.words }
    requires words { AreWordsOf part.now.rows part.now.words }
    requires few { part.now.first + length part.now.rows < NO_ROW }
    requires least { reached.least ≤ part.now.first }
    ensures within { IfOk result (λ after. after.least ≤ part.now.first + length part.now.rows) }
    ensures posted { IfOk result (λ after. (w : List ℕ) → slice_get part.now.words word ≡ Some w → ArePosted (stacked_in w part.now) out.old.items out.new.items reached after) }
{
    let by = part.first();
    let first = put_moved(part.list(word), by, reached.least, out)?;
    let rows = part.count(word);
    let least = behind_all(part, word, rows, first);
    let count = reached.count.checked_add(rows).ok_or(NoMemory)?;
    Ok(Reached { least, count })
}

/// Appends the entries of a word, whose head this is, in a part, if it is the part's next one, and gives where the part stands and
/// how far the list is then.
#[inline]
fn stack_from<C: CopyBytes>(
    part: &Part<C>,
    word: &[u8],
    head: u64,
    next: Next,
    reached: Reached,
    out: &mut Vec<u8>,
) -> Result<(Next, Reached), NoMemory>
    requires words { AreWordsOf part.now.rows part.now.words }
    requires few { part.now.first + length part.now.rows < NO_ROW }
    requires least { reached.least ≤ part.now.first }
    requires next { IsHeadOf (slice_get part.now.words next.number) next.head }
    requires head { IsHeadOf (Some word.now) head }
    ensures within { IfOk result (λ after. after.1.least ≤ part.now.first + length part.now.rows) }
    ensures next { IfOk result (λ after. (last : Option (List ℕ)) → StandsAt last part.now next → IsBefore last word.now part.now → is_ahead last word.now ≡ true → StandsAt (Some word.now) part.now after.0) }
    ensures posted { IfOk result (λ after. (last : Option (List ℕ)) → StandsAt last part.now next → IsBefore last word.now part.now → is_ahead last word.now ≡ true → ArePosted (stacked_in word.now part.now) out.old.items out.new.items reached after.1) }
{
    if !is_next(part, next, word, head) {
        return Ok((next, reached));
    }
    let after = put_stacked(part, next.number, reached, out)?;
    Ok((next_of(part, next.number), after))
}

/// Appends the entries of a word, which is the least of the parts' next ones, goes over it, and says how far the list is then.
fn stack_lists<C: CopyBytes>(
    parts: &[Part<C>],
    word: &[u8],
    head: u64,
    nexts: &mut [Next],
    out: &mut Vec<u8>,
) -> Result<Reached, NoMemory>
    requires words { All (λ part. AreWordsOf part.rows part.words) parts.now }
    requires stand { (last : Option (List ℕ)) × StandAt last parts.now nexts.old }
    requires few { All (λ part. part.first + length part.rows < NO_ROW) parts.now }
    requires laid { AreLaid 0 parts.now }
    requires head { IsHeadOf (Some word.now) head }
    ensures long { length nexts.new ≡ length nexts.old }
    ensures nexts { OnOk result ((last : Option (List ℕ)) → StandAt last parts.now nexts.old → IsLeast last parts.now word.now → StandAt (Some word.now) parts.now nexts.new) }
    ensures posted { IfOk result (λ after. (last : Option (List ℕ)) → StandAt last parts.now nexts.old → IsLeast last parts.now word.now → ArePosted (flat_map (stacked_in word.now) parts.now) out.old.items out.new.items at_front after) }
{
    let mut reached = Reached { least: 0, count: 0 };
    for (number, part) in parts.iter().enumerate() {
        let (next, after) = stack_from(part, word, head, nexts[number], reached, out)?;
        nexts[number] = next;
        reached = after;
    }
    Ok(reached)
}

/// Appends a word, which is the least of the parts' next ones, with its entries, where it has some, and goes over it.
pub(crate) fn stack_word<C: CopyBytes>(
    parts: &[Part<C>],
    word: &[u8],
    head: u64,
    nexts: &mut [Next],
    tables: &mut Tables,
) -> Result<(), NoMemory>
    requires words { All (λ part. AreWordsOf part.rows part.words) parts.now }
    requires stand { (last : Option (List ℕ)) × StandAt last parts.now nexts.old }
    requires few { All (λ part. part.first + length part.rows < NO_ROW) parts.now }
    requires laid { AreLaid 0 parts.now }
    requires head { IsHeadOf (Some word.now) head }
    ensures long { length nexts.new ≡ length nexts.old }
    ensures nexts { OnOk result ((last : Option (List ℕ)) → StandAt last parts.now nexts.old → IsLeast last parts.now word.now → StandAt (Some word.now) parts.now nexts.new) }
    ensures tables { OnOk result ((last : Option (List ℕ)) → StandAt last parts.now nexts.old → IsLeast last parts.now word.now → (rows : List AnyRow) (words : List (List ℕ)) → AreTables rows words tables.old → AreEntriesOf word.now rows (flat_map (stacked_in word.now) parts.now) → AreTables rows (added (flat_map (stacked_in word.now) parts.now) words word.now) tables.new) }
{
    let place = low_place(&tables.dictionary);
    let list = low_place(&tables.postings);
    let reached = stack_lists(parts, word, head, nexts, &mut tables.postings)?;
    if reached.count == 0 {
        return Ok(());
    }
    if word.len() > MAX_WORD_BYTES {
        return Err(NoMemory);
    }
    put_entry(place, reached.count, list, &mut tables.table)?;
    tables.dictionary.push(word.len() as u8)?;
    tables.dictionary.extend_from_slice(word)?;
    tables.words = tables.words.checked_add(1).ok_or(NoMemory)?;
    Ok(())
}
