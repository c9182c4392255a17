//! The words of all parts, merged: word table, dictionary and postings.
ghost use Rattle.std.specs.Prelude.{◌≡◌, ◌≤◌, ◌+◌, ◌++◌, ℕ, List, Option, Some, true, [], length, slice_get, All, IfOk, IsTrue, OnOk};
ghost use Rattle.std.specs.List.{flat_map};
ghost use Rattle.doc_types.specs.Chunks.{AreWordsOf};
ghost use Rattle.doc_types.specs.declared.documents.DocRow.{DocRow as AnyRow};
ghost use Rattle.image_join.specs.steps.Entries.{AreEntriesOf, entries_in, lent};
ghost use Rattle.image_join.specs.steps.Merging.{AreTables, IsBefore, IsHeadOf, IsLeast, StandAt, StandsAt, added, is_ahead};
ghost use Rattle.image_join.specs.steps.Numbering.{AreNumbered};
ghost use Rattle.image_join.specs.steps.Parts.{AreLaid};
ghost use Rattle.image_join.specs.steps.Stacking.{AreInOrder};

use crate::copying::CopyBytes;
use crate::lists::{collect, put_in_order, put_list};
use crate::nexts::{Least, Next, is_next, least_word, next_of, nexts_of};
use crate::parts::Part;
use crate::places::low_place;
use crate::stacking::{stack_word, stand_in_order};
use doc_types::MAX_WORD_BYTES;
use image_write::{Tables, count_in, put_entry};
use srch_base::NoMemory;
use std::alloc::Global;

/// How many bytes the entry of a word takes in the word table.
const ENTRY: usize = 12;

/// How many bytes a word of seven letters takes in the dictionary.
const SHORT_WORD: usize = 8;

/// Word table, dictionary and postings of the rows that have these numbers.
pub(crate) fn tables_of<C: CopyBytes>(
    alloc: Global,
    parts: &[Part<C>],
    numbers: &[u32],
) -> Result<Tables, NoMemory>
    requires laid { AreLaid 0 parts.now }
    requires numbered { (rows : List AnyRow) × AreNumbered parts.now numbers.now rows }
    ensures { IfOk result (λ tables. (rows : List AnyRow) → AreNumbered parts.now numbers.now rows → (words : List (List ℕ)) × AreWordsOf rows words × AreTables rows words tables) }
{
    let most = word_count(parts);
    let mut tables = no_tables(alloc, most, room_for(parts))?;
    let mut nexts = nexts_of(alloc, parts)?;
    let mut found = Vec::new(alloc);
    let in_order = stand_in_order(numbers);
    'words: for _ in 0..most {
        let least = match least_word(parts, &nexts) {
            Some(least) => least,
            None => return Ok(tables),
        };
        go_over(
            parts,
            numbers,
            in_order,
            least,
            &mut nexts,
            &mut found,
            &mut tables,
        )?;
    }
    // Each round goes over a word of a part at least.
    match least_word(parts, &nexts) {
        Some(_) => Err(NoMemory),
        None => Ok(tables),
    }
}

/// Appends a word, which is the least of the parts' next ones, with its entries, where it has some, and goes over it. The list is
/// used for each word.
fn go_over<'p, C: CopyBytes>(
    parts: &'p [Part<C>],
    numbers: &[u32],
    in_order: bool,
    least: Least<'_>,
    nexts: &mut [Next],
    found: &mut Vec<(u32, &'p [u8])>,
    tables: &mut Tables,
) -> Result<(), NoMemory>
    requires words { All (λ part. AreWordsOf part.rows part.words) parts.now }
    requires stand { (last : Option (List ℕ)) × StandAt last parts.now nexts.old }
    requires within { All (λ part. part.first + length part.rows ≤ length numbers.now) parts.now }
    requires laid { AreLaid 0 parts.now }
    requires order { IsTrue in_order → AreInOrder numbers.now }
    requires head { IsHeadOf (Some least.word.now) least.head }
    ensures long { length nexts.new ≡ length nexts.old }
    ensures nexts { OnOk result ((last : Option (List ℕ)) → StandAt last parts.now nexts.old → IsLeast last parts.now least.entry.word.now → StandAt (Some least.entry.word.now) parts.now nexts.new) }
    ensures tables { OnOk result ((last : Option (List ℕ)) → StandAt last parts.now nexts.old → IsLeast last parts.now least.entry.word.now → (rows : List AnyRow) (words : List (List ℕ)) → AreTables rows words tables.old → AreEntriesOf least.entry.word.now rows (flat_map (entries_in least.entry.word.now numbers.now) parts.now) → AreTables rows (added (flat_map (entries_in least.entry.word.now numbers.now) parts.now) words least.entry.word.now) tables.new) }
{
    if in_order {
        stack_word(parts, least.word, least.head, nexts, tables)?;
        return Ok(());
    }
    found.clear();
    take_word(parts, numbers, least.word, least.head, nexts, found)?;
    put_word(least.word, found, tables)
}

/// No word, and room for the entries of so many words, for these words where they are short, and for so many bytes of postings.
fn no_tables(alloc: Global, words: u64, postings: usize) -> Result<Tables, NoMemory>
    ensures { IfOk result (λ tables. (rows : List AnyRow) → AreTables rows [] tables) }
{
    let words = words as usize;
    Ok(Tables {
        words: 0,
        table: Vec::with_capacity(alloc, words.saturating_mul(ENTRY))?,
        dictionary: Vec::with_capacity(alloc, words.saturating_mul(SHORT_WORD))?,
        postings: Vec::with_capacity(alloc, postings)?,
    })
}

/// How many bytes the parts' images take. Their postings, which are most of them, take no more, also once they are put together.
/// A list that grew by itself to that size would have left its former places behind as memory that nobody uses.
fn room_for<C: CopyBytes>(parts: &[Part<C>]) -> usize {
    let mut room: usize = 0;
    for part in parts {
        room = room.saturating_add(part.size());
    }
    room
}

/// How many words the parts have, each counted in each part that has it, or `u64::MAX`.
fn word_count<C: CopyBytes>(parts: &[Part<C>]) -> u64
    ensures { All (λ part. AreWordsOf part.rows part.words) parts.now }
{
    let mut count: u64 = 0;
    for part in parts {
        count = count.saturating_add(u64::from(part.words()));
    }
    count
}

/// Appends the entries of a word, which is the least of the parts' next ones, and goes over it.
fn take_word<'p, C: CopyBytes>(
    parts: &'p [Part<C>],
    numbers: &[u32],
    word: &[u8],
    head: u64,
    nexts: &mut [Next],
    found: &mut Vec<(u32, &'p [u8])>,
) -> Result<(), NoMemory>
    requires words { All (λ part. AreWordsOf part.rows part.words) parts.now }
    requires stand { (last : Option (List ℕ)) × StandAt last parts.now nexts.old }
    requires within { All (λ part. part.first + length part.rows ≤ length numbers.now) parts.now }
    requires head { IsHeadOf (Some word.now) head }
    ensures long { length nexts.new ≡ length nexts.old }
    ensures nexts { OnOk result ((last : Option (List ℕ)) → StandAt last parts.now nexts.old → IsLeast last parts.now word.now → StandAt (Some word.now) parts.now nexts.new) }
    ensures found { OnOk result ((last : Option (List ℕ)) → StandAt last parts.now nexts.old → IsLeast last parts.now word.now → lent found.new.items ≡ lent found.old.items ++ flat_map (entries_in word.now numbers.now) parts.now) }
{
    for (number, part) in parts.iter().enumerate() {
        nexts[number] = take_from(part, numbers, word, head, nexts[number], found)?;
    }
    Ok(())
}

/// Appends the entries of a word, whose head this is, in a part, if it is the part's next one, and gives where the part stands then.
#[inline]
fn take_from<'p, C: CopyBytes>(
    part: &'p Part<C>,
    numbers: &[u32],
    word: &[u8],
    head: u64,
    next: Next,
    found: &mut Vec<(u32, &'p [u8])>,
) -> Result<Next, NoMemory>
    requires words { AreWordsOf part.now.rows part.now.words }
    requires within { part.now.first + length part.now.rows ≤ length numbers.now }
    requires next { IsHeadOf (slice_get part.now.words next.number) next.head }
    requires head { IsHeadOf (Some word.now) head }
    ensures next { IfOk result (λ after. (last : Option (List ℕ)) → StandsAt last part.now next → IsBefore last word.now part.now → is_ahead last word.now ≡ true → StandsAt (Some word.now) part.now after) }
    ensures found { OnOk result ((last : Option (List ℕ)) → StandsAt last part.now next → IsBefore last word.now part.now → is_ahead last word.now ≡ true → lent found.new.items ≡ lent found.old.items ++ entries_in word.now numbers.now part.now) }
{
    if !is_next(part, next, word, head) {
        return Ok(next);
    }
    collect(part, next.number, numbers, found)?;
    Ok(next_of(part, next.number))
}

/// Appends a word with its entries, where it has some.
fn put_word(word: &[u8], found: &mut Vec<(u32, &[u8])>, tables: &mut Tables) -> Result<(), NoMemory>
    ensures { OnOk result ((rows : List AnyRow) (words : List (List ℕ)) → AreTables rows words tables.old → AreEntriesOf word.now rows (lent found.old.items) → AreTables rows (added (lent found.old.items) words word.now) tables.new) }
{
    if found.is_empty() {
        return Ok(());
    }
    if word.len() > MAX_WORD_BYTES {
        return Err(NoMemory);
    }
    let place = low_place(&tables.dictionary);
    let list = low_place(&tables.postings);
    let rows = count_in(found.len())?;
    put_entry(place, rows, list, &mut tables.table)?;
    tables.dictionary.push(word.len() as u8)?;
    tables.dictionary.extend_from_slice(word)?;
    put_in_order(found);
    put_list(found, &mut tables.postings)?;
    tables.words = tables.words.checked_add(1).ok_or(NoMemory)?;
    Ok(())
}
