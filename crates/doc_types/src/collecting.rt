//! The rows of each word, collected row by row in a tree by words.
ghost use Rattle.std.specs.Prelude.{◌≡◌, ◌≤◌, ◌+◌, ℕ, List, ◌<◌, ◌^◌, OnOk, IfOk, length, map};
ghost use Rattle.std.specs.List.{list_any, sum_by};
ghost use Rattle.std.specs.Str.{bytes_eq};
ghost use Rattle.std.specs.BTreeMap.{btree_map_len, IsOrdered};
ghost use Rattle.std.specs.Ordering.{nat_cmp};
ghost use Rattle.std.specs.Cmp.Lexicographic.{slice_cmp};
ghost use Rattle.doc_types.specs.Documents.{word_count};
ghost use Rattle.doc_types.specs.Chunks.{is_word, has_word, rows_with};
ghost use Rattle.doc_types.specs.steps.Collecting.{rows_in, some_of, ended_by, with_row};

use crate::documents::DocRow;
use crate::plain_index::WordRows;
use crate::tokens::FieldTokens;
use srch_base::{Items, NoMemory, Word};
use std::alloc::Global;
use std::collections::BTreeMap;

/// The rows of each word.
pub(crate) fn collect(
    alloc: Global,
    rows: &Items<DocRow>,
) -> Result<BTreeMap<Word, Vec<u32>>, NoMemory>
    requires { length rows.now < 2 ^ 32 }
    ensures size { IfOk result (λ collected. btree_map_len collected ≤ sum_by word_count rows.now) }
    ensures rows { IfOk result (λ collected. (w : List ℕ) → rows_in collected w ≡ some_of (rows_with w rows.now)) }
{
    let mut collected = BTreeMap::new(alloc);
    for (number, row) in rows.as_slice().iter().enumerate() {
        add_row(alloc, &mut collected, row, number as u32)?;
    }
    Ok(collected)
}

/// The words of a tree in their order, each with its rows.
pub(crate) fn listed(
    alloc: Global,
    collected: BTreeMap<Word, Vec<u32>>,
) -> Result<Items<WordRows>, NoMemory>
    ensures entries { IfOk result (λ index. index ≡ map (λ e. record { word = e.0; rows = e.1.items }) collected.entries) }
    ensures ordered { IsOrdered (slice_cmp nat_cmp) collected }
{
    let entries = collected.into_iter().map(|(word, rows)| WordRows {
        word,
        rows: Items::new(rows),
    });
    Ok(Items::new(entries.collect(alloc)?))
}

/// Adds a row to the rows of each of its words.
fn add_row(
    alloc: Global,
    collected: &mut BTreeMap<Word, Vec<u32>>,
    row: &DocRow,
    number: u32,
) -> Result<(), NoMemory>
    ensures grows { OnOk result (btree_map_len collected.new ≤ btree_map_len collected.old + word_count row.now) }
    ensures rows { OnOk result ((w : List ℕ) → rows_in collected.new w ≡ with_row number (has_word w row.now) (rows_in collected.old w)) }
{
    for field in row.doc.fields.as_slice() {
        add_field(alloc, collected, field, number)?;
    }
    Ok(())
}

fn add_field(
    alloc: Global,
    collected: &mut BTreeMap<Word, Vec<u32>>,
    field: &FieldTokens,
    row: u32,
) -> Result<(), NoMemory>
    ensures grows { OnOk result (btree_map_len collected.new ≤ btree_map_len collected.old + length field.now.words) }
    ensures rows { OnOk result ((w : List ℕ) → rows_in collected.new w ≡ with_row row (list_any (is_word w) field.now.words) (rows_in collected.old w)) }
{
    for token in field.words.as_slice() {
        add_word(alloc, collected, &token.word, row)?;
    }
    Ok(())
}

fn add_word(
    alloc: Global,
    collected: &mut BTreeMap<Word, Vec<u32>>,
    word: &Word,
    row: u32,
) -> Result<(), NoMemory>
    ensures grows { OnOk result (btree_map_len collected.new ≤ btree_map_len collected.old + 1) }
    ensures rows { OnOk result ((w : List ℕ) → rows_in collected.new w ≡ with_row row (bytes_eq word.now w) (rows_in collected.old w)) }
{
    match collected.get_mut(word) {
        Some(rows) => end_by(rows, row)?,
        None => {
            collected.insert(word.clone()?, vec![in alloc; row]?)?;
        }
    }
    Ok(())
}

fn end_by(rows: &mut Vec<u32>, row: u32) -> Result<(), NoMemory>
    ensures { OnOk result (rows.new.items ≡ ended_by row rows.old.items) }
{
    match rows.as_slice().last() {
        Some(last) if *last == row => {}
        _ => rows.push(row)?,
    }
    Ok(())
}
