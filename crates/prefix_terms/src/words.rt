//! The words that a prefix stands for.
ghost use Rattle.std.specs.Prelude.{◌≡◌, ◌<◌, ◌≤◌, ◌^◌, ◌+◌, ℕ, List, [], All, length, replicate, IfOk, OnOk};
ghost use Rattle.doc_types.specs.Snapshots.{all_living};
ghost use Rattle.prefix_terms.specs.Prefixes.{AreWordsWith};
ghost use Rattle.prefix_terms.specs.steps.Keeping.{AreFound, with_living};
ghost use Rattle.prefix_terms.specs.steps.Merging.{AreMerged};
ghost use Rattle.prefix_terms.specs.steps.Parts.{Ascend};

use crate::merging::{is_living, least_word, pass};
use crate::parts::{Part, parts_of};
use doc_types::{Chunk, Layer};
use srch_base::{NoMemory, Word};
use std::alloc::Global;

/// Words that were found: as many of them as there was room for, and how many they are.
#[derive(Drop)]
pub(crate) struct FoundWords {
    pub(crate) kept: Vec<Word>,
    pub(crate) count: u64,
}

/// The words that begin so and that a living row of the layers has, ascending. Those for which there is no room are only counted.
pub(crate) fn words_with<C: Chunk>(
    alloc: Global,
    layers: &[Layer<C>],
    beginning: &[u8],
    room: usize,
) -> Result<FoundWords, NoMemory>
    requires { length layers.now < 2 ^ 16 }
    ensures words { IfOk result (λ found. (words : List (List ℕ)) × AreWordsWith (all_living layers.now) beginning.now words × AreFound room words found.kept.items found.count) }
    ensures few { IfOk result (λ found. found.count ≤ 2 ^ 48) }
{
    let parts = parts_of(alloc, layers, beginning)?;
    let found = merged(alloc, &parts, room)?;
    Ok(found)
}

/// The words of the parts that living rows have, ascending.
fn merged<C: Chunk>(alloc: Global, parts: &[Part<C>], room: usize) -> Result<FoundWords, NoMemory>
    requires ascend { All (λ part. Ascend part.words) parts.now }
    requires short { All (λ part. length part.words < 2 ^ 32) parts.now }
    requires few { length parts.now < 2 ^ 16 }
    ensures words { IfOk result (λ found. (words : List (List ℕ)) × AreMerged parts.now words × AreFound room words found.kept.items found.count) }
    ensures few { IfOk result (λ found. found.count ≤ 2 ^ 48) }
{
    let mut numbers = first_numbers(alloc, parts.len())?;
    let mut found = none_found(alloc);
    'words: while let Some(word) = least_word(parts, &numbers) {
        let lives = is_living(parts, word);
        take(alloc, word, lives, room, &mut found)?;
        pass(parts, word, &mut numbers);
    }
    Ok(found)
}

/// So many parts that stand at their first words.
fn first_numbers(alloc: Global, count: usize) -> Result<Vec<u32>, NoMemory>
    ensures { IfOk result (λ numbers. numbers.items ≡ replicate count 0) }
{
    Ok(vec![in alloc; 0u32; count]?)
}

/// No words.
fn none_found(alloc: Global) -> FoundWords
    ensures kept { result.kept.items ≡ [] }
    ensures count { result.count ≡ 0 }
{
    FoundWords {
        kept: Vec::new(alloc),
        count: 0,
    }
}

/// Counts a word, and keeps a copy of it if there is room, where it is living.
fn take(
    alloc: Global,
    word: &[u8],
    lives: bool,
    room: usize,
    found: &mut FoundWords,
) -> Result<(), NoMemory>
    requires { found.old.count < 2 ^ 63 }
    ensures words { OnOk result ((words : List (List ℕ)) → AreFound room words found.old.kept.items found.old.count → AreFound room (with_living lives words word.now) found.new.kept.items found.new.count) }
    ensures count { OnOk result (found.new.count ≤ found.old.count + 1) }
{
    if !lives {
        return Ok(());
    }
    if found.kept.len() < room {
        let copy = Word::from_slice(alloc, word)?;
        found.kept.push(copy)?;
    }
    found.count += 1;
    Ok(())
}
