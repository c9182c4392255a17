//! The words of all prefixes of a query.
ghost use Rattle.std.specs.Prelude.{◌≡◌, ◌<◌, ◌≤◌, ◌^◌, ◌+◌, ◌-◌, ◌++◌, ◌∷◌, [], length, map, IfOk, OnOk};
ghost use Rattle.query_tree.specs.TreeKeys.{query_keys};
ghost use Rattle.doc_types.specs.Snapshots.{all_living};
ghost use Rattle.prefix_terms.specs.Prefixes.{AreExpanded, AreWordsWith, Expands, Lists, words_together};
ghost use Rattle.prefix_terms.specs.steps.Keeping.{AreListed, Tells};

use crate::expansion::{Expansion, MAX_PREFIX_WORDS, TooMany};
use crate::words::words_with;
use doc_types::{Chunk, Layer, Snapshot};
use query_tree::{Key, Query, put_keys};
use srch_base::{Items, NoMemory, Or, Word};
use std::alloc::Global;

/// The lists of prefixes, of which as many words are kept as all may have, and how many they have together.
#[derive(Drop)]
struct Listed {
    lists: Vec<(u16, Items<Word>)>,
    count: u64,
}

/// The words that the prefixes of the query stand for in the snapshot, or how many they are, where these are too many.
///
/// Each dictionary is searched once for a prefix, and then gone over in step with the others. A word's list is read to its first
/// row that lives.
pub fn expand<C: Chunk>(
    alloc: Global,
    snapshot: &Snapshot<C>,
    query: &Query,
) -> Result<Expansion, Or<TooMany>>
    requires { length (query_keys query.now) < 2 ^ 16 }
    ensures { Expands snapshot.now query.now result }
{
    match list_all(alloc, snapshot.layers.as_slice(), query) {
        Ok(listed) => told(listed),
        Err(NoMemory) => Err(Or::NoMemory),
    }
}

/// The words that begin so and that a living row has, ascending, however many they are.
pub fn words_of_prefix<C: Chunk>(
    alloc: Global,
    snapshot: &Snapshot<C>,
    beginning: &[u8],
) -> Result<Items<Word>, NoMemory>
    ensures { IfOk result (AreWordsWith (all_living snapshot.now.layers) beginning.now) }
{
    let found = words_with(alloc, snapshot.layers.as_slice(), beginning, usize::MAX)?;
    Ok(Items::new(found.kept))
}

/// The lists, or how many words they have, where these are too many.
fn told(listed: Listed) -> Result<Expansion, Or<TooMany>>
    ensures { Tells listed.lists.items listed.count result }
{
    let Listed { lists, count } = listed;
    if count > MAX_PREFIX_WORDS as u64 {
        return Err(Or::Fault(TooMany { count }));
    }
    Ok(Expansion {
        keys: Items::new(lists),
    })
}

/// The lists of the query's prefixes.
fn list_all<C: Chunk>(alloc: Global, layers: &[Layer<C>], query: &Query) -> Result<Listed, NoMemory>
    requires layers { length layers.now < 2 ^ 16 }
    requires keys { length (query_keys query.now) < 2 ^ 16 }
    ensures { IfOk result (λ listed. (lists : Lists) × AreExpanded (all_living layers.now) (query_keys query.now) lists × AreListed lists listed.lists.items listed.count) }
{
    let keys = keys_of(alloc, query)?;
    let listed = list_keys(alloc, layers, &keys)?;
    Ok(listed)
}

/// The lists of those of the keywords that are prefixes.
fn list_keys<C: Chunk>(
    alloc: Global,
    layers: &[Layer<C>],
    keys: &[&Key],
) -> Result<Listed, NoMemory>
    requires layers { length layers.now < 2 ^ 16 }
    requires keys { length keys.now < 2 ^ 16 }
    ensures { IfOk result (λ listed. (lists : Lists) × AreExpanded (all_living layers.now) (map (λ key. key.now) keys.now) lists × AreListed lists listed.lists.items listed.count) }
{
    let mut listed = none_listed(alloc);
    for key in keys {
        put_list(alloc, layers, key, &mut listed)?;
    }
    Ok(listed)
}

/// No lists.
fn none_listed(alloc: Global) -> Listed
    ensures lists { result.lists.items ≡ [] }
    ensures count { result.count ≡ 0 }
{
    Listed {
        lists: Vec::new(alloc),
        count: 0,
    }
}

/// The keywords of the query.
fn keys_of(alloc: Global, query: &Query) -> Result<Vec<&Key>, NoMemory>
    ensures { IfOk result (λ keys. map (λ key. key.now) keys.items ≡ query_keys query.now) }
{
    let mut keys = Vec::new(alloc);
    match &query.root {
        Some(root) => put_keys(root, &mut keys)?,
        None => {}
    }
    Ok(keys)
}

/// Appends the list of a keyword, if that is a prefix.
fn put_list<C: Chunk>(
    alloc: Global,
    layers: &[Layer<C>],
    key: &Key,
    listed: &mut Listed,
) -> Result<(), NoMemory>
    requires layers { length layers.now < 2 ^ 16 }
    requires count { listed.old.count + 2 ^ 48 < 2 ^ 64 }
    ensures lists { OnOk result ((lists : Lists) → AreListed lists listed.old.lists.items listed.old.count → (more : Lists) × AreExpanded (all_living layers.now) (key.now ∷ []) more × AreListed (lists ++ more) listed.new.lists.items listed.new.count) }
    ensures count { OnOk result (listed.new.count ≤ listed.old.count + 2 ^ 48) }
{
    let is_prefix = key.prefix;
    if !is_prefix {
        return Ok(());
    }
    let room = room_behind(listed.count);
    let found = words_with(alloc, layers, key.word.as_bytes(), room)?;
    listed.lists.push((key.query, Items::new(found.kept)))?;
    listed.count += found.count;
    Ok(())
}

/// How many words may follow so many.
fn room_behind(count: u64) -> usize
    ensures { result ≡ MAX_PREFIX_WORDS - count }
{
    let most = MAX_PREFIX_WORDS as u64;
    if count < most {
        (most - count) as usize
    } else {
        0
    }
}
