//! The keywords of a piece.
ghost use Rattle.std.specs.Prelude.{◌≡◌, ◌≢◌, ◌≤◌, ◌<◌, ◌+◌, ◌++◌, ◌^◌, [], ◌∷◌, IfOk, OnOk, Some, length, map, filter};
ghost use Rattle.query_marks.specs.QueryWords.{has_letters, runs_in, word_of};
ghost use Rattle.query_marks.specs.Marks.{zone_numbers, limit_of as limit_in, keys_after, nobody as nobody_key, nobodies as nobody_keys, keys_of};

use crate::limits::Limits;
use crate::names::numbers_of;
use crate::slices::bytes_of;
use crate::state::State;
use crate::steps::has_room;
use crate::words::{after_run, count_words, run_len, word};
use query_pieces::Slice;
use query_tree::{Key, Limit};
use sqlite_items::Items;
use srch_base::{Name, NoMemory, Word};
use std::alloc::Global;

/// The numbers of the zones whose names a slice has, if there is one.
fn zones_of(
    alloc: Global,
    zones: &[Name],
    text: &[u8],
    names: Option<Slice>,
) -> Result<Items<u16>, NoMemory>
    requires { length zones.now < 2 ^ 16 }
    ensures { IfOk result (λ numbers. numbers ≡ zone_numbers zones.now text.now names) }
{
    match names {
        Some(names) => numbers_of(alloc, zones, bytes_of(text, names)),
        None => Ok(Items::new(alloc)),
    }
}

/// The limit of a keyword.
fn limit_of(alloc: Global, zones: &[Name], text: &[u8], here: Limits) -> Result<Limit, NoMemory>
    requires { length zones.now < 2 ^ 16 }
    ensures { IfOk result (λ limit. limit ≡ limit_in zones.now text.now here) }
{
    Ok(Limit {
        fields: here.fields,
        positions: here.positions,
        zones: zones_of(alloc, zones, text, here.zones)?,
    })
}

/// A copy of a limit.
fn copy_limit(alloc: Global, limit: &Limit) -> Result<Limit, NoMemory>
    ensures { IfOk result (λ copy. copy ≡ limit.now) }
{
    Ok(Limit {
        fields: limit.fields,
        positions: limit.positions,
        zones: Items::from_slice(alloc, limit.zones.as_slice())?,
    })
}

/// What is in the place of a keyword above the 255th.
fn nobody(alloc: Global) -> Key
    ensures { result ≡ nobody_key }
{
    Key {
        query: 0,
        word: Word::new(Vec::new(alloc)),
        limit: Limit {
            fields: 0,
            positions: 0,
            zones: Items::new(alloc),
        },
        start: false,
        end: false,
        prefix: false,
    }
}

/// None, one, or several of them.
fn nobodies(alloc: Global, count: usize) -> Result<Items<Key>, NoMemory>
    ensures { IfOk result (λ keys. keys ≡ nobody_keys count) }
{
    let mut keys = Items::new(alloc);
    if count == 0 {
        return Ok(keys);
    }
    keys.push(nobody(alloc))?;
    if count == 1 {
        return Ok(keys);
    }
    keys.push(nobody(alloc))?;
    Ok(keys)
}

/// How the keywords of a piece stand.
#[derive(Drop)]
struct Standing {
    limit: Limit,
    start: bool,
    end: bool,
    /// How many keywords are before the piece.
    before: u16,
}

/// Puts the keyword of a run at the end, if the run isn't empty.
fn put_key(
    alloc: Global,
    run: &[Option<char>],
    standing: &Standing,
    keys: &mut Items<Key>,
) -> Result<(), NoMemory>
    requires { run.now ≢ [] → standing.now.before + length keys.old < 255 }
    ensures { OnOk result (keys.new ≡ keys.old ++ keys_after (standing.now.before + length keys.old) standing.now.limit standing.now.start standing.now.end (map word_of (filter has_letters (run.now ∷ [])))) }
{
    if !run.is_empty() {
        let query = standing.before + keys.len() as u16 + 1;
        keys.push(Key {
            query,
            word: word(alloc, run)?,
            limit: copy_limit(alloc, &standing.limit)?,
            start: standing.start,
            end: standing.end,
            prefix: false,
        })?;
    }
    Ok(())
}

/// The keywords that letters spell, at most 255 with those before.
fn all_keys(
    alloc: Global,
    letters: &[Option<char>],
    standing: &Standing,
) -> Result<Items<Key>, NoMemory>
    requires { standing.now.before + length (runs_in letters.now) ≤ 255 }
    ensures { IfOk result (λ keys. keys ≡ keys_after standing.now.before standing.now.limit standing.now.start standing.now.end (map word_of (runs_in letters.now))) }
{
    let mut keys = Items::new(alloc);
    let mut rest = letters;
    'runs: while !rest.is_empty() {
        let len = run_len(rest);
        put_key(alloc, &rest[..len], standing, &mut keys)?;
        rest = after_run(rest, len);
    }
    Ok(keys)
}

/// The keywords that letters spell, after those before.
pub(crate) fn keys(
    alloc: Global,
    zones: &[Name],
    text: &[u8],
    state: &State,
    letters: &[Option<char>],
    start: bool,
    end: bool,
) -> Result<Items<Key>, NoMemory>
    requires { length zones.now < 2 ^ 16 }
    ensures { IfOk result (λ keys. keys ≡ keys_of state.now.keywords (limit_in zones.now text.now state.now.here) start end (map word_of (runs_in letters.now))) }
{
    let more = count_words(letters);
    if !has_room(state, more) {
        return nobodies(alloc, more);
    }
    let standing = Standing {
        limit: limit_of(alloc, zones, text, state.here)?,
        start,
        end,
        before: state.keywords,
    };
    let keys = all_keys(alloc, letters, &standing)?;
    Ok(keys)
}
