//! What words, quoted pieces and zone limits are to the grammar.
ghost use Rattle.std.specs.Prelude.{◌≡◌, ◌<◌, ◌≤◌, ◌^◌, IfOk, length};
ghost use Rattle.query_marks.specs.Marks.{as_prefix as as_a_prefix, word_sign as sign_of_word, phrase_sign as sign_of_phrase, loose_sign as sign_of_loose, quoted_sign as sign_of_quoted, zone_sign as sign_of_zones};

use crate::mark::Sign;
use crate::names::numbers_of;
use crate::slices::bytes_of;
use query_pieces::ZoneLimit;
use query_tree::{How, Key};
use sqlite_items::{Boxed, Items};
use srch_base::{Name, NoMemory};
use std::alloc::Global;

/// A keyword, as a prefix or as a whole word.
fn as_prefix(key: Key, prefix: bool) -> Key
    ensures { result ≡ as_a_prefix prefix key }
{
    Key {
        query: key.query,
        word: key.word,
        limit: key.limit,
        start: key.start,
        end: key.end,
        prefix,
    }
}

/// The sign of a word.
pub(crate) fn word_sign(
    alloc: Global,
    keys: Items<Key>,
    prefix: bool,
) -> Result<Option<Sign>, NoMemory>
    ensures { IfOk result (λ sign. sign ≡ sign_of_word prefix keys) }
{
    let mut keys = keys;
    if keys.is_empty() {
        return Ok(None);
    }
    let key = as_prefix(keys.remove(0), prefix);
    let boxed = Boxed::new(alloc, key)?;
    Ok(Some(Sign::Bare(boxed)))
}

/// The sign of a quoted piece of one word at most.
fn lone_sign(alloc: Global, keys: Items<Key>) -> Result<Option<Sign>, NoMemory>
    requires { length keys ≤ 1 }
    ensures { IfOk result (λ sign. sign ≡ sign_of_phrase keys) }
{
    let mut keys = keys;
    if keys.is_empty() {
        return Ok(None);
    }
    let key = keys.remove(0);
    let boxed = Boxed::new(alloc, key)?;
    Ok(Some(Sign::Bare(boxed)))
}

/// The sign of a quoted piece without a number, if it has a word.
fn phrase_sign(alloc: Global, keys: Items<Key>) -> Result<Option<Sign>, NoMemory>
    ensures { IfOk result (λ sign. sign ≡ sign_of_phrase keys) }
{
    if keys.len() > 1 {
        return Ok(Some(Sign::Phrase(keys)));
    }
    lone_sign(alloc, keys)
}

/// The sign of a quoted piece with a number, if it has a word.
fn loose_sign(keys: Items<Key>, how: How) -> Option<Sign>
    ensures { result ≡ sign_of_loose keys how }
{
    if keys.is_empty() {
        None
    } else {
        Some(Sign::Loose(keys, how))
    }
}

/// The sign of a quoted piece, if it has a word.
pub(crate) fn quoted_sign(
    alloc: Global,
    keys: Items<Key>,
    how: How,
) -> Result<Option<Sign>, NoMemory>
    ensures { IfOk result (λ sign. sign ≡ sign_of_quoted keys how) }
{
    match how {
        How::Phrase => phrase_sign(alloc, keys),
        How::Within(_) => Ok(loose_sign(keys, how)),
        How::AtLeast(_) => Ok(loose_sign(keys, how)),
        How::Share { .. } => Ok(loose_sign(keys, how)),
    }
}

/// The sign of a zone limit. It makes a node where it is ZONESPAN and the index has zones.
pub(crate) fn zone_sign(
    alloc: Global,
    zones: &[Name],
    text: &[u8],
    limit: ZoneLimit,
) -> Result<Sign, NoMemory>
    requires { length zones.now < 2 ^ 16 }
    ensures { IfOk result (λ sign. sign ≡ sign_of_zones zones.now text.now limit) }
{
    if zones.is_empty() || !limit.span {
        return Ok(Sign::Limits);
    }
    let numbers = numbers_of(alloc, zones, bytes_of(text, limit.names))?;
    Ok(Sign::Spans(numbers))
}
