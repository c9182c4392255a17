//! Where the parts stand among their words while these are merged, and the least of their next ones.
//!
//! Of each part the number of its next word is kept, and the head of that word: its first bytes, as a number. So the parts' next
//! words are compared as numbers that lie beside one another, and a part's bytes are read once for each word of it. Only where the
//! least head doesn't tell its word, as that of a word of nine letters or more, the words of this head are compared by their bytes.
ghost use Rattle.std.specs.Prelude.{◌≡◌, ◌≢◌, ◌<◌, ◌+◌, ℕ, List, Option, Some, None, length, slice_get, All, IfOk, MatchOption, MatchBool, if◌then◌else◌};
ghost use Rattle.std.specs.Option.{option_map};
ghost use Rattle.doc_types.specs.Chunks.{AreWordsOf};
ghost use Rattle.image_join.specs.steps.Merging.{IsDone, IsHeadOf, IsLeast, IsLeastHead, StandAt, StandsAt, lesser, with_head};

use crate::copying::CopyBytes;
use crate::parts::Part;
use image_write::tells;
use srch_base::NoMemory;
use std::alloc::Global;

/// What stands for a head where no word is left: no head is greater, and none that tells its word is so great.
pub(crate) const NO_HEAD: u64 = u64::MAX;

/// Where a part stands among its words: the number of the next one, and the head of that, or `NO_HEAD` if none is left.
#[derive(Clone, Copy)]
pub(crate) struct Next {
    pub(crate) number: u32,
    pub(crate) head: u64,
}

/// The least of the parts' next words, and its head.
#[derive(Clone, Copy)]
pub(crate) struct Least<'p> {
    pub(crate) word: &'p [u8],
    pub(crate) head: u64,
}

/// The first words of the parts.
pub(crate) fn nexts_of<C: CopyBytes>(
    alloc: Global,
    parts: &[Part<C>],
) -> Result<Vec<Next>, NoMemory>
    ensures { IfOk result (λ nexts. StandAt None parts.now nexts.items) }
{
    let mut nexts = Vec::with_capacity(alloc, parts.len())?;
    for part in parts {
        nexts.push(first_of(part))?;
    }
    Ok(nexts)
}

/// The first word of a part.
#[inline]
fn first_of<C: CopyBytes>(part: &Part<C>) -> Next
    ensures { StandsAt None part.now result }
{
    let count = part.words();
    before(part, 0, count)
}

/// The part's word behind the one of this number.
#[inline]
pub(crate) fn next_of<C: CopyBytes>(part: &Part<C>, number: u32) -> Next
    requires { number < length part.now.words }
    ensures number { result.number ≡ number + 1 }
    ensures headed { IsHeadOf (slice_get part.now.words (number + 1)) result.head }
{
    let count = part.words();
    before(part, number + 1, count)
}

/// Where a part of so many words stands before this one of them, or behind all.
#[inline]
fn before<C: CopyBytes>(part: &Part<C>, number: u32, count: u32) -> Next
    requires { count ≡ length part.now.words }
    ensures number { result.number ≡ number }
    ensures headed { IsHeadOf (slice_get part.now.words number) result.head }
{
    if number < count {
        Next {
            number,
            head: part.head(number),
        }
    } else {
        Next {
            number,
            head: NO_HEAD,
        }
    }
}

/// The least of the parts' next words, if there is one. Most are told by their heads.
#[inline]
pub(crate) fn least_word<'p, C: CopyBytes>(
    parts: &'p [Part<C>],
    nexts: &[Next],
) -> Option<Least<'p>>
    requires words { All (λ part. AreWordsOf part.rows part.words) parts.now }
    requires stand { (last : Option (List ℕ)) × StandAt last parts.now nexts.now }
    ensures { (last : Option (List ℕ)) → StandAt last parts.now nexts.now → MatchOption result (All (IsDone last) parts.now) (λ least. IsLeast last parts.now least.word.now × IsHeadOf (Some least.word.now) least.head) }
{
    let (place, head) = least_of(nexts);
    if !tells(head) {
        return least_of_head(parts, nexts, head);
    }
    let word = parts[place].word_at(nexts[place].number);
    Some(Least { word, head })
}

/// The place of the least of the heads, and that head.
#[inline]
fn least_of(nexts: &[Next]) -> (usize, u64)
    ensures { IsLeastHead nexts.now (length nexts.now) result.0 result.1 }
{
    let mut place = 0;
    let mut least = NO_HEAD;
    for (number, next) in nexts.iter().enumerate() {
        let head = next.head;
        let is_less = head < least;
        place = chosen(is_less, number, place);
        least = chosen(is_less, head, least);
    }
    (place, least)
}

/// The first value where this holds, or else the second. Which head is the least can't be foreseen, so no branch hangs on it.
#[inline]
fn chosen<T: Copy>(is_first: bool, first: T, second: T) -> T
    ensures { result ≡ (if is_first then first else second) }
{
    if is_first { first } else { second }
}

/// The least of the parts' next words where this is the least of their heads, and doesn't tell its word.
#[inline(never)]
fn least_of_head<'p, C: CopyBytes>(
    parts: &'p [Part<C>],
    nexts: &[Next],
    head: u64,
) -> Option<Least<'p>>
    requires words { All (λ part. AreWordsOf part.rows part.words) parts.now }
    requires stand { (last : Option (List ℕ)) × StandAt last parts.now nexts.now }
    requires least { (place : ℕ) × IsLeastHead nexts.now (length nexts.now) place head }
    ensures { (last : Option (List ℕ)) → StandAt last parts.now nexts.now → MatchOption result (All (IsDone last) parts.now) (λ least. IsLeast last parts.now least.word.now × IsHeadOf (Some least.word.now) least.head) }
{
    let mut least = None;
    for (number, part) in parts.iter().enumerate() {
        least = lesser(least, word_with(part, nexts[number], head));
    }
    match least {
        Some(word) => Some(Least { word, head }),
        None => None,
    }
}

/// The part's next word, if this is its head.
#[inline]
fn word_with<'p, C: CopyBytes>(part: &'p Part<C>, next: Next, head: u64) -> Option<&'p [u8]>
    ensures { option_map (λ word. word.now) result ≡ with_head head next (slice_get part.now.words next.number) }
{
    if next.head != head {
        return None;
    }
    part.word(next.number)
}

/// The lesser of two words, where they are there.
#[inline]
fn lesser<'p>(least: Option<&'p [u8]>, other: Option<&'p [u8]>) -> Option<&'p [u8]>
    ensures { option_map (λ word. word.now) result ≡ lesser (option_map (λ word. word.now) least.entry) (option_map (λ word. word.now) other.entry) }
{
    match (least, other) {
        (Some(first), Some(second)) => {
            if second.cmp(first).is_lt() {
                other
            } else {
                least
            }
        }
        (Some(_), None) => least,
        (None, _) => other,
    }
}

/// Whether the part's next word is this one, whose head this is.
#[inline]
pub(crate) fn is_next<C: CopyBytes>(part: &Part<C>, next: Next, word: &[u8], head: u64) -> bool
    requires next { IsHeadOf (slice_get part.now.words next.number) next.head }
    requires head { IsHeadOf (Some word.now) head }
    ensures { MatchBool result (slice_get part.now.words next.number ≡ Some word.now) (slice_get part.now.words next.number ≢ Some word.now) }
{
    if next.head != head {
        return false;
    }
    if tells(head) {
        return true;
    }
    has_at(part, next.number, word)
}

/// Whether the part's word of this number is this one.
#[inline]
fn has_at<C: CopyBytes>(part: &Part<C>, number: u32, word: &[u8]) -> bool
    ensures { MatchBool result (slice_get part.now.words number ≡ Some word.now) (slice_get part.now.words number ≢ Some word.now) }
{
    match part.word(number) {
        Some(own) => own == word,
        None => false,
    }
}
