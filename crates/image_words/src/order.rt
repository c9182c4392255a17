//! Whether the words of a dictionary ascend.
ghost use Rattle.std.specs.Prelude.{◌≡◌, ℕ, ◌+◌, ◌<◌, ◌≤◌, List, length, take, drop, MatchOption, IsTrue, ◌↔◌};
ghost use Rattle.std.specs.Str.{IsUtf8, is_utf8};
ghost use Rattle.item_lists.specs.steps.Places.{IsItemAt};
ghost use Rattle.chunk_damage.specs.WordOrder.{IsNextWord, bytes_of};
ghost use Rattle.image_words.specs.Parts.{AreOrderedIn, IsBadWordIn};

use std::cmp::Ordering;
use std::str;

const MAX_WORD: usize = 168;

/// Whether the bytes are UTF-8.
fn is_text(text: &[u8]) -> bool
    ensures { result ≡ is_utf8 text.now }
{
    text.is_ascii() || str::from_utf8(text).is_ok()
}

/// So many bytes from a place on.
#[inline(always)]
fn part_of(bytes: &[u8], from: usize, size: usize) -> &[u8]
    requires { from + size ≤ length bytes.now }
    ensures { result.now ≡ take size (drop from bytes.now) }
{
    &bytes[from..from + size]
}

/// The word at a place that may stand behind another one. None exactly where none does.
fn word_behind<'a>(bytes: &'a [u8], at: usize, before: &[u8]) -> Option<&'a [u8]>
    ensures { MatchOption result ((word : List ℕ) (rest : List ℕ) → IsItemAt bytes_of IsNextWord bytes.now at before.now word rest → ⊥) (λ word. (rest : List ℕ) × IsItemAt bytes_of IsNextWord bytes.now at before.now word.now rest) }
{
    if at >= bytes.len() {
        return None;
    }
    let size = bytes[at] as usize;
    if bytes.len() - at <= size {
        return None;
    }
    if size == 0 {
        return None;
    }
    if size > MAX_WORD {
        return None;
    }
    let word = part_of(bytes, at + 1, size);
    if !is_text(word) {
        return None;
    }
    match before.cmp(word) {
        Ordering::Less => Some(word),
        _ => None,
    }
}

/// The place of the first word that may not stand behind the one before, of so many that stand there.
pub fn unordered_word(dictionary: &[u8], words: u32) -> Option<usize>
    requires none { words ≡ 0 → length dictionary.now ≡ 0 }
    ensures { MatchOption result ((list : List (List ℕ)) × AreOrderedIn words dictionary.now list) (λ place. IsBadWordIn words dictionary.now place) }
{
    let mut at = 0;
    let mut last = 0;
    let mut before: &[u8] = &[];
    'words: for _ in 0..words {
        match word_behind(dictionary, at, before) {
            Some(word) => {
                last = at;
                at = at + 1 + word.len();
                before = word;
            }
            None => return Some(at),
        }
    }
    if at != dictionary.len() {
        return Some(last);
    }
    None
}
