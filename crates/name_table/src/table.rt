//! A table of fixed words, looked up in either case.
//!
//! The words lie in the program's constants, in the order of their bytes and each once. So a word is found by
//! bisection, in about log2 N comparisons and without memory. That the words are in order is either proved where the
//! table is written out (`ordered`) or tested once at run time (`check`).
ghost use Rattle.std.specs.Prelude.{◌≡◌, ◌≤◌, ◌↔◌, IsTrue, Contains, MatchOption, length, map, slice_get};
ghost use Rattle.std.specs.Cmp.Lexicographic.{slice_cmp};
ghost use Rattle.std.specs.Ordering.{is_lt, nat_cmp};
ghost use Rattle.std.specs.Str.{str_to_ascii_lowercase};
ghost use Rattle.name_table.specs.Order.{IsInOrder, in_order};

use std::cmp::Ordering;
use std::marker::Model;

/// Fixed words, which `find` looks up. Contracts see a table as the list of its words, each a list of bytes.
///
/// A table is made where it is used, by a function that returns it and says what it holds: that costs nothing, since
/// the words lie in the program's constants.
#[derive(Drop)]
pub struct NameTable<const N: usize> {
    words: &'static [&'static str],
}

impl<const N: usize> Model for NameTable<N> {
    ghost use Rattle.std.specs.Prelude.{◌≡◌, ℕ, List, length, map};

    ghost Value = { List (List ℕ) };

    ghost view = { λ table. map (λ word. word.now) table.words.now };

    ghost invariant = { λ table. length table.words.now ≡ N };
}

impl<const N: usize> NameTable<N> {
    /// The table of these words, in any order; `check` says whether `find` may look them up.
    pub fn new(words: &'static [&'static str]) -> Self
        requires { length words.now ≡ N }
        ensures { result ≡ map (λ word. word.now) words.now }
    {
        NameTable { words }
    }

    /// The table of words that stand in the order of their bytes, each once.
    ///
    /// At words that are written out the condition is computed once, by the check of the function that makes the table.
    pub fn ordered(words: &'static [&'static str]) -> Self
        requires count { length words.now ≡ N }
        requires sorted { IsTrue (in_order (map (λ word. word.now) words.now)) }
        ensures words { result ≡ map (λ word. word.now) words.now }
        ensures order { IsInOrder result }
    {
        NameTable { words }
    }

    /// Whether the words stand in the order of their bytes, each once. It looks at each word and the next.
    pub fn check(&self) -> bool
        ensures { IsTrue result ↔ IsInOrder self.now }
    {
        self.words.is_sorted_by(|word, next| precedes(word, next))
    }

    /// The place of a word, with its ASCII capitals made small. The first place is 0.
    ///
    /// It takes about log2 N comparisons and no memory.
    pub fn find(&self, word: &[u8]) -> Option<u16>
        requires order { IsInOrder self.now }
        requires places { N ≤ 65536 }
        ensures { let small = str_to_ascii_lowercase word.now in
            MatchOption result (¬ (Contains self.now small)) (λ place. slice_get self.now place ≡ Some small) }
    {
        match self.words.binary_search_by(|entry| order(entry, word)) {
            Ok(place) => Some(place as u16),
            Err(_) => None,
        }
    }
}

/// Whether a word stands before another by their bytes.
fn precedes(word: &str, next: &str) -> bool
    ensures { result ≡ is_lt (slice_cmp nat_cmp word.now next.now) }
{
    word.cmp(next).is_lt()
}

/// How a word of a table compares with a word whose ASCII capitals are made small.
fn order(entry: &str, word: &[u8]) -> Ordering
    ensures { result ≡ slice_cmp nat_cmp entry.now (str_to_ascii_lowercase word.now) }
{
    entry
        .bytes()
        .cmp(word.iter().map(|byte| byte.to_ascii_lowercase()))
}
