//! The words of all parts, merged: each part stands at one of its words, and the least of these is the next word of all.
ghost use Rattle.std.specs.Prelude.{◌≡◌, length};
ghost use Rattle.std.specs.List.{list_any};
ghost use Rattle.std.specs.Option.{option_map};
ghost use Rattle.prefix_terms.specs.steps.Merging.{ArePassed, IsLeastWord, lesser, lives_in};

use crate::parts::Part;
use doc_types::Chunk;

/// The least of the words at which the parts stand, if one is left.
pub(crate) fn least_word<'p, C: Chunk>(parts: &'p [Part<C>], numbers: &[u32]) -> Option<&'p [u8]>
    requires { length numbers.now ≡ length parts.now }
    ensures { IsLeastWord parts.now numbers.now (length parts.now) (option_map (λ word. word.now) result) }
{
    let mut least = None;
    for (at, part) in parts.iter().enumerate() {
        least = lesser(least, part.word(numbers[at]));
    }
    least
}

/// The lesser of two words, where they are there.
fn lesser<'p>(least: Option<&'p [u8]>, other: Option<&'p [u8]>) -> Option<&'p [u8]>
    ensures { option_map (λ word. word.now) result ≡ lesser (option_map (λ word. word.now) least.entry) (option_map (λ word. word.now) other.entry) }
{
    match (least, other) {
        (Some(first), Some(second)) => {
            if second.cmp(first).is_lt() {
                other
            } else {
                least
            }
        }
        (Some(_), None) => least,
        (None, _) => other,
    }
}

/// Goes over the word in each part that stands at it.
pub(crate) fn pass<C: Chunk>(parts: &[Part<C>], word: &[u8], numbers: &mut [u32])
    requires { length numbers.old ≡ length parts.now }
    ensures long { length numbers.new ≡ length numbers.old }
    ensures passed { ArePassed word.now parts.now numbers.old numbers.new (length parts.now) }
{
    for (at, part) in parts.iter().enumerate() {
        let next = part.behind(numbers[at], word);
        numbers[at] = next;
    }
}

/// Whether a row of a part that lives has the word.
pub(crate) fn is_living<C: Chunk>(parts: &[Part<C>], word: &[u8]) -> bool
    ensures { result ≡ list_any (lives_in word.now) parts.now }
{
    parts.iter().any(|part| part.is_living(word))
}
