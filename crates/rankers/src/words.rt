//! How many distinct words the hits of a field have: a table tells of each number that a word may have whether it was met. For a few
//! hits that isn't worth its clearing, and each is looked for among those before it.
ghost use Rattle.std.specs.Prelude.{◌≡◌, ℕ, ◌<◌, ◌==◌, ◌&&◌, length, All, false};
ghost use Rattle.std.specs.List.{list_any};
ghost use Rattle.rankers.specs.Weight.{in_field, word_count};

use doc_types::Hit;

/// So many hits at most are few.
const FEW_HITS: usize = 8;

/// How many words a short query can have.
const FEW: usize = 256;

/// How many numbers a word can have.
const WORDS: usize = 65_536;

/// How many distinct words the hits of the field have.
pub(crate) fn distinct_words(hits: &[Hit], field: u16) -> u64
    ensures { result ≡ word_count (in_field field hits.now) }
{
    if hits.len() <= FEW_HITS {
        return distinct_of_few(hits, field);
    }
    if hits.iter().all(|hit| usize::from(hit.word) < FEW) {
        distinct_few(hits, field)
    } else {
        distinct_any(hits, field)
    }
}

/// The same for a few hits.
fn distinct_of_few(hits: &[Hit], field: u16) -> u64
    ensures { result ≡ word_count (in_field field hits.now) }
{
    let mut count = 0;
    for (place, hit) in hits.iter().enumerate() {
        if hit.field == field && !has_word(&hits[..place], field, hit.word) {
            count += 1;
        }
    }
    count
}

/// Whether one of the hits is of the field and of the word.
fn has_word(hits: &[Hit], field: u16, word: u16) -> bool
    ensures { result ≡ list_any (λ hit. (hit.field == field) && (hit.word == word)) hits.now }
{
    hits.iter()
        .any(|hit| hit.field == field && hit.word == word)
}

/// The same where the query has few words.
fn distinct_few(hits: &[Hit], field: u16) -> u64
    requires { All (λ hit. hit.word < FEW) hits.now }
    ensures { result ≡ word_count (in_field field hits.now) }
{
    let mut met = [false; FEW];
    distinct_by(hits, field, &mut met)
}

/// The same for all queries.
fn distinct_any(hits: &[Hit], field: u16) -> u64
    ensures { result ≡ word_count (in_field field hits.now) }
{
    let mut met = [false; WORDS];
    distinct_by(hits, field, &mut met)
}

/// The same by a table of all words, none of which was met at first.
fn distinct_by(hits: &[Hit], field: u16, met: &mut [bool]) -> u64
    requires room { All (λ hit. hit.word < WORDS → hit.word < length met.old) hits.now }
    requires none { All (λ word. word ≡ false) met.old }
    ensures { result ≡ word_count (in_field field hits.now) }
{
    let mut count = 0;
    for hit in hits {
        let word = usize::from(hit.word);
        if hit.field == field && !met[word] {
            met[word] = true;
            count += 1;
        }
    }
    count
}
