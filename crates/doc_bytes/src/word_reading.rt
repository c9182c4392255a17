//! Words of fields, read from a payload: for each its boundary, its length and its bytes, as far as one may stand there.
ghost use Rattle.std.specs.Prelude.{◌≡◌};
ghost use Rattle.std.specs.Str.{is_utf8};
ghost use Rattle.byte_fields.specs.Fields.{Gives, each};
ghost use Rattle.doc_bytes.specs.Reading.{field_at, gap_at, is_word_size, may_stand, text_at, word_at, words_at};

use byte_fields::{byte_of, piece_of, u32_of};
use doc_types::{Gap, MAX_POSITION, MAX_WORD_BYTES, TokenWord};
use srch_base::{Items, Or, Word};
use std::alloc::Global;
use std::str;

/// The fewest bytes that a word takes: its boundary, its length and one byte of its own.
const LEAST_WORD: usize = 3;

/// The words of so many fields.
pub(crate) fn fields_of(
    alloc: Global,
    count: usize,
    bytes: &[u8],
) -> Result<(Vec<Items<TokenWord>>, &[u8]), Or<usize>>
    ensures { Gives (λ x. (x.0.items, x.1.now)) result (each field_at count bytes.now) }
{
    let mut fields = Vec::new(alloc);
    let mut rest = bytes;
    for _ in 0..count {
        let (words, after) = field_of(alloc, rest)?;
        fields.push(words)?;
        rest = after;
    }
    Ok((fields, rest))
}

/// The words of a field, behind their number.
#[tactic(auto, unfolding(crate::specs::Reading::field_at))]
fn field_of(alloc: Global, bytes: &[u8]) -> Result<(Items<TokenWord>, &[u8]), Or<usize>>
    ensures { Gives (λ x. (x.0, x.1.now)) result (field_at bytes.now) }
{
    let (count, rest) = u32_of(bytes)?;
    let (words, rest) = words_of(alloc, count, rest)?;
    Ok((Items::new(words), rest))
}

/// So many words. Room is taken once, and never for more words than the bytes can hold.
fn words_of(alloc: Global, count: u32, bytes: &[u8]) -> Result<(Vec<TokenWord>, &[u8]), Or<usize>>
    ensures { Gives (λ x. (x.0.items, x.1.now)) result (words_at count bytes.now) }
{
    let room = (count as usize).min(bytes.len() / LEAST_WORD);
    let mut words = Vec::with_capacity(alloc, room)?;
    let mut before = 0;
    let mut rest = bytes;
    for _ in 0..count {
        let (word, after) = word_of(alloc, before, rest)?;
        before = word.position;
        words.push(word)?;
        rest = after;
    }
    Ok((words, rest))
}

/// The word behind a position, 0 before the first one.
#[tactic(auto, unfolding(crate::specs::Reading::word_at))]
fn word_of(alloc: Global, before: u32, bytes: &[u8]) -> Result<(TokenWord, &[u8]), Or<usize>>
    ensures { Gives (λ x. (x.0, x.1.now)) result (word_at before bytes.now) }
{
    let (gap, rest) = gap_of(bytes)?;
    if !may_come(before, gap) {
        return Err(Or::Fault(bytes.len()));
    }
    let (word, rest) = text_of(alloc, rest)?;
    let position = before.saturating_add(gap.step());
    Ok((
        TokenWord {
            word,
            position,
            gap,
        },
        rest,
    ))
}

/// The boundary before a word.
fn gap_of(bytes: &[u8]) -> Result<(Gap, &[u8]), Or<usize>>
    ensures { Gives (λ x. (x.0, x.1.now)) result (gap_at bytes.now) }
{
    match bytes {
        [] => Err(Or::Fault(0)),
        [0, rest @ ..] => Ok((Gap::None, rest)),
        [1, rest @ ..] => Ok((Gap::Sentence, rest)),
        [2, rest @ ..] => Ok((Gap::Paragraph, rest)),
        [_, ..] => Err(Or::Fault(bytes.len())),
    }
}

/// Whether a word with this boundary may stand behind a position: not above the greatest, and without one at a field's start.
fn may_come(before: u32, gap: Gap) -> bool
    ensures { result ≡ may_stand before gap }
{
    let step = gap.step();
    before.saturating_add(step) <= MAX_POSITION && (step == 1 || before > 0)
}

/// A word's length and its bytes, which are copied.
#[tactic(auto, unfolding(crate::specs::Reading::text_at))]
fn text_of(alloc: Global, bytes: &[u8]) -> Result<(Word, &[u8]), Or<usize>>
    ensures { Gives (λ x. (x.0, x.1.now)) result (text_at bytes.now) }
{
    let (size, rest) = byte_of(bytes)?;
    let size = usize::from(size);
    if !is_size(size) {
        return Err(Or::Fault(bytes.len()));
    }
    let (text, after) = piece_of(rest, size)?;
    if !is_text(text) {
        return Err(Or::Fault(rest.len()));
    }
    Ok((Word::from_slice(alloc, text)?, after))
}

/// Whether a word may have so many bytes.
fn is_size(size: usize) -> bool
    ensures { result ≡ is_word_size size }
{
    size > 0 && size <= MAX_WORD_BYTES
}

/// Whether the bytes are UTF-8. Most words have ASCII letters alone, which is seen sooner.
fn is_text(text: &[u8]) -> bool
    ensures { result ≡ is_utf8 text.now }
{
    text.is_ascii() || str::from_utf8(text).is_ok()
}
