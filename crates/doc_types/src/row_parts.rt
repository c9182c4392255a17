//! What a row has, read off its document and appended to a list. Where memory is refused the list is as before.
ghost use Rattle.std.specs.Prelude.{◌≡◌, ◌<◌, ◌≤◌, ◌+◌, ◌^◌, ◌++◌, if◌then◌else◌, length, map, take, OnOk, OnErr};
ghost use Rattle.std.specs.List.{list_any};
ghost use Rattle.doc_types.specs.Chunks.{by_field, fields_with, gaps_of, hits_of, is_word, last_position, positions_of, spans_of};
ghost use Rattle.doc_types.specs.declared.schema.TheConstants.{MAX_FIELDS};

use crate::documents::DocRow;
use crate::tokens::{FieldTokens, Gap, ZoneSpan};
use srch_base::NoMemory;

/// The places of a word in a row.
pub(crate) fn put_hits(
    row: &DocRow,
    word: &[u8],
    into: &mut Vec<(u16, u32)>,
) -> Result<(), NoMemory>
    requires { length row.now.doc.fields ≤ MAX_FIELDS }
    ensures ok { OnOk result (into.new.items ≡ into.old.items ++ hits_of word.now row.now) }
    ensures err { OnErr result (into.new.items ≡ into.old.items) }
{
    let before = into.len();
    for (number, field) in row.doc.fields.as_slice().iter().enumerate() {
        if put_field_hits(number as u16, field, word, into).is_err() {
            into.truncate(before);
            return Err(NoMemory);
        }
    }
    Ok(())
}

fn put_field_hits(
    number: u16,
    field: &FieldTokens,
    word: &[u8],
    into: &mut Vec<(u16, u32)>,
) -> Result<(), NoMemory>
    ensures ok { OnOk result (into.new.items ≡ into.old.items ++ map (λ x. (number, x)) (positions_of word.now field.now)) }
    ensures front { take (length into.old.items) into.new.items ≡ into.old.items }
{
    for token in field.words.as_slice() {
        if token.word.as_bytes() == word {
            into.push((number, token.position))?;
        }
    }
    Ok(())
}

/// The spans of a row.
pub(crate) fn put_spans(row: &DocRow, into: &mut Vec<(u16, ZoneSpan)>) -> Result<(), NoMemory>
    requires { length row.now.doc.fields ≤ MAX_FIELDS }
    ensures ok { OnOk result (into.new.items ≡ into.old.items ++ spans_of row.now) }
    ensures err { OnErr result (into.new.items ≡ into.old.items) }
{
    let before = into.len();
    for (number, field) in row.doc.fields.as_slice().iter().enumerate() {
        if put_field_spans(number as u16, field, into).is_err() {
            into.truncate(before);
            return Err(NoMemory);
        }
    }
    Ok(())
}

fn put_field_spans(
    number: u16,
    field: &FieldTokens,
    into: &mut Vec<(u16, ZoneSpan)>,
) -> Result<(), NoMemory>
    ensures ok { OnOk result (into.new.items ≡ into.old.items ++ map (λ x. (number, x)) field.now.spans) }
    ensures front { take (length into.old.items) into.new.items ≡ into.old.items }
{
    for span in field.spans.as_slice() {
        into.push((number, *span))?;
    }
    Ok(())
}

/// The boundaries of a row, where each word with one before it has a position above 0.
pub(crate) fn put_gaps(row: &DocRow, into: &mut Vec<(u16, (u32, Gap))>) -> Result<(), NoMemory>
    requires { length row.now.doc.fields ≤ MAX_FIELDS }
    ensures ok { OnOk result (into.new.items ≡ into.old.items ++ by_field gaps_of row.now) }
    ensures err { OnErr result (into.new.items ≡ into.old.items) }
{
    let before = into.len();
    for (number, field) in row.doc.fields.as_slice().iter().enumerate() {
        if put_field_gaps(number as u16, field, into).is_err() {
            into.truncate(before);
            return Err(NoMemory);
        }
    }
    Ok(())
}

fn put_field_gaps(
    number: u16,
    field: &FieldTokens,
    into: &mut Vec<(u16, (u32, Gap))>,
) -> Result<(), NoMemory>
    ensures ok { OnOk result (into.new.items ≡ into.old.items ++ map (λ x. (number, x)) (gaps_of field.now)) }
    ensures front { take (length into.old.items) into.new.items ≡ into.old.items }
{
    for token in field.words.as_slice() {
        if token.gap != Gap::None {
            into.push((number, (token.position.saturating_sub(1), token.gap)))?;
        }
    }
    Ok(())
}

/// The positions of the last words of a row's fields.
pub(crate) fn put_lasts(row: &DocRow, into: &mut Vec<u32>) -> Result<(), NoMemory>
    ensures ok { OnOk result (into.new.items ≡ into.old.items ++ map last_position row.now.doc.fields) }
    ensures err { OnErr result (into.new.items ≡ into.old.items) }
{
    let before = into.len();
    for field in row.doc.fields.as_slice() {
        if into.push(last_of(field)).is_err() {
            into.truncate(before);
            return Err(NoMemory);
        }
    }
    Ok(())
}

/// The position of the field's last word, or 0.
fn last_of(field: &FieldTokens) -> u32
    ensures { result ≡ last_position field.now }
{
    match field.words.as_slice().last() {
        Some(token) => token.position,
        None => 0,
    }
}

/// The fields in which a row has the word, as bits.
pub(crate) fn fields_with(row: &DocRow, word: &[u8]) -> u32
    requires { length row.now.doc.fields ≤ MAX_FIELDS }
    ensures { result ≡ fields_with word.now row.now }
{
    let mut bits = 0;
    for (number, field) in row.doc.fields.as_slice().iter().enumerate() {
        bits = with_bit(bits, number, has_word(field, word));
    }
    bits
}

/// The bits of the fields before this one, with its own where it is set.
fn with_bit(bits: u32, number: usize, is_set: bool) -> u32
    requires few { number < MAX_FIELDS }
    requires below { bits < 2 ^ number }
    ensures { result ≡ bits + (if is_set then 2 ^ number else 0) }
{
    if is_set { bits + (1 << number) } else { bits }
}

/// Whether the word stands in the field.
fn has_word(field: &FieldTokens, word: &[u8]) -> bool
    ensures { result ≡ list_any (is_word word.now) field.now.words }
{
    field
        .words
        .as_slice()
        .iter()
        .any(|token| token.word.as_bytes() == word)
}
