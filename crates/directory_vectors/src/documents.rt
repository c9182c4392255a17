//! What no session shows of documents, as a text, by the calls of the chunks that have them.
ghost use Rattle.std.specs.Prelude.{◌<◌, length};

use doc_types::{Chunk, Gap, Layer, Snapshot, ZoneSpan};
use image_chunk::AnyChunk;
use srch_base::Items;
use std::alloc::Global;
use std::collections::{BTreeMap, BTreeSet};

/// Appends how many sentences and how many paragraphs end in a row, where one does, and its spans.
fn put_parts(
    gaps: &[(u16, (u32, Gap))],
    spans: &[(u16, ZoneSpan)],
    into: &mut String,
) -> Option<()> {
    let (mut sentences, mut paragraphs) = (0u32, 0u32);
    for (_, (_, gap)) in gaps {
        match gap {
            Gap::Sentence => sentences = sentences.saturating_add(1),
            Gap::Paragraph => paragraphs = paragraphs.saturating_add(1),
            Gap::None => {}
        }
    }
    if !gaps.is_empty() {
        write!(into, " {sentences}. {paragraphs}¶").ok()?;
    }
    for (field, span) in spans {
        let (zone, first, last) = (span.zone, span.first, span.last);
        write!(into, " [{field} {zone} {first} {last}]").ok()?;
    }
    Some(())
}

/// Appends a row.
fn put_row<C: Chunk>(alloc: Global, chunk: &C, row: u32, into: &mut String) -> Option<()>
    requires { row < length (C.content chunk.now) }
{
    let (id, born) = (chunk.id(row), chunk.born(row));
    write!(into, "; {id} born {born}").ok()?;
    let mut gaps = Vec::new(alloc);
    chunk.gaps(row, &mut gaps).ok()?;
    let mut spans = Vec::new(alloc);
    chunk.spans(row, &mut spans).ok()?;
    put_parts(gaps.as_slice(), spans.as_slice(), into)
}

/// Whether a row of a layer lives.
fn lives(layer: &Layer<AnyChunk>, row: u32) -> bool {
    let dead: &Items<u32> = &layer.dead;
    !dead.as_slice().contains(&row)
}

/// Whether a row has a word.
fn has_word<C: Chunk>(chunk: &C, word: &[u8], row: u32) -> bool {
    match chunk.start(word) {
        Some(first) => {
            let mut cursor = first;
            chunk.seek(&mut cursor, row) == row
        }
        None => false,
    }
}

/// Adds the words of a row.
fn add_words<C: Chunk>(
    alloc: Global,
    chunk: &C,
    row: u32,
    words: &mut BTreeSet<String>,
) -> Option<()> {
    for number in 0..chunk.words() {
        let word = chunk.word_at(number);
        if has_word(chunk, word, row) {
            let mut text = String::new(alloc);
            text.push_str(str::from_utf8(word).ok()?).ok()?;
            words.insert(text).ok()?;
        }
    }
    Some(())
}

/// Whether the words of a chunk ascend, and some row has each.
fn are_words<C: Chunk>(chunk: &C) -> bool {
    for number in 0..chunk.words() {
        let word = chunk.word_at(number);
        if chunk.count(word) == 0 {
            return false;
        }
        if number > 0 && chunk.word_at(number - 1).cmp(word).is_ge() {
            return false;
        }
    }
    true
}

/// Adds the rows of a layer that live, each told by its id, and their words. Words that are none of a chunk end the telling.
fn add_layer(
    alloc: Global,
    layer: &Layer<AnyChunk>,
    rows: &mut BTreeMap<u64, String>,
    words: &mut BTreeSet<String>,
) -> Option<()> {
    let chunk: &AnyChunk = &layer.chunk;
    if !are_words(chunk) {
        return None;
    }
    for row in 0..chunk.rows() {
        if lives(layer, row) {
            let mut told = String::new(alloc);
            put_row(alloc, chunk, row, &mut told)?;
            rows.insert(chunk.id(row), told).ok()?;
            add_words(alloc, chunk, row, words)?;
        }
    }
    Some(())
}

/// Appends the documents of a snapshot by their ids, in whichever layers they are, and then their words.
pub(crate) fn put_snapshot(
    alloc: Global,
    snapshot: &Snapshot<AnyChunk>,
    into: &mut String,
) -> Option<()> {
    let mut rows = BTreeMap::new(alloc);
    let mut words = BTreeSet::new(alloc);
    for layer in snapshot.layers.as_slice() {
        add_layer(alloc, layer, &mut rows, &mut words)?;
    }
    for told in rows.values() {
        into.push_str(told).ok()?;
    }
    for word in words.iter() {
        into.push_str(" /").ok()?;
        into.push_str(word).ok()?;
    }
    Some(())
}
