//! What chunks of each kind answer over the documents of the tables, and that a cursor leaps.
ghost use Rattle.std.specs.Prelude.{◌<◌};

use crate::commits::{OF_DOCUMENTS, OF_EACH_KIND, OF_HELLO_WORLD, transactions_take};
use crate::documents::rows_of;
use crate::images::{OF_NONE, OF_ONE, OF_TWO, is_image};
use crate::outcomes::wrong_commit;
use crate::snapshots::a_snapshot_counts;
use crate::tables::{
    ANSWERS, AT_LAST_FIELD, AT_LAST_POSITION, DOCUMENTS, HELLO_WORLD, IN_TWO_FIELDS, LAST_FIELD,
    LAST_POSITION, LONG_WORDS, NOTHING, SHE_LEFT, TWO_FIELDS,
};
use crate::telling::answers;
use doc_types::{Chunk, NO_ROW, PlainChunk};
use image_chunk::RamChunk;
use std::alloc::Global;
use std::test::Fail;

/// None where a plain chunk of a table's documents answers otherwise.
fn plain_answers(
    alloc: Global,
    documents: &str,
    fields: usize,
    attrs: u16,
    wanted: &str,
    said: &mut String,
) -> Option<()> {
    let rows = rows_of(alloc, documents, fields, attrs)?;
    let chunk = PlainChunk::build(alloc, rows).ok()?;
    answers(alloc, &chunk, attrs, wanted, said)
}

/// None where their image does, or where that of no document hasn't 32 bytes.
fn image_answers(
    alloc: Global,
    documents: &str,
    fields: usize,
    attrs: u16,
    wanted: &str,
    said: &mut String,
) -> Option<()> {
    let rows = rows_of(alloc, documents, fields, attrs)?;
    let image = RamChunk::build(alloc, rows).ok()?;
    if image.rows() == 0 && image.as_bytes().len() != 32 {
        return None;
    }
    answers(alloc, &image, attrs, wanted, said)
}

/// None where chunks over a table's documents answer otherwise; then the first line that is wrong is said.
fn all_answer(alloc: Global, said: &mut String) -> Option<()> {
    plain_answers(alloc, DOCUMENTS, 3, 2, ANSWERS, said)?;
    image_answers(alloc, DOCUMENTS, 3, 2, ANSWERS, said)?;
    plain_answers(alloc, "", 3, 2, NOTHING, said)?;
    image_answers(alloc, "", 3, 2, NOTHING, said)?;
    image_answers(alloc, LAST_POSITION, 32, 0, AT_LAST_POSITION, said)?;
    image_answers(alloc, LAST_FIELD, 32, 0, AT_LAST_FIELD, said)?;
    image_answers(alloc, TWO_FIELDS, 32, 0, IN_TWO_FIELDS, said)
}

/// None where another number of rows has a word than so many, or a cursor doesn't come to the next row of each so many from each row.
fn leaps(chunk: &RamChunk, word: &[u8], step: u32, count: u32) -> Option<()>
    requires { 0 < step }
{
    if chunk.count(word) != count {
        return None;
    }
    for row in 0..chunk.rows() {
        let mut cursor = chunk.start(word)?;
        let found = chunk.seek(&mut cursor, row);
        let has = found < chunk.rows() && found % step == 0 && found >= row && found - row < step;
        if !has && (found != NO_ROW || chunk.rows() - row > step) {
            return None;
        }
    }
    Some(())
}

/// Many documents: `a` stands in each, and `b` in each third one from the first on.
fn many(alloc: Global) -> Option<String> {
    let mut documents = String::new(alloc);
    for id in 0..500u32 {
        let text = if id % 3 == 0 { "a b" } else { "a" };
        write!(documents, "{id} 1 html 0 0|{text}||\n").ok()?;
    }
    Some(documents)
}

/// None where a cursor over their image misses a row.
fn many_leap(alloc: Global) -> Option<()> {
    let documents = many(alloc)?;
    let rows = rows_of(alloc, documents.as_str(), 3, 2)?;
    let image = RamChunk::build(alloc, rows).ok()?;
    (leaps(&image, b"a", 1, 500).is_some() && leaps(&image, b"b", 3, 167).is_some()).then_some(())
}

/// None where something is answered, counted, written or committed otherwise; then what it is is said.
fn all_are_right(alloc: Global, said: &mut String) -> Option<()> {
    all_answer(alloc, said)?;
    said.push_str("a cursor that leaps").ok()?;
    many_leap(alloc)?;
    said.push_str(", the counts of a snapshot").ok()?;
    a_snapshot_counts(alloc)?;
    said.push_str(", the bytes of an image").ok()?;
    is_image(alloc, "", OF_NONE)?;
    is_image(alloc, HELLO_WORLD, OF_ONE)?;
    is_image(alloc, LONG_WORDS, OF_TWO)?;
    said.push_str(", the bytes of a transaction: ").ok()?;
    transactions_take(alloc, DOCUMENTS, 3, 2, OF_DOCUMENTS, said)?;
    transactions_take(alloc, HELLO_WORLD, 1, 0, OF_HELLO_WORLD, said)?;
    transactions_take(alloc, SHE_LEFT, 3, 2, OF_EACH_KIND, said)?;
    match wrong_commit(alloc, said) {
        Some(line) => {
            said.push_str(" ⇐ ").ok()?;
            said.push_str(line).ok()?;
            None
        }
        None => Some(()),
    }
}

#[test]
fn documents_are_answered_written_and_committed(rt: HostRuntime) -> Result<(), Fail> {
    let mut said = String::new(rt.alloc());
    match all_are_right(rt.alloc(), &mut said) {
        Some(()) => Ok(()),
        None => Err(Fail::new(format_args!("{said}"))),
    }
}
