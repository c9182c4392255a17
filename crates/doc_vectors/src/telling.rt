//! What any chunk answers, as lines of text: of itself, of each row and of each word.
ghost use Rattle.std.specs.Prelude.{◌≡◌, ◌<◌, All, IsSome, length};
ghost use Rattle.doc_types.specs.Chunks.{next_row};
ghost use Rattle.doc_vectors.specs.steps.Columns.{HasValues};

use doc_types::{Chunk, Cursor, Gap, HitLists, NO_ROW, Value, ZoneSpan};
use srch_base::Steps;
use std::alloc::Global;
use std::marker::Brand;
use std::sync::ledger::{Blank, Ledger};

/// Ids of which some are there.
const IDS: [u64; 9] = [
    0,
    1,
    4,
    7,
    10,
    999,
    1001,
    18_446_744_073_709_551_614,
    18_446_744_073_709_551_615,
];

/// Words of which one may be there: no word, one beside a word that is there, in other letters, and one after all others.
const WORDS: [&str; 8] = ["", "aa", "hell", "hello", "hello ", "World", "п", "я"];

/// None where a text has other lines than are wanted; then the first of them that is wrong is said.
fn compare(told: &str, wanted: &str, said: &mut String) -> Option<()> {
    let mut lines = wanted.lines();
    for line in told.lines() {
        if lines.next() != Some(line) {
            said.push_str(line).ok()?;
            return None;
        }
    }
    lines.next().is_none().then_some(())
}

/// Appends a form with the next of some numbers in the place of each `#`.
fn put_form(form: &str, numbers: &[u64], into: &mut String) -> Option<()> {
    let mut numbers = numbers.iter();
    for part in form.split_inclusive('#') {
        match part.strip_suffix('#') {
            Some(before) => {
                let number = numbers.next()?;
                write!(into, "{before}{number}").ok()?;
            }
            None => into.push_str(part).ok()?,
        }
    }
    Some(())
}

/// Appends how many rows have a word, where one has it.
fn put_count<C: Chunk>(chunk: &C, word: &str, into: &mut String) -> Option<()> {
    let count = chunk.count(word.as_bytes());
    if count == 0 && chunk.start(word.as_bytes()).is_none() {
        return Some(());
    }
    write!(into, ", {word} {count}").ok()
}

/// Appends how many rows, fields and words a chunk has, and which of the ids and the words above.
fn put_head<C: Chunk>(chunk: &C, into: &mut String) -> Option<()> {
    let counts = [
        u64::from(chunk.rows()),
        u64::from(chunk.fields()),
        u64::from(chunk.words()),
    ];
    put_form("# rows, # fields, # words", &counts, into)?;
    for id in IDS {
        if let Some(row) = chunk.find(id) {
            put_form(", # at #", &[id, u64::from(row)], into)?;
        }
    }
    for word in WORDS {
        put_count(chunk, word, into)?;
    }
    into.push('\n').ok()
}

/// Appends the last positions of a row's fields.
fn put_lasts(lasts: &[u32], into: &mut String) -> Option<()> {
    into.push_str(", last").ok()?;
    for last in lasts {
        put_form(" #", &[u64::from(*last)], into)?;
    }
    Some(())
}

/// Appends the boundaries of a row's fields.
fn put_gaps(gaps: &[(u16, (u32, Gap))], into: &mut String) -> Option<()> {
    into.push_str(", gaps").ok()?;
    for (field, (position, gap)) in gaps {
        let form = match gap {
            Gap::None => " #.#",
            Gap::Sentence => " #.#s",
            Gap::Paragraph => " #.#p",
        };
        put_form(form, &[u64::from(*field), u64::from(*position)], into)?;
    }
    Some(())
}

/// Appends the spans of a row's fields.
fn put_spans(spans: &[(u16, ZoneSpan)], into: &mut String) -> Option<()> {
    into.push_str(", spans").ok()?;
    for (field, span) in spans {
        let numbers = [
            u64::from(*field),
            u64::from(span.first),
            u64::from(span.last),
            u64::from(span.zone),
        ];
        put_form(" #.#-#:#", &numbers, into)?;
    }
    Some(())
}

/// Appends what the chunk answers of a row of so many values.
fn put_row<C: Chunk>(
    alloc: Global,
    chunk: &C,
    row: u32,
    attrs: u16,
    into: &mut String,
) -> Option<()>
    requires row { row < length (C.content chunk.now) }
    requires values { All (HasValues attrs) (C.content chunk.now) }
{
    let (id, born) = (chunk.id(row), chunk.born(row));
    let number = u64::from(chunk.find(id)?);
    put_form("#: # by #:", &[number, id, born], into)?;
    for attr in 0..attrs {
        let Value::Whole(value) = chunk.value(row, attr);
        write!(into, " {value}").ok()?;
    }
    put_parts(alloc, chunk, row, into)
}

/// Appends the last positions, the boundaries and the spans of a row's fields.
fn put_parts<C: Chunk>(alloc: Global, chunk: &C, row: u32, into: &mut String) -> Option<()>
    requires { row < length (C.content chunk.now) }
{
    let mut lasts = Vec::new(alloc);
    let mut gaps = Vec::new(alloc);
    let mut spans = Vec::new(alloc);
    let told = chunk.lasts(row, &mut lasts).is_ok()
        && chunk.gaps(row, &mut gaps).is_ok()
        && chunk.spans(row, &mut spans).is_ok()
        && put_lasts(lasts.as_slice(), into).is_some()
        && put_gaps(gaps.as_slice(), into).is_some()
        && put_spans(spans.as_slice(), into).is_some()
        && into.push('\n').is_ok();
    told.then_some(())
}

/// Appends places of a word, or how many there are, and the last of them, where they are many.
fn put_places(places: &[(u16, u32)], into: &mut String) -> Option<()> {
    if places.len() > 20 {
        let (field, position) = *places.last()?;
        let numbers = [places.len() as u64, u64::from(field), u64::from(position)];
        return put_form(" # places up to #.#", &numbers, into);
    }
    for (field, position) in places {
        put_form(" #.#", &[u64::from(*field), u64::from(*position)], into)?;
    }
    Some(())
}

/// Appends the row to which a cursor has come, with the fields that have the word as bits, and its places there.
fn put_hits<L: Ledger, C: HitLists>(
    alloc: Global,
    chunk: &C,
    cursor: &Cursor,
    row: u32,
    steps: &mut Steps<L>,
    into: &mut String,
) -> Option<()>
    requires belongs { C.belongs chunk.now cursor.now }
    requires left { IsSome (next_row (C.place chunk.now cursor.now)) }
{
    let fields = chunk.fields_at(cursor, steps);
    put_form(" #/#:", &[u64::from(row), u64::from(fields)], into)?;
    let mut places = Vec::new(alloc);
    let told = chunk.open(cursor, &mut places, steps).is_ok()
        && put_places(places.as_slice(), into).is_some();
    told.then_some(())
}

/// Appends what the chunk answers of a word: how many rows have it, these rows, and a row from which on another one is found by
/// passing over those below it than by going over them one by one.
fn put_word<L: Ledger, C: HitLists>(
    alloc: Global,
    chunk: &C,
    word: &[u8],
    steps: &mut Steps<L>,
    into: &mut String,
) -> Option<()> {
    let text = str::from_utf8(word).ok()?;
    let count = chunk.count(word);
    write!(into, "{text} {count}:").ok()?;
    let mut cursor = chunk.start(word)?;
    // More turns than there are rows, so that some come after the last row that has the word.
    'rows: for _ in 0..20 {
        if let Some(row) = chunk.row(&cursor) {
            put_hits(alloc, chunk, &cursor, row, steps, into)?;
        }
        chunk.advance(&mut cursor);
    }
    if let Some(from) = other_seek(chunk, word) {
        write!(into, " another row from {from}").ok()?;
    }
    into.push('\n').ok()
}

/// The first row from which on another one is found by passing over those below it than by going over them one by one.
fn other_seek<C: Chunk>(chunk: &C, word: &[u8]) -> Option<u32> {
    let mut going = chunk.start(word)?;
    'rows: for from in 0..12 {
        let mut passing = chunk.start(word)?;
        let found = chunk.seek(&mut passing, from);
        // The row before is the only one below this one that can be left.
        if chunk.row(&going).unwrap_or(NO_ROW) < from {
            chunk.advance(&mut going);
        }
        let next = chunk.row(&going).unwrap_or(NO_ROW);
        if found != next || passing.next_row() != going.next_row() {
            return Some(from);
        }
    }
    None
}

/// Appends what the chunk answers of each word.
fn put_words<L: Ledger, C: HitLists>(
    alloc: Global,
    chunk: &C,
    blank: Blank,
    into: &mut String,
) -> Option<()>
    requires name { blank.name ≡ L.name }
    requires parts { blank.parts ≡ L.parts }
    requires some { 0 < blank.parts }
{
    let mut steps = Steps::<L>::new(blank);
    for at in 0..chunk.words() {
        put_word(alloc, chunk, chunk.word_at(at), &mut steps, into)?;
    }
    Some(())
}

/// Appends what a chunk answers whose rows have so many values: of itself, of each row and of each word.
fn put_answers<C: HitLists>(alloc: Global, chunk: &C, attrs: u16, into: &mut String) -> Option<()>
    requires { All (HasValues attrs) (C.content chunk.now) }
{
    put_head(chunk, into)?;
    for row in 0..chunk.rows() {
        put_row(alloc, chunk, row, attrs, into)?;
    }
    put_words::<Brand, C>(alloc, chunk, Blank::new(1), into)
}

/// None where a chunk whose rows have so many values answers otherwise; then the first line that is wrong is said.
pub(crate) fn answers<C: HitLists>(
    alloc: Global,
    chunk: &C,
    attrs: u16,
    wanted: &str,
    said: &mut String,
) -> Option<()>
    requires { All (HasValues attrs) (C.content chunk.now) }
{
    let mut told = String::new(alloc);
    put_answers(alloc, chunk, attrs, &mut told)?;
    compare(told.as_str(), wanted, said)
}
