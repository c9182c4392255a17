//! The words of some documents, each at its places: every occurrence of a word, sorted by the words.
//!
//! An occurrence takes 16 bytes, and tells its word by that word's head and the place where it stands; nothing is copied. A document
//! is read once, in its order: behind that its words are looked up only where their heads don't tell them, since to go back to them
//! in the order of the words means to wait for memory at each. The sort is stable, so that the places of one word stay in the order
//! of rows, fields and positions, in which they are met.
ghost use Rattle.std.specs.Prelude.{◌≡◌, ◌<◌, ◌/◌, ◌%◌, ◌^◌, ◌++◌, ℕ, List, All, OnOk, IfOk, length, map};
ghost use Rattle.std.specs.Option.{option_copied};
ghost use Rattle.std.specs.Ordering.{nat_cmp};
ghost use Rattle.std.specs.Str.{bytes_eq};
ghost use Rattle.std.specs.Cmp.Lexicographic.{slice_cmp};
ghost use Rattle.doc_types.specs.declared.documents.Doc.{Doc as AnyDoc};
ghost use Rattle.image_write.specs.Heads.{IsRead};
ghost use Rattle.image_write.specs.steps.Places.{AreFew, AreInOrder, HasFewWords, HasHead, doc_places, docs_places, field_places, order, token_at, word_at};

use crate::heads::{head_of, tells};
use crate::lending::LendsDoc;
use doc_types::{Doc, FieldTokens, TokenWord};
use srch_base::NoMemory;
use std::alloc::Global;
use std::cmp::Ordering;

/// Where a word stands in some documents.
#[derive(Clone, Copy)]
pub(crate) struct Occurrence {
    /// The word's head: its first bytes, as a number.
    pub(crate) head: u64,
    /// Its document and its field there, as one number: a document has 32 of them.
    pub(crate) stand: u32,
    /// Which of the field's words it is, from 0.
    pub(crate) token: u16,
    /// Its position in the field.
    pub(crate) position: u16,
}

/// The most fields that a document has.
const FIELDS: u32 = 32;

/// The most documents whose occurrences are told. An image of more would be longer than any may be.
const MOST_DOCS: usize = 1 << 27;

impl Occurrence {
    /// The number of its document.
    #[inline]
    pub(crate) fn row(&self) -> u32
        ensures { result ≡ self.now.stand / 32 }
    {
        self.stand / FIELDS
    }

    /// The number of its field there.
    #[inline]
    pub(crate) fn field(&self) -> u16
        ensures { result ≡ self.now.stand % 32 }
    {
        (self.stand % FIELDS) as u16
    }
}

/// All occurrences of words in some documents, by their words.
pub(crate) fn gather<R: LendsDoc>(alloc: Global, rows: &[R]) -> Result<Vec<Occurrence>, NoMemory>
    requires { All AreFew (map R.lent rows.now) }
    ensures { IfOk result (λ places. AreInOrder (map R.lent rows.now) places.items) }
{
    if rows.len() >= MOST_DOCS {
        return Err(NoMemory);
    }
    let mut places = Vec::with_capacity(alloc, room_for(rows))?;
    add_rows(rows, &mut places)?;
    places.sort_by(|a, b| order_of(rows, a, b))?;
    Ok(places)
}

/// How many words stand in some documents, so that their occurrences take no more room than they need.
fn room_for<R: LendsDoc>(rows: &[R]) -> usize {
    let mut count: usize = 0;
    for row in rows {
        for tokens in row.doc().fields.as_slice() {
            count = count.saturating_add(tokens.words.len());
        }
    }
    count
}

fn add_rows<R: LendsDoc>(rows: &[R], places: &mut Vec<Occurrence>) -> Result<(), NoMemory>
    requires few { length rows.now < 2 ^ 27 }
    requires fields { All AreFew (map R.lent rows.now) }
    ensures places { OnOk result (places.new.items ≡ places.old.items ++ docs_places 0 (map R.lent rows.now)) }
    ensures bytes { OnOk result (All (λ doc. All (λ tokens. All (λ token. IsRead token.word) tokens.words) doc.fields) (map R.lent rows.now)) }
{
    for (number, row) in rows.iter().enumerate() {
        add_doc(number as u32, row.doc(), places)?;
    }
    Ok(())
}

fn add_doc(row: u32, doc: &Doc, places: &mut Vec<Occurrence>) -> Result<(), NoMemory>
    requires row { row < 2 ^ 27 }
    requires few { AreFew doc.now }
    ensures places { OnOk result (places.new.items ≡ places.old.items ++ doc_places row 0 doc.now.fields) }
    ensures bytes { OnOk result (All (λ tokens. All (λ token. IsRead token.word) tokens.words) doc.now.fields) }
{
    for (field, tokens) in doc.fields.as_slice().iter().enumerate() {
        add_field(row, field as u16, tokens, places)?;
    }
    Ok(())
}

fn add_field(
    row: u32,
    field: u16,
    tokens: &FieldTokens,
    places: &mut Vec<Occurrence>,
) -> Result<(), NoMemory>
    requires row { row < 2 ^ 27 }
    requires field { field < 32 }
    requires few { HasFewWords tokens.now }
    ensures places { OnOk result (places.new.items ≡ places.old.items ++ field_places row field 0 tokens.now.words) }
    ensures bytes { OnOk result (All (λ token. IsRead token.word) tokens.now.words) }
{
    for (number, token) in tokens.words.as_slice().iter().enumerate() {
        places.push(Occurrence {
            head: head_of(token.word.as_bytes()),
            stand: row * FIELDS + u32::from(field),
            token: number as u16,
            position: token.position as u16,
        })?;
    }
    Ok(())
}

/// How two occurrences stand to one another by their words, which are looked up where their heads are equal and don't tell them.
#[inline]
#[tactic(auto, using(crate::proofs::Ordered::order_told, crate::proofs::Ordered::order_seen))]
fn order_of<R: LendsDoc>(rows: &[R], a: &Occurrence, b: &Occurrence) -> Ordering
    ensures { result ≡ order (map R.lent rows.now) a.now b.now }
{
    match a.head.cmp(&b.head) {
        Ordering::Equal => {
            if tells(a.head) {
                Ordering::Equal
            } else {
                words_order(rows, a, b)
            }
        }
        other => other,
    }
}

/// Whether two occurrences are of one word.
#[inline]
#[tactic(auto, using(crate::proofs::Ordered::one_word))]
pub(crate) fn are_of_one<R: LendsDoc>(rows: &[R], a: &Occurrence, b: &Occurrence) -> bool
    requires a { HasHead (map R.lent rows.now) a.now }
    requires b { HasHead (map R.lent rows.now) b.now }
    ensures { result ≡ bytes_eq (word_at (map R.lent rows.now) a.now) (word_at (map R.lent rows.now) b.now) }
{
    order_of(rows, a, b).is_eq()
}

/// The order of two occurrences by the words themselves. Out of line, so that the sort's own loops stay small.
#[inline(never)]
fn words_order<R: LendsDoc>(rows: &[R], a: &Occurrence, b: &Occurrence) -> Ordering
    ensures { result ≡ slice_cmp nat_cmp (word_at (map R.lent rows.now) a.now) (word_at (map R.lent rows.now) b.now) }
{
    word_of(rows, a).cmp(word_of(rows, b))
}

/// The word of an occurrence.
#[inline]
#[tactic(auto, unfolding(crate::specs::steps::Places::word_at))]
pub(crate) fn word_of<'a, R: LendsDoc>(rows: &'a [R], place: &Occurrence) -> &'a [u8]
    ensures { result.now ≡ word_at (map R.lent rows.now) place.now }
{
    match token_of(rows, place) {
        Some(token) => token.word.as_bytes(),
        None => &[],
    }
}

#[inline]
fn token_of<'a, R: LendsDoc>(rows: &'a [R], place: &Occurrence) -> Option<&'a TokenWord>
    ensures { option_copied result ≡ token_at (map R.lent rows.now) place.now }
{
    let row = rows.get(place.row() as usize)?;
    let tokens = row.doc().fields.as_slice().get(place.field() as usize)?;
    tokens.words.as_slice().get(place.token as usize)
}
