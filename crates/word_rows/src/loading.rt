//! Reading what a query asks of a row: the marks, and the places of its words, of which the limits of each keyword keep some.
ghost use Rattle.std.specs.Prelude.{◌≡◌, ℕ, ◌+◌, ◌<◌, ◌≤◌, map, slice_index_or, ◌++◌, ◌==◌, true, false, [], length, Option, Some, IfOk, OnOk, IfSome, IsSome, slice_get, if◌then◌else◌};
ghost use Rattle.std.specs.List.{AllZip, count_by, filter, list_any};
ghost use Rattle.std.specs.Option.{option_map_or};
ghost use Rattle.doc_types.specs.declared.documents.DocRow.{DocRow};
ghost use Rattle.doc_types.specs.Chunks.{hits_ahead, hits_of, last_position, next_row, spans_of};
ghost use Rattle.occ_lists.specs.Places.{ArePlaces};
ghost use Rattle.word_rows.specs.Keywords.{is_paragraph, key_places, paragraph_ends, present_in, sentence_ends, allows};
ghost use Rattle.word_rows.specs.RowMarks.{AreMarks, has_zones};
ghost use Rattle.word_rows.specs.Slots.{AreAt, AreSlots, Stands, keys_of, next_of, next_with, number_among};
ghost use Rattle.word_rows.specs.Terms.{AreSeenIn, AreTermsOf, IsSeenIn};
ghost use Rattle.word_rows.specs.steps.Loading.{Covers, IsPlacedRow, ends_in, is_allowed, is_at_ends, is_in_limits, is_last_of, paragraphs_in};

use crate::asking::AskedMarks;
use crate::marks::RowMarks;
use crate::slots::{Slots, has_field};
use doc_types::{Chunk, CountedLists, Cursor, Gap, ZoneSpan};
use occ_lists::{Buffers, Cover, Occ, Term};
use query_tree::Key;
use srch_base::{NoMemory, Steps};
use std::alloc::Global;
use std::mem;

impl RowMarks {
    /// None read yet.
    pub fn new(alloc: Global) -> RowMarks
        ensures { AreMarks result }
    {
        RowMarks {
            sentences: Vec::new(alloc),
            paragraphs: Vec::new(alloc),
            spans: Vec::new(alloc),
        }
    }

    /// Reads those marks of the row that are asked for. Where memory was refused, there are none of sentences and paragraphs.
    pub fn load<C: Chunk>(
        &mut self,
        chunk: &C,
        row: u32,
        asked: AskedMarks,
        gaps: &mut Vec<(u16, (u32, Gap))>,
    ) -> Result<(), NoMemory>
        requires row { row < length (C.content chunk.now) }
        requires marks { AreMarks self.old }
        ensures marks { AreMarks self.new }
        ensures sentences { (found : DocRow) → slice_get (C.content chunk.now) row ≡ Some found → asked.boundaries ≡ true → OnOk result (self.new.sentences.items ≡ sentence_ends found) }
        ensures paragraphs { (found : DocRow) → slice_get (C.content chunk.now) row ≡ Some found → asked.boundaries ≡ true → OnOk result (self.new.paragraphs.items ≡ paragraph_ends found) }
        ensures spans { (found : DocRow) → slice_get (C.content chunk.now) row ≡ Some found → asked.spans ≡ true → OnOk result (self.new.spans.items ≡ spans_of found) }
    {
        if asked.spans {
            self.spans.clear();
            chunk.spans(row, &mut self.spans)?;
        }
        if !asked.boundaries {
            return Ok(());
        }
        match load_ends(chunk, row, gaps, &mut self.sentences, &mut self.paragraphs) {
            Ok(()) => Ok(()),
            Err(end) => {
                self.forget_ends();
                Err(end)
            }
        }
    }

    /// Takes the ends of sentences and paragraphs out.
    fn forget_ends(&mut self)
        ensures { AreMarks self.new }
    {
        self.sentences.clear();
        self.paragraphs.clear();
    }
}

/// Reads the ends of the row's sentences and paragraphs.
fn load_ends<C: Chunk>(
    chunk: &C,
    row: u32,
    gaps: &mut Vec<(u16, (u32, Gap))>,
    sentences: &mut Vec<(u16, u32)>,
    paragraphs: &mut Vec<(u16, u32)>,
) -> Result<(), NoMemory>
    requires { row < length (C.content chunk.now) }
    ensures sentences { (found : DocRow) → slice_get (C.content chunk.now) row ≡ Some found → OnOk result (sentences.new.items ≡ sentence_ends found) }
    ensures paragraphs { (found : DocRow) → slice_get (C.content chunk.now) row ≡ Some found → OnOk result (paragraphs.new.items ≡ paragraph_ends found) }
{
    gaps.clear();
    chunk.gaps(row, gaps)?;
    sentences.clear();
    put_ends(gaps, sentences)?;
    paragraphs.clear();
    put_paragraphs(gaps, paragraphs)?;
    Ok(())
}

/// Appends the boundaries.
fn put_ends(gaps: &[(u16, (u32, Gap))], ends: &mut Vec<(u16, u32)>) -> Result<(), NoMemory>
    ensures { OnOk result (ends.new.items ≡ ends.old.items ++ ends_in gaps.now) }
{
    for gap in gaps {
        ends.push((gap.0, gap.1.0))?;
    }
    Ok(())
}

/// Appends those boundaries at which a paragraph ends.
fn put_paragraphs(gaps: &[(u16, (u32, Gap))], ends: &mut Vec<(u16, u32)>) -> Result<(), NoMemory>
    ensures { OnOk result (ends.new.items ≡ ends.old.items ++ paragraphs_in gaps.now) }
{
    for gap in gaps {
        if is_paragraph(gap.1.1) {
            ends.push((gap.0, gap.1.0))?;
        }
    }
    Ok(())
}

fn is_paragraph(gap: Gap) -> bool
    ensures { result ≡ is_paragraph gap }
{
    match gap {
        Gap::Paragraph => true,
        Gap::None | Gap::Sentence => false,
    }
}

impl Slots<'_> {
    /// Reads the places of each keyword in the row at hand. A list is opened for each keyword whose word the row has.
    pub fn load<C: CountedLists>(
        &mut self,
        chunk: &C,
        row: u32,
        spans: &[(u16, ZoneSpan)],
        buffers: &mut Buffers,
        steps: &mut Steps<C::Book>,
    ) -> Result<(), NoMemory>
        requires row { row < length (C.content chunk.now) }
        requires slots { AreSlots (C.belongs chunk.now) (C.place chunk.now) (C.content chunk.now) row self.old }
        requires at { AreAt (C.place chunk.now) (C.content chunk.now) row self.old }
        requires seen { (found : DocRow) → slice_get (C.content chunk.now) row ≡ Some found → AreSeenIn found (keys_of self.old) self.old.terms.items }
        requires spans { (found : DocRow) → slice_get (C.content chunk.now) row ≡ Some found → list_any has_zones (keys_of self.old) ≡ true → spans.now ≡ spans_of found }
        ensures count { (found : DocRow) → slice_get (C.content chunk.now) row ≡ Some found → steps.new ≤ steps.old + present_in found (keys_of self.old) }
        ensures keys { self.new.keys ≡ self.old.keys }
        ensures slots { AreSlots (C.belongs chunk.now) (C.place chunk.now) (C.content chunk.now) row self.new }
        ensures loaded { (found : DocRow) → slice_get (C.content chunk.now) row ≡ Some found → OnOk result (AreTermsOf found (number_among (keys_of self.old)) (keys_of self.old) self.new.terms.items) }
    {
        load_lasts(chunk, row, &self.keys, &mut self.lasts)?;
        load_all(
            chunk,
            row,
            &self.keys,
            &self.cursors,
            &self.lasts,
            spans,
            &mut self.terms,
            buffers,
            steps,
        )?;
        Ok(())
    }
}

/// Reads the positions of the last words of the row's fields, where a keyword asks for them.
fn load_lasts<C: Chunk>(
    chunk: &C,
    row: u32,
    keys: &[&Key],
    lasts: &mut Vec<u32>,
) -> Result<(), NoMemory>
    requires { row < length (C.content chunk.now) }
    ensures { (found : DocRow) → slice_get (C.content chunk.now) row ≡ Some found → list_any (λ key. key.now.end) keys.now ≡ true → OnOk result (lasts.new.items ≡ map last_position found.doc.fields) }
{
    if !ask_for_last(keys) {
        return Ok(());
    }
    lasts.clear();
    chunk.lasts(row, lasts)?;
    Ok(())
}

/// Whether a keyword is to be the last word of its field.
fn ask_for_last(keys: &[&Key]) -> bool
    ensures { result ≡ list_any (λ key. key.now.end) keys.now }
{
    keys.iter().any(|key| key.end)
}

/// Reads the places of each keyword.
fn load_all<C: CountedLists>(
    chunk: &C,
    row: u32,
    keys: &[&Key],
    cursors: &[Option<Cursor>],
    lasts: &[u32],
    spans: &[(u16, ZoneSpan)],
    terms: &mut [Term],
    buffers: &mut Buffers,
    steps: &mut Steps<C::Book>,
) -> Result<(), NoMemory>
    requires row { row < length (C.content chunk.now) }
    requires its { AllZip (Stands (C.belongs chunk.now) (C.place chunk.now) (C.content chunk.now) row) (map (λ key. key.now.word) keys.now) cursors.now }
    requires at { AllZip (λ word cursor. next_of (C.place chunk.now) cursor ≡ next_with word (C.content chunk.now) row) (map (λ key. key.now.word) keys.now) cursors.now }
    requires long { length terms.old ≡ length keys.now }
    requires seen { (found : DocRow) → slice_get (C.content chunk.now) row ≡ Some found → AreSeenIn found (map (λ key. key.now) keys.now) terms.old }
    requires spans { (found : DocRow) → slice_get (C.content chunk.now) row ≡ Some found → list_any has_zones (map (λ key. key.now) keys.now) ≡ true → spans.now ≡ spans_of found }
    requires lasts { (found : DocRow) → slice_get (C.content chunk.now) row ≡ Some found → list_any (λ key. key.now.end) keys.now ≡ true → lasts.now ≡ map last_position found.doc.fields }
    ensures count { steps.new ≤ steps.old + count_by (λ term. term.present) terms.old }
    ensures long { length terms.new ≡ length terms.old }
    ensures same { (k : ℕ) → (d : _) → slice_index_or terms.new k d ≡ record (slice_index_or terms.old k d) { places = (slice_index_or terms.new k d).places } }
    ensures loaded { (found : DocRow) → slice_get (C.content chunk.now) row ≡ Some found → OnOk result ((k : ℕ) (d : _) (key : _) → k < length terms.old → (slice_index_or terms.new k d).places.items ≡ key_places found (slice_index_or keys.now k key).now) }
{
    for at in 0..terms.len() {
        load_term(
            chunk,
            row,
            keys[at],
            cursors[at],
            lasts,
            spans,
            &mut terms[at],
            buffers,
            steps,
        )?;
    }
    Ok(())
}

/// Reads the places of a keyword.
fn load_term<C: CountedLists>(
    chunk: &C,
    row: u32,
    key: &Key,
    cursor: Option<Cursor>,
    lasts: &[u32],
    spans: &[(u16, ZoneSpan)],
    term: &mut Term,
    buffers: &mut Buffers,
    steps: &mut Steps<C::Book>,
) -> Result<(), NoMemory>
    requires row { row < length (C.content chunk.now) }
    requires its { Stands (C.belongs chunk.now) (C.place chunk.now) (C.content chunk.now) row key.now.word cursor }
    requires at { next_of (C.place chunk.now) cursor ≡ next_with key.now.word (C.content chunk.now) row }
    requires seen { (found : DocRow) → slice_get (C.content chunk.now) row ≡ Some found → IsSeenIn found key.now term.old }
    requires spans { (found : DocRow) → slice_get (C.content chunk.now) row ≡ Some found → has_zones key.now ≡ true → spans.now ≡ spans_of found }
    requires lasts { (found : DocRow) → slice_get (C.content chunk.now) row ≡ Some found → key.now.end ≡ true → lasts.now ≡ map last_position found.doc.fields }
    ensures count { steps.new ≤ steps.old + (if term.old.present then 1 else 0) }
    ensures same { term.new ≡ record term.old { places = term.new.places } }
    ensures loaded { (found : DocRow) → slice_get (C.content chunk.now) row ≡ Some found → OnOk result (term.new.places.items ≡ key_places found key.now) }
{
    open(chunk, cursor, term, steps)?;
    limit(key, lasts, spans, term, buffers)
}

/// Opens the places of a keyword's word in the row at hand, where the row has it.
fn open<C: CountedLists>(
    chunk: &C,
    cursor: Option<Cursor>,
    term: &mut Term,
    steps: &mut Steps<C::Book>,
) -> Result<(), NoMemory>
    requires its { IfSome cursor (C.belongs chunk.now) }
    requires left { term.old.present ≡ true → IfSome cursor (λ its. IsSome (next_row (C.place chunk.now its))) }
    ensures count { steps.new ≤ steps.old + (if term.old.present then 1 else 0) }
    ensures same { term.new ≡ record term.old { places = term.new.places } }
    ensures opened { OnOk result (term.new.places.items ≡ (if term.old.present then option_map_or (λ its. hits_ahead (C.content chunk.now) (C.place chunk.now its)) cursor [] else [])) }
{
    term.places.clear();
    let Some(cursor) = cursor else {
        return Ok(());
    };
    if term.present {
        chunk.open(&cursor, &mut term.places, steps)?;
    }
    Ok(())
}

/// Leaves those places of the row that the keyword's limits and marks allow.
fn limit(
    key: &Key,
    lasts: &[u32],
    spans: &[(u16, ZoneSpan)],
    term: &mut Term,
    buffers: &mut Buffers,
) -> Result<(), NoMemory>
    ensures same { term.new ≡ record term.old { places = term.new.places } }
    ensures limited { (found : DocRow) → IsPlacedRow found → (has_zones key.now ≡ true → spans.now ≡ spans_of found) → (key.now.end ≡ true → lasts.now ≡ map last_position found.doc.fields) → (term.old.free ≡ true → filter (allows found key.now) (hits_of key.now.word found) ≡ hits_of key.now.word found) → term.old.places.items ≡ hits_of key.now.word found → OnOk result (term.new.places.items ≡ key_places found key.now) }
{
    if term.free {
        return Ok(());
    }
    let cover = cover_of(key.limit.zones.as_slice(), spans, buffers)?;
    let mut kept = buffers.take_places();
    put_allowed(key, lasts, &cover, &term.places, &mut kept)?;
    buffers.keep_places(mem::replace(&mut term.places, kept));
    buffers.keep_occs(cover.into_list());
    Ok(())
}

/// Appends those places of its word that the keyword's limits and marks allow.
fn put_allowed(
    key: &Key,
    lasts: &[u32],
    cover: &Cover,
    places: &[(u16, u32)],
    kept: &mut Vec<(u16, u32)>,
) -> Result<(), NoMemory>
    ensures { OnOk result (kept.new.items ≡ kept.old.items ++ filter (is_allowed lasts.now key.now cover.now) places.now) }
{
    for place in places {
        if allows(key, lasts, cover, *place) {
            kept.push(*place)?;
        }
    }
    Ok(())
}

/// What the spans of the zones cover.
fn cover_of(
    zones: &[u16],
    spans: &[(u16, ZoneSpan)],
    buffers: &mut Buffers,
) -> Result<Cover, NoMemory>
    ensures { IfOk result (λ cover. Covers zones.now spans.now cover) }
{
    let mut listed = buffers.take_occs();
    for span in spans {
        if zones.contains(&span.1.zone) {
            listed.push(Occ {
                field: span.0,
                first: span.1.first,
                last: span.1.last,
            })?;
        }
    }
    Ok(Cover::over(listed))
}

/// Whether the keyword's limits and marks allow a place of its word.
fn allows(key: &Key, lasts: &[u32], cover: &Cover, place: (u16, u32)) -> bool
    ensures { result ≡ is_allowed lasts.now key.now cover.now place }
{
    is_in_limits(key, cover, place) && is_at_ends(key, lasts, place)
}

/// Whether the keyword's limits allow the place.
fn is_in_limits(key: &Key, cover: &Cover, place: (u16, u32)) -> bool
    ensures { result ≡ is_in_limits key.now cover.now place }
{
    has_field(key.limit.fields, place.0)
        && place.1 <= key.limit.positions
        && (!has_zones(key) || cover.holds(place.0, place.1))
}

/// Whether the keyword's limit has zones.
fn has_zones(key: &Key) -> bool
    ensures { result ≡ has_zones key.now }
{
    !key.limit.zones.is_empty()
}

/// Whether the keyword's marks allow a place of its word.
fn is_at_ends(key: &Key, lasts: &[u32], place: (u16, u32)) -> bool
    ensures { result ≡ is_at_ends lasts.now key.now place }
{
    (!key.start || place.1 == 1) && (!key.end || is_last(lasts, place))
}

/// Whether the place is that of its field's last word, by the last positions of the fields.
fn is_last(lasts: &[u32], place: (u16, u32)) -> bool
    ensures { result ≡ is_last_of lasts.now place }
{
    match lasts.get(place.0 as usize) {
        Some(last) => *last == place.1,
        None => false,
    }
}
