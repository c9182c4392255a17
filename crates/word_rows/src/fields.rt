//! The fields in which a keyword has a place, for one whose limits look at nothing but fields. The chunk tells the fields that have
//! its word without reading its places, so no memory is taken.
ghost use Rattle.std.specs.Prelude.{◌≡◌, ◌∷◌, ◌+◌, ◌<◌, ◌≤◌, [], length, map, Some, slice_get, IsTrue, ◌↔◌, if◌then◌else◌};
ghost use Rattle.std.specs.List.{AllZip};
ghost use Rattle.doc_types.specs.declared.documents.DocRow.{DocRow};
ghost use Rattle.doc_types.specs.Chunks.{has_word};
ghost use Rattle.query_tree.specs.declared.key.Key.{Key as KeyValue};
ghost use Rattle.word_rows.specs.Fields.{AreFieldsOf, LooksAtFields};
ghost use Rattle.word_rows.specs.Keywords.{key_places, present_in};
ghost use Rattle.word_rows.specs.Slots.{AreAt, AreSlots, Stands, keys_of, next_of, next_with};
ghost use Rattle.word_rows.specs.Terms.{AreSeenIn};

use crate::slots::Slots;
use doc_types::{CountedLists, Cursor, MAX_POSITION};
use occ_lists::Term;
use query_tree::Key;
use srch_base::Steps;

/// Whether the keyword's limits and marks look at nothing but the field of a place.
pub fn looks_at_fields(key: &Key) -> bool
    ensures { IsTrue result ↔ LooksAtFields key.now }
{
    if key.start || key.end {
        return false;
    }
    key.limit.positions >= MAX_POSITION && key.limit.zones.is_empty()
}

impl Slots<'_> {
    /// The fields in which the only keyword has a place in the row at hand, as bits, where its limits look at fields alone.
    pub fn fields<C: CountedLists>(&self, chunk: &C, row: u32, steps: &mut Steps<C::Book>) -> u32
        requires row { row < length (C.content chunk.now) }
        requires slots { AreSlots (C.belongs chunk.now) (C.place chunk.now) (C.content chunk.now) row self.now }
        requires at { AreAt (C.place chunk.now) (C.content chunk.now) row self.now }
        requires seen { (found : DocRow) → slice_get (C.content chunk.now) row ≡ Some found → AreSeenIn found (keys_of self.now) self.now.terms.items }
        ensures count { (found : DocRow) → slice_get (C.content chunk.now) row ≡ Some found → steps.new ≤ steps.old + present_in found (keys_of self.now) }
        ensures fields { (found : DocRow) (key : KeyValue) → slice_get (C.content chunk.now) row ≡ Some found → keys_of self.now ≡ key ∷ [] → LooksAtFields key → AreFieldsOf result (key_places found key) }
    {
        fields_of_first(chunk, row, &self.keys, &self.cursors, &self.terms, steps)
    }
}

/// The fields in which the first of the keywords has a place in the row at hand, as bits, where it is the only one and its limits
/// look at fields alone.
fn fields_of_first<C: CountedLists>(
    chunk: &C,
    row: u32,
    keys: &[&Key],
    cursors: &[Option<Cursor>],
    terms: &[Term],
    steps: &mut Steps<C::Book>,
) -> u32
    requires row { row < length (C.content chunk.now) }
    requires its { AllZip (Stands (C.belongs chunk.now) (C.place chunk.now) (C.content chunk.now) row) (map (λ key. key.now.word) keys.now) cursors.now }
    requires at { AllZip (λ word cursor. next_of (C.place chunk.now) cursor ≡ next_with word (C.content chunk.now) row) (map (λ key. key.now.word) keys.now) cursors.now }
    requires long { length terms.now ≡ length keys.now }
    requires seen { (found : DocRow) → slice_get (C.content chunk.now) row ≡ Some found → AreSeenIn found (map (λ key. key.now) keys.now) terms.now }
    ensures count { (found : DocRow) → slice_get (C.content chunk.now) row ≡ Some found → steps.new ≤ steps.old + present_in found (map (λ key. key.now) keys.now) }
    ensures fields { (found : DocRow) (key : KeyValue) → slice_get (C.content chunk.now) row ≡ Some found → map (λ key. key.now) keys.now ≡ key ∷ [] → LooksAtFields key → AreFieldsOf result (key_places found key) }
{
    if keys.is_empty() {
        return 0;
    }
    fields_of(chunk, row, keys[0], cursors[0], terms[0].present, steps)
}

/// The fields in which the keyword has a place in the row at hand, as bits, where its limits look at fields alone.
fn fields_of<C: CountedLists>(
    chunk: &C,
    row: u32,
    key: &Key,
    cursor: Option<Cursor>,
    present: bool,
    steps: &mut Steps<C::Book>,
) -> u32
    requires row { row < length (C.content chunk.now) }
    requires its { Stands (C.belongs chunk.now) (C.place chunk.now) (C.content chunk.now) row key.now.word cursor }
    requires at { next_of (C.place chunk.now) cursor ≡ next_with key.now.word (C.content chunk.now) row }
    requires seen { (found : DocRow) → slice_get (C.content chunk.now) row ≡ Some found → present ≡ has_word key.now.word found }
    ensures count { steps.new ≤ steps.old + (if present then 1 else 0) }
    ensures fields { (found : DocRow) → slice_get (C.content chunk.now) row ≡ Some found → LooksAtFields key.now → AreFieldsOf result (key_places found key.now) }
{
    match cursor {
        None => 0,
        Some(cursor) => {
            if present {
                chunk.fields_at(&cursor, steps) & key.limit.fields
            } else {
                0
            }
        }
    }
}
