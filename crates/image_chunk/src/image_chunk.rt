//! A chunk over the bytes of its image. It keeps no row: numbers at fixed places are read where they stand, a word or an id is
//! found by halving, and a cursor is a place in the postings. The rows are those whose image the bytes are, of which there is one
//! list.
//!
//! Beside the bytes it keeps a cursor at each 64th row of each word that has more, so that a search for a row, or for the last one,
//! goes over 64 rows at most, and not over all before it.
ghost use Rattle.std.specs.Prelude.{◌≡◌, ◌<◌, ◌≤◌, ℕ, List, Some, All, IfOk, length, slice_get, IsSome, IsSomeAnd};
ghost use Rattle.std.specs.Option.{option_map};
ghost use Rattle.chunk_image.specs.Marks.{row_marks};
ghost use Rattle.posting_codec.specs.HitLists.{hit_list};
ghost use Rattle.doc_types.specs.Chunks.{fields_ahead, first_place, hits_ahead, next_place, next_row, place_from, rows_with};
ghost use Rattle.chunk_image.specs.ChunkImage.{word_postings};
ghost use Rattle.doc_types.specs.declared.documents.DocRow.{DocRow};
ghost use Rattle.image_parts.specs.Images.{ArePartsOf, HasZones, HaveImage};
ghost use Rattle.image_write.specs.Heads.{IsRead, head};
ghost use Rattle.image_chunk.specs.Images.{Image};
ghost use Rattle.image_chunk.specs.Places.{StandsIn, list_in, place_in};
ghost use Rattle.image_chunk.specs.steps.OneImage.{content_whole, one_image, words_are};
ghost use Rattle.doc_types.specs.declared.cursor.TheConstants.{NO_ROW};
ghost use Rattle.image_chunk.specs.steps.CursorPlaces.{all_stand_prop, place_in-IsCursorPlace, place_in-row_of};

use crate::skips::{SKIP, before, put_skips};
use crate::steps::{fields_of, first, hit_bytes, put_hits, step};
use doc_types::{Chunk, Cursor, Gap, HitLists, NO_ROW, Value, ZoneSpan};
use image_parts::{Parts, attrs_of, marks_of, parts_of, put_gaps, put_lasts, put_spans};
use image_write::head_in;
use srch_base::{Items, NoMemory, Steps};
use std::alloc::Global;
use std::sync::ledger::Ledger;

/// A chunk over an image. Who makes one shows whose image the bytes are; what keeps the bytes says where they come from.
#[derive(Drop)]
pub struct ImageChunk {
    bytes: Items<u8>,
    parts: Parts,
    skips: Items<Cursor>,
    ghost image: { Image bytes } by { one_image bytes },
    ghost parted: { ArePartsOf image.0.0 image.0.1 parts },
    ghost skipping: { All (StandsIn image.0.0 image.0.1 bytes) skips } by { all_stand_prop image.0.0 image.0.1 bytes skips },
}

impl ImageChunk {
    /// The chunk of an image. It goes over all posting lists once.
    pub fn over(alloc: Global, bytes: Vec<u8>) -> Result<ImageChunk, NoMemory>
        requires { Image bytes.items }
        ensures bytes { IfOk result (λ chunk. chunk.bytes ≡ bytes.items) }
        ensures content { IfOk result (λ chunk. (rows : List DocRow) (words : List (List ℕ)) → HaveImage rows words bytes.items → chunk.image.0.0 ≡ rows) }
    {
        let plain = ImageChunk::plain(alloc, bytes);
        let mut skips = Vec::new(alloc);
        for number in 0..plain.parts.words() {
            put_skips(&plain, number, &mut skips)?;
        }
        Ok(plain.with_skips(skips))
    }

    /// The chunk of an image, without skip entries.
    fn plain(alloc: Global, bytes: Vec<u8>) -> ImageChunk
        requires { Image bytes.items }
        ensures bytes { result.bytes ≡ bytes.items }
        ensures content { (rows : List DocRow) (words : List (List ℕ)) → HaveImage rows words bytes.items → result.image.0.0 ≡ rows }
    {
        let bytes = Items::new(bytes);
        let parts = parts_of(bytes.as_slice());
        ImageChunk {
            bytes,
            parts,
            skips: Items::new(Vec::new(alloc)),
        }
    }

    /// The same chunk with these skip entries.
    fn with_skips(self, skips: Vec<Cursor>) -> ImageChunk
        requires { All (StandsIn self.image.0.0 self.image.0.1 self.bytes) skips.items }
        ensures bytes { result.bytes ≡ self.bytes }
        ensures content { result.image.0.0 ≡ self.image.0.0 }
    {
        let ImageChunk { bytes, parts, .. } = self;
        ImageChunk {
            bytes,
            parts,
            skips: Items::new(skips),
        }
    }

    /// Its bytes.
    pub fn as_bytes(&self) -> &[u8]
        ensures { result.now ≡ self.now.bytes }
    {
        self.bytes.as_slice()
    }

    /// The image up to the end of the posting list of a word.
    #[inline(always)]
    fn list(&self, word: u32) -> &[u8]
        requires { word < length self.now.image.0.1 }
        ensures { result.now ≡ list_in self.now.image.0.0 self.now.image.0.1 self.now.bytes word }
    {
        let image = self.bytes.as_slice();
        &image[..self.parts.list_end(image, word)]
    }

    /// The bytes of the word's hit list in the next row that has it.
    #[inline(always)]
    pub fn hit_bytes(&self, cursor: &Cursor) -> &[u8]
        requires belongs { StandsIn self.now.image.0.0 self.now.image.0.1 self.now.bytes cursor.now }
        requires left { IsSome (next_row (place_in self.now.image.0.0 self.now.image.0.1 cursor.now)) }
        ensures { result.now ≡ hit_list (hits_ahead self.now.image.0.0 (place_in self.now.image.0.0 self.now.image.0.1 cursor.now)) }
    {
        hit_bytes(self.list(cursor.word), cursor.at, cursor.index)
    }

    /// How many attributes each row has. Where there are no rows, it may be any number.
    pub fn attrs(&self) -> u16
        ensures { All (λ row. length row.doc.values ≡ result) self.now.image.0.0 }
    {
        attrs_of(self.bytes.as_slice())
    }

    /// The zones of its rows have room in 16 bits, as they have where they are written. It does nothing.
    pub fn zones_fit(&self)
        ensures { All HasZones self.now.image.0.0 }
    {}

    /// The bytes of the row's marks.
    #[inline]
    pub fn marks_of(&self, row: u32) -> &[u8]
        requires { row < length self.now.image.0.0 }
        ensures { option_map row_marks (slice_get self.now.image.0.0 row) ≡ Some result.now }
    {
        marks_of(self.bytes.as_slice(), self.parts, row)
    }

    /// A cursor before all rows that have the word of this number.
    pub fn front(&self, number: u32) -> Cursor
        requires { number < length self.now.image.0.1 }
        ensures stands { StandsIn self.now.image.0.0 self.now.image.0.1 self.now.bytes result }
        ensures word { result.word ≡ number }
        ensures first { (word : List ℕ) → slice_get self.now.image.0.1 number ≡ Some word → place_in self.now.image.0.0 self.now.image.0.1 result ≡ first_place word self.now.image.0.0 }
    {
        let (at, index) = first(
            self.list(number),
            self.parts.list(self.bytes.as_slice(), number),
        );
        Cursor {
            word: number,
            at,
            index,
        }
    }

    /// The bytes of the posting list of the word of this number.
    #[inline(always)]
    pub fn list_bytes(&self, number: u32) -> &[u8]
        requires { number < length self.now.image.0.1 }
        ensures { (word : List ℕ) → slice_get self.now.image.0.1 number ≡ Some word → result.now ≡ word_postings self.now.image.0.0 word }
    {
        let whole = self.list(number);
        let begin = self.parts.list(self.bytes.as_slice(), number);
        &whole[begin..]
    }

    /// How many rows have the word of this number.
    #[inline(always)]
    pub fn count_of(&self, number: u32) -> u32
        requires { number < length self.now.image.0.1 }
        ensures { (word : List ℕ) → slice_get self.now.image.0.1 number ≡ Some word → result ≡ length (rows_with word self.now.image.0.0) }
    {
        self.parts.count(self.bytes.as_slice(), number)
    }

    /// The head of the word of this number, read where the word stands.
    #[inline]
    pub fn head_at(&self, number: u32) -> u64
        requires { number < length self.now.image.0.1 }
        ensures is { (word : List ℕ) → slice_get self.now.image.0.1 number ≡ Some word → result ≡ head word }
        ensures bytes { (word : List ℕ) → slice_get self.now.image.0.1 number ≡ Some word → IsRead word }
    {
        let image = self.bytes.as_slice();
        let (at, size) = self.parts.word_span(image, number);
        head_in(image, at, size)
    }

    /// A cursor before some of the last rows that have the word of this number, at least one: the word's last skip entry, or its
    /// front where it has none, as one of 64 rows or fewer.
    pub fn near_end(&self, number: u32) -> Cursor
        requires { number < length self.now.image.0.1 }
        ensures stands { StandsIn self.now.image.0.0 self.now.image.0.1 self.now.bytes result }
        ensures word { (word : List ℕ) → slice_get self.now.image.0.1 number ≡ Some word → (place_in self.now.image.0.0 self.now.image.0.1 result).word ≡ word }
        ensures some { IsSome (next_row (place_in self.now.image.0.0 self.now.image.0.1 result)) }
    {
        if self.count_of(number) <= SKIP {
            return self.front(number);
        }
        let skips = self.skips.as_slice();
        let found = before(skips, number, NO_ROW);
        if found > 0 {
            let skip = skips[found - 1];
            if skip.word == number && skip.index != NO_ROW {
                return skip;
            }
        }
        self.front(number)
    }

    /// The fields of the row at which a cursor stands, read off its hits.
    pub(crate) fn read_fields(&self, cursor: &Cursor) -> u32
        requires belongs { StandsIn self.now.image.0.0 self.now.image.0.1 self.now.bytes cursor.now }
        requires left { cursor.now.index ≡ NO_ROW → ⊥ }
        ensures { result ≡ fields_ahead self.now.image.0.0 (place_in self.now.image.0.0 self.now.image.0.1 cursor.now) }
    {
        fields_of(self.list(cursor.word), cursor.at, cursor.index)
    }

    /// Sets a cursor that stands at a row on to the next one of its word.
    #[inline(always)]
    pub(crate) fn go_on(&self, cursor: &mut Cursor)
        requires belongs { StandsIn self.now.image.0.0 self.now.image.0.1 self.now.bytes cursor.old }
        requires left { cursor.old.index ≡ NO_ROW → ⊥ }
        ensures stays { StandsIn self.now.image.0.0 self.now.image.0.1 self.now.bytes cursor.new }
        ensures next { place_in self.now.image.0.0 self.now.image.0.1 cursor.new ≡ next_place (place_in self.now.image.0.0 self.now.image.0.1 cursor.old) }
        ensures word { cursor.new.word ≡ cursor.old.word }
    {
        self.go_along(self.list(cursor.word), cursor);
    }

    /// The same along the list of its word, which the caller has at hand.
    #[inline(always)]
    fn go_along(&self, list: &[u8], cursor: &mut Cursor)
        requires list { list.now ≡ list_in self.now.image.0.0 self.now.image.0.1 self.now.bytes cursor.old.word }
        requires belongs { StandsIn self.now.image.0.0 self.now.image.0.1 self.now.bytes cursor.old }
        requires left { cursor.old.index ≡ NO_ROW → ⊥ }
        ensures stays { StandsIn self.now.image.0.0 self.now.image.0.1 self.now.bytes cursor.new }
        ensures next { place_in self.now.image.0.0 self.now.image.0.1 cursor.new ≡ next_place (place_in self.now.image.0.0 self.now.image.0.1 cursor.old) }
        ensures word { cursor.new.word ≡ cursor.old.word }
    {
        let (at, index) = step(list, cursor.at, cursor.index);
        cursor.at = at;
        cursor.index = index;
    }

    /// Sets a cursor on to the last skip entry of its word that lies at the row or before it, where that is ahead of it.
    fn leap(&self, cursor: &mut Cursor, row: u32)
        requires belongs { StandsIn self.now.image.0.0 self.now.image.0.1 self.now.bytes cursor.old }
        requires before { cursor.old.index ≤ row }
        ensures stays { StandsIn self.now.image.0.0 self.now.image.0.1 self.now.bytes cursor.new }
        ensures place { place_from row (place_in self.now.image.0.0 self.now.image.0.1 cursor.new) ≡ place_from row (place_in self.now.image.0.0 self.now.image.0.1 cursor.old) }
    {
        let skips = self.skips.as_slice();
        let found = before(skips, cursor.word, row);
        if found > 0 {
            let skip = skips[found - 1];
            if skip.word == cursor.word && cursor.index < skip.index && skip.index <= row {
                *cursor = skip;
            }
        }
    }
}

impl Chunk for ImageChunk {
    ghost content = { λ chunk. chunk.image.0.0 };

    ghost words_of = { λ chunk. chunk.image.0.1 };

    ghost belongs = { λ chunk cursor. StandsIn chunk.image.0.0 chunk.image.0.1 chunk.bytes cursor };

    ghost place = { λ chunk cursor. place_in chunk.image.0.0 chunk.image.0.1 cursor };

    #[inline]
    fn rows(&self) -> u32 {
        self.parts.rows()
    }

    #[inline]
    fn fields(&self) -> u16 {
        self.parts.fields()
    }

    #[inline]
    fn id(&self, row: u32) -> u64 {
        self.parts.id(self.bytes.as_slice(), row)
    }

    #[inline]
    fn born(&self, row: u32) -> u64 {
        self.parts.born(self.bytes.as_slice(), row)
    }

    #[inline]
    fn value(&self, row: u32, attr: u16) -> Value {
        self.parts.value(self.bytes.as_slice(), row, attr)
    }

    fn find(&self, id: u64) -> Option<u32> {
        self.parts.find(self.bytes.as_slice(), id)
    }

    #[inline]
    fn words(&self) -> u32 {
        self.parts.words()
    }

    fn word_at(&self, n: u32) -> &[u8] {
        self.parts.word(self.bytes.as_slice(), n)
    }

    fn count(&self, word: &[u8]) -> u32 {
        let image = self.bytes.as_slice();
        match self.parts.number(image, word) {
            Some(number) => self.parts.count(image, number),
            None => 0,
        }
    }

    fn start(&self, word: &[u8]) -> Option<Cursor> {
        let image = self.bytes.as_slice();
        let number = self.parts.number(image, word)?;
        Some(self.front(number))
    }

    #[inline(always)]
    fn row(&self, cursor: &Cursor) -> Option<u32> {
        cursor.next_row()
    }

    #[inline(always)]
    fn advance(&self, cursor: &mut Cursor) {
        if cursor.index == NO_ROW {
            return;
        }
        self.go_on(cursor);
    }

    fn seek(&self, cursor: &mut Cursor, row: u32) -> u32 {
        if cursor.index < row && row - cursor.index > SKIP {
            self.leap(cursor, row);
        }
        while let Some(next) = self.row(cursor) {
            if next >= row {
                return next;
            }
            self.advance(cursor);
        }
        NO_ROW
    }

    /// The list is found once for all of these rows.
    fn take_rows(&self, cursor: &mut Cursor, into: &mut [u32]) -> usize {
        let list = self.list(cursor.word);
        for taken in 0..into.len() {
            match self.row(cursor) {
                Some(row) => into[taken] = row,
                None => return taken,
            }
            self.go_along(list, cursor);
        }
        into.len()
    }

    fn lasts(&self, row: u32, into: &mut Vec<u32>) -> Result<(), NoMemory> {
        put_lasts(self.bytes.as_slice(), self.parts, row, into)
    }

    fn gaps(&self, row: u32, into: &mut Vec<(u16, (u32, Gap))>) -> Result<(), NoMemory> {
        put_gaps(self.bytes.as_slice(), self.parts, row, into)
    }

    fn spans(&self, row: u32, into: &mut Vec<(u16, ZoneSpan)>) -> Result<(), NoMemory> {
        put_spans(self.bytes.as_slice(), self.parts, row, into)
    }

    ghost whole = { λ chunk. content_whole chunk.bytes chunk.image };

    ghost all_words = { λ chunk. words_are chunk.bytes chunk.image };

    ghost places = { λ chunk cursor stands. place_in-IsCursorPlace chunk.bytes chunk.image cursor stands };

    ghost nexts = { λ chunk cursor stands. place_in-row_of chunk.bytes chunk.image cursor stands };
}

impl HitLists for ImageChunk {
    fn open<L: Ledger>(
        &self,
        cursor: &Cursor,
        into: &mut Vec<(u16, u32)>,
        steps: &mut Steps<L>,
    ) -> Result<(), NoMemory> {
        steps.tick();
        put_hits(self.list(cursor.word), cursor.at, cursor.index, into)?;
        Ok(())
    }

    fn fields_at<L: Ledger>(&self, cursor: &Cursor, steps: &mut Steps<L>) -> u32 {
        steps.tick();
        self.read_fields(cursor)
    }
}
