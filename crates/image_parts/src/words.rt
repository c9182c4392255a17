//! The words of an image: the word table, whose entries stand at fixed places, the dictionary, and where each word's posting list
//! lies.
ghost use Rattle.std.specs.Prelude.{◌≡◌, ◌+◌, ◌-◌, ◌*◌, ◌<◌, ◌≤◌, ◌^◌, ◌++◌, ℕ, List, Some, length, drop, take, slice_get, slice_index};
ghost use Rattle.std.specs.List.{position};
ghost use Rattle.std.specs.Str.{bytes_eq};
ghost use Rattle.doc_types.specs.declared.documents.DocRow.{DocRow};
ghost use Rattle.doc_types.specs.Chunks.{rows_with};
ghost use Rattle.chunk_image.specs.ChunkImage.{postings_bytes, word_postings};
ghost use Rattle.image_parts.specs.Images.{ArePartsOf, HaveImage};

use crate::fixed::u32_in;
use crate::parts::{ENTRY, Parts};
use std::cmp::Ordering;

impl Parts {
    /// Where the entry of a word begins.
    #[inline(always)]
    fn entry(self, n: u32) -> usize
        requires { self.table + 12 * n < 2 ^ 64 }
        ensures { result ≡ self.table + 12 * n }
    {
        self.table + n as usize * ENTRY
    }

    /// Where the word of this number stands: the place of its first byte, and how many bytes it has.
    #[inline]
    pub fn word_span(self, image: &[u8], n: u32) -> (usize, usize)
        requires { (rows : List DocRow) × (words : List (List ℕ)) × HaveImage rows words image.now × ArePartsOf rows words self × (n < length words) }
        ensures within { result.0 + result.1 ≤ length image.now }
        ensures word { (rows : List DocRow) (words : List (List ℕ)) → HaveImage rows words image.now → ArePartsOf rows words self → slice_get words n ≡ Some (take result.1 (drop result.0 image.now)) }
    {
        let at = self.dictionary + u32_in(image, self.entry(n)) as usize;
        counted_at(image, at)
    }

    /// The word of this number, in the order of their bytes.
    #[inline(always)]
    pub fn word(self, image: &[u8], n: u32) -> &[u8]
        requires { (rows : List DocRow) × (words : List (List ℕ)) × HaveImage rows words image.now × ArePartsOf rows words self × (n < length words) }
        ensures { (rows : List DocRow) (words : List (List ℕ)) → HaveImage rows words image.now → ArePartsOf rows words self → slice_get words n ≡ Some result.now }
    {
        let (at, size) = self.word_span(image, n);
        &image[at..at + size]
    }

    /// The number of a word, if it is there, by halving.
    pub fn number(self, image: &[u8], word: &[u8]) -> Option<u32>
        requires { (rows : List DocRow) × (words : List (List ℕ)) × HaveImage rows words image.now × ArePartsOf rows words self }
        ensures { (rows : List DocRow) (words : List (List ℕ)) → HaveImage rows words image.now → ArePartsOf rows words self → result ≡ position (λ w. bytes_eq w word.now) words }
    {
        let mut low = 0;
        let mut high = self.words;
        'halves: while low < high {
            let middle = low + (high - low) / 2;
            match self.word(image, middle).cmp(word) {
                Ordering::Equal => return Some(middle),
                Ordering::Less => low = middle + 1,
                Ordering::Greater => high = middle,
            }
        }
        None
    }

    /// How many rows have the word of this number.
    #[inline(always)]
    pub fn count(self, image: &[u8], n: u32) -> u32
        requires { (rows : List DocRow) × (words : List (List ℕ)) × HaveImage rows words image.now × ArePartsOf rows words self × (n < length words) }
        ensures { (rows : List DocRow) (words : List (List ℕ)) (word : List ℕ) → HaveImage rows words image.now → ArePartsOf rows words self → slice_get words n ≡ Some word → result ≡ length (rows_with word rows) }
    {
        u32_in(image, self.entry(n) + 4)
    }

    /// Where the posting list of the word of this number begins.
    #[inline(always)]
    pub fn list(self, image: &[u8], n: u32) -> usize
        requires { (rows : List DocRow) × (words : List (List ℕ)) × HaveImage rows words image.now × ArePartsOf rows words self × (n < length words) }
        ensures place { (rows : List DocRow) (words : List (List ℕ)) → HaveImage rows words image.now → ArePartsOf rows words self → result + length (postings_bytes rows (drop n words)) ≡ length image.now }
        ensures begins { (rows : List DocRow) (words : List (List ℕ)) (word : List ℕ) → HaveImage rows words image.now → ArePartsOf rows words self → slice_get words n ≡ Some word → drop result image.now ≡ word_postings rows word ++ postings_bytes rows (drop (n + 1) words) }
    {
        self.postings + u32_in(image, self.entry(n) + 8) as usize
    }

    /// Where the posting list of the word of this number ends.
    #[inline(always)]
    pub fn list_end(self, image: &[u8], n: u32) -> usize
        requires { (rows : List DocRow) × (words : List (List ℕ)) × HaveImage rows words image.now × ArePartsOf rows words self × (n < length words) }
        ensures place { (rows : List DocRow) (words : List (List ℕ)) → HaveImage rows words image.now → ArePartsOf rows words self → result ≡ length image.now - length (postings_bytes rows (drop (n + 1) words)) }
        ensures within { result ≤ length image.now }
    {
        if n + 1 < self.words {
            self.list(image, n + 1)
        } else {
            image.len()
        }
    }
}

/// Where the bytes stand whose number stands before them in one byte, and that number.
#[inline(always)]
fn counted_at(bytes: &[u8], at: usize) -> (usize, usize)
    requires { at + 1 + slice_index bytes.now at ≤ length bytes.now }
    ensures place { result.0 ≡ at + 1 }
    ensures size { result.1 ≡ slice_index bytes.now at }
{
    (at + 1, bytes[at] as usize)
}
