//! The header of an image: its counts, and where its parts begin.
ghost use Rattle.std.specs.Prelude.{◌≡◌, ℕ, List, [], ◌∷◌, All, length};
ghost use Rattle.doc_types.specs.declared.documents.DocRow.{DocRow};
ghost use Rattle.image_parts.specs.Images.{ArePartsOf, HaveImage};

use crate::fixed::{u16_in, u32_in};

/// The bytes of a header.
pub(crate) const HEADER: usize = 32;

/// The bytes of a word's entry in the word table.
pub(crate) const ENTRY: usize = 12;

/// The counts of an image, and where its parts begin. Who keeps an image keeps these beside it.
#[derive(Clone, Copy)]
pub struct Parts {
    pub(crate) rows: u32,
    /// How many fields each row has.
    pub(crate) fields: u16,
    pub(crate) words: u32,
    /// How many bytes a row has.
    pub(crate) stride: usize,
    pub(crate) marks: usize,
    pub(crate) table: usize,
    pub(crate) dictionary: usize,
    pub(crate) postings: usize,
}

/// The parts of an image.
pub fn parts_of(image: &[u8]) -> Parts
    requires { (rows : List DocRow) × (words : List (List ℕ)) × HaveImage rows words image.now }
    ensures { (rows : List DocRow) (words : List (List ℕ)) → HaveImage rows words image.now → ArePartsOf rows words result }
{
    let rows = u32_in(image, 8);
    let words = u32_in(image, 16);
    let stride = 20 + 8 * u16_in(image, 14) as usize;
    let marks = HEADER + rows as usize * stride;
    let table = marks + u32_in(image, 20) as usize;
    let dictionary = table + words as usize * ENTRY;
    Parts {
        rows,
        fields: u16_in(image, 12),
        words,
        stride,
        marks,
        table,
        dictionary,
        postings: dictionary + u32_in(image, 24) as usize,
    }
}

/// How many attributes each row of an image has. Where there are no rows, it may be any number.
pub fn attrs_of(image: &[u8]) -> u16
    requires { (rows : List DocRow) × (words : List (List ℕ)) × HaveImage rows words image.now }
    ensures { (rows : List DocRow) (words : List (List ℕ)) → HaveImage rows words image.now → All (λ row. length row.doc.values ≡ result) rows }
{
    u16_in(image, 14)
}

impl Parts {
    /// How many rows there are.
    #[inline]
    pub fn rows(self) -> u32
        ensures { result ≡ self.rows }
    {
        self.rows
    }

    /// How many fields each row has.
    #[inline]
    pub fn fields(self) -> u16
        ensures { result ≡ self.fields }
    {
        self.fields
    }

    /// How many different words there are.
    #[inline]
    pub fn words(self) -> u32
        ensures { result ≡ self.words }
    {
        self.words
    }
}
