//! Rows, which stand at fixed places, all of one length: id, commit, values, and where the row's marks begin.
ghost use Rattle.std.specs.Prelude.{◌≡◌, ◌+◌, ◌*◌, ◌<◌, ◌≤◌, ◌^◌, ◌==◌, ℕ, List, Some, None, IsSome, IsTrue, length, slice_get};
ghost use Rattle.std.specs.Option.{option_map};
ghost use Rattle.std.specs.List.{position};
ghost use Rattle.doc_types.specs.declared.documents.DocRow.{DocRow};
ghost use Rattle.doc_types.specs.Chunks.{value_at};
ghost use Rattle.image_parts.specs.Images.{ArePartsOf, HaveImage};

use crate::fixed::u64_in;
use crate::parts::{HEADER, Parts};
use doc_types::Value;

impl Parts {
    /// Where the row begins.
    #[inline]
    pub(crate) fn place(self, row: u32) -> usize
        requires { 32 + row * self.stride < 2 ^ 64 }
        ensures { result ≡ 32 + row * self.stride }
    {
        HEADER + row as usize * self.stride
    }

    /// The row's id.
    #[inline]
    pub fn id(self, image: &[u8], row: u32) -> u64
        requires { (rows : List DocRow) × (words : List (List ℕ)) × HaveImage rows words image.now × ArePartsOf rows words self × (row < length rows) }
        ensures { (rows : List DocRow) (words : List (List ℕ)) → HaveImage rows words image.now → ArePartsOf rows words self → option_map (λ found. found.doc.id) (slice_get rows row) ≡ Some result }
    {
        u64_in(image, self.place(row))
    }

    /// The number of the commit that put the row.
    #[inline]
    pub fn born(self, image: &[u8], row: u32) -> u64
        requires { (rows : List DocRow) × (words : List (List ℕ)) × HaveImage rows words image.now × ArePartsOf rows words self × (row < length rows) }
        ensures { (rows : List DocRow) (words : List (List ℕ)) → HaveImage rows words image.now → ArePartsOf rows words self → option_map (λ found. found.born) (slice_get rows row) ≡ Some result }
    {
        u64_in(image, self.place(row) + 8)
    }

    /// The row's value of an attribute.
    #[inline]
    pub fn value(self, image: &[u8], row: u32, attr: u16) -> Value
        requires { (rows : List DocRow) × (words : List (List ℕ)) × HaveImage rows words image.now × ArePartsOf rows words self × IsSome (value_at rows row attr) }
        ensures { (rows : List DocRow) (words : List (List ℕ)) → HaveImage rows words image.now → ArePartsOf rows words self → value_at rows row attr ≡ Some result }
    {
        let number = u64_in(image, self.place(row) + 16 + 8 * attr as usize);
        Value::Whole(number.cast_signed())
    }

    /// Whether an id comes behind those of all rows. So it is with each new document where ids ascend, and one look tells it.
    #[inline]
    fn is_past(self, image: &[u8], id: u64) -> bool
        requires { (rows : List DocRow) × (words : List (List ℕ)) × HaveImage rows words image.now × ArePartsOf rows words self }
        ensures { IsTrue result → (rows : List DocRow) (words : List (List ℕ)) → HaveImage rows words image.now → ArePartsOf rows words self → None ≡ position (λ row. row.doc.id == id) rows }
    {
        if self.rows == 0 {
            return true;
        }
        let last = self.id(image, self.rows - 1);
        last < id
    }

    /// The row of an id, if it is there. It is found by halving, since rows ascend by their ids.
    pub fn find(self, image: &[u8], id: u64) -> Option<u32>
        requires { (rows : List DocRow) × (words : List (List ℕ)) × HaveImage rows words image.now × ArePartsOf rows words self }
        ensures { (rows : List DocRow) (words : List (List ℕ)) → HaveImage rows words image.now → ArePartsOf rows words self → result ≡ position (λ row. row.doc.id == id) rows }
    {
        if self.is_past(image, id) {
            return None;
        }
        let mut low = 0;
        let mut high = self.rows;
        'halves: while low < high {
            let middle = low + (high - low) / 2;
            let found = self.id(image, middle);
            if found == id {
                return Some(middle);
            }
            if found < id {
                low = middle + 1;
            } else {
                high = middle;
            }
        }
        None
    }
}
