//! What a chunk hands out of its bytes.
ghost use Rattle.std.specs.Prelude.{◌≡◌, ◌<◌, ℕ, List, IsSome, Some, All, length, slice_get};
ghost use Rattle.std.specs.Option.{option_map};
ghost use Rattle.doc_types.specs.Chunks.{first_place, hits_ahead, next_row, rows_with};
ghost use Rattle.chunk_image.specs.ChunkImage.{word_postings};
ghost use Rattle.image_write.specs.Heads.{IsRead, head};
ghost use Rattle.posting_codec.specs.HitLists.{hit_list};
ghost use Rattle.chunk_image.specs.Marks.{row_marks};
ghost use Rattle.image_join.specs.JoinedImages.{HasImageLength};

use doc_types::{Chunk, Cursor};

/// A chunk whose hit lists and marks can be copied as bytes.
pub trait CopyBytes: Chunk {
    /// How many attributes each row has. Where there are no rows, it may be any number.
    fn attrs(&self) -> u16
        ensures { All (λ row. length row.doc.values ≡ result) (Self.content self.now) };

    /// How many bytes its image takes: what is copied of it takes no more.
    fn size(&self) -> usize
        ensures { HasImageLength (Self.content self.now) result };

    /// A cursor before all rows that have the word of this number.
    fn start_at(&self, n: u32) -> Cursor
        requires { n < length (Self.words_of self.now) }
        ensures belongs { Self.belongs self.now result }
        ensures first { option_map (λ word. first_place word (Self.content self.now)) (slice_get (Self.words_of self.now) n) ≡ Some (Self.place self.now result) };

    /// The bytes of the posting list of the word of this number.
    fn list_bytes(&self, n: u32) -> &[u8]
        requires { n < length (Self.words_of self.now) }
        ensures { (word : List ℕ) → slice_get (Self.words_of self.now) n ≡ Some word → result.now ≡ word_postings (Self.content self.now) word };

    /// How many rows have the word of this number.
    fn count_at(&self, n: u32) -> u32
        requires { n < length (Self.words_of self.now) }
        ensures { (word : List ℕ) → slice_get (Self.words_of self.now) n ≡ Some word → result ≡ length (rows_with word (Self.content self.now)) };

    /// The head of the word of this number.
    fn head_at(&self, n: u32) -> u64
        requires { n < length (Self.words_of self.now) }
        ensures is { (word : List ℕ) → slice_get (Self.words_of self.now) n ≡ Some word → result ≡ head word }
        ensures bytes { (word : List ℕ) → slice_get (Self.words_of self.now) n ≡ Some word → IsRead word };

    /// A cursor before some of the last rows that have the word of this number, at least one. How many they are isn't said: the
    /// fewer, the sooner the last one is found.
    fn near_end(&self, n: u32) -> Cursor
        requires { n < length (Self.words_of self.now) }
        ensures belongs { Self.belongs self.now result }
        ensures word { (word : List ℕ) → slice_get (Self.words_of self.now) n ≡ Some word → (Self.place self.now result).word ≡ word }
        ensures some { IsSome (next_row (Self.place self.now result)) };

    /// The bytes of the word's hit list in the next row that has it.
    fn hit_bytes(&self, cursor: &Cursor) -> &[u8]
        requires belongs { Self.belongs self.now cursor.now }
        requires left { IsSome (next_row (Self.place self.now cursor.now)) }
        ensures { result.now ≡ hit_list (hits_ahead (Self.content self.now) (Self.place self.now cursor.now)) };

    /// The bytes of the row's marks.
    fn marks_of(&self, row: u32) -> &[u8]
        requires { row < length (Self.content self.now) }
        ensures { option_map row_marks (slice_get (Self.content self.now) row) ≡ Some result.now };
}
