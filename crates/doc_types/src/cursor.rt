//! How far a reader of a chunk has come in the rows of a word.
ghost use Rattle.std.specs.Prelude.{◌≡◌};
ghost use Rattle.doc_types.specs.Chunks.{row_of};

/// In the place of a row's number: there is none. No chunk has so many rows.
pub const NO_ROW: u32 = 0xffff_ffff;

/// A place among the rows of a chunk that have a word. It is plain data, and means something to its chunk alone: how, each
/// kind of chunk says.
#[derive(Clone, Copy, Debug, PartialEq, Eq)]
pub struct Cursor {
    /// Which word of the chunk it goes over, from 0.
    pub word: u32,
    /// Where the chunk keeps what it knows of the next row.
    pub at: u32,
    /// The next row that has the word, or `NO_ROW` where none is left.
    pub index: u32,
}

impl Cursor {
    /// The next row that has the word, if one is left.
    #[inline]
    pub fn next_row(&self) -> Option<u32>
        ensures { result ≡ row_of self.now.index }
    {
        if self.index == NO_ROW {
            None
        } else {
            Some(self.index)
        }
    }
}
