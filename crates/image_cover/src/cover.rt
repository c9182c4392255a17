//! The places that are taken.
//!
//! Each position of each row is to be a hit of one word, or a boundary's. One bit a position tells whether it is taken, and one number
//! which row is the first in which one was taken twice; a bit of each row's own, set from the beginning, is taken by what stands at
//! no position. So all is well where all bits are set and no row is noted.
ghost use Rattle.std.specs.Prelude.{◌≡◌, ◌<◌, length};
ghost use Rattle.bit_lists.specs.BitLists.{bits_of};
ghost use Rattle.image_cover.specs.Covers.{seen};
ghost use Rattle.image_cover.specs.Places.{take_place, with_row};

use bit_lists::BitList;

/// The places that are taken, and the least row in which one was taken twice, or 2^32 - 1 where none was.
#[derive(Drop)]
pub struct Cover {
    pub taken: BitList,
    pub least: u32,
}

impl Cover {
    /// Notes a row in which something is wrong.
    #[inline(always)]
    pub fn note(&mut self, row: u32)
        ensures taken { bits_of self.new.taken ≡ bits_of self.old.taken }
        ensures least { self.new.least ≡ with_row self.old.least row }
    {
        if row < self.least {
            self.least = row;
        }
    }

    /// Takes a place of a row.
    #[inline(always)]
    pub fn take(&mut self, row: u32, at: usize)
        requires { at < length (bits_of self.old.taken) }
        ensures { seen self.new ≡ take_place (seen self.old) (row, at) }
    {
        if self.taken.is_set(at) {
            self.note(row);
        } else {
            self.taken.set(at);
        }
    }
}
