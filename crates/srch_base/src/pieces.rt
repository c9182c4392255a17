ghost use Rattle.std.specs.Prelude.{◌≡◌, filter, nat_lt};
ghost use Rattle.srch_base.specs.Memory.{within_piece, pieces_after};

use std::alloc::AllocError;
use std::marker::Model;

/// The pieces in which bytes are given. Contracts see the lengths of those still to come, none of them 0.
#[derive(Debug, Drop)]
pub(crate) struct Pieces {
    lengths: Vec<u32>,
    first: usize,
}

impl Model for Pieces {
    ghost use Rattle.std.specs.Prelude.{List, ℕ, ◌<◌, drop};
    ghost use Rattle.std.specs.List.{All};

    ghost Value = { List ℕ };

    ghost view = { λ a. drop a.first a.lengths.items };

    ghost invariant = { λ a. All (λ piece. 0 < piece) (drop a.first a.lengths.items) };
}

impl Pieces {
    pub(crate) fn new(mut cuts: Vec<u32>) -> Pieces
        ensures { result ≡ filter (nat_lt 0) cuts.items }
    {
        cuts.retain(|cut| 0 < *cut);
        Pieces {
            lengths: cuts,
            first: 0,
        }
    }

    /// How much of so many bytes lies in the next piece.
    pub(crate) fn within(&self, size: usize) -> usize
        ensures size { result ≡ within_piece self.now size }
        ensures some { result ≡ 0 → size ≡ 0 }
    {
        match self.lengths.get(self.first) {
            Some(length) => size.min(*length as usize),
            None => size,
        }
    }

    /// Takes so many bytes off the next piece.
    pub(crate) fn pass(&mut self, count: usize)
        requires { within_piece self.old count ≡ count }
        ensures { self.new ≡ pieces_after self.old count }
    {
        if self.first < self.lengths.len() {
            let length = self.lengths[self.first];
            self.lengths[self.first] = length - count as u32;
            if length as usize == count {
                self.first += 1;
            }
        }
    }
}

impl Clone for Pieces {
    ghost is_clone = { λ pieces other. other ≡ pieces };

    fn clone(&self) -> Result<Pieces, AllocError> {
        Ok(Pieces {
            lengths: self.lengths.clone()?,
            first: self.first,
        })
    }
}
