//! Short numbers.
ghost use Rattle.std.specs.Prelude.{◌≡◌, ℕ, ◌+◌, List, length, MatchOption};
ghost use Rattle.posting_codec.specs.Numbers.{number, IsNumberAt};

use posting_codec::read_number;

/// The number at a place, most of which have one byte.
#[inline(always)]
#[tactic(auto, unfolding(posting_codec::specs::Numbers::number), using(posting_codec::proofs::Spellings::number_of_part))]
pub fn short_of(bytes: &[u8], at: usize) -> Option<(u32, usize)>
    ensures { MatchOption result ((n : ℕ) (rest : List ℕ) → IsNumberAt bytes.now at n rest → ⊥) (λ read. (rest : List ℕ) × IsNumberAt bytes.now at read.0 rest × (read.1 ≡ at + length (number read.0))) }
{
    if at < bytes.len() {
        let first = bytes[at];
        if first < 128 {
            return Some((u32::from(first), at + 1));
        }
    }
    read_number(bytes, at)
}
