//! Short numbers in a row, at places where they are known to be.
ghost use Rattle.std.specs.Prelude.{◌≡◌, ◌≤◌, ℕ, List, ◌∷◌, length, drop};
ghost use Rattle.image_parts.specs.steps.Reading.{AreNumbersAt};

use posting_codec::number_at;

/// The number at a place, and the place behind it.
#[inline]
pub(crate) fn next_number(bytes: &[u8], at: usize) -> (u32, usize)
    requires { (n : ℕ) × (others : List ℕ) × AreNumbersAt bytes.now at (n ∷ others) }
    ensures { (n : ℕ) (others : List ℕ) → AreNumbersAt bytes.now at (n ∷ others) → (result.0 ≡ n) × AreNumbersAt bytes.now result.1 others }
{
    number_at(bytes, at)
}

/// The place behind so many numbers.
pub(crate) fn behind_numbers(bytes: &[u8], at: usize, count: u32) -> usize
    requires { (numbers : List ℕ) × AreNumbersAt bytes.now at numbers × (count ≤ length numbers) }
    ensures { (numbers : List ℕ) → AreNumbersAt bytes.now at numbers → count ≤ length numbers → AreNumbersAt bytes.now result (drop count numbers) }
{
    let mut place = at;
    'numbers: for _ in 0..count {
        place = next_number(bytes, place).1;
    }
    place
}
