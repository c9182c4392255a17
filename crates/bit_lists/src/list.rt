//! A list of bits.
ghost use Rattle.std.specs.Prelude.{◌≡◌, ◌*◌, ◌≤◌, ℕ, vec_len};
ghost use Rattle.bit_lists.specs.Bits.{bit_in};

/// Bits; `bits_of` is the list of them, each 0 or 1.
#[derive(Drop)]
pub struct BitList {
    pub(crate) bytes: Vec<u8>,
    pub(crate) count: usize,
    ghost room: { count ≤ 8 * vec_len bytes },
    ghost clear: { (k : ℕ) → count ≤ k → bit_in bytes.items k ≡ 0 },
}
