//! What is done with a list of bits.
ghost use Rattle.std.specs.Prelude.{◌≡◌, ◌≢◌, ◌==◌, ◌+◌, ◌*◌, ◌/◌, ◌<◌, ◌≤◌, ◌^◌, ◌++◌, ◌∷◌, [], ℕ, List, OnOk, length, replicate, slice_index, slice_set, vec_len};
ghost use Rattle.bit_lists.specs.Bits.{bit_in};
ghost use Rattle.bit_lists.specs.BitLists.{bits_of};

use crate::list::BitList;
use srch_base::NoMemory;
use std::alloc::Global;

impl BitList {
    /// No bit.
    pub fn new(alloc: Global) -> BitList
        ensures { bits_of result ≡ [] }
    {
        BitList {
            bytes: Vec::new(alloc),
            count: 0,
        }
    }

    /// How many bits there are.
    #[inline(always)]
    pub fn len(&self) -> usize
        ensures { result ≡ length (bits_of self.now) }
    {
        self.count
    }

    /// The bit of this number is set.
    #[inline(always)]
    pub fn is_set(&self, at: usize) -> bool
        requires { at < length (bits_of self.now) }
        ensures { result ≡ (slice_index (bits_of self.now) at == 1) }
    {
        is_bit_set(self.bytes.as_slice(), at)
    }

    /// Sets the bit of this number.
    #[inline(always)]
    pub fn set(&mut self, at: usize)
        requires { at < length (bits_of self.old) }
        ensures { bits_of self.new ≡ slice_set (bits_of self.old) at 1 }
    {
        set_bit(self.bytes.as_mut_slice(), at);
    }

    /// Appends so many bits that aren't set.
    pub fn grow(&mut self, more: u32) -> Result<(), NoMemory>
        requires { length (bits_of self.old) + more < 2 ^ 60 }
        ensures { OnOk result (bits_of self.new ≡ bits_of self.old ++ replicate more 0) }
    {
        let count = self.count + more as usize;
        widen(&mut self.bytes, count)?;
        self.count = count;
        Ok(())
    }

    /// The number of the first bit that isn't set, or how many bits there are where all are.
    pub fn first_clear(&self) -> usize
        ensures before { (k : ℕ) → k < result → k < length (bits_of self.now) → slice_index (bits_of self.now) k ≡ 1 }
        ensures clear { result < length (bits_of self.now) → slice_index (bits_of self.now) result ≡ 0 }
        ensures within { result ≤ length (bits_of self.now) }
    {
        let bytes = self.bytes.as_slice();
        let mut at = 8 * full_bytes(bytes).min(self.count / 8);
        'bits: while at < self.count && is_bit_set(bytes, at) {
            at += 1;
        }
        at
    }
}

/// The bit of this number is set.
#[inline(always)]
fn is_bit_set(bytes: &[u8], at: usize) -> bool
    requires { at / 8 < length bytes.now }
    ensures { result ≡ (bit_in bytes.now at == 1) }
{
    (bytes[at / 8] >> (at % 8)) & 1 == 1
}

/// Sets the bit of this number.
#[inline(always)]
fn set_bit(bytes: &mut [u8], at: usize)
    requires { at / 8 < length bytes.old }
    ensures own { bit_in bytes.new at ≡ 1 }
    ensures others { (k : ℕ) → k ≢ at → bit_in bytes.new k ≡ bit_in bytes.old k }
{
    bytes[at / 8] |= 1 << (at % 8);
}

/// Makes room for so many bits.
fn widen(bytes: &mut Vec<u8>, count: usize) -> Result<(), NoMemory>
    requires { count < 2 ^ 61 }
    ensures room { OnOk result (count ≤ 8 * vec_len bytes.new) }
    ensures longer { vec_len bytes.old ≤ vec_len bytes.new }
    ensures same { (k : ℕ) → bit_in bytes.new.items k ≡ bit_in bytes.old.items k }
{
    let size = count.div_ceil(8);
    if size > bytes.len() {
        bytes.resize(size, 0)?;
    }
    Ok(())
}

/// How many bytes at the front have all their bits set.
fn full_bytes(bytes: &[u8]) -> usize
    ensures full { (i : ℕ) → i < result → slice_index bytes.now i ≡ 255 }
    ensures within { result ≤ length bytes.now }
{
    let mut full = 0;
    'bytes: while full < bytes.len() && bytes[full] == 255 {
        full += 1;
    }
    full
}
