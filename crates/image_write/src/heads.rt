//! The first bytes of a word as a number. Most words differ there, so most comparisons of words are of two numbers.
ghost use Rattle.std.specs.Prelude.{◌≡◌, ◌+◌, ◌-◌, ◌*◌, ◌/◌, ◌^◌, ◌<◌, ◌≤◌, drop, length, slice_index_or, take};
ghost use Rattle.image_write.specs.Heads.{HasBytes, IsRead, eighth, ending, followed, head, rank, tells};

/// The byte behind those that have a head's numbers wholly.
const EIGHTH: usize = 7;

/// The greatest byte that is too low to be told as the eighth.
const LOW: u64 = 47;

/// The number of the bytes that are too high for that.
const HIGH: u64 = 123;

/// The first seven bytes of a word, the first one highest, with 0 for each that it doesn't have, and lowest how it goes on: the
/// number of its bytes where they are no more than these, or else a number of the eighth byte, which is even where that byte is a
/// digit, a letter or another one near to them, and no byte follows.
///
/// Of two words the one with the smaller number stands before the other. Two words with one number are equal where its lowest byte
/// is below 8 or even; others may differ.
#[inline]
#[tactic(auto, using(crate::proofs::Beginnings::eight, crate::proofs::Beginnings::eight_bytes))]
pub fn head_of(word: &[u8]) -> u64
    ensures is { result ≡ head word.now }
    ensures bytes { IsRead word.now }
{
    let high = four_of(
        byte_of(word, 0),
        byte_of(word, 1),
        byte_of(word, 2),
        byte_of(word, 3),
    );
    let low = four_of(
        byte_of(word, 4),
        byte_of(word, 5),
        byte_of(word, 6),
        ending_of(word),
    );
    high * 4_294_967_296 + low
}

/// The head of the word of so many bytes that stands at a place of longer bytes. Mostly eight bytes stand there, which are read at
/// once, and what lies behind the word is cut off: so no branch hangs on how long a short word is.
#[inline]
pub fn head_in(bytes: &[u8], at: usize, size: usize) -> u64
    requires { at + size ≤ length bytes.now }
    ensures is { result ≡ head (take size (drop at bytes.now)) }
    ensures bytes { IsRead (take size (drop at bytes.now)) }
{
    if 0 < size && size <= EIGHTH && EIGHTH < bytes.len() - at {
        front_of(eight_at(bytes, at), size) + size as u64
    } else {
        head_of(&bytes[at..at + size])
    }
}

/// The bytes of a number from the highest one on, so many, and 0 for the others.
#[inline]
fn front_of(number: u64, size: usize) -> u64
    requires { (1 ≤ size) × (size ≤ 7) }
    ensures { result ≡ number / 2 ^ (64 - 8 * size) * 2 ^ (64 - 8 * size) }
{
    let others = 64 - 8 * size as u32;
    number >> others << others
}

/// The eight bytes at a place as a number, the first one highest.
#[inline]
fn eight_at(bytes: &[u8], at: usize) -> u64
    requires { at + 8 ≤ length bytes.now }
    ensures is { result ≡ followed 8 0 (drop at bytes.now) }
    ensures bytes { HasBytes 8 (drop at bytes.now) }
{
    let eight = &bytes[at..at + 8];
    let high = four_of(
        u64::from(eight[0]),
        u64::from(eight[1]),
        u64::from(eight[2]),
        u64::from(eight[3]),
    );
    let low = four_of(
        u64::from(eight[4]),
        u64::from(eight[5]),
        u64::from(eight[6]),
        u64::from(eight[7]),
    );
    high * 4_294_967_296 + low
}

/// Whether a head tells its word.
#[inline]
pub fn tells(head: u64) -> bool
    ensures { result ≡ tells head }
{
    head % 256 < 8 || head % 2 == 0
}

/// How a word goes on behind its first seven bytes.
#[inline]
#[tactic(auto, using(crate::proofs::Endings::ends, crate::proofs::Endings::goes_on))]
fn ending_of(word: &[u8]) -> u64
    ensures is { result ≡ ending (length word.now) (drop 7 word.now) }
    ensures small { result < 256 }
{
    match word.get(EIGHTH) {
        None => word.len() as u64,
        Some(byte) => eighth_of(word.len() > EIGHTH + 1, *byte),
    }
}

/// A number of the eighth byte, and of whether more follow. It is even where it tells both.
#[inline]
fn eighth_of(more: bool, byte: u8) -> u64
    ensures is { result ≡ eighth more byte }
    ensures small { result < 256 }
{
    let rank = rank_of(byte);
    if !more && 0 < rank && rank < HIGH {
        8 + 2 * rank
    } else {
        9 + 2 * rank
    }
}

/// A byte as one of 124 numbers.
#[inline]
fn rank_of(byte: u8) -> u64
    ensures is { result ≡ rank byte }
    ensures small { result ≤ 123 }
{
    u64::from(byte).saturating_sub(LOW).min(HIGH)
}

/// Four bytes as a number, the first one highest.
#[inline]
fn four_of(a: u64, b: u64, c: u64, d: u64) -> u64
    requires { (a < 256) × (b < 256) × (c < 256) × (d < 256) }
    ensures is { result ≡ a * 16777216 + b * 65536 + c * 256 + d }
    ensures small { result < 4294967296 }
{
    a * 16_777_216 + b * 65_536 + c * 256 + d
}

/// The byte at a place, or 0 behind the word's end.
#[inline]
fn byte_of(word: &[u8], at: usize) -> u64
    ensures is { result ≡ slice_index_or word.now at 0 }
    ensures small { result < 256 }
{
    match word.get(at) {
        Some(byte) => u64::from(*byte),
        None => 0,
    }
}
