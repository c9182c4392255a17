//! Fields of bytes, read from left to right: the layouts of files are built of these.
//!
//! A reader takes its field off the front of some bytes and gives its value with the bytes after it. Where the field isn't
//! whole, it gives how many bytes are left; so no place has to be handed down, and who reads a whole file makes a place of it.
#![tactic(auto)]

ghost use Rattle.std.specs.Int.{w16, w32, w64};
ghost use Rattle.byte_fields.specs.Fields.{Gives, byte_at, number_at, piece_at};

use srch_base::Or;

/// The byte at the front.
#[inline]
pub fn byte_of(bytes: &[u8]) -> Result<(u8, &[u8]), Or<usize>>
    ensures { Gives (λ x. (x.0, x.1.now)) result (byte_at bytes.now) }
{
    match bytes {
        [] => Err(Or::Fault(0)),
        [byte, rest @ ..] => Ok((*byte, rest)),
    }
}

/// So many bytes at the front.
#[inline]
pub fn piece_of(bytes: &[u8], size: usize) -> Result<(&[u8], &[u8]), Or<usize>>
    ensures { Gives (λ x. (x.0.now, x.1.now)) result (piece_at size bytes.now) }
{
    if bytes.len() < size {
        return Err(Or::Fault(bytes.len()));
    }
    Ok(bytes.split_at(size))
}

/// The number of 2 bytes at the front, the low byte first.
#[inline]
pub fn u16_of(bytes: &[u8]) -> Result<(u16, &[u8]), Or<usize>>
    ensures { Gives (λ x. (x.0, x.1.now)) result (number_at w16 bytes.now) }
{
    if bytes.len() < 2 {
        return Err(Or::Fault(bytes.len()));
    }
    let (front, rest) = bytes.split_at(2);
    Ok((u16::from_le_bytes([front[0], front[1]]), rest))
}

/// The number of 4 bytes at the front, the low byte first.
#[inline]
pub fn u32_of(bytes: &[u8]) -> Result<(u32, &[u8]), Or<usize>>
    ensures { Gives (λ x. (x.0, x.1.now)) result (number_at w32 bytes.now) }
{
    if bytes.len() < 4 {
        return Err(Or::Fault(bytes.len()));
    }
    let (front, rest) = bytes.split_at(4);
    let number = u32::from_le_bytes([front[0], front[1], front[2], front[3]]);
    Ok((number, rest))
}

/// The number of 8 bytes at the front, the low byte first.
#[inline]
pub fn u64_of(bytes: &[u8]) -> Result<(u64, &[u8]), Or<usize>>
    ensures { Gives (λ x. (x.0, x.1.now)) result (number_at w64 bytes.now) }
{
    if bytes.len() < 8 {
        return Err(Or::Fault(bytes.len()));
    }
    let (front, rest) = bytes.split_at(8);
    let number = u64::from_le_bytes([
        front[0], front[1], front[2], front[3], front[4], front[5], front[6], front[7],
    ]);
    Ok((number, rest))
}
