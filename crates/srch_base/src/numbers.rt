//! Number fields: 2, 4 or 8 bytes, the low byte first.
//!
//! ```text
//! 0x0201      01 02
//! 0x06050403  03 04 05 06
//! ```
//!
//! A reader looks at one place of some bytes, and answers none where the field isn't whole there. A writer appends.
ghost use Rattle.std.specs.Prelude.{◌≡◌, ◌++◌, OnOk, OnErr};
ghost use Rattle.std.specs.Int.{w16, w32, w64, to_le_bytes};
ghost use Rattle.srch_base.specs.Numbers.{field_at};

use crate::NoMemory;

/// The number of 2 bytes at a place, the low byte first. None exactly where the field isn't whole.
pub fn u16_at(bytes: &[u8], at: usize) -> Option<u16>
    ensures { result ≡ field_at 2 bytes.now at }
{
    let field = bytes.get(at..)?.first_chunk::<2>()?;
    Some(u16::from_le_bytes(*field))
}

/// The number of 4 bytes at a place, the low byte first. None exactly where the field isn't whole.
pub fn u32_at(bytes: &[u8], at: usize) -> Option<u32>
    ensures { result ≡ field_at 4 bytes.now at }
{
    let field = bytes.get(at..)?.first_chunk::<4>()?;
    Some(u32::from_le_bytes(*field))
}

/// The number of 8 bytes at a place, the low byte first. None exactly where the field isn't whole.
pub fn u64_at(bytes: &[u8], at: usize) -> Option<u64>
    ensures { result ≡ field_at 8 bytes.now at }
{
    let field = bytes.get(at..)?.first_chunk::<8>()?;
    Some(u64::from_le_bytes(*field))
}

/// Appends the number's 2 bytes, the low byte first.
pub fn put_u16(value: u16, out: &mut Vec<u8>) -> Result<(), NoMemory>
    ensures ok { OnOk result (out.new.items ≡ out.old.items ++ to_le_bytes w16 value) }
    ensures err { OnErr result (out.new.items ≡ out.old.items) }
{
    out.extend_from_slice(&value.to_le_bytes())?;
    Ok(())
}

/// Appends the number's 4 bytes, the low byte first.
pub fn put_u32(value: u32, out: &mut Vec<u8>) -> Result<(), NoMemory>
    ensures ok { OnOk result (out.new.items ≡ out.old.items ++ to_le_bytes w32 value) }
    ensures err { OnErr result (out.new.items ≡ out.old.items) }
{
    out.extend_from_slice(&value.to_le_bytes())?;
    Ok(())
}

/// Appends the number's 8 bytes, the low byte first.
pub fn put_u64(value: u64, out: &mut Vec<u8>) -> Result<(), NoMemory>
    ensures ok { OnOk result (out.new.items ≡ out.old.items ++ to_le_bytes w64 value) }
    ensures err { OnErr result (out.new.items ≡ out.old.items) }
{
    out.extend_from_slice(&value.to_le_bytes())?;
    Ok(())
}
