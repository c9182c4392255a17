//! Length-encoded numbers: one byte below 251, else `fc`, `fd` or `fe` and two, three or eight bytes, the low one first. A
//! writer takes the shortest spelling, a reader takes any. "Protocol::LengthEncodedInteger".
ghost use Rattle.std.specs.Prelude.{◌≡◌, ◌+◌, ◌<◌, ◌≤◌, ◌++◌, length, option_map, OnOk, OnErr, vec_len, vec_capacity};
ghost use Rattle.mysql_wire.specs.LengthEncoded.{lenenc};
ghost use Rattle.mysql_wire.specs.steps.NumberFronts.{lenenc_front};

use arrayvec::ArrayVec;
use srch_base::{NoMemory, u16_at, u64_at};

/// The shortest spelling of a number.
#[tactic(auto, unfolding(crate::specs::LengthEncoded::lenenc))]
pub(crate) fn spell(value: u64) -> ArrayVec<u8, 9>
    ensures value { result.items ≡ lenenc value }
    ensures short { length (lenenc value) ≤ 9 }
{
    let bytes = value.to_le_bytes();
    if value < 251 {
        spelled(&[bytes[0]])
    } else if value < 1 << 16 {
        spelled(&[0xfc, bytes[0], bytes[1]])
    } else if value < 1 << 24 {
        spelled(&[0xfd, bytes[0], bytes[1], bytes[2]])
    } else {
        let [a, b, c, d, e, f, g, h] = bytes;
        spelled(&[0xfe, a, b, c, d, e, f, g, h])
    }
}

fn spelled(bytes: &[u8]) -> ArrayVec<u8, 9>
    requires { length bytes.now ≤ 9 }
    ensures { result.items ≡ bytes.now }
{
    let mut spelling = ArrayVec::new();
    let _ = spelling.try_extend_from_slice(bytes);
    spelling
}

/// Appends the shortest spelling of a number ("Protocol::LengthEncodedInteger").
pub fn put_lenenc(value: u64, out: &mut Vec<u8>) -> Result<(), NoMemory>
    ensures ok { OnOk result (out.new.items ≡ out.old.items ++ lenenc value) }
    ensures err { OnErr result (out.new.items ≡ out.old.items) }
    ensures full { OnErr result (vec_capacity out.old < vec_len out.old + length (lenenc value)) }
    ensures capacity { vec_capacity out.old ≤ vec_capacity out.new }
{
    out.extend_from_slice(spell(value).as_slice())?;
    Ok(())
}

/// A length-encoded number, and what is after it.
pub(crate) fn split_lenenc(bytes: &[u8]) -> Option<(u64, &[u8])>
    ensures { option_map (λ split. (split.0, split.1.now)) result ≡ lenenc_front bytes.now }
{
    let (first, rest) = bytes.split_first()?;
    match *first {
        0..=0xfa => Some((u64::from(*first), rest)),
        0xfc => {
            let number = u16_at(rest, 0)?;
            Some((u64::from(number), &rest[2..]))
        }
        0xfd => {
            let ([a, b, c], rest) = rest.split_first_chunk::<3>()?;
            Some((u64::from(u32::from_le_bytes([*a, *b, *c, 0])), rest))
        }
        0xfe => {
            let number = u64_at(rest, 0)?;
            Some((number, &rest[8..]))
        }
        _ => None,
    }
}
