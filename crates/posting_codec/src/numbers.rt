//! Short numbers: 7 bits a byte, the lowest first, the high bit set on all bytes but the last.
//!
//! ```text
//! 0x01        01
//! 0x7f        7f
//! 0x80        80 01
//! 0x3fff      ff 7f
//! 0xffffffff  ff ff ff ff 0f
//! ```
//!
//! Most numbers of a posting list are small, so most take one byte. A number has one spelling, the shortest: `80 00` spells
//! nothing. So an image of lists is a function of the lists, and two images are compared by their bytes.
//!
//! There are two readers. `read_number` asks whether there is a spelling, for bytes that come from outside. `number_at` is for
//! bytes that were read or made before: its caller shows that there is one, so it looks at each byte once and tests nothing else.
ghost use Rattle.std.specs.Prelude.{◌≡◌, ℕ, ◌+◌, ◌*◌, ◌<◌, ◌≤◌, ◌^◌, ◌++◌, List, length, MatchOption, OnOk, OnErr};
ghost use Rattle.posting_codec.specs.Numbers.{number, spelled, IsNumberAt};
ghost use Rattle.posting_codec.specs.steps.Parts.{IsPart};

use srch_base::NoMemory;

/// Appends the number's spelling, 1 to 5 bytes.
#[inline(always)]
#[tactic(auto, unfolding(crate::specs::Numbers::number))]
pub fn put_number(value: u32, out: &mut Vec<u8>) -> Result<(), NoMemory>
    ensures ok { OnOk result (out.new.items ≡ out.old.items ++ number value) }
    ensures err { OnErr result (out.new.items ≡ out.old.items) }
{
    if value < 128 {
        out.push(value as u8)?;
        Ok(())
    } else {
        put_long(value, out)
    }
}

/// Appends a spelling of 2 to 5 bytes. Out of line, since few numbers have one.
#[inline(never)]
#[tactic(auto, unfolding(crate::specs::Numbers::number))]
fn put_long(value: u32, out: &mut Vec<u8>) -> Result<(), NoMemory>
    requires { 128 ≤ value }
    ensures ok { OnOk result (out.new.items ≡ out.old.items ++ number value) }
    ensures err { OnErr result (out.new.items ≡ out.old.items) }
{
    let a = (value % 128) as u8;
    let b = (value / 128 % 128) as u8;
    let c = (value / 128 / 128 % 128) as u8;
    let d = (value / 128 / 128 / 128 % 128) as u8;
    let e = (value / 128 / 128 / 128 / 128) as u8;
    if value / 128 < 128 {
        out.extend_from_slice(&[128 + a, b])?;
    } else if value / 128 / 128 < 128 {
        out.extend_from_slice(&[128 + a, 128 + b, c])?;
    } else if value / 128 / 128 / 128 < 128 {
        out.extend_from_slice(&[128 + a, 128 + b, 128 + c, d])?;
    } else {
        out.extend_from_slice(&[128 + a, 128 + b, 128 + c, 128 + d, e])?;
    }
    Ok(())
}

/// The number that is spelled at a place, and the place after it. None exactly where no number is: the bytes end too soon, the
/// spelling is a longer one, or the number is above 2^32 - 1.
#[tactic(auto, unfolding(crate::specs::Numbers::number), using(crate::proofs::Spellings::part_of_number, crate::proofs::Spellings::number_of_part))]
pub fn read_number(bytes: &[u8], at: usize) -> Option<(u32, usize)>
    ensures { MatchOption result ((n : ℕ) (rest : List ℕ) → IsNumberAt bytes.now at n rest → ⊥) (λ read. (rest : List ℕ) × IsNumberAt bytes.now at read.0 rest × (read.1 ≡ at + length (number read.0))) }
{
    let (value, end) = read_part(bytes, at, 4)?;
    if value > u64::from(u32::MAX) {
        return None;
    }
    Some((value as u32, end))
}

/// The number of a spelling, or of what is left of one after its first bytes, with so many bytes after the next at most.
fn read_part(bytes: &[u8], at: usize, more: u32) -> Option<(u64, usize)>
    requires { more ≤ 4 }
    ensures { MatchOption result ((n : ℕ) (rest : List ℕ) → IsPart more bytes.now at n rest → ⊥) (λ read. (rest : List ℕ) × IsPart more bytes.now at read.0 rest × (read.1 ≡ at + length (spelled more read.0))) }
{
    let first = *bytes.get(at)?;
    if first < 128 {
        return Some((u64::from(first), at + 1));
    }
    if more == 0 {
        return None;
    }
    let (high, end) = read_part(bytes, at + 1, more - 1)?;
    if high == 0 {
        return None;
    }
    Some((u64::from(first - 128) + 128 * high, end))
}

/// The number that is spelled at a place, and the place after it.
#[inline(always)]
#[tactic(auto, unfolding(crate::specs::Numbers::number))]
pub fn number_at(bytes: &[u8], at: usize) -> (u32, usize)
    requires { (n : ℕ) × (rest : List ℕ) × IsNumberAt bytes.now at n rest }
    ensures { (n : ℕ) (rest : List ℕ) → IsNumberAt bytes.now at n rest → (result.0 ≡ n) × (result.1 ≡ at + length (number n)) }
{
    let first = bytes[at];
    if first < 128 {
        (first as u32, at + 1)
    } else {
        let (high, end) = part_at(bytes, at + 1, 3);
        ((first - 128) as u32 + 128 * high, end)
    }
}

/// The number of what is left of a spelling after its first bytes, with so many bytes after the next at most.
fn part_at(bytes: &[u8], at: usize, more: u32) -> (u32, usize)
    requires few { more < 4 }
    requires part { (n : ℕ) × (rest : List ℕ) × (n < 2 ^ 25) × IsPart more bytes.now at n rest }
    ensures { (n : ℕ) (rest : List ℕ) → IsPart more bytes.now at n rest → (result.0 ≡ n) × (result.1 ≡ at + length (spelled more n)) }
{
    let first = bytes[at];
    if first < 128 {
        (first as u32, at + 1)
    } else {
        let (high, end) = part_at(bytes, at + 1, more - 1);
        ((first - 128) as u32 + 128 * high, end)
    }
}

/// How many bytes the number's spelling takes: 1 to 5.
#[inline]
#[tactic(auto, unfolding(crate::specs::Numbers::number))]
pub fn number_length(value: u32) -> u32
    ensures { result ≡ length (number value) }
{
    if value < 128 {
        1
    } else if value / 128 < 128 {
        2
    } else if value / 128 / 128 < 128 {
        3
    } else if value / 128 / 128 / 128 < 128 {
        4
    } else {
        5
    }
}
