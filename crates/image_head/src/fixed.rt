//! Numbers of 2, 4 and 8 bytes at a place, the low byte first.
ghost use Rattle.std.specs.Prelude.{◌≡◌, ◌+◌, ◌≤◌, length};
ghost use Rattle.chunk_damage.specs.Header.{eight_in, four_in, two_in};

/// The number of 2 bytes at a place.
#[inline(always)]
pub(crate) fn u16_in(bytes: &[u8], at: usize) -> u16
    requires { at + 2 ≤ length bytes.now }
    ensures { result ≡ two_in bytes.now at }
{
    let field = &bytes[at..at + 2];
    u16::from_le_bytes([field[0], field[1]])
}

/// The number of 4 bytes at a place.
#[inline(always)]
pub(crate) fn u32_in(bytes: &[u8], at: usize) -> u32
    requires { at + 4 ≤ length bytes.now }
    ensures { result ≡ four_in bytes.now at }
{
    let field = &bytes[at..at + 4];
    u32::from_le_bytes([field[0], field[1], field[2], field[3]])
}

/// The number of 8 bytes at a place.
#[inline(always)]
pub(crate) fn u64_in(bytes: &[u8], at: usize) -> u64
    requires { at + 8 ≤ length bytes.now }
    ensures { result ≡ eight_in bytes.now at }
{
    let field = &bytes[at..at + 8];
    u64::from_le_bytes([
        field[0], field[1], field[2], field[3], field[4], field[5], field[6], field[7],
    ])
}
