//! Places in an image as its tables write them.
ghost use Rattle.std.specs.Prelude.{◌≡◌, length};
ghost use Rattle.std.specs.Int.{w32, to_le_bytes};

/// How many places 32 bits tell apart.
const PLACES: usize = 4_294_967_296;

/// The low 32 bits of the place at the end of some bytes, which is all that a table writes of it. In an image it is the place itself;
/// of one that is too long only the length is told, which the places have no part in.
#[inline]
pub(crate) fn low_place(bytes: &Vec<u8>) -> u32
    ensures { to_le_bytes w32 result ≡ to_le_bytes w32 (length bytes.now.items) }
{
    (bytes.len() % PLACES) as u32
}
