//! The packets that refuse what a client sent, after which the connection ends.
ghost use Rattle.std.specs.Prelude.{◌≡◌};
ghost use Rattle.serve_line.specs.Line.{bad_handshake_packet, too_large_packet, out_of_order_packet};

use arrayvec::ArrayVec;
use itoa::Buffer;
use mysql_wire::{Small, err_packet};

/// The response to the greeting has a field that is wrong at this place.
pub(crate) fn bad_handshake(place: u32) -> Small
    ensures { result ≡ bad_handshake_packet place }
{
    let mut digits = Buffer::new();
    let mut text = ArrayVec::<u8, 64>::new();
    let _ = text.try_extend_from_slice(b"bad handshake at ");
    let _ = text.try_extend_from_slice(digits.format(place).as_bytes());
    err_packet(2, 1043, *b"08S01", &text)
}

/// A packet is too long. `seq` is its number.
pub(crate) fn too_large(seq: u8) -> Small
    ensures { result ≡ too_large_packet seq }
{
    let seq = seq.wrapping_add(1);
    err_packet(seq, 1153, *b"08S01", b"packet above 8388608 bytes")
}

/// A packet has another number than the one expected. `seq` is the one that it has.
pub(crate) fn out_of_order(seq: u8) -> Small
    ensures { result ≡ out_of_order_packet seq }
{
    let seq = seq.wrapping_add(1);
    err_packet(seq, 1156, *b"08S01", b"packet out of order")
}
