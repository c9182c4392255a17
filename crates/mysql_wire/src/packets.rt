//! Packets as they are written: the four bytes of a header, and the payload. What is appended is whole or not there.
ghost use Rattle.std.specs.Prelude.{◌≡◌, ◌+◌, ◌^◌, ◌<◌, ◌≤◌, [], ◌∷◌, ◌++◌, length, take, IfOk, OnOk, OnErr, vec_len, vec_capacity};
ghost use Rattle.std.specs.Int.{w32, to_le_bytes};
ghost use Rattle.mysql_wire.specs.Packets.{packet, sequence_after};

use srch_base::NoMemory;

/// The four bytes before a payload.
pub(crate) fn header(size: u32, seq: u8) -> [u8; 4]
    ensures { result ≡ take 3 (to_le_bytes w32 size) ++ seq ∷ [] }
{
    let [low, middle, high, _] = size.to_le_bytes();
    [low, middle, high, seq]
}

/// Appends a packet, and gives the sequence number of the packet after it.
#[tactic(auto, unfolding(crate::specs::Packets::packet))]
pub fn put_packet(seq: u8, payload: &[u8], out: &mut Vec<u8>) -> Result<u8, NoMemory>
    requires { length payload.now < 16777215 }
    ensures next { IfOk result (λ next. next ≡ sequence_after seq (payload.now ∷ [])) }
    ensures ok { OnOk result (out.new.items ≡ out.old.items ++ packet seq payload.now) }
    ensures err { OnErr result (out.new.items ≡ out.old.items) }
    ensures full { OnErr result (vec_capacity out.old < vec_len out.old + 4 + length payload.now) }
    ensures capacity { vec_capacity out.old ≤ vec_capacity out.new }
{
    out.reserve(4 + payload.len())?;
    out.extend_from_slice(&header(payload.len() as u32, seq))?;
    out.extend_from_slice(payload)?;
    Ok(seq.wrapping_add(1))
}
