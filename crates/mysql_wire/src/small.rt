//! Packets of at most 256 bytes, which lie in the value itself: the greeting, OK, ERR and EOF. They take no memory, so that
//! a server which has none left can still say so. "Protocol::HandshakeV10", "OK_Packet", "ERR_Packet", "EOF_Packet".
ghost use Rattle.std.specs.Prelude.{◌≡◌, ◌+◌, ◌≤◌, [], ◌++◌, length};
ghost use Rattle.mysql_wire.specs.Packets.{packet};
ghost use Rattle.mysql_wire.specs.LengthEncoded.{lenenc};
ghost use Rattle.mysql_wire.specs.Replies.{greeting_payload, ok_payload, err_payload, eof_payload, greeting as greeting_bytes, ok_packet as ok_bytes, err_packet as err_bytes, eof_packet as eof_bytes};

use crate::lengths::spell;
use crate::packets::header;
use arrayvec::ArrayVec;
use std::marker::Model;

/// A packet of at most 256 bytes, which lie in the value itself: making one takes no memory.
///
/// Contracts see it as the list of its bytes.
#[derive(Drop)]
pub struct Small {
    held: ArrayVec<u8, 256>,
}

impl Model for Small {
    ghost use Rattle.std.specs.Prelude.{List, ℕ};

    ghost Value = { List ℕ };

    ghost view = { λ small. small.held.items };
}

impl Small {
    pub fn bytes(&self) -> &[u8]
        ensures value { result.now ≡ self.now }
        ensures fits { length result.now ≤ 256 }
    {
        self.held.as_slice()
    }

    fn empty() -> Small
        ensures { result ≡ [] }
    {
        Small {
            held: ArrayVec::new(),
        }
    }

    fn put(&mut self, piece: &[u8])
        requires { length self.old + length piece.now ≤ 256 }
        ensures { self.new ≡ self.old ++ piece.now }
    {
        let _ = self.held.try_extend_from_slice(piece);
    }
}

#[tactic(auto, unfolding(crate::specs::Packets::packet))]
fn framed(seq: u8, payload: &[u8]) -> Small
    requires { length payload.now ≤ 252 }
    ensures { result ≡ packet seq payload.now }
{
    let mut small = Small::empty();
    small.put(&header(payload.len() as u32, seq));
    small.put(payload);
    small
}

const VERSION: &[u8] = b"\x0a2.2.11-rt1\0";

const SCRAMBLE_BEGINNING: &[u8] = &[1, 2, 3, 4, 5, 6, 7, 8, 0];

const CAPABILITIES: &[u8] = &[
    0x09, 0xa2, 0x21, 0x02, 0x00, 0x0b, 0x00, 0x15, 0, 0, 0, 0, 0, 0, 0, 0, 0, 0,
];

const SCRAMBLE_END: &[u8] = &[9, 10, 11, 12, 13, 14, 15, 16, 17, 18, 19, 20, 0];

const PLUGIN: &[u8] = b"mysql_native_password\0";

/// The packet that opens a line ("Protocol::HandshakeV10"). `connection` is the line's number, which a client shows.
#[tactic(auto, unfolding(crate::specs::Replies::greeting_payload))]
pub fn greeting(connection: u32) -> Small
    ensures { result ≡ greeting_bytes connection }
{
    let mut payload = Small::empty();
    payload.put(VERSION);
    payload.put(&connection.to_le_bytes());
    payload.put(SCRAMBLE_BEGINNING);
    payload.put(CAPABILITIES);
    payload.put(SCRAMBLE_END);
    payload.put(PLUGIN);
    framed(0, payload.bytes())
}

/// "OK_Packet": what a statement without rows is answered. `affected` counts rows, `status` has the server's flags.
#[tactic(auto, unfolding(crate::specs::Replies::ok_payload))]
pub fn ok_packet(seq: u8, affected: u64, status: u16) -> Small
    ensures { result ≡ ok_bytes seq affected status }
{
    let mut payload = Small::empty();
    payload.put(&[0x00]);
    payload.put(spell(affected).as_slice());
    payload.put(spell(0).as_slice());
    payload.put(&status.to_le_bytes());
    payload.put(&[0, 0]);
    framed(seq, payload.bytes())
}

/// "ERR_Packet": a refusal, by the protocol's code, the SQL state and a text in UTF-8.
#[tactic(auto, unfolding(crate::specs::Replies::err_payload))]
pub fn err_packet(seq: u8, code: u16, state: [u8; 5], text: &[u8]) -> Small
    requires { length text.now ≤ 200 }
    ensures { result ≡ err_bytes seq code state text.now }
{
    let mut payload = Small::empty();
    payload.put(&[0xff]);
    payload.put(&code.to_le_bytes());
    payload.put(b"#");
    payload.put(&state);
    payload.put(text);
    framed(seq, payload.bytes())
}

/// "EOF_Packet": what ends a list of columns or of rows.
#[tactic(auto, unfolding(crate::specs::Replies::eof_payload))]
pub fn eof_packet(seq: u8, status: u16) -> Small
    ensures { result ≡ eof_bytes seq status }
{
    let mut payload = Small::empty();
    payload.put(&[0xfe, 0, 0]);
    payload.put(&status.to_le_bytes());
    framed(seq, payload.bytes())
}
