//! Packets out of a stream of bytes that comes in any pieces ("MySQL Packets" of the protocol).
//!
//! A packet is a length of three bytes, the low one first, a sequence byte, and the payload:
//!
//! ```text
//! 05 00 00  00  03 73 65 74 20
//! length    seq payload
//! ```
//!
//! The bytes that were taken stay at the front of the buffer until they are at least half of it, and are then dropped at
//! once: each byte moves once for that, so a stream costs time in proportion to its bytes, whatever its packets' sizes.
ghost use Rattle.std.specs.Prelude.{◌≡◌, ◌+◌, ◌≤◌, ◌<◌, ◌++◌, ◌↔◌, [], None, length, drop, vec_len, IsTrue, IfOk, OnOk, OnErr};
ghost use Rattle.mysql_wire.specs.steps.Heads.{IsHead, refusal_answer};

use srch_base::NoMemory;
use std::alloc::Global;
use std::marker::Model;

/// The longest payload that is read, in bytes.
const MAX_PAYLOAD: u32 = 8_388_608;

/// The memory that a framer keeps once the packets that needed more are gone, in bytes.
const KEPT: usize = 65_536;

/// What a framer answers.
#[derive(Clone, Copy, PartialEq, Eq)]
pub enum Next<'a> {
    /// The bytes held are less than a whole packet.
    NeedMore,
    /// The next packet, which the framer holds no longer.
    Packet { seq: u8, payload: &'a [u8] },
    /// A header says a longer payload than is read.
    TooLarge { length: u32, seq: u8 },
    /// A packet has another sequence number than the one expected.
    OutOfOrder { seq: u8 },
}

/// Why a stream of packets is read no further.
#[derive(Clone, Copy, PartialEq, Eq)]
pub enum Refusal {
    TooLarge { length: u32, seq: u8 },
    OutOfOrder { seq: u8 },
}

/// Cuts a stream of bytes, which comes in any pieces, into its packets ("MySQL Packets" of the protocol).
///
/// A contract sees the bytes held, and why nothing is read any more. Over its life a framer moves each byte a constant
/// number of times, however many packets a piece holds, and a packet takes no memory.
#[derive(Drop)]
pub struct Framer {
    /// The packets that were taken, up to `start`, and then the bytes held.
    bytes: Vec<u8>,
    start: usize,
    refused: Option<Refusal>,
}

impl Model for Framer {
    ghost use Rattle.std.specs.Prelude.{◌≤◌, ◌-◌, length, drop, vec_len, vec_capacity};
    ghost use Rattle.mysql_wire.specs.Framing.{Stream};

    ghost Value = { Stream };

    ghost view = { λ f. record { held = drop f.start f.bytes.items; refused = f.refused; room = vec_capacity f.bytes - vec_len f.bytes } };

    ghost invariant = { λ f. f.start ≤ length f.bytes.items };
}

impl Framer {
    ghost use Rattle.std.specs.Borrow.{sem};
    ghost use Rattle.mysql_wire.specs.Framing.{Answers, HoldsMore, IsFresh, Waits};
    ghost use Rattle.mysql_wire.specs.Lending.{LeavesFramer};

    /// A framer at the beginning of a stream.
    pub fn new(alloc: Global) -> Result<Framer, NoMemory>
        ensures { IfOk result IsFresh }
    {
        Ok(Framer {
            bytes: Vec::new(alloc),
            start: 0,
            refused: None,
        })
    }

    /// How many bytes are held.
    pub fn held(&self) -> usize
        ensures { result ≡ length self.now.held }
    {
        self.bytes.len() - self.start
    }

    /// Takes memory for this many more bytes, so that feeding them takes none. What a large packet took is given back.
    pub fn reserve(&mut self, count: usize) -> Result<(), NoMemory>
        ensures same { HoldsMore self.old [] self.new }
        ensures room { OnOk result (count ≤ self.new.room) }
    {
        if self.bytes.len() <= 2 * self.start {
            drop_front(&mut self.bytes, self.start);
            self.start = 0;
            self.bytes.shrink_to(KEPT);
        }
        self.bytes.reserve(count)?;
        Ok(())
    }

    /// Takes the next bytes of the stream. It fails only where they don't fit into the room that is there.
    pub fn feed(&mut self, piece: &[u8]) -> Result<(), NoMemory>
        requires { length self.old.held + length piece.now ≤ 16777216 }
        ensures ok { OnOk result (HoldsMore self.old piece.now self.new) }
        ensures err { OnErr result (HoldsMore self.old [] self.new) }
        ensures full { OnErr result (self.old.room < length piece.now) }
    {
        if self.bytes.capacity() - self.bytes.len() < piece.len() {
            self.reserve(piece.len())?;
        }
        self.bytes.extend_from_slice(piece)?;
        Ok(())
    }

    /// Whether `next` would answer `NeedMore`. Then a piece of up to 8,388,605 bytes may be fed.
    pub fn needs_more(&self, expect: u8) -> bool
        ensures waits { IsTrue result ↔ Waits expect self.now }
        ensures few { IsTrue result → length self.now.held < 8388612 }
    {
        if self.refused.is_some() {
            return false;
        }
        matches!(read_head(expect, &self.bytes[self.start..]), Head::Part)
    }

    /// The next packet, where it is whole, has the sequence number expected, and is within the limit.
    ///
    /// A refusal comes as soon as the four bytes of a header are there, and is answered for ever after.
    pub fn next(&mut self, expect: u8) -> Next<'_>
        ensures* leaves { sem 𝓛 (LeavesFramer self.entry expect result) }
        ensures answers { Answers expect self.old result }
    {
        if let Some(refusal) = self.refused {
            return refuse(refusal);
        }
        match read_head(expect, &self.bytes[self.start..]) {
            Head::Part => Next::NeedMore,
            Head::Whole(size) => {
                let from = self.start + 4;
                let to = from + size;
                self.start = to;
                Next::Packet {
                    seq: expect,
                    payload: &self.bytes[from..to],
                }
            }
            Head::Refused(refusal) => {
                self.refused = Some(refusal);
                refuse(refusal)
            }
        }
    }
}

/// What bytes begin with.
#[derive(Clone, Copy)]
enum Head {
    Part,
    /// A packet with a payload of this many bytes.
    Whole(usize),
    Refused(Refusal),
}

fn read_head(expect: u8, held: &[u8]) -> Head
    ensures { IsHead expect held.now result }
{
    let [a, b, c, seq, payload @ ..] = held else {
        return Head::Part;
    };
    let length = u32::from_le_bytes([*a, *b, *c, 0]);
    if length > MAX_PAYLOAD {
        return Head::Refused(Refusal::TooLarge { length, seq: *seq });
    }
    if *seq != expect {
        return Head::Refused(Refusal::OutOfOrder { seq: *seq });
    }
    if payload.len() < length as usize {
        return Head::Part;
    }
    Head::Whole(length as usize)
}

fn refuse(refusal: Refusal) -> Next<'static>
    ensures { result ≡ refusal_answer refusal }
{
    match refusal {
        Refusal::TooLarge { length, seq } => Next::TooLarge { length, seq },
        Refusal::OutOfOrder { seq } => Next::OutOfOrder { seq },
    }
}

/// Takes bytes off the front. The cost is that of moving the others.
fn drop_front(bytes: &mut Vec<u8>, count: usize)
    requires { count ≤ vec_len bytes.old }
    ensures { bytes.new.items ≡ drop count bytes.old.items }
{
    let rest = bytes.len() - count;
    bytes.copy_within(count.., 0);
    bytes.truncate(rest);
}
