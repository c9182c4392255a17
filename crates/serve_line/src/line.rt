//! A connection: the greeting, the client's response, and then one command a packet and its reply, until the connection ends.
//!
//! A command's bytes are copied twice at most: from the buffer that is read into to the framer, and once more where a part
//! of a packet moves to the front. A command takes no memory here, whatever its answer takes. After a packet or a reply of
//! more than 65,536 bytes the connection gives its memory back. "Connection Lifecycle" of the protocol.
ghost use Rattle.std.specs.Prelude.{◌≡◌, ◌<◌, suc, ℕ, List, [], None, IfOk, OnOk, vec_len};
ghost use Rattle.srch_base.specs.Moves.{Moves};
ghost use Rattle.mysql_wire.specs.Framing.{IsFresh};
ghost use Rattle.serve_line.specs.Machines.{FollowAll};
ghost use Rattle.serve_line.specs.Line.{Opened, Greeted, Talking, IsLine, Ends, most_commands};
ghost use Rattle.serve_line.specs.steps.Serving.{Goes};

use crate::Answerer;
use crate::packets::{Shaken, Taken, take_command, take_response};
use crate::reading::fill;
use crate::refusals::{bad_handshake, out_of_order, too_large};
use crate::writing::{out_of_memory, refuse, send};
use mysql_wire::{Framer, greeting, ok_packet};
use reply_rows::Replies;
use srch_base::{Link, NoMemory};
use std::alloc::Global;

/// How many commands one connection may send.
const COMMANDS: u64 = 1 << 32;

/// The size of the buffer that is read into, in bytes.
const READING: usize = 16_384;

/// How a connection ended.
#[derive(Clone, Copy, PartialEq, Eq)]
pub enum LinkEnd {
    /// COM_QUIT.
    Quit,
    /// The input ended between packets.
    End,
    /// The input ended inside a packet.
    Truncated,
    /// The first packet is no response to the greeting: `place` is the offset of the field that is wrong.
    BadHandshake { place: u32 },
    /// A header gives a payload above 8,388,608 bytes.
    TooLarge { length: u32 },
    /// A header has another sequence number than the one that comes next.
    OutOfOrder { seq: u8 },
    /// Reading failed.
    ReadFault,
    /// Writing failed.
    WriteFault,
    /// 2^32 commands were answered.
    Worn,
    /// Memory for reading was refused while less than a whole packet was held.
    NoMemory,
}

/// What serving one connection needs beside the session and the documents.
#[derive(Drop)]
struct Room {
    framer: Framer,
    buffer: Vec<u8>,
    replies: Replies,
    ghost readable: { vec_len buffer ≡ 16384 },
}

impl Room {
    fn new(alloc: Global) -> Result<Room, NoMemory>
        ensures { IfOk result (λ room. IsFresh room.framer) }
    {
        Ok(Room {
            framer: Framer::new(alloc)?,
            buffer: vec![in alloc; 0; READING]?,
            replies: Replies::new(alloc, 1)?,
        })
    }
}

/// Serves one connection from the greeting to its end. `connection` is the number that the greeting shows.
///
/// The packets before a read that failed are answered. What the store took stays, however the connection ends.
pub fn serve<A: Answerer, K: Link>(
    alloc: Global,
    answerer: &mut A,
    store: &mut A::Store,
    connection: u32,
    link: &mut K,
) -> LinkEnd
    requires { A.fits answerer.old store.old }
    ensures { Moves K.Link link.old link.new (λ before now read written.
        (events : List A.Event) × IsLine A.machine connection answerer.old before now read written result events × FollowAll A.follows store.old events store.new) }
{
    match greet(answerer, connection, link) {
        Ok(()) => {}
        Err(end) => return end,
    }
    match Room::new(alloc) {
        Ok(mut room) => converse(alloc, answerer, store, link, &mut room),
        Err(NoMemory) => out_of_memory(link, 2),
    }
}

/// Writes the greeting.
fn greet<A: Answerer, K: Link>(answerer: &A, connection: u32, link: &mut K) -> Result<(), LinkEnd>
    ensures { Moves K.Link link.old link.new (λ before now read written.
        Goes A.machine before now result (Opened connection answerer.now) [] read written [] (Greeted answerer.now) []) }
{
    send(link, greeting(connection).bytes())
}

/// Goes from the greeting to the end of the connection.
fn converse<A: Answerer, K: Link>(
    alloc: Global,
    answerer: &mut A,
    store: &mut A::Store,
    link: &mut K,
    room: &mut Room,
) -> LinkEnd
    requires good { room.old.framer.refused ≡ None }
    requires fits { A.fits answerer.old store.old }
    ensures { Moves K.Link link.old link.new (λ before now read written.
        (events : List A.Event) × Ends A.machine before now result (Greeted answerer.old) room.old.framer.held read written events × FollowAll A.follows store.old events store.new) }
{
    match shake(answerer, link, room) {
        Ok(()) => {}
        Err(end) => return end,
    }
    'commands: for _ in 0..COMMANDS {
        match turn(alloc, answerer, store, link, room) {
            Ok(()) => {}
            Err(end) => return end,
        }
    }
    LinkEnd::Worn
}

/// Takes the response to the greeting.
fn shake<A: Answerer, K: Link>(answerer: &A, link: &mut K, room: &mut Room) -> Result<(), LinkEnd>
    requires good { room.old.framer.refused ≡ None }
    ensures moves { Moves K.Link link.old link.new (λ before now read written.
        Goes A.machine before now result (Greeted answerer.now) room.old.framer.held read written [] (Talking answerer.now 0) room.new.framer.held) }
    ensures good { OnOk result (room.new.framer.refused ≡ None) }
{
    match fill(&mut room.framer, &mut room.buffer, link, 1) {
        Ok(()) => {}
        Err(end) => return Err(end),
    }
    match take_response(&mut room.framer) {
        Shaken::Accepted => send(link, ok_packet(2, 0, answerer.status()).bytes()),
        Shaken::Bad { place } => Err(refuse(
            link,
            &bad_handshake(place),
            LinkEnd::BadHandshake { place },
        )),
        Shaken::TooLarge { length, seq } => {
            Err(refuse(link, &too_large(seq), LinkEnd::TooLarge { length }))
        }
        Shaken::OutOfOrder { seq } => {
            Err(refuse(link, &out_of_order(seq), LinkEnd::OutOfOrder { seq }))
        }
    }
}

/// Reads and answers one command.
fn turn<A: Answerer, K: Link>(
    alloc: Global,
    answerer: &mut A,
    store: &mut A::Store,
    link: &mut K,
    room: &mut Room,
) -> Result<(), LinkEnd>
    requires good { room.old.framer.refused ≡ None }
    requires fits { A.fits answerer.old store.old }
    ensures moves { Moves K.Link link.old link.new (λ before now read written.
        (events : List A.Event)
        × ((answered : ℕ) → answered < most_commands → Goes A.machine before now result (Talking answerer.old answered) room.old.framer.held read written events (Talking answerer.new (suc answered)) room.new.framer.held)
        × FollowAll A.follows store.old events store.new) }
    ensures good { OnOk result (room.new.framer.refused ≡ None) }
    ensures fits { A.fits answerer.new store.new }
{
    match fill(&mut room.framer, &mut room.buffer, link, 0) {
        Ok(()) => {}
        Err(end) => return Err(end),
    }
    room.replies.begin(1);
    match take_command(alloc, answerer, store, &mut room.framer, &mut room.replies) {
        Taken::Reply => send(link, room.replies.bytes()),
        Taken::Quit => Err(LinkEnd::Quit),
        Taken::TooLarge { length, seq } => {
            Err(refuse(link, &too_large(seq), LinkEnd::TooLarge { length }))
        }
        Taken::OutOfOrder { seq } => {
            Err(refuse(link, &out_of_order(seq), LinkEnd::OutOfOrder { seq }))
        }
    }
}
