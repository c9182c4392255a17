//! The lines that a table spells, the doors that give them, and what was replied over them.
use crate::bytes::{put_all, put_bytes, put_digits};
use crate::table_door::TableDoor;
use crate::turns::TurnLink;
use client_doors::Lent;
use srch_base::MemoryLink;
use std::alloc::Global;
use std::sync::Arc;
use std::sync::atomic::AtomicU32;

/// What is sent over a line: the bytes, the lengths and the turns of the reads that have some, the numbers of the calls that fail, and
/// whether each packet is a read of its own, once those before it were answered.
#[derive(Drop)]
struct Sent {
    input: Vec<u8>,
    cuts: Vec<u32>,
    turns: Vec<u32>,
    failing: Vec<u32>,
    one_by_one: bool,
}

/// Adds the number that is spelled so.
pub(crate) fn add_number(numbers: &mut Vec<u32>, number: &str) -> Option<()> {
    numbers.push(number.parse::<u32>().ok()?).ok()
}

/// Adds the bytes of a read.
fn add_read(alloc: Global, sent: &mut Sent, packet: &str) -> Option<()> {
    let before = sent.input.len();
    put_bytes(alloc, &mut sent.input, packet)?;
    let length = sent.input.len().saturating_sub(before);
    sent.cuts.push(u32::try_from(length).ok()?).ok()
}

/// Adds the bytes of a read that has a turn: the turn, a blank, and the bytes.
fn add_turn(alloc: Global, sent: &mut Sent, packet: &str) -> Option<()> {
    let (turn, packet) = packet.split_once(" ")?;
    add_number(&mut sent.turns, turn)?;
    add_read(alloc, sent, packet)
}

/// Adds a packet: `!N` for a call that fails, `one by one` where those behind it are, or bytes, which behind `@N` are those of a read
/// that has the turn N.
fn add_packet(alloc: Global, sent: &mut Sent, packet: &str) -> Option<()> {
    if let Some(call) = packet.strip_prefix("!") {
        return add_number(&mut sent.failing, call);
    }
    if let Some(packet) = packet.strip_prefix("@") {
        return add_turn(alloc, sent, packet);
    }
    if packet == "one by one" {
        sent.one_by_one = true;
        return Some(());
    }
    if sent.one_by_one {
        return add_read(alloc, sent, packet);
    }
    put_bytes(alloc, &mut sent.input, packet)
}

/// Adds packets with `; ` between.
fn add_packets(alloc: Global, sent: &mut Sent, packets: &str) -> Option<()> {
    for packet in packets.split("; ") {
        add_packet(alloc, sent, packet)?;
    }
    Some(())
}

/// What is sent by these packets.
fn sent_of(alloc: Global, packets: &str) -> Option<Sent> {
    let mut sent = Sent {
        input: Vec::new(alloc),
        cuts: Vec::new(alloc),
        turns: Vec::new(alloc),
        failing: Vec::new(alloc),
        one_by_one: false,
    };
    add_packets(alloc, &mut sent, packets)?;
    sent.turns.reverse();
    Some(sent)
}

/// How many bytes are written once this was replied, and so after each part of it, the last number first.
fn due_of(alloc: Global, reply: &str) -> Option<Vec<usize>> {
    let mut written = Vec::new(alloc);
    let mut due = Vec::new(alloc);
    for part in reply.split("; ") {
        put_bytes(alloc, &mut written, part)?;
        due.push(written.len()).ok()?;
    }
    due.reverse();
    Some(due)
}

/// What is due before the reads of a line: nothing, or of packets that come one by one what is replied to those before.
fn due_before(alloc: Global, one_by_one: bool, reply: &str) -> Option<Vec<usize>> {
    let (replied, _) = ended(reply);
    if one_by_one && !replied.is_empty() {
        due_of(alloc, replied)
    } else {
        Some(Vec::new(alloc))
    }
}

/// The line over which these packets are sent, and this is replied.
fn line_of(
    alloc: Global,
    packets: &str,
    reply: &str,
    now: &Arc<AtomicU32, Global>,
) -> Option<TurnLink> {
    let now = Arc::try_clone(now).ok()?;
    let Sent {
        input,
        cuts,
        turns,
        failing,
        one_by_one,
    } = sent_of(alloc, packets)?;
    Some(TurnLink {
        line: MemoryLink::new(alloc, input, cuts, failing),
        turns,
        mine: None,
        now,
        due: due_before(alloc, one_by_one, reply)?,
        read_faults: 0,
        failed_writes: 0,
    })
}

/// Adds the lines of a door.
fn add_lines(
    alloc: Global,
    lines: &mut Vec<TurnLink>,
    words: &str,
    now: &Arc<AtomicU32, Global>,
) -> Option<()> {
    for line in words.split(" + ") {
        if let Some((packets, reply)) = line.split_once(" => ") {
            lines.push(line_of(alloc, packets, reply, now)?).ok()?;
        }
    }
    Some(())
}

/// A door by its words.
fn door_of(alloc: Global, words: &str, now: &Arc<AtomicU32, Global>) -> Option<TableDoor> {
    let mut lines = Vec::new(alloc);
    add_lines(alloc, &mut lines, words, now)?;
    lines.reverse();
    Some(TableDoor {
        lines,
        lent: Lent::new(),
        back: Vec::new(alloc),
        fails: words == "fails",
        ended: false,
        faults: 0,
    })
}

/// Adds doors with ` / ` between them, but `none`.
fn add_doors(
    alloc: Global,
    doors: &mut Vec<TableDoor>,
    words: &str,
    now: &Arc<AtomicU32, Global>,
) -> Option<()> {
    for door in words.split(" / ") {
        if door != "none" {
            doors.push(door_of(alloc, door, now)?).ok()?;
        }
    }
    Some(())
}

/// Doors by the words of a table: `none`, or doors with ` / ` between them, whose lines take turns with one another.
///
/// A door is `-` without a line, `fails` where it fails at its first call, or its lines with ` + ` between them. A line is its packets
/// with `; ` between, as `add_packet` reads them, ` => ` and what is replied, with `a read fails` or `a write fails` behind it where that
/// ends the line, or `never` where it isn't given.
pub(crate) fn doors_of(alloc: Global, words: &str) -> Option<Vec<TableDoor>> {
    let now = Arc::new(alloc, AtomicU32::new(0)).ok()?;
    let mut doors = Vec::new(alloc);
    add_doors(alloc, &mut doors, words, &now)?;
    Some(doors)
}

/// None where something else than this was written to a line; then what was written is said.
fn is_written(alloc: Global, written: &[u8], wanted: &[u8], said: &mut String) -> Option<()> {
    if written == wanted {
        return Some(());
    }
    said.push_str(" and wrote ").ok()?;
    put_digits(alloc, said, written)?;
    None
}

/// How a line ends: how many reads failed, and how many writes.
type End = (u64, u64);

/// What is replied, and how the line ends then.
fn ended(reply: &str) -> (&str, End) {
    if let Some(replied) = reply.strip_suffix("a read fails") {
        (replied.trim_end_matches("; "), (1, 0))
    } else if let Some(replied) = reply.strip_suffix("a write fails") {
        (replied.trim_end_matches("; "), (0, 1))
    } else {
        (reply, (0, 0))
    }
}

/// None where something else than this reply was written to a line, or it ended in another way.
fn is_replied(alloc: Global, line: &TurnLink, reply: &str, said: &mut String) -> Option<()> {
    let (replied, end) = ended(reply);
    let mut wanted = Vec::new(alloc);
    if put_all(alloc, &mut wanted, replied).is_none()
        || (line.read_faults, line.failed_writes) != end
    {
        return None;
    }
    is_written(alloc, line.line.written(), wanted.as_slice(), said)
}

/// The reply over a line that is given.
fn reply_of(line: &str) -> Option<&str> {
    let (_, reply) = line.split_once(" => ")?;
    if reply == "never" { None } else { Some(reply) }
}

/// None where the lines that came back to a door, or its end, aren't those of its words.
pub(crate) fn is_served(
    alloc: Global,
    words: &str,
    door: &TableDoor,
    said: &mut String,
) -> Option<()> {
    let mut back = door.back.iter();
    for line in words.split(" + ") {
        if let Some(reply) = reply_of(line) {
            is_replied(alloc, back.next()?, reply, said)?;
        }
    }
    let ends = words.contains(" => ") || door.ended == (words == "-");
    if back.next().is_none() && ends {
        Some(())
    } else {
        None
    }
}
