//! Writing whole packets over a link, and the packets with which a connection ends. A link may take a part of what it is given:
//! the rest is then written next, until all of it is, and a write that takes nothing counts as one that failed. No memory
//! is taken.
ghost use Rattle.std.specs.Prelude.{◌≡◌, ◌⊎◌, []};
ghost use Rattle.srch_base.specs.Counts.{Rose};
ghost use Rattle.srch_base.specs.Moves.{Moves, IsCut};
ghost use Rattle.srch_base.specs.steps.Writing.{WritesAll};
ghost use Rattle.serve_line.specs.Line.{no_room};
ghost use Rattle.serve_line.specs.steps.Serving.{RefusesWith, SaysNoRoom, Sends};

use crate::LinkEnd;
use mysql_wire::{Small, err_packet};
use srch_base::{Failed, Link};

/// Writes all the bytes, in as many writes as the link takes.
pub(crate) fn write_all<K: Link>(link: &mut K, bytes: &[u8]) -> Result<(), Failed>
    ensures { Moves K.Link link.old link.new (WritesAll result bytes.now) }
{
    let mut done = 0;
    'pieces: while done < bytes.len() {
        match link.write(&bytes[done..]) {
            Ok(0) => return Err(Failed),
            Ok(count) => done += count,
            Err(failed) => return Err(failed),
        }
    }
    Ok(())
}

/// Writes all the bytes. The connection ends where that fails.
pub(crate) fn send<K: Link>(link: &mut K, bytes: &[u8]) -> Result<(), LinkEnd>
    ensures { Moves K.Link link.old link.new (Sends result bytes.now) }
{
    match write_all(link, bytes) {
        Ok(()) => Ok(()),
        Err(Failed) => Err(LinkEnd::WriteFault),
    }
}

/// Writes the packet of a refusal, with which the connection ends.
pub(crate) fn refuse<K: Link>(link: &mut K, refusal: &Small, end: LinkEnd) -> LinkEnd
    ensures { Moves K.Link link.old link.new (RefusesWith result refusal.now end) }
{
    match write_all(link, refusal.bytes()) {
        Ok(()) => end,
        Err(Failed) => LinkEnd::WriteFault,
    }
}

/// Says that memory for reading was refused, where the link takes it. `seq` is the number of the packet.
pub(crate) fn out_of_memory<K: Link>(link: &mut K, seq: u8) -> LinkEnd
    ensures end { result ≡ LinkEnd.NoMemory }
    ensures moves { Moves K.Link link.old link.new (SaysNoRoom seq) }
{
    let refusal = err_packet(seq, 1037, *b"HY001", b"out of memory");
    match write_all(link, refusal.bytes()) {
        Ok(()) | Err(Failed) => LinkEnd::NoMemory,
    }
}
