//! Reading over a link until a packet is whole. The room for a read is taken before the link is read, so that bytes that
//! were read are never dropped, and want of memory is met only while less than a whole packet is held.
ghost use Rattle.std.specs.Prelude.{◌≡◌, ◌<◌, ◌≤◌, None, OnOk, length};
ghost use Rattle.srch_base.specs.Moves.{Moves};
ghost use Rattle.mysql_wire.specs.Framing.{Waits};
ghost use Rattle.serve_line.specs.steps.Serving.{Feeds, Fills};

use crate::LinkEnd;
use crate::writing::out_of_memory;
use mysql_wire::Framer;
use srch_base::{Failed, Link, NoMemory};

/// Reads until the framer holds a whole packet or something to refuse. `expect` is the packet's number.
pub(crate) fn fill<K: Link>(
    framer: &mut Framer,
    buffer: &mut [u8],
    link: &mut K,
    expect: u8,
) -> Result<(), LinkEnd>
    requires good { framer.old.refused ≡ None }
    requires some { 0 < length buffer.old }
    requires few { length buffer.old ≤ 65536 }
    requires number { expect < 255 }
    ensures moves { Moves K.Link link.old link.new (Fills result expect framer.old.held framer.new.held) }
    ensures good { framer.new.refused ≡ None }
    ensures whole { OnOk result (Waits expect framer.new → ⊥) }
{
    'reads: while framer.needs_more(expect) {
        match framer.reserve(buffer.len()) {
            Ok(()) => {}
            Err(NoMemory) => return Err(out_of_memory(link, expect + 1)),
        }
        match read_more(framer, buffer, link) {
            Ok(()) => {}
            Err(end) => return Err(end),
        }
    }
    Ok(())
}

/// Reads once, and gives the bytes to the framer, which has room for them.
fn read_more<K: Link>(framer: &mut Framer, buffer: &mut [u8], link: &mut K) -> Result<(), LinkEnd>
    requires few { length framer.old.held < 8388612 }
    requires some { 0 < length buffer.old }
    requires fits { length buffer.old ≤ 65536 }
    requires room { length buffer.old ≤ framer.old.room }
    ensures moves { Moves K.Link link.old link.new (Feeds result framer.old.held framer.new.held) }
    ensures refused { framer.new.refused ≡ framer.old.refused }
{
    match link.read(buffer) {
        Err(Failed) => Err(LinkEnd::ReadFault),
        Ok(0) if framer.held() == 0 => Err(LinkEnd::End),
        Ok(0) => Err(LinkEnd::Truncated),
        Ok(count) => match framer.feed(&buffer[..count]) {
            Ok(()) => Ok(()),
            Err(NoMemory) => unreachable!(),
        },
    }
}
