//! Links and doors over memory: the pieces in which a link gives its input, the calls that fail, and the lines that come
//! back to a door. All values are worked out by hand.
use srch_base::{Door, Failed, Link, ListDoor, MemoryLink};
use std::alloc::Global;

/// The pieces of a link over `abcdef`, its calls that fail, the room of each read, and what the reads give, one after the other:
/// the bytes or `failed`, with `|` between them.
const READS: [(&[u32], &[u32], usize, &str); 6] = [
    (&[], &[], 10, "abcdef||"),
    (&[2, 0, 3], &[], 10, "ab|cde|f|"),
    (&[4], &[], 3, "abc|d|ef|"),
    (&[9], &[], 4, "abcd|ef|"),
    (&[0, 3], &[1, 3], 10, "failed|abc|failed|def|"),
    (&[], &[2], 0, "|failed|"),
];

/// The link of a row.
fn link_of(alloc: Global, cuts: &[u32], failing: &[u32]) -> Option<MemoryLink> {
    let input = Vec::from_slice(alloc, b"abcdef").ok()?;
    let cuts = Vec::from_slice(alloc, cuts).ok()?;
    let failing = Vec::from_slice(alloc, failing).ok()?;
    Some(MemoryLink::new(alloc, input, cuts, failing))
}

/// Whether one read into so much room gives that.
fn gives(link: &mut MemoryLink, room: usize, wanted: &str) -> Option<bool> {
    let mut buffer = [0; 16];
    let into = buffer.get_mut(..room)?;
    match link.read(into) {
        Ok(count) => Some(into.get(..count)? == wanted.as_bytes()),
        Err(Failed) => Some(wanted == "failed"),
    }
}

/// Whether the reads into so much room give that, one after the other.
fn reads(mut link: MemoryLink, room: usize, wanted: &str) -> bool {
    let mut are_given = true;
    for piece in wanted.split("|") {
        are_given = are_given && gives(&mut link, room, piece) == Some(true);
    }
    are_given
}

/// Whether the link of each row gives what the row wants.
fn all_read(alloc: Global) -> Option<bool> {
    let mut are_given = true;
    for (cuts, failing, room, wanted) in &READS {
        are_given = reads(link_of(alloc, cuts, failing)?, *room, wanted) && are_given;
    }
    Some(are_given)
}

#[test]
fn a_memory_link_reads_in_its_pieces(rt: HostRuntime) {
    assert!(rt; all_read(rt.alloc()) == Some(true));
}

/// Whether a link whose second call fails takes what is written by the others.
fn takes(link: &mut MemoryLink) -> bool {
    link.write(b"ab") == Ok(2)
        && link.write(b"cd") == Err(Failed)
        && link.write(b"") == Ok(0)
        && link.write(b"e") == Ok(1)
}

/// Whether that was written to a link, and to its copy.
fn has_written(link: &MemoryLink) -> Option<bool> {
    let copy = link.clone().ok()?;
    Some(copy.written() == b"abe".as_slice() && link.written() == b"abe".as_slice())
}

/// Whether such a link has what was written.
fn all_taken(alloc: Global) -> Option<bool> {
    let mut link = link_of(alloc, &[], &[2])?;
    Some(takes(&mut link) && has_written(&link) == Some(true))
}

/// A door of one line, which it gave and has back with a word written.
fn door_after_bye(alloc: Global) -> Option<ListDoor> {
    let mut lines = Vec::new(alloc);
    lines.push(link_of(alloc, &[], &[])?).ok()?;
    let mut door = ListDoor::new(alloc, lines).ok()?;
    let Ok(Some(mut line)) = door.next() else {
        return None;
    };
    line.write(b"bye").ok()?;
    door.done(line);
    Some(door)
}

/// Whether a door gives no further line, and has one back with what was written.
fn has_one_line(door: &mut ListDoor) -> Option<bool> {
    let is_last = door.next().ok()?.is_none();
    let returned = door.returned().first()?;
    Some(is_last && returned.written() == b"bye".as_slice())
}

/// Whether that door has its line back.
fn comes_back(alloc: Global) -> Option<bool> {
    has_one_line(&mut door_after_bye(alloc)?)
}

#[test]
fn links_take_what_is_written(rt: HostRuntime) {
    assert!(rt; all_taken(rt.alloc()) == Some(true));
}

#[test]
fn links_come_back(rt: HostRuntime) {
    assert!(rt; comes_back(rt.alloc()) == Some(true));
}
