//! The framer: fronts of streams with what is answered to them, and that a refusal is answered again, whatever follows it; the
//! program ends a connection at the first one. All answers are worked out by the protocol's documentation and the limit of
//! 8,388,608 bytes.
use mysql_wire::{Framer, Next};
use std::alloc::Global;

/// A part of a header or of a packet, a packet above 8,388,608 bytes, a sequence number out of order.
const FRONTS: [(&[u8], Next<'static>); 5] = [
    (&[1, 0, 0x80], Next::NeedMore),
    (&[0, 0, 0x80, 0], Next::NeedMore),
    (
        &[1, 0, 0x80, 0],
        Next::TooLarge {
            length: 8_388_609,
            seq: 0,
        },
    ),
    (&[1, 0, 0, 1], Next::OutOfOrder { seq: 1 }),
    (&[1, 0, 0, 1, 0x0e], Next::OutOfOrder { seq: 1 }),
];

/// Feeds a piece of bytes.
fn feed(framer: &mut Framer, piece: &[u8]) -> Option<()> {
    if framer.held() > 1000 || piece.len() > 1000 {
        return None;
    }
    framer.feed(piece).ok()
}

/// Whether a framer answers a front so, and a refusal again after more bytes.
fn answers(framer: &mut Framer, front: &[u8], want: &Next<'_>) -> Option<bool> {
    feed(framer, front)?;
    let is_answered = framer.next(0) == *want;
    feed(framer, b"more bytes")?;
    Some(is_answered && (*want == Next::NeedMore || framer.next(1) == *want))
}

/// Whether new framers do.
fn are_answered(alloc: Global) -> Option<bool> {
    let mut are_answered = true;
    for (front, want) in &FRONTS {
        let is_answered = answers(&mut Framer::new(alloc).ok()?, front, want) == Some(true);
        are_answered = are_answered && is_answered;
    }
    Some(are_answered)
}

#[test]
fn headers_are_refused_for_ever(rt: HostRuntime) {
    assert!(rt; are_answered(rt.alloc()) == Some(true));
}
