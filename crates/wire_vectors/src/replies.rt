//! Replies that the program doesn't write: the refusal for want of memory, which was recorded, a number that no column has, and
//! packets behind those of other commands. What it does write is tried on the program.
use mysql_wire::{Cell, err_packet, put_row};
use reply_rows::Replies;
use srch_base::Text;
use std::alloc::Global;

/// The ERR packet for want of memory.
const OUT_OF_MEMORY: &[u8] = b"\x16\0\0\x01\xff\x0d\x04#HY001out of memory";

/// Whether the refusal is these bytes.
fn is_recorded() -> bool {
    err_packet(1, 1037, *b"HY001", b"out of memory").bytes() == OUT_OF_MEMORY
}

/// How a row of a text and two numbers is written.
const THREE_CELLS: &[u8] = b"\x07searchd\x02-1\x28-170141183460469231731687303715884105728";

/// Whether such a row is written so.
fn is_row(alloc: Global) -> Option<bool> {
    let text = Text::from_slice(alloc, b"searchd").ok()?;
    let cells = [Cell::Text(text), Cell::Whole(-1), Cell::Whole(i128::MIN)];
    let mut payload = Vec::new(alloc);
    let is_put = put_row(&cells, &mut payload).is_ok();
    Some(is_put && payload.as_slice() == THREE_CELLS)
}

#[test]
fn cells_are_their_digits_or_their_text(rt: HostRuntime) {
    assert!(rt; is_recorded() && is_row(rt.alloc()) == Some(true));
}

/// OK of three rows and EOF, with another statement after the OK.
const SHORT: &[u8] = b"\x07\0\0\x01\0\x03\0\x0a\0\0\0\x05\0\0\x02\xfe\0\0\x02\0";

/// OK and a refusal, from 255 on.
const REFUSED: &[u8] = b"\x07\0\0\xff\0\0\0\x02\0\0\0\x0b\0\0\0\xff\x28\x04#42000no";

/// Whether replies go on from one another, and begin anew.
fn go_on(alloc: Global) -> Option<bool> {
    let mut replies = Replies::new(alloc, 1).ok()?;
    replies.put_ok(3, 10);
    replies.put_eof(2);
    let is_short = replies.bytes() == SHORT;
    replies.begin(255);
    replies.put_ok(0, 2);
    replies.put_error(1064, *b"42000", b"no");
    Some(is_short && replies.is_refused() && replies.bytes() == REFUSED)
}

#[test]
fn replies_go_on_from_one_another_and_begin_anew(rt: HostRuntime) {
    assert!(rt; go_on(rt.alloc()) == Some(true));
}
