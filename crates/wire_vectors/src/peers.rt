//! What reads and writes move that are interrupted before, and that the fault after it is told: clauses say how much may be moved
//! and that no interruption is told, and leave open whether it is what the peer moved. All values are worked out by hand.
ghost use Rattle.std.specs.Prelude.{◌≤◌, IfOk};

use client_doors::retrying;
use std::io::{self, ErrorKind, Read, Write};

/// Is interrupted twice, then moves two bytes, and then fails.
struct Peer {
    calls: u32,
}

impl Peer {
    fn call(&mut self, most: usize) -> io::Result<usize>
        ensures { IfOk result (λ n. n ≤ most) }
    {
        self.calls = self.calls.saturating_add(1);
        match self.calls {
            1 | 2 => Err(io::Error::from(ErrorKind::Interrupted)),
            3 => Ok(most.min(2)),
            _ => Err(io::Error::from(ErrorKind::BrokenPipe)),
        }
    }
}

impl Read for Peer {
    fn read(&mut self, into: &mut [u8]) -> io::Result<usize> {
        self.call(into.len())
    }
}

impl Write for Peer {
    fn write(&mut self, piece: &[u8]) -> io::Result<usize> {
        self.call(piece.len())
    }

    fn flush(&mut self) -> io::Result<()> {
        Ok(())
    }
}

/// What two reads give, the first two bytes and then the fault, and how many calls they took.
fn reads() -> (Option<usize>, Option<usize>, u32) {
    let mut peer = Peer { calls: 0 };
    let mut into = [0u8; 4];
    let first = retrying::read(&mut peer, &mut into).ok();
    let second = retrying::read(&mut peer, &mut into).ok();
    let Peer { calls } = peer;
    (first, second, calls)
}

/// The same of two writes.
fn writes() -> (Option<usize>, Option<usize>, u32) {
    let mut peer = Peer { calls: 0 };
    let first = retrying::write(&mut peer, b"abcd").ok();
    let second = retrying::write(&mut peer, b"cd").ok();
    let Peer { calls } = peer;
    (first, second, calls)
}

#[test]
fn two_bytes_are_taken_before_a_fault(rt: HostRuntime) {
    assert!(rt; [reads(), writes()] == [(Some(2), None, 4); 2]);
}
