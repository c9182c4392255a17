//! A connection of which everything is known beforehand: the bytes that it gives, how they are cut into reads, and which of
//! its calls fail. So a test can cut a session after each byte, and let each call fail in turn.
ghost use Rattle.std.specs.Prelude.{◌≡◌, ◌≤◌, ◌+◌, ◌==◌, length, IsErr, IsTrue, IfOk, is_err};
ghost use Rattle.std.specs.Bool.{OnTrue};
ghost use Rattle.std.specs.List.{list_any};
ghost use Rattle.srch_base.specs.Counts.{HasCause};
ghost use Rattle.srch_base.specs.Told.{then_bytes, moved_by};
ghost use Rattle.srch_base.specs.Memory.{memory_over, memory_read, memory_written, one_more, fails_next, next_size, after_read, after_write};

use crate::pieces::Pieces;
use crate::{Failed, Link};
use std::alloc::{AllocError, Global};
use std::marker::Model;

/// A link over bytes in memory, which records all that went over it. It is for tests and for trying things out.
///
/// Its reads and writes are counted together from 1, and those whose numbers it was given fail: they move nothing, and
/// raise the count of their direction. A write takes all of its bytes. It fails as well where no memory is left for them.
///
/// Contracts see it as a `Memory`.
#[derive(Debug, Drop)]
pub struct MemoryLink {
    input: Vec<u8>,
    at: usize,
    pieces: Pieces,
    failing: Vec<u32>,
    calls: u64,
    written: Vec<u8>,
    ended: bool,
    read_faults: u64,
    write_faults: u64,
}

impl Model for MemoryLink {
    ghost use Rattle.std.specs.Prelude.{◌≡◌, ◌≤◌, length};
    ghost use Rattle.std.specs.Bool.{OnTrue};
    ghost use Rattle.srch_base.specs.Memory.{Memory};

    ghost Value = { Memory };

    ghost view = { λ a. record {
      input = a.input.items;
      at = a.at;
      pieces = a.pieces;
      failing = a.failing.items;
      calls = a.calls;
      written = a.written.items;
      ended = a.ended;
      read_faults = a.read_faults;
      write_faults = a.write_faults;
    } };

    ghost invariant = { λ a. (a.at ≤ length a.input.items) × OnTrue a.ended (a.at ≡ length a.input.items) };
}

impl MemoryLink {
    /// A link whose reads give `input` in pieces of the lengths `cuts`, a 0 among them left out, and then whole.
    ///
    /// A read gives as much of its piece as fits into the buffer, and the next reads give the rest of it. The calls with
    /// the numbers `failing` fail.
    pub fn new(alloc: Global, input: Vec<u8>, cuts: Vec<u32>, failing: Vec<u32>) -> MemoryLink
        ensures { result ≡ memory_over input.items cuts.items failing.items }
    {
        MemoryLink {
            input,
            at: 0,
            pieces: Pieces::new(cuts),
            failing,
            calls: 0,
            written: Vec::new(alloc),
            ended: false,
            read_faults: 0,
            write_faults: 0,
        }
    }

    /// All that was written so far.
    pub fn written(&self) -> &[u8]
        ensures { result.now ≡ self.now.written }
    {
        self.written.as_slice()
    }
}

impl Link for MemoryLink {
    ghost read_bytes = { memory_read };

    ghost written_bytes = { memory_written };

    ghost input_ended = { λ m. m.ended };

    ghost read_faults = { λ m. m.read_faults };

    ghost write_faults = { λ m. m.write_faults };

    /// Fails exactly where this call's number is one of those. Otherwise it moves what the piece, the input and `into` allow.
    fn read(&mut self, into: &mut [u8]) -> Result<usize, Failed>
        ensures fails { is_err result ≡ fails_next self.old }
        ensures size { IfOk result (λ n. n ≡ next_size self.old (length into.old)) }
        ensures after { self.new ≡ after_read self.old (length into.old) result }
        ensures whole { OnTrue self.new.ended (self.new.at ≡ length self.new.input) }
        ensures reads { memory_read self.new ≡ then_bytes (memory_read self.old) (moved_by result into.new) }
        ensures cause { HasCause self.old.read_faults self.new.read_faults result }
    {
        if next_fails(&mut self.calls, self.failing.as_slice()) {
            self.read_faults = self.read_faults.saturating_add(1);
            return Err(Failed);
        }
        let left = &self.input[self.at..];
        let count = self.pieces.within(left.len().min(into.len()));
        into[..count].copy_from_slice(&left[..count]);
        self.at += count;
        self.pieces.pass(count);
        self.ended = self.ended || count == 0 && !into.is_empty();
        Ok(count)
    }

    /// Fails where this call's number is one of those, or memory is refused. Otherwise it takes the whole piece.
    fn write(&mut self, piece: &[u8]) -> Result<usize, Failed>
        ensures fails { IsTrue (fails_next self.old) → IsErr result }
        ensures size { IfOk result (λ n. n ≡ length piece.now) }
        ensures after { self.new ≡ after_write self.old piece.now result }
        ensures cause { HasCause self.old.write_faults self.new.write_faults result }
    {
        let fails = next_fails(&mut self.calls, self.failing.as_slice());
        if fails || self.written.extend_from_slice(piece).is_err() {
            self.write_faults = self.write_faults.saturating_add(1);
            return Err(Failed);
        }
        Ok(piece.len())
    }
}

/// Counts one more call, and says whether it is one of those that fail.
fn next_fails(calls: &mut u64, failing: &[u32]) -> bool
    ensures answer { result ≡ list_any (λ number. number == calls.old + 1) failing.now }
    ensures count { calls.new ≡ one_more calls.old }
{
    let call = u128::from(*calls) + 1;
    *calls = calls.saturating_add(1);
    failing.iter().any(|number| u128::from(*number) == call)
}

impl Clone for MemoryLink {
    ghost is_clone = { λ link other. other ≡ link };

    fn clone(&self) -> Result<MemoryLink, AllocError> {
        Ok(MemoryLink {
            input: self.input.clone()?,
            at: self.at,
            pieces: self.pieces.clone()?,
            failing: self.failing.clone()?,
            calls: self.calls,
            written: self.written.clone()?,
            ended: self.ended,
            read_faults: self.read_faults,
            write_faults: self.write_faults,
        })
    }
}
