//! Readers in threads of their own beside a writer. A clause says of each read that its snapshot is the last one of what the token
//! has seen from then on; that the copies which the writer changes meanwhile are read whole is tried here.
ghost use Rattle.std.specs.Prelude.{◌≡◌, []};
ghost use Rattle.step_line.specs.Lines.{new_line};
ghost use Rattle.step_line.specs.Tallies.{new_tally};

use crate::writing::{
    NewLines, Tallies, is_after, new_lines, open_line, open_tallies, token, write,
};
use std::alloc::Global;
use std::marker::Brand;
use std::sync::Wait;
use std::thread::{Threads, for_each_mut, join};
use step_book::Naming;
use step_line::Line;
use step_tokens::{Note, Token, learn, snapshot};

/// How many steps the writer publishes.
const STEPS: u64 = 10_000;

/// How often a reader reads at most, so that it ends also where the writer begins after it.
const MOST_READS: u64 = 500_000;

/// How many threads read.
const READERS: usize = 3;

/// A reader: its token, and how many of its reads were wrong.
#[derive(Drop)]
struct Reader<J: Naming> {
    token: Token<J>,
    wrong: u64,
}

impl<J: Naming> Reader<J> {
    /// Reads once: what it finds is whole, and no earlier than what it found before.
    fn read(&mut self) {
        let before = self.token.len();
        let right = match snapshot(&mut self.token) {
            Ok(found) => before <= self.token.len() && is_after(&found, self.token.len()),
            Err(_) => false,
        };
        if !right {
            self.wrong = self.wrong.saturating_add(1);
        }
    }

    /// Reads until the writer is done, or often enough.
    fn read_on(&mut self) {
        for _ in 0..MOST_READS {
            if self.token.len() >= STEPS {
                return;
            }
            self.read();
        }
    }

    /// Whether the reader finds the last snapshot once it was told of the history.
    fn finds(&mut self, note: &Note<J>) -> bool {
        if note.index() != self.token.index() {
            return false;
        }
        learn(&mut self.token, note);
        let told = self.token.len();
        self.read();
        told == STEPS && self.token.len() == STEPS && self.wrong == 0
    }
}

/// A reader for each worker of the line.
fn readers<J: Naming>(alloc: Global, line: &Line<J>, tallies: &Tallies<J>) -> Option<Vec<Reader<J>>>
    requires { (line.now ≡ new_line 0 3) × (tallies.now.faults ≡ new_tally 0 3) × (tallies.now.stops ≡ new_tally 0 3) }
{
    let mut readers = Vec::new(alloc);
    for worker in 1..4 {
        let token = token(line, tallies, worker)?;
        readers.push(Reader { token, wrong: 0 }).ok()?;
    }
    Some(readers)
}

/// Readers beside a writer, and then each of them with a note. Whether each found what it was to find.
fn beside<J: Naming + Send + Sync, R: Threads + Wait + Sync>(
    rt: &R,
    alloc: Global,
    line: &mut Line<J>,
    readers: &mut [Reader<J>],
) -> bool {
    // The writing end stays in this thread.
    let ((), written) = join(
        rt,
        || {
            for_each_mut(
                rt,
                readers,
                READERS,
                &|_: usize, reader: &mut Reader<J>| reader.read_on(),
            )
        },
        || write(rt, alloc, line, STEPS).is_some(),
    );
    let note = line.note();
    let mut all = written;
    for reader in readers {
        if !reader.finds(&note) {
            all = false;
        }
    }
    all
}

/// Whether the readers of a new line find what they are to find.
fn read_beside<J: Naming + Send + Sync, R: Threads + Wait + Sync>(
    rt: &R,
    alloc: Global,
    opened: NewLines,
) -> bool
    requires book { opened.steps.past.seen.book ≡ J.book 0 }
    requires faults { opened.faults.past.seen.book ≡ J.faults 0 }
    requires stops { opened.stops.past.seen.book ≡ J.stops 0 }
    requires base { (J.base 0).opening ≡ record { number = 0; shape = 0; layers = [] } }
{
    let NewLines {
        steps,
        faults,
        stops,
    } = opened;
    let Some(tallies) = open_tallies::<J>(alloc, faults, stops) else {
        return false;
    };
    let Some(mut line) = open_line::<J>(alloc, steps) else {
        return false;
    };
    let found = match readers(alloc, &line, &tallies) {
        Some(mut readers) => beside(rt, alloc, &mut line, readers.as_mut_slice()),
        None => false,
    };
    line.close(rt);
    found
}

#[test]
fn readers_beside_a_writer(rt: HostRuntime) {
    assert!(rt; read_beside::<Brand, _>(&rt, rt.alloc(), new_lines()));
}
