//! Lines that take turns: each packet of a line has its turn, and is given once those before it were answered, whichever line they came
//! over. So the lines are served at once, or the read of some packet fails, since its turn doesn't come. A line may also give each packet
//! only once all before it were answered over the same line.
ghost use Rattle.std.specs.Prelude.{◌≡◌};

use srch_base::{Failed, Link, MemoryLink};
use std::alloc::Global;
use std::marker::Model;
use std::sync::Arc;
use std::sync::atomic::{AtomicU32, Ordering};
use std::thread;

/// How often a line looks whether its turn has come, before its read fails.
const MOST_LOOKS: u32 = 100_000_000;

/// A line over memory whose reads have turns: each begins once the turn has come, and the turn ends as the next one is asked for. A read
/// before which something is due fails unless that many bytes were written.
///
/// Contracts see it as the line over memory, with its own count of reads that failed.
pub(crate) struct TurnLink {
    pub(crate) line: MemoryLink,
    /// The turns of the reads, the last one first; reads behind them have none.
    pub(crate) turns: Vec<u32>,
    /// The turn of the read that was asked for last.
    pub(crate) mine: Option<u32>,
    /// The turn that it is.
    pub(crate) now: Arc<AtomicU32, Global>,
    /// How many bytes are to be written before each read, the last one first; before reads behind them nothing is.
    pub(crate) due: Vec<usize>,
    pub(crate) read_faults: u64,
    /// How many writes failed.
    pub(crate) failed_writes: u64,
}

// Not derived: so letting go of a line is a call, and no caller's proof takes apart what it holds.
impl Drop for TurnLink {
    fn drop(self) {
        let TurnLink {
            line: _line,
            turns: _turns,
            mine: _,
            now: _now,
            due: _due,
            read_faults: _,
            failed_writes: _,
        } = self;
    }
}

impl Model for TurnLink {
    ghost use Rattle.srch_base.specs.Memory.{Memory};

    ghost Value = { Memory };

    ghost view = { λ a. record a.line { read_faults = a.read_faults } };
}

impl TurnLink {
    /// Ends the turn of the last read, and waits for the turn of the next one. Says whether it has come.
    fn take_turn(&mut self) -> bool
        ensures { self.new ≡ self.old }
    {
        if let Some(turn) = self.mine {
            self.now.store(turn.saturating_add(1), Ordering::SeqCst);
        }
        self.mine = self.turns.pop();
        let Some(turn) = self.mine else {
            return true;
        };
        for _ in 0..MOST_LOOKS {
            if self.now.load(Ordering::SeqCst) >= turn {
                return true;
            }
            thread::yield_now();
        }
        false
    }
}

impl TurnLink {
    /// Whether all is written that is due before the next read.
    fn is_answered(&mut self) -> bool
        ensures { self.new ≡ self.old }
    {
        match self.due.pop() {
            Some(due) => self.line.written().len() >= due,
            None => true,
        }
    }
}

impl Link for TurnLink {
    ghost use Rattle.srch_base.specs.Memory.{memory_read, memory_written};

    ghost read_bytes = { memory_read };

    ghost written_bytes = { memory_written };

    ghost input_ended = { λ m. m.ended };

    ghost read_faults = { λ m. m.read_faults };

    ghost write_faults = { λ m. m.write_faults };

    /// Fails too where its turn doesn't come, or what is due wasn't written.
    fn read(&mut self, into: &mut [u8]) -> Result<usize, Failed> {
        if self.is_answered() && self.take_turn() {
            if let Ok(count) = self.line.read(into) {
                return Ok(count);
            }
        }
        self.read_faults = self.read_faults.saturating_add(1);
        Err(Failed)
    }

    fn write(&mut self, piece: &[u8]) -> Result<usize, Failed> {
        match self.line.write(piece) {
            Ok(count) => Ok(count),
            Err(Failed) => {
                self.failed_writes = self.failed_writes.saturating_add(1);
                Err(Failed)
            }
        }
    }
}
