//! A connection as the daemon sees it: reads and writes that may move less than was asked for, an end of the input, and
//! failures that are counted, so that a contract can say "a read failed" of what no list of bytes shows.
ghost use Rattle.std.specs.Prelude.{◌≡◌, ◌≤◌, ℕ, List, Option, Bool, ◌||◌, length, IfOk};
ghost use Rattle.std.specs.Bool.{OnTrue};
ghost use Rattle.srch_base.specs.Counts.{HasCause, Rose};
ghost use Rattle.srch_base.specs.Told.{then_bytes, moved_by, moves_none};

use crate::Failed;

/// A line to one peer: a connection, the standard streams, or a list of bytes in memory.
///
/// A link may record the bytes that it has moved; the real ones record nothing.
pub trait Link {
    /// The bytes read so far, where they are recorded.
    ghost read_bytes: { Self → Option (List ℕ) };

    /// The bytes written so far, where they are recorded.
    ghost written_bytes: { Self → Option (List ℕ) };

    /// The input has ended.
    ghost input_ended: { Self → Bool };

    /// How often reading has failed.
    ghost read_faults: { Self → ℕ };

    /// How often writing has failed.
    ghost write_faults: { Self → ℕ };

    /// Reads some bytes into a prefix of `into`, and says how many. It may wait for the peer.
    ///
    /// None, where `into` has room, is the end of the input, and nothing else ends it.
    fn read(&mut self, into: &mut [u8]) -> Result<usize, Failed>
        ensures count { IfOk result (λ n. n ≤ length into.old) }
        ensures reads { read_bytes self.new ≡ then_bytes (read_bytes self.old) (moved_by result into.new) }
        ensures ends { input_ended self.new ≡ (input_ended self.old || moves_none result into.old) }
        ensures cause { HasCause (read_faults self.old) (read_faults self.new) result }
        ensures writes { written_bytes self.new ≡ written_bytes self.old }
        ensures write_count { write_faults self.new ≡ write_faults self.old };

    /// Writes a prefix of `piece`, and says how many bytes. It may wait for the peer.
    ///
    /// A write that takes nothing of bytes that are there counts as a fault.
    fn write(&mut self, piece: &[u8]) -> Result<usize, Failed>
        ensures count { IfOk result (λ n. n ≤ length piece.now) }
        ensures writes { written_bytes self.new ≡ then_bytes (written_bytes self.old) (moved_by result piece.now) }
        ensures cause { HasCause (write_faults self.old) (write_faults self.new) result }
        ensures stuck { OnTrue (moves_none result piece.now) (Rose (write_faults self.old) (write_faults self.new)) }
        ensures reads { read_bytes self.new ≡ read_bytes self.old }
        ensures ends { input_ended self.new ≡ input_ended self.old }
        ensures read_count { read_faults self.new ≡ read_faults self.old };
}
