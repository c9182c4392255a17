//! All that the tool needs of the outside: a configuration's text, the two standard streams, and the store of an index. It is the
//! daemon's host without doors.
ghost use Rattle.std.specs.Prelude.{◌≡◌, ◌+◌, ◌≤◌, ◌++◌, [], ◌∷◌, ℕ, List, Option, length, IfOk, MatchResult};
ghost use Rattle.program_host.specs.declared.host.Stream.{Stream};
ghost use Rattle.program_host.specs.declared.requests.Request.{Request};
ghost use Rattle.program_host.specs.Texts.{AreReadOf};
ghost use Rattle.program_host.specs.Printing.{PrintsLine, CountsPrint};
ghost use Rattle.program_host.specs.Lending.{CountsOpening};
ghost use Rattle.program_host.specs.Requests.{Requested};

use chunk_store::Disk;
use program_host::{Request, Stream};
use srch_base::{Failed, OpenFault};

/// All that the tool needs of the outside, with the meanings that `program_host::Host` gives the same calls.
///
/// A host may know its texts, and record what was printed and requested.
pub trait ToolHost {
    type Store: Disk + Drop;

    /// What was printed so far to each stream, where it is recorded.
    ghost printed: { Self → Stream → Option (List ℕ) };

    /// The stores given so far, as they were when they were given.
    ghost stores_given: { Self → List Self.Store };

    /// The stores handed back so far, as they were when they came back.
    ghost stores_back: { Self → List Self.Store };

    /// How often the host has failed to give a text or a store.
    ghost faults: { Self → ℕ };

    /// How often printing to each stream has failed.
    ghost print_faults: { Self → Stream → ℕ };

    /// The requests for texts and stores so far, where they are recorded.
    ghost requests: { Self → Option (List Request) };

    /// The text of each file, as a path names it, where it is known.
    ghost text: { Self → List ℕ → Option (List ℕ) };

    /// Reads the text that a path names: all of it, or its first `limit + 1` bytes where it is longer.
    fn read_text(&mut self, path: &str, limit: u32) -> Result<Vec<u8>, OpenFault>
        ensures reads { IfOk result (λ bytes. AreReadOf (text self.old path.now) limit bytes.items) }
        ensures short { IfOk result (λ bytes. length bytes.items ≤ limit + 1) }
        ensures cause { CountsOpening result (faults self.old) (faults self.new) }
        ensures asks { Requested (requests self.old) (requests self.new) (Request.ReadText path.now ∷ []) }
        ensures print_count { print_faults self.new ≡ print_faults self.old }
        ensures gives_stores { stores_given self.new ≡ stores_given self.old }
        ensures takes_stores { stores_back self.new ≡ stores_back self.old }
        ensures prints { printed self.new ≡ printed self.old };

    /// Prints lines, one or more. Each has its LF at its end.
    fn print(&mut self, to: Stream, line: &[u8]) -> Result<(), Failed>
        ensures prints { PrintsLine result to line.now (printed self.old) (printed self.new) }
        ensures cause { CountsPrint result to (print_faults self.old) (print_faults self.new) }
        ensures count { faults self.new ≡ faults self.old }
        ensures asks { requests self.new ≡ requests self.old }
        ensures gives_stores { stores_given self.new ≡ stores_given self.old }
        ensures takes_stores { stores_back self.new ≡ stores_back self.old };

    /// Gives the store in the folder that a path names. It is looked at alone, so another program may have it as well.
    fn open_store(&mut self, path: &str) -> Result<Self::Store, OpenFault>
        ensures gives_stores { MatchResult result (λ store. stores_given self.new ≡ stores_given self.old ++ store ∷ []) (λ fault. stores_given self.new ≡ stores_given self.old) }
        ensures cause { CountsOpening result (faults self.old) (faults self.new) }
        ensures asks { Requested (requests self.old) (requests self.new) (Request.OpenStore path.now ∷ []) }
        ensures print_count { print_faults self.new ≡ print_faults self.old }
        ensures takes_stores { stores_back self.new ≡ stores_back self.old }
        ensures prints { printed self.new ≡ printed self.old };

    /// Takes back a store that it gave.
    fn give_back(&mut self, store: Self::Store)
        requires { length (stores_back self.old) + 1 ≤ length (stores_given self.old) }
        ensures takes_stores { stores_back self.new ≡ stores_back self.old ++ store ∷ [] }
        ensures gives_stores { stores_given self.new ≡ stores_given self.old }
        ensures asks { requests self.new ≡ requests self.old }
        ensures count { faults self.new ≡ faults self.old }
        ensures print_count { print_faults self.new ≡ print_faults self.old }
        ensures prints { printed self.new ≡ printed self.old };
}
