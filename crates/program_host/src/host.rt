//! All that the program needs of the outside, as a trait: the texts of files, the two standard streams, the stores of indexes, and
//! doors to clients. The real one is a thin adapter in the program; the one over memory records everything, for tests.
ghost use Rattle.std.specs.Prelude.{◌≡◌, ◌+◌, ◌≤◌, ◌++◌, [], ◌∷◌, ℕ, List, Option, length, option_copied, IfOk, MatchResult};
ghost use Rattle.std.specs.List.{All};
ghost use Rattle.store_keep.specs.Opens.{HidesNothing};
ghost use Rattle.program_host.specs.declared.host.Stream.{Stream};
ghost use Rattle.program_host.specs.declared.requests.Request.{Request};
ghost use Rattle.program_host.specs.Texts.{AreReadOf};
ghost use Rattle.program_host.specs.Printing.{PrintsLine, CountsPrint};
ghost use Rattle.program_host.specs.Lending.{IsWithin, CountsOpening};
ghost use Rattle.program_host.specs.Requests.{Requested};

use crate::Request;
use chunk_store::Disk;
use srch_base::{Door, Failed, OpenFault};

/// The standard streams that are printed to.
#[derive(Clone, Copy, PartialEq, Eq)]
pub enum Stream {
    Out,
    Err,
}

/// All that the program needs of the outside: its texts, where it prints, where its indexes are kept, and where its connections
/// come from.
///
/// A host may know its texts, and record what was printed and requested; the real one records requests alone.
pub trait Host {
    type Store: Disk + Drop + Send;

    type Entry: Door + Send;

    /// What was printed so far to each stream, where it is recorded.
    ghost printed: { Self → Stream → Option (List ℕ) };

    /// The stores given so far, as they were when they were given.
    ghost stores_given: { Self → List Self.Store };

    /// The stores handed back so far, as they were when they came back.
    ghost stores_back: { Self → List Self.Store };

    /// The doors given so far, as they were when they were given.
    ghost doors_given: { Self → List Self.Entry };

    /// The doors handed back so far, as they were when they came back.
    ghost doors_back: { Self → List Self.Entry };

    /// How often the host has failed to give a text, a store or doors.
    ghost faults: { Self → ℕ };

    /// How often printing to each stream has failed.
    ghost print_faults: { Self → Stream → ℕ };

    /// The requests for texts, stores and doors so far, where they are recorded.
    ghost requests: { Self → Option (List Request) };

    /// The text of each file, as a path names it, where it is known.
    ghost text: { Self → List ℕ → Option (List ℕ) };

    /// Reads the text that a path names: all of it, or its first `limit + 1` bytes where it is longer.
    fn read_text(&mut self, path: &str, limit: u32) -> Result<Vec<u8>, OpenFault>
        ensures reads { IfOk result (λ bytes. AreReadOf (text self.old path.now) limit bytes.items) }
        ensures short { IfOk result (λ bytes. length bytes.items ≤ limit + 1) }
        ensures cause { CountsOpening result (faults self.old) (faults self.new) }
        ensures asks { Requested (requests self.old) (requests self.new) (Request.ReadText path.now ∷ []) }
        ensures print_count { print_faults self.new ≡ print_faults self.old }
        ensures tells { text self.new ≡ text self.old }
        ensures gives_stores { stores_given self.new ≡ stores_given self.old }
        ensures takes_stores { stores_back self.new ≡ stores_back self.old }
        ensures gives_doors { doors_given self.new ≡ doors_given self.old }
        ensures takes_doors { doors_back self.new ≡ doors_back self.old }
        ensures prints { printed self.new ≡ printed self.old };

    /// Prints a line. `line` has its LF at its end.
    fn print(&mut self, to: Stream, line: &[u8]) -> Result<(), Failed>
        ensures prints { PrintsLine result to line.now (printed self.old) (printed self.new) }
        ensures cause { CountsPrint result to (print_faults self.old) (print_faults self.new) }
        ensures count { faults self.new ≡ faults self.old }
        ensures asks { requests self.new ≡ requests self.old }
        ensures gives_stores { stores_given self.new ≡ stores_given self.old }
        ensures takes_stores { stores_back self.new ≡ stores_back self.old }
        ensures gives_doors { doors_given self.new ≡ doors_given self.old }
        ensures takes_doors { doors_back self.new ≡ doors_back self.old };

    /// Gives the store in the folder that a path names. No one else has it until it is handed back. Of its root a crash leaves no part
    /// that a read doesn't find.
    fn open_store(&mut self, path: &str) -> Result<Self::Store, OpenFault>
        ensures gives_stores { MatchResult result (λ store. stores_given self.new ≡ stores_given self.old ++ store ∷ []) (λ fault. stores_given self.new ≡ stores_given self.old) }
        ensures hides { IfOk result (HidesNothing Self.Store.Disk) }
        ensures cause { CountsOpening result (faults self.old) (faults self.new) }
        ensures asks { Requested (requests self.old) (requests self.new) (Request.OpenStore path.now ∷ []) }
        ensures print_count { print_faults self.new ≡ print_faults self.old }
        ensures takes_stores { stores_back self.new ≡ stores_back self.old }
        ensures gives_doors { doors_given self.new ≡ doors_given self.old }
        ensures takes_doors { doors_back self.new ≡ doors_back self.old }
        ensures prints { printed self.new ≡ printed self.old };

    /// Takes back a store that it gave.
    fn give_back(&mut self, store: Self::Store)
        requires { length (stores_back self.old) + 1 ≤ length (stores_given self.old) }
        ensures takes_stores { stores_back self.new ≡ stores_back self.old ++ store ∷ [] }
        ensures gives_stores { stores_given self.new ≡ stores_given self.old }
        ensures gives_doors { doors_given self.new ≡ doors_given self.old }
        ensures takes_doors { doors_back self.new ≡ doors_back self.old }
        ensures asks { requests self.new ≡ requests self.old }
        ensures count { faults self.new ≡ faults self.old }
        ensures print_count { print_faults self.new ≡ print_faults self.old }
        ensures prints { printed self.new ≡ printed self.old };

    /// Opens `n` doors, or none: with an address over its listener, and otherwise over the standard streams.
    fn doors(&mut self, listen: Option<&str>, n: u32) -> Result<Vec<Self::Entry>, OpenFault>
        ensures count { IfOk result (λ doors. length doors.items ≡ n) }
        ensures within { IfOk result (λ doors. All (IsWithin Self.Entry.returned Self.Entry.given) doors.items) }
        ensures gives_doors { MatchResult result (λ doors. doors_given self.new ≡ doors_given self.old ++ doors.items) (λ fault. doors_given self.new ≡ doors_given self.old) }
        ensures cause { CountsOpening result (faults self.old) (faults self.new) }
        ensures asks { Requested (requests self.old) (requests self.new) (Request.OpenDoors (option_copied listen.entry) n ∷ []) }
        ensures print_count { print_faults self.new ≡ print_faults self.old }
        ensures takes_doors { doors_back self.new ≡ doors_back self.old }
        ensures gives_stores { stores_given self.new ≡ stores_given self.old }
        ensures takes_stores { stores_back self.new ≡ stores_back self.old }
        ensures prints { printed self.new ≡ printed self.old };

    /// Takes back doors that it gave.
    fn give_doors(&mut self, doors: Vec<Self::Entry>)
        requires { length (doors_back self.old) + length doors.items ≤ length (doors_given self.old) }
        ensures takes_doors { doors_back self.new ≡ doors_back self.old ++ doors.items }
        ensures gives_doors { doors_given self.new ≡ doors_given self.old }
        ensures gives_stores { stores_given self.new ≡ stores_given self.old }
        ensures takes_stores { stores_back self.new ≡ stores_back self.old }
        ensures asks { requests self.new ≡ requests self.old }
        ensures count { faults self.new ≡ faults self.old }
        ensures print_count { print_faults self.new ≡ print_faults self.old }
        ensures prints { printed self.new ≡ printed self.old };
}
