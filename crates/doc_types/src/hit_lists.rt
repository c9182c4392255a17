//! Opening the places of a word in a row, which is what an evaluation is measured by: each list that is opened counts one step.
ghost use Rattle.std.specs.Prelude.{◌≡◌, ◌+◌, ◌≤◌, ◌++◌, IsSome, OnOk, OnErr};
ghost use Rattle.doc_types.specs.Chunks.{fields_ahead, hits_ahead, next_row};

use crate::chunk::Chunk;
use crate::cursor::Cursor;
use srch_base::{NoMemory, Steps};
use std::sync::ledger::Ledger;

/// A kind of chunk with its lists of places. They are counted in whatever ledger the caller has.
pub trait HitLists: Chunk {
    /// Appends the word's places in the next row that has it, by field and position, ascending. It counts one step, also where
    /// memory is refused; the list is then as before.
    fn open<L: Ledger>(
        &self,
        cursor: &Cursor,
        into: &mut Vec<(u16, u32)>,
        steps: &mut Steps<L>,
    ) -> Result<(), NoMemory>
        requires belongs { Self.belongs self.now cursor.now }
        requires left { IsSome (next_row (Self.place self.now cursor.now)) }
        ensures ok { OnOk result (into.new.items ≡ into.old.items ++ hits_ahead (Self.content self.now) (Self.place self.now cursor.now)) }
        ensures err { OnErr result (into.new.items ≡ into.old.items) }
        ensures count { steps.new ≡ steps.old + 1 };

    /// The fields in which the next row has the word, as bits, the first field's being the lowest. Where it has to open a list it
    /// counts a step.
    fn fields_at<L: Ledger>(&self, cursor: &Cursor, steps: &mut Steps<L>) -> u32
        requires belongs { Self.belongs self.now cursor.now }
        requires left { IsSome (next_row (Self.place self.now cursor.now)) }
        ensures bits { result ≡ fields_ahead (Self.content self.now) (Self.place self.now cursor.now) }
        ensures count { steps.new ≤ steps.old + 1 };
}

/// A chunk as evaluation sees it: its lists of places are counted in one ledger, which it names. So a list that is opened on
/// another counter than the one that a call is handed is refused by the types.
pub trait CountedLists: Chunk {
    /// The ledger in which opened lists are counted.
    type Book: Ledger;

    /// Appends the word's places in the next row that has it, by field and position, ascending. It counts one step, also where
    /// memory is refused; the list is then as before.
    fn open(
        &self,
        cursor: &Cursor,
        into: &mut Vec<(u16, u32)>,
        steps: &mut Steps<Self::Book>,
    ) -> Result<(), NoMemory>
        requires belongs { Self.belongs self.now cursor.now }
        requires left { IsSome (next_row (Self.place self.now cursor.now)) }
        ensures ok { OnOk result (into.new.items ≡ into.old.items ++ hits_ahead (Self.content self.now) (Self.place self.now cursor.now)) }
        ensures err { OnErr result (into.new.items ≡ into.old.items) }
        ensures count { steps.new ≡ steps.old + 1 };

    /// The fields in which the next row has the word, as bits, the first field's being the lowest. It counts one step at most.
    fn fields_at(&self, cursor: &Cursor, steps: &mut Steps<Self::Book>) -> u32
        requires belongs { Self.belongs self.now cursor.now }
        requires left { IsSome (next_row (Self.place self.now cursor.now)) }
        ensures bits { result ≡ fields_ahead (Self.content self.now) (Self.place self.now cursor.now) }
        ensures count { steps.new ≤ steps.old + 1 };
}
