//! What records of a log come to, over any layers before them: the rows that were put, and the ids whose rows in the layers are gone.
//!
//! It is what the operations come to, as in a commit (`layer_commit`), but of many commits: so each row has the number of its own.
ghost use Rattle.std.specs.Prelude.{◌≡◌, ◌==◌, ◌||◌, ◌∷◌, [], ℕ, None, Some, false, if◌then◌else◌, OnOk, map};
ghost use Rattle.std.specs.BTreeMap.{get};
ghost use Rattle.std.specs.Ordering.{nat_cmp};
ghost use Rattle.doc_types.specs.Commits.{Clear, Kill, Put, change_of};
ghost use Rattle.store_reads.specs.steps.Recents.{Changes, is_gone};

use doc_types::{Doc, DocRow, Txn, TxnOp};
use srch_base::NoMemory;
use std::alloc::Global;
use std::collections::{BTreeMap, BTreeSet};

/// What was read of the records of a piece.
#[derive(Drop)]
pub(crate) struct Recent {
    /// All rows that the layers before have are gone.
    pub(crate) cleared: bool,
    /// The ids that were named. Rows that the layers before have of them are gone.
    pub(crate) named: BTreeSet<u64>,
    /// The rows that were put and not killed, by their ids.
    pub(crate) rows: BTreeMap<u64, DocRow>,
}

impl Recent {
    /// Nothing yet.
    pub(crate) fn new(alloc: Global) -> Recent
        ensures rows { (id : ℕ) → get nat_cmp result.rows id ≡ None }
        ensures gone { (id : ℕ) → is_gone result id ≡ false }
    {
        Recent {
            cleared: false,
            named: BTreeSet::new(alloc),
            rows: BTreeMap::new(alloc),
        }
    }

    /// Makes the changes of the commit of this number.
    pub(crate) fn take_txn(&mut self, number: u64, txn: Txn) -> Result<(), NoMemory>
        ensures { OnOk result (Changes number (map change_of txn.ops) self.old self.new) }
    {
        'ops: for op in txn.ops.into_vec() {
            self.take_op(number, op)?;
        }
        Ok(())
    }

    /// Makes one change.
    fn take_op(&mut self, number: u64, op: TxnOp) -> Result<(), NoMemory>
        ensures { OnOk result (Changes number (change_of op ∷ []) self.old self.new) }
    {
        match op {
            TxnOp::Insert(doc) | TxnOp::Put(doc) => self.put(number, doc)?,
            TxnOp::Kill(id) => self.kill(id)?,
            TxnOp::Clear => self.clear(),
        }
        Ok(())
    }

    /// A document is put.
    fn put(&mut self, number: u64, doc: Doc) -> Result<(), NoMemory>
        ensures { OnOk result (Changes number (Put doc ∷ []) self.old self.new) }
    {
        let id = doc.id;
        let row = DocRow { doc, born: number };
        self.named.insert(id)?;
        self.rows.insert(id, row)?;
        Ok(())
    }

    /// An id is killed.
    fn kill(&mut self, id: u64) -> Result<(), NoMemory>
        ensures { OnOk result ((number : ℕ) → Changes number (Kill id ∷ []) self.old self.new) }
    {
        self.named.insert(id)?;
        self.rows.remove(&id);
        Ok(())
    }

    /// All is cleared.
    fn clear(&mut self)
        ensures { (number : ℕ) → Changes number (Clear ∷ []) self.old self.new }
    {
        self.cleared = true;
        self.named.clear();
        self.rows.clear();
    }
}
