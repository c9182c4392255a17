//! Operations that wait for their commit.
ghost use Rattle.std.specs.Prelude.{◌≡◌, ◌≤◌, ◌++◌, [], OnErr, OnOk};
ghost use Rattle.ql_answers.specs.Pending.{size_of};

use doc_types::{Txn, txn_bytes};
use srch_base::{Items, NoMemory};
use std::alloc::Global;
use std::marker::Model;
use std::mem;

/// The most operations of a transaction.
pub const MAX_OPERATIONS: usize = 10_000;

/// The most bytes that a transaction takes in a log.
pub const MAX_TRANSACTION_BYTES: u64 = 8_388_608;

/// The bytes of a transaction before its first operation.
pub(crate) const HEAD: u64 = 4;

/// The operations of a session that are pending, and their index. Contracts see them as a `PendingValue`.
#[derive(Drop)]
pub struct Pending {
    place: u16,
    txn: Txn,
    bytes: u64,
}

impl Model for Pending {
    ghost use Rattle.std.specs.Prelude.{◌≡◌};
    ghost use Rattle.ql_answers.specs.Pending.{PendingValue, size_of};

    ghost Value = { PendingValue };

    ghost view = { λ p. record { place = p.place; ops = p.txn.ops } };

    ghost invariant = { λ p. p.bytes ≡ size_of p.txn.ops };
}

impl Pending {
    /// Operations on the index at a place, within the limits of a transaction.
    pub(crate) fn new(place: u16, txn: Txn) -> Pending
        requires { size_of txn.ops ≤ MAX_TRANSACTION_BYTES }
        ensures { result ≡ record { place = place; ops = txn.ops } }
    {
        let bytes = txn_bytes(&txn);
        Pending { place, txn, bytes }
    }

    /// The place of their index.
    pub(crate) fn place(&self) -> u16
        ensures { result ≡ self.now.place }
    {
        self.place
    }

    /// The operations, as a transaction.
    pub(crate) fn txn(&self) -> &Txn
        ensures { result.now ≡ record { ops = self.now.ops } }
    {
        &self.txn
    }

    /// How many bytes they take in a log.
    pub(crate) fn bytes(&self) -> u64
        ensures { result ≡ size_of self.now.ops }
    {
        self.bytes
    }

    /// More operations on the same index, behind the others; the transaction that had them is left without any. After an `Err`
    /// all is as before.
    pub(crate) fn add(&mut self, alloc: Global, txn: &mut Txn) -> Result<(), NoMemory>
        requires { size_of (self.old.ops ++ txn.old.ops) ≤ MAX_TRANSACTION_BYTES }
        ensures ok { OnOk result ((self.new ≡ record self.old { ops = self.old.ops ++ txn.old.ops }) × (txn.new ≡ record { ops = [] })) }
        ensures err { OnErr result ((self.new ≡ self.old) × (txn.new ≡ txn.old)) }
    {
        let bytes = txn_bytes(txn);
        let mut ops = mem::replace(&mut self.txn.ops, Items::new(Vec::new(alloc))).into_vec();
        let mut more = mem::replace(&mut txn.ops, Items::new(Vec::new(alloc))).into_vec();
        let added = ops.append(&mut more);
        self.txn.ops = Items::new(ops);
        txn.ops = Items::new(more);
        added?;
        self.bytes += bytes - HEAD;
        Ok(())
    }
}
