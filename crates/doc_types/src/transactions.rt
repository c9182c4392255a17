//! What a commit does to an index: operations in order, all or none. What becomes of them over the rows that are there is
//! `verdict` and `after` of the definitions.
ghost use Rattle.std.specs.Prelude.{◌≡◌};

use crate::documents::Doc;
use srch_base::Items;
use std::alloc::AllocError;

/// One operation of a transaction.
#[derive(Drop, PartialEq, Eq)]
pub enum TxnOp {
    /// A document whose id must be new.
    Insert(Doc),
    /// A document in the place of the one of its id, if there is one.
    Put(Doc),
    /// The id of a document to be removed, if there is one.
    Kill(u64),
    /// All documents are removed.
    Clear,
}

/// What a commit does to an index: its operations, in order, all or none.
#[derive(Drop, PartialEq, Eq)]
pub struct Txn {
    pub ops: Items<TxnOp>,
}

/// A copy equals what it copies.
impl Clone for TxnOp {
    ghost is_clone = { λ a b. b ≡ a };

    fn clone(&self) -> Result<Self, AllocError> {
        Ok(match self {
            TxnOp::Insert(doc) => TxnOp::Insert(doc.clone()?),
            TxnOp::Put(doc) => TxnOp::Put(doc.clone()?),
            TxnOp::Kill(id) => TxnOp::Kill(*id),
            TxnOp::Clear => TxnOp::Clear,
        })
    }
}

/// A copy equals what it copies.
impl Clone for Txn {
    ghost is_clone = { λ a b. b ≡ a };

    fn clone(&self) -> Result<Self, AllocError> {
        Ok(Txn {
            ops: self.ops.clone()?,
        })
    }
}
