//! Transactions as they are written in tables: `+5` inserts a document with the id 5, `=5` replaces it, `-5` deletes it, and `*`
//! clears all. The documents have no columns.
ghost use Rattle.std.specs.Prelude.{◌≡◌, [], IfSome};
ghost use Rattle.doc_types.specs.Schemas.{IsSchema};
ghost use Rattle.doc_types.specs.Transactions.{IsOpOf, IsTxnOf};
ghost use Rattle.doc_vectors.specs.steps.Plain.{plain};

use doc_types::{Doc, Schema, Txn, TxnOp};
use srch_base::{Items, Name};
use std::alloc::Global;

/// The most operations of a transaction.
const MOST: usize = 1_000;

/// The columns of an index that has none.
pub(crate) fn schema(alloc: Global) -> Schema
    ensures schema { IsSchema result }
    ensures plain { result ≡ plain }
{
    Schema {
        name: Name::new(Vec::new(alloc)),
        fields: Items::new(Vec::new(alloc)),
        attrs: Items::new(Vec::new(alloc)),
        zones: Items::new(Vec::new(alloc)),
        sp: false,
        min_prefix: 0,
    }
}

/// A document without columns.
fn doc(alloc: Global, id: u64) -> Doc
    ensures fields { result.fields ≡ [] }
    ensures values { result.values ≡ [] }
{
    Doc {
        id,
        fields: Items::new(Vec::new(alloc)),
        values: Items::new(Vec::new(alloc)),
    }
}

/// The operation that a word stands for.
fn op(alloc: Global, word: &str) -> Option<TxnOp>
    ensures { IfSome result (λ op. IsOpOf plain op) }
{
    match word.split_at_checked(1) {
        Some(("*", _)) => Some(TxnOp::Clear),
        Some(("+", id)) => Some(TxnOp::Insert(doc(alloc, id.parse::<u64>().ok()?))),
        Some(("=", id)) => Some(TxnOp::Put(doc(alloc, id.parse::<u64>().ok()?))),
        Some(("-", id)) => Some(TxnOp::Kill(id.parse::<u64>().ok()?)),
        _ => None,
    }
}

/// The transaction that a line stands for.
pub(crate) fn txn(alloc: Global, line: &str) -> Option<Txn>
    ensures { IfSome result (λ txn. IsTxnOf plain txn) }
{
    let mut ops = Vec::new(alloc);
    for word in line.split_whitespace() {
        ops.push(op(alloc, word)?).ok()?;
    }
    if ops.len() > MOST {
        return None;
    }
    Some(Txn {
        ops: Items::new(ops),
    })
}
