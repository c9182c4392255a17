//! How many bytes a transaction takes in a log.
//!
//! A log's record holds the number of operations in 4 bytes, then each operation: a byte for its kind, and its document or its
//! id. Numbers of words and spans take 4 bytes, ids and values 8. The length counts also what can't be written, as a word above
//! 255 bytes, so that a limit can be tested before a transaction is known to be of a schema. The time is linear in its words.
ghost use Rattle.std.specs.Prelude.{◌≡◌, ◌-◌, ◌^◌, min};
ghost use Rattle.doc_types.specs.Payloads.{doc_length, field_length, op_length, payload_length};

use crate::documents::Doc;
use crate::tokens::FieldTokens;
use crate::transactions::{Txn, TxnOp};

/// How many bytes the transaction takes in a log, or 2^64 - 1 where that is more.
pub fn txn_bytes(txn: &Txn) -> u64
    ensures { result ≡ min (payload_length txn.now) (2 ^ 64 - 1) }
{
    let mut bytes: u64 = 4;
    for op in txn.ops.as_slice() {
        bytes = bytes.saturating_add(op_bytes(op));
    }
    bytes
}

fn op_bytes(op: &TxnOp) -> u64
    ensures { result ≡ min (op_length op.now) (2 ^ 64 - 1) }
{
    match op {
        TxnOp::Insert(doc) => doc_bytes(doc).saturating_add(1),
        TxnOp::Put(doc) => doc_bytes(doc).saturating_add(1),
        TxnOp::Kill(_) => 9,
        TxnOp::Clear => 1,
    }
}

fn doc_bytes(doc: &Doc) -> u64
    ensures { result ≡ min (doc_length doc.now) (2 ^ 64 - 1) }
{
    let mut bytes = (doc.values.len() as u64)
        .saturating_mul(8)
        .saturating_add(12);
    for field in doc.fields.as_slice() {
        bytes = bytes.saturating_add(field_bytes(field));
    }
    bytes
}

fn field_bytes(field: &FieldTokens) -> u64
    ensures { result ≡ min (field_length field.now) (2 ^ 64 - 1) }
{
    let mut bytes = (field.spans.len() as u64)
        .saturating_mul(12)
        .saturating_add(4);
    for token in field.words.as_slice() {
        bytes = bytes.saturating_add(token.word.as_bytes().len() as u64 + 2);
    }
    bytes
}
