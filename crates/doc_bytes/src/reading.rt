//! A transaction, read from the payload that a log keeps: the layout is drawn where it is written.
//!
//! The fields of the layout are read from left to right, and each may depend on what was read before it: a word's position on
//! the word before, a span on the words of its field. The first field that isn't whole or can't follow is the fault.
ghost use Rattle.std.specs.Prelude.{◌≡◌, ◌<◌, ◌^◌, length, IfOk, Ok};
ghost use Rattle.byte_fields.specs.Fields.{Gives, each, placed};
ghost use Rattle.doc_types.specs.Schemas.{IsSchema};
ghost use Rattle.doc_types.specs.Transactions.{IsTxnOf};
ghost use Rattle.doc_types.specs.declared.transactions.Txn.{Txn as AnyTxn};
ghost use Rattle.doc_bytes.specs.Payload.{payload};
ghost use Rattle.doc_bytes.specs.Reading.{doc_at, op_at, txn_at, value_at};
ghost use Rattle.doc_bytes.specs.RoundTrip.{GivesTxn, HasNumbers, with_puts};

use crate::span_reading::{spans_of, with_their_spans};
use crate::word_reading::fields_of;
use byte_fields::{byte_of, u32_of, u64_of};
use doc_types::{Doc, Schema, Txn, TxnOp, Value};
use srch_base::{Items, Or};
use std::alloc::Global;

/// The bytes are no payload of a transaction of the schema.
#[derive(Clone, Copy, Debug, PartialEq, Eq, Drop)]
pub struct BadTxn {
    /// Where the first field begins that isn't whole or breaks the layout, or what follows the last operation.
    pub place: u32,
}

/// The transaction that is spelled so, all of the bytes. What was an insertion is a put.
pub fn read_txn(alloc: Global, schema: &Schema, bytes: &[u8]) -> Result<Txn, Or<BadTxn>>
    requires { length bytes.now < 2 ^ 32 }
    ensures found { IfOk result (λ txn. IsTxnOf schema.now txn × (with_puts txn ≡ txn) × (bytes.now ≡ payload txn)) }
    ensures only { (txn : AnyTxn) → IsSchema schema.now → IsTxnOf schema.now txn → HasNumbers txn → bytes.now ≡ payload txn → GivesTxn result (Ok (with_puts txn)) }
    ensures exact { GivesTxn result (placed (length bytes.now) (txn_at schema.now bytes.now)) }
{
    placed_txn(alloc, schema, bytes)
}

/// The same, with the place of a fault made of what is left there.
fn placed_txn(alloc: Global, schema: &Schema, bytes: &[u8]) -> Result<Txn, Or<BadTxn>>
    requires { length bytes.now < 2 ^ 32 }
    ensures { GivesTxn result (placed (length bytes.now) (txn_at schema.now bytes.now)) }
{
    match txn_of(alloc, schema, bytes) {
        Ok(txn) => Ok(txn),
        Err(Or::NoMemory) => Err(Or::NoMemory),
        Err(Or::Fault(left)) => Err(Or::Fault(BadTxn {
            place: bytes.len().saturating_sub(left) as u32,
        })),
    }
}

#[tactic(auto, unfolding(crate::specs::Reading::txn_at))]
fn txn_of(alloc: Global, schema: &Schema, bytes: &[u8]) -> Result<Txn, Or<usize>>
    ensures { Gives (λ x. x) result (txn_at schema.now bytes.now) }
{
    let (count, rest) = u32_of(bytes)?;
    let (ops, rest) = ops_of(alloc, schema, count, rest)?;
    if !rest.is_empty() {
        return Err(Or::Fault(rest.len()));
    }
    Ok(Txn {
        ops: Items::new(ops),
    })
}

fn ops_of<'a>(
    alloc: Global,
    schema: &Schema,
    count: u32,
    bytes: &'a [u8],
) -> Result<(Vec<TxnOp>, &'a [u8]), Or<usize>>
    ensures { Gives (λ x. (x.0.items, x.1.now)) result (each (op_at (length schema.now.fields) (length schema.now.attrs)) count bytes.now) }
{
    let mut ops = Vec::new(alloc);
    let mut rest = bytes;
    for _ in 0..count {
        let (op, after) = op_of(alloc, schema, rest)?;
        ops.push(op)?;
        rest = after;
    }
    Ok((ops, rest))
}

/// An operation: the byte of its kind, and its document or its id.
#[tactic(auto, unfolding(crate::specs::Reading::op_at))]
fn op_of<'a>(
    alloc: Global,
    schema: &Schema,
    bytes: &'a [u8],
) -> Result<(TxnOp, &'a [u8]), Or<usize>>
    ensures { Gives (λ x. (x.0, x.1.now)) result (op_at (length schema.now.fields) (length schema.now.attrs) bytes.now) }
{
    match bytes {
        [] => Err(Or::Fault(0)),
        [1, rest @ ..] => {
            let (doc, rest) = doc_of(alloc, schema, rest)?;
            Ok((TxnOp::Put(doc), rest))
        }
        [2, rest @ ..] => {
            let (id, rest) = u64_of(rest)?;
            Ok((TxnOp::Kill(id), rest))
        }
        [3, rest @ ..] => Ok((TxnOp::Clear, rest)),
        [_, ..] => Err(Or::Fault(bytes.len())),
    }
}

/// A document of the schema.
#[tactic(auto, unfolding(crate::specs::Reading::doc_at))]
fn doc_of<'a>(alloc: Global, schema: &Schema, bytes: &'a [u8]) -> Result<(Doc, &'a [u8]), Or<usize>>
    ensures { Gives (λ x. (x.0, x.1.now)) result (doc_at (length schema.now.fields) (length schema.now.attrs) bytes.now) }
{
    let (id, rest) = u64_of(bytes)?;
    let (values, rest) = values_of(alloc, schema.attrs.len(), rest)?;
    let (words, rest) = fields_of(alloc, schema.fields.len(), rest)?;
    let (count, rest) = u32_of(rest)?;
    let (spans, rest) = spans_of(alloc, &words, count, rest)?;
    let fields = with_their_spans(alloc, words, &spans)?;
    let doc = Doc {
        id,
        fields: Items::new(fields),
        values: Items::new(values),
    };
    Ok((doc, rest))
}

/// So many values.
fn values_of(alloc: Global, count: usize, bytes: &[u8]) -> Result<(Vec<Value>, &[u8]), Or<usize>>
    ensures { Gives (λ x. (x.0.items, x.1.now)) result (each value_at count bytes.now) }
{
    let mut values = Vec::new(alloc);
    let mut rest = bytes;
    for _ in 0..count {
        let (value, after) = value_of(rest)?;
        values.push(value)?;
        rest = after;
    }
    Ok((values, rest))
}

/// A value: 8 bytes, two's complement.
#[tactic(auto, unfolding(crate::specs::Reading::value_at))]
fn value_of(bytes: &[u8]) -> Result<(Value, &[u8]), Or<usize>>
    ensures { Gives (λ x. (x.0, x.1.now)) result (value_at bytes.now) }
{
    let (number, rest) = u64_of(bytes)?;
    Ok((Value::Whole(number.cast_signed()), rest))
}
