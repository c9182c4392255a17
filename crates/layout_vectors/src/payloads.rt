//! Payloads of transactions of an index, and its columns.
ghost use Rattle.std.specs.Prelude.{IfSome};
ghost use Rattle.doc_types.specs.Documents.{IsDocOf};
ghost use Rattle.doc_types.specs.Schemas.{IsSchema};
ghost use Rattle.doc_types.specs.Transactions.{IsTxnOf};
ghost use Rattle.index_conf.specs.Soundness.{IsSound};

use crate::images::put_opened;
use crate::tables::LONG;
use crate::telling::put_written;
use crate::transactions::put_told;
use conf_text::read_conf;
use doc_bytes::{put_schema, put_txn, read_txn};
use doc_types::{Doc, Schema, Txn, TxnOp};
use index_conf::Conf;
use srch_base::{Items, Or};
use std::alloc::Global;

/// An index with the field `title`.
const SHORT_INDEX: &str = "index rt {\ntype = rt\npath = a\nrt_field = title\n}\n";

/// An index with the fields `title` and `body`, an attribute and two zones.
const LONG_INDEX: &str = "index rt {\ntype = rt\npath = a\nrt_field = title\nrt_field = body\n\
rt_attr_bigint = gid\nhtml_strip = 1\nindex_zones = th, td\n}\n";

/// An index with these fields and zones, and an attribute of each kind.
const INDEX_OF_KINDS: &str = "index rt {\ntype = rt\npath = a\nrt_field = title\nrt_field = body\n\
rt_attr_uint = a\nrt_attr_bool = b\nrt_attr_bigint = c\nrt_attr_timestamp = d\nhtml_strip = 1\nindex_zones = th, td\n}\n";

/// The columns of the last index of a configuration.
fn schema_of(conf: Conf) -> Option<Schema>
    requires { IsSound conf }
    ensures { IfSome result IsSchema }
{
    let Conf { indexes } = conf;
    match indexes.into_vec().pop() {
        Some(index) => Some(index.schema),
        None => None,
    }
}

/// The columns of the index with this name.
fn schema_named(alloc: Global, name: &str) -> Option<Schema>
    ensures { IfSome result IsSchema }
{
    let text = match name {
        "short" => SHORT_INDEX,
        "long" => LONG_INDEX,
        _ => INDEX_OF_KINDS,
    };
    match read_conf(alloc, text.as_bytes()) {
        Ok(conf) => schema_of(conf),
        Err(_) => None,
    }
}

/// Whether a transaction is written as these bytes, behind another one.
fn is_written(alloc: Global, schema: &Schema, txn: &Txn, bytes: &[u8]) -> bool
    requires schema { IsSchema schema.now }
    requires txn { IsTxnOf schema.now txn.now }
{
    let mut out = Vec::new(alloc);
    out.push(0xff).is_ok() && put_txn(txn, &mut out).is_ok() && out.get(1..) == Some(bytes)
}

/// Tells a transaction, and whether it is written as these bytes.
fn put_whole(
    alloc: Global,
    schema: &Schema,
    txn: &Txn,
    bytes: &[u8],
    told: &mut String,
) -> Option<()>
    requires schema { IsSchema schema.now }
    requires txn { IsTxnOf schema.now txn.now }
{
    put_told(txn, told)?;
    put_written(is_written(alloc, schema, txn, bytes), told)
}

/// Tells the transaction of a payload, or the place at which the payload is refused.
fn put_payload(alloc: Global, schema: &Schema, bytes: &[u8], told: &mut String) -> Option<()>
    requires { IsSchema schema.now }
{
    if bytes.len() > 1_000_000 {
        return None;
    }
    match read_txn(alloc, schema, bytes) {
        Ok(txn) => put_whole(alloc, schema, &txn, bytes, told),
        Err(Or::Fault(bad)) => {
            let place = bad.place;
            write!(told, "{place}").ok()
        }
        Err(Or::NoMemory) => None,
    }
}

/// A document as a transaction that inserts it.
fn insertion(alloc: Global, schema: &Schema, doc: Doc) -> Option<Txn>
    requires { IsDocOf schema.now doc }
    ensures { IfSome result (IsTxnOf schema.now) }
{
    let mut ops = Vec::new(alloc);
    ops.push(TxnOp::Insert(doc)).ok()?;
    Some(Txn {
        ops: Items::new(ops),
    })
}

/// The last document that a transaction puts, inserted alone.
fn inserted(alloc: Global, schema: &Schema, txn: Txn) -> Option<Txn>
    requires { IsTxnOf schema.now txn }
    ensures { IfSome result (IsTxnOf schema.now) }
{
    let Txn { ops } = txn;
    match ops.into_vec().pop() {
        Some(TxnOp::Put(doc)) => insertion(alloc, schema, doc),
        _ => None,
    }
}

/// Tells the insertion of a payload's document, and whether it is written as the payload.
fn put_insertion(alloc: Global, schema: &Schema, bytes: &[u8], told: &mut String) -> Option<()>
    requires { IsSchema schema.now }
{
    if bytes.len() > 1_000 {
        return None;
    }
    let txn = inserted(alloc, schema, read_txn(alloc, schema, bytes).ok()?)?;
    put_whole(alloc, schema, &txn, bytes, told)
}

/// Tells this of each front part of a payload.
fn put_fronts(alloc: Global, schema: &Schema, bytes: &[u8], told: &mut String) -> Option<()>
    requires { IsSchema schema.now }
{
    for size in 0..bytes.len() {
        put_payload(alloc, schema, bytes.get(..size)?, told)?;
        told.push(' ').ok()?;
    }
    told.push_str("end").ok()
}

/// Whether the columns are written as these bytes, behind another one.
fn are_columns(alloc: Global, schema: &Schema, bytes: &[u8]) -> bool {
    let mut out = Vec::new(alloc);
    out.push(0xff).is_ok() && put_schema(schema, &mut out).is_ok() && out.get(1..) == Some(bytes)
}

/// Tells what a row asks of bytes of an index with these columns.
fn put_of_columns(
    alloc: Global,
    kind: &str,
    schema: &Schema,
    bytes: &[u8],
    told: &mut String,
) -> Option<()>
    requires { IsSchema schema.now }
{
    match kind {
        "payload" => put_payload(alloc, schema, bytes, told),
        "insertion" => put_insertion(alloc, schema, bytes, told),
        "fronts" => put_fronts(alloc, schema, bytes, told),
        "image" => put_opened(alloc, schema, bytes, told),
        "columns" => put_written(are_columns(alloc, schema, bytes), told),
        _ => None,
    }
}

/// Tells what a row asks of bytes of an index, of which it says the name.
pub(crate) fn put_of_index(
    alloc: Global,
    kind: &str,
    name: &str,
    bytes: &[u8],
    told: &mut String,
) -> Option<()> {
    let schema = schema_named(alloc, name)?;
    put_of_columns(alloc, kind, &schema, bytes, told)
}

/// The long payload with these bytes in the place of its own from this place on.
fn damaged(alloc: Global, from: usize, part: &[u8]) -> Option<Vec<u8>> {
    let mut bytes = hex::decode(alloc, LONG).ok()?;
    let mut place = from;
    for byte in part {
        match bytes.get_mut(place) {
            Some(there) => *there = *byte,
            None => bytes.push(*byte).ok()?,
        }
        place = place.saturating_add(1);
    }
    Some(bytes)
}

/// Tells where the long payload is refused once bytes of it are replaced.
pub(crate) fn put_damaged(
    alloc: Global,
    from: usize,
    part: &[u8],
    told: &mut String,
) -> Option<()> {
    let bytes = damaged(alloc, from, part)?;
    put_of_index(alloc, "payload", "long", bytes.as_slice(), told)
}
