//! A transaction as a log keeps it.
//!
//! ```text
//! number of operations    4 bytes
//! then each operation
//!   1, a document put     id (8), each value (8), each field's words, all spans
//!     a field's words     their number (4), then each: boundary (1: 0 none, 1 sentence, 2 paragraph), length (1), bytes
//!     all spans           their number (4), then each: field (2), zone (2), first (4) and last (4) position
//!   2, an id removed      id (8)
//!   3, all removed
//! ```
ghost use Rattle.std.specs.Prelude.{◌≡◌, ◌++◌, ◌≤◌, ◌<◌, ◌^◌, All, length, take, vec_len, OnOk, OnErr};
ghost use Rattle.std.specs.List.{flat_map};
ghost use Rattle.doc_types.specs.Documents.{IsDocOf, IsField, IsWord};
ghost use Rattle.doc_types.specs.Schemas.{IsSchema};
ghost use Rattle.doc_types.specs.Transactions.{IsOpOf, IsTxnOf};
ghost use Rattle.doc_types.specs.declared.schema.Schema.{Schema};
ghost use Rattle.doc_bytes.specs.Payload.{all_spans_bytes, doc_bytes, field_bytes, op_bytes, payload, span_bytes, span_count, value_bytes, word_bytes};

use doc_types::{Doc, FieldTokens, Gap, TokenWord, Txn, TxnOp, Value, ZoneSpan};
use srch_base::{NoMemory, put_u16, put_u32, put_u64};

/// Appends the one spelling of a transaction. After want of memory what was there is as before.
pub fn put_txn(txn: &Txn, out: &mut Vec<u8>) -> Result<(), NoMemory>
    requires { (schema : Schema) × IsSchema schema × IsTxnOf schema txn.now }
    ensures ok { OnOk result (out.new.items ≡ out.old.items ++ payload txn.now) }
    ensures err { OnErr result (out.new.items ≡ out.old.items) }
{
    let before = out.len();
    let written = write_txn(txn, out);
    if written.is_err() {
        out.truncate(before);
    }
    written
}

/// Appends the spelling of a transaction; after want of memory, a part of it at most.
fn write_txn(txn: &Txn, out: &mut Vec<u8>) -> Result<(), NoMemory>
    requires { (schema : Schema) × IsSchema schema × IsTxnOf schema txn.now }
    ensures ok { OnOk result (out.new.items ≡ out.old.items ++ payload txn.now) }
    ensures front { take (vec_len out.old) out.new.items ≡ out.old.items }
{
    put_u32(txn.ops.len() as u32, out)?;
    put_ops(txn.ops.as_slice(), out)
}

fn put_ops(ops: &[TxnOp], out: &mut Vec<u8>) -> Result<(), NoMemory>
    requires { (schema : Schema) × IsSchema schema × All (IsOpOf schema) ops.now }
    ensures ok { OnOk result (out.new.items ≡ out.old.items ++ flat_map op_bytes ops.now) }
    ensures front { take (vec_len out.old) out.new.items ≡ out.old.items }
{
    for op in ops {
        put_op(op, out)?;
    }
    Ok(())
}

fn put_op(op: &TxnOp, out: &mut Vec<u8>) -> Result<(), NoMemory>
    requires { (schema : Schema) × IsSchema schema × IsOpOf schema op.now }
    ensures ok { OnOk result (out.new.items ≡ out.old.items ++ op_bytes op.now) }
    ensures front { take (vec_len out.old) out.new.items ≡ out.old.items }
{
    match op {
        TxnOp::Insert(doc) | TxnOp::Put(doc) => {
            out.push(1)?;
            put_doc(doc, out)
        }
        TxnOp::Kill(id) => {
            out.push(2)?;
            put_u64(*id, out)
        }
        TxnOp::Clear => Ok(out.push(3)?),
    }
}

fn put_doc(doc: &Doc, out: &mut Vec<u8>) -> Result<(), NoMemory>
    requires { (schema : Schema) × IsSchema schema × IsDocOf schema doc.now }
    ensures ok { OnOk result (out.new.items ≡ out.old.items ++ doc_bytes doc.now) }
    ensures front { take (vec_len out.old) out.new.items ≡ out.old.items }
{
    put_u64(doc.id, out)?;
    put_values(doc.values.as_slice(), out)?;
    put_fields(doc.fields.as_slice(), out)?;
    put_all_spans(doc.fields.as_slice(), out)
}

fn put_values(values: &[Value], out: &mut Vec<u8>) -> Result<(), NoMemory>
    ensures ok { OnOk result (out.new.items ≡ out.old.items ++ flat_map value_bytes values.now) }
    ensures front { take (vec_len out.old) out.new.items ≡ out.old.items }
{
    for value in values {
        put_value(*value, out)?;
    }
    Ok(())
}

fn put_value(value: Value, out: &mut Vec<u8>) -> Result<(), NoMemory>
    ensures ok { OnOk result (out.new.items ≡ out.old.items ++ value_bytes value) }
    ensures front { take (vec_len out.old) out.new.items ≡ out.old.items }
{
    let Value::Whole(number) = value;
    put_u64(number.cast_unsigned(), out)
}

fn put_fields(fields: &[FieldTokens], out: &mut Vec<u8>) -> Result<(), NoMemory>
    requires { All IsField fields.now }
    ensures ok { OnOk result (out.new.items ≡ out.old.items ++ flat_map field_bytes fields.now) }
    ensures front { take (vec_len out.old) out.new.items ≡ out.old.items }
{
    for field in fields {
        put_field(field, out)?;
    }
    Ok(())
}

fn put_field(field: &FieldTokens, out: &mut Vec<u8>) -> Result<(), NoMemory>
    requires { IsField field.now }
    ensures ok { OnOk result (out.new.items ≡ out.old.items ++ field_bytes field.now) }
    ensures front { take (vec_len out.old) out.new.items ≡ out.old.items }
{
    put_u32(field.words.len() as u32, out)?;
    put_words(field.words.as_slice(), out)
}

fn put_words(words: &[TokenWord], out: &mut Vec<u8>) -> Result<(), NoMemory>
    requires { All (λ token. IsWord token.word) words.now }
    ensures ok { OnOk result (out.new.items ≡ out.old.items ++ flat_map word_bytes words.now) }
    ensures front { take (vec_len out.old) out.new.items ≡ out.old.items }
{
    for word in words {
        put_word(word, out)?;
    }
    Ok(())
}

fn put_word(token: &TokenWord, out: &mut Vec<u8>) -> Result<(), NoMemory>
    requires { IsWord token.now.word }
    ensures ok { OnOk result (out.new.items ≡ out.old.items ++ word_bytes token.now) }
    ensures front { take (vec_len out.old) out.new.items ≡ out.old.items }
{
    out.push(match token.gap {
        Gap::None => 0,
        Gap::Sentence => 1,
        Gap::Paragraph => 2,
    })?;
    let bytes = token.word.as_bytes();
    out.push(bytes.len() as u8)?;
    out.extend_from_slice(bytes)?;
    Ok(())
}

fn put_all_spans(fields: &[FieldTokens], out: &mut Vec<u8>) -> Result<(), NoMemory>
    requires few { span_count fields.now < 2 ^ 32 }
    requires numbered { length fields.now ≤ 2 ^ 16 }
    ensures ok { OnOk result (out.new.items ≡ out.old.items ++ all_spans_bytes fields.now) }
    ensures front { take (vec_len out.old) out.new.items ≡ out.old.items }
{
    put_u32(count_spans(fields), out)?;
    for (number, field) in fields.iter().enumerate() {
        put_spans(number as u16, field.spans.as_slice(), out)?;
    }
    Ok(())
}

fn count_spans(fields: &[FieldTokens]) -> u32
    requires { span_count fields.now < 2 ^ 32 }
    ensures { result ≡ span_count fields.now }
{
    let mut count: u32 = 0;
    for field in fields {
        count += field.spans.len() as u32;
    }
    count
}

fn put_spans(field: u16, spans: &[ZoneSpan], out: &mut Vec<u8>) -> Result<(), NoMemory>
    ensures ok { OnOk result (out.new.items ≡ out.old.items ++ flat_map (span_bytes field) spans.now) }
    ensures front { take (vec_len out.old) out.new.items ≡ out.old.items }
{
    for span in spans {
        put_span(field, span, out)?;
    }
    Ok(())
}

fn put_span(field: u16, span: &ZoneSpan, out: &mut Vec<u8>) -> Result<(), NoMemory>
    ensures ok { OnOk result (out.new.items ≡ out.old.items ++ span_bytes field span.now) }
    ensures front { take (vec_len out.old) out.new.items ≡ out.old.items }
{
    put_u16(field, out)?;
    put_u16(span.zone, out)?;
    put_u32(span.first, out)?;
    put_u32(span.last, out)
}
