//! The numbers of a transaction are those that its types have, so a record has room for each. That is known of a number where it is
//! read; these functions read each one, and do nothing else.
ghost use Rattle.std.specs.Prelude.{◌<◌, ◌^◌, All};
ghost use Rattle.doc_bytes.specs.RoundTrip.{DocNumbers, HasNumbers, IsNumber, OpNumbers};

use doc_types::{Doc, FieldTokens, Txn, TxnOp, Value, ZoneSpan};

fn value_fits(value: Value)
    ensures { IsNumber value }
{
    let Value::Whole(_number) = value;
}

fn values_fit(values: &[Value])
    ensures { All IsNumber values.now }
{
    for value in values {
        value_fits(*value);
    }
}

fn span_fits(span: &ZoneSpan)
    ensures { span.now.zone < 2 ^ 16 }
{
    let _zone = span.zone;
}

fn spans_fit(spans: &[ZoneSpan])
    ensures { All (λ span. span.zone < 2 ^ 16) spans.now }
{
    for span in spans {
        span_fits(span);
    }
}

fn field_fits(field: &FieldTokens)
    ensures { All (λ span. span.zone < 2 ^ 16) field.now.spans }
{
    spans_fit(field.spans.as_slice());
}

fn fields_fit(fields: &[FieldTokens])
    ensures { All (λ tokens. All (λ span. span.zone < 2 ^ 16) tokens.spans) fields.now }
{
    for field in fields {
        field_fits(field);
    }
}

fn doc_fits(doc: &Doc)
    ensures { DocNumbers doc.now }
{
    let _id = doc.id;
    values_fit(doc.values.as_slice());
    fields_fit(doc.fields.as_slice());
}

fn op_fits(op: &TxnOp)
    ensures { OpNumbers op.now }
{
    match op {
        TxnOp::Insert(doc) | TxnOp::Put(doc) => doc_fits(doc),
        TxnOp::Kill(id) => {
            let _id = *id;
        }
        TxnOp::Clear => {}
    }
}

fn ops_fit(ops: &[TxnOp])
    ensures { All OpNumbers ops.now }
{
    for op in ops {
        op_fits(op);
    }
}

/// The numbers of a transaction fit.
pub(crate) fn numbers_fit(txn: &Txn)
    ensures { HasNumbers txn.now }
{
    ops_fit(txn.ops.as_slice());
}
