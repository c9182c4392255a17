//! What is wrong with an INSERT before its texts are read: the columns that it names, then its rows from left to right, in each
//! the number of its values, then their kinds and ranges.
ghost use Rattle.std.specs.Str.{is_utf8};
ghost use Rattle.std.specs.Prelude.{◌≡◌, [], option_copied};
ghost use Rattle.ql_insert.specs.Insertions.{columns_fault, holds, id_fault, is_among, names_fault, is_between, row_fault, rows_fault, value_fault, values_fault};

use doc_types::{AttrKind, Schema};
use ql_columns::{ID, IndexColumn, kind_of, name_fault, name_of};
use ql_refusals::{
    Refusal, id_missing, id_out_of_range, value_out_of_range, wrong_kind, wrong_number,
};
use ql_tree::Val;
use simdutf8::compat::from_utf8;
use srch_base::{Items, Name};

/// What is wrong with the columns that a statement names.
pub(crate) fn columns_fault(schema: &Schema, columns: Option<&[Name]>) -> Option<Refusal>
    ensures { result ≡ columns_fault schema.now (option_copied columns.entry) }
{
    match columns {
        None => None,
        Some(names) => match names_fault(schema, names) {
            Some(refusal) => Some(refusal),
            None => id_fault(names),
        },
    }
}

/// The first name, from the left, that no column has, or that stands twice.
fn names_fault(schema: &Schema, names: &[Name]) -> Option<Refusal>
    ensures { result ≡ names_fault schema.now [] names.now }
{
    'names: for (place, name) in names.iter().enumerate() {
        let name = name.as_bytes();
        if let Some(refusal) = name_fault(schema, is_among(name, &names[..place]), name) {
            return Some(refusal);
        }
    }
    None
}

fn is_among(name: &[u8], names: &[Name]) -> bool
    ensures { result ≡ is_among name.now names.now }
{
    names.iter().any(|other| other.as_bytes() == name)
}

fn id_fault(names: &[Name]) -> Option<Refusal>
    ensures { result ≡ id_fault names.now }
{
    if is_among(ID, names) {
        None
    } else {
        Some(id_missing())
    }
}

/// The first fault of the rows, from the left: their numbers of values, kinds and ranges.
pub(crate) fn rows_fault(
    schema: &Schema,
    targets: &[IndexColumn],
    rows: &[Items<Val>],
) -> Option<Refusal>
    ensures { result ≡ rows_fault schema.now targets.now rows.now }
{
    rows.iter()
        .find_map(|row| row_fault(schema, targets, row.as_slice()))
}

fn row_fault(schema: &Schema, targets: &[IndexColumn], row: &[Val]) -> Option<Refusal>
    ensures { result ≡ row_fault schema.now targets.now row.now }
{
    if row.len() != targets.len() {
        return Some(wrong_number());
    }
    values_fault(schema, targets, row)
}

fn values_fault(schema: &Schema, targets: &[IndexColumn], row: &[Val]) -> Option<Refusal>
    ensures { result ≡ values_fault schema.now targets.now row.now }
{
    targets
        .iter()
        .zip(row)
        .find_map(|(target, value)| value_fault(schema, *target, value))
}

/// What is wrong with a value for a column.
fn value_fault(schema: &Schema, target: IndexColumn, value: &Val) -> Option<Refusal>
    ensures { result ≡ value_fault schema.now target value.now }
{
    match value {
        Val::Number(number) => number_fault(schema, target, *number),
        Val::Text(text) => text_fault(schema, target, text.as_bytes()),
    }
}

fn number_fault(schema: &Schema, target: IndexColumn, number: i128) -> Option<Refusal>
    ensures { result ≡ value_fault schema.now target (Val.Number number) }
{
    match target {
        IndexColumn::Id if 1 <= number && number <= i128::from(u64::MAX) => None,
        IndexColumn::Id => Some(id_out_of_range()),
        IndexColumn::Field(_) => Some(wrong_kind(name_of(schema, target))),
        IndexColumn::Attr(attr) if holds(kind_of(schema, attr), number) => None,
        IndexColumn::Attr(_) => Some(value_out_of_range(name_of(schema, target))),
    }
}

fn text_fault(schema: &Schema, target: IndexColumn, text: &[u8]) -> Option<Refusal>
    ensures { result ≡ value_fault schema.now target (Val.Text text.now) }
{
    match target {
        IndexColumn::Id => Some(wrong_kind(ID)),
        IndexColumn::Field(_) => {
            if is_utf8(text) {
                return None;
            }
            Some(wrong_kind(name_of(schema, target)))
        }
        IndexColumn::Attr(_) => Some(wrong_kind(name_of(schema, target))),
    }
}

fn is_utf8(bytes: &[u8]) -> bool
    ensures { result ≡ is_utf8 bytes.now }
{
    match from_utf8(bytes) {
        Ok(_) => true,
        Err(_) => false,
    }
}

/// Whether an attribute of the kind holds the number.
fn holds(kind: AttrKind, number: i128) -> bool
    ensures { result ≡ holds kind number }
{
    match kind {
        AttrKind::Uint | AttrKind::Timestamp => is_between(0, i128::from(u32::MAX), number),
        AttrKind::Bool => is_between(0, 1, number),
        AttrKind::Bigint => is_between(i128::from(i64::MIN), i128::from(i64::MAX), number),
    }
}

fn is_between(low: i128, high: i128, number: i128) -> bool
    ensures { result ≡ is_between low high number }
{
    low <= number && number <= high
}
