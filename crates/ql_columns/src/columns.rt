//! The columns of an index, as statements name them: the id, its fields and its attributes, in the order of the
//! configuration. Names come in small letters, as the parser keeps them. An index has at most 65 columns, so that its
//! lists are gone through.
ghost use Rattle.std.specs.Prelude.{◌≡◌, IfOk};
ghost use Rattle.ql_columns.specs.Columns.{all_columns, attr_place, field_place, kind_of, name_fault, name_of, column_named};

use doc_types::{AttrKind, Schema};
use ql_refusals::{Refusal, column_twice, unknown_column};
use srch_base::NoMemory;
use std::alloc::Global;

/// The column of every index.
pub const ID: &[u8] = b"id";

/// A column of an index: the id, or a field or an attribute by its place in the schema.
#[derive(Clone, Copy, PartialEq, Eq)]
pub enum IndexColumn {
    Id,
    Field(usize),
    Attr(usize),
}

/// The place of the field with this name.
fn field_place(schema: &Schema, name: &[u8]) -> Option<usize>
    ensures { result ≡ field_place schema.now name.now }
{
    schema
        .fields
        .as_slice()
        .iter()
        .position(|field| field.as_bytes() == name)
}

/// The place of the attribute with this name.
fn attr_place(schema: &Schema, name: &[u8]) -> Option<usize>
    ensures { result ≡ attr_place schema.now name.now }
{
    schema
        .attrs
        .as_slice()
        .iter()
        .position(|attr| attr.0.as_bytes() == name)
}

/// The column of this name.
pub fn column_named(schema: &Schema, name: &[u8]) -> Option<IndexColumn>
    ensures { result ≡ column_named schema.now name.now }
{
    if name == ID {
        return Some(IndexColumn::Id);
    }
    if let Some(field) = field_place(schema, name) {
        return Some(IndexColumn::Field(field));
    }
    match attr_place(schema, name) {
        Some(attr) => Some(IndexColumn::Attr(attr)),
        None => None,
    }
}

/// What is wrong with a name in a list of columns, by whether it is among those before it: no column has it, or it is there twice.
pub fn name_fault(schema: &Schema, before: bool, name: &[u8]) -> Option<Refusal>
    ensures { result ≡ name_fault schema.now before name.now }
{
    if column_named(schema, name).is_none() {
        Some(unknown_column(name))
    } else if before {
        Some(column_twice(name))
    } else {
        None
    }
}

/// All columns in schema order.
pub fn all_columns(alloc: Global, schema: &Schema) -> Result<Vec<IndexColumn>, NoMemory>
    ensures { IfOk result (λ columns. columns.items ≡ all_columns schema.now) }
{
    let mut columns = Vec::new(alloc);
    columns.push(IndexColumn::Id)?;
    'fields: for field in 0..schema.fields.len() {
        columns.push(IndexColumn::Field(field))?;
    }
    'attrs: for attr in 0..schema.attrs.len() {
        columns.push(IndexColumn::Attr(attr))?;
    }
    Ok(columns)
}

/// A column's name.
pub fn name_of(schema: &Schema, column: IndexColumn) -> &[u8]
    ensures { result.now ≡ name_of schema.now column }
{
    match column {
        IndexColumn::Id => ID,
        IndexColumn::Field(field) => match schema.fields.as_slice().get(field) {
            Some(name) => name.as_bytes(),
            None => b"",
        },
        IndexColumn::Attr(attr) => match schema.attrs.as_slice().get(attr) {
            Some(attr) => attr.0.as_bytes(),
            None => b"",
        },
    }
}

/// The kind of an attribute; an attribute that the schema doesn't have counts as `Uint`.
pub fn kind_of(schema: &Schema, attr: usize) -> AttrKind
    ensures { result ≡ kind_of schema.now attr }
{
    match schema.attrs.as_slice().get(attr) {
        Some(attr) => attr.1,
        None => AttrKind::Uint,
    }
}
