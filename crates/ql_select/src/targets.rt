//! The columns of numbers that names mean: the id and the attributes.
ghost use Rattle.std.specs.Prelude.{◌≡◌, ◌<◌, ◌^◌, length, fold};
ghost use Rattle.ql_select.specs.Faults.{column_faults};
ghost use Rattle.ql_select.specs.FirstFaults.{sooner};
ghost use Rattle.ql_select.specs.Targets.{attr_kind, column_kind, column_of};

use crate::first_fault::{FaultClass, FirstFault};
use doc_types::{AttrKind, Schema};
use mysql_wire::ColumnKind;
use ql_columns::{IndexColumn, column_named, kind_of};
use ql_refusals::{column_is_field, unknown_column};
use row_select::ColumnRef;

/// The column of numbers that a name means. One that means none is a fault, and counts as the id.
pub(crate) fn column_of(schema: &Schema, name: &[u8], faults: &mut FirstFault) -> ColumnRef
    requires few { length schema.now.attrs < 2 ^ 16 }
    ensures column { result ≡ column_of schema.now name.now }
    ensures faults { faults.new.fault ≡ fold sooner faults.old.fault (column_faults schema.now name.now) }
{
    match column_named(schema, name) {
        Some(IndexColumn::Id) => ColumnRef::Id,
        Some(IndexColumn::Attr(attr)) => ColumnRef::Attr(attr as u16),
        Some(IndexColumn::Field(_)) => {
            faults.note(FaultClass::Kind, column_is_field(name));
            ColumnRef::Id
        }
        None => {
            faults.note(FaultClass::Name, unknown_column(name));
            ColumnRef::Id
        }
    }
}

/// How the values of a column are sent.
pub(crate) fn column_kind(schema: &Schema, column: ColumnRef) -> ColumnKind
    ensures { result ≡ column_kind schema.now column }
{
    match column {
        ColumnRef::Id | ColumnRef::Weight => ColumnKind::Unsigned,
        ColumnRef::Attr(place) => attr_kind(kind_of(schema, place as usize)),
    }
}

fn attr_kind(kind: AttrKind) -> ColumnKind
    ensures { result ≡ attr_kind kind }
{
    match kind {
        AttrKind::Uint | AttrKind::Bool | AttrKind::Timestamp => ColumnKind::Uint,
        AttrKind::Bigint => ColumnKind::Whole,
    }
}
