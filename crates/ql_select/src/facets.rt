//! The facets of a SELECT. "SELECT syntax" of the manual: FACET.
ghost use Rattle.std.specs.Prelude.{◌≡◌, ◌<◌, ◌^◌, ◌++◌, [], ◌∷◌, IfOk, OnOk, length, map, fold};
ghost use Rattle.std.specs.List.{flat_map};
ghost use Rattle.ql_select.specs.Facets.{by_count, counted, facet_column, facet_descends, facet_of};
ghost use Rattle.ql_select.specs.Faults.{facet_faults, facet_key_fault, facet_order_fault};
ghost use Rattle.ql_select.specs.FirstFaults.{sooner};

use crate::first_fault::{FaultClass, FirstFault};
use crate::limits::limits;
use crate::targets::{column_kind, column_of};
use doc_types::Schema;
use group_facet::Facet;
use mysql_wire::Column;
use ql_refusals::{Refusal, unknown_column};
use ql_tree::{FacetPart, SortKey, SortName};
use srch_base::{Items, NoMemory};
use std::alloc::Global;

/// The facets of a SELECT, and the columns of their values.
pub(crate) fn facets_of(
    alloc: Global,
    schema: &Schema,
    parts: &[FacetPart],
    faults: &mut FirstFault,
) -> Result<(Items<Facet>, Items<Column>), NoMemory>
    requires few { length schema.now.attrs < 2 ^ 16 }
    ensures facets { IfOk result (λ made. made.0 ≡ map (facet_of schema.now) parts.now) }
    ensures columns { IfOk result (λ made. made.1 ≡ map (facet_column schema.now) parts.now) }
    ensures faults { OnOk result (faults.new.fault ≡ fold sooner faults.old.fault (flat_map (facet_faults schema.now) parts.now)) }
{
    let mut facets = Vec::with_capacity(alloc, parts.len())?;
    let mut columns = Vec::with_capacity(alloc, parts.len())?;
    'parts: for part in parts {
        put_facet(schema, part, &mut facets, &mut columns, faults)?;
    }
    Ok((Items::new(facets), Items::new(columns)))
}

/// Appends the facet that a part asks for, and the column of its values.
fn put_facet(
    schema: &Schema,
    part: &FacetPart,
    facets: &mut Vec<Facet>,
    columns: &mut Vec<Column>,
    faults: &mut FirstFault,
) -> Result<(), NoMemory>
    requires few { length schema.now.attrs < 2 ^ 16 }
    ensures facets { OnOk result (facets.new.items ≡ facets.old.items ++ facet_of schema.now part.now ∷ []) }
    ensures columns { OnOk result (columns.new.items ≡ columns.old.items ++ facet_column schema.now part.now ∷ []) }
    ensures faults { OnOk result (faults.new.fault ≡ fold sooner faults.old.fault (facet_faults schema.now part.now)) }
{
    let facet = facet_of(schema, part, faults);
    facets.push(facet)?;
    columns.push(Column {
        name: part.column.clone()?,
        kind: column_kind(schema, facet.column),
    })?;
    Ok(())
}

/// The facet that a part asks for.
fn facet_of(schema: &Schema, part: &FacetPart, faults: &mut FirstFault) -> Facet
    requires few { length schema.now.attrs < 2 ^ 16 }
    ensures facet { result ≡ facet_of schema.now part.now }
    ensures faults { faults.new.fault ≡ fold sooner faults.old.fault (facet_faults schema.now part.now) }
{
    let column = column_of(schema, part.column.as_bytes(), faults);
    faults.note_any(
        FaultClass::Name,
        order_fault(part.column.as_bytes(), &part.order),
    );
    let (offset, count) = limits(part.limit);
    Facet {
        column,
        by_count: by_count(&part.order),
        descending: descends(&part.order),
        offset: counted(offset),
        count: counted(count),
    }
}

/// The order of a facet names the facet's own column.
fn order_fault(column: &[u8], order: &Option<SortKey>) -> Option<Refusal>
    ensures { result ≡ facet_order_fault column.now order.now }
{
    match order {
        Some(key) => key_fault(column, &key.by),
        None => None,
    }
}

fn key_fault(column: &[u8], by: &SortName) -> Option<Refusal>
    ensures { result ≡ facet_key_fault column.now by.now }
{
    match by {
        SortName::Column(name) if name.as_bytes() != column => {
            Some(unknown_column(name.as_bytes()))
        }
        _ => None,
    }
}

/// Whether a facet is ordered by its counts.
fn by_count(order: &Option<SortKey>) -> bool
    ensures { result ≡ by_count order.now }
{
    match order {
        Some(key) => matches!(key.by, SortName::CountAll),
        None => true,
    }
}

/// Whether a facet's order descends.
fn descends(order: &Option<SortKey>) -> bool
    ensures { result ≡ facet_descends order.now }
{
    match order {
        Some(key) => key.descending.unwrap_or(false),
        None => true,
    }
}

/// A number of values: no index has as many as this cuts off.
fn counted(number: u64) -> u32
    ensures { result ≡ counted number }
{
    number.min(u64::from(u32::MAX)) as u32
}
