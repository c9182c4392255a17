//! What the keys of orders, and HAVING, look at.
ghost use Rattle.std.specs.Prelude.{◌≡◌, ◌<◌, ◌^◌, IfOk, OnOk, Some, true, false, length, map, fold, option_copied, slice_get};
ghost use Rattle.std.specs.List.{flat_map};
ghost use Rattle.std.specs.Option.{option_map};
ghost use Rattle.ql_select.specs.Faults.{having_faults, key_faults, sort_faults, unless_aliased};
ghost use Rattle.ql_select.specs.FirstFaults.{sooner};
ghost use Rattle.ql_select.specs.Names.{aliased, descends, having_source, item_or, key_source, order_key, row_column, row_item_or, sources_of, within_column, within_key};
ghost use Rattle.ql_select.specs.Targets.{column_of};

use crate::aliases::Aliases;
use crate::conditions::operator;
use crate::first_fault::FirstFault;
use crate::names::{HavingSource, KeySource, Source};
use crate::targets::column_of;
use doc_types::Schema;
use ql_tree::{Having, SortKey, SortName};
use row_select::ColumnRef;
use srch_base::{Items, NoMemory};
use std::alloc::Global;

/// The keys of ORDER BY; with each, whether it descends.
pub(crate) fn order_of(
    alloc: Global,
    schema: &Schema,
    aliases: &Aliases<'_>,
    keys: &[SortKey],
    faults: &mut FirstFault,
) -> Result<Items<(KeySource, bool)>, NoMemory>
    requires few { length schema.now.attrs < 2 ^ 16 }
    requires all { aliases.now.0 ≡ false }
    ensures order { IfOk result (λ order. order ≡ map (order_key schema.now aliases.now.1) keys.now) }
    ensures faults { OnOk result (faults.new.fault ≡ fold sooner faults.old.fault (flat_map (sort_faults schema.now false aliases.now.1) keys.now)) }
{
    let mut order = Vec::with_capacity(alloc, keys.len())?;
    'keys: for key in keys {
        order.push((key_source(schema, aliases, &key.by, faults), descends(key)))?;
    }
    Ok(Items::new(order))
}

/// What HAVING compares.
pub(crate) fn having_of(
    schema: &Schema,
    aliases: &Aliases<'_>,
    having: &Option<Having>,
    faults: &mut FirstFault,
) -> Option<HavingSource>
    requires few { length schema.now.attrs < 2 ^ 16 }
    requires all { aliases.now.0 ≡ false }
    ensures having { result ≡ option_map (having_source schema.now aliases.now.1) having.now }
    ensures faults { faults.new.fault ≡ fold sooner faults.old.fault (having_faults schema.now aliases.now.1 having.now) }
{
    match having {
        Some(having) => Some(HavingSource {
            left: key_source(schema, aliases, &having.left, faults),
            op: operator(having.op),
            value: having.value,
        }),
        None => None,
    }
}

/// What a key of ORDER BY, or HAVING, looks at.
fn key_source(
    schema: &Schema,
    aliases: &Aliases<'_>,
    by: &SortName,
    faults: &mut FirstFault,
) -> KeySource
    requires few { length schema.now.attrs < 2 ^ 16 }
    requires all { aliases.now.0 ≡ false }
    ensures source { result ≡ key_source schema.now aliases.now.1 by.now }
    ensures faults { faults.new.fault ≡ fold sooner faults.old.fault (key_faults schema.now false aliases.now.1 by.now) }
{
    match by {
        SortName::Column(name) => named_source(schema, aliases, name.as_bytes(), faults),
        SortName::Weight => KeySource::Column(ColumnRef::Weight),
        SortName::CountAll => KeySource::Count,
    }
}

/// What a name means: the first item that has it as its alias, else the id or an attribute.
fn named_source(
    schema: &Schema,
    aliases: &Aliases<'_>,
    name: &[u8],
    faults: &mut FirstFault,
) -> KeySource
    requires few { length schema.now.attrs < 2 ^ 16 }
    ensures source { result ≡ item_or (aliased aliases.now.0 aliases.now.1 name.now) (column_of schema.now name.now) }
    ensures faults { faults.new.fault ≡ fold sooner faults.old.fault (unless_aliased schema.now name.now (aliased aliases.now.0 aliases.now.1 name.now)) }
{
    match aliases.place(name) {
        Some(place) => KeySource::Item(place),
        None => KeySource::Column(column_of(schema, name, faults)),
    }
}

/// The keys of WITHIN GROUP ORDER BY; with each, whether it descends.
pub(crate) fn within_of(
    alloc: Global,
    schema: &Schema,
    aliases: &Aliases<'_>,
    sources: &[Source],
    keys: &[SortKey],
    faults: &mut FirstFault,
) -> Result<Items<(ColumnRef, bool)>, NoMemory>
    requires few { length schema.now.attrs < 2 ^ 16 }
    requires rows { aliases.now.0 ≡ true }
    requires sources { sources.now ≡ sources_of schema.now aliases.now.1 }
    ensures within { IfOk result (λ within. within ≡ map (within_key schema.now aliases.now.1) keys.now) }
    ensures faults { OnOk result (faults.new.fault ≡ fold sooner faults.old.fault (flat_map (sort_faults schema.now true aliases.now.1) keys.now)) }
{
    let mut within = Vec::with_capacity(alloc, keys.len())?;
    'keys: for key in keys {
        within.push((
            within_column(schema, aliases, sources, &key.by, faults),
            descends(key),
        ))?;
    }
    Ok(Items::new(within))
}

/// What a key looks at.
fn within_column(
    schema: &Schema,
    aliases: &Aliases<'_>,
    sources: &[Source],
    by: &SortName,
    faults: &mut FirstFault,
) -> ColumnRef
    requires few { length schema.now.attrs < 2 ^ 16 }
    requires rows { aliases.now.0 ≡ true }
    requires sources { sources.now ≡ sources_of schema.now aliases.now.1 }
    ensures column { result ≡ within_column schema.now aliases.now.1 by.now }
    ensures faults { faults.new.fault ≡ fold sooner faults.old.fault (key_faults schema.now true aliases.now.1 by.now) }
{
    match by {
        SortName::Column(name) => within_named(schema, aliases, sources, name.as_bytes(), faults),
        SortName::Weight => ColumnRef::Weight,
        SortName::CountAll => ColumnRef::Id,
    }
}

/// What a name means: the first item of rows that has it as its alias, else the id or an attribute.
fn within_named(
    schema: &Schema,
    aliases: &Aliases<'_>,
    sources: &[Source],
    name: &[u8],
    faults: &mut FirstFault,
) -> ColumnRef
    requires few { length schema.now.attrs < 2 ^ 16 }
    ensures column { result ≡ row_item_or sources.now (aliased aliases.now.0 aliases.now.1 name.now) (column_of schema.now name.now) }
    ensures faults { faults.new.fault ≡ fold sooner faults.old.fault (unless_aliased schema.now name.now (aliased aliases.now.0 aliases.now.1 name.now)) }
{
    match aliases.place(name) {
        Some(place) => row_column(sources, place),
        None => column_of(schema, name, faults),
    }
}

/// The column of rows that an item is the value of.
fn row_column(sources: &[Source], place: usize) -> ColumnRef
    ensures { result ≡ row_column (slice_get sources.now place) }
{
    match sources.get(place) {
        Some(Source::Row(column)) => *column,
        _ => ColumnRef::Id,
    }
}

/// Whether a key descends.
fn descends(key: &SortKey) -> bool
    ensures { result ≡ descends key.now }
{
    key.descending.unwrap_or(false)
}
