//! A SELECT is gone over once, from left to right: each name is looked up where it stands, and turned into what it means.
//!
//! A name that means nothing is noted as a fault, and stands for the id meanwhile: a SELECT with a fault is refused at the end, by
//! the one that decides.
ghost use Rattle.std.specs.Prelude.{◌≡◌, ◌<◌, ◌^◌, IfOk, OnOk, None, false, true, length, fold};
ghost use Rattle.std.specs.List.{flat_map};
ghost use Rattle.std.specs.Option.{option_map};
ghost use Rattle.ql_select.specs.Faults.{expr_faults, faults_of, item_faults, name_faults};
ghost use Rattle.ql_select.specs.FirstFaults.{sooner};
ghost use Rattle.ql_select.specs.Names.{expr_source, item_source, names_of, sources_of};
ghost use Rattle.ql_select.specs.Targets.{column_of};
ghost use Rattle.ql_select.specs.steps.Naming.{NamesOr};

use crate::aliases::Aliases;
use crate::conditions::filters_of;
use crate::facets::facets_of;
use crate::faults::note_options;
use crate::first_fault::{FaultClass, FirstFault};
use crate::keys::{having_of, order_of, within_of};
use crate::limits::limits_fault;
use crate::names::{Names, Source};
use crate::targets::column_of;
use doc_types::Schema;
use group_facet::Fold;
use ql_refusals::Refusal;
use ql_tree::{Select, SelectExpr, SelectItem};
use row_select::ColumnRef;
use srch_base::{Items, Name, NoMemory, Or};
use std::alloc::Global;

/// The names of a SELECT, by what they mean, or the fault that decides.
pub(crate) fn names_of(
    alloc: Global,
    schema: &Schema,
    select: &Select,
) -> Result<Names, Or<Refusal>>
    requires few { length schema.now.attrs < 2 ^ 16 }
    ensures { NamesOr schema.now select.now result }
{
    let mut faults = FirstFault { fault: None };
    let names = go_over(alloc, schema, select, &mut faults)?;
    match faults.fault {
        Some(fault) => Err(Or::Fault(fault.refusal)),
        None => Ok(names),
    }
}

/// The names of a SELECT, while its faults are noted.
fn go_over(
    alloc: Global,
    schema: &Schema,
    select: &Select,
    faults: &mut FirstFault,
) -> Result<Names, NoMemory>
    requires few { length schema.now.attrs < 2 ^ 16 }
    ensures names { IfOk result (λ names. names ≡ names_of schema.now select.now) }
    ensures faults { OnOk result (faults.new.fault ≡ fold sooner faults.old.fault (faults_of schema.now select.now)) }
{
    let items = select.items.as_slice();
    let aliases = Aliases::of(alloc, false, items)?;
    let row_aliases = Aliases::of(alloc, true, items)?;
    go_over_with(alloc, schema, select, &aliases, &row_aliases, faults)
}

/// The names of a SELECT whose list has these aliases, while its faults are noted.
fn go_over_with(
    alloc: Global,
    schema: &Schema,
    select: &Select,
    aliases: &Aliases<'_>,
    row_aliases: &Aliases<'_>,
    faults: &mut FirstFault,
) -> Result<Names, NoMemory>
    requires few { length schema.now.attrs < 2 ^ 16 }
    requires aliases { aliases.now ≡ (false, select.now.items) }
    requires row_aliases { row_aliases.now ≡ (true, select.now.items) }
    ensures names { IfOk result (λ names. names ≡ names_of schema.now select.now) }
    ensures faults { OnOk result (faults.new.fault ≡ fold sooner faults.old.fault (faults_of schema.now select.now)) }
{
    let sources = sources_of(alloc, schema, select.items.as_slice(), faults)?;
    let filters = filters_of(alloc, schema, select.conds.as_slice(), faults)?;
    let group = group_of(schema, &select.group, faults);
    let keys = select.within.as_slice();
    let within = within_of(alloc, schema, row_aliases, sources.as_slice(), keys, faults)?;
    let having = having_of(schema, aliases, &select.having, faults);
    let order = order_of(alloc, schema, aliases, select.order.as_slice(), faults)?;
    note_options(schema, select.options.as_slice(), faults);
    let (facets, facet_columns) = facets_of(alloc, schema, select.facets.as_slice(), faults)?;
    faults.note_any(FaultClass::Limit, limits_fault(schema, select));
    Ok(Names {
        sources,
        filters,
        group,
        within,
        having,
        order,
        facets,
        facet_columns,
    })
}

/// What the items of the list are the values of.
fn sources_of(
    alloc: Global,
    schema: &Schema,
    items: &[SelectItem],
    faults: &mut FirstFault,
) -> Result<Items<Source>, NoMemory>
    requires few { length schema.now.attrs < 2 ^ 16 }
    ensures sources { IfOk result (λ sources. sources ≡ sources_of schema.now items.now) }
    ensures faults { OnOk result (faults.new.fault ≡ fold sooner faults.old.fault (flat_map (item_faults schema.now) items.now)) }
{
    let mut sources = Vec::with_capacity(alloc, items.len())?;
    'items: for item in items {
        sources.push(item_source(schema, item, faults))?;
    }
    Ok(Items::new(sources))
}

fn item_source(schema: &Schema, item: &SelectItem, faults: &mut FirstFault) -> Source
    requires few { length schema.now.attrs < 2 ^ 16 }
    ensures source { result ≡ item_source schema.now item.now }
    ensures faults { faults.new.fault ≡ fold sooner faults.old.fault (item_faults schema.now item.now) }
{
    match item {
        SelectItem::All => Source::All,
        SelectItem::One { expr, .. } => expr_source(schema, expr, faults),
    }
}

fn expr_source(schema: &Schema, expr: &SelectExpr, faults: &mut FirstFault) -> Source
    requires few { length schema.now.attrs < 2 ^ 16 }
    ensures source { result ≡ expr_source schema.now expr.now }
    ensures faults { faults.new.fault ≡ fold sooner faults.old.fault (expr_faults schema.now expr.now) }
{
    match expr {
        SelectExpr::Column(name) => Source::Row(column_of(schema, name.as_bytes(), faults)),
        SelectExpr::CountAll => Source::Folded(Fold::Count),
        SelectExpr::CountDistinct(name) => {
            Source::Folded(Fold::Distinct(column_of(schema, name.as_bytes(), faults)))
        }
        SelectExpr::Least(name) => {
            Source::Folded(Fold::Least(column_of(schema, name.as_bytes(), faults)))
        }
        SelectExpr::Greatest(name) => {
            Source::Folded(Fold::Greatest(column_of(schema, name.as_bytes(), faults)))
        }
        SelectExpr::Sum(name) => {
            Source::Folded(Fold::Sum(column_of(schema, name.as_bytes(), faults)))
        }
        SelectExpr::Weight => Source::Row(ColumnRef::Weight),
        SelectExpr::GroupBy => Source::Key,
    }
}

/// The column that rows are grouped by.
fn group_of(schema: &Schema, group: &Option<Name>, faults: &mut FirstFault) -> Option<ColumnRef>
    requires few { length schema.now.attrs < 2 ^ 16 }
    ensures group { result ≡ option_map (column_of schema.now) group.now }
    ensures faults { faults.new.fault ≡ fold sooner faults.old.fault (name_faults schema.now group.now) }
{
    match group {
        Some(name) => Some(column_of(schema, name.as_bytes(), faults)),
        None => None,
    }
}
