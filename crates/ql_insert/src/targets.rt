//! The columns that the values of an INSERT are for.
ghost use Rattle.std.specs.Prelude.{◌≡◌, filter_map, option_copied, IfOk};
ghost use Rattle.ql_columns.specs.Columns.{column_named};
ghost use Rattle.ql_insert.specs.Insertions.{targets};

use doc_types::Schema;
use ql_columns::{IndexColumn, all_columns, column_named};
use srch_base::{Name, NoMemory};
use std::alloc::Global;

/// The columns that a row's values are for.
pub(crate) fn targets(
    alloc: Global,
    schema: &Schema,
    columns: Option<&[Name]>,
) -> Result<Vec<IndexColumn>, NoMemory>
    ensures { IfOk result (λ list. list.items ≡ targets schema.now (option_copied columns.entry)) }
{
    match columns {
        None => all_columns(alloc, schema),
        Some(names) => named_targets(alloc, schema, names),
    }
}

fn named_targets(
    alloc: Global,
    schema: &Schema,
    names: &[Name],
) -> Result<Vec<IndexColumn>, NoMemory>
    ensures { IfOk result (λ list. list.items ≡ filter_map (column_named schema.now) names.now) }
{
    let list = names
        .iter()
        .filter_map(|name| column_named(schema, name.as_bytes()))
        .collect(alloc)?;
    Ok(list)
}
