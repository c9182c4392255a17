//! An INSERT into an index, taken as a whole: its columns, then its values, then the texts of its fields.
ghost use Rattle.std.specs.Prelude.{option_copied};
ghost use Rattle.doc_types.specs.Schemas.{AreZones};
ghost use Rattle.ql_insert.specs.Insertions.{MakesOr};

use crate::documents::insertions;
use crate::faults::{columns_fault, rows_fault};
use crate::targets::targets;
use doc_types::Txn;
use index_conf::IndexConf;
use ql_refusals::Refusal;
use ql_tree::Val;
use srch_base::{Items, Name, Or};
use std::alloc::Global;

/// The transaction that inserts these rows into this index, or why they are refused. Without names the values are for all
/// columns, in the schema's order.
///
/// Want of memory is also the answer to 2^32 rows or more, to a text of 2^32 bytes or more and to a document of so many spans,
/// which no packet has.
pub fn insertion(
    alloc: Global,
    conf: &IndexConf,
    columns: Option<&[Name]>,
    rows: &[Items<Val>],
) -> Result<Txn, Or<Refusal>>
    requires zones { AreZones conf.now.rules.zones }
    ensures { MakesOr conf.now (option_copied columns.entry) rows.now result }
{
    if let Some(refusal) = columns_fault(&conf.schema, columns) {
        return Err(Or::Fault(refusal));
    }
    let targets = targets(alloc, &conf.schema, columns)?;
    if let Some(refusal) = rows_fault(&conf.schema, targets.as_slice(), rows) {
        return Err(Or::Fault(refusal));
    }
    insertions(alloc, conf, targets.as_slice(), rows)
}
