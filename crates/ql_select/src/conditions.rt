//! The conditions of a SELECT: its MATCH, and those on columns.
ghost use Rattle.std.specs.Prelude.{◌≡◌, ◌++◌, [], ◌∷◌, IfOk, OnOk, ◌<◌, ◌^◌, length, fold};
ghost use Rattle.std.specs.List.{flat_map};
ghost use Rattle.ql_select.specs.Faults.{cond_faults};
ghost use Rattle.ql_select.specs.FirstFaults.{sooner};
ghost use Rattle.ql_select.specs.Parts.{cond_filters, filters_of, match_text, operator};

use crate::first_fault::FirstFault;
use crate::targets::column_of;
use doc_types::Schema;
use ql_tree::{Comparison, Cond};
use row_select::{CompareOp, Filter};
use srch_base::{Items, NoMemory};
use std::alloc::Global;

/// The text of the MATCH; the empty text where there is none.
pub(crate) fn match_text(conds: &[Cond]) -> &[u8]
    ensures { result.now ≡ match_text conds.now }
{
    'conds: for cond in conds {
        if let Cond::Match(text) = cond {
            return text.as_bytes();
        }
    }
    b""
}

/// The conditions on columns.
pub(crate) fn filters_of(
    alloc: Global,
    schema: &Schema,
    conds: &[Cond],
    faults: &mut FirstFault,
) -> Result<Items<Filter>, NoMemory>
    requires few { length schema.now.attrs < 2 ^ 16 }
    ensures filters { IfOk result (λ filters. filters ≡ filters_of schema.now conds.now) }
    ensures faults { OnOk result (faults.new.fault ≡ fold sooner faults.old.fault (flat_map (cond_faults schema.now) conds.now)) }
{
    let mut filters = Vec::new(alloc);
    'conds: for cond in conds {
        put_filter(schema, cond, &mut filters, faults)?;
    }
    Ok(Items::new(filters))
}

/// Appends what a condition asks of a column.
fn put_filter(
    schema: &Schema,
    cond: &Cond,
    filters: &mut Vec<Filter>,
    faults: &mut FirstFault,
) -> Result<(), NoMemory>
    requires few { length schema.now.attrs < 2 ^ 16 }
    ensures filters { OnOk result (filters.new.items ≡ filters.old.items ++ cond_filters schema.now cond.now) }
    ensures faults { OnOk result (faults.new.fault ≡ fold sooner faults.old.fault (cond_faults schema.now cond.now)) }
{
    match cond {
        Cond::Match(_) => Ok(()),
        Cond::Compare { name, op, value } => {
            let column = column_of(schema, name.as_bytes(), faults);
            let compare = Filter::Compare {
                column,
                op: operator(*op),
                value: *value,
            };
            put(compare, filters)
        }
        Cond::Among {
            name,
            values,
            negated,
        } => {
            let column = column_of(schema, name.as_bytes(), faults);
            let among = Filter::Among {
                column,
                values: values.clone()?,
                negated: *negated,
            };
            put(among, filters)
        }
        Cond::Between { name, low, high } => {
            let column = column_of(schema, name.as_bytes(), faults);
            let between = Filter::Between {
                column,
                low: *low,
                high: *high,
            };
            put(between, filters)
        }
    }
}

/// Appends a condition on a column.
fn put(filter: Filter, filters: &mut Vec<Filter>) -> Result<(), NoMemory>
    ensures { OnOk result (filters.new.items ≡ filters.old.items ++ filter ∷ []) }
{
    filters.push(filter)?;
    Ok(())
}

pub(crate) fn operator(op: Comparison) -> CompareOp
    ensures { result ≡ operator op }
{
    match op {
        Comparison::Equal => CompareOp::Equal,
        Comparison::NotEqual => CompareOp::NotEqual,
        Comparison::Less => CompareOp::Less,
        Comparison::Greater => CompareOp::Greater,
        Comparison::AtMost => CompareOp::AtMost,
        Comparison::AtLeast => CompareOp::AtLeast,
    }
}
