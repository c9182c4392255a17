//! What the statements that write want: INSERT and REPLACE, DELETE, TRUNCATE. Each is committed by itself, or its operations are
//! pending from then on, within the limits of a transaction.
ghost use Rattle.std.specs.Prelude.{◌≡◌, IfOk, map, option_copied, true};
ghost use Rattle.doc_types.specs.declared.transactions.TxnOp.TheVariants.{Kill};
ghost use Rattle.ql_answers.specs.Transactions.{killing, put_by, stored, write_fault};
ghost use Rattle.ql_answers.specs.steps.Planning.{PlansDelete, PlansInsert, PlansTruncate, Writes};

use crate::indexes::{Catalog, served};
use crate::pending::{HEAD, MAX_OPERATIONS, MAX_TRANSACTION_BYTES};
use crate::plan::{Counted, Plan, affected};
use crate::state::State;
use doc_types::{Txn, TxnOp, txn_bytes};
use ql_insert::insertion;
use ql_refusals::{
    Refusal, other_index, too_many_operations, transaction_open, transaction_too_large,
};
use ql_tree::{Ids, Val};
use srch_base::{Items, Name, NoMemory, Or};
use std::alloc::Global;
use std::mem;

/// INSERT, and REPLACE, which puts the same documents.
pub(crate) fn plan_insert<T: Catalog>(
    alloc: Global,
    catalog: &T,
    state: &State,
    replace: bool,
    name: &[u8],
    columns: Option<&[Name]>,
    rows: &[Items<Val>],
) -> Result<Plan, Or<Refusal>>
    ensures { PlansInsert (T.confs catalog.now) state.now replace name.now (option_copied columns.entry) rows.now result }
{
    let index = served(catalog, name)?;
    let inserted = insertion(alloc, catalog.conf(index), columns, rows)?;
    write(state, index, stored(replace, inserted), Counted::Rows)
}

/// DELETE.
pub(crate) fn plan_delete<T: Catalog>(
    alloc: Global,
    catalog: &T,
    state: &State,
    name: &[u8],
    ids: &Ids,
) -> Result<Plan, Or<Refusal>>
    ensures { PlansDelete (T.confs catalog.now) state.now name.now ids.now result }
{
    let index = served(catalog, name)?;
    let txn = killing(alloc, ids)?;
    write(state, index, txn, Counted::Removed)
}

/// TRUNCATE is committed by itself at once, and only where no transaction is open.
pub(crate) fn plan_truncate<T: Catalog>(
    alloc: Global,
    catalog: &T,
    state: &State,
    name: &[u8],
) -> Result<Plan, Or<Refusal>>
    ensures { PlansTruncate (T.confs catalog.now) state.now name.now result }
{
    let index = served(catalog, name)?;
    if state.is_open() {
        return Err(Or::Fault(transaction_open()));
    }
    let mut ops = Vec::with_capacity(alloc, 1)?;
    ops.push(TxnOp::Clear)?;
    let ops = Items::new(ops);
    Ok(Plan::Put {
        index,
        txn: Txn { ops },
        counted: Counted::Nothing,
    })
}

/// The operations are committed by themselves, or are pending from now on.
fn write(state: &State, index: u16, txn: Txn, counted: Counted) -> Result<Plan, Or<Refusal>>
    ensures { Writes state.now index txn counted result }
{
    if let Some(refusal) = write_fault(state, index, &txn) {
        return Err(Or::Fault(refusal));
    }
    if state.is_alone() {
        return Ok(Plan::Put {
            index,
            txn,
            counted,
        });
    }
    let affected = affected(counted, txn.ops.len() as u64, 0);
    Ok(Plan::Keep {
        index,
        txn,
        affected,
    })
}

/// What forbids that these operations follow those that are pending.
fn write_fault(state: &State, index: u16, txn: &Txn) -> Option<Refusal>
    ensures { result ≡ write_fault state.now index txn.now }
{
    let (ops, bytes) = match &state.pending {
        Some(pending) if pending.place() != index => return Some(other_index()),
        Some(pending) => (pending.txn().ops.len(), pending.bytes() - HEAD),
        None => (0, 0),
    };
    if txn.ops.len().saturating_add(ops) > MAX_OPERATIONS {
        Some(too_many_operations())
    } else if txn_bytes(txn).saturating_add(bytes) > MAX_TRANSACTION_BYTES {
        Some(transaction_too_large())
    } else {
        None
    }
}

/// The transaction of an INSERT, or of a REPLACE, whose rows are inserted by this one.
fn stored(replace: bool, inserted: Txn) -> Txn
    ensures { result ≡ stored replace inserted }
{
    if replace { putting(inserted) } else { inserted }
}

/// The transaction that puts the documents that this one inserts.
fn putting(txn: Txn) -> Txn
    ensures { result ≡ stored true txn }
{
    let mut ops = txn.ops.into_vec();
    put_all(&mut ops);
    let ops = Items::new(ops);
    Txn { ops }
}

/// Makes each operation put what it inserts.
fn put_all(ops: &mut [TxnOp])
    ensures { ops.new ≡ map put_by ops.old }
{
    'ops: for op in ops.iter_mut() {
        put(op);
    }
}

/// Makes an operation put what it inserts.
fn put(op: &mut TxnOp)
    ensures { op.new ≡ put_by op.old }
{
    *op = match mem::replace(op, TxnOp::Clear) {
        TxnOp::Insert(doc) => TxnOp::Put(doc),
        other => other,
    };
}

/// The transaction that kills these ids.
fn killing(alloc: Global, ids: &Ids) -> Result<Txn, NoMemory>
    ensures { IfOk result (λ txn. txn ≡ killing ids.now) }
{
    match ids {
        Ids::One(id) => kills(alloc, &[*id]),
        Ids::Several(ids) => kills(alloc, ids.as_slice()),
    }
}

fn kills(alloc: Global, ids: &[u64]) -> Result<Txn, NoMemory>
    ensures { IfOk result (λ txn. txn ≡ record { ops = map Kill ids.now }) }
{
    let mut ops = Vec::with_capacity(alloc, ids.len())?;
    'ids: for id in ids {
        ops.push(TxnOp::Kill(*id))?;
    }
    let ops = Items::new(ops);
    Ok(Txn { ops })
}
