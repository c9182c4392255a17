//! What a transaction comes to: its operations are tried in order over the ids that are there.
//!
//! Of each id it matters only what the last operation that names it does, so a set of the ids that were named and a map of the
//! documents that are put are all that is kept. Documents are borrowed from the transaction.
ghost use Rattle.std.specs.Prelude.{◌≡◌, ◌+◌, ◌<◌, ◌^◌, IfOk, OnOk, length};
ghost use Rattle.std.specs.BTreeMap.{IsOrdered};
ghost use Rattle.std.specs.List.Sorted.{IsStrictlySortedBy};
ghost use Rattle.std.specs.Map.{values_of};
ghost use Rattle.std.specs.Ordering.{nat_cmp};
ghost use Rattle.layer_commit.specs.steps.Trying.{Clears, Kills, Puts, Tries, TriesOp, is_there};

use crate::finding::lives;
use crate::refusal::Refusal;
use doc_types::{Chunk, Doc, Layer, TxnOp};
use srch_base::{NoMemory, Or};
use std::alloc::Global;
use std::collections::{BTreeMap, BTreeSet};

/// What the operations that were tried so far leave.
#[derive(Drop)]
pub(crate) struct Trial<'t> {
    /// All rows that the layers have are gone.
    cleared: bool,
    /// The ids that were named since then.
    ids: BTreeSet<u64>,
    /// The documents that are put, by their ids.
    docs: BTreeMap<u64, &'t Doc>,
    /// How many ids that were killed were there.
    removed: u32,
}

/// What a transaction does to the layers of a snapshot.
#[derive(Drop)]
pub(crate) struct Outcome<'t> {
    /// All rows of the layers die.
    pub(crate) cleared: bool,
    /// The ids whose rows die, ascending.
    pub(crate) ids: Vec<u64>,
    /// The documents that are put, by ascending id.
    pub(crate) docs: Vec<&'t Doc>,
    /// How many ids that were killed were there.
    pub(crate) removed: u32,
}

/// Whether the id is there.
fn is_there<C: Chunk>(layers: &[Layer<C>], trial: &Trial<'_>, id: u64) -> bool
    ensures { result ≡ is_there layers.now trial.now id }
{
    if trial.docs.contains_key(&id) {
        return true;
    }
    let named = trial.cleared || trial.ids.contains(&id);
    !named && lives(layers, id)
}

/// The document is put.
fn put<'t>(trial: &mut Trial<'t>, doc: &'t Doc) -> Result<(), NoMemory>
    ensures { OnOk result (Puts doc.entry trial.old trial.new) }
{
    trial.ids.insert(doc.id)?;
    trial.docs.insert(doc.id, doc)?;
    Ok(())
}

/// The id is killed.
fn kill(trial: &mut Trial<'_>, id: u64) -> Result<(), NoMemory>
    ensures { OnOk result (Kills id trial.old trial.new) }
{
    trial.ids.insert(id)?;
    trial.docs.remove(&id);
    Ok(())
}

/// All is cleared.
fn clear(trial: &mut Trial<'_>)
    ensures { Clears trial.old trial.new }
{
    trial.cleared = true;
    trial.ids.clear();
    trial.docs.clear();
}

/// Tries an operation.
fn try_op<'t, C: Chunk>(
    layers: &[Layer<C>],
    trial: &mut Trial<'t>,
    op: &'t TxnOp,
) -> Result<(), Or<Refusal>>
    requires { trial.old.removed + 1 < 2 ^ 32 }
    ensures { TriesOp layers.now op.now trial.old result trial.new }
{
    match op {
        TxnOp::Insert(doc) => {
            if is_there(layers, trial, doc.id) {
                return Err(Or::Fault(Refusal::Duplicate { id: doc.id }));
            }
            put(trial, doc)?;
        }
        TxnOp::Put(doc) => put(trial, doc)?,
        TxnOp::Kill(id) => {
            if is_there(layers, trial, *id) {
                trial.removed += 1;
            }
            kill(trial, *id)?;
        }
        TxnOp::Clear => clear(trial),
    }
    Ok(())
}

/// The ids of a set, ascending.
fn ids_in(alloc: Global, ids: BTreeSet<u64>) -> Result<Vec<u64>, NoMemory>
    ensures ids { IfOk result (λ list. list.items ≡ ids.keys) }
    ensures ordered { IsStrictlySortedBy nat_cmp ids.keys }
{
    Ok(ids.into_iter().collect(alloc)?)
}

/// The documents of a map, by ascending id.
fn docs_in<'t>(alloc: Global, docs: BTreeMap<u64, &'t Doc>) -> Result<Vec<&'t Doc>, NoMemory>
    ensures docs { IfOk result (λ list. list.items ≡ values_of docs.entry.entries) }
    ensures ordered { IsOrdered nat_cmp docs.entry }
{
    // What is known of a map's order is known where its length is.
    let _count = docs.len();
    Ok(docs.into_values().collect(alloc)?)
}

/// Tries a transaction.
pub(crate) fn try_all<'t, C: Chunk>(
    alloc: Global,
    layers: &[Layer<C>],
    ops: &'t [TxnOp],
) -> Result<Outcome<'t>, Or<Refusal>>
    requires { length ops.now < 2 ^ 32 }
    ensures { Tries layers.now ops.now result }
{
    let mut trial = Trial {
        cleared: false,
        ids: BTreeSet::new(alloc),
        docs: BTreeMap::new(alloc),
        removed: 0,
    };
    for op in ops {
        try_op(layers, &mut trial, op)?;
    }
    let Trial {
        cleared,
        ids,
        docs,
        removed,
    } = trial;
    let ids = ids_in(alloc, ids)?;
    let docs = docs_in(alloc, docs)?;
    Ok(Outcome {
        cleared,
        ids,
        docs,
        removed,
    })
}
