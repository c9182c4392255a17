//! What becomes of transactions, as the tables say it.
use crate::over_a_store::{INSERTED, Layers, STORED, wrong_of_a_store};
use crate::over_layers::wrong_over_layers;
use commit_outcomes::CommitOutcome;
use doc_types::{Chunk, Layer, Snapshot};
use layer_commit::is_dead;
use std::alloc::Global;

/// Appends a row by its id and the number of its commit, in parentheses where it is dead.
fn put_row(id: u64, born: u64, dead: bool, told: &mut String) -> Option<()> {
    if dead {
        write!(told, " ({id}@{born})").ok()
    } else {
        write!(told, " {id}@{born}").ok()
    }
}

/// Appends the rows of a layer.
fn put_layer<C: Chunk>(layer: &Layer<C>, told: &mut String) -> Option<()> {
    told.push_str(" /").ok()?;
    for number in 0..layer.chunk.rows() {
        let (id, born) = (layer.chunk.id(number), layer.chunk.born(number));
        put_row(id, born, is_dead(layer.dead.as_slice(), number), told)?;
    }
    Some(())
}

/// Appends why a transaction is refused.
fn put_refusal(outcome: CommitOutcome, told: &mut String) -> Option<()> {
    match outcome {
        CommitOutcome::Duplicate { id } => write!(told, "{id} is there").ok(),
        CommitOutcome::Full(full) => {
            let (at, need) = (full.at, full.need);
            write!(told, "full at {at} needs {need}").ok()
        }
        _ => None,
    }
}

/// Appends what becomes of a transaction: how many ids a commit removed, its number, and the layers that it leaves; or why it is
/// refused.
pub(crate) fn put_outcome<C: Chunk>(
    outcome: CommitOutcome,
    snapshot: &Snapshot<C>,
    told: &mut String,
) -> Option<()> {
    let CommitOutcome::Committed { removed } = outcome else {
        return put_refusal(outcome, told);
    };
    let number = snapshot.number;
    write!(told, "{removed} removed, {number}").ok()?;
    for layer in snapshot.layers.as_slice() {
        put_layer(layer, told)?;
    }
    Some(())
}

/// Appends the same, but of the layers only the shape of those on the disk, and how many there are.
pub(crate) fn put_count<C: Chunk>(
    outcome: CommitOutcome,
    snapshot: &Snapshot<C>,
    told: &mut String,
) -> Option<()> {
    let CommitOutcome::Committed { removed } = outcome else {
        return put_refusal(outcome, told);
    };
    let (number, shape) = (snapshot.number, snapshot.shape);
    let count = snapshot.layers.len();
    write!(
        told,
        "{removed} removed, {number} of shape {shape} with {count}"
    )
    .ok()
}

/// The first line of the tables of which something else becomes; that is told.
pub(crate) fn wrong_commit(alloc: Global, told: &mut String) -> Option<&'static str> {
    if let Some(line) = wrong_over_layers(alloc, told) {
        return Some(line);
    }
    if let Some(line) = wrong_of_a_store(alloc, STORED, &Layers::Told, told) {
        return Some(line);
    }
    wrong_of_a_store(alloc, INSERTED, &Layers::Counted, told)
}
