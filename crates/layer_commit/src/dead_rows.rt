//! The rows of a layer that are dead after a commit.
//!
//! Ids ascend, and so do the rows of a layer by their ids; so the rows that die are found in their order, and their list is put
//! together with that of the dead in one pass. A layer in which none dies keeps its list.
ghost use Rattle.std.specs.Prelude.{◌≡◌, ◌<◌, ◌≤◌, ◌==◌, ◌||◌, ◌++◌, [], ◌∷◌, true, AllPairs, IfOk, OnOk, drop, length, take};
ghost use Rattle.std.specs.Arc.{arc_value};
ghost use Rattle.std.specs.List.{cons_option, list_any, filter_map};
ghost use Rattle.layer_commit.specs.steps.Finding.{before, dead_with, joined, living_row};

use crate::finding::living_row;
use doc_types::{Chunk, Layer};
use srch_base::{Items, NoMemory};
use std::alloc::Global;
use std::sync::Arc;

/// Appends the number of the row that lives and has the id, if there is one.
fn push_living<C: Chunk>(layer: &Layer<C>, id: u64, rows: &mut Vec<u32>) -> Result<(), NoMemory>
    ensures { OnOk result (rows.new.items ≡ rows.old.items ++ cons_option (living_row layer.now id) []) }
{
    if let Some(row) = living_row(layer, id) {
        rows.push(row)?;
    }
    Ok(())
}

/// The numbers of the rows that live and have these ids.
fn rows_of<C: Chunk>(alloc: Global, layer: &Layer<C>, ids: &[u64]) -> Result<Vec<u32>, NoMemory>
    ensures { IfOk result (λ rows. rows.items ≡ filter_map (living_row layer.now) ids.now) }
{
    let mut rows = Vec::new(alloc);
    for id in ids {
        push_living(layer, *id, &mut rows)?;
    }
    Ok(rows)
}

/// How many rows the layer has.
fn row_count<C: Chunk>(layer: &Layer<C>) -> u32
    ensures { result ≡ length layer.now.rows }
{
    layer.chunk.rows()
}

/// All rows of the layer.
fn all_rows<C: Chunk>(alloc: Global, layer: &Layer<C>) -> Result<Vec<u32>, NoMemory>
    ensures { IfOk result (λ rows. rows.items ≡ dead_with (λ id. true) layer.now) }
{
    let count = row_count(layer);
    let mut rows = Vec::with_capacity(alloc, count as usize)?;
    for row in 0..count {
        rows.push(row)?;
    }
    Ok(rows)
}

/// Appends the dead rows that stand before a row, and the row; and says how many these are.
fn push_up_to(rows: &mut Vec<u32>, dead: &[u32], row: u32) -> Result<usize, NoMemory>
    requires { AllPairs (λ row later. row < later) dead.now }
    ensures count { IfOk result (λ count. count ≡ before row dead.now) }
    ensures within { IfOk result (λ count. count ≤ length dead.now) }
    ensures rows { OnOk result (rows.new.items ≡ (rows.old.items ++ take (before row dead.now) dead.now) ++ row ∷ []) }
{
    let count = dead.partition_point(|dead| *dead < row);
    rows.extend_from_slice(&dead[..count])?;
    rows.push(row)?;
    Ok(count)
}

/// The rows that are left after so many.
fn left_from(rows: &[u32], count: usize) -> &[u32]
    requires { count ≤ length rows.now }
    ensures { result.now ≡ drop count rows.now }
{
    &rows[count..]
}

/// Two lists of rows in order, as one in order.
fn joined(alloc: Global, dead: &[u32], more: &[u32]) -> Result<Vec<u32>, NoMemory>
    requires { AllPairs (λ row later. row < later) dead.now }
    ensures { IfOk result (λ rows. rows.items ≡ joined dead.now more.now) }
{
    let mut rows = Vec::with_capacity(alloc, dead.len() + more.len())?;
    let mut rest = dead;
    for row in more {
        let count = push_up_to(&mut rows, rest, *row)?;
        rest = left_from(rest, count);
    }
    rows.extend_from_slice(rest)?;
    Ok(rows)
}

/// The dead rows of a layer after all of it, or its rows of these ids, die. Where none dies the list is shared.
pub(crate) fn dead_rows<C: Chunk>(
    alloc: Global,
    layer: &Layer<C>,
    cleared: bool,
    ids: &[u64],
) -> Result<Arc<Items<u32>, Global>, NoMemory>
    requires { AllPairs (λ id later. id < later) ids.now }
    ensures { IfOk result (λ dead. arc_value dead ≡ dead_with (λ id. cleared || list_any (λ n. n == id) ids.now) layer.now) }
{
    if cleared {
        return Ok(Arc::new(alloc, Items::new(all_rows(alloc, layer)?))?);
    }
    let rows = rows_of(alloc, layer, ids)?;
    if rows.is_empty() {
        return Ok(Arc::try_clone(&layer.dead)?);
    }
    let dead = joined(alloc, layer.dead.as_slice(), rows.as_slice())?;
    Ok(Arc::new(alloc, Items::new(dead))?)
}
