//! A group while its rows come one after the other.
ghost use Rattle.std.specs.Prelude.{◌≡◌, ◌++◌, [], ◌∷◌, List, IfOk, OnOk};
ghost use Rattle.std.specs.List.{AllZip};
ghost use Rattle.row_select.specs.declared.row.Row.{Row as RowValue};
ghost use Rattle.group_facet.specs.Folds.{IsFolded};
ghost use Rattle.group_facet.specs.Groups.{IsFirst, IsGroup};
ghost use Rattle.group_facet.specs.declared.fold.Fold.{Fold as FoldValue};
ghost use Rattle.group_facet.specs.declared.grouping.Group.{Group as GroupValue};
ghost use Rattle.group_facet.specs.RunningFolds.{AreRunning};
ghost use Rattle.group_facet.specs.Gathering.{IsPart};

use crate::fold::{Fold, Running};
use crate::grouping::{Group, GroupRow};
use row_select::{FoundRow, Order, Row};
use srch_base::{Items, NoMemory};
use std::alloc::Global;

/// The rows of a group so far: the first of them, and the aggregates.
#[derive(Drop)]
pub(crate) struct Part {
    pub(crate) best: Row,
    pub(crate) folds: Vec<Running>,
}

impl Part {
    /// Of one row alone.
    pub(crate) fn first<R: FoundRow>(
        alloc: Global,
        group: &Group,
        row: &R,
    ) -> Result<Part, NoMemory>
        ensures { IfOk result (IsPart group.now (R.as_row row.now ∷ [])) }
    {
        let best = row.copy()?;
        let folds = first_folds(alloc, group.folds.as_slice(), row)?;
        Ok(Part { best, folds })
    }

    /// Of one row more.
    pub(crate) fn add<R: FoundRow>(&mut self, group: &Group, row: &R) -> Result<(), NoMemory>
        ensures { (rows : List RowValue) → IsPart group.now rows self.old → OnOk result (IsPart group.now (rows ++ R.as_row row.now ∷ []) self.new) }
    {
        keep_first(&mut self.best, &group.within, row)?;
        add_to_folds(&mut self.folds, row)?;
        Ok(())
    }

    /// The group as it is shown.
    pub(crate) fn into_row(self, alloc: Global, key: i128) -> Result<GroupRow, NoMemory>
        ensures { (group : GroupValue) (rows : List RowValue) → IsPart group rows self → IfOk result (IsGroup group key rows) }
    {
        let Part { best, folds } = self;
        let folded = values_of(alloc, &folds)?;
        Ok(GroupRow {
            key,
            best,
            folded: Items::new(folded),
        })
    }
}

/// The aggregates of one row.
fn first_folds<R: FoundRow>(
    alloc: Global,
    folds: &[Fold],
    row: &R,
) -> Result<Vec<Running>, NoMemory>
    ensures { IfOk result (λ running. AreRunning folds.now (R.as_row row.now ∷ []) running.items) }
{
    let mut running = Vec::with_capacity(alloc, folds.len())?;
    for fold in folds {
        running.push(Running::first(alloc, *fold, row)?)?;
    }
    Ok(running)
}

/// The aggregates of one row more.
fn add_to_folds<R: FoundRow>(folds: &mut [Running], row: &R) -> Result<(), NoMemory>
    ensures { (which : List FoldValue) (rows : List RowValue) → AreRunning which rows folds.old → OnOk result (AreRunning which (rows ++ R.as_row row.now ∷ []) folds.new) }
{
    for fold in folds.iter_mut() {
        fold.add(row)?;
    }
    Ok(())
}

/// Puts a row in the place of the first, where it comes before that.
fn keep_first<R: FoundRow>(first: &mut Row, within: &Order, row: &R) -> Result<(), NoMemory>
    ensures { (rows : List RowValue) → IsFirst within.now.keys rows first.old → OnOk result (IsFirst within.now.keys (rows ++ R.as_row row.now ∷ []) first.new) }
{
    if within.compare(row, first).is_lt() {
        *first = row.copy()?;
    }
    Ok(())
}

/// The values of aggregates.
fn values_of(alloc: Global, folds: &[Running]) -> Result<Vec<i128>, NoMemory>
    ensures { (which : List FoldValue) (rows : List RowValue) → AreRunning which rows folds.now → IfOk result (λ values. AllZip (IsFolded rows) which values.items) }
{
    let mut values = Vec::with_capacity(alloc, folds.len())?;
    for fold in folds {
        values.push(fold.value())?;
    }
    Ok(values)
}
