//! The aggregates of a group, and each of them while rows come one after the other.
ghost use Rattle.std.specs.Prelude.{◌≡◌, ◌++◌, [], ◌∷◌, List, IfOk, OnOk};
ghost use Rattle.std.specs.Int.{int_max, int_min};
ghost use Rattle.row_select.specs.Columns.{column_value};
ghost use Rattle.row_select.specs.declared.row.Row.{Row as RowValue};
ghost use Rattle.group_facet.specs.Folds.{IsFolded};
ghost use Rattle.group_facet.specs.RunningFolds.{IsRunning, fold_of};

use indexmap::IndexSet;
use row_select::{ColumnRef, FoundRow};
use srch_base::NoMemory;
use std::alloc::Global;

/// An aggregate over the rows of a group.
#[derive(Clone, Copy)]
pub enum Fold {
    /// `COUNT(*)`
    Count,
    /// `COUNT(DISTINCT a)`: how many different values the rows have in a column.
    Distinct(ColumnRef),
    /// `MIN(a)`
    Least(ColumnRef),
    /// `MAX(a)`
    Greatest(ColumnRef),
    /// `SUM(a)`, exact in 128 bits.
    Sum(ColumnRef),
}

/// An aggregate over the rows that came so far: at least one.
#[derive(Drop)]
pub(crate) enum Running {
    Count(u64),
    Distinct(SeenValues),
    Least(KeptValue),
    Greatest(KeptValue),
    Sum(KeptValue),
}

/// The different values of a column.
#[derive(Drop)]
pub(crate) struct SeenValues {
    column: ColumnRef,
    values: IndexSet<i128>,
}

/// A number that is made of the values of a column.
#[derive(Clone, Copy)]
pub(crate) struct KeptValue {
    column: ColumnRef,
    value: i128,
}

impl KeptValue {
    fn of<R: FoundRow>(column: ColumnRef, row: &R) -> KeptValue
        ensures column { result.column ≡ column }
        ensures value { result.value ≡ column_value column (R.as_row row.now) }
    {
        KeptValue {
            column,
            value: row.value(column),
        }
    }

    /// The lesser of the number and what one row more has.
    fn lesser<R: FoundRow>(self, row: &R) -> KeptValue
        ensures column { result.column ≡ self.column }
        ensures value { result.value ≡ int_min (column_value self.column (R.as_row row.now)) self.value }
    {
        KeptValue {
            column: self.column,
            value: row.value(self.column).min(self.value),
        }
    }

    /// The greater of them.
    fn greater<R: FoundRow>(self, row: &R) -> KeptValue
        ensures column { result.column ≡ self.column }
        ensures value { result.value ≡ int_max (column_value self.column (R.as_row row.now)) self.value }
    {
        KeptValue {
            column: self.column,
            value: row.value(self.column).max(self.value),
        }
    }
}

impl Running {
    /// Of one row alone.
    pub(crate) fn first<R: FoundRow>(
        alloc: Global,
        fold: Fold,
        row: &R,
    ) -> Result<Running, NoMemory>
        ensures { IfOk result (λ running. (fold_of running ≡ fold) × IsRunning running (R.as_row row.now ∷ [])) }
    {
        Ok(match fold {
            Fold::Count => Running::Count(1),
            Fold::Distinct(column) => {
                let mut values = IndexSet::new(alloc);
                values.insert(row.value(column))?;
                Running::Distinct(SeenValues { column, values })
            }
            Fold::Least(column) => Running::Least(KeptValue::of(column, row)),
            Fold::Greatest(column) => Running::Greatest(KeptValue::of(column, row)),
            Fold::Sum(column) => Running::Sum(KeptValue::of(column, row)),
        })
    }

    /// Of one row more.
    pub(crate) fn add<R: FoundRow>(&mut self, row: &R) -> Result<(), NoMemory>
        ensures fold { fold_of self.new ≡ fold_of self.old }
        ensures running { (rows : List RowValue) → IsRunning self.old rows → OnOk result (IsRunning self.new (rows ++ R.as_row row.now ∷ [])) }
    {
        match self {
            Running::Count(count) => *count = count.checked_add(1).ok_or(NoMemory)?,
            Running::Distinct(seen) => {
                seen.values.insert(row.value(seen.column))?;
            }
            Running::Least(least) => *least = least.lesser(row),
            Running::Greatest(greatest) => *greatest = greatest.greater(row),
            Running::Sum(sum) => {
                sum.value = sum
                    .value
                    .checked_add(row.value(sum.column))
                    .ok_or(NoMemory)?;
            }
        }
        Ok(())
    }

    /// The aggregate's value.
    pub(crate) fn value(&self) -> i128
        ensures { (rows : List RowValue) → IsRunning self.now rows → IsFolded rows (fold_of self.now) result }
    {
        match self {
            Running::Count(count) => i128::from(*count),
            Running::Distinct(seen) => seen.values.len() as i128,
            Running::Least(kept) | Running::Greatest(kept) | Running::Sum(kept) => kept.value,
        }
    }
}
