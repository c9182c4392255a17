//! The counts of a facet while rows come one after the other.
ghost use Rattle.std.specs.Prelude.{◌≡◌, ◌++◌, [], ◌∷◌, List, IfOk, OnOk, IsPermutation, take, drop};
ghost use Rattle.std.specs.List.Sorted.{IsSorted};
ghost use Rattle.row_select.specs.Filters.{is_weight};
ghost use Rattle.row_select.specs.Sinks.{IsLighter};
ghost use Rattle.row_select.specs.declared.row.Row.{Row as RowValue};
ghost use Rattle.group_facet.specs.Facets.{IsFacet, by_facet};
ghost use Rattle.group_facet.specs.GatheringFacets.{CountsNoWeights, GathersFacet};
ghost use Rattle.group_facet.specs.declared.facets.Facet.{Facet as FacetValue};

use crate::facets::Facet;
use crate::places::place_of;
use indexmap::IndexMap;
use row_select::{ColumnRef, FoundRow, Row};
use srch_base::NoMemory;
use std::alloc::Global;

/// The counts of a facet over the rows that were offered so far. A row costs one look-up, or none where the row before had the same
/// value, and isn't copied.
#[derive(Drop)]
pub struct FacetCounts<'a> {
    alloc: Global,
    facet: &'a Facet,
    counts: IndexMap<i128, u64>,
    /// The place of the value that was found last.
    last: usize,
}

impl<'a> FacetCounts<'a> {
    /// Nothing was offered yet.
    pub fn new(alloc: Global, facet: &'a Facet) -> FacetCounts<'a>
        ensures { GathersFacet facet.now [] result }
    {
        FacetCounts {
            alloc,
            facet,
            counts: IndexMap::new(alloc),
            last: 0,
        }
    }

    /// Offers a row. After an error the counts are of no use.
    pub fn offer<R: FoundRow>(&mut self, row: &R) -> Result<(), NoMemory>
        ensures { (facet : FacetValue) (offered : List RowValue) → GathersFacet facet offered self.old → OnOk result (GathersFacet facet (offered ++ R.as_row row.now ∷ []) self.new) }
    {
        let value = row.value(self.facet.column);
        match place_of(&self.counts, self.last, &value) {
            Some(place) => {
                self.last = place;
                let count = &mut self.counts[place];
                *count = count.checked_add(1).ok_or(NoMemory)?;
            }
            None => {
                self.last = self.counts.len();
                self.counts.insert(value, 1)?;
            }
        }
        Ok(())
    }

    /// Whether what is counted is the weights of the rows.
    pub fn counts_weights(&self) -> bool
        ensures { result ≡ is_weight self.now.facet.now.column }
    {
        matches!(self.facet.column, ColumnRef::Weight)
    }

    /// Offers a row that has the id and the values of this one and weighs no more, where weights aren't counted. After an error the
    /// counts are of no use.
    pub fn pass<R: FoundRow>(&mut self, row: &R) -> Result<(), NoMemory>
        requires { CountsNoWeights self.old }
        ensures { (facet : FacetValue) (offered : List RowValue) (its : RowValue) → IsLighter its (R.as_row row.now) → GathersFacet facet offered self.old → OnOk result (GathersFacet facet (offered ++ its ∷ []) self.new) }
    {
        self.offer(row)
    }

    /// The facet of all rows that were offered.
    pub fn finish(self) -> Result<Vec<(i128, u64)>, NoMemory>
        ensures { (facet : FacetValue) (offered : List RowValue) → GathersFacet facet offered self.entry → IfOk result (λ shown. IsFacet offered facet shown.items) }
    {
        let FacetCounts {
            alloc,
            facet,
            counts,
            ..
        } = self;
        let mut values = values_of(alloc, counts)?;
        put_in_order(&mut values, facet);
        page_of(alloc, values, facet)
    }
}

/// All values with their counts.
fn values_of(alloc: Global, counts: IndexMap<i128, u64>) -> Result<Vec<(i128, u64)>, NoMemory>
    ensures { IfOk result (λ values. values.items ≡ counts.entries) }
{
    let values = counts.into_iter().collect(alloc)?;
    Ok(values)
}

/// Puts values with their counts in the order of a facet.
fn put_in_order(values: &mut Vec<(i128, u64)>, facet: &Facet)
    ensures same { IsPermutation values.old.items values.new.items }
    ensures ascend { IsSorted (by_facet facet.now) values.new.items }
{
    values.sort_unstable_by(|value, other| facet.compare(value, other));
}

/// Those that the facet shows.
fn page_of(
    alloc: Global,
    values: Vec<(i128, u64)>,
    facet: &Facet,
) -> Result<Vec<(i128, u64)>, NoMemory>
    ensures { IfOk result (λ shown. shown.items ≡ take facet.now.count (drop facet.now.offset values.items)) }
{
    let shown = values
        .into_iter()
        .skip(facet.offset as usize)
        .take(facet.count as usize)
        .collect(alloc)?;
    Ok(shown)
}

/// The facet of rows: what is shown of the values of its column, each with the number of rows that have it.
pub fn facet(alloc: Global, rows: &[Row], facet: &Facet) -> Result<Vec<(i128, u64)>, NoMemory>
    ensures { IfOk result (λ shown. IsFacet rows.now facet.now shown.items) }
{
    let mut counts = FacetCounts::new(alloc, facet);
    for row in rows {
        counts.offer(row)?;
    }
    counts.finish()
}
