//! The facets of a SELECT, which see each row that is found.
ghost use Rattle.std.specs.Prelude.{◌≡◌, ◌++◌, [], ◌∷◌, false, All, IfOk, List, OnOk};
ghost use Rattle.std.specs.List.{AllZip};
ghost use Rattle.group_facet.specs.Facets.{IsFacet};
ghost use Rattle.group_facet.specs.GatheringFacets.{CountsNoWeights};
ghost use Rattle.group_facet.specs.declared.facets.Facet.{Facet as FacetValue};
ghost use Rattle.row_select.specs.declared.row.Row.{Row as RowValue};
ghost use Rattle.table_search.specs.Gathering.{GatherFacets};

use group_facet::{Facet, FacetCounts};
use row_select::{FoundRow, Sink};
use srch_base::{Items, NoMemory};
use std::alloc::Global;

/// The counts of some facets over the rows that were offered so far.
#[derive(Drop)]
pub(crate) struct FacetSinks<'a> {
    list: Vec<FacetCounts<'a>>,
}

impl<'a> FacetSinks<'a> {
    /// Nothing was offered yet.
    pub(crate) fn new(alloc: Global, facets: &'a [Facet]) -> Result<FacetSinks<'a>, NoMemory>
        ensures { IfOk result (λ sinks. GatherFacets facets.now [] sinks.list.items) }
    {
        let mut list = Vec::with_capacity(alloc, facets.len())?;
        for facet in facets {
            list.push(FacetCounts::new(alloc, facet))?;
        }
        Ok(FacetSinks { list })
    }

    /// The facets of all rows that were offered.
    pub(crate) fn finish(self, alloc: Global) -> Result<Items<Items<(i128, u64)>>, NoMemory>
        ensures { (facets : List FacetValue) (offered : List RowValue) → GatherFacets facets offered self.entry.list.items → IfOk result (λ shown. AllZip (IsFacet offered) facets shown) }
    {
        let FacetSinks { list } = self;
        finish_all(alloc, list)
    }
}

/// What each facet shows.
fn finish_all(
    alloc: Global,
    list: Vec<FacetCounts<'_>>,
) -> Result<Items<Items<(i128, u64)>>, NoMemory>
    ensures { (facets : List FacetValue) (offered : List RowValue) → GatherFacets facets offered list.entry.items → IfOk result (λ shown. AllZip (IsFacet offered) facets shown) }
{
    let mut shown = Vec::with_capacity(alloc, list.len())?;
    for counts in list {
        shown.push(Items::new(counts.finish()?))?;
    }
    Ok(Items::new(shown))
}

/// Offers a row to each facet.
fn offer_to_all<R: FoundRow>(list: &mut [FacetCounts<'_>], row: &R) -> Result<(), NoMemory>
    ensures { (facets : List FacetValue) (offered : List RowValue) → GatherFacets facets offered list.old → OnOk result (GatherFacets facets (offered ++ R.as_row row.now ∷ []) list.new) }
{
    for counts in list.iter_mut() {
        counts.offer(row)?;
    }
    Ok(())
}

/// Whether one of the facets counts what rows weigh.
fn count_weights(list: &[FacetCounts<'_>]) -> bool
    ensures { result ≡ false → All CountsNoWeights list.now }
{
    list.iter().any(|counts| counts.counts_weights())
}

impl Sink for FacetSinks<'_> {
    ghost use Rattle.std.specs.Prelude.{◌≡◌, All, List, []};
    ghost use Rattle.group_facet.specs.GatheringFacets.{CountsNoWeights};
    ghost use Rattle.group_facet.specs.declared.facets.Facet.{Facet};
    ghost use Rattle.table_search.specs.Gathering.{GatherFacets};

    ghost Took = { λ first rows last. (facets : List Facet) → GatherFacets facets [] first.list.items → GatherFacets facets rows last.list.items };

    ghost Passes = { λ sinks row. All CountsNoWeights sinks.list.items };

    // How many rows there are tells no facet, so only where there is none.
    ghost Counts = { λ sinks most from. sinks.list.items ≡ [] };

    ghost nothing = { λ first facets so. so };

    fn offer<R: FoundRow>(&mut self, row: &R) -> Result<(), NoMemory> {
        offer_to_all(&mut self.list, row)
    }

    fn heeds<R: FoundRow>(&self, _row: &R) -> bool {
        count_weights(&self.list)
    }

    fn pass<R: FoundRow>(&mut self, row: &R) -> Result<(), NoMemory> {
        self.offer(row)?;
        Ok(())
    }

    fn only_counts(&self, _most: u64, _from: u64) -> bool {
        self.list.is_empty()
    }

    fn count(&mut self, _rows: u32) -> Result<(), NoMemory> {
        Ok(())
    }
}
