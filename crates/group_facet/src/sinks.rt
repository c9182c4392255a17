//! Groups and facets as sinks: what a search finds is offered to them in its one pass.
use crate::facet_counts::FacetCounts;
use crate::groups::Groups;
use row_select::{FoundRow, Sink};
use srch_base::NoMemory;

impl Sink for Groups<'_> {
    ghost use Rattle.std.specs.Prelude.{◌≡◌, []};
    ghost use Rattle.group_facet.specs.Gathering.{GathersGroups};
    ghost use Rattle.group_facet.specs.declared.grouping.Group.{Group};

    ghost Took = { λ first rows last. (group : Group) → GathersGroups group [] first → GathersGroups group rows last };

    // What rows weigh may matter to a group: which of them is its row, and its aggregates. Of a bound it takes 0 alone, which says it.
    ghost Passes = { λ groups row. row.weight ≡ 0 };

    // How many rows there are never tells their groups.
    ghost Counts = { λ groups most from. ⊥ };

    ghost nothing = { λ first group so. so };

    fn offer<R: FoundRow>(&mut self, row: &R) -> Result<(), NoMemory> {
        Groups::offer(self, row)?;
        Ok(())
    }

    #[inline]
    fn heeds<R: FoundRow>(&self, _row: &R) -> bool {
        true
    }

    fn pass<R: FoundRow>(&mut self, row: &R) -> Result<(), NoMemory> {
        Groups::offer(self, row)?;
        Ok(())
    }

    fn only_counts(&self, _most: u64, _from: u64) -> bool {
        false
    }

    fn count(&mut self, _rows: u32) -> Result<(), NoMemory> {
        Ok(())
    }
}

impl Sink for FacetCounts<'_> {
    ghost use Rattle.std.specs.Prelude.{[]};
    ghost use Rattle.group_facet.specs.GatheringFacets.{CountsNoWeights, GathersFacet};
    ghost use Rattle.group_facet.specs.declared.facets.Facet.{Facet};

    ghost Took = { λ first rows last. (facet : Facet) → GathersFacet facet [] first → GathersFacet facet rows last };

    ghost Passes = { λ counts row. CountsNoWeights counts };

    // How many rows there are never tells what they hold.
    ghost Counts = { λ counts most from. ⊥ };

    ghost nothing = { λ first facet so. so };

    fn offer<R: FoundRow>(&mut self, row: &R) -> Result<(), NoMemory> {
        FacetCounts::offer(self, row)?;
        Ok(())
    }

    #[inline]
    fn heeds<R: FoundRow>(&self, _row: &R) -> bool {
        self.counts_weights()
    }

    fn pass<R: FoundRow>(&mut self, row: &R) -> Result<(), NoMemory> {
        FacetCounts::pass(self, row)?;
        Ok(())
    }

    fn only_counts(&self, _most: u64, _from: u64) -> bool {
        false
    }

    fn count(&mut self, _rows: u32) -> Result<(), NoMemory> {
        Ok(())
    }
}
