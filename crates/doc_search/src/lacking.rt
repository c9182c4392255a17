//! The first document that has no weight. A search ends at once where it finds one; which is the first is then found out by a search of
//! its own, whose ranker tells of each document whether it has a weight.
ghost use Rattle.std.specs.Prelude.{◌≡◌, All};
ghost use Rattle.doc_types.specs.declared.schema.Schema.{Schema};
ghost use Rattle.doc_types.specs.Documents.{AreRowsOf};
ghost use Rattle.doc_types.specs.Snapshots.{all_living};
ghost use Rattle.rankers.specs.Factors.{earlier};
ghost use Rattle.doc_search.specs.Searches.{IsAskedOf};
ghost use Rattle.doc_search.specs.steps.Gathering.{IsAskedOfDocs};
ghost use Rattle.doc_search.specs.steps.Lacking.{FirstOr, LacksSome};

use crate::question::Question;
use crate::searching::search_layers;
use doc_types::{HitLists, Layer};
use row_select::{ColumnRef, FoundRow, Sink};
use srch_base::{NoMemory, Or};
use std::alloc::Global;
use std::marker::Brand;
use std::sync::ledger::Blank;

/// A document that is found has no weight.
#[derive(Drop)]
pub(crate) struct NoWeight;

/// The least id of the rows that weigh 0.
#[derive(Drop)]
pub(crate) struct LeastAtZero {
    pub(crate) id: Option<u64>,
}

/// The lesser one of the least id so far and of the next one.
fn earlier(least: Option<u64>, id: u64) -> Option<u64>
    ensures { result ≡ earlier least id }
{
    match least {
        None => Some(id),
        Some(least) => Some(least.min(id)),
    }
}

impl Sink for LeastAtZero {
    ghost use Rattle.std.specs.Prelude.{◌≡◌, fold};
    ghost use Rattle.std.proofs.Common.{refl};
    ghost use Rattle.doc_search.specs.steps.Lacking.{at_zero};

    ghost Took = { λ first rows last. last.id ≡ fold at_zero first.id rows };

    // What a row weighs matters, which 0 alone says as a bound.
    ghost Passes = { λ least row. row.weight ≡ 0 };

    // The number of rows alone never tells.
    ghost Counts = { λ least most from. ⊥ };

    ghost nothing = { λ first. refl };

    fn offer<R: FoundRow>(&mut self, row: &R) -> Result<(), NoMemory> {
        if row.value(ColumnRef::Weight) == 0 {
            self.id = earlier(self.id, row.id());
        }
        Ok(())
    }

    fn heeds<R: FoundRow>(&self, _row: &R) -> bool {
        true
    }

    fn pass<R: FoundRow>(&mut self, row: &R) -> Result<(), NoMemory> {
        self.offer(row)
    }

    fn only_counts(&self, _most: u64, _from: u64) -> bool {
        false
    }

    fn count(&mut self, _rows: u32) -> Result<(), NoMemory> {
        Ok(())
    }
}

/// The least id of the documents that lack a weight, of which there is one.
pub(crate) fn first_lacking<C: HitLists>(
    alloc: Global,
    question: &Question,
    layers: &[Layer<C>],
) -> Or<u64>
    requires asked { All (λ layer. IsAskedOfDocs question.now layer.rows) layers.now }
    requires some { LacksSome question.now (all_living layers.now) }
    ensures { FirstOr question.now (all_living layers.now) result }
{
    let mut least = LeastAtZero { id: None };
    let ended = search_layers::<Brand, C, LeastAtZero>(
        alloc,
        question,
        true,
        layers,
        Blank::new(1),
        &mut least,
    );
    match ended {
        Ok(()) => Or::Fault(least.id.unwrap()),
        Err(Or::NoMemory) => Or::NoMemory,
        Err(Or::Fault(NoWeight)) => unreachable!(),
    }
}
