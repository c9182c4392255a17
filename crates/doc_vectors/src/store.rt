//! A store of documents in memory that tests commit to, with its layers put together as an index has them.
ghost use Rattle.std.specs.Prelude.{◌≡◌, IfOk};
ghost use Rattle.std.specs.Arc.{arc_value};
ghost use Rattle.doc_types.specs.Schemas.{IsSchema};
ghost use Rattle.doc_types.specs.Transactions.{IsTxnOf};
ghost use Rattle.doc_types.specs.Snapshots.{AreLayers, all_living};
ghost use Rattle.commit_outcomes.specs.Outcomes.{empty_snapshot};
ghost use Rattle.layer_joins.specs.Joins.{AreOfOne, MayMerge};

use commit_outcomes::{CommitOutcome, MAX_DOCUMENTS};
use doc_types::{Schema, Snapshot, Txn};
use image_chunk::AnyChunk;
use layer_commit::{Refusal, commit};
use layer_joins::merge_last;
use srch_base::{Items, NoMemory, Or};
use std::alloc::Global;
use std::marker::Model;
use std::sync::Arc;

/// The documents of an index, in memory. Contracts see its columns and the snapshot after the last commit.
#[derive(Drop)]
pub(crate) struct PlainStore {
    schema: Schema,
    snapshot: Arc<Snapshot<AnyChunk>, Global>,
}

impl Model for PlainStore {
    ghost use Rattle.std.specs.Arc.{arc_value};
    ghost use Rattle.doc_vectors.specs.steps.Stores.{IsStore, StoreValue};

    ghost Value = { StoreValue };

    ghost view = { λ a. record { schema = a.schema; snapshot = arc_value a.snapshot } };

    ghost invariant = { λ a. IsStore a.schema (arc_value a.snapshot).layers };
}

impl PlainStore {
    /// No documents, for the columns of an index.
    pub(crate) fn new(alloc: Global, schema: &Schema) -> Result<PlainStore, NoMemory>
        requires { IsSchema schema.now }
        ensures { IfOk result (λ store. store ≡ record { schema = schema.now; snapshot = empty_snapshot }) }
    {
        let schema = copy_of(schema)?;
        let none = Snapshot {
            number: 0,
            shape: 0,
            layers: Items::new(Vec::new(alloc)),
        };
        let snapshot = Arc::new(alloc, none)?;
        Ok(PlainStore { schema, snapshot })
    }

    /// The documents as they are after the last commit, layer by layer.
    pub(crate) fn snapshot(&self) -> &Snapshot<AnyChunk> {
        &self.snapshot
    }

    /// Commits a transaction, and says what became of it. After want of memory the store is as before.
    pub(crate) fn commit(&mut self, alloc: Global, txn: &Txn) -> Result<CommitOutcome, NoMemory>
        requires of { IsTxnOf self.old.schema txn.now }
        ensures { self.new.schema ≡ self.old.schema }
    {
        match commit(alloc, &self.snapshot, txn, MAX_DOCUMENTS) {
            Ok((next, removed)) => {
                self.snapshot = upkept(alloc, next)?;
                Ok(CommitOutcome::Committed { removed })
            }
            Err(Or::Fault(Refusal::Duplicate { id })) => Ok(CommitOutcome::Duplicate { id }),
            Err(Or::Fault(Refusal::Full(full))) => Ok(CommitOutcome::Full(full)),
            Err(Or::NoMemory) => Err(NoMemory),
        }
    }
}

/// The snapshot to be shared, its last layers put together where that is cheap by now.
fn upkept(
    alloc: Global,
    mut snapshot: Snapshot<AnyChunk>,
) -> Result<Arc<Snapshot<AnyChunk>, Global>, NoMemory>
    requires of { AreOfOne (all_living snapshot.layers) }
    ensures merges { IfOk result (λ shared. MayMerge snapshot (arc_value shared)) }
    ensures sound { IfOk result (λ shared. AreLayers (arc_value shared).layers) }
{
    // The commit stands, whether or not there is memory for upkeep.
    let _ = merge_last(alloc, &mut snapshot);
    Ok(Arc::new(alloc, snapshot)?)
}

/// A copy that equals the schema.
fn copy_of(schema: &Schema) -> Result<Schema, NoMemory>
    ensures { IfOk result (λ copy. copy ≡ schema.now) }
{
    Ok(Schema {
        name: schema.name.clone()?,
        fields: schema.fields.clone()?,
        attrs: schema.attrs.clone()?,
        zones: schema.zones.clone()?,
        sp: schema.sp,
        min_prefix: schema.min_prefix,
    })
}
