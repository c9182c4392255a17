//! The columns that a root was written for: those of the schema, or it isn't taken.
ghost use Rattle.std.specs.Prelude.{◌≡◌, ◌≢◌, IfOk, MatchBool};
ghost use Rattle.doc_bytes.specs.SchemaText.{schema_text};
ghost use Rattle.doc_types.specs.declared.schema.Schema.{Schema as AnySchema};
ghost use Rattle.store_reads.specs.steps.Founds.{ChecksState};
ghost use Rattle.store_reads.specs.steps.Loads.{IsOfBytes};

use crate::fault::StoreFault;
use doc_bytes::put_schema;
use doc_types::Schema;
use root_slots::{Root, RootState};
use srch_base::NoMemory;
use std::alloc::Global;
use store_steps::{Damage, DamageKind};

/// Whether a root can be taken.
pub(crate) fn check_columns(
    alloc: Global,
    schema: &Schema,
    root: &Root,
    state: &RootState,
) -> Result<(), StoreFault>
    ensures bytes { IsOfBytes result }
    ensures checks { ChecksState schema.now root.now state.now result }
{
    match text_of(alloc, schema) {
        Ok(text) => check_state(root, state, text.as_slice()),
        Err(NoMemory) => Err(StoreFault::NoMemory),
    }
}

/// The text of the columns of a schema, as a root has it.
pub fn text_of(alloc: Global, schema: &Schema) -> Result<Vec<u8>, NoMemory>
    ensures { IfOk result (λ text. text.items ≡ schema_text schema.now) }
{
    let mut text = Vec::new(alloc);
    put_schema(schema, &mut text)?;
    Ok(text)
}

/// Whether a root can be taken: its columns are those of the schema.
fn check_state(root: &Root, state: &RootState, text: &[u8]) -> Result<(), StoreFault>
    ensures bytes { IsOfBytes result }
    ensures checks { (schema : AnySchema) → text.now ≡ schema_text schema → ChecksState schema root.now state.now result }
{
    let file = u32::from(root.slot());
    if same_bytes(state.schema_text.as_bytes(), text) {
        return Ok(());
    }
    Err(StoreFault::Damaged(Damage {
        file,
        place: 13,
        kind: DamageKind::RootSchema,
    }))
}

fn same_bytes(left: &[u8], right: &[u8]) -> bool
    ensures { MatchBool result (left.now ≡ right.now) (left.now ≢ right.now) }
{
    left == right
}
