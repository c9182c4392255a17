//! What the definitions say together. Each law is a function with an empty body: its clauses are the law.
ghost use Rattle.std.specs.Prelude.{◌≡◌, [], ◌∷◌, ◌++◌, map};
ghost use Rattle.std.specs.FinMap as finite;
ghost use Rattle.doc_types.specs.declared.schema.Schema.{Schema};
ghost use Rattle.chunk_image.specs.Example.{example_schema};
ghost use Rattle.chunk_store.specs.Images.{Image};
ghost use Rattle.gate_log.specs.Logs.{spelled};
ghost use Rattle.root_slots.specs.Slots.{IsClosed, tail};
ghost use Rattle.store_steps.specs.Batches.{record_of};
ghost use Rattle.store_steps.specs.Damage.{IsDamaged};
ghost use Rattle.store_steps.specs.Directory.{StandsFor};
ghost use Rattle.store_steps.specs.Example.{damaged_log, example_batch, example_log, example_root, example_slot, files_of};
ghost use Rattle.store_steps.specs.declared.damage.DamageKind.TheVariants.{RecordLength};

/// Where no slot is open, or none is there, an index has no documents.
pub fn no_open_slot_stands_for_no_document()
    ensures { (schema : Schema) (x : Image) → IsClosed (x 0) → IsClosed (x 1) → StandsFor schema x finite.empty 0 }
{}

/// The log and the root of the example have these bytes.
pub fn the_example_has_these_bytes()
    ensures log { spelled (map record_of (example_batch ∷ [])) ++ 0 ∷ [] ≡ example_log }
    ensures root { 1 ∷ tail example_slot ≡ example_root }
{}

/// With another length of its record the example's log is damaged at its first gate.
pub fn another_length_is_damage()
    ensures { IsDamaged example_schema (files_of example_root damaged_log) (record { file = 2; place = 0; kind = RecordLength }) }
{}
