//! What the files of an index say is one thing. Each law is a function with an empty body: its clauses are the law.
ghost use Rattle.std.specs.Prelude.{◌≡◌, ℕ, Option};
ghost use Rattle.doc_types.specs.declared.schema.Schema.{Schema};
ghost use Rattle.doc_types.specs.Rows.{Rows};
ghost use Rattle.doc_types.specs.Schemas.{IsSchema};
ghost use Rattle.chunk_store.specs.Images.{Image};
ghost use Rattle.store_steps.specs.Damage.{IsDamaged};
ghost use Rattle.store_steps.specs.Directory.{Directory, Holds, StandsFor};
ghost use Rattle.store_steps.specs.declared.damage.Damage.{Damage};
ghost use Rattle.damage_laws.specs.Outcomes.{IsEither};
ghost use Rattle.store_laws.specs.Outcomes.{AreDamaged, CanBeRead, HaveBytes};

/// Files that can be read hold one directory: one state, the same rows of each chunk, the same batches of both logs. So they stand
/// for the same rows, after the commit of the same number.
pub fn a_directory_stands_for_one_thing()
    ensures holds { (schema : Schema) (x : Image) (found other : Option Directory) → IsSchema schema → Holds schema found x → Holds schema other x → found ≡ other }
    ensures stands { (schema : Schema) (x : Image) (rows others : Rows) (number its : ℕ) → IsSchema schema → StandsFor schema x rows number → StandsFor schema x others its → (rows ≡ others) × (number ≡ its) }
{}

/// Files that are damaged stand for nothing.
pub fn a_damaged_directory_stands_for_nothing()
    ensures { (schema : Schema) (x : Image) (rows : Rows) (number : ℕ) (damage : Damage) → IsSchema schema → StandsFor schema x rows number → IsDamaged schema x damage → ⊥ }
{}

/// Files are damaged in one way at most: in one file, at one place, of one kind.
pub fn a_directory_has_one_damage()
    ensures { (schema : Schema) (x : Image) (damage other : Damage) → IsSchema schema → IsDamaged schema x damage → IsDamaged schema x other → damage ≡ other }
{}

/// Files can be read, or they are damaged: not both, and never neither. So there is a directory, or exactly one damage.
pub fn files_are_a_directory_or_damaged()
    ensures { (schema : Schema) (x : Image) → IsSchema schema → HaveBytes x → IsEither (CanBeRead schema x) (AreDamaged schema x) }
{}
