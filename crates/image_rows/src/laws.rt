//! The law of bytes that have no damage. It is a function with an empty body: its clause is the law.
ghost use Rattle.std.specs.Prelude.{◌<◌, ℕ, List, All};
ghost use Rattle.doc_types.specs.declared.schema.Schema.{Schema};
ghost use Rattle.doc_types.specs.Schemas.{IsSchema};
ghost use Rattle.chunk_damage.specs.Damage.{IsUndamaged};
ghost use Rattle.image_rows.specs.Images.{IsImage};

/// Bytes that have no damage are the image of rows of the schema: so a file whose parts are all found good is a chunk's.
pub fn undamaged_bytes_are_an_image()
    ensures { (schema : Schema) (bytes : List ℕ) → IsSchema schema → All (λ byte. byte < 256) bytes → IsUndamaged schema bytes → IsImage schema bytes }
{}
