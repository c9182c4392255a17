//! Laws on damage. Each is a function with an empty body: its clauses are the law.
ghost use Rattle.std.specs.Prelude.{◌≡◌, ◌<◌, ◌^◌, ℕ, List, All, length};
ghost use Rattle.doc_types.specs.declared.documents.DocRow.{DocRow};
ghost use Rattle.doc_types.specs.declared.schema.Schema.{Schema};
ghost use Rattle.doc_types.specs.Documents.{AreRowsOf};
ghost use Rattle.doc_types.specs.Schemas.{IsSchema};
ghost use Rattle.chunk_image.specs.ChunkImage.{IsImageOf};
ghost use Rattle.image_parts.specs.Images.{HasZones};
ghost use Rattle.chunk_damage.specs.declared.fault.BadChunk.{BadChunk};
ghost use Rattle.chunk_damage.specs.Damage.{IsBadChunk, IsUndamaged};
ghost use Rattle.damage_laws.specs.Outcomes.{IsDamaged, IsEither};

/// The image of rows of a schema is good in all its parts, so it has no damage. Its lengths fit the header's fields of 32 bits, and
/// the zones of its rows those of 16 bits that they have in memory.
pub fn an_image_has_no_damage()
    ensures parts { (schema : Schema) (rows : List DocRow) (bytes : List ℕ) → IsSchema schema → AreRowsOf schema rows → All HasZones rows → IsImageOf schema rows bytes → length bytes < 2 ^ 32 → IsUndamaged schema bytes }
    ensures none { (schema : Schema) (rows : List DocRow) (bytes : List ℕ) (bad : BadChunk) → IsSchema schema → AreRowsOf schema rows → All HasZones rows → IsImageOf schema rows bytes → length bytes < 2 ^ 32 → IsBadChunk schema bytes bad → ⊥ }
{}

/// Bytes are damaged first at one place, and in one way.
pub fn bytes_have_one_first_damage()
    ensures { (schema : Schema) (bytes : List ℕ) (bad other : BadChunk) → IsBadChunk schema bytes bad → IsBadChunk schema bytes other → bad ≡ other }
{}

/// All parts of some bytes are good, or they are damaged: not both, and never neither.
pub fn bytes_are_good_or_damaged()
    ensures { (schema : Schema) (bytes : List ℕ) → IsEither (IsUndamaged schema bytes) (IsDamaged schema bytes) }
{}
