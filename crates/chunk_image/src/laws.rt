//! Laws on images. Each is a function with an empty body: its clauses are the law.
ghost use Rattle.std.specs.Prelude.{◌≡◌, ℕ, List, [], ◌∷◌, codes};
ghost use Rattle.doc_types.specs.declared.documents.DocRow.{DocRow};
ghost use Rattle.doc_types.specs.declared.schema.Schema.{Schema};
ghost use Rattle.doc_types.specs.Documents.{AreRowsOf, AreSmall};
ghost use Rattle.doc_types.specs.Schemas.{IsSchema};
ghost use Rattle.chunk_image.specs.ChunkImage.{IsImageOf, image};
ghost use Rattle.chunk_image.specs.AlikeRows.{postings};
ghost use Rattle.chunk_image.specs.Example.{example_schema, example_rows, example_words, example_bytes};

/// The image of one document: id 7, commit 1, and the title `hello world`.
pub fn an_example_of_an_image()
    ensures { image example_schema example_rows example_words ≡ example_bytes }
{}

/// An image is of one list of rows, whatever schemas they are of: so who keeps the bytes keeps the rows.
pub fn an_image_is_of_one_list_of_rows()
    ensures { (schema its : Schema) (rows other : List DocRow) (bytes : List ℕ) → IsSchema schema → IsSchema its → AreRowsOf schema rows → AreRowsOf its other → AreSmall rows → AreSmall other → IsImageOf schema rows bytes → IsImageOf its other bytes → rows ≡ other }
{}

/// Rows of a schema have one image.
pub fn rows_have_one_image()
    ensures { (schema : Schema) (rows : List DocRow) (bytes other : List ℕ) → IsImageOf schema rows bytes → IsImageOf schema rows other → bytes ≡ other }
{}

/// In the example's postings `world` stands in row 0, in field 0 at position 2.
pub fn the_example_has_its_word()
    ensures { postings (codes "world") 0 example_rows ≡ (0, (0, 2) ∷ []) ∷ [] }
{}
