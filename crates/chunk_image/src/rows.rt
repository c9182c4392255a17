//! Laws on rows and chunks. Each is a function with an empty body: its clauses are the law.
ghost use Rattle.std.specs.Prelude.{◌≡◌, List};
ghost use Rattle.doc_types.specs.Documents.{AreRowsOf};
ghost use Rattle.doc_types.specs.declared.documents.DocRow.{DocRow};
ghost use Rattle.doc_types.specs.declared.schema.Schema.{Schema};
ghost use Rattle.chunk_image.specs.AlikeRows.{AnswerAlike};

use doc_types::Chunk;

/// Rows of a schema are told by what a chunk answers of them: ids, births, values, boundaries and spans of each row, and for each
/// word its rows with its places. So a chunk need not keep the rows themselves: what it keeps is of one list of rows.
pub fn rows_are_told_by_answers()
    ensures { (schema its : Schema) (rows other : List DocRow) → AreRowsOf schema rows → AreRowsOf its other → AnswerAlike rows other → rows ≡ other }
{}

/// Two chunks that answer alike have the same rows, however each keeps them.
pub fn chunks_are_told_by_answers<C: Chunk, D: Chunk>(chunk: &C, other: &D)
    requires { AnswerAlike (C.content chunk.now) (D.content other.now) }
    ensures { C.content chunk.now ≡ D.content other.now }
{}
