//! The laws of the written form. The functions do nothing: their contracts are the laws.
ghost use Rattle.std.specs.Prelude.{ℕ, List, Option};
ghost use Rattle.std.specs.Str.{IsUtf8};
ghost use Rattle.doc_types.specs.declared.schema.Schema.{Schema};
ghost use Rattle.doc_types.specs.Schemas.{IsSchema};
ghost use Rattle.query_pieces.specs.declared.piece.Piece.{Piece};
ghost use Rattle.query_pieces.specs.Pieces.{ArePieces};
ghost use Rattle.query_marks.specs.Marks.{Setting, alphabet_in, setting_of, marks_of};
ghost use Rattle.query_tree.specs.declared.query.Query.{Query as QueryValue};
ghost use Rattle.query_grammar.specs.DeepValues.{IsDeepValue, IsShallow, GivesChars, ReadsBack};
ghost use Rattle.query_grammar.specs.Queries.{IsValue};
ghost use Rattle.query_write.specs.Written.{written};

/// A query that some text has as its value, by whatever table, is the value of its written form by each table that reads it back,
/// where prefixes have the same fewest number of characters, both without the limit on nesting; within the limit it is the value that a reader finds.
pub fn a_written_query_is_read_back()
    ensures { (schema : Schema) (query : QueryValue) (source fold : ℕ → Option ℕ) (text : List ℕ) (read pieces : List Piece) → IsSchema schema
        → GivesChars source → IsUtf8 text → ArePieces (alphabet_in (setting_of source schema)) text read → IsDeepValue query (marks_of (setting_of source schema) text read)
        → ReadsBack fold query → ArePieces (alphabet_in (setting_of fold schema)) (written schema query) pieces
        → IsDeepValue query (marks_of (setting_of fold schema) (written schema query) pieces)
        × (IsShallow (marks_of (setting_of fold schema) (written schema query) pieces) → IsValue query (marks_of (setting_of fold schema) (written schema query) pieces)) }
{}

/// What is the value of a text within the limit on nesting is its value without it.
pub fn a_value_is_one_without_the_limit()
    ensures { (setting : Setting) (text : List ℕ) (pieces : List Piece) (query : QueryValue) → IsValue query (marks_of setting text pieces) → IsDeepValue query (marks_of setting text pieces) }
{}
