//! Laws of the definitions. The functions do nothing: their contracts are the laws.
ghost use Rattle.std.specs.Prelude.{◌≡◌, ℕ, List};
ghost use Rattle.std.specs.Str.{IsUtf8};
ghost use Rattle.query_pieces.specs.declared.piece.Piece.{Piece};
ghost use Rattle.query_pieces.specs.Pieces.{ArePieces};
ghost use Rattle.query_marks.specs.Marks.{Setting, alphabet_in, marks_of};
ghost use Rattle.query_grammar.specs.declared.fault.QueryFault.{QueryFault as Fault};
ghost use Rattle.query_tree.specs.declared.query.Query.{Query as QueryValue};
ghost use Rattle.query_grammar.specs.Queries.{IsRefused, IsValue};

/// A text is one query at most.
pub fn a_text_is_one_query()
    ensures { (setting : Setting) (text : List ℕ) (pieces : List Piece) (a b : QueryValue) → IsValue a (marks_of setting text pieces) → IsValue b (marks_of setting text pieces) → a ≡ b }
{}

/// A text that is a query has no fault.
pub fn a_query_has_no_fault()
    ensures { (setting : Setting) (text : List ℕ) (pieces : List Piece) (query : QueryValue) (fault : Fault) → IsValue query (marks_of setting text pieces) → IsRefused fault (marks_of setting text pieces) → ⊥ }
{}

/// A text has one first fault at most.
pub fn a_text_has_one_first_fault()
    ensures { (setting : Setting) (text : List ℕ) (pieces : List Piece) (a b : Fault) → IsUtf8 text → ArePieces (alphabet_in setting) text pieces → IsRefused a (marks_of setting text pieces) → IsRefused b (marks_of setting text pieces) → a ≡ b }
{}
