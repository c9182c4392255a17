//! What the definitions of queries say together. The functions do nothing: their contracts are the laws.
ghost use Rattle.std.specs.Prelude.{◌≡◌, ℕ, List, Some, None, Contains};
ghost use Rattle.query_pieces.specs.declared.piece.Piece.{Piece};
ghost use Rattle.query_marks.specs.declared.mark.Mark.{Mark as MarkValue};
ghost use Rattle.query_marks.specs.Marks.{Setting, marks_of};
ghost use Rattle.query_tree.specs.declared.query.Node.{Node as NodeValue};
ghost use Rattle.query_grammar.specs.Grammar.{IsQuery, IsOpenAnd};
ghost use Rattle.query_grammar.specs.Queries.{IsRoot};

/// A text is a query exactly where its marks are in the grammar with an item that isn't negated in each AND, and in each
/// ZONESPAN, and nothing is wrong with a mark.
pub fn a_query_is_a_text_of_the_grammar()
    ensures { (setting : Setting) (text : List ℕ) (pieces : List Piece) (node : NodeValue)
        → (IsRoot (Some node) (marks_of setting text pieces) → IsQuery IsOpenAnd 32 node (marks_of setting text pieces) × ((m : MarkValue) → Contains (marks_of setting text pieces) m → m.wrong ≡ None))
        × (IsQuery IsOpenAnd 32 node (marks_of setting text pieces) × ((m : MarkValue) → Contains (marks_of setting text pieces) m → m.wrong ≡ None) → IsRoot (Some node) (marks_of setting text pieces)) }
{}
