//! Laws of the definitions. The functions do nothing: their contracts are the laws.
ghost use Rattle.std.specs.Prelude.{◌≡◌, ℕ, List};
ghost use Rattle.std.specs.Str.{IsUtf8};
ghost use Rattle.query_pieces.specs.declared.piece.Piece.{Piece};
ghost use Rattle.query_pieces.specs.Letters.{Alphabet};
ghost use Rattle.query_pieces.specs.Pieces.{ArePieces};

/// A text has one list of pieces, whatever the table.
pub fn one_list_of_pieces()
    ensures { (alphabet : Alphabet) (text : List ℕ) (a b : List Piece) → ArePieces alphabet text a → ArePieces alphabet text b → a ≡ b }
{}

/// Each text has pieces, whatever the table.
pub fn each_text_has_pieces()
    ensures { (alphabet : Alphabet) (text : List ℕ) → IsUtf8 text → (pieces : List Piece) × ArePieces alphabet text pieces }
{}
