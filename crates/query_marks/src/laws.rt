//! A law on limits. The function does nothing: its contract is the law.
ghost use Rattle.std.specs.Prelude.{◌≡◌, ◌⊎◌, ℕ, List, All, Contains};
ghost use Rattle.query_pieces.specs.declared.piece.Piece.{Piece};
ghost use Rattle.query_marks.specs.declared.mark.Mark.{Mark};
ghost use Rattle.query_marks.specs.LimitsOver.{CloseGroups, forms_of, keys_of_sign, limits_over, text_end, IsMarkAfter, IsMarkOfPiece, IsUnder};
ghost use Rattle.query_marks.specs.Marks.{Setting, marks_of};

/// A keyword's limits are those of the last limit before it in its group, or else those that its group began with: whatever
/// follows it, and whatever stands in groups that have ended. Each mark of a text but its end is that of one of its pieces.
pub fn a_keyword_is_under_the_last_limit()
    ensures limits { (setting : Setting) (text : List ℕ) (before : List Piece) (p : Piece) (mark : Mark) → CloseGroups (forms_of before) 0 → IsMarkAfter setting text before p mark → All (IsUnder setting text (limits_over setting text before)) (keys_of_sign mark.sign) }
    ensures pieces { (setting : Setting) (text : List ℕ) (pieces : List Piece) (mark : Mark) → Contains (marks_of setting text pieces) mark → (mark ≡ text_end text) ⊎ IsMarkOfPiece setting text pieces mark }
{}
