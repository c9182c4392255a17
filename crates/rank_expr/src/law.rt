//! Laws of the definitions. The functions do nothing: their contracts are the laws.
ghost use Rattle.std.specs.Prelude.{◌≡◌, ℕ, List};
ghost use Rattle.doc_types.specs.declared.schema.Schema.{Schema};
ghost use Rattle.rank_expr.specs.declared.expr.RankExpr.{RankExpr};
ghost use Rattle.rank_expr.specs.declared.fault.ExprFault.{ExprFault};
ghost use Rattle.rank_expr.specs.ExprFaults.{IsRefused, IsValue};

/// A text is one expression at most.
pub fn a_text_is_one_expression()
    ensures { (schema : Schema) (text : List ℕ) (a b : RankExpr) → IsValue schema text a → IsValue schema text b → a ≡ b }
{}

/// A text that is an expression has no fault.
pub fn an_expression_has_no_fault()
    ensures { (schema : Schema) (text : List ℕ) (expr : RankExpr) (fault : ExprFault) → IsValue schema text expr → IsRefused schema text fault → ⊥ }
{}

/// A text has one first fault at most.
pub fn a_text_has_one_first_fault()
    ensures { (schema : Schema) (text : List ℕ) (a b : ExprFault) → IsRefused schema text a → IsRefused schema text b → a ≡ b }
{}
