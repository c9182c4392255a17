//! Laws of the definitions. Each function does nothing: its contract is the law.
ghost use Rattle.std.specs.Prelude.{Option, ◌≡◌, ℕ, List};
ghost use Rattle.doc_tokens.specs.declared.sign.TextSign.{TextSign};
ghost use Rattle.doc_tokens.specs.Words.{segments, signs_of, AreMaximal};
ghost use Rattle.mark_scan.specs.declared.mark.MarkRules.{MarkRules};
ghost use Rattle.doc_types.specs.declared.tokens.FieldTokens.{FieldTokens};
ghost use Rattle.doc_types.specs.Documents.{IsField};
ghost use Rattle.doc_tokens.specs.Tokens.{TokensOf, IsTooLong};

/// A text has one answer: its tokens are determined, and where they are a field no position is above the limit.
pub fn a_text_has_one_answer()
    ensures same { (fold : ℕ → Option ℕ) (rules : MarkRules) (text : List ℕ) (a b : FieldTokens) → TokensOf fold rules text a → TokensOf fold rules text b → a ≡ b }
    ensures apart { (fold : ℕ → Option ℕ) (rules : MarkRules) (text : List ℕ) (tokens : FieldTokens) (position : ℕ) → TokensOf fold rules text tokens → IsField tokens → IsTooLong fold rules text position → ⊥ }
{}

/// The segments of a text, one after the other, are its signs, and their runs are maximal: that is what words are.
pub fn segments_are_maximal_runs()
    ensures all { (signs : List TextSign) → signs_of (segments signs) ≡ signs }
    ensures maximal { (signs : List TextSign) → AreMaximal (segments signs) }
{}
