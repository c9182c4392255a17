//! A law of the definitions. The function does nothing: its contract is the law.
ghost use Rattle.std.specs.Prelude.{◌≡◌, ℕ, List};
ghost use Rattle.ql_lex.specs.declared.fault.LexKind.{LexKind};
ghost use Rattle.ql_lex.specs.Tokens.{Lexeme, AreTokens, FaultAt};

/// A text has one list of tokens, or one fault and no tokens, whatever parts it is taken to have.
pub fn one_reading()
    ensures tokens { (text : List ℕ) (a b : List Lexeme) → AreTokens text a → AreTokens text b → a ≡ b }
    ensures not_both { (text : List ℕ) (tokens : List Lexeme) (place : ℕ) (kind : LexKind) → AreTokens text tokens → FaultAt text place kind → ⊥ }
    ensures fault { (text : List ℕ) (p q : ℕ) (j k : LexKind) → FaultAt text p j → FaultAt text q k → (p ≡ q) × (j ≡ k) }
{}
