//! A law of the definitions. The function does nothing: its contract is the law. Writers of texts rest on it: they spell
//! token by token and never ask whether two of them would run together.
ghost use Rattle.std.specs.Prelude.{List};
ghost use Rattle.ql_lex.specs.Spacing.{Spelling, AreSpellings, spaced, HasTokens};

/// Tokens with one space between them are read as themselves.
pub fn spaced_tokens_are_read()
    ensures { (list : List Spelling) → AreSpellings list → HasTokens (spaced list) list }
{}
