//! Laws on the meaning of tokens. Each is a function without a body; its contract is the law.

ghost use Rattle.std.specs.Prelude.{◌≡◌, ◌≤◌, List, length};
ghost use Rattle.ql_lex.specs.Tokens.{Lexeme};
ghost use Rattle.ql_grammar.specs.declared.fault.ParseFault.{ParseFault as Fault};
ghost use Rattle.ql_tree.specs.declared.statement.Statement.{Statement as StatementValue};
ghost use Rattle.ql_tree.specs.declared.statement.TheConstants.{MAX_STATEMENTS};
ghost use Rattle.ql_grammar.specs.Packets.{IsFault, IsPacket};

/// Tokens are a packet of one list of statements only.
pub fn tokens_have_one_value()
    ensures { (tokens : List Lexeme) (a b : List StatementValue) → IsPacket a tokens → IsPacket b tokens → a ≡ b }
{}

/// Tokens that are a packet of so few statements as are allowed have no fault.
pub fn packets_have_no_fault()
    ensures { (tokens : List Lexeme) (list : List StatementValue) (fault : Fault) → IsPacket list tokens → length list ≤ MAX_STATEMENTS → IsFault tokens fault → ⊥ }
{}

/// Tokens have one fault only.
pub fn tokens_have_one_fault()
    ensures { (tokens : List Lexeme) (a b : Fault) → IsFault tokens a → IsFault tokens b → a ≡ b }
{}
