//! Laws of the definitions: what is written is read as the statement that it was written for. The functions do nothing
//! but call the laws on tokens that they rest on; their contracts are the laws.
ghost use Rattle.std.specs.Prelude.{ℕ, List, [], ◌∷◌, All};
ghost use Rattle.ql_lex.specs.Tokens.{Lexeme, AreTokens, AreLexemes};
ghost use Rattle.ql_tree.specs.declared.statement.Statement.{Statement as StatementValue};
ghost use Rattle.ql_grammar.specs.Packets.{IsPacket};
ghost use Rattle.ql_write.specs.Canonical.{canonical_text};
ghost use Rattle.ql_write.specs.Reading.{IsValue, ReadsAs};

use ql_lex::{one_reading, spaced_tokens_are_read};

/// The canonical text of a statement is read as this statement alone, and it has no other tokens.
pub fn canonical_text_is_read()
    ensures reads { (statement : StatementValue) → IsValue statement → ReadsAs (canonical_text statement) statement }
    ensures only { (statement : StatementValue) (tokens : List Lexeme) → IsValue statement → AreTokens (canonical_text statement) tokens → IsPacket (statement ∷ []) tokens }
{
    one_reading();
    spaced_tokens_are_read();
}

/// The statements of a packet are values of the grammar.
pub fn packets_have_values()
    ensures { (list : List StatementValue) (tokens : List Lexeme) → AreLexemes tokens → IsPacket list tokens → All IsValue list }
{}
