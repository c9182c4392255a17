//! Laws of the definitions: each text that is sent is read as the statement that it is meant to be. The functions do nothing but call the
//! law that they rest on; their contracts are the laws.
ghost use Rattle.std.specs.Prelude.{◌≡◌, ◌<◌, ◌^◌, ℕ, [], ◌∷◌, codes};
ghost use Rattle.ql_session.specs.Statements.{States};
ghost use Rattle.ql_tree.specs.declared.statement.Statement.TheVariants as statements;
ghost use Rattle.ql_write.specs.Canonical.{canonical_text};
ghost use Rattle.self_test.specs.Documents.{document_from};
ghost use Rattle.self_test.specs.Texts.{count_statement, insert_statement};
ghost use Rattle.self_test.specs.declared.generator.Document.{Document as DocumentValue};
ghost use Rattle.self_test.specs.declared.summary.Count.{Count as CountValue};
ghost use Rattle.self_test.specs.steps.Letters.{IsSmall};

use ql_write::canonical_text_is_read;

/// The canonical text of each statement of a selftest is read as this statement alone: of the INSERT of each document that a number
/// stands for, of what counts, and of what begins and ends transactions and does jobs.
pub fn texts_are_read_as_statements()
    ensures inserts { (id x : ℕ) → id < 2 ^ 64 → States (canonical_text (insert_statement id (document_from x))) (insert_statement id (document_from x) ∷ []) }
    ensures counts { (count : CountValue) (number : ℕ) → number < 50 → States (canonical_text (count_statement count number)) (count_statement count number ∷ []) }
    ensures begins { States (canonical_text statements.Begin) (statements.Begin ∷ []) }
    ensures commits { States (canonical_text statements.Commit) (statements.Commit ∷ []) }
    ensures flushes { States (canonical_text (statements.FlushRamchunk (codes "t"))) (statements.FlushRamchunk (codes "t") ∷ []) }
    ensures optimizes { States (canonical_text (statements.OptimizeIndex (codes "t"))) (statements.OptimizeIndex (codes "t") ∷ []) }
{
    canonical_text_is_read();
}

/// The same of the INSERT of each document that there is.
pub(crate) fn inserts_are_read()
    ensures { (id : ℕ) → (document : DocumentValue) → id < 2 ^ 64 → IsSmall document → States (canonical_text (insert_statement id document)) (insert_statement id document ∷ []) }
{
    canonical_text_is_read();
}
