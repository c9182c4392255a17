//! What an image is written from: rows, or documents that one commit puts. Both lend their documents, so none is copied.
ghost use Rattle.std.specs.Prelude.{◌≡◌};

use doc_types::{Doc, DocRow};

/// What lends a document, and says which commit put it.
pub(crate) trait LendsDoc {
    ghost use Rattle.std.specs.Prelude.{ℕ};
    ghost use Rattle.doc_types.specs.declared.documents.Doc.{Doc};

    ghost lent: { Self → Doc };

    // The number of its commit, where those without a number of their own have this one.
    ghost born_at: { ℕ → Self → ℕ };

    fn doc(&self) -> &Doc
        ensures { result.now ≡ lent self.now };

    /// The number of its commit, where documents without a number of their own have this one.
    fn born(&self, number: u64) -> u64
        ensures { result ≡ born_at number self.now };
}

/// A row has a number of its own.
impl LendsDoc for DocRow {
    ghost lent = { λ row. row.doc };

    ghost born_at = { λ _ row. row.born };

    fn doc(&self) -> &Doc {
        &self.doc
    }

    fn born(&self, _number: u64) -> u64 {
        self.born
    }
}

/// A document that a commit is to put.
impl LendsDoc for &Doc {
    ghost lent = { λ doc. doc.now };

    ghost born_at = { λ number _. number };

    fn doc(&self) -> &Doc {
        *self
    }

    fn born(&self, number: u64) -> u64 {
        number
    }
}
