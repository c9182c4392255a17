//! Laws on what is found by queries with prefixes. The functions do nothing: their contracts are the laws.
ghost use Rattle.std.specs.Prelude.{◌≡◌, ◌≢◌, ℕ, List, AllPairs, Contains};
ghost use Rattle.doc_types.specs.declared.documents.DocRow.{DocRow};
ghost use Rattle.doc_types.specs.Rows.{rows_of};
ghost use Rattle.query_tree.specs.declared.query.Query.{Query};
ghost use Rattle.row_select.specs.declared.row.Row.{Row};
ghost use Rattle.doc_search.specs.declared.question.Question.{Question};
ghost use Rattle.prefix_search.specs.Searches.{AreFound, AreTooMany, IsFirstLacking};

/// What a search finds depends on the map of the documents by their ids alone, whatever the order in which they are listed: the same
/// rows, or the same first document without a weight, and never both.
pub fn a_search_finds_the_same()
    ensures found { (question : Question) (docs others : List DocRow) (found other : List Row) → AllPairs (λ doc later. doc.doc.id ≢ later.doc.id) docs → AllPairs (λ doc later. doc.doc.id ≢ later.doc.id) others → rows_of docs ≡ rows_of others → AreFound question docs found → AreFound question others other → (row : Row) → Contains found row → Contains other row }
    ensures first { (question : Question) (docs others : List DocRow) (id other : ℕ) → AllPairs (λ doc later. doc.doc.id ≢ later.doc.id) docs → AllPairs (λ doc later. doc.doc.id ≢ later.doc.id) others → rows_of docs ≡ rows_of others → IsFirstLacking question docs id → IsFirstLacking question others other → id ≡ other }
    ensures apart { (question : Question) (docs others : List DocRow) (found : List Row) (id : ℕ) → AllPairs (λ doc later. doc.doc.id ≢ later.doc.id) docs → AllPairs (λ doc later. doc.doc.id ≢ later.doc.id) others → rows_of docs ≡ rows_of others → AreFound question docs found → IsFirstLacking question others id → ⊥ }
{}

/// So does how many words the prefixes of a query have, where these are too many; and then nothing is found, nor a document without a
/// weight.
pub fn too_many_words_are_so_many()
    ensures count { (query : Query) (docs others : List DocRow) (count other : ℕ) → AllPairs (λ doc later. doc.doc.id ≢ later.doc.id) docs → AllPairs (λ doc later. doc.doc.id ≢ later.doc.id) others → rows_of docs ≡ rows_of others → AreTooMany query docs count → AreTooMany query others other → count ≡ other }
    ensures none { (question : Question) (docs others : List DocRow) (found : List Row) (count : ℕ) → AllPairs (λ doc later. doc.doc.id ≢ later.doc.id) docs → AllPairs (λ doc later. doc.doc.id ≢ later.doc.id) others → rows_of docs ≡ rows_of others → AreFound question docs found → AreTooMany question.query others count → ⊥ }
    ensures nobody { (question : Question) (docs others : List DocRow) (id count : ℕ) → AllPairs (λ doc later. doc.doc.id ≢ later.doc.id) docs → AllPairs (λ doc later. doc.doc.id ≢ later.doc.id) others → rows_of docs ≡ rows_of others → IsFirstLacking question docs id → AreTooMany question.query others count → ⊥ }
{}
