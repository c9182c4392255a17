//! Laws on what is shown and what is refused. The functions do nothing but call the law on pages that they rest on; their contracts
//! are the laws.
ghost use Rattle.std.specs.Prelude.{◌≡◌, ◌≢◌, ℕ, List, AllPairs};
ghost use Rattle.doc_types.specs.declared.documents.DocRow.{DocRow};
ghost use Rattle.doc_types.specs.Rows.{rows_of};
ghost use Rattle.row_select.specs.declared.row.Row.{Row};
ghost use Rattle.doc_search.specs.Searches.{AreFound, AreShown, IsFirstLacking};
ghost use Rattle.doc_search.specs.declared.question.Question.{Question};

use row_select::a_page_is_one_list;

/// A question shows one list of the documents of an index, whatever the order in which they are listed: what it shows depends on
/// the map of the documents by their ids alone.
pub fn a_search_shows_one_list()
    ensures { (question : Question) (docs others : List DocRow) (shown other : List Row) → AllPairs (λ doc later. doc.doc.id ≢ later.doc.id) docs → AllPairs (λ doc later. doc.doc.id ≢ later.doc.id) others → rows_of docs ≡ rows_of others → AreShown question docs shown → AreShown question others other → shown ≡ other }
{
    a_page_is_one_list();
}

/// So does the first document that is found without a weight: the least id of these is one number, and where each document has its
/// weight there is none.
pub fn a_search_ends_in_one_way()
    ensures first { (question : Question) (docs others : List DocRow) (id other : ℕ) → AllPairs (λ doc later. doc.doc.id ≢ later.doc.id) docs → AllPairs (λ doc later. doc.doc.id ≢ later.doc.id) others → rows_of docs ≡ rows_of others → IsFirstLacking question docs id → IsFirstLacking question others other → id ≡ other }
    ensures apart { (question : Question) (docs others : List DocRow) (found : List Row) (id : ℕ) → AllPairs (λ doc later. doc.doc.id ≢ later.doc.id) docs → AllPairs (λ doc later. doc.doc.id ≢ later.doc.id) others → rows_of docs ≡ rows_of others → AreFound question docs found → IsFirstLacking question others id → ⊥ }
{}
