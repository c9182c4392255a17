//! Laws on what is found. The function does nothing but call the law on pages that it rests on; its contract is the laws.
ghost use Rattle.std.specs.Prelude.{◌≡◌, ◌≢◌, List, AllPairs};
ghost use Rattle.doc_types.specs.declared.documents.DocRow.{DocRow};
ghost use Rattle.doc_types.specs.Rows.{rows_of};
ghost use Rattle.query_tree.specs.declared.query.Query.{Query};
ghost use Rattle.table_search.specs.Keywords.{word_docs};
ghost use Rattle.table_search.specs.Tables.{AreTables};
ghost use Rattle.table_search.specs.declared.asked.Asked.{Asked};
ghost use Rattle.table_search.specs.declared.found.Found.{Found as FoundValue};

use row_select::a_page_is_one_list;

/// A SELECT finds one page, or one list of groups, and the same facets, whatever the order in which the documents of its index are
/// listed: what it finds depends on the map of the documents by their ids alone. So do the numbers of documents that have its words.
pub fn a_select_finds_the_same()
    ensures tables { (asked : Asked) (docs others : List DocRow) (found other : FoundValue) → AllPairs (λ doc later. doc.doc.id ≢ later.doc.id) docs → AllPairs (λ doc later. doc.doc.id ≢ later.doc.id) others → rows_of docs ≡ rows_of others → AreTables asked docs found → AreTables asked others other → found ≡ other }
    ensures words { (query : Query) (docs others : List DocRow) → AllPairs (λ doc later. doc.doc.id ≢ later.doc.id) docs → AllPairs (λ doc later. doc.doc.id ≢ later.doc.id) others → rows_of docs ≡ rows_of others → word_docs query docs ≡ word_docs query others }
{
    a_page_is_one_list();
}
