//! Laws on queries whose keywords are numbered, and on the hits of a query. The functions do nothing: their contracts are the laws.
ghost use Rattle.std.specs.Prelude.{◌≡◌, List, length, sum_by, All, Any};
ghost use Rattle.doc_types.specs.Chunks.{rows_with};
ghost use Rattle.doc_types.specs.declared.documents.DocRow.{DocRow};
ghost use Rattle.doc_types.specs.declared.hits.Hit.{Hit};
ghost use Rattle.doc_types.specs.declared.schema.Schema.{Schema};
ghost use Rattle.doc_types.specs.Documents.{IsField};
ghost use Rattle.query_tree.specs.declared.key.Key.{Key};
ghost use Rattle.query_tree.specs.declared.query.Query.{Query as QueryValue};
ghost use Rattle.query_tree.specs.TreeKeys.{query_keys};
ghost use Rattle.op_eval.specs.Debts.{due};
ghost use Rattle.op_eval.specs.Hits.{AreHits};
ghost use Rattle.word_rows.specs.Keywords.{key_places};
ghost use Rattle.op_eval.specs.Numbered.{AreHitsWithin, HasPositions, IsHitOf, IsNumbered, IsWordAt};
ghost use Rattle.op_eval.specs.Sentences.{query_for};

/// What an index means by a query has the query's keywords, with their numbers.
pub fn an_index_keeps_the_numbers_of_keywords()
    ensures { (schema : Schema) (query : QueryValue) → IsNumbered query → IsNumbered (query_for schema query) }
{}

/// Keywords that are numbered have query positions.
pub fn numbered_keywords_have_positions()
    ensures { (query : QueryValue) → IsNumbered query → HasPositions query }
{}

/// Each hit of a query in a row is of one of its keywords, and stands at one of that one's places; a word of the row stands there.
pub fn each_hit_is_of_a_keyword()
    ensures keywords { (query : QueryValue) (row : DocRow) (hits : List Hit) → AreHits query row hits → All (λ hit. Any (IsHitOf query row hit) (query_keys query)) hits }
    ensures words { (row : DocRow) (key : Key) → All (IsWordAt row key.word) (key_places row key) }
{}

/// The hits of a query whose keywords have query positions are of its keywords, within the limits of positions, and no two are of one query
/// position at one place. So they can be weighed.
pub fn hits_can_be_weighed()
    ensures { (query : QueryValue) (row : DocRow) (hits : List Hit) → HasPositions query → All IsField row.doc.fields → AreHits query row hits → AreHitsWithin query.keywords (length row.doc.fields) hits }
{}

/// All rows of a chunk may open as many lists as their keywords have rows, all counted together.
pub fn all_rows_owe_their_counts()
    ensures { (rows : List DocRow) (keys : List Key) → due rows keys 0 ≡ sum_by (λ key. length (rows_with key.word rows)) keys }
{}
