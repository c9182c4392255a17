//! Laws of the definitions. The functions do nothing: their contracts are the laws.
ghost use Rattle.std.specs.Prelude.{◌≡◌, ◌≢◌, ◌≤◌, ◌<◌, ℕ, ℤ, List, [], AllPairs, length};
ghost use Rattle.doc_types.specs.declared.hits.Hit.{Hit};
ghost use Rattle.doc_types.specs.declared.hits.Hits.{Hits};
ghost use Rattle.rankers.specs.declared.ranker.Ranker.{Ranker};
ghost use Rattle.rankers.specs.declared.ranker.Ranker.TheVariants as rankers;
ghost use Rattle.rankers.specs.Fields.{AreOfOne};
ghost use Rattle.rankers.specs.Weight.{Differ, in_field, lcs, query_positions_at, weight};

/// The `lcs` of a field is the greatest number, over all whole numbers, of query positions that have a hit at such an offset.
pub fn lcs_is_the_greatest_of_all_offsets()
    ensures bound { (field : ℕ) (hits : List Hit) (offset : ℤ) → query_positions_at offset (in_field field hits) ≤ lcs (in_field field hits) }
    ensures met { (field : ℕ) (hits : List Hit) → AllPairs Differ hits → (offset : ℤ) × (query_positions_at offset (in_field field hits) ≡ lcs (in_field field hits)) }
{}

/// A document without a hit has no weight, but by `none` and for a query without a keyword.
pub fn no_hit_weighs_nothing()
    ensures { (ranker : Ranker) (hits : Hits) (weights : List ℕ) → hits.list ≡ [] → hits.keywords ≢ 0 → ranker ≢ rankers.None → weight ranker hits weights ≡ 0 }
{}

/// Hits of one keyword never stand together: the `lcs` of a field that has some is 1.
pub fn hits_of_one_keyword_stand_alone()
    ensures { (field query word : ℕ) (hits : List Hit) → AllPairs Differ hits → AreOfOne query word hits → 0 < length (in_field field hits) → lcs (in_field field hits) ≡ 1 }
{}
