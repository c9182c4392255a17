//! Laws of the spellings. Each is a function with an empty body: its clauses are the law.
ghost use Rattle.std.specs.Prelude.{◌≡◌, ℕ, ◌+◌, List, ◌++◌};
ghost use Rattle.posting_codec.specs.HitLists.{AreHits, hit_list};
ghost use Rattle.posting_codec.specs.Numbers.{number};

/// No spelling of a number begins another: bytes that begin with two are of one number, and go on alike.
pub fn no_number_begins_another()
    ensures { (m n : ℕ) (x y : List ℕ) → number m ++ x ≡ number n ++ y → (m ≡ n) × (x ≡ y) }
{}

/// No spelling of a hit list begins another.
pub fn no_hit_list_begins_another()
    ensures { (hits other : List (ℕ × ℕ)) (x y : List ℕ) → AreHits hits → AreHits other → hit_list hits ++ x ≡ hit_list other ++ y → (hits ≡ other) × (x ≡ y) }
{}
