//! What shares tell. Each law is a function with an empty body: its clauses are the law.
ghost use Rattle.std.specs.Prelude.{◌≤◌, ℕ, List, length};
ghost use Rattle.step_book.specs.Shares.{AreApart, BeginAll, SeenBy, sum_of_shares};

/// Of workers that differ, each of which has seen a beginning of one line, those entries that are their own are together no more than
/// the line has.
pub fn shares_fit()
    ensures { (line : List ℕ) (all : List SeenBy) → AreApart all → BeginAll line all → sum_of_shares all ≤ length line }
{}
