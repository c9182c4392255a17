//! How documents are weighed. A ranker has one seam: what it may look at of a document, which is its hits, the weights of the fields
//! and the values of its attributes, is handed to it by one call. So another ranker is another value, and no other way through a search.
ghost use Rattle.std.specs.Prelude.{◌≡◌, IfSome, List, ℕ, Bool, true, false};
ghost use Rattle.doc_types.specs.declared.hits.Hits.{Hits as HitsValue};
ghost use Rattle.doc_types.specs.declared.schema.Value.{Value as AttrValue};
ghost use Rattle.rank_expr.specs.ByFields.{AreAlone, AreFew};
ghost use Rattle.rankers.specs.Weight.{AreRanked};
ghost use Rattle.doc_search.specs.Rankings.{presence, weigh};
ghost use Rattle.doc_search.specs.declared.ranking.Ranking.TheVariants as rankings;
ghost use Rattle.doc_search.specs.steps.ByFields.{LooksAtFields};
ghost use Rattle.doc_search.specs.steps.Lacking.{sought};

use doc_types::{Hits, Value};
use rank_expr::{RankExpr, goes_by_fields, rank, rank_by_fields};
use rankers::{Ranker, Weights, weight, weight_of_fields};

/// How documents are weighed.
pub enum Ranking {
    /// By their hits alone.
    Plain(Ranker),
    /// By an expression over their hits, the weights of the fields and their attributes.
    Expr(RankExpr),
    /// By whether the expression gives a weight: 1, or else 0. So the first document is looked for that has none.
    Lacking(RankExpr),
}

// Not derived: so letting go of it is a call, and no caller's proof takes the tree of its expression apart.
impl Drop for Ranking {
    fn drop(self) {
        match self {
            Ranking::Plain(_) => {}
            Ranking::Expr(_expr) => {}
            Ranking::Lacking(_expr) => {}
        }
    }
}

impl Ranking {
    /// The weight of a document; or where `lacking` says so, whether it has one.
    pub(crate) fn weigh(
        &self,
        lacking: bool,
        hits: &Hits,
        weights: &Weights,
        values: &[Value],
    ) -> Option<u64>
        requires { AreRanked hits.now weights.now.list }
        ensures { result ≡ weigh (sought lacking self.now) hits.now weights.now.list values.now }
    {
        match self {
            Ranking::Plain(ranker) => Some(weight(*ranker, hits, weights)),
            Ranking::Expr(expr) => {
                let found = rank(expr, hits, weights, values);
                if lacking {
                    Some(presence(found))
                } else {
                    found
                }
            }
            Ranking::Lacking(expr) => Some(presence(rank(expr, hits, weights, values))),
        }
    }

    /// Whether it looks at the values of attributes.
    pub(crate) fn looks_at_values(&self) -> bool
        ensures { result ≡ false → (lacking : Bool) (hits : HitsValue) (weights : List ℕ) (values other : List AttrValue) → weigh (sought lacking self.now) hits weights values ≡ weigh (sought lacking self.now) hits weights other }
    {
        match self {
            Ranking::Plain(_) => false,
            Ranking::Expr(_) | Ranking::Lacking(_) => true,
        }
    }

    /// The ranker that looks at hits alone, if it is one.
    pub(crate) fn plain(&self) -> Option<Ranker>
        ensures { IfSome result (λ ranker. self.now ≡ rankings.Plain ranker) }
    {
        match self {
            Ranking::Plain(ranker) => Some(*ranker),
            Ranking::Expr(_) | Ranking::Lacking(_) => None,
        }
    }

    /// Whether it weighs documents with hits of one keyword by the fields that have one.
    pub(crate) fn looks_at_fields(&self) -> bool
        ensures { result ≡ true → LooksAtFields self.now }
    {
        match self {
            Ranking::Plain(Ranker::WordCount) => false,
            Ranking::Plain(_) => true,
            Ranking::Expr(expr) => goes_by_fields(expr),
            Ranking::Lacking(expr) => goes_by_fields(expr),
        }
    }

    /// The weight of a document, or whether it has one, by the fields that have hits, as bits, where all hits are of one keyword of so
    /// many.
    pub(crate) fn weigh_by_fields(
        &self,
        lacking: bool,
        keywords: u16,
        fields: u32,
        weights: &Weights,
        values: &[Value],
    ) -> Option<u64>
        requires few { AreFew keywords weights.now.list }
        requires looks { LooksAtFields self.now }
        ensures { (hits : HitsValue) → AreAlone keywords fields weights.now.list hits → result ≡ weigh (sought lacking self.now) hits weights.now.list values.now }
    {
        match self {
            Ranking::Plain(ranker) => Some(weight_of_fields(*ranker, fields, weights)),
            Ranking::Expr(expr) => {
                let found = rank_by_fields(expr, keywords, fields, weights, values);
                if lacking {
                    Some(presence(found))
                } else {
                    found
                }
            }
            Ranking::Lacking(expr) => {
                let found = rank_by_fields(expr, keywords, fields, weights, values);
                Some(presence(found))
            }
        }
    }
}

/// 1 where there is a weight, or else 0.
fn presence(weight: Option<u64>) -> u64
    ensures { result ≡ presence weight }
{
    match weight {
        Some(_) => 1,
        None => 0,
    }
}
