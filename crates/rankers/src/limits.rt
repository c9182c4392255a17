//! The most that a document can weigh, by how many keywords its hits can be of, by the fields in which they can lie, or by both: what is
//! known before any of its places is read.
ghost use Rattle.std.specs.Prelude.{◌≡◌, ◌≢◌, ℕ, ◌≤◌, List, All, IfSome, length};
ghost use Rattle.doc_types.specs.declared.hits.Hits.{Hits as HitsValue};
ghost use Rattle.rankers.specs.Fields.{AreInFields, AreOfOne};
ghost use Rattle.rankers.specs.Limits.{AreOfPositions};
ghost use Rattle.rankers.specs.Weight.{AreRanked, weight};

use crate::by_fields::sum_by_bits;
use crate::ranker::{MAX_FIELD_WEIGHT, Ranker, Weights};
use crate::weighing::sum_of;

/// The most that a document weighs whose hits are of so many keywords at most: by `proximity`, since no more of them than that stand
/// together in a field. None for the other rankers.
pub fn most_weight(ranker: Ranker, keywords: usize, weights: &Weights) -> Option<u64>
    requires keywords { keywords ≤ 255 }
    requires few { length weights.now.list ≤ 32 }
    requires each_weight { All (λ weight. weight ≤ MAX_FIELD_WEIGHT) weights.now.list }
    ensures { IfSome result (λ most. (hits : HitsValue) (positions : List ℕ) → hits.keywords ≢ 0 → AreRanked hits weights.now.list → length positions ≤ keywords → AreOfPositions positions hits.list → weight ranker hits weights.now.list ≤ most) }
{
    match ranker {
        Ranker::Proximity => Some(keywords as u64 * sum_of(weights.list.as_slice())),
        _ => None,
    }
}

/// The most that a document weighs whose hits are all of one keyword and lie in some of these fields, as bits: what it weighs where
/// each of them has one. None by `wordcount`, which counts hits.
pub fn most_of_fields(ranker: Ranker, fields: u32, weights: &Weights) -> Option<u64>
    requires few { length weights.now.list ≤ 32 }
    ensures { IfSome result (λ most. (hits : HitsValue) (query word : ℕ) → hits.keywords ≢ 0 → AreRanked hits weights.now.list → AreOfOne query word hits.list → AreInFields fields hits.list → weight ranker hits weights.now.list ≤ most) }
{
    match ranker {
        Ranker::WordCount => None,
        Ranker::None => Some(1),
        _ => Some(sum_by_bits(ranker, fields, weights.list.as_slice())),
    }
}

/// The most that a document weighs whose hits are of so many keywords at most and lie in some of these fields, as bits: by `proximity` no
/// more of them than that stand together in a field, by `fieldmask` the fields tell all, and by `none` each document weighs 1. None for
/// the other rankers, which count hits, or words, of which one keyword may have many.
pub fn most_within(ranker: Ranker, keywords: usize, fields: u32, weights: &Weights) -> Option<u64>
    requires keywords { keywords ≤ 255 }
    requires few { length weights.now.list ≤ 32 }
    requires each_weight { All (λ weight. weight ≤ MAX_FIELD_WEIGHT) weights.now.list }
    ensures { IfSome result (λ most. (hits : HitsValue) (positions : List ℕ) → hits.keywords ≢ 0 → AreRanked hits weights.now.list → length positions ≤ keywords → AreOfPositions positions hits.list → AreInFields fields hits.list → weight ranker hits weights.now.list ≤ most) }
{
    let weights = weights.list.as_slice();
    match ranker {
        Ranker::None => Some(1),
        Ranker::Proximity => Some(
            keywords as u64 * sum_by_bits(Ranker::Proximity, fields, weights),
        ),
        Ranker::FieldMask => Some(sum_by_bits(Ranker::FieldMask, fields, weights)),
        Ranker::WordCount | Ranker::MatchAny => None,
    }
}
