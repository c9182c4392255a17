//! The weight of a document whose hits are all of one keyword, by the fields that have one. No two such hits stand at one offset,
//! since none stand at one place: so it doesn't matter where in a field they are, nor, but for the ranker that counts them, how many.
ghost use Rattle.std.specs.Prelude.{◌≡◌, ◌≢◌, ℕ, ◌≤◌, ◌<◌, ◌^◌, length};
ghost use Rattle.doc_types.specs.declared.hits.Hits.{Hits as HitsValue};
ghost use Rattle.rankers.specs.declared.ranker.Ranker.TheVariants as rankers;
ghost use Rattle.rankers.specs.Fields.{has_bit, AreFieldsOf, AreOfOne};
ghost use Rattle.rankers.specs.Weight.{AreRanked, weight};
ghost use Rattle.rankers.specs.steps.FieldValue.{value_by_bit, values_by_bits};

use crate::ranker::{Ranker, Weights};

/// The weight of a document by the fields that have hits, as bits, where all hits are of one keyword.
pub fn weight_of_fields(ranker: Ranker, fields: u32, weights: &Weights) -> u64
    requires ranker { ranker ≢ rankers.WordCount }
    requires few { length weights.now.list ≤ 32 }
    ensures { (hits : HitsValue) (query word : ℕ) → hits.keywords ≢ 0 → AreRanked hits weights.now.list → AreOfOne query word hits.list → AreFieldsOf fields hits.list → result ≡ weight ranker hits weights.now.list }
{
    match ranker {
        Ranker::None => 1,
        _ => sum_by_bits(ranker, fields, weights.list.as_slice()),
    }
}

/// The sum of what the fields give whose bits are set.
pub(crate) fn sum_by_bits(ranker: Ranker, fields: u32, weights: &[u32]) -> u64
    requires { length weights.now ≤ 32 }
    ensures { result ≡ values_by_bits ranker fields weights.now }
{
    let mut sum = 0;
    for (field, weight) in weights.iter().enumerate() {
        sum += value_by_bit(ranker, fields, field as u16, *weight);
    }
    sum
}

/// What a field gives, 0 where its bit isn't set.
fn value_by_bit(ranker: Ranker, fields: u32, field: u16, weight: u32) -> u64
    requires { field < 32 }
    ensures value { result ≡ value_by_bit ranker fields field weight }
    ensures bound { result ≤ 2 ^ 54 }
{
    if !has_bit(fields, field) {
        return 0;
    }
    match ranker {
        Ranker::None | Ranker::WordCount => 0,
        Ranker::Proximity | Ranker::MatchAny => u64::from(weight),
        Ranker::FieldMask => 1 << field,
    }
}

/// Whether the field's bit is set.
fn has_bit(fields: u32, field: u16) -> bool
    requires { field < 32 }
    ensures { result ≡ has_bit fields field }
{
    fields >> field & 1 == 1
}
