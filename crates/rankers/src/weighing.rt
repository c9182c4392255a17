//! The weight of a document: the sum of what each field that has a hit gives. Hits come in any order, and no memory is taken. Where
//! their fields ascend, as in what evaluation gives, the hits of a field stand together, and each field looks at its own alone.
ghost use Rattle.std.specs.Prelude.{◌≡◌, ◌≤◌, ◌<◌, ◌^◌, ◌==◌, length, sum, All, IfSome};
ghost use Rattle.std.specs.List.{prefix_len};
ghost use Rattle.rankers.specs.Weight.{AreRanked, hit_count, in_field, max_lcs, weight};
ghost use Rattle.rankers.specs.steps.FieldValue.{AreWithin, field_value, fields_value};

use crate::offsets::longest;
use crate::ranker::{MAX_FIELD_WEIGHT, Ranker, Weights};
use crate::words::distinct_words;
use doc_types::{Hit, Hits};

/// The weight of a document by its hits, which may come in any order.
pub fn weight(ranker: Ranker, hits: &Hits, weights: &Weights) -> u64
    requires { AreRanked hits.now weights.now.list }
    ensures { result ≡ weight ranker hits.now weights.now.list }
{
    if hits.keywords == 0 {
        return 1;
    }
    match ranker {
        Ranker::None => 1,
        _ => sum_over_fields(ranker, hits, weights.list.as_slice()),
    }
}

/// The sum of what the fields give.
fn sum_over_fields(ranker: Ranker, hits: &Hits, weights: &[u32]) -> u64
    requires { AreRanked hits.now weights.now }
    ensures { result ≡ fields_value ranker (max_lcs hits.now.keywords weights.now) weights.now hits.now.list }
{
    let most = u64::from(hits.keywords) * sum_of(weights);
    let list = hits.list.as_slice();
    match sum_in_order(ranker, list, weights, most) {
        Some(sum) => sum,
        None => sum_in_any_order(ranker, list, weights, most),
    }
}

/// The same where the fields of the hits ascend: each field then looks at its own hits alone.
fn sum_in_order(ranker: Ranker, hits: &[Hit], weights: &[u32], most: u64) -> Option<u64>
    requires within { AreWithin hits.now }
    requires fields { length weights.now ≤ 32 }
    requires each_weight { All (λ weight. weight ≤ MAX_FIELD_WEIGHT) weights.now }
    requires most { most < 2 ^ 30 }
    ensures { IfSome result (λ sum. sum ≡ fields_value ranker most weights.now hits.now) }
{
    let mut rest = hits;
    let mut sum = 0;
    for (field, weight) in weights.iter().enumerate() {
        let (own, later) = rest.split_at(run_of(rest, field as u16));
        sum += field_value(ranker, own, field as u16, *weight, most);
        rest = later;
    }
    if rest.is_empty() { Some(sum) } else { None }
}

/// How many hits of the field come first.
fn run_of(hits: &[Hit], field: u16) -> usize
    ensures { result ≡ prefix_len (λ hit. hit.field == field) hits.now }
{
    hits.iter().take_while(|hit| hit.field == field).count()
}

/// The same for hits in any order: each field looks at all of them.
fn sum_in_any_order(ranker: Ranker, hits: &[Hit], weights: &[u32], most: u64) -> u64
    requires within { AreWithin hits.now }
    requires fields { length weights.now ≤ 32 }
    requires each_weight { All (λ weight. weight ≤ MAX_FIELD_WEIGHT) weights.now }
    requires most { most < 2 ^ 30 }
    ensures { result ≡ fields_value ranker most weights.now hits.now }
{
    let mut sum = 0;
    for (field, weight) in weights.iter().enumerate() {
        sum += field_value(ranker, hits, field as u16, *weight, most);
    }
    sum
}

/// The sum of all weights.
pub(crate) fn sum_of(weights: &[u32]) -> u64
    requires { length weights.now ≤ 32 }
    ensures { result ≡ sum weights.now }
{
    weights.iter().map(|weight| u64::from(*weight)).sum()
}

/// How many hits the field has.
pub(crate) fn count_in(hits: &[Hit], field: u16) -> u64
    ensures { result ≡ hit_count (in_field field hits.now) }
{
    hits.iter().filter(|hit| hit.field == field).count() as u64
}

/// What a field gives, 0 where it has no hit. `most` is the number of keywords times the sum of all weights.
fn field_value(ranker: Ranker, hits: &[Hit], field: u16, weight: u32, most: u64) -> u64
    requires within { AreWithin hits.now }
    requires field { field < 32 }
    requires weight { weight ≤ MAX_FIELD_WEIGHT }
    requires most { most < 2 ^ 30 }
    ensures value { result ≡ field_value ranker most field weight hits.now }
    ensures bound { result ≤ 2 ^ 54 }
{
    let count = count_in(hits, field);
    if count == 0 {
        return 0;
    }
    let weight = u64::from(weight);
    match ranker {
        Ranker::None => 0,
        Ranker::WordCount => count * weight,
        Ranker::Proximity => longest(hits, field) * weight,
        Ranker::MatchAny => {
            (distinct_words(hits, field) + (longest(hits, field) - 1) * most) * weight
        }
        Ranker::FieldMask => 1 << field,
    }
}
