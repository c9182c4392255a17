//! The weight that an expression gives a document. No memory is taken. What a field gives is worked out where the expression looks at
//! it first, and kept for the document.
ghost use Rattle.std.specs.Prelude.{◌≡◌, ◌≢◌, ◌≤◌, ◌==◌, ℕ, List, Some, length, pos, slice_get, slice_index, sum};
ghost use Rattle.std.specs.List.{list_any};
ghost use Rattle.rankers.specs.Factors.{factors_of};
ghost use Rattle.rankers.specs.Weight.{AreRanked, in_field, max_lcs, word_count};
ghost use Rattle.rank_expr.specs.ExpressionWeight.{attr_value, document_value, factor_of, field_value, value_of, weight_by};
ghost use Rattle.rank_expr.specs.steps.Summing.{IsMemo};

use crate::expr::{DocFactor, Expr, FieldFactor, PairOp, RankExpr};
use crate::numbers::{absolute, both, negative, number_value, weight_of, zero_of};
use doc_types::{Hit, Hits, Value};
use rankers::{Factors, Ranker, Weights, factors, weight};

/// Whether the field has a hit.
fn is_matched(hits: &[Hit], field: u16) -> bool
    ensures { result ≡ list_any (λ hit. hit.field == field) hits.now }
{
    hits.iter().any(|hit| hit.field == field)
}

/// Whether a hit has the word.
fn has_word(hits: &[Hit], word: u16) -> bool
    ensures { result ≡ list_any (λ hit. word == hit.word) hits.now }
{
    hits.iter().any(|hit| word == hit.word)
}

/// How many distinct words have a hit. A word is looked for among the hits before, where it stands soon if it stands often.
fn words_of(hits: &[Hit]) -> u64
    ensures { result ≡ word_count hits.now }
{
    let mut count = 0;
    for (place, hit) in hits.iter().enumerate() {
        if !has_word(&hits[..place], hit.word) {
            count += 1;
        }
    }
    count
}

/// What the field gives, as it is kept, or worked out now and kept.
fn factors_kept(hits: &Hits, field: u16, memo: &mut [Option<Factors>]) -> Factors
    requires ranked { (weights : List ℕ) × AreRanked hits.now weights }
    requires memo { IsMemo hits.now memo.old }
    ensures factors { result ≡ factors_of (in_field field hits.now.list) }
    ensures memo { IsMemo hits.now memo.new }
{
    let place = field as usize;
    if place >= memo.len() {
        return factors(hits, field);
    }
    match memo[place] {
        Some(factors) => factors,
        None => {
            let found = factors(hits, field);
            memo[place] = Some(found);
            found
        }
    }
}

/// The weight of the field.
pub(crate) fn weight_at(weights: &[u32], field: u16) -> u32
    ensures { result ≡ slice_index weights.now field }
{
    let place = field as usize;
    if place < weights.len() {
        weights[place]
    } else {
        0
    }
}

/// What the field gives of one kind.
fn factor_of(
    factor: FieldFactor,
    hits: &Hits,
    weights: &Weights,
    field: u16,
    memo: &mut [Option<Factors>],
) -> u32
    requires ranked { AreRanked hits.now weights.now.list }
    requires memo { IsMemo hits.now memo.old }
    ensures value { result ≡ factor_of hits.now weights.now.list factor field }
    ensures memo { IsMemo hits.now memo.new }
{
    match factor {
        FieldFactor::UserWeight => weight_at(weights.list.as_slice(), field),
        FieldFactor::Lcs => factors_kept(hits, field, memo).lcs,
        FieldFactor::HitCount => factors_kept(hits, field, memo).hit_count,
        FieldFactor::WordCount => factors_kept(hits, field, memo).word_count,
        FieldFactor::MinHitPos => factors_kept(hits, field, memo).min_hit_pos,
    }
}

/// The same as a value, which is there inside of a `sum`.
fn field_value(
    factor: FieldFactor,
    hits: &Hits,
    weights: &Weights,
    at: Option<u16>,
    memo: &mut [Option<Factors>],
) -> Option<i128>
    requires ranked { AreRanked hits.now weights.now.list }
    requires memo { IsMemo hits.now memo.old }
    ensures value { result ≡ field_value hits.now weights.now.list factor at }
    ensures memo { IsMemo hits.now memo.new }
{
    match at {
        None => None,
        Some(field) => Some(i128::from(factor_of(factor, hits, weights, field, memo))),
    }
}

/// The sum of all weights.
pub(crate) fn sum_of(weights: &[u32]) -> u64
    requires { length weights.now ≤ 32 }
    ensures { result ≡ sum weights.now }
{
    weights.iter().map(|weight| u64::from(*weight)).sum()
}

/// The number of keywords times the sum of all weights.
fn greatest_lcs(hits: &Hits, weights: &[u32]) -> u64
    requires { AreRanked hits.now weights.now }
    ensures { result ≡ max_lcs hits.now.keywords weights.now }
{
    u64::from(hits.keywords) * sum_of(weights)
}

/// What the document gives.
fn document_value(factor: DocFactor, hits: &Hits, weights: &Weights) -> u64
    requires ranked { AreRanked hits.now weights.now.list }
    requires keywords { hits.now.keywords ≢ 0 }
    ensures { result ≡ document_value hits.now weights.now.list factor }
{
    match factor {
        DocFactor::MaxLcs => greatest_lcs(hits, weights.list.as_slice()),
        DocFactor::FieldMask => weight(Ranker::FieldMask, hits, weights),
        DocFactor::DocWordCount => words_of(hits.list.as_slice()),
    }
}

/// The same as a value.
fn whole_value(factor: DocFactor, hits: &Hits, weights: &Weights) -> Option<i128>
    requires ranked { AreRanked hits.now weights.now.list }
    requires keywords { hits.now.keywords ≢ 0 }
    ensures { result ≡ Some (pos (document_value hits.now weights.now.list factor)) }
{
    Some(i128::from(document_value(factor, hits, weights)))
}

/// The value of an attribute.
pub(crate) fn attr_value(values: &[Value], attr: u16) -> Option<i128>
    ensures { result ≡ attr_value (slice_get values.now attr) }
{
    match values.get(attr as usize) {
        None => None,
        Some(Value::Whole(value)) => Some(i128::from(*value)),
    }
}

/// The value of an expression, by the field over which a `sum` goes.
fn value_of(
    expr: &Expr,
    hits: &Hits,
    weights: &Weights,
    values: &[Value],
    at: Option<u16>,
    memo: &mut [Option<Factors>],
) -> Option<i128>
    requires ranked { AreRanked hits.now weights.now.list }
    requires keywords { hits.now.keywords ≢ 0 }
    requires memo { IsMemo hits.now memo.old }
    ensures value { result ≡ value_of hits.now weights.now.list values.now expr.now at }
    ensures memo { IsMemo hits.now memo.new }
{
    match expr {
        Expr::Number(number) => number_value(number),
        Expr::Field(factor) => field_value(*factor, hits, weights, at, memo),
        Expr::Document(factor) => whole_value(*factor, hits, weights),
        Expr::Attr(attr) => attr_value(values, *attr),
        Expr::Negative(part) => {
            let inner = part.get();
            let plain = value_of(inner, hits, weights, values, at, memo);
            negative(plain)
        }
        Expr::Abs(part) => {
            let signed = part.get();
            let whole = value_of(signed, hits, weights, values, at, memo);
            absolute(whole)
        }
        Expr::Pair(op, first, second) => {
            let left = first.get();
            let first = value_of(left, hits, weights, values, at, memo);
            let right = second.get();
            let second = value_of(right, hits, weights, values, at, memo);
            both(*op, first, second)
        }
        Expr::If(test, yes, no) => {
            let tested = test.get();
            let test = value_of(tested, hits, weights, values, at, memo);
            match zero_of(test) {
                None => None,
                Some(zero) => {
                    if zero {
                        let other = no.get();
                        value_of(other, hits, weights, values, at, memo)
                    } else {
                        let chosen = yes.get();
                        value_of(chosen, hits, weights, values, at, memo)
                    }
                }
            }
        }
        Expr::Sum(part) => {
            let body = part.get();
            let mut sum = Some(0);
            'fields: for field in 0..weights.list.len() as u16 {
                if is_matched(hits.list.as_slice(), field) {
                    let more = value_of(body, hits, weights, values, Some(field), memo);
                    sum = both(PairOp::Add, sum, more);
                }
            }
            sum
        }
    }
}

/// The weight that the expression gives a document by its hits, which may come in any order, the weights of the fields and the values
/// of its attributes; none where its value isn't one of 64 bits without a sign, or isn't there.
pub fn rank(expr: &RankExpr, hits: &Hits, weights: &Weights, values: &[Value]) -> Option<u64>
    requires { AreRanked hits.now weights.now.list }
    ensures { result ≡ weight_by expr.now.root hits.now weights.now.list values.now }
{
    if hits.keywords == 0 {
        return Some(1);
    }
    let mut memo = [None; 32];
    let value = value_of(&expr.root, hits, weights, values, None, &mut memo);
    weight_of(value)
}
