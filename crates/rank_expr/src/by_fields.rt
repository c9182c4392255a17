//! The weight that an expression gives a document by the fields that have a hit, where all hits are of one keyword: no hit is read. It
//! is for expressions that look at neither the number of a field's hits nor where they are. No two such hits stand at one offset, so
//! that each field with a hit has an `lcs` and a `word_count` of 1.
ghost use Rattle.std.specs.Prelude.{◌≡◌, ◌<◌, ℕ, Some, pos, true};
ghost use Rattle.doc_types.specs.declared.hits.Hits.{Hits as HitsValue};
ghost use Rattle.rankers.specs.Fields.{has_bit};
ghost use Rattle.rankers.specs.Weight.{max_lcs};
ghost use Rattle.rank_expr.specs.ByFields.{AreAlone, AreFew, document_by_fields, factor_by_fields, goes_by_fields};
ghost use Rattle.rank_expr.specs.ExpressionWeight.{document_value, factor_of, field_value, is_matched, value_of, weight_by};
ghost use Rattle.rank_expr.specs.steps.Summing.{IsAtMatched};

use crate::expr::{DocFactor, Expr, FieldFactor, PairOp, RankExpr};
use crate::numbers::{absolute, both, negative, number_value, weight_of, zero_of};
use crate::ranking::{attr_value, sum_of, weight_at};
use crate::short_values::{short_value, short_weight};
use doc_types::Value;
use rankers::{Ranker, Weights, weight_of_fields};

/// Whether a number of a field goes by whether it has a hit.
fn factor_by_fields(factor: FieldFactor) -> bool
    ensures { result ≡ factor_by_fields factor }
{
    match factor {
        FieldFactor::Lcs | FieldFactor::WordCount | FieldFactor::UserWeight => true,
        FieldFactor::HitCount | FieldFactor::MinHitPos => false,
    }
}

/// Whether a number of a document goes by which fields have a hit.
fn document_by_fields(factor: DocFactor) -> bool
    ensures { result ≡ document_by_fields factor }
{
    match factor {
        DocFactor::MaxLcs | DocFactor::FieldMask => true,
        DocFactor::DocWordCount => false,
    }
}

/// Whether each part of an expression does.
fn each_by_fields(expr: &Expr) -> bool
    ensures { result ≡ goes_by_fields expr.now }
{
    match expr {
        Expr::Number(_) => true,
        Expr::Field(factor) => factor_by_fields(*factor),
        Expr::Document(factor) => document_by_fields(*factor),
        Expr::Attr(_) => true,
        Expr::Negative(part) => {
            let plain = part.get();
            each_by_fields(plain)
        }
        Expr::Abs(part) => {
            let signed = part.get();
            each_by_fields(signed)
        }
        Expr::Pair(_, first, second) => {
            let left = first.get();
            let one = each_by_fields(left);
            let right = second.get();
            let other = each_by_fields(right);
            one && other
        }
        Expr::If(test, yes, no) => {
            let tested = test.get();
            let test = each_by_fields(tested);
            let chosen = yes.get();
            let yes = each_by_fields(chosen);
            let other = no.get();
            let no = each_by_fields(other);
            test && (yes && no)
        }
        Expr::Sum(part) => {
            let body = part.get();
            each_by_fields(body)
        }
    }
}

/// Whether the expression weighs documents with hits of one keyword by the fields that have one.
pub fn goes_by_fields(expr: &RankExpr) -> bool
    ensures { result ≡ goes_by_fields expr.now.root }
{
    each_by_fields(&expr.root)
}

/// Whether the field's bit is set.
pub(crate) fn has_bit(fields: u32, field: u16) -> bool
    requires { field < 32 }
    ensures { result ≡ has_bit fields field }
{
    fields >> field & 1 == 1
}

/// A number as a value.
fn as_value(number: u64) -> Option<i128>
    ensures { result ≡ Some (pos number) }
{
    Some(i128::from(number))
}

/// What a field with a hit gives of one kind, 0 of a kind that isn't known by this alone.
fn factor_alone(factor: FieldFactor, weights: &Weights, field: u16) -> u64
    ensures { factor_by_fields factor ≡ true → (keywords fields : ℕ) (hits : HitsValue) → AreAlone keywords fields weights.now.list hits → is_matched hits field ≡ true → result ≡ factor_of hits weights.now.list factor field }
{
    match factor {
        FieldFactor::Lcs => 1,
        FieldFactor::WordCount => 1,
        FieldFactor::UserWeight => u64::from(weight_at(weights.list.as_slice(), field)),
        FieldFactor::HitCount | FieldFactor::MinHitPos => 0,
    }
}

/// The same as a value, which is there inside of a `sum`.
fn field_alone(factor: FieldFactor, weights: &Weights, at: Option<u16>) -> Option<i128>
    ensures { factor_by_fields factor ≡ true → (keywords fields : ℕ) (hits : HitsValue) → AreAlone keywords fields weights.now.list hits → IsAtMatched hits at → result ≡ field_value hits weights.now.list factor at }
{
    match at {
        None => None,
        Some(field) => as_value(factor_alone(factor, weights, field)),
    }
}

/// The number of keywords times the sum of all weights.
fn greatest_alone(keywords: u16, weights: &[u32]) -> u64
    requires { AreFew keywords weights.now }
    ensures { result ≡ max_lcs keywords weights.now }
{
    u64::from(keywords) * sum_of(weights)
}

/// What the document gives, 0 of a kind that isn't known by its fields.
fn document_alone(factor: DocFactor, keywords: u16, fields: u32, weights: &Weights) -> u64
    requires { AreFew keywords weights.now.list }
    ensures { document_by_fields factor ≡ true → (hits : HitsValue) → AreAlone keywords fields weights.now.list hits → result ≡ document_value hits weights.now.list factor }
{
    match factor {
        DocFactor::MaxLcs => greatest_alone(keywords, weights.list.as_slice()),
        DocFactor::FieldMask => weight_of_fields(Ranker::FieldMask, fields, weights),
        DocFactor::DocWordCount => 0,
    }
}

/// The same as a value.
fn whole_alone(factor: DocFactor, keywords: u16, fields: u32, weights: &Weights) -> Option<i128>
    requires { AreFew keywords weights.now.list }
    ensures { document_by_fields factor ≡ true → (hits : HitsValue) → AreAlone keywords fields weights.now.list hits → result ≡ Some (pos (document_value hits weights.now.list factor)) }
{
    as_value(document_alone(factor, keywords, fields, weights))
}

/// The value of an expression, by the field over which a `sum` goes.
fn value_alone(
    expr: &Expr,
    keywords: u16,
    fields: u32,
    weights: &Weights,
    values: &[Value],
    at: Option<u16>,
) -> Option<i128>
    requires { AreFew keywords weights.now.list }
    ensures { goes_by_fields expr.now ≡ true → (hits : HitsValue) → AreAlone keywords fields weights.now.list hits → IsAtMatched hits at → result ≡ value_of hits weights.now.list values.now expr.now at }
{
    match expr {
        Expr::Number(number) => number_value(number),
        Expr::Field(factor) => field_alone(*factor, weights, at),
        Expr::Document(factor) => whole_alone(*factor, keywords, fields, weights),
        Expr::Attr(attr) => attr_value(values, *attr),
        Expr::Negative(part) => {
            let inner = part.get();
            let plain = value_alone(inner, keywords, fields, weights, values, at);
            negative(plain)
        }
        Expr::Abs(part) => {
            let signed = part.get();
            let whole = value_alone(signed, keywords, fields, weights, values, at);
            absolute(whole)
        }
        Expr::Pair(op, first, second) => {
            let left = first.get();
            let first = value_alone(left, keywords, fields, weights, values, at);
            let right = second.get();
            let second = value_alone(right, keywords, fields, weights, values, at);
            both(*op, first, second)
        }
        Expr::If(test, yes, no) => {
            let tested = test.get();
            let test = value_alone(tested, keywords, fields, weights, values, at);
            match zero_of(test) {
                None => None,
                Some(zero) => {
                    if zero {
                        let other = no.get();
                        value_alone(other, keywords, fields, weights, values, at)
                    } else {
                        let chosen = yes.get();
                        value_alone(chosen, keywords, fields, weights, values, at)
                    }
                }
            }
        }
        Expr::Sum(part) => {
            let body = part.get();
            let mut sum = Some(0);
            'fields: for field in 0..weights.list.len() as u16 {
                if has_bit(fields, field) {
                    let more = value_alone(body, keywords, fields, weights, values, Some(field));
                    sum = both(PairOp::Add, sum, more);
                }
            }
            sum
        }
    }
}

/// The weight that the expression gives a document by the fields that have hits, as bits, where all hits are of one keyword; none where
/// its value isn't one of 64 bits without a sign, or isn't there.
pub fn rank_by_fields(
    expr: &RankExpr,
    keywords: u16,
    fields: u32,
    weights: &Weights,
    values: &[Value],
) -> Option<u64>
    requires few { AreFew keywords weights.now.list }
    requires goes { goes_by_fields expr.now.root ≡ true }
    ensures { (hits : HitsValue) → AreAlone keywords fields weights.now.list hits → result ≡ weight_by expr.now.root hits weights.now.list values.now }
{
    match short_value(&expr.root, fields, weights, values, None) {
        Some(value) => short_weight(value),
        None => {
            let value = value_alone(&expr.root, keywords, fields, weights, values, None);
            weight_of(value)
        }
    }
}
