//! Values of 64 bits, as nearly all are: the value of an expression for hits of one keyword, where it and all its parts are such
//! numbers and of the kinds that are used most. These pass through registers and cost a third of what values of 128 bits cost.
ghost use Rattle.std.specs.Prelude.{◌≡◌, ◌+ℤ◌, ◌-ℤ◌, ◌*ℤ◌, ◌≤◌, ℕ, IfSome, Some, length, slice_get};
ghost use Rattle.doc_types.specs.declared.hits.Hits.{Hits as HitsValue};
ghost use Rattle.rank_expr.specs.ByFields.{AreAlone};
ghost use Rattle.rank_expr.specs.ExpressionWeight.{attr_value, field_value, paired, value_of, weight_of, within};
ghost use Rattle.rank_expr.specs.steps.Summing.{IsAtMatched};

use crate::by_fields::has_bit;
use crate::expr::{Expr, FieldFactor, PairOp};
use crate::ranking::weight_at;
use doc_types::Value;
use rankers::Weights;

#[tactic(auto, using(crate::proofs::Ranges::short_within))]
fn short_sum(x: i64, y: i64) -> Option<i64>
    ensures { IfSome result (λ value. within (x +ℤ y) ≡ Some value) }
{
    x.checked_add(y)
}

#[tactic(auto, using(crate::proofs::Ranges::short_within))]
fn short_difference(x: i64, y: i64) -> Option<i64>
    ensures { IfSome result (λ value. within (x -ℤ y) ≡ Some value) }
{
    x.checked_sub(y)
}

#[tactic(auto, using(crate::proofs::Ranges::short_within))]
fn short_product(x: i64, y: i64) -> Option<i64>
    ensures { IfSome result (λ value. within (x *ℤ y) ≡ Some value) }
{
    x.checked_mul(y)
}

/// What is made of two values; none for a comparison.
fn short_pair(op: PairOp, x: i64, y: i64) -> Option<i64>
    ensures { IfSome result (λ value. paired op x y ≡ Some value) }
{
    match op {
        PairOp::Add => short_sum(x, y),
        PairOp::Subtract => short_difference(x, y),
        PairOp::Multiply => short_product(x, y),
        PairOp::Min => Some(x.min(y)),
        PairOp::Max => Some(x.max(y)),
        PairOp::Less | PairOp::Greater | PairOp::AtMost => None,
        PairOp::AtLeast | PairOp::Equal | PairOp::NotEqual => None,
    }
}

fn short_number(number: &i128) -> Option<i64>
    ensures { IfSome result (λ value. value ≡ number.now) }
{
    i64::try_from(*number).ok()
}

fn short_field(factor: FieldFactor, weights: &Weights, at: Option<u16>) -> Option<i64>
    ensures { (keywords fields : ℕ) (hits : HitsValue) → AreAlone keywords fields weights.now.list hits → IsAtMatched hits at → IfSome result (λ value. field_value hits weights.now.list factor at ≡ Some value) }
{
    match at {
        None => None,
        Some(field) => match factor {
            FieldFactor::Lcs => Some(1),
            FieldFactor::WordCount => Some(1),
            FieldFactor::UserWeight => Some(i64::from(weight_at(weights.list.as_slice(), field))),
            FieldFactor::HitCount => None,
            FieldFactor::MinHitPos => None,
        },
    }
}

fn short_attr(values: &[Value], attr: u16) -> Option<i64>
    ensures { IfSome result (λ value. attr_value (slice_get values.now attr) ≡ Some value) }
{
    match values.get(attr as usize) {
        None => None,
        Some(Value::Whole(value)) => Some(*value),
    }
}

/// The value of an expression, by the field over which a `sum` goes.
pub(crate) fn short_value(
    expr: &Expr,
    fields: u32,
    weights: &Weights,
    values: &[Value],
    at: Option<u16>,
) -> Option<i64>
    requires { length weights.now.list ≤ 32 }
    ensures { (keywords : ℕ) (hits : HitsValue) → AreAlone keywords fields weights.now.list hits → IsAtMatched hits at → IfSome result (λ value. value_of hits weights.now.list values.now expr.now at ≡ Some value) }
{
    match expr {
        Expr::Number(number) => short_number(number),
        Expr::Field(factor) => short_field(*factor, weights, at),
        Expr::Attr(attr) => short_attr(values, *attr),
        Expr::Pair(op, first, second) => {
            let left = first.get();
            let one = short_value(left, fields, weights, values, at)?;
            let right = second.get();
            let other = short_value(right, fields, weights, values, at)?;
            short_pair(*op, one, other)
        }
        Expr::Sum(part) => {
            let body = part.get();
            let mut sum = 0;
            'fields: for field in 0..weights.list.len() as u16 {
                if has_bit(fields, field) {
                    let more = short_value(body, fields, weights, values, Some(field))?;
                    sum = short_sum(sum, more)?;
                }
            }
            Some(sum)
        }
        Expr::Document(_) | Expr::Negative(_) | Expr::Abs(_) | Expr::If(_, _, _) => None,
    }
}

/// The weight that a value is.
pub(crate) fn short_weight(value: i64) -> Option<u64>
    ensures { result ≡ weight_of (Some value) }
{
    if value < 0 { None } else { Some(value as u64) }
}
