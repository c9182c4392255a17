//! What is made of values, each of which has 128 bits or isn't there.
ghost use Rattle.std.specs.Prelude.{◌≡◌, ◌+ℤ◌, ◌-ℤ◌, ◌*ℤ◌, int_lt};
ghost use Rattle.std.specs.Ordering.{int_eq};
ghost use Rattle.rank_expr.specs.ExpressionWeight.{absolute, both, flag, negative, paired, weight_of, within};
ghost use Rattle.rank_expr.specs.steps.Summing.{zero_of};

use crate::expr::PairOp;

#[tactic(auto, using(crate::proofs::Ranges::checked_within))]
fn sum_of(x: i128, y: i128) -> Option<i128>
    ensures { result ≡ within (x +ℤ y) }
{
    x.checked_add(y)
}

#[tactic(auto, using(crate::proofs::Ranges::checked_within))]
fn difference_of(x: i128, y: i128) -> Option<i128>
    ensures { result ≡ within (x -ℤ y) }
{
    x.checked_sub(y)
}

#[tactic(auto, using(crate::proofs::Ranges::checked_within))]
fn product_of(x: i128, y: i128) -> Option<i128>
    ensures { result ≡ within (x *ℤ y) }
{
    x.checked_mul(y)
}

fn is_less(x: i128, y: i128) -> bool
    ensures { result ≡ int_lt x y }
{
    x < y
}

fn is_equal(x: i128, y: i128) -> bool
    ensures { result ≡ int_eq x y }
{
    x == y
}

/// 1 for true.
fn flag(holds: bool) -> i128
    ensures { result ≡ flag holds }
{
    if holds { 1 } else { 0 }
}

fn paired(op: PairOp, x: i128, y: i128) -> Option<i128>
    ensures { result ≡ paired op x y }
{
    match op {
        PairOp::Add => sum_of(x, y),
        PairOp::Subtract => difference_of(x, y),
        PairOp::Multiply => product_of(x, y),
        PairOp::Min => Some(x.min(y)),
        PairOp::Max => Some(x.max(y)),
        PairOp::Less => Some(flag(is_less(x, y))),
        PairOp::Greater => Some(flag(is_less(y, x))),
        PairOp::AtMost => Some(flag(!is_less(y, x))),
        PairOp::AtLeast => Some(flag(!is_less(x, y))),
        PairOp::Equal => Some(flag(is_equal(x, y))),
        PairOp::NotEqual => Some(flag(!is_equal(x, y))),
    }
}

/// What is made of two values.
pub(crate) fn both(op: PairOp, x: Option<i128>, y: Option<i128>) -> Option<i128>
    ensures { result ≡ both op x y }
{
    match x {
        None => None,
        Some(x) => match y {
            None => None,
            Some(y) => paired(op, x, y),
        },
    }
}

/// The negative of a value.
#[tactic(auto, using(crate::proofs::Ranges::checked_within))]
pub(crate) fn negative(x: Option<i128>) -> Option<i128>
    ensures { result ≡ negative x }
{
    match x {
        None => None,
        Some(x) => x.checked_neg(),
    }
}

/// A value without its sign.
pub(crate) fn absolute(x: Option<i128>) -> Option<i128>
    ensures { result ≡ absolute x }
{
    match x {
        None => None,
        Some(x) => { if x < 0 { x.checked_neg() } else { Some(x) } }
    }
}

/// The weight that a value is.
pub(crate) fn weight_of(x: Option<i128>) -> Option<u64>
    ensures { result ≡ weight_of x }
{
    match x {
        None => None,
        Some(x) => {
            if x < 0 || x > i128::from(u64::MAX) {
                None
            } else {
                Some(x as u64)
            }
        }
    }
}

/// Whether a value is 0, where there is one.
pub(crate) fn zero_of(x: Option<i128>) -> Option<bool>
    ensures { result ≡ zero_of x }
{
    match x {
        None => None,
        Some(x) => Some(x == 0),
    }
}

/// A number as a value.
pub(crate) fn number_value(number: &i128) -> Option<i128>
    ensures { result ≡ Some number.now }
{
    Some(*number)
}
