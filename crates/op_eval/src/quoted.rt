//! The plans of keywords that are quoted together.
ghost use Rattle.std.specs.Prelude.{◌≡◌, ◌+◌, ◌*◌, ◌^◌, ◌<◌, ◌≤◌, ℕ, Bool, false, length, min, nat_le, IfOk, OnOk};
ghost use Rattle.std.specs.List.{list_all, range_with_len};
ghost use Rattle.row_plans.specs.Plans.{holds};
ghost use Rattle.row_plans.specs.declared.plan.Plan.TheVariants as plans;

use crate::parts::{Parts, Rated};
use row_plans::Plan;
use sqlite_items::Items;
use srch_base::NoMemory;
use std::alloc::Global;

/// The greatest number of a keyword.
const LAST_NUMBER: usize = 0xffff;

/// The plan of the keyword that comes next.
pub(crate) fn word(counts: &[u32], next: &mut usize) -> Rated
    requires { length counts.now ≤ 2 ^ 16 }
    ensures next { next.old < length counts.now → next.new ≡ next.old + 1 }
    ensures plan { next.old < length counts.now → result.plan ≡ plans.Word next.old }
{
    let number = *next;
    *next = number.saturating_add(1);
    Rated {
        plan: Plan::Word(number.min(LAST_NUMBER) as u16),
        rows: rows_at(counts, number),
    }
}

/// How many rows have the word of this keyword.
fn rows_at(counts: &[u32], number: usize) -> u32 {
    match counts.get(number) {
        Some(rows) => *rows,
        None => u32::MAX,
    }
}

/// The plan of so many keywords that all have to be there.
pub(crate) fn all_words(
    alloc: Global,
    count: usize,
    counts: &[u32],
    next: &mut usize,
) -> Result<Rated, NoMemory>
    requires { length counts.now ≤ 2 ^ 16 }
    ensures next { next.old + count ≤ length counts.now → OnOk result (next.new ≡ next.old + count) }
    ensures plan { next.old + count ≤ length counts.now → IfOk result (λ rated. (has : ℕ → Bool) → holds has rated.plan ≡ list_all has (range_with_len next.old count)) }
{
    let mut parts = Parts::new(alloc);
    for _ in 0..count {
        parts.put(word(counts, next))?;
    }
    Ok(parts.all())
}

/// The plan of so many keywords of which some have to be there.
pub(crate) fn some_words(
    alloc: Global,
    least: u32,
    count: usize,
    counts: &[u32],
    next: &mut usize,
) -> Result<Rated, NoMemory>
    requires { length counts.now ≤ 2 ^ 16 }
    ensures next { next.old + count ≤ length counts.now → OnOk result (next.new ≡ next.old + count) }
    ensures plan { next.old + count ≤ length counts.now → IfOk result (λ rated. rated.plan ≡ plans.Enough least (range_with_len next.old count)) }
{
    let mut words = Vec::new(alloc);
    let mut rows: u32 = 0;
    for _ in 0..count {
        let number = *next;
        words.push(number.min(LAST_NUMBER) as u16)?;
        rows = rows.saturating_add(rows_at(counts, number));
        *next = number.saturating_add(1);
    }
    Ok(Rated {
        plan: Plan::Enough {
            least,
            words: Items::from_vec(words),
        },
        rows,
    })
}

/// How many of n keywords `/0.d` wants at least: with fewer, `m * 10^places` is below `digits * n`.
pub(crate) fn least_share(digits: u32, places: u8, n: usize) -> u32
    ensures { (m : ℕ) → m < result → nat_le (digits * n) (m * (10 ^ places)) ≡ false }
{
    let mut least = u128::from(digits) * n as u128;
    for _ in 0..places {
        least = least.div_ceil(10);
    }
    if least < u128::from(u32::MAX) {
        least as u32
    } else {
        u32::MAX
    }
}

/// How many of n keywords `/k` wants.
pub(crate) fn least_count(k: u32, n: usize) -> u32
    ensures { result ≡ min k n }
{
    if (k as usize) < n { k } else { n as u32 }
}
