//! Flags joined with others, row by row, and how many are set.
ghost use Rattle.std.specs.Prelude.{◌≡◌, ◌+◌, ◌<◌, ◌≤◌, ◌==◌, ℕ, Bool, ◌&&◌, ◌||◌, not, if◌then◌else◌, AllPairs, IfOk, length, slice_index_or};
ghost use Rattle.std.specs.List.{count_by};
ghost use Rattle.row_flags.specs.steps.Flags.{is_dead};

use srch_base::NoMemory;
use std::alloc::Global;

/// So many flags.
pub(crate) fn new_flags(alloc: Global, count: usize) -> Result<Vec<bool>, NoMemory>
    ensures { IfOk result (λ flags. length flags.items ≡ count) }
{
    let mut flags = Vec::with_capacity(alloc, count)?;
    for _ in 0..count {
        flags.push(false)?;
    }
    Ok(flags)
}

/// Leaves those flags set whose other flag is so.
pub(crate) fn keep(flags: &mut [bool], others: &[bool], wanted: bool)
    requires { length others.now ≡ length flags.old }
    ensures long { length flags.new ≡ length flags.old }
    ensures each { (i : ℕ) (d : Bool) → i < length flags.old → slice_index_or flags.new i d ≡ (slice_index_or flags.old i d && (if wanted then slice_index_or others.now i d else not (slice_index_or others.now i d))) }
{
    for at in 0..flags.len() {
        flags[at] = flags[at] && others[at] == wanted;
    }
}

/// Sets those flags too whose other flag is set.
pub(crate) fn add(flags: &mut [bool], others: &[bool])
    requires { length others.now ≡ length flags.old }
    ensures long { length flags.new ≡ length flags.old }
    ensures each { (i : ℕ) (d : Bool) → i < length flags.old → slice_index_or flags.new i d ≡ (slice_index_or flags.old i d || slice_index_or others.now i d) }
{
    for at in 0..flags.len() {
        flags[at] = flags[at] || others[at];
    }
}

/// Takes the flags of dead rows away, from those of the rows from one on. Only the dead rows that lie there are gone over.
pub(crate) fn bury(dead: &[u32], from: u32, flags: &mut [bool])
    requires { AllPairs (λ row later. row < later) dead.now }
    ensures long { length flags.new ≡ length flags.old }
    ensures each { (i : ℕ) (d : Bool) → i < length flags.old → slice_index_or flags.new i d ≡ (slice_index_or flags.old i d && not (is_dead dead.now (from + i))) }
{
    let end = u64::from(from) + flags.len() as u64;
    for row in dead_before(dead_from(dead, from), end) {
        bury_one(*row, from, flags);
    }
}

/// The dead rows from one on, of those that ascend.
fn dead_from(dead: &[u32], from: u32) -> &[u32]
    requires { AllPairs (λ row later. row < later) dead.now }
    ensures ascend { AllPairs (λ row later. row < later) result.now }
    ensures same { (row : ℕ) → from ≤ row → is_dead result.now row ≡ is_dead dead.now row }
{
    let first = dead.partition_point(|row| *row < from);
    &dead[first..]
}

/// The dead rows before one, of those that ascend.
fn dead_before(dead: &[u32], end: u64) -> &[u32]
    requires { AllPairs (λ row later. row < later) dead.now }
    ensures { (row : ℕ) → row < end → is_dead result.now row ≡ is_dead dead.now row }
{
    let count = dead.partition_point(|row| u64::from(*row) < end);
    &dead[..count]
}

/// Takes the flag of one row away.
fn bury_one(row: u32, from: u32, flags: &mut [bool])
    ensures long { length flags.new ≡ length flags.old }
    ensures each { (i : ℕ) (d : Bool) → i < length flags.old → slice_index_or flags.new i d ≡ (slice_index_or flags.old i d && not (row == from + i)) }
{
    if row >= from {
        let at = (row - from) as usize;
        if at < flags.len() {
            flags[at] = false;
        }
    }
}

/// How many are set.
pub(crate) fn count_set(flags: &[bool]) -> usize
    ensures { result ≡ count_by (λ flag. flag) flags.now }
{
    flags.iter().filter(|flag| **flag).count()
}
