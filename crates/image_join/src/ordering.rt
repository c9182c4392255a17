//! The rows that live, in the order of their ids, and the new number of each.
ghost use Rattle.std.specs.Prelude.{◌≡◌, ◌<◌, ◌==◌, ◌++◌, [], ◌∷◌, if◌then◌else◌, All, length, map, set, slice_index, IfOk, OnOk};
ghost use Rattle.std.specs.List.{list_any};
ghost use Rattle.std.specs.List.Sorted.{IsNonDecreasingBy, IsPermutation};
ghost use Rattle.doc_types.specs.declared.cursor.TheConstants.{NO_ROW};
ghost use Rattle.image_join.specs.steps.Numbering.{AreNumbered, IsThere, all_living_in, living_in, place_in, row_in};
ghost use Rattle.image_join.specs.steps.Parts.{AreLaid, all_rows, row_at};

use crate::copying::CopyBytes;
use crate::parts::Part;
use doc_types::NO_ROW;
use image_write::count_in;
use layer_commit::is_dead;
use srch_base::NoMemory;
use std::alloc::Global;

/// A row that lives: its id, its part, and its number there.
#[derive(Clone, Copy)]
pub(crate) struct Living {
    pub(crate) id: u64,
    pub(crate) part: u32,
    pub(crate) row: u32,
}

/// The rows of the parts that live, by ascending id.
pub(crate) fn order_of<C: CopyBytes>(
    alloc: Global,
    parts: &[Part<C>],
) -> Result<Vec<Living>, NoMemory>
    ensures moved { IfOk result (λ order. IsPermutation (all_living_in parts.now) order.items) }
    ensures ascend { IfOk result (λ order. IsNonDecreasingBy (λ living. living.id) order.items) }
{
    let mut order = list_all(alloc, parts)?;
    order.sort_unstable_by_key(|living| living.id);
    Ok(order)
}

/// The rows of the parts that live, part by part.
fn list_all<C: CopyBytes>(alloc: Global, parts: &[Part<C>]) -> Result<Vec<Living>, NoMemory>
    ensures { IfOk result (λ order. order.items ≡ all_living_in parts.now) }
{
    let mut order = Vec::with_capacity(alloc, row_count(parts))?;
    for (number, part) in parts.iter().enumerate() {
        let number = count_in(number)?;
        list_living(part, number, &mut order)?;
    }
    Ok(order)
}

/// How many rows the parts have, those that are dead too.
fn row_count<C: CopyBytes>(parts: &[Part<C>]) -> usize {
    let mut count: usize = 0;
    for part in parts {
        count = count.saturating_add(part.rows() as usize);
    }
    count
}

/// Appends the rows of a part that live.
fn list_living<C: CopyBytes>(
    part: &Part<C>,
    number: u32,
    order: &mut Vec<Living>,
) -> Result<(), NoMemory>
    ensures { OnOk result (order.new.items ≡ order.old.items ++ living_in number part.now) }
{
    let count = part.rows();
    for row in 0..count {
        push_living(part, number, row, order)?;
    }
    Ok(())
}

/// Appends a row, unless it is dead.
fn push_living<C: CopyBytes>(
    part: &Part<C>,
    number: u32,
    row: u32,
    order: &mut Vec<Living>,
) -> Result<(), NoMemory>
    requires { row < length part.now.rows }
    ensures { OnOk result (order.new.items ≡ order.old.items ++ (if list_any (λ d. d == row) part.now.dead then [] else record { id = (row_at part.now row).doc.id; part = number; row = row } ∷ [])) }
{
    if is_dead(part.dead.as_slice(), row) {
        return Ok(());
    }
    let id = part.id(row);
    order.push(Living {
        id,
        part: number,
        row,
    })?;
    Ok(())
}

/// The new number of each row of the parts, `NO_ROW` where it is dead.
pub(crate) fn numbers_of<C: CopyBytes>(
    alloc: Global,
    parts: &[Part<C>],
    count: u32,
    order: &[Living],
) -> Result<Vec<u32>, NoMemory>
    requires laid { AreLaid 0 parts.now }
    requires count { count ≡ length (all_rows parts.now) }
    requires there { All (IsThere parts.now) order.now }
    ensures { IfOk result (λ numbers. AreNumbered parts.now numbers.items (map (row_in parts.now) order.now)) }
{
    count_in(order.len())?;
    let mut numbers = vec![in alloc; NO_ROW; count as usize]?;
    for (number, living) in order.iter().enumerate() {
        let place = place_of(parts, living);
        set_number(&mut numbers, place, number as u32)?;
    }
    Ok(numbers)
}

/// Gives the row at a place its number, where it has none yet.
fn set_number(numbers: &mut [u32], place: usize, number: u32) -> Result<(), NoMemory>
    requires { place < length numbers.old }
    ensures was { OnOk result (slice_index numbers.old place ≡ NO_ROW) }
    ensures is { OnOk result (numbers.new ≡ set numbers.old place number) }
{
    if numbers[place] != NO_ROW {
        return Err(NoMemory);
    }
    numbers[place] = number;
    Ok(())
}

/// Where a row stands among the rows of all parts.
fn place_of<C: CopyBytes>(parts: &[Part<C>], living: &Living) -> usize
    requires { IsThere parts.now living.now }
    ensures { result ≡ place_in parts.now living.now }
{
    let part = &parts[living.part as usize];
    part.first as usize + living.row as usize
}
