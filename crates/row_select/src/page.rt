//! The page of the rows in order (the manual of Sphinx, "SELECT syntax": LIMIT and the option `max_matches`).
ghost use Rattle.std.specs.Prelude.{◌≡◌, IfOk};
ghost use Rattle.row_select.specs.Pages.{IsTop, page_end};
ghost use Rattle.row_select.specs.steps.Selecting.{AreFirst};

use crate::order::Order;
use crate::row::Row;
use srch_base::NoMemory;
use std::alloc::Global;
use std::mem;

/// Which of the rows in order are shown.
#[derive(Clone, Copy)]
pub struct Page {
    /// How many rows are passed over.
    pub offset: u32,
    /// The most rows that are shown.
    pub count: u32,
    /// How many rows there are for the page; those after them are as if they weren't found.
    pub max_matches: u32,
}

impl Page {
    /// How many rows, from the first on, are enough to tell the page.
    pub(crate) fn end(&self) -> usize
        ensures { result ≡ page_end self.now }
    {
        (self.max_matches as usize).min(self.offset as usize + self.count as usize)
    }
}

/// The page of the found rows, in order. It takes memory for the rows that it shows alone, and sorts no row that comes after them.
pub fn top(mut rows: Vec<Row>, order: &Order, page: &Page) -> Result<Vec<Row>, NoMemory>
    ensures { IfOk result (λ shown. IsTop rows.items order.now page.now shown.items) }
{
    let alloc = *rows.allocator();
    let first = first_in_order(&mut rows, order, page.end());
    let passed = (page.offset as usize).min(first.len());
    take_rows(alloc, &mut first[passed..])
}

/// The first rows by the order: so many, or all where there are fewer.
fn first_in_order<'a>(rows: &'a mut [Row], order: &Order, count: usize) -> &'a mut [Row]
    ensures { AreFirst order.now rows.old count result.now }
{
    if count < rows.len() {
        let (first, _, _) = rows.select_nth_unstable_by(
            count,
            |row, other| order.compare(row, other),
        );
        first.sort_unstable_by(|row, other| order.compare(row, other));
        first
    } else {
        rows.sort_unstable_by(|row, other| order.compare(row, other));
        rows
    }
}

/// Moves the rows into a list of their own, and leaves empty ones in their places.
fn take_rows(alloc: Global, rows: &mut [Row]) -> Result<Vec<Row>, NoMemory>
    ensures { IfOk result (λ taken. taken.items ≡ rows.old) }
{
    let mut taken = Vec::with_capacity(alloc, rows.len())?;
    for row in rows.iter_mut() {
        taken.push(mem::replace(row, Row::empty(alloc)))?;
    }
    Ok(taken)
}
