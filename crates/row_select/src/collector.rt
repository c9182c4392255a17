//! The rows that a page may need, kept while the rows are found one after the other.
ghost use Rattle.std.specs.Prelude.{◌≡◌, ◌≤◌, ◌<◌, ◌*◌, ℕ, All, [], ◌∷◌, ◌++◌, List, true, false, length, IfOk, OnOk, OnErr};
ghost use Rattle.row_select.specs.Collecting.{AreEnough, Keeps, count_not_after};
ghost use Rattle.row_select.specs.Pages.{IsTop, page_end};
ghost use Rattle.row_select.specs.Sinks.{NeedsNoLighter, NeedsNoneBeyond};
ghost use Rattle.row_select.specs.declared.row.Row.{Row};
ghost use Rattle.row_select.specs.steps.Collecting.{IsBordered};
ghost use Rattle.row_select.specs.steps.Selecting.{AreFirst};

use crate::found::FoundRow;
use crate::order::Order;
use crate::page::{Page, top};
use crate::row::Row;
use srch_base::{Items, NoMemory};
use std::alloc::Global;
use std::marker::Model;

/// The rows that a page may need, of those that were offered so far.
///
/// It keeps copies of at most twice as many rows as there are up to the page's end. Whenever there are so many, those that come
/// first are put in order and the others let go of; from then on a row that comes after all of these costs one comparison, and
/// isn't copied.
#[derive(Drop)]
pub struct Collector<'a> {
    order: &'a Order,
    page: Page,
    rows: Vec<Row>,
    /// Whether the order brings lighter rows forward.
    lighter_first: bool,
    /// Whether neither a lighter row nor one of a greater id comes earlier by any key of the order.
    falling: bool,
}

impl<'a> Model for Collector<'a> {
    ghost use Rattle.std.specs.Prelude.{◌≡◌, ◌≤◌, ◌*◌, length};
    ghost use Rattle.row_select.specs.Collecting.{Collection};
    ghost use Rattle.row_select.specs.Pages.{page_end};
    ghost use Rattle.row_select.specs.steps.Collecting.{IsBordered, all_fall_behind, brings_lighter};

    ghost Value = { Collection };

    ghost view = { λ a. record { order = a.order.now; page = a.page; kept = a.rows.items } };

    ghost invariant = { λ a. IsBordered a.order.now (page_end a.page) a.rows.items × (length a.rows.items ≤ 2 * page_end a.page) × (a.lighter_first ≡ brings_lighter a.order.now.keys) × (a.falling ≡ all_fall_behind a.order.now.keys) };
}

impl<'a> Collector<'a> {
    /// Nothing was offered yet.
    pub fn new(alloc: Global, order: &'a Order, page: Page) -> Collector<'a>
        ensures order { result.order ≡ order.now }
        ensures page { result.page ≡ page }
        ensures nothing { Keeps [] result }
    {
        Collector {
            order,
            page,
            rows: Vec::new(alloc),
            lighter_first: order.brings_lighter(),
            falling: order.falls_behind(),
        }
    }

    /// Offers a row; a copy is kept where the page may need it. After an error nothing was offered.
    pub fn offer<R: FoundRow>(&mut self, row: &R) -> Result<(), NoMemory>
        ensures order { self.new.order ≡ self.old.order }
        ensures page { self.new.page ≡ self.old.page }
        ensures keeps { (offered : List Row) → Keeps offered self.old → OnOk result (Keeps (offered ++ R.as_row row.now ∷ []) self.new) }
        ensures unchanged { OnErr result (self.new ≡ self.old) }
        // It never keeps more than twice the rows that it may need.
        ensures few { length self.new.kept ≤ 2 * page_end self.new.page }
    {
        let end = self.page.end();
        add_row(&mut self.rows, self.order, end, row)
    }

    /// Whether the page may need a row that has the id and the values of this one and weighs no more. Where it says no, it doesn't
    /// need any such row, and what they weigh doesn't matter. It costs one comparison, and none until the page is full.
    pub fn heeds<R: FoundRow>(&self, row: &R) -> bool
        ensures { result ≡ false → NeedsNoLighter self.now (R.as_row row.now) }
    {
        let end = self.page.end();
        end > 0 && (self.lighter_first || !is_behind(&self.rows, self.order, end, row))
    }

    /// Whether the page needs no row that weighs no more than this and has an id from this one on. It costs one comparison, and none
    /// where the order has another key than the weight, descending, and the id, ascending.
    pub fn needs_none_beyond(&self, most: u64, from: u64) -> bool
        ensures { result ≡ true → NeedsNoneBeyond most from self.now }
    {
        if !self.falling {
            return false;
        }
        let foremost = Row {
            id: from,
            weight: most,
            values: Items::new(Vec::new(*self.rows.allocator())),
        };
        is_behind(&self.rows, self.order, self.page.end(), &foremost)
    }

    /// The page of all rows that were offered.
    pub fn finish(self) -> Result<Vec<Row>, NoMemory>
        ensures { (offered : List Row) → Keeps offered self.entry → IfOk result (λ shown. IsTop offered self.entry.order self.entry.page shown.items) }
    {
        let Collector {
            order,
            page,
            rows,
            ..
        } = self;
        top(rows, order, &page)
    }
}

/// Adds a copy of a row where it may be among the first `end`, and drops what no longer is once there are twice as many.
fn add_row<R: FoundRow>(
    rows: &mut Vec<Row>,
    order: &Order,
    end: usize,
    row: &R,
) -> Result<(), NoMemory>
    requires bordered { IsBordered order.now end rows.old.items }
    requires few { length rows.old.items ≤ 2 * end }
    ensures bordered { IsBordered order.now end rows.new.items }
    ensures keeps { (offered : List Row) → AreEnough order.now end offered rows.old.items → OnOk result (AreEnough order.now end (offered ++ R.as_row row.now ∷ []) rows.new.items) }
    ensures unchanged { OnErr result (rows.new.items ≡ rows.old.items) }
    ensures few { length rows.new.items ≤ 2 * end }
{
    if is_behind(rows, order, end, row) {
        return Ok(());
    }
    rows.push(row.copy()?)?;
    if rows.len() == end || rows.len() / 2 == end {
        keep_first(rows, order, end);
    }
    Ok(())
}

/// Whether a row is known to stand behind `end` others.
fn is_behind<R: FoundRow>(rows: &[Row], order: &Order, end: usize, row: &R) -> bool
    requires bordered { IsBordered order.now end rows.now }
    ensures behind { result ≡ true → end ≤ count_not_after order.now (R.as_row row.now) rows.now }
    ensures open { result ≡ false → 0 < end }
{
    if end == 0 {
        return true;
    }
    match rows.get(end - 1) {
        Some(border) => order.compare(border, row).is_le(),
        None => false,
    }
}

/// Keeps so many of the rows, those that come first, and puts them in order.
fn keep_first(rows: &mut Vec<Row>, order: &Order, count: usize)
    ensures { AreFirst order.now rows.old.items count rows.new.items }
{
    rows.sort_unstable_by(|row, other| order.compare(row, other));
    rows.truncate(count);
}
