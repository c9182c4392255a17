//! Where found rows go, one after the other: a page, groups, a facet, a count, or several of these at once.
use crate::collector::Collector;
use crate::found::FoundRow;
use srch_base::NoMemory;

/// What takes the rows that a search finds, one after the other.
pub trait Sink {
    ghost use Rattle.std.specs.Prelude.{◌≡◌, ℕ, All, true, false, List, [], ◌∷◌, ◌++◌, OnOk, length};
    ghost use Rattle.row_select.specs.Sinks.{IsBeyond, IsLighter};
    ghost use Rattle.row_select.specs.declared.row.Row.{Row};

    // These rows were offered to the sink since it was as the first one, and it is now as the last one.
    ghost Took: { Self → List Row → Self → Type 0 };

    // It doesn't matter to the sink what a row weighs exactly, as long as it is no more than this one does.
    ghost Passes: { Self → Row → Type 0 };

    // Of rows that weigh no more than this and have ids from this one on it matters to the sink only how many they are.
    ghost Counts: { Self → ℕ → ℕ → Type 0 };

    /// Offers a row. After an error the sink is of no use.
    fn offer<R: FoundRow>(&mut self, row: &R) -> Result<(), NoMemory>
        ensures { (first : Self) (rows : List Row) → Took first rows self.old → OnOk result (Took first (rows ++ R.as_row row.now ∷ []) self.new) };

    /// Whether it may matter what a row weighs exactly that has the id and the values of this one and weighs no more. A sink that
    /// always says yes is right too: that costs time alone.
    fn heeds<R: FoundRow>(&self, row: &R) -> bool
        ensures { result ≡ false → Passes self.now (R.as_row row.now) };

    /// Offers a row that has the id and the values of this one and weighs no more, where it doesn't matter how much. After an error
    /// the sink is of no use.
    fn pass<R: FoundRow>(&mut self, row: &R) -> Result<(), NoMemory>
        requires { Passes self.old (R.as_row row.now) }
        ensures { (first : Self) (rows : List Row) (its : Row) → IsLighter its (R.as_row row.now) → Took first rows self.old → OnOk result (Took first (rows ++ its ∷ []) self.new) };

    /// Whether it matters only how many they are of rows that weigh no more than this and have ids from this one on. A sink that
    /// always says no is right too: that costs time alone.
    fn only_counts(&self, most: u64, from: u64) -> bool
        ensures { result ≡ true → Counts self.now most from };

    /// Offers so many rows, where it matters only how many they are. After an error the sink is of no use.
    fn count(&mut self, rows: u32) -> Result<(), NoMemory>
        ensures { (most from : ℕ) (first : Self) (before its : List Row) → Counts self.old most from → All (IsBeyond most from) its → length its ≡ rows → Took first before self.old → OnOk result (Took first (before ++ its) self.new) };

    // Nothing was offered to it yet.
    ghost nothing: { (first : Self) → Took first [] first };
}

impl Sink for Collector<'_> {
    ghost use Rattle.std.specs.Prelude.{refl};
    ghost use Rattle.row_select.specs.Sinks.{Collects, NeedsNoLighter, NeedsNoneBeyond};

    ghost Took = { Collects };

    ghost Passes = { NeedsNoLighter };

    ghost Counts = { λ collection most from. NeedsNoneBeyond most from collection };

    ghost nothing = { λ first. record { order = refl; page = refl; keeps = λ so. so } };

    fn offer<R: FoundRow>(&mut self, row: &R) -> Result<(), NoMemory> {
        Collector::offer(self, row)
    }

    #[inline]
    fn heeds<R: FoundRow>(&self, row: &R) -> bool {
        Collector::heeds(self, row)
    }

    fn pass<R: FoundRow>(&mut self, _row: &R) -> Result<(), NoMemory> {
        Ok(())
    }

    #[inline]
    fn only_counts(&self, most: u64, from: u64) -> bool {
        self.needs_none_beyond(most, from)
    }

    fn count(&mut self, _rows: u32) -> Result<(), NoMemory> {
        Ok(())
    }
}

/// How many rows were found.
#[derive(Clone, Copy)]
pub struct RowCount {
    pub rows: u64,
}

impl Sink for RowCount {
    ghost use Rattle.std.specs.Prelude.{◌≡◌, ⊤, ◌+◌, length};
    ghost use Rattle.std.proofs.Common.{rules};

    ghost Took = { λ first rows last. last.rows ≡ first.rows + length rows };

    ghost Passes = { λ count row. ⊤ };

    ghost Counts = { λ count most from. ⊤ };

    ghost nothing = { λ first. Prim.search rules };

    fn offer<R: FoundRow>(&mut self, row: &R) -> Result<(), NoMemory> {
        self.rows = self.rows.checked_add(1).ok_or(NoMemory)?;
        Ok(())
    }

    #[inline]
    fn heeds<R: FoundRow>(&self, _row: &R) -> bool {
        false
    }

    fn pass<R: FoundRow>(&mut self, row: &R) -> Result<(), NoMemory> {
        self.offer(row)
    }

    #[inline]
    fn only_counts(&self, _most: u64, _from: u64) -> bool {
        true
    }

    fn count(&mut self, rows: u32) -> Result<(), NoMemory> {
        self.rows = self.rows.checked_add(u64::from(rows)).ok_or(NoMemory)?;
        Ok(())
    }
}

/// Two sinks at once: each row is offered to both.
#[derive(Drop)]
pub struct Both<A, B> {
    pub first: A,
    pub second: B,
}

impl<A: Sink, B: Sink> Sink for Both<A, B> {
    ghost Took = { λ first rows last. A.Took first.first rows last.first × B.Took first.second rows last.second };

    ghost Passes = { λ both row. A.Passes both.first row × B.Passes both.second row };

    ghost Counts = { λ both most from. A.Counts both.first most from × B.Counts both.second most from };

    ghost nothing = { λ first. (A.nothing first.first, B.nothing first.second) };

    fn offer<R: FoundRow>(&mut self, row: &R) -> Result<(), NoMemory> {
        self.first.offer(row)?;
        self.second.offer(row)
    }

    #[inline]
    fn heeds<R: FoundRow>(&self, row: &R) -> bool {
        self.first.heeds(row) || self.second.heeds(row)
    }

    fn pass<R: FoundRow>(&mut self, row: &R) -> Result<(), NoMemory> {
        self.first.pass(row)?;
        self.second.pass(row)
    }

    #[inline]
    fn only_counts(&self, most: u64, from: u64) -> bool {
        self.first.only_counts(most, from) && self.second.only_counts(most, from)
    }

    fn count(&mut self, rows: u32) -> Result<(), NoMemory> {
        self.first.count(rows)?;
        self.second.count(rows)
    }
}
