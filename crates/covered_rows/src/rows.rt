//! The first row that isn't covered: it is the first that was noted, or has a place that nothing took.
ghost use Rattle.std.specs.Prelude.{◌≡◌, ◌+◌, ◌*◌, ◌<◌, ◌≤◌, List, length, slice_index, MatchOption};
ghost use Rattle.std.specs.List.{AllByRecursion};
ghost use Rattle.chunk_damage.specs.Cover.{AllCovered, IsUncovered};
ghost use Rattle.chunk_damage.specs.RowMarks.{RowMarks};
ghost use Rattle.chunk_damage.specs.WordLists.{AreEntries, Entry};
ghost use Rattle.bit_lists.specs.BitLists.{bits_of};
ghost use Rattle.image_cover.specs.Covers.{seen};
ghost use Rattle.image_cover.specs.Layouts.{AreLaid};
ghost use Rattle.image_cover.specs.Lists.{places_of_lists};
ghost use Rattle.image_cover.specs.Places.{Seen, take_all};
ghost use Rattle.covered_rows.specs.Marked.{AllShort, AreMarked, ArePassed, IsStopped};

use image_cover::Cover;

/// The first row that isn't covered, once all hits have taken their places.
pub fn uncovered_row(starts: &[u32], width: usize, rows: u32, cover: &Cover) -> Option<u32>
    requires laid { AreLaid starts.now width rows (length (bits_of cover.now.taken)) }
    requires from { slice_index starts.now 0 ≡ 0 }
    ensures taken { MatchOption result (ArePassed starts.now width (seen cover.now) rows) (λ row. IsStopped starts.now width (seen cover.now) rows row) }
    ensures cover { (s : Seen) (marks : List RowMarks) (lists : List (List Entry)) → AreMarked starts.now width s marks → length marks ≡ rows → AllShort marks → AllByRecursion (AreEntries rows 0) lists → width ≤ 33 → seen cover.now ≡ take_all s (places_of_lists starts.now width lists) → MatchOption result (AllCovered lists 0 marks) (λ row. IsUncovered lists marks row) }
{
    stopped_row(starts, width, rows, cover)
}

/// The first row that was noted, or has a place that isn't taken.
fn stopped_row(starts: &[u32], width: usize, rows: u32, cover: &Cover) -> Option<u32>
    requires laid { AreLaid starts.now width rows (length (bits_of cover.now.taken)) }
    requires from { slice_index starts.now 0 ≡ 0 }
    ensures { MatchOption result (ArePassed starts.now width (seen cover.now) rows) (λ row. IsStopped starts.now width (seen cover.now) rows row) }
{
    let clear = cover.taken.first_clear();
    let mut next = 0;
    'rows: for row in 0..rows {
        next += width;
        if row == cover.least {
            return Some(row);
        }
        if clear < starts[next] as usize {
            return Some(row);
        }
    }
    None
}
