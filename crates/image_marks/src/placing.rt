//! Rows with their places: those of positions are laid out while there aren't too many.
//!
//! Marks may claim far more positions than an image has bytes, and such an image is damaged: no hit owns them. To find out in which
//! row, it does to lay out the places of the rows in front. Of a row behind these the marks are looked at all the same, by places
//! that are its own and are let go with it.
ghost use Rattle.std.specs.Prelude.{◌≡◌, ℕ, ◌+◌, ◌<◌, ◌≤◌, ◌^◌, ◌++◌, ◌∷◌, [], List, length, replicate, MatchOption, IfOk, OnOk};
ghost use Rattle.bit_lists.specs.BitLists.{bits_of};
ghost use Rattle.chunk_damage.specs.RowMarks.{RowMarks, empty_field, mark_bytes};
ghost use Rattle.image_marks.specs.Markings.{fields_least, laid_row, row_bits, row_starts};
ghost use Rattle.image_marks.specs.steps.MarkItems.{AreRowMarksAt};

use crate::rows::{begin_row, read_row};
use bit_lists::BitList;
use doc_types::NO_ROW;
use image_cover::Cover;
use srch_base::NoMemory;
use std::alloc::Global;

/// No row has so many places: its own, and 65,535 for each of 32 fields.
const ROW: usize = 0x20_0000;

/// Reads the marks of a row by places that nobody keeps; gives the place behind them.
fn read_apart(
    alloc: Global,
    bytes: &[u8],
    at: usize,
    fields: u16,
) -> Result<Option<usize>, NoMemory>
    requires few { fields ≤ 32 }
    ensures { IfOk result (λ found. MatchOption found ((m : RowMarks) (rest : List ℕ) → AreRowMarksAt bytes.now at fields m rest → ⊥) (λ end. (m : RowMarks) × (rest : List ℕ) × AreRowMarksAt bytes.now at fields m rest × (end ≡ at + length (mark_bytes m)))) }
{
    let mut starts = Vec::new(alloc);
    let mut cover = Cover {
        taken: BitList::new(alloc),
        least: NO_ROW,
    };
    read_row(bytes, at, fields, 0, ROW, &mut starts, &mut cover)
}

/// Appends the same start so many times.
fn push_all(starts: &mut Vec<u32>, count: u16, start: u32) -> Result<(), NoMemory>
    ensures { OnOk result (starts.new.items ≡ starts.old.items ++ replicate count start) }
{
    'fields: for _ in 0..count {
        starts.push(start)?;
    }
    Ok(())
}

/// Appends the places of a row of so many fields that have no words: its own alone.
fn lay_empty(fields: u16, starts: &mut Vec<u32>, cover: &mut Cover) -> Result<(), NoMemory>
    ensures { OnOk result ((starts.new.items ≡ starts.old.items ++ row_starts (bits_of cover.old.taken) (replicate fields empty_field)) × (bits_of cover.new.taken ≡ row_bits (bits_of cover.old.taken) (replicate fields empty_field)) × (cover.new.least ≡ cover.old.least)) }
{
    let own = cover.taken.len();
    if own >= u32::MAX as usize {
        return Err(NoMemory);
    }
    begin_row(starts, cover, own as u32)?;
    push_all(starts, fields, own as u32 + 1)?;
    Ok(())
}

/// Reads the marks of a row and appends its places, only its own where there are more than enough already; gives the place behind the
/// marks.
pub(crate) fn lay_row(
    alloc: Global,
    bytes: &[u8],
    at: usize,
    fields: u16,
    row: u32,
    enough: usize,
    starts: &mut Vec<u32>,
    cover: &mut Cover,
) -> Result<Option<usize>, NoMemory>
    requires enough { enough < 2 ^ 31 }
    requires few { fields ≤ 32 }
    ensures { IfOk result (λ found. MatchOption found ((m : RowMarks) (rest : List ℕ) → AreRowMarksAt bytes.now at fields m rest → ⊥) (λ end. (m : RowMarks) × (rest : List ℕ) × AreRowMarksAt bytes.now at fields m rest × (end ≡ at + length (mark_bytes m)) × (starts.new.items ≡ starts.old.items ++ row_starts (bits_of cover.old.taken) (laid_row enough (bits_of cover.old.taken) m).fields) × (bits_of cover.new.taken ≡ row_bits (bits_of cover.old.taken) (laid_row enough (bits_of cover.old.taken) m).fields) × (cover.new.least ≡ fields_least row cover.old.least (laid_row enough (bits_of cover.old.taken) m).fields))) }
{
    if cover.taken.len() <= enough {
        return read_row(bytes, at, fields, row, enough + ROW, starts, cover);
    }
    match read_apart(alloc, bytes, at, fields)? {
        Some(end) => {
            lay_empty(fields, starts, cover)?;
            Ok(Some(end))
        }
        None => Ok(None),
    }
}
