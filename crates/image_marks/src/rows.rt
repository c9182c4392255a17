//! The marks of a row.
ghost use Rattle.std.specs.Prelude.{◌≡◌, ℕ, ◌+◌, ◌<◌, ◌≤◌, ◌^◌, ◌++◌, List, [], ◌∷◌, length, drop, MatchOption, IfOk, OnOk};
ghost use Rattle.doc_bytes.specs.Reading.{FieldSpan};
ghost use Rattle.bit_lists.specs.BitLists.{bits_of};
ghost use Rattle.chunk_damage.specs.RowMarks.{RowMarks, mark_bytes};
ghost use Rattle.image_marks.specs.Markings.{fields_least, row_bits, row_starts};
ghost use Rattle.image_marks.specs.steps.MarkItems.{AreRowMarksAt};
ghost use Rattle.image_marks.specs.steps.SpanItems.{AreCountedSpans, counted_spans};

use crate::fields::read_fields;
use crate::spans::read_spans;
use image_cover::Cover;
use srch_base::NoMemory;

/// Reads the spans of the last row, whose places begin here among the starts.
fn spans_behind(
    bytes: &[u8],
    at: usize,
    starts: &Vec<u32>,
    first: usize,
    cover: &Cover,
) -> Option<usize>
    requires first { first ≤ length starts.now.items }
    requires small { length (bits_of cover.now.taken) < 2 ^ 32 }
    ensures { MatchOption result ((spans : List FieldSpan) (rest : List ℕ) → AreCountedSpans (drop first starts.now.items) (bits_of cover.now.taken) bytes.now at spans rest → ⊥) (λ end. (spans : List FieldSpan) × (rest : List ℕ) × AreCountedSpans (drop first starts.now.items) (bits_of cover.now.taken) bytes.now at spans rest × (end ≡ at + length (counted_spans spans))) }
{
    let own = &starts.as_slice()[first..];
    read_spans(bytes, at, own, &cover.taken)
}

/// Appends a place that is taken.
fn grow_taken(cover: &mut Cover) -> Result<(), NoMemory>
    requires { length (bits_of cover.old.taken) < 2 ^ 59 }
    ensures { OnOk result ((bits_of cover.new.taken ≡ bits_of cover.old.taken ++ 1 ∷ []) × (cover.new.least ≡ cover.old.least)) }
{
    let at = cover.taken.len();
    cover.taken.grow(1)?;
    cover.taken.set(at);
    Ok(())
}

/// Begins the places of a row: those of its fields stand behind its own.
pub(crate) fn begin_row(
    starts: &mut Vec<u32>,
    cover: &mut Cover,
    first: u32,
) -> Result<(), NoMemory>
    requires { first ≡ length (bits_of cover.old.taken) }
    ensures { OnOk result ((starts.new.items ≡ starts.old.items ++ length (bits_of cover.old.taken) ∷ []) × (bits_of cover.new.taken ≡ bits_of cover.old.taken ++ 1 ∷ []) × (cover.new.least ≡ cover.old.least)) }
{
    starts.push(first)?;
    grow_taken(cover)?;
    Ok(())
}

/// Reads the marks of a row and appends its places; gives the place behind them.
pub(crate) fn read_row(
    bytes: &[u8],
    at: usize,
    fields: u16,
    row: u32,
    most: usize,
    starts: &mut Vec<u32>,
    cover: &mut Cover,
) -> Result<Option<usize>, NoMemory>
    requires most { most < 2 ^ 32 }
    requires few { fields ≤ 32 }
    ensures { IfOk result (λ found. MatchOption found ((m : RowMarks) (rest : List ℕ) → AreRowMarksAt bytes.now at fields m rest → ⊥) (λ end. (m : RowMarks) × (rest : List ℕ) × AreRowMarksAt bytes.now at fields m rest × (end ≡ at + length (mark_bytes m)) × (starts.new.items ≡ starts.old.items ++ row_starts (bits_of cover.old.taken) m.fields) × (bits_of cover.new.taken ≡ row_bits (bits_of cover.old.taken) m.fields) × (cover.new.least ≡ fields_least row cover.old.least m.fields))) }
{
    let own = cover.taken.len();
    let first = starts.len();
    if most <= own {
        return Err(NoMemory);
    }
    begin_row(starts, cover, own as u32)?;
    let place = match read_fields(bytes, at, fields, row, most, starts, cover)? {
        Some(end) => end,
        None => return Ok(None),
    };
    if most < cover.taken.len() {
        return Err(NoMemory);
    }
    let found = spans_behind(bytes, place, starts, first, cover);
    Ok(found)
}
