//! The boundaries of a field.
ghost use Rattle.std.specs.Prelude.{◌≡◌, ℕ, ◌+◌, ◌-◌, ◌*◌, ◌<◌, ◌≤◌, ◌^◌, List, length, MatchOption};
ghost use Rattle.doc_types.specs.declared.tokens.Gap.{Gap};
ghost use Rattle.item_lists.specs.steps.Places.{IsItemAt};
ghost use Rattle.bit_lists.specs.BitLists.{bits_of};
ghost use Rattle.chunk_damage.specs.RowMarks.{IsGapBehind};
ghost use Rattle.image_marks.specs.Markings.{gap_bits, is_misplaced as stands_wrong, noted, some_misplaced, with_bit};
ghost use Rattle.image_marks.specs.steps.MarkItems.{AreGapsAt, gap_bytes, gaps_bytes};

use image_cover::Cover;
use posting_reads::short_of;

/// The position of the boundary that is spelled at a place behind another one, and the place after it.
#[inline(always)]
fn gap_behind(bytes: &[u8], at: usize, before: u64) -> Option<(u64, usize)>
    requires { before < 2 ^ 63 }
    ensures { MatchOption result ((gap : ℕ × Gap) (rest : List ℕ) → IsItemAt gap_bytes IsGapBehind bytes.now at before gap rest → ⊥) (λ read. (gap : ℕ × Gap) × (rest : List ℕ) × IsItemAt gap_bytes IsGapBehind bytes.now at before gap rest × (gap.0 ≡ read.0) × (read.1 ≡ at + length (gap_bytes before gap)) × (read.0 < before + 2 ^ 31)) }
{
    match short_of(bytes, at) {
        Some((number, end)) => {
            if number < 2 {
                None
            } else {
                Some((before + u64::from(number / 2), end))
            }
        }
        None => None,
    }
}

/// Whether a boundary stands at an end of its field, beside the one before or beyond.
#[inline(always)]
fn is_misplaced(before: u64, last: u32, position: u64) -> bool
    requires { before < 2 ^ 63 }
    ensures { result ≡ stands_wrong before last position }
{
    position < before + 2 || u64::from(last) <= position
}

/// Notes the row of a boundary that is misplaced.
#[inline(always)]
fn note_gap(cover: &mut Cover, row: u32, before: u64, last: u32, position: u64)
    requires { before < 2 ^ 63 }
    ensures taken { bits_of cover.new.taken ≡ bits_of cover.old.taken }
    ensures least { cover.new.least ≡ noted (stands_wrong before last position) row cover.old.least }
{
    if is_misplaced(before, last, position) {
        cover.note(row);
    }
}

/// Takes the place of a boundary's position, if its field has it.
#[inline(always)]
fn take_gap(cover: &mut Cover, start: usize, last: u32, position: u64)
    requires places { start + last ≤ length (bits_of cover.old.taken) }
    requires small { start < 2 ^ 32 }
    requires some { 1 ≤ position }
    ensures taken { bits_of cover.new.taken ≡ with_bit start last (bits_of cover.old.taken) position }
    ensures least { cover.new.least ≡ cover.old.least }
{
    if position <= u64::from(last) {
        cover.taken.set(start + position as usize - 1);
    }
}

/// Reads so many boundaries of a field of a row; gives the place behind them.
pub(crate) fn read_gaps(
    bytes: &[u8],
    at: usize,
    count: u32,
    row: u32,
    start: usize,
    last: u32,
    cover: &mut Cover,
) -> Option<usize>
    requires places { start + last ≤ length (bits_of cover.old.taken) }
    requires small { start < 2 ^ 32 }
    ensures { MatchOption result ((gaps : List (ℕ × Gap)) (rest : List ℕ) → AreGapsAt bytes.now at count gaps rest → ⊥) (λ end. (gaps : List (ℕ × Gap)) × (rest : List ℕ) × AreGapsAt bytes.now at count gaps rest × (end ≡ at + length (gaps_bytes gaps)) × (bits_of cover.new.taken ≡ gap_bits start last (bits_of cover.old.taken) gaps) × (cover.new.least ≡ noted (some_misplaced 0 last gaps) row cover.old.least)) }
{
    let mut place = at;
    let mut position = 0;
    'gaps: for _ in 0..count {
        match gap_behind(bytes, place, position) {
            Some((next, end)) => {
                note_gap(cover, row, position, last, next);
                take_gap(cover, start, last, next);
                position = next;
                place = end;
            }
            None => return None,
        }
    }
    Some(place)
}
