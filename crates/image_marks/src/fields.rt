//! The fields of a row.
ghost use Rattle.std.specs.Prelude.{◌≡◌, ℕ, ◌+◌, ◌<◌, ◌≤◌, ◌^◌, ◌++◌, ◌∷◌, [], List, length, replicate, MatchOption, IfOk, OnOk};
ghost use Rattle.doc_types.specs.declared.tokens.Gap.{Gap};
ghost use Rattle.item_lists.specs.steps.Places.{IsItemAt};
ghost use Rattle.bit_lists.specs.BitLists.{bits_of};
ghost use Rattle.chunk_damage.specs.RowMarks.{FieldMarks};
ghost use Rattle.image_marks.specs.Markings.{field_bits, fields_bits, fields_least, fields_starts, noted, some_misplaced};
ghost use Rattle.image_marks.specs.steps.MarkItems.{AreFieldsAt, IsField, field_bytes, fields_bytes};

use crate::gaps::read_gaps;
use doc_types::MAX_POSITION;
use image_cover::Cover;
use posting_reads::short_of;
use srch_base::NoMemory;

/// Appends so many places.
fn grow(cover: &mut Cover, more: u32) -> Result<(), NoMemory>
    requires { length (bits_of cover.old.taken) < 2 ^ 59 }
    ensures { OnOk result ((bits_of cover.new.taken ≡ bits_of cover.old.taken ++ replicate more 0) × (cover.new.least ≡ cover.old.least)) }
{
    cover.taken.grow(more)?;
    Ok(())
}

/// Reads a field of a row and appends its places; gives the place behind it.
fn read_field(
    bytes: &[u8],
    at: usize,
    row: u32,
    most: usize,
    starts: &mut Vec<u32>,
    cover: &mut Cover,
) -> Result<Option<usize>, NoMemory>
    requires most { most < 2 ^ 32 }
    ensures { IfOk result (λ found. MatchOption found ((m : FieldMarks) (rest : List ℕ) → IsItemAt field_bytes IsField bytes.now at tt m rest → ⊥) (λ end. (m : FieldMarks) × (rest : List ℕ) × IsItemAt field_bytes IsField bytes.now at tt m rest × (end ≡ at + length (field_bytes tt m)) × (starts.new.items ≡ starts.old.items ++ length (bits_of cover.old.taken) ∷ []) × (bits_of cover.new.taken ≡ field_bits (bits_of cover.old.taken) m) × (cover.new.least ≡ noted (some_misplaced 0 m.last m.gaps) row cover.old.least))) }
{
    let (last, counted) = match short_of(bytes, at) {
        Some(read) => read,
        None => return Ok(None),
    };
    if last > MAX_POSITION {
        return Ok(None);
    }
    let (count, first) = match short_of(bytes, counted) {
        Some(read) => read,
        None => return Ok(None),
    };
    let start = cover.taken.len();
    if most < start || most - start < last as usize {
        return Err(NoMemory);
    }
    starts.push(start as u32)?;
    grow(cover, last)?;
    let found = read_gaps(bytes, first, count, row, start, last, cover);
    Ok(found)
}

/// Reads so many fields of a row and appends their places; gives the place behind them.
pub(crate) fn read_fields(
    bytes: &[u8],
    at: usize,
    count: u16,
    row: u32,
    most: usize,
    starts: &mut Vec<u32>,
    cover: &mut Cover,
) -> Result<Option<usize>, NoMemory>
    requires most { most < 2 ^ 32 }
    ensures { IfOk result (λ found. MatchOption found ((ms : List FieldMarks) (rest : List ℕ) → AreFieldsAt bytes.now at count ms rest → ⊥) (λ end. (ms : List FieldMarks) × (rest : List ℕ) × AreFieldsAt bytes.now at count ms rest × (end ≡ at + length (fields_bytes ms)) × (starts.new.items ≡ starts.old.items ++ fields_starts (bits_of cover.old.taken) ms) × (bits_of cover.new.taken ≡ fields_bits (bits_of cover.old.taken) ms) × (cover.new.least ≡ fields_least row cover.old.least ms))) }
{
    let mut place = at;
    'fields: for _ in 0..count {
        match read_field(bytes, place, row, most, starts, cover)? {
            Some(end) => place = end,
            None => return Ok(None),
        }
    }
    Ok(Some(place))
}
