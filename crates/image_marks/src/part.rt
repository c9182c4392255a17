//! The marks of all rows.
ghost use Rattle.std.specs.Prelude.{◌≡◌, ℕ, ◌+◌, ◌*◌, ◌<◌, ◌≤◌, ◌^◌, ◌++◌, List, [], length, MatchOption, IfOk};
ghost use Rattle.bit_lists.specs.BitLists.{bits_of};
ghost use Rattle.doc_types.specs.Schemas.{IsSchema};
ghost use Rattle.chunk_damage.specs.Header.{row_at, row_size as size_of_row};
ghost use Rattle.chunk_damage.specs.RowMarks.{RowMarks, told_place};
ghost use Rattle.image_marks.specs.Markings.{laid_rows, rows_bits, rows_least, rows_starts};
ghost use Rattle.image_marks.specs.Parts.{AreBadMarksIn, AreMarksIn};
ghost use Rattle.image_marks.specs.steps.MarkItems.{rows_begun};

use crate::placing::lay_row;
use doc_types::Schema;
use image_cover::Cover;
use srch_base::NoMemory;
use std::alloc::Global;

/// Where a row says that its marks begin: its last four bytes.
fn told_of(image: &[u8], schema: &Schema, size: usize, row: u32) -> u32
    requires size { size ≡ size_of_row schema.now }
    requires long { row_at schema.now (row + 1) ≤ length image.now }
    ensures { result ≡ told_place schema.now image.now row }
{
    let at = 28 + row as usize * size + size;
    let field = &image[at..at + 4];
    u32::from_le_bytes([field[0], field[1], field[2], field[3]])
}

/// Reads the marks of so many rows and appends their places; gives the place of the first that are wrong.
fn read_rows(
    alloc: Global,
    image: &[u8],
    part: &[u8],
    schema: &Schema,
    rows: u32,
    enough: usize,
    starts: &mut Vec<u32>,
    cover: &mut Cover,
) -> Result<Option<usize>, NoMemory>
    requires schema { IsSchema schema.now }
    requires enough { enough < 2 ^ 31 }
    requires long { row_at schema.now rows ≤ length image.now }
    requires none { rows ≡ 0 → length part.now ≡ 0 }
    ensures { IfOk result (λ found. MatchOption found ((marks : List RowMarks) × AreMarksIn schema.now image.now part.now rows marks × (starts.new.items ≡ starts.old.items ++ rows_begun (bits_of cover.old.taken) (laid_rows enough (bits_of cover.old.taken) marks)) × (bits_of cover.new.taken ≡ rows_bits (bits_of cover.old.taken) (laid_rows enough (bits_of cover.old.taken) marks)) × (cover.new.least ≡ rows_least 0 cover.old.least (laid_rows enough (bits_of cover.old.taken) marks))) (λ place. AreBadMarksIn schema.now image.now part.now rows place)) }
{
    let size = 20 + 8 * schema.attrs.len();
    let fields = schema.fields.len() as u16;
    let mut at = 0;
    let mut last = 0;
    'rows: for row in 0..rows {
        let told = told_of(image, schema, size, row);
        if told as usize != at {
            return Ok(Some(at));
        }
        match lay_row(alloc, part, at, fields, row, enough, starts, cover)? {
            Some(end) => {
                last = at;
                at = end;
            }
            None => return Ok(Some(at)),
        }
    }
    if at != part.len() {
        return Ok(Some(last));
    }
    Ok(None)
}

/// Reads the marks of so many rows and lays out their places; gives the place of the first that are wrong. Once there are more than
/// `enough` places, rows are laid out as rows without words, though their marks are read as those of the others.
pub fn read_part(
    alloc: Global,
    image: &[u8],
    part: &[u8],
    schema: &Schema,
    rows: u32,
    enough: usize,
    starts: &mut Vec<u32>,
    cover: &mut Cover,
) -> Result<Option<usize>, NoMemory>
    requires schema { IsSchema schema.now }
    requires enough { enough < 2 ^ 31 }
    requires long { row_at schema.now rows ≤ length image.now }
    requires none { rows ≡ 0 → length part.now ≡ 0 }
    requires begin { (starts.old.items ≡ []) × (bits_of cover.old.taken ≡ []) }
    ensures { IfOk result (λ found. MatchOption found ((marks : List RowMarks) × AreMarksIn schema.now image.now part.now rows marks × (starts.new.items ≡ rows_starts [] (laid_rows enough [] marks)) × (bits_of cover.new.taken ≡ rows_bits [] (laid_rows enough [] marks)) × (cover.new.least ≡ rows_least 0 cover.old.least (laid_rows enough [] marks))) (λ place. AreBadMarksIn schema.now image.now part.now rows place)) }
{
    match read_rows(alloc, image, part, schema, rows, enough, starts, cover)? {
        Some(place) => Ok(Some(place)),
        None => {
            let end = cover.taken.len();
            if end > u32::MAX as usize {
                return Err(NoMemory);
            }
            starts.push(end as u32)?;
            Ok(None)
        }
    }
}
