//! Columns and marks of the rows, in their new order.
ghost use Rattle.std.specs.Prelude.{◌≡◌, ◌<◌, ◌++◌, [], All, length, map, OnOk};
ghost use Rattle.std.specs.List.{flat_map};
ghost use Rattle.doc_bytes.specs.Payload.{value_bytes};
ghost use Rattle.doc_bytes.specs.RoundTrip.{IsNumber};
ghost use Rattle.chunk_image.specs.ChunkImage.{HasRoom, marks_bytes, row_bytes, rows_bytes};
ghost use Rattle.image_join.specs.steps.Numbering.{IsThere, row_in};
ghost use Rattle.image_join.specs.steps.Parts.{row_at};

use crate::copying::CopyBytes;
use crate::ordering::Living;
use crate::parts::Part;
use crate::places::low_place;
use doc_types::Value;
use srch_base::{NoMemory, put_u32, put_u64};

/// Appends the columns of the rows to one list and their marks to another, which is empty.
pub(crate) fn put_rows<C: CopyBytes>(
    parts: &[Part<C>],
    order: &[Living],
    attrs: u16,
    columns: &mut Vec<u8>,
    marks: &mut Vec<u8>,
) -> Result<(), NoMemory>
    requires there { All (IsThere parts.now) order.now }
    requires wide { All (λ living. length (row_in parts.now living).doc.values ≡ attrs) order.now }
    requires none { marks.old.items ≡ [] }
    ensures columns { OnOk result (columns.new.items ≡ columns.old.items ++ rows_bytes 0 (map (row_in parts.now) order.now)) }
    ensures marks { OnOk result (marks.new.items ≡ marks_bytes (map (row_in parts.now) order.now)) }
    ensures room { OnOk result (All HasRoom (map (row_in parts.now) order.now)) }
{
    for living in order {
        let place = low_place(marks);
        let part = &parts[living.part as usize];
        put_row(part, living.row, attrs, place, columns)?;
        marks.extend_from_slice(part.marks(living.row))?;
    }
    Ok(())
}

/// Appends the columns of a row whose marks begin here.
fn put_row<C: CopyBytes>(
    part: &Part<C>,
    row: u32,
    attrs: u16,
    marks: u32,
    out: &mut Vec<u8>,
) -> Result<(), NoMemory>
    requires row { row < length part.now.rows }
    requires wide { length (row_at part.now row).doc.values ≡ attrs }
    ensures columns { OnOk result (out.new.items ≡ out.old.items ++ row_bytes marks (row_at part.now row)) }
    ensures room { OnOk result (HasRoom (row_at part.now row)) }
{
    put_u64(part.id(row), out)?;
    put_u64(part.born(row), out)?;
    put_values(part, row, attrs, out)?;
    put_u32(marks, out)
}

/// Appends the values of a row.
fn put_values<C: CopyBytes>(
    part: &Part<C>,
    row: u32,
    attrs: u16,
    out: &mut Vec<u8>,
) -> Result<(), NoMemory>
    requires row { row < length part.now.rows }
    requires wide { length (row_at part.now row).doc.values ≡ attrs }
    ensures values { OnOk result (out.new.items ≡ out.old.items ++ flat_map value_bytes (row_at part.now row).doc.values) }
    ensures room { OnOk result (All IsNumber (row_at part.now row).doc.values) }
{
    for attr in 0..attrs {
        put_value(part.value(row, attr), out)?;
    }
    Ok(())
}

/// Appends a value.
fn put_value(value: Value, out: &mut Vec<u8>) -> Result<(), NoMemory>
    ensures value { OnOk result (out.new.items ≡ out.old.items ++ value_bytes value) }
    ensures room { IsNumber value }
{
    let Value::Whole(number) = value;
    put_u64(number.cast_unsigned(), out)
}
