//! The fixed part of rows: id, commit, values, and where the row's marks begin.
ghost use Rattle.std.specs.Prelude.{◌≡◌, ◌+◌, ◌*◌, ◌++◌, [], All, OnOk, map};
ghost use Rattle.std.specs.List.{flat_map};
ghost use Rattle.doc_types.specs.Documents.{IsDocOf};
ghost use Rattle.doc_types.specs.Schemas.{IsSchema};
ghost use Rattle.doc_types.specs.declared.schema.Schema.{Schema};
ghost use Rattle.doc_bytes.specs.Payload.{value_bytes};
ghost use Rattle.doc_bytes.specs.RoundTrip.{IsNumber};
ghost use Rattle.chunk_image.specs.ChunkImage.{HasRoom, marks_bytes, row_bytes, rows_bytes};
ghost use Rattle.image_write.specs.Written.{row_of};

use crate::image::place_in;
use crate::lending::LendsDoc;
use crate::marks::put_marks;
use doc_types::{Doc, Value};
use srch_base::{NoMemory, put_u32, put_u64};

/// How many bytes the columns of a row with so many attributes take.
pub fn row_size(attrs: u16) -> usize
    ensures { result ≡ 20 + 8 * attrs }
{
    20 + 8 * attrs as usize
}

/// Appends the columns of all rows to one list and their marks to another, which is empty. Documents without a number of their own
/// have this one.
pub(crate) fn put_rows<R: LendsDoc>(
    rows: &[R],
    number: u64,
    columns: &mut Vec<u8>,
    marks: &mut Vec<u8>,
) -> Result<(), NoMemory>
    requires rows { (schema : Schema) × IsSchema schema × All (λ row. IsDocOf schema (R.lent row)) rows.now }
    requires none { marks.old.items ≡ [] }
    ensures columns { OnOk result (columns.new.items ≡ columns.old.items ++ rows_bytes 0 (map (λ row. row_of (R.lent row) (R.born_at number row)) rows.now)) }
    ensures marks { OnOk result (marks.new.items ≡ marks_bytes (map (λ row. row_of (R.lent row) (R.born_at number row)) rows.now)) }
    ensures room { OnOk result (All HasRoom (map (λ row. row_of (R.lent row) (R.born_at number row)) rows.now)) }
{
    for row in rows {
        let place = place_in(marks)?;
        put_row(row.doc(), row.born(number), place, columns)?;
        put_marks(row.doc(), marks)?;
    }
    Ok(())
}

/// Appends the columns of a row whose marks begin here.
fn put_row(doc: &Doc, born: u64, marks: u32, out: &mut Vec<u8>) -> Result<(), NoMemory>
    ensures columns { OnOk result (out.new.items ≡ out.old.items ++ row_bytes marks (row_of doc.now born)) }
    ensures room { OnOk result (HasRoom (row_of doc.now born)) }
{
    put_u64(doc.id, out)?;
    put_u64(born, out)?;
    put_values(doc.values.as_slice(), out)?;
    put_u32(marks, out)
}

fn put_values(values: &[Value], out: &mut Vec<u8>) -> Result<(), NoMemory>
    ensures values { OnOk result (out.new.items ≡ out.old.items ++ flat_map value_bytes values.now) }
    ensures room { OnOk result (All IsNumber values.now) }
{
    for value in values {
        put_value(*value, out)?;
    }
    Ok(())
}

fn put_value(value: Value, out: &mut Vec<u8>) -> Result<(), NoMemory>
    ensures value { OnOk result (out.new.items ≡ out.old.items ++ value_bytes value) }
    ensures room { IsNumber value }
{
    let Value::Whole(number) = value;
    put_u64(number.cast_unsigned(), out)
}
