//! Images byte by byte: of no document, of one, and of two.
ghost use Rattle.doc_vectors.specs.steps.Columns.{AreListed};

use crate::documents::rows_of;
use doc_types::DocRow;
use image_write::{write_counted, write_docs};
use std::alloc::Global;

/// The image of no document of one field.
pub(crate) const OF_NONE: &str = "\
53524348554e4b31\
000000000100000000000000000000000000000000000000";

/// That of `hello world`, worked out by hand. Its lines here:
///
/// ```text
/// the magic
/// 1 row, 1 field, no attribute, 2 words; 3 bytes of marks, 12 of the dictionary, 8 of postings
/// id 7, commit 1, marks at 0
/// last position, no boundary, no span
/// the table of words: places in the dictionary, rows, places in the postings
/// `hello` and `world`, behind their lengths
/// row 0, positions 1 and 2 of field 0
/// ```
pub(crate) const OF_ONE: &str = "\
53524348554e4b31\
010000000100000002000000030000000c00000008000000\
0700000000000000010000000000000000000000\
020000\
000000000100000000000000060000000100000004000000\
0568656c6c6f05776f726c64\
0102010101020102";

/// That of the two with long words, worked out apart from the program. Its lines here:
///
/// ```text
/// the magic
/// 2 rows, 1 field, no attribute, 9 words, and lengths
/// the row 3 of commit 9
/// the row 5 of commit 9
/// marks: the last positions
/// the table of words
/// the dictionary
/// postings
/// ```
pub(crate) const OF_TWO: &str = "\
53524348554e4b31\
02000000010000000900000006000000720000002e000000\
0300000000000000090000000000000000000000\
0500000000000000090000000000000003000000\
080000050000\
0000000001000000000000000200000001000000050000002900000001000000090000002b000000010000000d000000340000000100000011000000\
3f00000002000000150000004d000000010000001e0000005d00000001000000220000006c0000000200000026000000\
0161266162636465666768696a6b6c6d6e6f707172737475767778797a6162636465666768696a6b6c016208696e7465726e61740a696e7465726e61\
74696f0d696e7465726e6174696f6e616c0f696e7465726e6174696f6e616c6c790e696e7465726e6174696f6e616c73057a65627261\
01030204040202010402020103010201030202010501030201040102010201020106010201020102010701020101";

/// None where an image has other bytes.
fn has_bytes(alloc: Global, image: &[u8], wanted: &str) -> Option<()> {
    let digits = hex::encode(alloc, image).ok()?;
    (digits.as_str() == wanted).then_some(())
}

/// None where the image of rows of one field has.
fn is_written(alloc: Global, rows: &[DocRow], wanted: &str) -> Option<()>
    requires { AreListed 1 0 rows.now }
{
    let image = write_counted(alloc, rows, 1, 0).ok()?;
    has_bytes(alloc, image.as_slice(), wanted)
}

/// None where that of two documents of one field has, which are lent.
fn is_written_of_lent(alloc: Global, rows: &[DocRow], wanted: &str) -> Option<()>
    requires { AreListed 1 0 rows.now }
{
    match rows {
        [first, second] => {
            let image = write_docs(alloc, &[&first.doc, &second.doc], 9, 1, 0).ok()?;
            has_bytes(alloc, image.as_slice(), wanted)
        }
        _ => None,
    }
}

/// None where the image of a table's documents has other bytes. Two of them are lent as well.
pub(crate) fn is_image(alloc: Global, documents: &str, wanted: &str) -> Option<()> {
    let rows = rows_of(alloc, documents, 1, 0)?;
    if rows.len() == 2 {
        is_written_of_lent(alloc, rows.as_slice(), wanted)?;
    }
    is_written(alloc, rows.as_slice(), wanted)
}
