//! Whether the ids of rows ascend.
ghost use Rattle.std.specs.Prelude.{◌<◌, ◌≤◌, MatchOption, length};
ghost use Rattle.doc_types.specs.Schemas.{IsSchema};
ghost use Rattle.chunk_damage.specs.Header.{row_at};
ghost use Rattle.chunk_damage.specs.RowOrder.{AreAscending, IsUnordered};

use crate::fixed::u64_in;
use crate::header::HEADER;
use doc_types::Schema;

#[tactic(auto, using(crate::proofs::Ascending::ascended_none, crate::proofs::Ascending::within, crate::proofs::Ascending::ascended_more, crate::proofs::Ascending::ascended_stop))]
/// The first of so many rows whose id isn't above that of the row before.
pub fn unordered_row(image: &[u8], schema: &Schema, rows: u32) -> Option<u32>
    requires limits { IsSchema schema.now }
    requires long { row_at schema.now rows ≤ length image.now }
    ensures { MatchOption result (AreAscending schema.now image.now rows) (λ row. (row < rows) × IsUnordered schema.now image.now row) }
{
    let stride = 20 + 8 * schema.attrs.len();
    let mut at = HEADER;
    let mut before = 0;
    'rows: for row in 0..rows {
        let id = u64_in(image, at);
        if row > 0 && id <= before {
            return Some(row);
        }
        before = id;
        at += stride;
    }
    None
}
