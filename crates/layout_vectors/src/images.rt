//! Images of chunks, opened or refused at their first damage.
ghost use Rattle.doc_types.specs.Schemas.{IsSchema};

use crate::payloads::put_of_index;
use crate::tables::IMAGE;
use chunk_open::open;
use doc_types::Schema;
use srch_base::Or;
use std::alloc::Global;

/// Tells whether bytes are an image of an index with these columns, or where they are damaged first.
pub(crate) fn put_opened(
    alloc: Global,
    schema: &Schema,
    bytes: &[u8],
    told: &mut String,
) -> Option<()>
    requires { IsSchema schema.now }
{
    match open(alloc, bytes.to_vec(alloc).ok()?, schema) {
        Ok(chunk) => told
            .push_str(if chunk.as_bytes() == bytes {
                "ok"
            } else {
                "other bytes"
            })
            .ok(),
        Err(Or::Fault(bad)) => {
            let place = bad.place;
            let kind = bad.kind;
            write!(told, "{place}: {kind}").ok()
        }
        Err(Or::NoMemory) => None,
    }
}

/// The image of the example with these bytes in the place of its own from this place on.
fn changed(alloc: Global, from: usize, part: &[u8]) -> Option<Vec<u8>> {
    let mut bytes = hex::decode(alloc, IMAGE).ok()?;
    let mut place = from;
    for byte in part {
        match bytes.get_mut(place) {
            Some(there) => *there = *byte,
            None => bytes.push(*byte).ok()?,
        }
        place = place.saturating_add(1);
    }
    Some(bytes)
}

/// Tells of the example's image once bytes of it are replaced.
pub(crate) fn put_changed(
    alloc: Global,
    from: usize,
    part: &[u8],
    told: &mut String,
) -> Option<()> {
    let bytes = changed(alloc, from, part)?;
    put_of_index(alloc, "image", "short", bytes.as_slice(), told)
}

/// Tells of the example's image, cut to so many bytes.
pub(crate) fn put_cut(alloc: Global, size: usize, told: &mut String) -> Option<()> {
    let bytes = hex::decode(alloc, IMAGE).ok()?;
    put_of_index(alloc, "image", "short", bytes.as_slice().get(..size)?, told)
}
