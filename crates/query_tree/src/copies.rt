//! Copies of keywords.
ghost use Rattle.std.specs.Prelude.{◌≡◌, IfOk};

use crate::key::{Key, Limit};
use sqlite_items::Items;
use srch_base::NoMemory;
use std::alloc::Global;

/// A copy of a list of numbers.
pub fn copy_numbers(alloc: Global, numbers: &Items<u16>) -> Result<Items<u16>, NoMemory>
    ensures { IfOk result (λ copy. copy ≡ numbers.now) }
{
    Ok(Items::from_slice(alloc, numbers.as_slice())?)
}

/// A copy of a keyword.
pub fn copy_key(alloc: Global, key: &Key) -> Result<Key, NoMemory>
    ensures { IfOk result (λ copy. copy ≡ key.now) }
{
    Ok(Key {
        query: key.query,
        word: key.word.clone()?,
        limit: Limit {
            fields: key.limit.fields,
            positions: key.limit.positions,
            zones: copy_numbers(alloc, &key.limit.zones)?,
        },
        start: key.start,
        end: key.end,
        prefix: key.prefix,
    })
}

/// A copy of keywords.
pub fn copy_keys(alloc: Global, keys: &Items<Key>) -> Result<Items<Key>, NoMemory>
    ensures { IfOk result (λ copies. copies ≡ keys.now) }
{
    let mut copies = Items::new(alloc);
    'keys: for key in keys.as_slice() {
        copies.push(copy_key(alloc, key)?)?;
    }
    Ok(copies)
}
