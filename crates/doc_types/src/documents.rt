//! A document, and the same as an index holds it: with the number of the commit that put it.
ghost use Rattle.std.specs.Prelude.{◌≡◌};

use crate::schema::Value;
use crate::tokens::FieldTokens;
use srch_base::Items;
use std::alloc::AllocError;

/// A document: its tokens by field, and its values by attribute, both in the order of the schema.
#[derive(Drop, PartialEq, Eq)]
pub struct Doc {
    pub id: u64,
    pub fields: Items<FieldTokens>,
    pub values: Items<Value>,
}

/// A document as an index holds it.
#[derive(Drop, PartialEq, Eq)]
pub struct DocRow {
    pub doc: Doc,
    /// The number of the commit that put it.
    pub born: u64,
}

/// A copy equals what it copies.
impl Clone for Doc {
    ghost is_clone = { λ a b. b ≡ a };

    fn clone(&self) -> Result<Self, AllocError> {
        Ok(Doc {
            id: self.id,
            fields: self.fields.clone()?,
            values: self.values.clone()?,
        })
    }
}

/// A copy equals what it copies.
impl Clone for DocRow {
    ghost is_clone = { λ a b. b ≡ a };

    fn clone(&self) -> Result<Self, AllocError> {
        Ok(DocRow {
            doc: self.doc.clone()?,
            born: self.born,
        })
    }
}
