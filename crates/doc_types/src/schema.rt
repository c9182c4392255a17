//! The columns of an index: fields, which are searched, and attributes, which are numbers; and the limits on both.
use srch_base::{Items, Name};

/// The most fields that an index has.
pub const MAX_FIELDS: usize = 32;

/// The most attributes that an index has.
pub const MAX_ATTRS: usize = 32;

/// The most zones that an index has.
pub const MAX_ZONES: usize = 32;

/// The most bytes of a name of an index, a column or a zone.
pub const MAX_NAME_BYTES: usize = 64;

/// The columns of an index, in the order of its configuration, and what else its documents are read by.
///
/// The calls that take a schema ask for one that keeps the limits (`IsSchema`). Names are kept in small letters.
#[derive(Clone, Drop, PartialEq, Eq)]
pub struct Schema {
    /// The index.
    pub name: Name,
    /// The columns that are searched.
    pub fields: Items<Name>,
    /// The columns of numbers.
    pub attrs: Items<(Name, AttrKind)>,
    /// The tags whose texts are zones; a zone's number is its place here.
    pub zones: Items<Name>,
    /// Ends of sentences and paragraphs are boundaries between words.
    pub sp: bool,
    /// The fewest characters of a prefix in a query; 0 where queries have none. It counts for queries alone, so nothing that
    /// an index keeps depends on it.
    pub min_prefix: u8,
}

/// The kind of an attribute, as the configuration names it.
#[derive(Clone, Copy, PartialEq, Eq)]
pub enum AttrKind {
    /// 0 to 4,294,967,295.
    Uint,
    /// 0 or 1.
    Bool,
    /// A signed number of 64 bits.
    Bigint,
    /// Seconds; 0 to 4,294,967,295.
    Timestamp,
}

/// The value of an attribute.
#[derive(Clone, Copy, PartialEq, Eq)]
pub enum Value {
    /// A number of any of the kinds.
    Whole(i64),
}
