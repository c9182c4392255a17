//! Occurrences: where a part of a query is found.

/// An occurrence of a part of a query in a document: a field, and the positions from the first to the last one.
#[derive(Clone, Copy, Debug, PartialEq, Eq)]
pub struct Occ {
    /// The field's number, from 0.
    pub field: u16,
    /// The position of its first word, from 1.
    pub first: u32,
    pub last: u32,
}
