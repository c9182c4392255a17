//! Terms: keywords as they are in a row.

/// A keyword of a query, with its places in the row at hand.
#[derive(Drop)]
pub struct Term {
    /// Its position in the query.
    pub query: u16,
    /// The number of its word among the distinct words of the query, which may be many.
    pub word: usize,
    /// Its limits and marks allow each place.
    pub free: bool,
    /// The row has its word, wherever that stands.
    pub present: bool,
    /// The places at which its limits allow it, by field and position.
    pub places: Vec<(u16, u32)>,
}
