//! What the words of a row must be, for the row to match: a formula without negation over the numbers of keywords.
//!
//! A query asks more of a row than its plan does (that words stand side by side, or that one isn't there), and never less. So
//! the rows that the plan leaves out are rows that needn't be looked at, and of those that it lets through the query's tree
//! decides.
use sqlite_items::Items;

/// A formula over the words that a row has.
#[derive(Drop)]
pub enum Plan {
    /// The keyword of this number, from 0 in the order of the query.
    Word(u16),
    /// All of these; every row where there are none. The rarest stands first, since the first that a row hasn't says how far the
    /// next row may be.
    All(Items<Plan>),
    /// Any of these; no row where there are none.
    Any(Items<Plan>),
    /// So many of these keywords.
    Enough { least: u32, words: Items<u16> },
}
