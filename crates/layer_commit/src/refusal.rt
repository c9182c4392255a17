//! Why a transaction is refused.

use commit_outcomes::Full;

/// A transaction is refused as a whole.
#[derive(Clone, Copy, PartialEq, Eq, Drop)]
pub enum Refusal {
    /// The id of an insertion is there: in the index, or by an earlier operation.
    Duplicate { id: u64 },
    /// More documents than an index may have would be there.
    Full(Full),
}
