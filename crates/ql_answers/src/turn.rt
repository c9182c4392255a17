//! What becomes of a session's transaction.

/// What a statement that is no write makes of the transaction and of AUTOCOMMIT, once what it commits is committed.
#[derive(Clone, Copy, PartialEq, Eq)]
pub enum Turn {
    /// All stays.
    Stays,
    /// A transaction is open from now on.
    Opens,
    /// The transaction is over.
    Ends,
    /// AUTOCOMMIT is this from now on; 1 ends the transaction.
    Sets(bool),
}
