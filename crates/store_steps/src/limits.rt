//! What there can't be more of in a store.

/// The place of a log's closed gate at most.
pub const MOST_LOG: u64 = 33_554_432;

/// The same behind a record that removes documents and puts none.
pub const MOST_LOG_BY_REMOVALS: u64 = 34_603_008;

/// The greatest number of a commit.
pub const LAST_COMMIT: u64 = (1 << 63) - 1;
