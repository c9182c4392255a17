use srch_base::Items;

/// A call on a disk in memory, by what it did.
#[derive(Drop)]
pub(crate) enum Call {
    /// Wrote these bytes.
    Wrote {
        file: u32,
        at: u64,
        bytes: Items<u8>,
    },
    Synced(u32),
    Removed(u32),
    /// Only looked, or failed and did nothing.
    Idle,
}
