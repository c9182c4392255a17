use store_steps::Damage;

/// Why the chunks of a root aren't read.
#[derive(Clone, Copy, Debug, PartialEq, Eq, Drop)]
pub enum ChunkFault {
    /// The disk failed.
    Failed,
    Damaged(Damage),
}
