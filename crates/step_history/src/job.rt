/// What a job does: FLUSH puts the rows that live in memory into one chunk on the disk, OPTIMIZE all rows that live.
#[derive(Clone, Copy, PartialEq, Eq)]
pub enum Job {
    Flush,
    Optimize,
}
