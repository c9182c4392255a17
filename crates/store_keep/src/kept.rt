//! What is kept of an index.

use chunk_store::Disk;
use std::alloc::Global;
use step_book::Naming;
use step_line::Line;
use store_steps::Files;

/// The disk, with what is known of its files, and the line of what is published. All that a commit changes is here.
pub(crate) struct Kept<D: Disk, J: Naming> {
    pub(crate) alloc: Global,
    pub(crate) disk: D,
    pub(crate) files: Files,
    pub(crate) line: Line<J>,
}
