//! What a disk is: files by numbers, what a read gives, and what a crash may leave; in memory, and over a folder.
#![tactic(auto)]

mod call;
mod crash;
mod dir_disk;
mod disk;
mod folder;
mod memory_disk;
mod stored;
mod synced;
mod whole;

pub use dir_disk::DirDisk;
pub use disk::Disk;
pub use memory_disk::MemoryDisk;
pub use synced::{put, remake};
pub use whole::read_whole;
